// The faces of a cell of an accepted sheet, by their places.
ghost use Rattle.std.specs.Prelude.{◌≡◌, suc, ◌<◌};
ghost use Rattle.complexes.specs.Boundary as spec;
ghost use Rattle.complexes.specs.Complex.{count};
ghost use Rattle.sheet_format.specs.Layout.{top};
ghost use Rattle.sheet_format.specs.Check.{sections_of};
ghost use Rattle.faces.specs.Face.{Accepted, AreFaces};

use cells::face::{FACES, find_faces};
use cells::section::Section;

// +1 for even t and -1 for odd t.
pub fn sign(t: usize) -> i64
    ensures { result ≡ spec.sign t }
{
    if t % 2 == 0 { 1 } else { -1 }
}

// Makes of `places` the places in section p of the p + 2 faces of cell j of section p + 1. The search for each starts at the place that `places` held
// for it.
pub fn face_places(s: &[u8], p: usize, j: usize, places: &mut [usize; FACES])
    requires accepted { Accepted s.now }
    requires p_lt_top { (p < top) × (j < count (sections_of s.now) (suc p)) }
    ensures { AreFaces s.now p j places.new }
{
    let cells = Section::of(s, p + 1);
    let faces = Section::of(s, p);
    find_faces(s, cells.byte(j), faces, places);
}
