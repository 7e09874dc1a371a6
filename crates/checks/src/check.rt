// The checks 2, 3, 5, 6 and 7.
ghost use Rattle.std.specs.Prelude.{◌≡◌, false, not, suc, ◌<◌};
ghost use Rattle.complexes.specs.Cell.{without, listed};
ghost use Rattle.complexes.specs.Complex.{section, count, cell};
ghost use Rattle.sheet_format.specs.Layout.{top};
ghost use Rattle.sheet_format.specs.Check.{sections_of, some, count_exceeds, offset_differs, vertices_do_not_rise, cells_do_not_rise, face_missing};

use crate::rise::{cells_fall, vertices_fall};
use cells::face::{FACES, find_faces};
use cells::section::Section;
use fields::field::{DIMENSIONS, TOP, count, field, start};

// Check 2.
pub fn count_exceeds(s: &[u8], limit: usize) -> bool
    ensures { result ≡ count_exceeds limit s.now }
{
    (0..DIMENSIONS).any(|p| limit < count(s, p))
}

// Check 3.
pub fn offset_differs(s: &[u8]) -> bool
    ensures { result ≡ offset_differs s.now }
{
    (0..DIMENSIONS).any(|p| field(s, 4 * p + 2) != start(s, p))
}

// Check 5.
pub fn vertices_do_not_rise(s: &[u8]) -> bool
    ensures { result ≡ vertices_do_not_rise (sections_of s.now) }
{
    (0..DIMENSIONS).any(|p| vertices_fall(s, p))
}

// Check 6.
pub fn cells_do_not_rise(s: &[u8]) -> bool
    ensures { result ≡ cells_do_not_rise (sections_of s.now) }
{
    (0..DIMENSIONS).any(|p| cells_fall(s, p))
}

// Check 7 for the cells of section p + 1, on a sheet that passes check 6.
fn section_misses(s: &[u8], p: usize) -> bool
    requires { (p < top) × (cells_do_not_rise (sections_of s.now) ≡ false) }
    ensures { result ≡ some (count (sections_of s.now) (suc p))
        (λ i. some (suc (suc p)) (λ j. not (listed (without j (cell (sections_of s.now) (suc p) i)) (section (sections_of s.now) p)))) }
{
    let cells = Section::of(s, p + 1);
    let faces = Section::of(s, p);
    let mut places = [0usize; FACES];
    for i in 0..cells.many {
        if !find_faces(s, cells.byte(i), faces, &mut places) {
            return true;
        }
    }
    false
}

// Check 7, on a sheet that passes check 6.
pub fn face_missing(s: &[u8]) -> bool
    requires { cells_do_not_rise (sections_of s.now) ≡ false }
    ensures { result ≡ face_missing (sections_of s.now) }
{
    (0..TOP).any(|p| section_misses(s, p))
}
