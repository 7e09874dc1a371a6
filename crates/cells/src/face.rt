// The places of faces. The faces of rising cells nearly rise, so that the search for a face starts where that for the same face of the last cell
// ended.
ghost use Rattle.std.specs.Prelude.{◌≡◌, suc, ◌+◌, ◌*◌, ◌^◌, ◌≤◌, ◌<◌};
ghost use Rattle.complexes.specs.Packed.{word_vertices};
ghost use Rattle.sheet_format.specs.Layout.{top};
ghost use Rattle.sheet_format.specs.Check.{cell_of};
ghost use Rattle.cells.specs.Find.{Steps, FindsWord, FindsFaces, Rising};
ghost use Rattle.cells.specs.Section.{cells_in};

use crate::section::Section;
use crate::word::{leave_out, pack};
use fields::field::DIMENSIONS;

// A cell has at most this many faces.
pub const FACES: usize = DIMENSIONS;

// The next step of a search that has `left` cells left: twice the last one and one more, but at most half of the cells, rounded up.
fn farther(step: usize, left: usize) -> usize
    requires { (step < 65536) × (left < 65536) }
    ensures { Steps left result }
{
    (2 * step + 1).min(left.div_ceil(2))
}

// The place of the cell with this word in the section. The search starts at place `from`, if it is one, goes away from it by growing steps and, where
// these would pass over half of the cells left, halves.
fn find(s: &[u8], word: u64, section: Section, from: usize) -> Option<usize>
    requires { Rising (cells_in s.now section) }
    ensures { FindsWord section.vertices word (cells_in s.now section) result }
{
    let mut lo: usize = 0;
    let mut hi = section.many;
    let mut mid = if from < section.many { from } else { 0 };
    let mut step: usize = 0;
    while lo < hi {
        let other = section.word(s, mid);
        if word == other {
            return Some(mid);
        }
        if word < other {
            hi = mid;
            step = farther(step, hi - lo);
            mid = hi - step;
        } else {
            lo = mid + 1;
            step = farther(step, hi - lo);
            mid = lo + step - 1;
        }
    }
    None
}

// Whether all faces of the cell at byte a, which has one vertex more than the cells of the section, stand in the section. If so, `places` becomes their
// places, in the order of the vertices that they leave out. The search for each starts at the place that `places` held for it.
pub fn find_faces(s: &[u8], a: usize, section: Section, places: &mut [usize; FACES]) -> bool
    requires bounded { (a < 2 ^ 32) × (section.vertices ≤ top) × (section.vertices < word_vertices) }
    requires rising { Rising (cells_in s.now section) }
    ensures { FindsFaces section.vertices (cell_of s.now (suc section.vertices) a)
        (cells_in s.now section) result places.new }
{
    let cell = pack(s, a, section.vertices + 1);
    for j in 0..=section.vertices {
        let face = leave_out(cell, section.vertices - j);
        let Some(i) = find(s, face, section, places[j]) else {
            return false;
        };
        places[j] = i;
    }
    true
}
