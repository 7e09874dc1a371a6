// A section of a sheet: the cells of one dimension.
ghost use Rattle.std.specs.Prelude.{◌≡◌, suc, ◌+◌, ◌*◌, ◌^◌, ◌≤◌, ◌<◌};
ghost use Rattle.complexes.specs.Packed.{word_vertices};

use crate::word::pack;
use fields::field::{count, start};

// `many` cells of `vertices` vertices each, from byte `at` on.
#[derive(Clone, Copy)]
pub struct Section {
    pub at: usize,
    pub vertices: usize,
    pub many: usize,
    ghost bounded: { (at < 2 ^ 31) × (0 < vertices) × (vertices ≤ word_vertices) × (many < 65536) },
}

impl Section {
    ghost use Rattle.cells.specs.Section.{IsSection, cell_in};
    ghost use Rattle.cells.specs.Word.{Packs};

    // The section of dimension p, whose cells have a word.
    pub fn of(s: &[u8], p: usize) -> Section
        requires { p < word_vertices }
        ensures { IsSection s.now p result }
    {
        Section {
            at: start(s, p),
            vertices: p + 1,
            many: count(s, p),
        }
    }

    // The byte at which cell i starts, or for i = many the byte at which the section ends.
    pub fn byte(self, i: usize) -> usize
        requires { i ≤ 65536 }
        ensures is { result ≡ self.at + 2 * (self.vertices * i) }
        ensures below { result ≤ self.at + 2 ^ 19 }
    {
        self.at + 2 * (self.vertices * i)
    }

    // The word of cell i.
    pub fn word(self, s: &[u8], i: usize) -> u64
        requires { i < 65536 }
        ensures { Packs self.vertices (cell_in s.now self i) result }
    {
        pack(s, self.byte(i), self.vertices)
    }
}
