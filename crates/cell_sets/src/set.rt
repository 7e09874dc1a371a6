// The words of the cells of a complex, section by section, at a limit for the cells of each dimension.
ghost use Rattle.std.specs.Prelude.{◌≤◌};
ghost use Rattle.limits.specs.Limits.{library_limit};
ghost use Rattle.cell_sets.specs.Words.{Rise};

use crate::insert::{Full, insert_word};
use sheet::reader::Sheet;

// The highest dimension of an element of a mesh.
pub const ELEMENT_TOP: usize = 3;

// The cells of a mesh have this many sections.
pub const SECTIONS: usize = ELEMENT_TOP + 1;

// The words of all sections.
const ROOM: usize = SECTIONS * Sheet::LIBRARY_LIMIT;

// Section p is the first counts[p] words from place p * limit on. They rise, and there are at most `limit` of them.
#[derive(Drop)]
pub struct CellSet {
    pub(crate) words: [u64; ROOM],
    pub(crate) counts: [usize; SECTIONS],
    pub(crate) limit: usize,
    pub ghost small: { limit ≤ library_limit },
    pub ghost rise: { Rise limit words counts },
}

impl CellSet {
    ghost use Rattle.std.specs.Prelude.{◌≡◌, [], length, get_or};
    ghost use Rattle.closures.specs.Closure.{element_top, own_sections};
    ghost use Rattle.cell_sets.specs.Set.{words_of, Holds, AddsCell};

    // No cell, at a limit.
    pub fn new(limit: usize) -> CellSet
        requires { limit ≤ library_limit }
        ensures limit { result.limit ≡ limit }
        ensures none { Holds result (own_sections element_top []) }
    {
        CellSet {
            words: [0; ROOM],
            counts: [0; SECTIONS],
            limit,
        }
    }

    // The number of cells of each dimension.
    pub fn counts(&self) -> &[usize; SECTIONS]
        ensures { result.now ≡ self.now.counts }
    {
        &self.counts
    }

    // The words of the cells of dimension p.
    pub fn section(&self, p: usize) -> &[u64]
        requires { p ≤ element_top }
        ensures words { result.now ≡ words_of self.now p }
        ensures counted { length result.now ≡ get_or self.now.counts p 0 }
    {
        let from = p * self.limit;
        &self.words[from..from + self.counts[p]]
    }

    // Adds the cell of dimension p with this word, unless it is there. Where there is no room for it nothing changes.
    pub fn add(&mut self, p: usize, word: u64) -> Result<(), Full>
        requires { p ≤ element_top }
        ensures limit { self.new.limit ≡ self.old.limit }
        ensures adds { AddsCell p word self.old result self.new }
    {
        let from = p * self.limit;
        let many = self.counts[p];
        self.counts[p] = insert_word(&mut self.words[from..from + self.limit], many, word)?;
        Ok(())
    }
}
