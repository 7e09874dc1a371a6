// The faces of the cells are added, those of the highest dimension first.
ghost use Rattle.std.specs.Prelude.{◌≡◌, ◌<◌};
ghost use Rattle.closures.specs.Closure.{element_top};
ghost use Rattle.cell_sets.specs.Close.{AddsFaces, ClosesSection, Closes};

use crate::insert::Full;
use crate::set::{CellSet, ELEMENT_TOP};
use cells::word::leave_out;

impl CellSet {
    // Adds the faces of the cell of dimension p + 1 with this word.
    fn add_faces(&mut self, p: usize, word: u64) -> Result<(), Full>
        requires { p < element_top }
        ensures limit { self.new.limit ≡ self.old.limit }
        ensures adds { AddsFaces p word self.old result self.new }
    {
        for behind in (0..p + 2).rev() {
            self.add(p, leave_out(word, behind))?;
        }
        Ok(())
    }

    // Adds the faces of all cells of dimension p + 1.
    fn close_section(&mut self, p: usize) -> Result<(), Full>
        requires { p < element_top }
        ensures limit { self.new.limit ≡ self.old.limit }
        ensures closes { ClosesSection p self.old result self.new }
    {
        for i in 0..self.counts[p + 1] {
            let word = self.words[(p + 1) * self.limit + i];
            self.add_faces(p, word)?;
        }
        Ok(())
    }

    // Adds all faces of the cells.
    pub fn close(&mut self) -> Result<(), Full>
        ensures limit { self.new.limit ≡ self.old.limit }
        ensures closes { Closes self.old result self.new }
    {
        for p in (0..ELEMENT_TOP).rev() {
            self.close_section(p)?;
        }
        Ok(())
    }
}
