// The number of cells that stay, by dimension.
ghost use Rattle.std.specs.Prelude.{◌≡◌, suc, ◌≤◌, length, count_by};
ghost use Rattle.sheet_format.specs.Layout.{top};
ghost use Rattle.sheet_format.specs.Check.{count_field};
ghost use Rattle.closures.specs.Keep.{cells_below};
ghost use Rattle.cell_keeper.specs.Unmarked.{stays, unmarked_cells, Counts};

use fields::field::{TOP, count};

// The sections of a sheet.
pub const SECTIONS: usize = TOP + 1;

// How many of the cells with these marks stay.
fn count_section(marks: &[u8]) -> usize
    ensures { result ≡ count_by stays marks.now }
{
    marks.iter().filter(|mark| **mark != 1).count()
}

// How many cells of each dimension stay.
pub fn count_cells(s: &[u8], marks: &[u8]) -> [usize; SECTIONS]
    requires { cells_below (count_field s.now) (suc top) ≤ length marks.now }
    ensures { Counts (unmarked_cells s.now marks.now) result }
{
    let mut counts = [0usize; SECTIONS];
    let mut from: usize = 0;
    for p in 0..SECTIONS {
        let many = count(s, p);
        let stay = count_section(&marks[from..from + many]);
        counts[p] = stay;
        from += many;
    }
    counts
}
