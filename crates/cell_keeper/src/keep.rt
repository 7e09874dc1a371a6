// The sheet of the cells whose marks are not 1.
ghost use Rattle.std.specs.Prelude.{ℕ, suc, ◌≤◌, length};
ghost use Rattle.limits.specs.Limits.{library_limit};
ghost use Rattle.sheet_format.specs.Layout.{top};
ghost use Rattle.sheet_format.specs.Check.{count_field};
ghost use Rattle.closures.specs.Keep.{cells_below};
ghost use Rattle.cell_keeper.specs.Keeps.{Keeps};

use crate::copy::keep_sections;
use crate::count::{SECTIONS, count_cells};
use refusal::Refusal;
use sheet_writer::write::{section_start, write_header};

// Writes the sheet of the cells whose marks are not 1, if it fits. The marks are a byte for each cell of the sheet, dimension by dimension.
pub fn keep_cells(s: &[u8], marks: &[u8], out: &mut [u8]) -> Result<usize, Refusal>
    requires { ((p : ℕ) → count_field s.now p ≤ library_limit) × (cells_below (count_field s.now) (suc top) ≤ length marks.now) }
    ensures { Keeps s.now marks.now out.old result out.new }
{
    let counts = count_cells(s, marks);
    let length = section_start(&counts, SECTIONS);
    if out.len() < length {
        return Err(Refusal::SheetTooLong);
    }
    write_header(&counts, out);
    keep_sections(s, marks, out);
    Ok(length)
}
