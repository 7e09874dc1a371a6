// The sweep call.
ghost use Rattle.std.specs.Prelude.{ℕ, ◌≤◌};
ghost use Rattle.limits.specs.Limits.{library_limit};
ghost use Rattle.sheet_format.specs.Check.{count_field, sections_of};
ghost use Rattle.sweeps.specs.Sweep.{swept_sheet, sweep_call};
ghost use Rattle.refusal.specs.Written.{WriteAnswers};
ghost use Rattle.cell_keeper.specs.Keeps.{write_over};

use cell_keeper::keep::keep_cells;
use fields::field::TOP;
use loose_nodes::marks::mark_loose;
use refusal::Refusal;
use sheet::reader::Sheet;

// The cells that marks have room for.
const CELLS: usize = (TOP + 1) * Sheet::LIBRARY_LIMIT;

// Writes the sheet without its loose nodes, if it fits.
pub fn write_swept(s: &[u8], out: &mut [u8]) -> Result<usize, Refusal>
    requires { (p : ℕ) → count_field s.now p ≤ library_limit }
    ensures { WriteAnswers (write_over (swept_sheet (sections_of s.now)) out.old) result out.new }
{
    let mut marks = [0u8; CELLS];
    mark_loose(s, &mut marks);
    keep_cells(s, &marks, out)
}

// The sweep at a count limit.
pub fn sweep_at(sheet: Sheet, s: &[u8], out: &mut [u8]) -> Result<usize, Refusal>
    requires { sheet.limit ≤ library_limit }
    ensures { WriteAnswers (sweep_call sheet.limit s.now out.old) result out.new }
{
    sheet.read_complex(s)?;
    write_swept(s, out)
}

// Writes a sheet without its loose nodes.
pub fn sweep(s: &[u8], out: &mut [u8]) -> Result<usize, Refusal>
    ensures { WriteAnswers (sweep_call library_limit s.now out.old) result out.new }
{
    sweep_at(Sheet::library(), s, out)
}
