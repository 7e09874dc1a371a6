// The import call.
ghost use Rattle.std.specs.Prelude.{◌≤◌, length};
ghost use Rattle.limits.specs.Limits.{library_limit};
ghost use Rattle.imports.specs.Import.{import_call};
ghost use Rattle.refusal.specs.Written.{WriteAnswers};
ghost use Rattle.importer.specs.Closure.{HeldOwn, WritesClosure};

use crate::elements::read_elements;
use crate::nodes::read_nodes;
use cell_sets::set::{CellSet, SECTIONS};
use fields::field::HEADER_LENGTH;
use mesh_reader::head::read_head;
use node_maps::map::NodeMap;
use refusal::Refusal;
use sheet::reader::Sheet;
use sheet_writer::write::{sheet_length, write_sheet};
use sweeper::sweep::write_swept;

// The vertex numbers, of two bytes each, in one cell of each dimension: 1 + .. + SECTIONS.
const VERTICES: usize = SECTIONS * (SECTIONS + 1) / 2;

// The bytes of the longest sheet within the library's limit.
const LONGEST: usize = HEADER_LENGTH + 2 * (Sheet::LIBRARY_LIMIT * VERTICES);

// Adds the faces of the cells, and writes what the sweep makes of their sheet if the sheet fits.
fn write_closure(cells: &mut CellSet, out: &mut [u8]) -> Result<usize, Refusal>
    requires { HeldOwn cells.old }
    ensures { WritesClosure cells.old out.old result out.new }
{
    cells.close()?;
    if out.len() < sheet_length(cells) {
        return Err(Refusal::SheetTooLong);
    }
    let mut unswept = [0u8; LONGEST];
    write_sheet(cells, &mut unswept);
    write_swept(&unswept, out)
}

// The import at a count limit.
pub fn import_at(sheet: Sheet, text: &[u8], out: &mut [u8]) -> Result<usize, Refusal>
    requires { sheet.limit ≤ library_limit }
    ensures { WriteAnswers (import_call sheet.limit text.now out.old) result out.new }
{
    let mut map = NodeMap::new();
    let mut cells = CellSet::new(sheet.limit);
    let head = read_head(text).ok_or(Refusal::MeshMalformed)?;
    let nodes = read_nodes(head, &mut map).ok_or(Refusal::MeshMalformed)?;
    let (outcome, end) = read_elements(nodes, &map, &mut cells).ok_or(Refusal::MeshMalformed)?;
    if end.at != text.len() {
        return Err(Refusal::MeshMalformed);
    }
    outcome?;
    write_closure(&mut cells, out)
}

// Reads a mesh text, and writes the sheet of all its cells and their faces without loose nodes.
pub fn import(text: &[u8], out: &mut [u8]) -> Result<usize, Refusal>
    ensures { WriteAnswers (import_call library_limit text.now out.old) result out.new }
{
    import_at(Sheet::library(), text, out)
}
