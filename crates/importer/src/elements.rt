// The elements of a mesh text.
ghost use Rattle.std.specs.Prelude.{◌≡◌, []};
ghost use Rattle.cell_sets.specs.Set.{Holds};
ghost use Rattle.mesh_format.specs.Parse.{element_lines, elements_of};
ghost use Rattle.node_maps.specs.Map.{in_map};
ghost use Rattle.importer.specs.Gather.{own_cells};
ghost use Rattle.importer.specs.Elements.{TellsElements};

use crate::gather::add_element;
use cell_sets::set::CellSet;
use mesh_lines::line::{count_line, element_line};
use mesh_reader::keywords::{ELEMENTS, END_ELEMENTS};
use mesh_reader::title::the_title;
use mesh_words::reader::Reader;
use node_maps::map::NodeMap;
use refusal::Refusal;

// Reads n lines of elements, and gathers their cells. What is answered is whether that was refused, and the reader behind the lines.
fn gather_elements<'a>(
    r: Reader<'a>,
    n: usize,
    map: &NodeMap,
    cells: &mut CellSet,
) -> Option<(Result<(), Refusal>, Reader<'a>)>
    requires { Holds cells.old (own_cells []) }
    ensures limit { cells.new.limit ≡ cells.old.limit }
    ensures tells { TellsElements cells.old.limit (in_map map.now.bytes) r.entry (element_lines n r.entry.text.now r.entry.at) result cells.new }
{
    let mut here = r;
    let mut outcome = Ok(());
    for _ in 0..n {
        let (element, next) = element_line(here)?;
        outcome = add_element(map, element, outcome, cells);
        here = next;
    }
    Some((outcome, here))
}

// Reads `$Elements`, the count, the lines of the elements and `$EndElements`, and gathers the cells.
pub fn read_elements<'a>(
    r: Reader<'a>,
    map: &NodeMap,
    cells: &mut CellSet,
) -> Option<(Result<(), Refusal>, Reader<'a>)>
    requires { Holds cells.old (own_cells []) }
    ensures limit { cells.new.limit ≡ cells.old.limit }
    ensures tells { TellsElements cells.old.limit (in_map map.now.bytes) r.entry (elements_of r.entry.text.now r.entry.at) result cells.new }
{
    let titled = the_title(r, ELEMENTS)?;
    let (n, lines) = count_line(titled)?;
    let (outcome, behind) = gather_elements(lines, n, map, cells)?;
    let end = the_title(behind, END_ELEMENTS)?;
    Some((outcome, end))
}
