// The cells of the elements, gathered by dimension.
ghost use Rattle.std.specs.Prelude.{◌≡◌};
ghost use Rattle.node_maps.specs.Map.{in_map};
ghost use Rattle.importer.specs.Gather.{AddsElement};

use cell_sets::set::CellSet;
use mesh_elements::element::check_element;
use mesh_lines::answer::Element;
use node_maps::map::NodeMap;
use refusal::Refusal;

// Adds the cell of one more element to those of the elements before. An element that is faulty is refused first, here or before; then a cell that is one
// too many for its dimension.
pub fn add_element(
    map: &NodeMap,
    element: Element,
    before: Result<(), Refusal>,
    cells: &mut CellSet,
) -> Result<(), Refusal>
    ensures limit { cells.new.limit ≡ cells.old.limit }
    ensures adds { AddsElement cells.old.limit (in_map map.now.bytes) element before cells.old result cells.new }
{
    let (dimension, word) = check_element(&map.bytes, element)?;
    before?;
    cells.add(dimension, word)?;
    Ok(())
}
