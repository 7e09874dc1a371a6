// Whether an element is right.
ghost use Rattle.std.specs.Prelude.{◌≡◌, length};
ghost use Rattle.node_maps.specs.Map.{map_length, in_map};
ghost use Rattle.mesh_elements.specs.Element.{Checks};

use crate::kind::Simplex;
use crate::listed::all_listed;
use cell_sets::vertices::sort_vertices;
use mesh_lines::answer::Element;
use refusal::Refusal;

// The dimension and the word of the element's cell, or the refusal where the element is not right: its nodes are to be listed in the map.
pub fn check_element(map: &[u8], element: Element) -> Result<(usize, u64), Refusal>
    requires { length map.now ≡ map_length }
    ensures { Checks (in_map map.now) element result }
{
    let simplex = Simplex::try_from(element.kind)?;
    let n = simplex.vertices;
    if element.many != n || !all_listed(map, element.packed, n) {
        return Err(Refusal::ElementFaulty);
    }
    let sorted = sort_vertices(element.packed, n);
    if sorted.many != n {
        return Err(Refusal::ElementFaulty);
    }
    Ok((simplex.dimension, sorted.word))
}
