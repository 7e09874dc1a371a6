// Whether the nodes of an element are listed.
ghost use Rattle.std.specs.Prelude.{◌≡◌, ◌≤◌, length};
ghost use Rattle.complexes.specs.Packed.{word_vertices};
ghost use Rattle.node_maps.specs.Map.{map_length};
ghost use Rattle.mesh_elements.specs.Listed.{AllListed};

use cell_sets::vertices::vertex;
use node_maps::map::is_listed;

// Whether all n nodes of the word are listed.
pub fn all_listed(map: &[u8], word: u64, n: usize) -> bool
    requires { (n ≤ word_vertices) × (length map.now ≡ map_length) }
    ensures { AllListed map.now word n result }
{
    (0..n).all(|behind| is_listed(map, vertex(word, behind) as usize))
}
