// Whether a sheet has a loose node.
ghost use Rattle.std.specs.Prelude.{◌≡◌};
ghost use Rattle.sheet_format.specs.Check.{sections_of, loose_node};

use crate::edges::{is_loose, list_edges};
use fields::field::count;
use node_maps::map::NodeMap;

// Check 18: whether some vertex is loose.
pub fn loose_node(s: &[u8]) -> bool
    ensures { result ≡ loose_node (sections_of s.now) }
{
    if count(s, 1) == 0 {
        return false;
    }
    let mut map = NodeMap::new();
    list_edges(s, &mut map);
    (0..count(s, 0)).any(|i| is_loose(s, &map, i))
}
