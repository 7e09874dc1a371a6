// The vertices of the edges of a sheet, and whether a vertex is one of them.
ghost use Rattle.std.specs.Prelude.{◌≡◌, ◌<◌};
ghost use Rattle.sheet_format.specs.Check.{count_field, sections_of, loose};
ghost use Rattle.node_maps.specs.Map.{Empty};
ghost use Rattle.loose_nodes.specs.Loose.{MapsEdges};

use fields::field::{count, field, start};
use node_maps::map::NodeMap;

// Lists both vertices of every edge in a map that lists no node.
pub fn list_edges(s: &[u8], map: &mut NodeMap)
    requires { Empty map.old.bytes }
    ensures { MapsEdges (sections_of s.now) map.new.bytes }
{
    let at = start(s, 1);
    let vertices = 2 * count(s, 1);
    for j in 0..vertices {
        map.list(field(s, at + 2 * j));
    }
}

// Whether vertex i is loose, in a sheet that has an edge and the vertices of whose edges the map lists.
pub fn is_loose(s: &[u8], map: &NodeMap, i: usize) -> bool
    requires { (0 < count_field s.now 1) × (i < count_field s.now 0) × MapsEdges (sections_of s.now) map.now.bytes }
    ensures { result ≡ loose (sections_of s.now) i }
{
    !map.is_listed(field(s, start(s, 0) + 2 * i))
}
