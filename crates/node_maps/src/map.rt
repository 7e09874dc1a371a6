// A set of vertex numbers, those listed: a bit for each vertex number, eight in a byte.
ghost use Rattle.std.specs.Prelude.{◌≡◌, ◌<◌, length};
ghost use Rattle.complexes.specs.Complex.{vertex_bound};
ghost use Rattle.node_maps.specs.Map.{map_length, in_map, Empty, Lists};

// Node numbers are below this.
pub const NODE_BOUND: usize = 65536;

// The bytes of the map.
pub const MAP_LENGTH: usize = NODE_BOUND / 8;

// Whether the node is listed in the map of these bytes.
pub fn is_listed(map: &[u8], node: usize) -> bool
    requires { (node < vertex_bound) × (length map.now ≡ map_length) }
    ensures { result ≡ in_map map.now node }
{
    map[node / 8] >> (node % 8) & 1 == 1
}

// Lists the node in the map of these bytes.
pub fn list(map: &mut [u8], node: usize)
    requires { (node < vertex_bound) × (length map.old ≡ map_length) }
    ensures { Lists node map.old map.new }
{
    map[node / 8] |= 1 << (node % 8);
}

// The nodes listed: for node v, bit v % 8 of byte v / 8 is set.
#[derive(Drop)]
pub struct NodeMap {
    pub bytes: [u8; MAP_LENGTH],
}

impl NodeMap {
    // The map that lists no node.
    pub fn new() -> Self
        ensures { Empty result.bytes }
    {
        NodeMap {
            bytes: [0; MAP_LENGTH],
        }
    }

    // Whether the node is listed.
    pub fn is_listed(&self, node: usize) -> bool
        requires { node < vertex_bound }
        ensures { result ≡ in_map self.now.bytes node }
    {
        is_listed(&self.bytes, node)
    }

    // Lists the node.
    pub fn list(&mut self, node: usize)
        requires { node < vertex_bound }
        ensures { Lists node self.old.bytes self.new.bytes }
    {
        list(&mut self.bytes, node);
    }
}
