// The node numbers of an element line.
ghost use Rattle.std.specs.Prelude.{◌≡◌};
ghost use Rattle.mesh_lines.specs.Tells.{tell_element};
ghost use Rattle.mesh_lines.specs.Nodes.{element_nodes};

use crate::answer::Element;
use mesh_words::reader::Reader;
use node_maps::map::NODE_BOUND;

// This many nodes are packed, each a digit to the base BASE.
const PACKED_NODES: usize = 4;

const BASE: u64 = NODE_BOUND as u64;

// The element of this kind whose node numbers stand from here to the end of the line.
pub fn element_nodes(r: Reader<'_>, kind: usize) -> Option<(Element, Reader<'_>)>
    ensures { result ≡ tell_element r.entry (element_nodes kind r.entry.text.now r.entry.at) }
{
    let mut here = r;
    let mut many: usize = 0;
    let mut packed: u64 = 0;
    while let Some(node) = here.spaces() {
        let (v, next) = node.node_number()?;
        if many < PACKED_NODES {
            packed = packed * BASE + v as u64;
        }
        many = many + 1;
        here = next;
    }
    let element = Element { kind, many, packed };
    Some((element, here.line_end()?))
}
