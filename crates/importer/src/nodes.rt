// The nodes that a mesh text lists.
ghost use Rattle.mesh_format.specs.Parse.{node_lines, nodes_of};
ghost use Rattle.importer.specs.Nodes.{ListsNodes};

use mesh_lines::line::{count_line, node_line};
use mesh_reader::keywords::END_NODES;
use mesh_reader::title::the_title;
use mesh_words::reader::Reader;
use node_maps::map::NodeMap;

// Reads n lines of nodes, and lists each node.
fn list_nodes<'a>(r: Reader<'a>, n: usize, map: &mut NodeMap) -> Option<Reader<'a>>
    ensures { ListsNodes r.entry (node_lines n r.entry.text.now r.entry.at) map.old.bytes map.new.bytes result }
{
    let mut here = r;
    for _ in 0..n {
        let (node, next) = node_line(here)?;
        map.list(node);
        here = next;
    }
    Some(here)
}

// Reads the count, the lines of the nodes and `$EndNodes`, and lists each node.
pub fn read_nodes<'a>(r: Reader<'a>, map: &mut NodeMap) -> Option<Reader<'a>>
    ensures { ListsNodes r.entry (nodes_of r.entry.text.now r.entry.at) map.old.bytes map.new.bytes result }
{
    let (n, lines) = count_line(r)?;
    let end = list_nodes(lines, n, map)?;
    the_title(end, END_NODES)
}
