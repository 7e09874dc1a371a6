// Marks of the loose nodes of a sheet.
ghost use Rattle.sheet_format.specs.Check.{count_field, sections_of};
ghost use Rattle.loose_nodes.specs.Loose.{NoneMarked, MarksLoose};

use crate::edges::{is_loose, list_edges};
use fields::field::count;
use node_maps::map::NodeMap;

// Marks each loose node with 1, where no vertex is marked.
pub fn mark_loose(s: &[u8], marks: &mut [u8])
    requires { NoneMarked (count_field s.now 0) marks.old }
    ensures { MarksLoose (sections_of s.now) marks.old marks.new }
{
    if count(s, 1) == 0 {
        return;
    }
    let mut map = NodeMap::new();
    list_edges(s, &mut map);
    let nodes = count(s, 0);
    for i in 0..nodes {
        if is_loose(s, &map, i) {
            marks[i] = 1;
        }
    }
}
