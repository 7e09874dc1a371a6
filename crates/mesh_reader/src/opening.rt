// Words that open sections.
ghost use Rattle.std.specs.Prelude.{◌≡◌};
ghost use Rattle.mesh_format.specs.Words.{opening, nodes_name};
ghost use Rattle.mesh_format.specs.Parse.{same_word, opens_section};

use crate::keywords::{ELEMENTS, MESH_FORMAT, NODES};

// Whether the word is `$Nodes`.
pub fn opens_nodes(w: &[u8]) -> bool
    ensures { result ≡ same_word w.now (opening nodes_name) }
{
    w == NODES
}

// Whether the word opens a section to be passed over: `$` and a word other than MeshFormat, Nodes and Elements.
pub fn opens_section(w: &[u8]) -> bool
    ensures { result ≡ opens_section w.now }
{
    1 < w.len() && w[0] == b'$' && w != MESH_FORMAT && !opens_nodes(w) && w != ELEMENTS
}
