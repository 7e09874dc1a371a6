// What stands before the nodes.
ghost use Rattle.std.specs.Prelude.{◌≡◌};
ghost use Rattle.mesh_format.specs.Parse.{sections, head_of};
ghost use Rattle.mesh_words.specs.Tells.{tell_skipped};

use crate::keywords::{END_MESH_FORMAT, MESH_FORMAT};
use crate::opening::{opens_nodes, opens_section};
use crate::section::pass_section;
use crate::title::the_title;
use mesh_lines::line::{format_line, word_line};
use mesh_words::reader::Reader;

// The sections to be passed over, and behind them the line `$Nodes`.
fn pass_sections(r: Reader<'_>) -> Option<Reader<'_>>
    ensures { result ≡ tell_skipped r.entry (sections r.entry.text.now r.entry.at) }
{
    let mut here = r;
    loop {
        let (word, next) = word_line(here)?;
        if opens_nodes(word) {
            return Some(next);
        }
        if !opens_section(word) {
            return None;
        }
        here = pass_section(next, &word[1..])?;
    }
}

// The format, the sections passed over and the line `$Nodes`.
pub fn read_head(text: &[u8]) -> Option<Reader<'_>>
    ensures { result ≡ tell_skipped (record { text = text.entry; at = 0 }) (head_of text.now) }
{
    let format = the_title(Reader::open(text, 0), MESH_FORMAT)?;
    let format_end = format_line(format)?;
    pass_sections(the_title(format_end, END_MESH_FORMAT)?)
}
