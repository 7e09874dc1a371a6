// The lines of a mesh text.
ghost use Rattle.std.specs.Prelude.{◌≡◌};
ghost use Rattle.mesh_format.specs.Parse.{word_line, format_line, count_line, node_line, element_line};
ghost use Rattle.mesh_words.specs.Tells.{bytes_of, tell_skipped, tell_read};
ghost use Rattle.mesh_lines.specs.Tells.{tell_element};

use crate::answer::Element;
use crate::nodes::element_nodes;
use mesh_words::class::Class;
use mesh_words::reader::Reader;

// `2.2 0` and a number.
pub fn format_line(r: Reader<'_>) -> Option<Reader<'_>>
    ensures { result ≡ tell_skipped r.entry (format_line r.entry.text.now r.entry.at) }
{
    let version = r.the_word(b"2.2")?;
    let zero = version.spaces()?.the_word(b"0")?;
    let (_, end) = zero.spaces()?.number()?;
    end.line_end()
}

// A line of one word, and that word.
pub fn word_line(r: Reader<'_>) -> Option<(&[u8], Reader<'_>)>
    ensures { bytes_of result ≡ tell_read r.entry (word_line r.entry.text.now r.entry.at) }
{
    let (word, end) = r.some_of(Class::Word)?;
    Some((word, end.line_end()?))
}

// A count.
pub fn count_line(r: Reader<'_>) -> Option<(usize, Reader<'_>)>
    ensures { result ≡ tell_read r.entry (count_line r.entry.text.now r.entry.at) }
{
    let (n, end) = r.number()?;
    Some((n, end.line_end()?))
}

// A node number and three words.
pub fn node_line(r: Reader<'_>) -> Option<(usize, Reader<'_>)>
    ensures { result ≡ tell_read r.entry (node_line r.entry.text.now r.entry.at) }
{
    let (v, place) = r.node_number()?;
    Some((v, place.words(3)?.line_end()?))
}

// An element's number, kind, tag count, tags and node numbers.
pub fn element_line(r: Reader<'_>) -> Option<(Element, Reader<'_>)>
    ensures { result ≡ tell_element r.entry (element_line r.entry.text.now r.entry.at) }
{
    let (_, a) = r.number()?;
    let (kind, b) = a.spaces()?.number()?;
    let (tags, d) = b.spaces()?.number()?;
    element_nodes(d.words(tags)?, kind)
}
