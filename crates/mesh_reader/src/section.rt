// Passing over a section, whatever stands in it.
ghost use Rattle.std.specs.Prelude.{◌≡◌};
ghost use Rattle.mesh_format.specs.Words.{ending};
ghost use Rattle.mesh_format.specs.Parse.{same_word, is_line_of, closing_line};
ghost use Rattle.mesh_words.specs.Tells.{tell_skipped};

use crate::keywords::END;
use mesh_words::reader::Reader;

// Whether the word is `$End` and the name.
fn is_ending(word: &[u8], name: &[u8]) -> bool
    ensures { result ≡ same_word word.now (ending name.now) }
{
    word.strip_prefix(END).is_some_and(|rest| rest == name)
}

// Whether the line, without its line feed, is `$End` and the name.
fn closes(line: &[u8], name: &[u8]) -> bool
    ensures { result ≡ is_line_of (ending name.now) line.now }
{
    is_ending(line, name)
        || line
            .strip_suffix(b"\r")
            .is_some_and(|word| is_ending(word, name))
}

// Passes over the section of this name, to the end of the line that closes it.
pub fn pass_section<'a>(r: Reader<'a>, name: &[u8]) -> Option<Reader<'a>>
    ensures { result ≡ tell_skipped r.entry (closing_line (ending name.now) r.entry.text.now r.entry.at) }
{
    let mut here = r;
    while let Some((line, next)) = here.line() {
        if closes(line, name) {
            return Some(next);
        }
        here = next;
    }
    None
}
