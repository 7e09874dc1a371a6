// The line of one certain word.
ghost use Rattle.std.specs.Prelude.{◌≡◌};
ghost use Rattle.mesh_format.specs.Parse.{title_line};
ghost use Rattle.mesh_words.specs.Tells.{tell_skipped};

use mesh_lines::line::word_line;
use mesh_words::reader::Reader;

// The line of the one word w.
pub fn the_title<'a>(r: Reader<'a>, w: &[u8]) -> Option<Reader<'a>>
    ensures { result ≡ tell_skipped r.entry (title_line w.now r.entry.text.now r.entry.at) }
{
    let (word, next) = word_line(r)?;
    if word == w { Some(next) } else { None }
}
