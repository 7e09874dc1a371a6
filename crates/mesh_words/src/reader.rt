// A mesh text and a position in it, and the bytes that stand there. What reads answers what was read and the reader behind it, or `None` where the text
// is not of the form.
ghost use Rattle.std.specs.Prelude.{◌≡◌, length, drop};
ghost use Rattle.std.specs.List.{take_while};
ghost use Rattle.mesh_words.specs.Class.{in_class, stands_at, some_of};
ghost use Rattle.mesh_words.specs.Steps.{skip, fed_line};
ghost use Rattle.mesh_words.specs.Tells.{bytes_of, tell_read, tell_skipped};
ghost use Rattle.mesh_format.specs.Parse.{run, gap, line_end};

use crate::class::Class;

#[derive(Clone, Copy)]
pub struct Reader<'a> {
    pub text: &'a [u8],
    pub at: usize,
}

// How many bytes at the front are of the class.
fn front(bytes: &[u8], class: Class) -> usize
    ensures { result ≡ length (take_while (in_class class) bytes.now) }
{
    bytes
        .iter()
        .take_while(|byte| class.contains(**byte))
        .count()
}

impl<'a> Reader<'a> {
    // A reader at a position of the text.
    pub fn open(text: &'a [u8], at: usize) -> Self
        ensures { (result.text ≡ text.entry) × (result.at ≡ at) }
    {
        Self { text, at }
    }

    // The bytes from the position on.
    pub(crate) fn rest(self) -> &'a [u8]
        ensures { result.now ≡ drop self.entry.at self.entry.text.now }
    {
        self.text.get(self.at..).unwrap_or(&[])
    }

    // Whether a byte of the class stands at the position.
    pub fn stands(self, class: Class) -> bool
        ensures { result ≡ stands_at class self.entry.text.now self.entry.at }
    {
        self.text
            .get(self.at)
            .is_some_and(|byte| class.contains(*byte))
    }

    // How many bytes of the class stand there before another byte or the end.
    pub fn run(self, class: Class) -> usize
        ensures { result ≡ run (in_class class) (drop self.entry.at self.entry.text.now) }
    {
        front(self.rest(), class)
    }

    // One or more bytes of the class.
    pub fn some_of(self, class: Class) -> Option<(&'a [u8], Self)>
        ensures { bytes_of result ≡ tell_read self.entry (some_of class self.entry.text.now self.entry.at) }
    {
        let many = self.run(class);
        if many == 0 {
            return None;
        }
        let at = self.at + many;
        Some((&self.text[self.at..at], Reader { at, ..self }))
    }

    // The bytes before the next line feed, whatever they are.
    pub fn line(self) -> Option<(&'a [u8], Self)>
        ensures { bytes_of result ≡ tell_read self.entry (fed_line self.entry.text.now self.entry.at) }
    {
        let end = self.at + self.run(Class::Line);
        if self.text.len() <= end {
            return None;
        }
        Some((
            &self.text[self.at..end],
            Reader {
                at: end + 1,
                ..self
            },
        ))
    }

    // One or more spaces.
    pub fn spaces(self) -> Option<Self>
        ensures { result ≡ tell_skipped self.entry (skip (gap self.entry.text.now self.entry.at)) }
    {
        let (_, next) = self.some_of(Class::Space)?;
        Some(next)
    }

    // A line feed, with or without a carriage return.
    pub fn line_end(self) -> Option<Self>
        ensures { result ≡ tell_skipped self.entry (line_end self.entry.text.now self.entry.at) }
    {
        let at = if self.stands(Class::CarriageReturn) {
            self.at + 1
        } else {
            self.at
        };
        let feed = Reader { at, ..self };
        if feed.stands(Class::LineFeed) {
            Some(Reader { at: at + 1, ..self })
        } else {
            None
        }
    }
}
