// Words, and the spaces before them.
ghost use Rattle.std.specs.Prelude.{◌≡◌};
ghost use Rattle.mesh_format.specs.Parse.{the_word, words};
ghost use Rattle.mesh_words.specs.Tells.{tell_skipped};

use crate::class::Class;
use crate::reader::Reader;

impl<'a> Reader<'a> {
    // n words, each after spaces.
    pub fn words(self, n: usize) -> Option<Self>
        ensures { result ≡ tell_skipped self.entry (words n self.entry.text.now self.entry.at) }
    {
        let mut here = self;
        for _ in 0..n {
            let (_, next) = here.spaces()?.some_of(Class::Word)?;
            here = next;
        }
        Some(here)
    }

    // The word w.
    pub fn the_word(self, w: &[u8]) -> Option<Self>
        ensures { result ≡ tell_skipped self.entry (the_word w.now self.entry.text.now self.entry.at) }
    {
        let (word, next) = self.some_of(Class::Word)?;
        if word == w { Some(next) } else { None }
    }
}
