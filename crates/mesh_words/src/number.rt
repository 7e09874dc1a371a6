// Numbers of one to nine digits.
ghost use Rattle.std.specs.Prelude.{◌≡◌};
ghost use Rattle.mesh_format.specs.Parse.{number, node};
ghost use Rattle.mesh_words.specs.Tells.{tell_at, tell_read};

use crate::class::Class;
use crate::reader::Reader;
use node_maps::map::NODE_BOUND;

// A number has at most this many digits.
const MOST_DIGITS: usize = 9;

// The number in the text from a position on, and the position behind it. Reading stops at the tenth digit. The text and the positions stand in registers,
// where a reader would be passed in memory.
#[inline(never)]
fn number_at(text: &[u8], from: usize) -> Option<(usize, usize)>
    ensures { result ≡ tell_at (number text.now from) }
{
    let start = Reader { text, at: from };
    let mut value: usize = 0;
    let mut at = from;
    for byte in start.rest() {
        if !Class::Digit.contains(*byte) {
            break;
        }
        if MOST_DIGITS <= at - from {
            return None;
        }
        value = 10 * value + (*byte - b'0') as usize;
        at += 1;
    }
    let end = Reader { text, at };
    if at == from || end.stands(Class::Word) {
        return None;
    }
    Some((value, at))
}

impl<'a> Reader<'a> {
    // A number.
    #[inline(always)]
    pub fn number(self) -> Option<(usize, Self)>
        ensures { result ≡ tell_read self.entry (number self.entry.text.now self.entry.at) }
    {
        let (value, at) = number_at(self.text, self.at)?;
        Some((value, Reader { at, ..self }))
    }

    // A node number.
    pub fn node_number(self) -> Option<(usize, Self)>
        ensures { result ≡ tell_read self.entry (node self.entry.text.now self.entry.at) }
    {
        let (v, next) = self.number()?;
        if v < NODE_BOUND {
            Some((v, next))
        } else {
            None
        }
    }
}
