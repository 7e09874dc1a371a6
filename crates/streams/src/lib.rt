// Reading a stream into an array.
#![tactic(auto)]

ghost use Rattle.std.specs.Prelude.{◌≤◌, length};

use std::io::Read;

// One read: how many bytes it put at the start of the array, 0 where the stream has ended or the read fails.
fn read_some<R: Read>(stream: &mut R, bytes: &mut [u8]) -> usize
    ensures { result ≤ length bytes.new }
{
    stream.read(bytes).unwrap_or(0)
}

// Reads until the array is full, the stream ends or a read fails. Answers how many bytes it put at the start of the array.
pub fn read_full<R: Read>(stream: &mut R, bytes: &mut [u8]) -> usize
    ensures { result ≤ length bytes.new }
{
    let mut filled: usize = 0;
    while filled < bytes.len() {
        let n = read_some(stream, &mut bytes[filled..]);
        if n == 0 {
            return filled;
        }
        filled = filled + n;
    }
    filled
}

// Reads as `read_full` does, and answers the bytes that it put into the array.
pub fn read_front<'a, R: Read>(stream: &mut R, bytes: &'a mut [u8]) -> &'a [u8]
    ensures { length result.now ≤ length bytes.old }
{
    let filled = read_full(stream, bytes);
    &bytes[..filled]
}

// Whether a stream has ended: a read at its end puts no byte, and one that fails is no end.
pub fn has_ended<R: Read>(stream: &mut R) -> bool {
    let mut next = [0u8; 1];
    matches!(stream.read(&mut next), Ok(0))
}
