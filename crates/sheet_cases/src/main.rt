// Reads sheets from standard input, each after its length as a field of two bytes, and writes a line for each: the refusal at the library's
// count limit and the one at the limit of the program and the host calls, 0 where the sheet is accepted. tests/pack_sheets.py makes the input and,
// by an independent implementation of document 01, the output that is due.
#![tactic(auto)]

use refusal::number_told;
use sheet::reader::Sheet;
use std::io;
use std::io::Read;
use streams::read_front;

const ROOM: usize = 524288;

fn answer(rt: &impl Print, s: &[u8]) -> io::Result<()> {
    let library = number_told(Sheet::library().read(s));
    let host = number_told(Sheet::host().read(s));
    println!(rt; "{library} {host}")
}

fn answer_all(rt: &impl Print, sheets: &[u8]) -> io::Result<()> {
    let mut rest = sheets;
    while let Some((length, after)) = rest.split_first_chunk() {
        let length = usize::from(u16::from_le_bytes(*length));
        let Some((sheet, next)) = after.split_at_checked(length) else {
            return Ok(());
        };
        answer(rt, sheet)?;
        rest = next;
    }
    Ok(())
}

// Reads the sheets into the array, and answers them.
fn answer_stream<R: Read>(
    rt: &impl Print,
    stream: &mut R,
    input: &mut [u8; ROOM],
) -> io::Result<()> {
    answer_all(rt, read_front(stream, input))
}

fn main(rt: HostRuntime) -> io::Result<()> {
    let mut input = [0u8; ROOM];
    answer_stream(&rt, &mut rt.stdin(), &mut input)
}
