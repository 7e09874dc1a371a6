// Reads one sheet from standard input and prints its homology.
#![tactic(auto)]

use printer::print_input;
use printer::room::{INPUT_ROOM, TEXT_ROOM};
use std::io::Read;
use streams::{has_ended, read_full};

// Prints the homology of the sheet in a stream, or says on standard error what could not be read or written.
fn print_homology<R: Read>(
    rt: &(impl Print + Eprint),
    stream: &mut R,
    input: &mut [u8; INPUT_ROOM],
    out: &mut [u8; TEXT_ROOM],
) {
    let length = read_full(stream, input);
    if length < INPUT_ROOM {
        if !has_ended(stream) {
            let _ = eprintln!(rt; "homology: cannot read standard input");
            return;
        }
    }
    let written = print_input(input, length, out);
    if rt.write_all(&out[..written]).is_err() {
        let _ = eprintln!(rt; "homology: cannot write standard output");
    }
}

fn main(rt: HostRuntime) {
    let mut input = [0u8; INPUT_ROOM];
    let mut out = [0u8; TEXT_ROOM];
    print_homology(&rt, &mut rt.stdin(), &mut input, &mut out);
}
