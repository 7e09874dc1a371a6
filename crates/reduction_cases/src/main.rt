// Reads matrices from standard input and writes what the reduction makes of each, or `T` where it goes too wide. A matrix is one byte each for its
// rows, its columns and the companions asked for, then its entries row by row, each in four bytes. tests/pack_matrices.py makes the input and, by an
// independent implementation of document 01, the output that is due.
#![tactic(auto)]

mod entries;
mod print;
mod workspace;

ghost use Rattle.std.specs.Prelude.{◌≤◌};
ghost use Rattle.matrix_lines.specs.Slice.{Small};
ghost use Rattle.reduction_cases.specs.Workspace.{side};

use crate::entries::{read_entries, write_identities};
use crate::print::print_reduced;
use crate::workspace::{Asked, SIDE, SLOTS, lay_out};
use matrix_lines::matrix::Matrix;
use reducer::reduction::reduce_matrix;
use std::io;
use streams::read_front;

const ROOM: usize = 131072;

// Writes the outcome for one matrix, whose entries stand in the first slots.
fn answer(
    rt: &impl Print,
    rows: usize,
    columns: usize,
    companions: u8,
    w: &mut [i32; SLOTS],
) -> io::Result<()>
    requires rows_le_side { (rows ≤ side) × (columns ≤ side) }
    requires small { Small w.old }
{
    let asked = Asked::from(companions);
    let workspace = lay_out(rows, columns, asked);
    write_identities(workspace, w);
    match reduce_matrix(workspace, w, Matrix::ENTRY_LIMIT as u64) {
        Ok(reduced) => print_reduced(rt, reduced.rank, asked, workspace, w),
        Err(_) => println!(rt; "T"),
    }
}

// Answers matrix after matrix, up to the first that is cut short, has too many rows or columns or holds an entry beyond the limit.
fn answer_all(rt: &impl Print, input: &[u8]) -> io::Result<()> {
    let mut rest = input;
    while let [rows, columns, companions, tail @ ..] = rest {
        let rows = usize::from(*rows);
        let columns = usize::from(*columns);
        if rows > SIDE || columns > SIDE {
            return Ok(());
        }
        let Some((entries, next)) = tail.split_at_checked(4 * rows * columns) else {
            return Ok(());
        };
        let mut w = [0i32; SLOTS];
        if read_entries(entries, &mut w).is_err() {
            return Ok(());
        }
        answer(rt, rows, columns, *companions, &mut w)?;
        rest = next;
    }
    Ok(())
}

fn main(rt: HostRuntime) -> io::Result<()> {
    let mut input = [0u8; ROOM];
    answer_all(&rt, read_front(&mut rt.stdin(), &mut input))
}
