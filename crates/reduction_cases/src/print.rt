// Writes the outcome of a reduction.
ghost use Rattle.std.specs.Prelude.{◌≡◌, ◌+◌, ◌*◌, ◌<◌, ◌≤◌, length};
ghost use Rattle.reduction_cases.specs.Workspace.{side, Slotted, LaidOut};

use crate::workspace::{Asked, SLOTS};
use matrix_lines::matrix::Matrix;
use operations::workspace::Workspace;
use std::io;

// Writes the `count` entries at, at + step, .., each after a space.
fn print_line(rt: &impl Print, w: &[i32], at: usize, step: usize, count: usize) -> io::Result<()>
    requires { (count ≤ side) × (at + 7 * step < length w.now) }
{
    for i in 0..count {
        let entry = w[at + i * step];
        print!(rt; " {entry}")?;
    }
    Ok(())
}

// Writes as many lines as the matrix has, each of as many entries as its lines have: the first entries stand `outer` apart, those of a line `inner`.
fn print_lines(
    rt: &impl Print,
    w: &[i32; SLOTS],
    m: Matrix,
    outer: usize,
    inner: usize,
) -> io::Result<()>
    requires slotted { Slotted m }
    requires inner_bound { outer + inner ≤ 9 }
{
    for i in 0..m.lines {
        print_line(rt, w, m.at + i * outer, inner, m.width)?;
    }
    Ok(())
}

// Writes the mark and the entries that `print_lines` takes.
fn print_matrix(
    rt: &impl Print,
    mark: &str,
    w: &[i32; SLOTS],
    m: Matrix,
    outer: usize,
    inner: usize,
) -> io::Result<()>
    requires slotted { Slotted m }
    requires inner_bound { outer + inner ≤ 9 }
{
    print!(rt; "{mark}")?;
    print_lines(rt, w, m, outer, inner)?;
    println!(rt; "")
}

// A matrix whose lines are its rows.
fn print_rows(rt: &impl Print, mark: &str, w: &[i32; SLOTS], m: Matrix) -> io::Result<()>
    requires slotted { Slotted m }
{
    print_matrix(rt, mark, w, m, m.width, 1)
}

// A square matrix whose lines are its columns.
fn print_columns(rt: &impl Print, mark: &str, w: &[i32; SLOTS], m: Matrix) -> io::Result<()>
    requires slotted { Slotted m }
{
    print_matrix(rt, mark, w, m, 1, m.width)
}

// Writes the rank, the matrix and the companions asked for.
pub fn print_reduced(
    rt: &impl Print,
    rank: usize,
    asked: Asked,
    workspace: Workspace,
    w: &[i32; SLOTS],
) -> io::Result<()>
    requires laid_out { LaidOut workspace }
{
    println!(rt; "D {rank}")?;
    print_rows(rt, "M", w, workspace.matrix)?;
    if asked.row_follower {
        print_rows(rt, "R", w, workspace.row_follower)?;
    }
    if asked.row_inverse {
        print_columns(rt, "r", w, workspace.row_inverse)?;
    }
    if asked.column_follower {
        print_columns(rt, "C", w, workspace.column_follower)?;
    }
    if asked.column_inverse {
        print_rows(rt, "c", w, workspace.column_inverse)?;
    }
    Ok(())
}
