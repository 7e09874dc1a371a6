// The slots as the reduction finds them: the entries read from the input, and an identity for each companion.
ghost use Rattle.std.specs.Prelude.{◌≡◌, ◌*◌, ◌<◌, ◌≤◌, length, nat_abs};
ghost use Rattle.matrix_lines.specs.Slice.{entry_limit, Small};
ghost use Rattle.reduction_cases.specs.Workspace.{Slotted, LaidOut};

use crate::workspace::SLOTS;
use matrix_lines::line::TooWide;
use matrix_lines::matrix::Matrix;
use operations::workspace::Workspace;

// Stores x at place i.
fn store(w: &mut [i32], i: usize, x: i32)
    requires i_in_bounds { i < length w.old }
    requires small { Small w.old }
    requires within { nat_abs x ≤ entry_limit }
    ensures { Small w.new }
{
    w[i] = x;
}

// Stores the entries of the input, four bytes each, from the first place on. One that lies beyond the limit ends it.
pub fn read_entries(input: &[u8], w: &mut [i32]) -> Result<(), TooWide>
    requires input_len_bound { length input.now ≤ 4 * length w.old }
    requires small { Small w.old }
    ensures { Small w.new }
{
    let (words, _) = input.as_chunks::<4>();
    for (i, word) in words.iter().enumerate() {
        let x = i32::from_le_bytes(*word);
        if i64::from(x).abs() > Matrix::ENTRY_LIMIT {
            return Err(TooWide);
        }
        store(w, i, x);
    }
    Ok(())
}

// Stores 1 at place i of line i, for each line.
fn write_identity(m: Matrix, w: &mut [i32; SLOTS])
    requires slotted { Slotted m }
    requires small { Small w.old }
    ensures { Small w.new }
{
    for i in 0..m.width {
        store(w, m.at + i * (m.width + 1), 1);
    }
}

// Makes every companion an identity.
pub fn write_identities(workspace: Workspace, w: &mut [i32; SLOTS])
    requires laid_out { LaidOut workspace }
    requires small { Small w.old }
    ensures { Small w.new }
{
    write_identity(workspace.row_inverse, w);
    write_identity(workspace.row_follower, w);
    write_identity(workspace.column_follower, w);
    write_identity(workspace.column_inverse, w);
}
