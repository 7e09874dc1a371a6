// The kinds of the rows of Q, by the diagonal of the second reduction: 1, an order above 1, or 0 for a free row; and the report's counts.
ghost use Rattle.std.specs.Prelude.{◌≡◌, ◌<◌, ◌≤◌, length};
ghost use Rattle.matrix_lines.specs.Matrices.{Held};
ghost use Rattle.reports.specs.Report.{reported};
ghost use Rattle.writers.specs.Written.{kind_in, Kinds, CanCount, Counted};

use crate::counts::Counts;
use crate::headroom::bits;
use matrix_lines::matrix::Matrix;
use two_reductions::reduced::Reduced;

// The kind of row i.
pub fn kind(m: Matrix, w: &[i32], i: usize) -> i64
    requires { Held (length w.now) m × (i < m.lines) }
    ensures { result ≡ kind_in m w.now i }
{
    if i < m.width { m.entry(w, i, i) } else { 0 }
}

// How many of the first n rows have another kind than 1.
pub fn reported_count(m: Matrix, w: &[i32], n: usize) -> usize
    requires { Held (length w.now) m × (n ≤ m.lines) × Kinds m w.now }
    ensures { result ≡ length (reported (kind_in m w.now) n) }
{
    (0..n).filter(|i| kind(m, w, *i) != 1).count()
}

// The report's counts.
pub fn counts(reduced: Reduced, w: &[i32]) -> Counts
    requires { CanCount reduced w.now }
    ensures { Counted reduced w.now result }
{
    let m = reduced.workspace.matrix;
    let rank = reduced.rank;
    let peak = reduced.peak;
    Counts {
        free: m.lines - rank,
        torsion: reported_count(m, w, rank),
        peak,
        bits: bits(peak),
    }
}
