// Step a: the pivot by the rule of release 1. The scan goes row by row, in each from its first nonzero entry on, and ends at the first
// entry of absolute value 1.
ghost use Rattle.std.specs.Prelude.{◌≡◌, ◌+◌, ◌-◌, ◌<◌, ◌≤◌, length};
ghost use Rattle.std.specs.Option.{option_or};
ghost use Rattle.reduction_steps.specs.Pivot as steps;
ghost use Rattle.matrix_lines.specs.Slice.{Small};
ghost use Rattle.matrix_lines.specs.Matrices.{Held, contents};
ghost use Rattle.scans.specs.Scan.{IsBest, choice_of, pivot_choice};

use matrix_lines::matrix::Matrix;
use matrix_lines::zero::first_nonzero;

// The entry chosen so far: its absolute value and its place.
#[derive(Clone, Copy)]
pub struct Best {
    pub size: u64,
    pub row: usize,
    pub column: usize,
}

// The entry at place j of row i, where it takes the place of the one chosen so far. A tie stays with that one.
fn better(m: Matrix, w: &[i32], i: usize, j: usize, best: Option<Best>) -> Option<Best>
    requires held { Held (length w.now) m }
    requires small { Small w.now }
    requires i_lt_lines { (i < m.lines) × (j < m.width) × IsBest (contents m w.now) best }
    ensures { IsBest (contents m w.now) result ×
        (choice_of (option_or result best) ≡ steps.better (contents m w.now) (choice_of best) i j) }
{
    let size = m.entry(w, i, j).unsigned_abs();
    if size == 0 {
        return None;
    }
    match best {
        Some(chosen) if chosen.size <= size => None,
        _ => Some(Best {
            size,
            row: i,
            column: j,
        }),
    }
}

// The choice after the entries of row i from column k on.
fn along_row(m: Matrix, w: &[i32], i: usize, k: usize, best: Option<Best>) -> Option<Best>
    requires held { Held (length w.now) m }
    requires small { Small w.now }
    requires i_lt_lines { (i < m.lines) × (k ≤ m.width) × IsBest (contents m w.now) best }
    ensures { IsBest (contents m w.now) result ×
        (choice_of result ≡ steps.along_row (contents m w.now) i (m.width - k) k (choice_of best)) }
{
    let mut chosen = best;
    for j in first_nonzero(w, m.line(i), k, m.width)..m.width {
        if let Some(found) = better(m, w, i, j, chosen) {
            chosen = Some(found);
            if found.size == 1 {
                return chosen;
            }
        }
    }
    chosen
}

// The choice among rows and columns from k on.
fn down_rows(m: Matrix, w: &[i32], k: usize) -> Option<Best>
    requires held { Held (length w.now) m }
    requires small { Small w.now }
    requires k_le_width { k ≤ m.width }
    ensures { choice_of result ≡ steps.pivot_rule m.lines m.width k (contents m w.now) }
{
    let mut best = None;
    for i in k..m.lines {
        best = along_row(m, w, i, k, best);
        if let Some(Best { size: 1, .. }) = best {
            return best;
        }
    }
    best
}

// The pivot among rows and columns from k on.
pub fn find_pivot(m: Matrix, w: &[i32], k: usize) -> Option<(usize, usize)>
    requires held { Held (length w.now) m }
    requires small { Small w.now }
    requires k_le_width { k ≤ m.width }
    ensures { pivot_choice result ≡ steps.pivot_rule m.lines m.width k (contents m w.now) }
{
    down_rows(m, w, k).map(|best| (best.row, best.column))
}
