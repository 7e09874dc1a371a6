// Writing the coordinates.
ghost use Rattle.std.specs.Prelude.{◌≡◌, ℕ, ◌<◌, ◌≤◌, length, nat_abs};
ghost use Rattle.lists.specs.Splice.{splices};
ghost use Rattle.requests.specs.Chains.{chain_at};
ghost use Rattle.matrices.specs.Vector.{apply};
ghost use Rattle.reduction_steps.specs.Table.{entry};
ghost use Rattle.integers.specs.Slot.{slot};
ghost use Rattle.matrix_lines.specs.Slice.{Small};
ghost use Rattle.matrix_lines.specs.Matrices.{Held};
ghost use Rattle.operations.specs.Laid.{lines_of};
ghost use Rattle.limits.specs.Limits.{library_limit, coefficient_limit};
ghost use Rattle.writers.specs.Written.{WrittenFrom, CanCoordinate, coordinates_of, CanList};

use crate::kind::kind;
use matrix_lines::matrix::Matrix;
use numbers::residue::residue;
use two_reductions::reduced::Reduced;

// Row i of q times the chain; coefficients of 0 are passed over.
pub fn row_times_chain(q: Matrix, w: &[i32], i: usize, chain: &[i32]) -> i64
    requires held { Held (length w.now) q × (i < q.lines) × (q.width ≡ length chain.now) × (q.width ≤ library_limit) × Small w.now }
    requires by_index { (j : ℕ) → nat_abs (slot chain.now j) ≤ coefficient_limit }
    ensures { result ≡ apply q.width (entry (lines_of q w.now)) (slot chain.now) i }
{
    let line = q.line(i);
    let mut total: i64 = 0;
    for (j, x) in chain.iter().enumerate() {
        if *x != 0 {
            total += i64::from(w[line + j]) * i64::from(*x);
        }
    }
    total
}

// Writes the coordinates from slot `from` on, and answers the slot after them.
pub fn write_coordinates(
    reduced: Reduced,
    w: &[i32],
    chain: &[i32],
    coordinates: &mut [i64],
    from: usize,
) -> usize
    requires { CanCoordinate reduced w.now chain.now from (length coordinates.old) }
    ensures { WrittenFrom from (coordinates_of reduced w.now chain.now) coordinates.old result
        coordinates.new }
{
    let m = reduced.workspace.matrix;
    let q = reduced.workspace.row_follower;
    let mut next = from;
    for i in 0..m.lines {
        let order = kind(m, w, i);
        if order != 1 {
            coordinates[next] = residue(row_times_chain(q, w, i, chain), order);
            next += 1;
        }
    }
    next
}

// Writes the coordinate list of each of the `many` chains of `cells` coefficients, list i from slot i × cells on.
pub fn write_lists(
    reduced: Reduced,
    w: &[i32],
    cells: usize,
    many: usize,
    chains: &[i32],
    coordinates: &mut [i64],
)
    requires { CanList reduced w.now cells many chains.now (length coordinates.old) }
    ensures { coordinates.new ≡
        splices cells (λ i. coordinates_of reduced w.now (chain_at cells chains.now i)) many coordinates.old }
{
    for i in 0..many {
        let at = i * cells;
        write_coordinates(reduced, w, &chains[at..at + cells], coordinates, at);
    }
}
