// Writing the surface that a loop bounds.
ghost use Rattle.std.specs.Prelude.{◌≡◌, ℕ, ◌<◌, ◌≤◌, length, ◌+ℤ◌, ◌*ℤ◌};
ghost use Rattle.lists.specs.Splice.{written};
ghost use Rattle.integers.specs.Slot.{slot};
ghost use Rattle.matrix_lines.specs.Matrices.{contents};
ghost use Rattle.two_reductions.specs.Slices.{state_in};
ghost use Rattle.reports.specs.Surface.{bounds_nothing, surface_list};
ghost use Rattle.writers.specs.Written.{CanSurface, CanAdd};

use crate::coordinates::row_times_chain;
use crate::kind::kind;
use matrix_lines::matrix::Matrix;
use numbers::divides::divides;
use numbers::quotient::floor;
use two_reductions::reduced::Reduced;

// Whether the kind of some row of Q does not divide that row times the chain: then the chain bounds nothing.
pub fn bounds_nothing(reduced: Reduced, w: &[i32], chain: &[i32]) -> bool
    requires { CanSurface reduced w.now chain.now }
    ensures { result ≡ bounds_nothing reduced.workspace.row_follower.width reduced.workspace.matrix.lines
        (state_in reduced w.now) chain.now }
{
    let m = reduced.workspace.matrix;
    let q = reduced.workspace.row_follower;
    (0..m.lines).any(|i| !divides(kind(m, w, i), row_times_chain(q, w, i, chain)))
}

// Adds y times line i of g to the sums.
fn add_line(g: Matrix, w: &[i32], i: usize, y: i64, sums: &mut [i64])
    requires { CanAdd g w.now i y sums.old }
    ensures { (j : ℕ) → j < g.width → slot sums.new j ≡ slot sums.old j +ℤ y *ℤ contents g w.now i j }
{
    let at = g.line(i);
    for (j, sum) in sums.iter_mut().enumerate() {
        *sum += y * i64::from(w[at + j]);
    }
}

// Writes the surface: the sum over the pivots of the tracked column times its row of Q times the chain, over the pivot.
pub fn write_surface(reduced: Reduced, w: &[i32], chain: &[i32], surface: &mut [i64])
    requires can_surface { CanSurface reduced w.now chain.now }
    requires column_follower_in_bounds { reduced.workspace.column_follower.width ≤ length surface.old }
    ensures { surface.new ≡ written
        (surface_list reduced.workspace.row_follower.width reduced.workspace.column_follower.width reduced.rank
        (state_in reduced w.now) chain.now)
        surface.old }
{
    let m = reduced.workspace.matrix;
    let q = reduced.workspace.row_follower;
    let columns = reduced.workspace.column_follower;
    let sums = &mut surface[..columns.width];
    sums.fill(0);
    for i in 0..reduced.rank {
        let pivot = kind(m, w, i);
        let y = floor(row_times_chain(q, w, i, chain), pivot);
        if y != 0 {
            add_line(columns, w, i, y, sums);
        }
    }
}
