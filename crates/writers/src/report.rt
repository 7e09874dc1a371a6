// Writing the report.
ghost use Rattle.std.specs.Prelude.{◌≡◌, map, ◌+◌, ◌*◌, ◌<◌, ◌≤◌, length};
ghost use Rattle.lists.specs.Tabulate.{tabulate};
ghost use Rattle.lists.specs.Splice.{splice};
ghost use Rattle.matrix_lines.specs.Matrices.{Held, contents};
ghost use Rattle.reports.specs.Report.{reported, columns_of};
ghost use Rattle.operations.specs.Laid.{lines_of};
ghost use Rattle.writers.specs.Written.{kind_in, Kinds, WrittenFrom, CanReport, WroteReport};

use crate::counts::Counts;
use crate::kind::{counts, kind};
use matrix_lines::matrix::Matrix;
use two_reductions::reduced::Reduced;

// Writes the orders among the first n rows' kinds from slot `from` on, and answers the slot after them.
fn write_orders(m: Matrix, w: &[i32], n: usize, report: &mut [i64], from: usize) -> usize
    requires { Held (length w.now) m × (n ≤ m.lines) × (from + n ≤ length report.old) × Kinds m w.now }
    ensures { WrittenFrom from (map (kind_in m w.now) (reported (kind_in m w.now) n))
        report.old result report.new }
{
    let mut next = from;
    for i in 0..n {
        let order = kind(m, w, i);
        if order != 1 {
            report[next] = order;
            next += 1;
        }
    }
    next
}

// Copies line i of g to the slots.
fn write_line(g: Matrix, w: &[i32], i: usize, slots: &mut [i64])
    requires { Held (length w.now) g × (i < g.lines) × (length slots.old ≡ g.width) }
    ensures { slots.new ≡ tabulate g.width (contents g w.now i) }
{
    let at = g.line(i);
    for (j, slot) in slots.iter_mut().enumerate() {
        *slot = i64::from(w[at + j]);
    }
}

// Writes the columns of G, which are lines of g, of the rows whose kind is not 1, from slot `from` on.
fn write_generators(m: Matrix, g: Matrix, w: &[i32], report: &mut [i64], from: usize)
    requires { Held (length w.now) m × Held (length w.now) g × (m.lines ≡ g.lines) ×
        (from + g.lines * g.width ≤ length report.old) × Kinds m w.now }
    ensures { report.new ≡ splice from
        (columns_of (lines_of g w.now) g.width (reported (kind_in m w.now) m.lines))
        report.old }
{
    let mut next = from;
    for i in 0..m.lines {
        if kind(m, w, i) != 1 {
            write_line(g, w, i, &mut report[next..next + g.width]);
            next += g.width;
        }
    }
}

// Writes the report, and answers its counts.
pub fn write_report(reduced: Reduced, w: &[i32], report: &mut [i64]) -> Counts
    requires { CanReport reduced w.now (length report.old) }
    ensures { WroteReport reduced w.now report.old result report.new }
{
    let m = reduced.workspace.matrix;
    let g = reduced.workspace.row_inverse;
    let rank = reduced.rank;
    let counted = counts(reduced, w);
    report[0] = counted.free as i64;
    report[1] = counted.torsion as i64;
    let next = write_orders(m, w, rank, report, 2);
    write_generators(m, g, w, report, next);
    counted
}
