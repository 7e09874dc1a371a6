// The cell counts of a dimension.
ghost use Rattle.std.specs.Prelude.{◌<◌, ◌≤◌};

use fields::field::count;

// The counts that a dimension p works with: n_p cells, n_(p-1) rows of its boundary matrix, n_(p+1) columns of the next.
#[derive(Clone, Copy)]
pub struct CellCounts {
    pub cells: usize,
    pub rows: usize,
    pub columns: usize,
    // Each fits a field.
    ghost below: { (cells < 65536) × (rows < 65536) × (columns < 65536) },
}

impl CellCounts {
    ghost use Rattle.complexes.specs.Boundary.{count_below};
    ghost use Rattle.fields.specs.Read.{ReadsBelow};
    ghost use Rattle.sheet_format.specs.Layout.{top};
    ghost use Rattle.sheet_format.specs.Check.{sections_of};
    ghost use Rattle.two_reductions.specs.CellCounts.{CellCountsRead};

    // The number of rows of the boundary matrix of dimension p.
    fn rows_of(s: &[u8], p: usize) -> usize
        ensures { ReadsBelow 65536 (count_below (sections_of s.now) p) result }
    {
        if p == 0 { 0 } else { count(s, p - 1) }
    }

    // Those of dimension p.
    pub fn of(s: &[u8], p: usize) -> CellCounts
        requires { p ≤ top }
        ensures { CellCountsRead (sections_of s.now) p result }
    {
        CellCounts {
            cells: count(s, p),
            rows: CellCounts::rows_of(s, p),
            columns: count(s, p + 1),
        }
    }
}
