// The checks 1 to 7, 18, 8 and 9, which come before the work of every call on a dimension.
ghost use Rattle.std.specs.Prelude.{◌≡◌, ltb};
ghost use Rattle.requests.specs.Question.{asked};
ghost use Rattle.two_reductions.specs.CellCounts.{counts_of};
ghost use Rattle.calls.specs.Admission.{slots_for, space_for, Admits};

use fields::field::TOP;
use refusal::Refusal;
use sheet::reader::Sheet;
use two_reductions::cell_counts::CellCounts;

// What a call asks of a dimension: its report, the coordinates of a number of chains, or the surface that a chain bounds.
#[derive(Clone, Copy)]
pub enum Request {
    Report,
    Coordinates(usize),
    Surface,
}

impl Request {
    // Whether an output of `output` slots is too short. The slots are divided by the cells, because a product with the number of chains could wrap.
    fn lacks_slots(self, n: CellCounts, output: usize) -> bool
        ensures { result ≡ ltb output (slots_for self (counts_of n)) }
    {
        let cells = n.cells;
        match self {
            Request::Report => output < 2 + cells + cells * cells,
            Request::Coordinates(many) => cells != 0 && output / cells < many,
            Request::Surface => output < n.columns,
        }
    }

    // The work slots that are wanted: those of the two reductions, and of the transform that a surface keeps.
    fn work_slots(self, n: CellCounts) -> usize
        ensures { result ≡ space_for self (counts_of n) }
    {
        let slots = n.work_slots();
        match self {
            Request::Report => slots,
            Request::Coordinates(_) => slots,
            Request::Surface => slots + n.columns * n.columns,
        }
    }
}

// The cell counts of the dimension, or the first of these checks that applies; `output` and `work` are the lengths of the slices lent.
pub fn admit(
    sheet: Sheet,
    s: &[u8],
    dimension: u32,
    request: Request,
    output: usize,
    work: usize,
) -> Result<CellCounts, Refusal>
    ensures { Admits sheet.limit (asked s.now dimension) request output work result }
{
    sheet.read(s)?;
    let p = dimension as usize;
    if TOP < p {
        return Err(Refusal::DimensionExceedsTop);
    }
    let n = CellCounts::of(s, p);
    if request.lacks_slots(n, output) {
        return Err(Refusal::SliceTooShort);
    }
    if work < request.work_slots(n) {
        return Err(Refusal::SliceTooShort);
    }
    Ok(n)
}
