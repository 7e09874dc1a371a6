// The coordinate calls.
ghost use Rattle.requests.specs.Question.{asked};
ghost use Rattle.requests.specs.Call as requests;
ghost use Rattle.requests.specs.Call.{call};
ghost use Rattle.limits.specs.Limits.{library_limit};
ghost use Rattle.calls.specs.CallAnswers.{CallAnswers};

use crate::admission::{Request, admit};
use chain_checks::check::{check_chains, nonempty};
use matrix_lines::line::clear;
use refusal::Refusal;
use sheet::reader::Sheet;
use two_reductions::reductions::reduce_twice;
use writers::coordinates::write_lists;
use writers::counts::Counts;
use writers::kind::counts;

// The coordinate lists of `many` chains: document 02, Note 1.
pub fn coordinate_lists(
    s: &[u8],
    dimension: u32,
    many: usize,
    chains: &[i32],
    coordinates: &mut [i64],
    work: &mut [i32],
) -> Result<Counts, Refusal>
    ensures { let left = coordinates.new in
        let work-left = work.new in CallAnswers
        (call library_limit (asked s.now dimension) (requests.lists many chains.now) coordinates.old work.old)
        result left work-left }
{
    let n = admit(
        Sheet::library(),
        s,
        dimension,
        Request::Coordinates(many),
        coordinates.len(),
        work.len(),
    )?;
    let p = dimension as usize;
    let cells = n.cells;
    if chains.len() != many * cells {
        return Err(Refusal::ChainLengthDiffers);
    }
    let lists = nonempty(many, cells);
    check_chains(s, p, cells, lists, chains)?;
    let reduced = reduce_twice(s, p, n, false, work)?;
    write_lists(reduced, work, cells, lists, chains, coordinates);
    let counts = counts(reduced, work);
    clear(work);
    Ok(counts)
}

// The coordinates of a chain: document 01, "The report and the coordinates".
pub fn coordinates(
    s: &[u8],
    dimension: u32,
    chain: &[i32],
    coordinates: &mut [i64],
    work: &mut [i32],
) -> Result<Counts, Refusal>
    ensures { let left = coordinates.new in
        let work-left = work.new in CallAnswers
        (call library_limit (asked s.now dimension) (requests.coordinates chain.now) coordinates.old work.old)
        result left work-left }
{
    coordinate_lists(s, dimension, 1, chain, coordinates, work)
}
