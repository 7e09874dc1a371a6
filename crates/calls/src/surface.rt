// The surface call.
ghost use Rattle.std.specs.Prelude.{◌≤◌};
ghost use Rattle.requests.specs.Question.{asked};
ghost use Rattle.requests.specs.Call as requests;
ghost use Rattle.requests.specs.Call.{call};
ghost use Rattle.limits.specs.Limits.{library_limit};
ghost use Rattle.calls.specs.CallAnswers.{CallAnswers};

use crate::admission::{Request, admit};
use chain_checks::check::check_within;
use matrix_lines::line::clear;
use refusal::Refusal;
use sheet::reader::Sheet;
use two_reductions::reductions::reduce_twice;
use writers::counts::Counts;
use writers::kind::counts;
use writers::surface::{bounds_nothing, write_surface};

// The surface that a chain bounds, at a count limit.
pub fn surface_at(
    sheet: Sheet,
    s: &[u8],
    dimension: u32,
    chain: &[i32],
    surface: &mut [i64],
    work: &mut [i32],
) -> Result<Counts, Refusal>
    requires { sheet.limit ≤ library_limit }
    ensures { let left = surface.new in
        let work-left = work.new in CallAnswers
        (call sheet.limit (asked s.now dimension) (requests.surface chain.now) surface.old work.old)
        result left work-left }
{
    let n = admit(
        sheet,
        s,
        dimension,
        Request::Surface,
        surface.len(),
        work.len(),
    )?;
    let p = dimension as usize;
    if chain.len() != n.cells {
        return Err(Refusal::ChainLengthDiffers);
    }
    check_within(s, p, Sheet::SURFACE_COEFFICIENT_LIMIT, chain)?;
    let reduced = reduce_twice(s, p, n, true, work)?;
    if bounds_nothing(reduced, work, chain) {
        clear(work);
        return Err(Refusal::BoundsNothing);
    }
    write_surface(reduced, work, chain, surface);
    let counts = counts(reduced, work);
    clear(work);
    Ok(counts)
}

// The surface that a chain bounds: document 02, Note 6.
pub fn surface(
    s: &[u8],
    dimension: u32,
    chain: &[i32],
    surface: &mut [i64],
    work: &mut [i32],
) -> Result<Counts, Refusal>
    ensures { let left = surface.new in
        let work-left = work.new in CallAnswers
        (call library_limit (asked s.now dimension) (requests.surface chain.now) surface.old work.old)
        result left work-left }
{
    surface_at(Sheet::library(), s, dimension, chain, surface, work)
}
