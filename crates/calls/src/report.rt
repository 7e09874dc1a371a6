// The report call.
ghost use Rattle.std.specs.Prelude.{◌≤◌};
ghost use Rattle.requests.specs.Question.{asked};
ghost use Rattle.requests.specs.Call as requests;
ghost use Rattle.requests.specs.Call.{call};
ghost use Rattle.limits.specs.Limits.{library_limit};
ghost use Rattle.calls.specs.CallAnswers.{CallAnswers};

use crate::admission::{Request, admit};
use matrix_lines::line::clear;
use refusal::Refusal;
use sheet::reader::Sheet;
use two_reductions::reductions::reduce_twice;
use writers::counts::Counts;
use writers::report::write_report;

// The report of a dimension at a count limit.
pub fn report_at(
    sheet: Sheet,
    s: &[u8],
    dimension: u32,
    report: &mut [i64],
    work: &mut [i32],
) -> Result<Counts, Refusal>
    requires { sheet.limit ≤ library_limit }
    ensures { let left = report.new in
        let work-left = work.new in CallAnswers (call sheet.limit (asked s.now dimension) requests.report report.old work.old) result left work-left }
{
    let n = admit(
        sheet,
        s,
        dimension,
        Request::Report,
        report.len(),
        work.len(),
    )?;
    let p = dimension as usize;
    let reduced = reduce_twice(s, p, n, false, work)?;
    let counts = write_report(reduced, work, report);
    clear(work);
    Ok(counts)
}

// The report of a dimension: document 01, "The report and the coordinates".
pub fn report(
    s: &[u8],
    dimension: u32,
    report: &mut [i64],
    work: &mut [i32],
) -> Result<Counts, Refusal>
    ensures { let left = report.new in
        let work-left = work.new in CallAnswers (call library_limit (asked s.now dimension) requests.report report.old work.old) result left work-left }
{
    report_at(Sheet::library(), s, dimension, report, work)
}
