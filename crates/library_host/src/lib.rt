// The library's calls for C, at its count limit of 256, with a work slice that the caller lends. They answer 0 for done or the number of the refusal.
#![tactic(auto)]

ghost use Rattle.requests.specs.Question.{asked};
ghost use Rattle.requests.specs.Call as requests;
ghost use Rattle.requests.specs.Call.{call};
ghost use Rattle.limits.specs.Limits.{library_limit};
ghost use Rattle.sweeps.specs.Sweep.{sweep_call};
ghost use Rattle.imports.specs.Import.{import_call};
ghost use Rattle.refusal.specs.Written.{WriteTold};
ghost use Rattle.library_host.specs.LibraryAnswers.{LibraryAnswers, HeadroomAnswers};

use refusal::number_told;

// The report of a dimension.
pub fn fildwuk_library_report(
    sheet: &[u8],
    dimension: u32,
    report: &mut [i64],
    work: &mut [i32],
) -> u32
    ensures { let left = report.new in
        let work-left = work.new in LibraryAnswers
        (call library_limit (asked sheet.now dimension) requests.report report.old work.old) result left work-left }
{
    number_told(calls::report::report(sheet, dimension, report, work))
}

// The report with its headroom: where the call is done, the peak and its bits are written.
pub fn fildwuk_library_headroom(
    sheet: &[u8],
    dimension: u32,
    report: &mut [i64],
    work: &mut [i32],
    peak: &mut u64,
    bits: &mut u32,
) -> u32
    ensures { let left = report.new in
        let work-left = work.new in
        let peak-left = peak.new in
        let bits_left = bits.new in HeadroomAnswers
        (call library_limit (asked sheet.now dimension) requests.report report.old work.old) result left work-left
        peak.old peak-left bits.old bits_left }
{
    let answer = calls::report::report(sheet, dimension, report, work);
    if let Ok(counts) = answer {
        *peak = counts.peak;
        *bits = counts.bits;
    }
    number_told(answer)
}

// The coordinates of a cycle.
pub fn fildwuk_library_coordinates(
    sheet: &[u8],
    dimension: u32,
    chain: &[i32],
    coordinates: &mut [i64],
    work: &mut [i32],
) -> u32
    ensures { let left = coordinates.new in
        let work-left = work.new in LibraryAnswers
        (call library_limit (asked sheet.now dimension) (requests.coordinates chain.now) coordinates.old work.old)
        result left work-left }
{
    number_told(calls::coordinates::coordinates(sheet, dimension, chain, coordinates, work))
}

// The coordinate lists of `many` chains.
pub fn fildwuk_library_coordinate_lists(
    sheet: &[u8],
    dimension: u32,
    many: usize,
    chains: &[i32],
    coordinates: &mut [i64],
    work: &mut [i32],
) -> u32
    ensures { let left = coordinates.new in
        let work-left = work.new in LibraryAnswers
        (call library_limit (asked sheet.now dimension) (requests.lists many chains.now) coordinates.old work.old)
        result left work-left }
{
    number_told(calls::coordinates::coordinate_lists(
        sheet,
        dimension,
        many,
        chains,
        coordinates,
        work,
    ))
}

// The surface that a chain bounds.
pub fn fildwuk_library_surface(
    sheet: &[u8],
    dimension: u32,
    chain: &[i32],
    surface: &mut [i64],
    work: &mut [i32],
) -> u32
    ensures { let left = surface.new in
        let work-left = work.new in LibraryAnswers
        (call library_limit (asked sheet.now dimension) (requests.surface chain.now) surface.old work.old)
        result left work-left }
{
    number_told(calls::surface::surface(sheet, dimension, chain, surface, work))
}

// The sweep of a sheet.
pub fn fildwuk_library_sweep(sheet: &[u8], swept: &mut [u8]) -> u32
    ensures { let left = swept.new in WriteTold (sweep_call library_limit sheet.now swept.old) result left }
{
    number_told(sweeper::sweep::sweep(sheet, swept))
}

// The import of a mesh text.
pub fn fildwuk_library_import(text: &[u8], sheet: &mut [u8]) -> u32
    ensures { let left = sheet.new in WriteTold (import_call library_limit text.now sheet.old) result left }
{
    number_told(importer::import::import(text, sheet))
}
