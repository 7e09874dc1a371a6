// The calls for C: those of the host, which have their own work arrays and carry numbers as bytes, and those of the library, at its count limit of 256,
// with a work slice that the caller lends. Each is the call of its name in `fildwuk` or `library_host`, with the same promises, and answers 0 for done or
// the number of the refusal. include/fildwuk.h and include/fildwuk_library.h declare them.
#![tactic(auto)]

ghost use Rattle.std.specs.Prelude.{◌≡◌};
ghost use Rattle.limits.specs.Limits.{host_limit, library_limit};
ghost use Rattle.sweeps.specs.Sweep.{sweep_call};
ghost use Rattle.imports.specs.Import.{import_call};
ghost use Rattle.requests.specs.Question.{asked};
ghost use Rattle.requests.specs.Call as requests;
ghost use Rattle.requests.specs.Call.{call};
ghost use Rattle.host_calls.specs.Host.{host_call, coordinates_in, lists_in, surface_in};
ghost use Rattle.refusal.specs.Written.{WriteTold};
ghost use Rattle.fildwuk.specs.HostAnswers.{HostAnswers};
ghost use Rattle.library_host.specs.LibraryAnswers.{LibraryAnswers, HeadroomAnswers};

// The report of a dimension.
#[unsafe(no_mangle)]
pub extern "C" fn fildwuk_report(sheet: &[u8], dimension: u32, report: &mut [u8]) -> u32
    ensures { let left = report.new in HostAnswers (host_call (asked sheet.now dimension) requests.report report.old) result left }
{
    fildwuk::fildwuk_report(sheet, dimension, report)
}

// The coordinate lists of `many` chains.
#[unsafe(no_mangle)]
pub extern "C" fn fildwuk_coordinate_lists(
    sheet: &[u8],
    dimension: u32,
    many: u32,
    chains: &[u8],
    coordinates: &mut [u8],
) -> u32
    ensures { let left = coordinates.new in
        let q = asked sheet.now dimension in HostAnswers (host_call q (lists_in q many chains.now) coordinates.old) result left }
{
    fildwuk::fildwuk_coordinate_lists(sheet, dimension, many, chains, coordinates)
}

// The coordinates of a chain.
#[unsafe(no_mangle)]
pub extern "C" fn fildwuk_coordinates(
    sheet: &[u8],
    dimension: u32,
    chain: &[u8],
    coordinates: &mut [u8],
) -> u32
    ensures { let left = coordinates.new in
        let q = asked sheet.now dimension in HostAnswers (host_call q (coordinates_in q chain.now) coordinates.old) result left }
{
    fildwuk::fildwuk_coordinates(sheet, dimension, chain, coordinates)
}

// The surface that a chain bounds.
#[unsafe(no_mangle)]
pub extern "C" fn fildwuk_surface(
    sheet: &[u8],
    dimension: u32,
    chain: &[u8],
    surface: &mut [u8],
) -> u32
    ensures { let left = surface.new in
        let q = asked sheet.now dimension in HostAnswers (host_call q (surface_in q chain.now) surface.old) result left }
{
    fildwuk::fildwuk_surface(sheet, dimension, chain, surface)
}

// The sweep of a sheet.
#[unsafe(no_mangle)]
pub extern "C" fn fildwuk_sweep(sheet: &[u8], swept: &mut [u8]) -> u32
    ensures { let left = swept.new in WriteTold (sweep_call host_limit sheet.now swept.old) result left }
{
    fildwuk::fildwuk_sweep(sheet, swept)
}

// The import of a mesh text.
#[unsafe(no_mangle)]
pub extern "C" fn fildwuk_import(text: &[u8], sheet: &mut [u8]) -> u32
    ensures { let left = sheet.new in WriteTold (import_call host_limit text.now sheet.old) result left }
{
    fildwuk::fildwuk_import(text, sheet)
}

// The report of a dimension.
#[unsafe(no_mangle)]
pub extern "C" fn fildwuk_library_report(
    sheet: &[u8],
    dimension: u32,
    report: &mut [i64],
    work: &mut [i32],
) -> u32
    ensures { let left = report.new in
        let work-left = work.new in LibraryAnswers
        (call library_limit (asked sheet.now dimension) requests.report report.old work.old) result left work-left }
{
    library_host::fildwuk_library_report(sheet, dimension, report, work)
}

// The report with its headroom: where the call is done, the peak and its bits are written.
#[unsafe(no_mangle)]
pub extern "C" fn fildwuk_library_headroom(
    sheet: &[u8],
    dimension: u32,
    report: &mut [i64],
    work: &mut [i32],
    peak: &mut u64,
    bits: &mut u32,
) -> u32
    ensures { let left = report.new in
        let work-left = work.new in
        let peak-left = peak.new in
        let bits_left = bits.new in HeadroomAnswers
        (call library_limit (asked sheet.now dimension) requests.report report.old work.old) result left work-left
        peak.old peak-left bits.old bits_left }
{
    library_host::fildwuk_library_headroom(sheet, dimension, report, work, peak, bits)
}

// The coordinates of a cycle.
#[unsafe(no_mangle)]
pub extern "C" fn fildwuk_library_coordinates(
    sheet: &[u8],
    dimension: u32,
    chain: &[i32],
    coordinates: &mut [i64],
    work: &mut [i32],
) -> u32
    ensures { let left = coordinates.new in
        let work-left = work.new in LibraryAnswers
        (call library_limit (asked sheet.now dimension) (requests.coordinates chain.now) coordinates.old work.old)
        result left work-left }
{
    library_host::fildwuk_library_coordinates(sheet, dimension, chain, coordinates, work)
}

// The coordinate lists of `many` chains.
#[unsafe(no_mangle)]
pub extern "C" fn fildwuk_library_coordinate_lists(
    sheet: &[u8],
    dimension: u32,
    many: usize,
    chains: &[i32],
    coordinates: &mut [i64],
    work: &mut [i32],
) -> u32
    ensures { let left = coordinates.new in
        let work-left = work.new in LibraryAnswers
        (call library_limit (asked sheet.now dimension) (requests.lists many chains.now) coordinates.old work.old)
        result left work-left }
{
    library_host::fildwuk_library_coordinate_lists(
        sheet,
        dimension,
        many,
        chains,
        coordinates,
        work,
    )
}

// The surface that a chain bounds.
#[unsafe(no_mangle)]
pub extern "C" fn fildwuk_library_surface(
    sheet: &[u8],
    dimension: u32,
    chain: &[i32],
    surface: &mut [i64],
    work: &mut [i32],
) -> u32
    ensures { let left = surface.new in
        let work-left = work.new in LibraryAnswers
        (call library_limit (asked sheet.now dimension) (requests.surface chain.now) surface.old work.old)
        result left work-left }
{
    library_host::fildwuk_library_surface(sheet, dimension, chain, surface, work)
}

// The sweep of a sheet.
#[unsafe(no_mangle)]
pub extern "C" fn fildwuk_library_sweep(sheet: &[u8], swept: &mut [u8]) -> u32
    ensures { let left = swept.new in WriteTold (sweep_call library_limit sheet.now swept.old) result left }
{
    library_host::fildwuk_library_sweep(sheet, swept)
}

// The import of a mesh text.
#[unsafe(no_mangle)]
pub extern "C" fn fildwuk_library_import(text: &[u8], sheet: &mut [u8]) -> u32
    ensures { let left = sheet.new in WriteTold (import_call library_limit text.now sheet.old) result left }
{
    library_host::fildwuk_library_import(text, sheet)
}
