// Clients of the public calls but the import: each calls one and nothing else, and its contract says what the call's own contract gives on the hollow
// triangle, of the surface calls on the filled one too, written out.
#![tactic(auto)]

ghost use Rattle.calls.specs.CallAnswers.{answered};
ghost use Rattle.clients.specs.Used.{Gives, Numbers, ReportUsed, CoordinatesUsed, ListsUsed, SurfaceUsed, HostReportUsed, HostCoordinatesUsed, HostListsUsed, HostSurfaceUsed, HeadroomUsed, PrintUsed};

use fildwuk::{fildwuk_coordinate_lists, fildwuk_coordinates, fildwuk_report, fildwuk_surface};
use library_host::{
    fildwuk_library_coordinate_lists, fildwuk_library_coordinates, fildwuk_library_headroom,
    fildwuk_library_report, fildwuk_library_surface,
};
use printer::print_input;
use printer::room::{INPUT_ROOM, TEXT_ROOM};
use refusal::Refusal;
use writers::counts::Counts;

// The library's report.
pub fn use_report(
    sheet: &[u8],
    dimension: u32,
    report: &mut [i64],
    work: &mut [i32],
) -> Result<Counts, Refusal>
    ensures { let left = report.new in
        let work-left = work.new in ReportUsed (Gives (answered result) left work-left) sheet.now dimension report.old work.old }
{
    calls::report::report(sheet, dimension, report, work)
}

// The library's coordinates.
pub fn use_coordinates(
    sheet: &[u8],
    dimension: u32,
    chain: &[i32],
    coordinates: &mut [i64],
    work: &mut [i32],
) -> Result<Counts, Refusal>
    ensures { let left = coordinates.new in
        let work-left = work.new in CoordinatesUsed (Gives (answered result) left work-left) sheet.now dimension coordinates.old work.old chain.now }
{
    calls::coordinates::coordinates(sheet, dimension, chain, coordinates, work)
}

// The library's coordinate lists.
pub fn use_lists(
    sheet: &[u8],
    dimension: u32,
    many: usize,
    chains: &[i32],
    coordinates: &mut [i64],
    work: &mut [i32],
) -> Result<Counts, Refusal>
    ensures { let left = coordinates.new in
        let work-left = work.new in ListsUsed (Gives (answered result) left work-left) sheet.now dimension coordinates.old work.old many chains.now }
{
    calls::coordinates::coordinate_lists(sheet, dimension, many, chains, coordinates, work)
}

// The library's surface.
pub fn use_surface(
    sheet: &[u8],
    dimension: u32,
    chain: &[i32],
    surface: &mut [i64],
    work: &mut [i32],
) -> Result<Counts, Refusal>
    ensures { let left = surface.new in
        let work-left = work.new in SurfaceUsed (Gives (answered result) left work-left) sheet.now dimension surface.old work.old chain.now }
{
    calls::surface::surface(sheet, dimension, chain, surface, work)
}

// The library's report for C.
pub fn use_library_report(sheet: &[u8], dimension: u32, report: &mut [i64], work: &mut [i32]) -> u32
    ensures { let left = report.new in
        let work-left = work.new in ReportUsed (Numbers result left work-left) sheet.now dimension report.old work.old }
{
    fildwuk_library_report(sheet, dimension, report, work)
}

// The library's report with its headroom for C.
pub fn use_library_headroom(
    sheet: &[u8],
    dimension: u32,
    report: &mut [i64],
    work: &mut [i32],
    peak: &mut u64,
    bits: &mut u32,
) -> u32
    ensures { let left = report.new in
        let work-left = work.new in
        let peak-left = peak.new in
        let bits_left = bits.new in ReportUsed (Numbers result left work-left) sheet.now dimension report.old work.old
        × HeadroomUsed sheet.now dimension report.old work.old peak.old peak-left bits.old bits_left }
{
    fildwuk_library_headroom(sheet, dimension, report, work, peak, bits)
}

// The library's coordinates for C.
pub fn use_library_coordinates(
    sheet: &[u8],
    dimension: u32,
    chain: &[i32],
    coordinates: &mut [i64],
    work: &mut [i32],
) -> u32
    ensures { let left = coordinates.new in
        let work-left = work.new in CoordinatesUsed (Numbers result left work-left) sheet.now dimension coordinates.old work.old chain.now }
{
    fildwuk_library_coordinates(sheet, dimension, chain, coordinates, work)
}

// The library's coordinate lists for C.
pub fn use_library_lists(
    sheet: &[u8],
    dimension: u32,
    many: usize,
    chains: &[i32],
    coordinates: &mut [i64],
    work: &mut [i32],
) -> u32
    ensures { let left = coordinates.new in
        let work-left = work.new in ListsUsed (Numbers result left work-left) sheet.now dimension coordinates.old work.old many chains.now }
{
    fildwuk_library_coordinate_lists(sheet, dimension, many, chains, coordinates, work)
}

// The library's surface for C.
pub fn use_library_surface(
    sheet: &[u8],
    dimension: u32,
    chain: &[i32],
    surface: &mut [i64],
    work: &mut [i32],
) -> u32
    ensures { let left = surface.new in
        let work-left = work.new in SurfaceUsed (Numbers result left work-left) sheet.now dimension surface.old work.old chain.now }
{
    fildwuk_library_surface(sheet, dimension, chain, surface, work)
}

// The host's report.
pub fn use_host_report(sheet: &[u8], dimension: u32, report: &mut [u8]) -> u32
    ensures { HostReportUsed sheet.now dimension report.old result report.new }
{
    fildwuk_report(sheet, dimension, report)
}

// The host's coordinates.
pub fn use_host_coordinates(
    sheet: &[u8],
    dimension: u32,
    chain: &[u8],
    coordinates: &mut [u8],
) -> u32
    ensures { HostCoordinatesUsed sheet.now dimension coordinates.old result coordinates.new chain.now }
{
    fildwuk_coordinates(sheet, dimension, chain, coordinates)
}

// The host's coordinate lists.
pub fn use_host_lists(
    sheet: &[u8],
    dimension: u32,
    many: u32,
    chains: &[u8],
    coordinates: &mut [u8],
) -> u32
    ensures { HostListsUsed sheet.now dimension coordinates.old result coordinates.new many chains.now }
{
    fildwuk_coordinate_lists(sheet, dimension, many, chains, coordinates)
}

// The host's surface.
pub fn use_host_surface(sheet: &[u8], dimension: u32, chain: &[u8], surface: &mut [u8]) -> u32
    ensures { HostSurfaceUsed sheet.now dimension surface.old result surface.new chain.now }
{
    fildwuk_surface(sheet, dimension, chain, surface)
}

// The program's text.
pub fn use_print_input(input: &[u8; INPUT_ROOM], n: usize, out: &mut [u8; TEXT_ROOM]) -> usize
    ensures { PrintUsed input.now n out.old result out.new }
{
    print_input(input, n, out)
}
