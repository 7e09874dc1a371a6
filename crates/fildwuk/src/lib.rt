// The host calls for a solver written in C. Each has its own work arrays, carries numbers as bytes, low byte first, and answers 0 for done or the
// number of the refusal.
#![tactic(auto)]

ghost use Rattle.requests.specs.Question.{asked};
ghost use Rattle.requests.specs.Call as requests;
ghost use Rattle.host_calls.specs.Host.{host_call, coordinates_in, lists_in, surface_in};
ghost use Rattle.limits.specs.Limits.{host_limit};
ghost use Rattle.sweeps.specs.Sweep.{sweep_call};
ghost use Rattle.imports.specs.Import.{import_call};
ghost use Rattle.refusal.specs.Told.{told};
ghost use Rattle.refusal.specs.Written.{WriteTold};
ghost use Rattle.fildwuk.specs.HostAnswers.{HostAnswers};

mod coordinate_lists;
mod surface;

use crate::coordinate_lists::lists_through;
use crate::surface::surface_through;
use calls::report::report_at;
use calls::slots::{REPORT_SLOTS, WORK_SLOTS};
use fields::field::count;
use importer::import::import_at;
use little_endian::write_numbers;
use refusal::{Refusal, number_told};
use sheet::reader::Sheet;
use sweeper::sweep::sweep_at;

// The report of a dimension, by way of its numbers.
fn report_through(sheet: &[u8], dimension: u32, report: &mut [u8]) -> Result<(), Refusal>
    ensures { let left = report.new in HostAnswers (host_call (asked sheet.now dimension) requests.report report.old) (told result) left }
{
    let mut work = [0i32; WORK_SLOTS];
    let mut numbers = [0i64; REPORT_SLOTS];
    let slots = (report.len() / 8).min(REPORT_SLOTS);
    let counts = report_at(
        Sheet::host(),
        sheet,
        dimension,
        &mut numbers[..slots],
        &mut work,
    )?;
    let generators = counts.torsion + counts.free;
    let written = 2 + counts.torsion + generators * count(sheet, dimension as usize);
    write_numbers(&numbers[..written], report, 0);
    Ok(())
}

// The report of a dimension.
pub fn fildwuk_report(sheet: &[u8], dimension: u32, report: &mut [u8]) -> u32
    ensures { let left = report.new in HostAnswers (host_call (asked sheet.now dimension) requests.report report.old) result left }
{
    number_told(report_through(sheet, dimension, report))
}

// The coordinate lists of `many` chains.
pub fn fildwuk_coordinate_lists(
    sheet: &[u8],
    dimension: u32,
    many: u32,
    chains: &[u8],
    coordinates: &mut [u8],
) -> u32
    ensures { let left = coordinates.new in
        let q = asked sheet.now dimension in HostAnswers (host_call q (lists_in q many chains.now) coordinates.old) result left }
{
    number_told(lists_through(sheet, dimension, many as usize, chains, coordinates))
}

// The coordinates of a chain.
pub fn fildwuk_coordinates(
    sheet: &[u8],
    dimension: u32,
    chain: &[u8],
    coordinates: &mut [u8],
) -> u32
    ensures { let left = coordinates.new in
        let q = asked sheet.now dimension in HostAnswers (host_call q (coordinates_in q chain.now) coordinates.old) result left }
{
    fildwuk_coordinate_lists(sheet, dimension, 1, chain, coordinates)
}

// The surface that a chain bounds.
pub fn fildwuk_surface(sheet: &[u8], dimension: u32, chain: &[u8], surface: &mut [u8]) -> u32
    ensures { let left = surface.new in
        let q = asked sheet.now dimension in HostAnswers (host_call q (surface_in q chain.now) surface.old) result left }
{
    number_told(surface_through(sheet, dimension, chain, surface))
}

// The sweep of a sheet.
pub fn fildwuk_sweep(sheet: &[u8], swept: &mut [u8]) -> u32
    ensures { let left = swept.new in WriteTold (sweep_call host_limit sheet.now swept.old) result left }
{
    number_told(sweep_at(Sheet::host(), sheet, swept))
}

// The import of a mesh text.
pub fn fildwuk_import(text: &[u8], sheet: &mut [u8]) -> u32
    ensures { let left = sheet.new in WriteTold (import_call host_limit text.now sheet.old) result left }
{
    number_told(import_at(Sheet::host(), text, sheet))
}
