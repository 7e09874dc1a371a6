// The surface that a chain bounds, from bytes to bytes.
ghost use Rattle.requests.specs.Question.{asked};
ghost use Rattle.host_calls.specs.Host.{host_call, surface_in};
ghost use Rattle.refusal.specs.Told.{told};
ghost use Rattle.fildwuk.specs.HostAnswers.{HostAnswers};
ghost use Rattle.fildwuk.specs.Given.{Given};

use calls::slots::SURFACE_WORK_SLOTS;
use calls::surface::surface_at;
use fields::field::count;
use little_endian::{read_chain, write_numbers};
use refusal::Refusal;
use sheet::reader::Sheet;

// The most cells that a dimension may have.
const CELLS: usize = Sheet::HOST_LIMIT;

// The slots for the coefficients of a given chain: one more, so that bytes that are no chain have a length that is wrong in every dimension.
const CHAIN_SLOTS: usize = CELLS + 1;

// Reads the coefficients of the chain, and answers how many it has.
fn read_given(chain: &[u8], coefficients: &mut [i32; CHAIN_SLOTS]) -> usize
    ensures { Given chain.now result coefficients.new }
{
    let n = chain.len() / 4;
    if CELLS < n || chain.len() != 4 * n {
        return CHAIN_SLOTS;
    }
    read_chain(chain, 0, &mut coefficients[..n]);
    n
}

// The surface, by way of its numbers.
pub fn surface_through(
    sheet: &[u8],
    dimension: u32,
    chain: &[u8],
    surface: &mut [u8],
) -> Result<(), Refusal>
    ensures { let left = surface.new in
        let q = asked sheet.now dimension in HostAnswers (host_call q (surface_in q chain.now) surface.old) (told result) left }
{
    let mut work = [0i32; SURFACE_WORK_SLOTS];
    let mut numbers = [0i64; CELLS];
    let mut coefficients = [0i32; CHAIN_SLOTS];
    let given = read_given(chain, &mut coefficients);
    let slots = (surface.len() / 8).min(CELLS);
    surface_at(
        Sheet::host(),
        sheet,
        dimension,
        &coefficients[..given],
        &mut numbers[..slots],
        &mut work,
    )?;
    let written = count(sheet, dimension as usize + 1);
    write_numbers(&numbers[..written], surface, 0);
    Ok(())
}
