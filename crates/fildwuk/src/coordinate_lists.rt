// The coordinate lists of many chains, from bytes to bytes, with room for one chain and one list: all chains are read and checked one at a time;
// after the reductions each is read again and answered.
ghost use Rattle.std.specs.Prelude.{◌≡◌, ◌*◌, ◌≤◌, length};
ghost use Rattle.limits.specs.Limits.{host_limit, coefficient_limit};
ghost use Rattle.lists.specs.Splice.{splices};
ghost use Rattle.complexes.specs.Complex.{count};
ghost use Rattle.sheet_format.specs.Layout.{top};
ghost use Rattle.trials.specs.Trial.{first_refusal};
ghost use Rattle.sheet_format.specs.Check.{sections_of};
ghost use Rattle.faces.specs.Face.{Accepted};
ghost use Rattle.host_calls.specs.Bytes.{chain_from};
ghost use Rattle.requests.specs.Chains.{cycles_checks};
ghost use Rattle.requests.specs.Question.{asked};
ghost use Rattle.host_calls.specs.Host.{host_call, lists_in};
ghost use Rattle.refusal.specs.Told.{told};
ghost use Rattle.fildwuk.specs.HostAnswers.{HostAnswers};
ghost use Rattle.fildwuk.specs.Lists.{CanListBytes, list_bytes};

use calls::admission::{Request, admit};
use calls::slots::WORK_SLOTS;
use chain_checks::check::{check_within, nonempty};
use little_endian::{read_chain, write_numbers};
use refusal::Refusal;
use sheet::reader::Sheet;
use two_reductions::reduced::Reduced;
use two_reductions::reductions::reduce_twice;
use writers::coordinates::write_coordinates;

// The slots of one chain and of one list.
const CELLS: usize = Sheet::HOST_LIMIT;

// The first of 11 and 12 that applies to the first faulty of the `many` chains.
fn check_bytes(s: &[u8], p: usize, cells: usize, many: usize, chains: &[u8]) -> Result<(), Refusal>
    requires accepted { Accepted s.now }
    requires p_le_top { (p ≤ top) × (cells ≡ count (sections_of s.now) p) × (cells ≤ host_limit) × (length chains.now ≡ 4 * (many * cells)) }
    ensures { first_refusal (cycles_checks coefficient_limit (sections_of s.now) p many (chain_from (many * cells) chains.now)) ≡
        told result }
{
    let mut coefficients = [0i32; CELLS];
    let chain = &mut coefficients[..cells];
    for i in 0..many {
        read_chain(chains, i * cells, chain);
        check_within(s, p, Sheet::COEFFICIENT_LIMIT, chain)?;
    }
    Ok(())
}

// Writes the coordinate list of each of the `many` chains, list i from byte 8 × i × cells on.
fn write_bytes(
    reduced: Reduced,
    w: &[i32],
    cells: usize,
    many: usize,
    chains: &[u8],
    out: &mut [u8],
)
    requires { CanListBytes reduced w.now cells many chains.now (length out.old) }
    ensures { out.new ≡
        splices (8 * cells) (list_bytes reduced w.now cells many chains.now) many out.old }
{
    let mut coefficients = [0i32; CELLS];
    let mut numbers = [0i64; CELLS];
    let chain = &mut coefficients[..cells];
    for i in 0..many {
        let at = i * cells;
        read_chain(chains, at, chain);
        let width = write_coordinates(reduced, w, chain, &mut numbers, 0);
        write_numbers(&numbers[..width], out, 8 * at);
    }
}

// The coordinate lists of `many` chains.
pub fn lists_through(
    sheet: &[u8],
    dimension: u32,
    many: usize,
    chains: &[u8],
    coordinates: &mut [u8],
) -> Result<(), Refusal>
    ensures { let left = coordinates.new in
        let q = asked sheet.now dimension in HostAnswers (host_call q (lists_in q many chains.now) coordinates.old) (told result) left }
{
    let mut work = [0i32; WORK_SLOTS];
    let slots = coordinates.len() / 8;
    let n = admit(
        Sheet::host(),
        sheet,
        dimension,
        Request::Coordinates(many),
        slots,
        WORK_SLOTS,
    )?;
    let p = dimension as usize;
    let cells = n.cells;
    if chains.len() != 4 * (many * cells) {
        return Err(Refusal::ChainLengthDiffers);
    }
    let lists = nonempty(many, cells);
    check_bytes(sheet, p, cells, lists, chains)?;
    let reduced = reduce_twice(sheet, p, n, false, &mut work)?;
    write_bytes(reduced, &work, cells, lists, chains, coordinates);
    Ok(())
}
