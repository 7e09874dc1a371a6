// The checks 11 and 12 of chains.
ghost use Rattle.std.specs.Prelude.{◌≡◌, ◌≤◌, ◌*◌, length};
ghost use Rattle.complexes.specs.Complex.{count};
ghost use Rattle.sheet_format.specs.Layout.{top};
ghost use Rattle.trials.specs.Trial.{first_refusal};
ghost use Rattle.sheet_format.specs.Check.{sections_of};
ghost use Rattle.requests.specs.Chains.{cycle_checks, cycles_checks};
ghost use Rattle.requests.specs.Chains.{nonempty};
ghost use Rattle.limits.specs.Limits.{coefficient_limit};
ghost use Rattle.faces.specs.Face.{Accepted};
ghost use Rattle.refusal.specs.Told.{told};

use crate::chain::{boundary_not_zero, coefficient_exceeds};
use refusal::Refusal;
use sheet::reader::Sheet;

// Refuses the chain at a coefficient limit: the first of 11 and 12 that applies.
pub fn check_within(s: &[u8], p: usize, limit: u16, chain: &[i32]) -> Result<(), Refusal>
    requires accepted { Accepted s.now }
    requires p_le_top { (p ≤ top) × (length chain.now ≡ count (sections_of s.now) p) × (limit ≤ coefficient_limit) }
    ensures { first_refusal (cycle_checks limit (sections_of s.now) p chain.now) ≡ told result }
{
    if coefficient_exceeds(chain, limit) {
        return Err(Refusal::CoefficientExceedsLimit);
    }
    if boundary_not_zero(s, p, chain) {
        return Err(Refusal::BoundaryNotZero);
    }
    Ok(())
}

// How many of the `many` chains have coefficients: none where there are no cells.
pub fn nonempty(many: usize, cells: usize) -> usize
    ensures { result ≡ nonempty many cells }
{
    if cells == 0 { 0 } else { many }
}

// Refuses the `many` chains: the first of 11 and 12 that applies to the first faulty one.
pub fn check_chains(
    s: &[u8],
    p: usize,
    cells: usize,
    many: usize,
    chains: &[i32],
) -> Result<(), Refusal>
    requires accepted { Accepted s.now }
    requires p_le_top { (p ≤ top) × (cells ≡ count (sections_of s.now) p) × (length chains.now ≡ many * cells) }
    ensures { first_refusal (cycles_checks coefficient_limit (sections_of s.now) p many chains.now) ≡ told result }
{
    for i in 0..many {
        let at = i * cells;
        check_within(s, p, Sheet::COEFFICIENT_LIMIT, &chains[at..at + cells])?;
    }
    Ok(())
}
