// The boundary of a chain.
ghost use Rattle.std.specs.Prelude.{◌≡◌, ℕ, suc, ◌<◌, ◌≤◌, length, get_or, nat_abs, pos};
ghost use Rattle.complexes.specs.Complex.{count};
ghost use Rattle.sheet_format.specs.Layout.{top};
ghost use Rattle.sheet_format.specs.Check.{sections_of};
ghost use Rattle.requests.specs.Chains.{coefficient_exceeds, boundary_not_zero};
ghost use Rattle.limits.specs.Limits.{coefficient_limit};
ghost use Rattle.faces.specs.Face.{Accepted};
ghost use Rattle.chain_checks.specs.Sums.{Sums, AddsFaces};

use cells::face::FACES;
use faces::face::{face_places, sign};
use fields::field::count;
use sheet::reader::Sheet;

// No section of an accepted sheet has more cells.
const CELLS: usize = Sheet::LIBRARY_LIMIT;

// Check 11: whether a coefficient lies outside the limit.
pub fn coefficient_exceeds(chain: &[i32], limit: u16) -> bool
    ensures { result ≡ coefficient_exceeds limit chain.now }
{
    chain.iter().any(|x| u32::from(limit) < x.unsigned_abs())
}

// Adds x times the boundary of cell j of section p + 1. The search for the faces of cell j starts at `places`, which become theirs.
fn add_faces(
    s: &[u8],
    p: usize,
    j: usize,
    x: i64,
    sums: &mut [i64; CELLS],
    places: &mut [usize; FACES],
)
    requires accepted { Accepted s.now }
    requires p_lt_top { (p < top) × (j < count (sections_of s.now) (suc p)) }
    requires x_bound { nat_abs x ≤ coefficient_limit }
    requires sums { Sums (sections_of s.now) p sums.old }
    ensures { AddsFaces (sections_of s.now) p j x sums.old sums.new }
{
    face_places(s, p, j, places);
    for (t, &i) in places[..p + 2].iter().enumerate() {
        sums[i] += x * sign(t);
    }
}

// Check 12: whether the chain of dimension p has a nonzero boundary.
pub fn boundary_not_zero(s: &[u8], p: usize, chain: &[i32]) -> bool
    requires accepted { Accepted s.now }
    requires p_le_top { (p ≤ top) × (length chain.now ≡ count (sections_of s.now) p) }
    requires by_index { (i : ℕ) → nat_abs (get_or chain.now i (pos 0)) ≤ coefficient_limit }
    ensures { result ≡ boundary_not_zero (sections_of s.now) p chain.now }
{
    if p == 0 {
        return false;
    }
    let mut sums = [0i64; CELLS];
    let mut places = [0usize; FACES];
    for (j, &x) in chain.iter().enumerate() {
        if x != 0 {
            add_faces(s, p - 1, j, i64::from(x), &mut sums, &mut places);
        }
    }
    let rows = count(s, p - 1);
    sums[..rows].iter().any(|sum| *sum != 0)
}
