// Remainders of a number.
ghost use Rattle.std.specs.Prelude.{◌≡◌, pos, ◌≤ℤ◌};
ghost use Rattle.integers.specs.Division.{residue};

// The residue of x for the order d, above -d/2 and up to d/2; x itself where d is 0, the order of a free row.
pub fn residue(x: i64, d: i64) -> i64
    requires { pos 0 ≤ℤ d }
    ensures { result ≡ residue x d }
{
    if d == 0 {
        return x;
    }
    let r = x.rem_euclid(d);
    if r > d - r { r - d } else { r }
}
