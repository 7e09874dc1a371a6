// Quotients.
ghost use Rattle.std.specs.Prelude.{◌≡◌, ◌≤◌, pos, nat_abs, ◌<ℤ◌};
ghost use Rattle.integers.specs.Division.{floor};
ghost use Rattle.limits.specs.Limits.{entry_limit};

// x divided by the positive d, rounded towards minus infinity.
pub fn floor(x: i64, d: i64) -> i64
    requires { pos 0 <ℤ d }
    ensures { result ≡ floor x d }
{
    x.div_euclid(d)
}

// The quotient of step c and d, of an entry by a pivot: most entries are 0, and most pivots are 1.
pub fn quotient(x: i64, d: i64) -> i64
    requires { (pos 0 <ℤ d) × (nat_abs x ≤ entry_limit) × (nat_abs d ≤ entry_limit) }
    ensures { (result ≡ floor x d) × (nat_abs result ≤ entry_limit) }
{
    if x == 0 {
        return 0;
    }
    if d == 1 {
        return x;
    }
    floor(x, d)
}
