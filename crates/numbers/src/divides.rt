// Divisibility.
ghost use Rattle.std.specs.Prelude.{◌≡◌, pos, ◌≤ℤ◌};
ghost use Rattle.integers.specs.Division.{divides};

// Whether d divides x; 0 divides only 0.
pub fn divides(d: i64, x: i64) -> bool
    requires { pos 0 ≤ℤ d }
    ensures { result ≡ divides d x }
{
    x.unsigned_abs().is_multiple_of(d.unsigned_abs())
}
