// Numbers as bytes, low byte first.
#![tactic(auto)]

ghost use Rattle.std.specs.Prelude.{◌≡◌, ◌+◌, ◌*◌, ◌≤◌, length};
ghost use Rattle.lists.specs.Tabulate.{tabulate};
ghost use Rattle.lists.specs.Splice.{splice};
ghost use Rattle.host_calls.specs.Bytes.{numbers_bytes, coefficient_at, coefficient_in};

// Writes the bytes of the numbers from byte `at` on.
pub fn write_numbers(numbers: &[i64], out: &mut [u8], at: usize)
    requires { at + 8 * length numbers.now ≤ length out.old }
    ensures { out.new ≡ splice at (numbers_bytes numbers.now) out.old }
{
    for (i, x) in numbers.iter().enumerate() {
        let from = at + 8 * i;
        out[from..from + 8].copy_from_slice(&x.to_le_bytes());
    }
}

// The signed number at byte `at`.
fn read_coefficient(b: &[u8], at: usize) -> i32
    requires { at + 4 ≤ length b.now }
    ensures { result ≡ coefficient_at b.now at }
{
    i32::from_le_bytes([b[at], b[at + 1], b[at + 2], b[at + 3]])
}

// Reads the coefficients from coefficient `from` of the chains on.
pub fn read_chain(chains: &[u8], from: usize, coefficients: &mut [i32])
    requires { 4 * (from + length coefficients.old) ≤ length chains.now }
    ensures { coefficients.new ≡
        tabulate (length coefficients.old) (λ i. coefficient_in chains.now (from + i)) }
{
    for (i, x) in coefficients.iter_mut().enumerate() {
        *x = read_coefficient(chains, 4 * (from + i));
    }
}
