// Numbers in decimal.
ghost use Rattle.std.specs.Prelude.{suc, ◌+◌, ◌≤◌, length};
ghost use Rattle.program_text.specs.Text.{digits, decimal};
ghost use Rattle.text.specs.Put.{Writes};
ghost use Rattle.text.specs.Room.{number_room};

use crate::writer::Writer;

impl Writer<'_> {
    // Writes the digits of n.
    fn put_digits(&mut self, n: u64)
        requires { self.old.at + length (digits (suc n) n) ≤ length self.old.out.now }
        ensures { Writes (length (digits (suc n) n)) (digits (suc n) n) self.old self.new }
    {
        if n >= 10 {
            self.put_digits(n / 10);
        }
        self.put(b'0' + (n % 10) as u8);
    }

    // Writes x, with `-` before a negative number.
    pub fn put_decimal(&mut self, x: i64)
        requires { self.old.at + number_room ≤ length self.old.out.now }
        ensures { Writes number_room (decimal x) self.old self.new }
    {
        if x < 0 {
            self.put(b'-');
        }
        self.put_digits(x.unsigned_abs());
    }
}
