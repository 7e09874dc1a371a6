// The lines that the program prints.
ghost use Rattle.std.specs.Prelude.{◌+◌, ◌*◌, ◌≤◌, ◌∷◌, length, take, pos};
ghost use Rattle.refusal.specs.Number.{number_of};
ghost use Rattle.program_text.specs.Text.{spaced, line, refusal_line, report_text};
ghost use Rattle.limits.specs.Limits.{host_limit};
ghost use Rattle.sheet_format.specs.Layout.{top};
ghost use Rattle.text.specs.Put.{Writes};
ghost use Rattle.text.specs.Room.{field_room, line_room, heading_room, dimension_room};

use crate::writer::Writer;
use refusal::Refusal;

impl Writer<'_> {
    // Writes the numbers, each after a space.
    fn put_fields(&mut self, numbers: &[i64])
        requires { self.old.at + field_room * length numbers.now ≤ length self.old.out.now }
        ensures { Writes (field_room * length numbers.now) (spaced numbers.now) self.old self.new }
    {
        for number in numbers {
            self.put(b' ');
            self.put_decimal(*number);
        }
    }

    // Writes a line: a letter and the numbers.
    pub fn put_line(&mut self, letter: u8, numbers: &[i64])
        requires { self.old.at + line_room (length numbers.now) ≤ length self.old.out.now }
        ensures { Writes (line_room (length numbers.now)) (line letter numbers.now) self.old self.new }
    {
        self.put(letter);
        self.put_fields(numbers);
        self.put(b'\n');
    }

    // Writes `R` and the number of a refusal.
    pub fn put_refusal(&mut self, refusal: Refusal)
        requires { self.old.at + line_room 1 ≤ length self.old.out.now }
        ensures { Writes (line_room 1) (refusal_line (number_of refusal)) self.old self.new }
    {
        self.put_line(b'R', &[refusal.number() as i64]);
    }

    // Writes the first line of the report of dimension p: `H`, p, and the report's b, t and orders.
    fn put_heading(&mut self, p: usize, numbers: &[i64])
        requires { (p ≤ top) × (length numbers.now ≤ 2 + host_limit) × (self.old.at + heading_room ≤ length self.old.out.now) }
        ensures { Writes heading_room (line 72 (pos p ∷ numbers.now)) self.old self.new }
    {
        self.put(b'H');
        self.put_fields(&[p as i64]);
        self.put_fields(numbers);
        self.put(b'\n');
    }

    // Writes the report of dimension p: its first line, then a line for each generator of `cells` coefficients.
    pub fn put_report(
        &mut self,
        p: usize,
        cells: usize,
        torsion: usize,
        generators: usize,
        report: &[i64],
    )
        requires p_le_top { (p ≤ top) × (cells ≤ host_limit) × (torsion ≤ cells) × (generators ≤ cells) }
        requires cells_in_bounds { (2 + torsion + generators * cells ≤ length report.now) × (self.old.at + dimension_room ≤ length self.old.out.now) }
        ensures { Writes dimension_room (report_text p cells torsion generators report.now) self.old self.new }
    {
        let first = 2 + torsion;
        self.put_heading(p, &report[..first]);
        for i in 0..generators {
            let from = first + i * cells;
            self.put_line(b'G', &report[from..from + cells]);
        }
    }
}
