// A matrix that stands by lines in a slice of signed 32-bit numbers: line i has `width` entries from `at + i * width` on.
ghost use Rattle.std.specs.Prelude.{◌≡◌, ◌+◌, ◌*◌, ◌^◌, ◌<◌, ◌≤◌, length};
ghost use Rattle.matrix_lines.specs.Slice.{line_at};
ghost use Rattle.matrix_lines.specs.Matrices.{Held, contents};

#[derive(Clone, Copy)]
pub struct Matrix {
    pub at: usize,
    pub lines: usize,
    pub width: usize,
}

impl Matrix {
    // The greatest absolute value of an entry.
    pub const ENTRY_LIMIT: i64 = 1048575;

    // The place of line i.
    pub fn line(self, i: usize) -> usize
        requires { (self.at + self.lines * self.width < 2 ^ 63) × (i ≤ self.lines) }
        ensures { result ≡ line_at self.at self.width i }
    {
        self.at + i * self.width
    }

    // The entry at place j of line i.
    pub fn entry(self, w: &[i32], i: usize, j: usize) -> i64
        requires held { Held (length w.now) self }
        requires i_lt_lines { (i < self.lines) × (j < self.width) }
        ensures { result ≡ contents self w.now i j }
    {
        i64::from(w[self.line(i) + j])
    }
}
