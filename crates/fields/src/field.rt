// The bytes, fields, counts and section starts of a sheet. Each reads 0 past the end.
ghost use Rattle.std.specs.Prelude.{suc, ◌+◌, ◌^◌, ◌≤◌, ◌<◌, length, get_or};
ghost use Rattle.sheet_format.specs.Layout.{top};
ghost use Rattle.sheet_format.specs.Check.{field_at, count_field, start_at};
ghost use Rattle.fields.specs.Read.{ReadsBelow};

// The highest dimension of a cell.
pub const TOP: usize = 3;

// The cells have the dimensions 0 to TOP.
pub const DIMENSIONS: usize = TOP + 1;

// The bytes of the header: a count and an offset for each dimension.
pub const HEADER_LENGTH: usize = 4 * DIMENSIONS;

// The byte at i.
pub fn byte(s: &[u8], i: usize) -> usize
    ensures { ReadsBelow 256 (get_or s.now i 0) result }
{
    s.get(i).map_or(0, |byte| usize::from(*byte))
}

// The field at byte i, both of whose bytes lie within the slice.
pub fn field_within(s: &[u8], i: usize) -> usize
    requires { i + 1 < length s.now }
    ensures { ReadsBelow 65536 (field_at s.now i) result }
{
    usize::from(u16::from_le_bytes([s[i], s[i + 1]]))
}

// The field at byte i: unsigned 16-bit, low byte first.
pub fn field(s: &[u8], i: usize) -> usize
    ensures { ReadsBelow 65536 (field_at s.now i) result }
{
    if i < s.len().saturating_sub(1) {
        field_within(s, i)
    } else {
        byte(s, i)
    }
}

// The count of dimension p, 0 outside the sheet's dimensions.
#[tactic(auto, unfolding(sheet_format::specs::Check::count_field))]
pub fn count(s: &[u8], p: usize) -> usize
    ensures { ReadsBelow 65536 (count_field s.now p) result }
{
    if p <= TOP { field(s, 4 * p) } else { 0 }
}

// The byte at which section p must start; for p = TOP + 1, the length that the sheet must have.
pub fn start(s: &[u8], p: usize) -> usize
    requires { p ≤ suc top }
    ensures { ReadsBelow (2 ^ 23) (start_at s.now p) result }
{
    let mut at: usize = HEADER_LENGTH;
    for q in 0..p {
        at += 2 * ((q + 1) * count(s, q));
    }
    at
}
