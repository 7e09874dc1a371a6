// The bytes of a sheet within the host limit, and of its text.
use fields::field::{HEADER_LENGTH, TOP};
use sheet::reader::Sheet;

const CELLS: usize = Sheet::HOST_LIMIT;

// The vertex numbers, of two bytes each, in one cell of each dimension: 1 + .. + (TOP + 1).
const VERTICES: usize = (TOP + 1) * (TOP + 2) / 2;

// One byte more than the longest sheet that is accepted: these first bytes settle the text of any input.
pub const INPUT_ROOM: usize = HEADER_LENGTH + 2 * (CELLS * VERTICES) + 1;

// A field of a line: a space, a sign and 19 digits.
const FIELD: usize = 21;

// The first line of a dimension: a letter, its number, b, t and the orders, and a line feed.
const HEADING: usize = 2 + FIELD * (3 + CELLS);

// The line of a generator.
const GENERATOR: usize = 2 + FIELD * CELLS;

// What the text takes at most.
pub const TEXT_ROOM: usize = (HEADING + GENERATOR * CELLS) * (TOP + 1);
