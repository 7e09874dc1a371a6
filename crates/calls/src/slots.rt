// The slots that suffice for every sheet that the program and the host calls accept.
use sheet::reader::Sheet;

const CELLS: usize = Sheet::HOST_LIMIT;

pub const REPORT_SLOTS: usize = 2 + CELLS + CELLS * CELLS;

pub const WORK_SLOTS: usize = CELLS * (2 * CELLS + CELLS);

// Those of the surface call, which keeps a transform.
pub const SURFACE_WORK_SLOTS: usize = WORK_SLOTS + CELLS * CELLS;
