// The checks 1 to 7 in order, and 18 after them.
ghost use Rattle.std.specs.Prelude.{◌≡◌};
ghost use Rattle.limits.specs.Limits.{library_limit, host_limit};
ghost use Rattle.sheet.specs.Number.{ReadsComplex, ReadsSheet};

use checks::check::{
    cells_do_not_rise, count_exceeds, face_missing, offset_differs, vertices_do_not_rise,
};
use fields::field::{HEADER_LENGTH, TOP, start};
use loose_nodes::loose::loose_node;
use refusal::Refusal;

// A sheet is read at a limit for its counts.
#[derive(Clone, Copy)]
pub struct Sheet {
    pub limit: usize,
}

impl Sheet {
    // The greatest count in the library's calls.
    pub const LIBRARY_LIMIT: usize = 256;

    // The greatest count in the program and the host calls.
    pub const HOST_LIMIT: usize = 48;

    // The greatest absolute value of a coefficient of a given chain.
    pub const COEFFICIENT_LIMIT: u16 = 32767;

    // .. and of one given to the surface call.
    pub const SURFACE_COEFFICIENT_LIMIT: u16 = 15;

    // The sheet of the library's calls.
    pub fn library() -> Sheet
        ensures { result.limit ≡ library_limit }
    {
        Sheet {
            limit: Self::LIBRARY_LIMIT,
        }
    }

    // The sheet of the program and the host calls.
    pub fn host() -> Sheet
        ensures { result.limit ≡ host_limit }
    {
        Sheet {
            limit: Self::HOST_LIMIT,
        }
    }

    // Accepted, where the bytes are the layout of a complex within the limit, loose nodes or not, or the first of the refusals 1 to 7 that applies.
    pub fn read_complex(self, s: &[u8]) -> Result<(), Refusal>
        ensures { ReadsComplex self.limit s.now result }
    {
        if s.len() < HEADER_LENGTH {
            return Err(Refusal::SheetTooShort);
        }
        if count_exceeds(s, self.limit) {
            return Err(Refusal::CountExceedsLimit);
        }
        if offset_differs(s) {
            return Err(Refusal::OffsetDiffers);
        }
        if s.len() != start(s, TOP + 1) {
            return Err(Refusal::LengthDiffers);
        }
        if vertices_do_not_rise(s) {
            return Err(Refusal::VerticesDoNotRise);
        }
        if cells_do_not_rise(s) {
            return Err(Refusal::CellsDoNotRise);
        }
        if face_missing(s) {
            return Err(Refusal::FaceMissing);
        }
        Ok(())
    }

    // Accepted, exactly where the bytes are the layout of a complex within the limit without loose nodes, or the first refusal that applies.
    pub fn read(self, s: &[u8]) -> Result<(), Refusal>
        ensures { ReadsSheet self.limit s.now result }
    {
        self.read_complex(s)?;
        if loose_node(s) {
            return Err(Refusal::LooseNode);
        }
        Ok(())
    }
}
