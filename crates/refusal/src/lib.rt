// The refusals, their numbers, and the number that an answer is told by.
#![tactic(auto)]

ghost use Rattle.std.specs.Prelude.{◌≡◌};
ghost use Rattle.refusal.specs.Number.{number_of};
ghost use Rattle.refusal.specs.Told.{told};

#[derive(Clone, Copy, Debug, PartialEq, Eq)]
pub enum Refusal {
    SheetTooShort = 1,
    CountExceedsLimit = 2,
    OffsetDiffers = 3,
    LengthDiffers = 4,
    VerticesDoNotRise = 5,
    CellsDoNotRise = 6,
    FaceMissing = 7,
    DimensionExceedsTop = 8,
    SliceTooShort = 9,
    ChainLengthDiffers = 10,
    CoefficientExceedsLimit = 11,
    BoundaryNotZero = 12,
    TooWide = 13,
    MeshMalformed = 14,
    ElementFaulty = 15,
    SheetTooLong = 16,
    BoundsNothing = 17,
    LooseNode = 18,
}

impl Refusal {
    // The number that the callers are told.
    pub fn number(self) -> u32
        ensures { result ≡ number_of self }
    {
        self as u32
    }
}

// The number that an answer is told by: 0 for done, or the number of the refusal.
pub fn number_told<T: Drop>(answer: Result<T, Refusal>) -> u32
    ensures { result ≡ told answer }
{
    match answer {
        Ok(_) => 0,
        Err(refusal) => refusal.number(),
    }
}
