// The kinds of elements.
use refusal::Refusal;

// The vertices and the dimension of a simplex.
#[derive(Clone, Copy)]
pub struct Simplex {
    pub vertices: usize,
    pub dimension: usize,
}

// The simplex that an element of the kind with this number is.
impl TryFrom<usize> for Simplex {
    ghost use Rattle.mesh_elements.specs.Kind.{IsKind};

    type Error = Refusal;

    ghost try_from_gives = { IsKind };

    fn try_from(kind: usize) -> Result<Self, Refusal> {
        match kind {
            15 => Ok(Simplex {
                vertices: 1,
                dimension: 0,
            }),
            1 => Ok(Simplex {
                vertices: 2,
                dimension: 1,
            }),
            2 => Ok(Simplex {
                vertices: 3,
                dimension: 2,
            }),
            4 => Ok(Simplex {
                vertices: 4,
                dimension: 3,
            }),
            _ => Err(Refusal::ElementFaulty),
        }
    }
}
