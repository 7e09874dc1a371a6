// The elementary operations on the lines of a matrix, or on the places of every line.
ghost use Rattle.std.specs.Prelude.{◌≡◌};
ghost use Rattle.matrices.specs.Operation as theory;
ghost use Rattle.elementary_operations.specs.Operations.{operation_of, FactorWithin};

// `Subtract(i, k, q)` takes q times line k from line i, `Swap(i, k)` exchanges lines i and k, `Negate(k)` negates line k.
#[derive(Clone, Copy)]
pub enum Operation {
    Subtract(usize, usize, i64),
    Swap(usize, usize),
    Negate(usize),
}

impl Operation {
    // What undoes it on the other side of a product.
    pub fn inverse(self) -> Operation
        requires { FactorWithin (operation_of self) }
        ensures { operation_of result ≡ theory.inverse (operation_of self) }
    {
        match self {
            Operation::Subtract(i, k, q) => Operation::Subtract(k, i, -q),
            Operation::Swap(i, k) => Operation::Swap(i, k),
            Operation::Negate(k) => Operation::Negate(k),
        }
    }
}
