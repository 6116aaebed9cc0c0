// A scalar on the diagonal of a complex.
ghost use Rattle.std.specs.Prelude.{◌≡◌, ◌%◌};
ghost use Rattle.linear.specs.Scalar.{scalar};

use crate::ChainMap;
use complex::Complex;
use field::Field;

// The map of a complex to itself that multiplies by a code; a code not below the order stands for its remainder.
#[derive(Clone, Copy)]
pub struct Scalar<C> {
    base: C,
    code: u8,
}

impl<C: Complex> Scalar<C> {
    // The scalar of a sound complex is sound.
    pub fn new(base: C, code: u8) -> Scalar<C>
        ensures base { result.base ≡ base }
        ensures code { result.code ≡ code }
        ensures sound { C.Complex.sound base → C.Complex.sound result.base }
    {
        Scalar { base, code }
    }
}

// The code that a number stands for.
fn remainder<F: Field>(field: &F, code: u8) -> u8
    ensures { result ≡ code % F.Field.codes.order }
{
    (code as u16 % field.order()) as u8
}

impl<C: Complex> ChainMap for Scalar<C> {
    type F = C::F;

    type Source = C;

    type Target = C;

    ghost meaning = { λ s. scalar C.F.Field.codes s.code (C.Complex.meaning s.base) };

    ghost sound = { λ s. C.Complex.sound s.base };

    fn field(&self) -> &C::F {
        self.base.field()
    }

    fn source(&self) -> &C {
        &self.base
    }

    fn target(&self) -> &C {
        &self.base
    }

    fn entry(&self, k: usize, i: usize, j: usize) -> u8 {
        if i == j && i < self.base.dim(k) {
            remainder(self.base.field(), self.code)
        } else {
            0
        }
    }

    fn law(&self) {
        self.base.law();
    }
}
