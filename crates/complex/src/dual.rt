// The dual of a complex.
ghost use Rattle.std.specs.Prelude.{◌≡◌};
ghost use Rattle.linear.specs.Dual.{dual};

use crate::Complex;

// A complex with its degrees turned around.
#[derive(Clone, Copy)]
pub struct Dual<C> {
    base: C,
}

impl<C: Complex> Dual<C> {
    // The dual has the top and the number of cells of the complex, so it is never refused.
    pub fn new(base: C) -> Dual<C>
        ensures base { result.base ≡ base }
        ensures sound { C.Complex.sound base → C.Complex.sound result.base }
    {
        Dual { base }
    }
}

impl<C: Complex> Complex for Dual<C> {
    type F = C::F;

    ghost meaning = { λ s. dual (C.Complex.meaning s.base) };

    ghost sound = { λ s. C.Complex.sound s.base };

    fn field(&self) -> &C::F {
        self.base.field()
    }

    fn top(&self) -> usize {
        self.base.top()
    }

    fn dim(&self, k: usize) -> usize {
        let top = self.base.top();
        if k <= top { self.base.dim(top - k) } else { 0 }
    }

    fn entry(&self, k: usize, i: usize, j: usize) -> u8 {
        self.base.law();
        let top = self.base.top();
        self.base.entry((top + 1).saturating_sub(k), j, i)
    }

    fn law(&self) {
        self.base.law();
    }
}
