// Chain complexes over a field.
#![tactic(auto)]

ghost use Rattle.std.specs.Prelude.{◌≡◌, ◌≤◌};
ghost use Rattle.linear.specs.Complexes.{Meaning, IsComplex, WithinLimits};
ghost use Rattle.complex.specs.Limits.{cells};

pub mod dual;
pub mod fault;
pub mod leaf;

use field::Field;

// A complex answers what it means: its top, how many cells it has in each degree, and the entries of its
// boundaries, 0 outside them. Its type says over which field it is.
pub trait Complex {
    type F: Field;

    ghost meaning: { Self → Meaning };

    // what the two halves of a constructor establish; the type does not hold it, since a constructor asks nothing
    ghost sound: { Self → Type 0 };

    fn field(&self) -> &Self::F;

    fn top(&self) -> usize
        requires { sound self.now }
        ensures { result ≡ (meaning self.now).top };

    fn dim(&self, k: usize) -> usize
        requires { sound self.now }
        ensures { result ≡ (meaning self.now).dim k };

    // Degree, row and column stay three numbers: a question asks for each anew, so a struct of them would only be made
    // and taken apart.
    fn entry(&self, k: usize, i: usize, j: usize) -> u8
        requires { sound self.now }
        ensures { result ≡ (meaning self.now).entry k i j };

    // The law of a complex, for every sound value.
    fn law(&self)
        requires { sound self.now }
        ensures complex { IsComplex Self.F.Field.codes (meaning self.now) }
        ensures limits { WithinLimits (meaning self.now) };
}

// How many cells a complex has in all its degrees.
pub fn count_cells<C: Complex>(c: &C) -> usize
    requires { C.Complex.sound c.now }
    ensures is { result ≡ cells (C.Complex.meaning c.now) }
    ensures few { result ≤ 1024 }
{
    c.law();
    let mut n = 0;
    for k in 0..=c.top() {
        n += c.dim(k);
    }
    n
}
