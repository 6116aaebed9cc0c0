// Chain maps between complexes over one field, and the mapping cone.
#![tactic(auto)]

ghost use Rattle.std.specs.Prelude.{◌≡◌};
ghost use Rattle.linear.specs.ChainMaps.{MapMeaning, IsChainMap};

pub mod cone;
pub mod inclusion;
pub mod scalar;

use complex::Complex;
use field::Field;

// A chain map answers what it means: its two complexes, and the entries of its matrices, 0 outside them.
pub trait ChainMap {
    type F: Field;

    type Source: Complex<F = Self::F>;

    type Target: Complex<F = Self::F>;

    ghost meaning: { Self → MapMeaning };

    // what the two halves of a constructor establish; the type does not hold it, since a constructor asks nothing
    ghost sound: { Self → Type 0 };

    fn field(&self) -> &Self::F;

    fn source(&self) -> &Self::Source
        requires { sound self.now }
        ensures sound { Self.Source.Complex.sound result.now }
        ensures is { Self.Source.Complex.meaning result.now ≡ (meaning self.now).source };

    fn target(&self) -> &Self::Target
        requires { sound self.now }
        ensures sound { Self.Target.Complex.sound result.now }
        ensures is { Self.Target.Complex.meaning result.now ≡ (meaning self.now).target };

    // The entry at the row of the target's cell i and the column of the source's cell j, both of degree k.
    fn entry(&self, k: usize, i: usize, j: usize) -> u8
        requires { sound self.now }
        ensures { result ≡ (meaning self.now).entry k i j };

    // The law of a chain map, for every sound value.
    fn law(&self)
        requires { sound self.now }
        ensures { IsChainMap Self.F.Field.codes (meaning self.now) };
}
