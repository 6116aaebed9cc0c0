// Finite fields of one-byte codes: what a field is, and the prime fields.
#![tactic(auto)]

ghost use Rattle.std.specs.Prelude.{◌≡◌, refl};
ghost use Rattle.field.specs.Codes.{Codes, IsField};
ghost use Rattle.field.specs.Residues.{residues, IsPrime};
ghost use Rattle.field.specs.PrimeResidues.{residues_field};
ghost use Rattle.std.proofs.Common.{lit≤};
ghost use Rattle.field.specs.Primes.{prime_by_test};

// A field of at most 256 elements. Its elements are the codes 0 to order - 1; an operand not below the
// order stands for its remainder by the order.
pub trait Field {
    ghost codes: { Codes };

    fn order(&self) -> u16
        ensures { result ≡ codes.order };

    fn add(&self, a: u8, b: u8) -> u8
        ensures { result ≡ codes.plus a b };

    fn negate(&self, a: u8) -> u8
        ensures { result ≡ codes.minus a };

    fn multiply(&self, a: u8, b: u8) -> u8
        ensures { result ≡ codes.times a b };

    // Absent exactly for zero.
    fn invert(&self, a: u8) -> Option<u8>
        ensures { result ≡ codes.inverse a };

    ghost field: { IsField codes };
}

// That Q is prime, which a const parameter by itself does not say.
pub trait Modulus<const Q: u8> {
    ghost prime: { IsPrime Q };
}

// The field of the residues by Q, where a marker says that Q is prime; its type may lie in any crate.
// Fields by different numbers are different types.
#[derive(Clone, Copy)]
pub struct MarkedPrime<const Q: u8, M> {
    pub marker: M,
}

impl<const Q: u8, M: Modulus<Q>> Field for MarkedPrime<Q, M> {
    ghost codes = { residues Q };

    ghost field = { residues_field Q M.prime };

    fn order(&self) -> u16 {
        Q as u16
    }

    fn add(&self, a: u8, b: u8) -> u8 {
        let q = Q as u16;
        ((a as u16 + b as u16) % q) as u8
    }

    fn negate(&self, a: u8) -> u8 {
        (Q - a % Q) % Q
    }

    fn multiply(&self, a: u8, b: u8) -> u8 {
        let q = Q as u16;
        (a as u16 * b as u16 % q) as u8
    }

    // Keeps factor * a = rest modulo q. The remainder of q by the rest is smaller than the rest, and it is
    // not 0, since the rest does not divide the prime q.
    fn invert(&self, a: u8) -> Option<u8> {
        let q = Q as u16;
        let mut rest = a as u16 % q;
        let mut factor: u16 = 1;
        while rest > 1 {
            factor = (q - q / rest * factor % q) % q;
            rest = q % rest;
        }
        if rest == 0 { None } else { Some(factor as u8) }
    }
}

// The field of the residues by a number that this crate says is prime: it is its own marker.
#[derive(Clone, Copy)]
pub struct Prime<const Q: u8>;

impl<const Q: u8> Field for Prime<Q>
where
    Prime<Q>: Modulus<Q>,
{
    ghost codes = { residues Q };

    ghost field = { residues_field Q ⟦<Prime<Q> as Modulus<Q>>⟧.prime };

    fn order(&self) -> u16 {
        MarkedPrime::<Q, Self> { marker: *self }.order()
    }

    fn add(&self, a: u8, b: u8) -> u8 {
        MarkedPrime::<Q, Self> { marker: *self }.add(a, b)
    }

    fn negate(&self, a: u8) -> u8 {
        MarkedPrime::<Q, Self> { marker: *self }.negate(a)
    }

    fn multiply(&self, a: u8, b: u8) -> u8 {
        MarkedPrime::<Q, Self> { marker: *self }.multiply(a, b)
    }

    fn invert(&self, a: u8) -> Option<u8> {
        MarkedPrime::<Q, Self> { marker: *self }.invert(a)
    }
}

impl Modulus<2> for Prime<2> {
    ghost prime = { prime_by_test 2 (lit≤ tt) (lit≤ tt) refl };
}

impl Modulus<3> for Prime<3> {
    ghost prime = { prime_by_test 3 (lit≤ tt) (lit≤ tt) refl };
}

impl Modulus<5> for Prime<5> {
    ghost prime = { prime_by_test 5 (lit≤ tt) (lit≤ tt) refl };
}

impl Modulus<7> for Prime<7> {
    ghost prime = { prime_by_test 7 (lit≤ tt) (lit≤ tt) refl };
}

impl Modulus<251> for Prime<251> {
    ghost prime = { prime_by_test 251 (lit≤ tt) (lit≤ tt) refl };
}
