// The field of 256 elements: polynomials over two elements modulo t^8 + t^4 + t^3 + t^2 + 1.
//
// Every code but 0 is a power of t, so that products and inverses are computed by two tables.
#![tactic(auto)]

ghost use Rattle.field256.specs.Polynomials.{polynomials};
ghost use Rattle.field256.specs.PolynomialField.{polynomials_field};

use field::Field;
use tables::{read_logarithm, read_power};

mod tables;

#[derive(Clone, Copy)]
pub struct Field256;

impl Field for Field256 {
    ghost codes = { polynomials };

    ghost field = { polynomials_field };

    fn order(&self) -> u16 {
        256
    }

    fn add(&self, a: u8, b: u8) -> u8 {
        a ^ b
    }

    fn negate(&self, a: u8) -> u8 {
        a
    }

    fn multiply(&self, a: u8, b: u8) -> u8 {
        if a == 0 || b == 0 {
            return 0;
        }
        read_power((read_logarithm(a) + read_logarithm(b)) % 255)
    }

    fn invert(&self, a: u8) -> Option<u8> {
        if a == 0 {
            return None;
        }
        Some(read_power((255 - read_logarithm(a)) % 255))
    }
}
