// Sums, products and inverses of the fields.
ghost use Rattle.std.specs.Prelude.{refl};
ghost use Rattle.std.proofs.Common.{lit≤};
ghost use Rattle.field.specs.Primes.{prime_by_test};

use field::{Field, MarkedPrime, Modulus, Prime};
use field256::Field256;
use std::process::Abort;

// a, b, a + b, -a, a * b and the inverse of a.
type Row = (u8, u8, u8, u8, u8, Option<u8>);

// Of the prime fields also with operands that stand for their remainders.
static OF_2: [Row; 4] = [
    (1, 1, 0, 1, 1, Some(1)),
    (0, 1, 1, 0, 0, None),
    (255, 254, 1, 1, 0, Some(1)),
    (3, 5, 0, 1, 1, Some(1)),
];

static OF_3: [Row; 6] = [
    (1, 2, 0, 2, 2, Some(1)),
    (2, 2, 1, 1, 1, Some(2)),
    (5, 7, 0, 1, 2, Some(2)),
    (4, 3, 1, 2, 0, Some(1)),
    (255, 255, 0, 0, 0, None),
    (254, 254, 1, 1, 1, Some(2)),
];

static OF_5: [Row; 3] = [
    (3, 4, 2, 2, 2, Some(2)),
    (0, 4, 4, 0, 0, None),
    (255, 254, 4, 0, 0, None),
];

static OF_7: [Row; 3] = [
    (3, 5, 1, 4, 1, Some(5)),
    (6, 6, 5, 1, 1, Some(6)),
    (255, 254, 5, 4, 6, Some(5)),
];

static OF_11: [Row; 8] = [
    (3, 4, 7, 8, 1, Some(4)),
    (2, 6, 8, 9, 1, Some(6)),
    (5, 9, 3, 6, 1, Some(9)),
    (7, 8, 4, 4, 1, Some(8)),
    (10, 10, 9, 1, 1, Some(10)),
    (0, 6, 6, 0, 0, None),
    (11, 9, 9, 0, 0, None),
    (255, 254, 3, 9, 2, Some(6)),
];

static OF_251: [Row; 4] = [
    (250, 250, 249, 1, 1, Some(250)),
    (2, 126, 128, 249, 1, Some(126)),
    (251, 9, 9, 0, 0, None),
    (255, 254, 7, 247, 12, Some(63)),
];

static OF_256: [Row; 10] = [
    (2, 128, 130, 2, 29, Some(142)),
    (3, 3, 0, 3, 5, Some(244)),
    (7, 3, 4, 7, 9, Some(186)),
    (16, 16, 0, 16, 29, Some(216)),
    (128, 128, 0, 128, 19, Some(27)),
    (255, 255, 0, 255, 226, Some(253)),
    (200, 100, 172, 200, 79, Some(210)),
    (254, 253, 3, 254, 252, Some(126)),
    (83, 202, 153, 83, 143, Some(140)),
    (0, 77, 77, 0, 0, None),
];

// A marker of this crate for a prime that `field` has not.
#[derive(Clone, Copy)]
struct Eleven;

impl Modulus<11> for Eleven {
    ghost prime = { prime_by_test 11 (lit≤ tt) (lit≤ tt) refl };
}

fn check_rows<F: Field>(rt: &impl Abort, field: &F, rows: &[Row]) {
    for (a, b, sum, negative, product, inverse) in rows {
        let have = (
            field.add(*a, *b),
            field.negate(*a),
            field.multiply(*a, *b),
            field.invert(*a),
        );
        assert_eq!(rt; have, (*sum, *negative, *product, *inverse));
    }
}

// Each byte that stands for no zero gives 1 with its inverse; zero has none.
fn check_inverses<F: Field>(rt: &impl Abort, field: &F) {
    for a in 0..=255u8 {
        match field.invert(a) {
            Some(inverse) => assert_eq!(rt; field.multiply(a, inverse), 1),
            None => assert_eq!(rt; field.add(a, 0), 0),
        }
    }
}

fn check_field<F: Field>(rt: &impl Abort, field: &F, order: u16, rows: &[Row]) {
    assert_eq!(rt; field.order(), order);
    check_rows(rt, field, rows);
    check_inverses(rt, field);
}

#[test]
fn prime_fields_calculate_modulo_their_orders(rt: HostRuntime) {
    check_field(&rt, &Prime::<2>, 2, &OF_2);
    check_field(&rt, &Prime::<3>, 3, &OF_3);
    check_field(&rt, &Prime::<5>, 5, &OF_5);
    check_field(&rt, &Prime::<7>, 7, &OF_7);
    check_field(&rt, &Prime::<251>, 251, &OF_251);
}

#[test]
fn marker_of_another_crate_makes_the_field_of_11(rt: HostRuntime) {
    let field = MarkedPrime::<11, Eleven> { marker: Eleven };
    check_field(&rt, &field, 11, &OF_11);
}

#[test]
fn field_of_256_multiplies_2_by_128_to_29(rt: HostRuntime) {
    check_field(&rt, &Field256, 256, &OF_256);
}
