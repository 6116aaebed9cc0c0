// Jobs that are refused.
use crate::asking::*;
use refusal::Layer;
use std::test::Fail;

// The number and the place of each refusal by the job.
static FAULTY: [(&'static [u8], u8, usize); 89] = [
    // the smallest of each number
    (&[], 5, 0),
    (&[0], 2, 0),
    (&[F], 3, 0),
    (&[F, 1], 4, 0),
    (&[F, 2, A, 0, A, 0], 6, 4),
    // in a record 2 and 3 come before 5, and 5 before 4; the first record with a fault decides
    (&[V, 0], 3, 0),
    (&[F, 3, F], 3, 2),
    (&[F, 3, F, 9], 5, 2),
    (&[F, 4, 0], 4, 0),
    (&[F, 4, F, 3], 4, 0),
    (&[0, F, 2], 2, 0),
    (&[V, 8, 0, 0], 5, 0),
    (&[A, 64], 5, 0),
    (&[F, 2, Q, 1, 0, 0], 2, 5),
    (&[F, 2, Q, 1, 0, Q, 9], 3, 5),
    (&[F, 2, A, 0, V, 8, 0, 0], 5, 4),
    // 4 before 6
    (&[F, 2, V, 0, 0, 1, V, 8, 0, 0], 4, 6),
    (&[F, 2, B, 0, 1, A, 64], 4, 5),
    (&[F, 2, B, 1, 2, B, 1, 0], 4, 5),
    (&[F, 2, Q, 1, 0, Z, 0, 1, 1, Z, 0, 0, 2], 4, 9),
    // 5 before 6
    (&[F, 2, V, 1, 0, 0, A, 0, V, 0, 0, 0], 5, 8),
    // out of turn
    (&[Q, 1, 0], 5, 0),
    (&[Z, 0, 0, 1], 5, 0),
    (&[F, 2], 5, 2),
    (&[F, 2, F, 2], 5, 2),
    (&[F, 2, Z, 0, 0, 1], 5, 2),
    (&[F, 2, Y, 0, 0, 1], 5, 2),
    (&[F, 2, A, 0, V, 0, 0, 0], 5, 4),
    (&[F, 2, A, 0, P, 0, 0, 0], 5, 4),
    (&[F, 2, V, 0, 0, 0, F, 2], 5, 6),
    (&[F, 2, Q, 1, 0, Q, 1, 0], 5, 5),
    (&[F, 2, Q, 1, 0, F, 2], 5, 5),
    (&[F, 2, Q, 1, 0, V, 0, 0, 0], 5, 5),
    (&[F, 2, Q, 1, 0, A, 0], 5, 5),
    (&[F, 2, Q, 1, 0, Z, 0, 0, 1, Q, 1, 0], 5, 9),
    (&[F, 2, Q, 1, 0, Y, 0, 0, 1, Z, 0, 1, 1], 5, 9),
    (&[F, 2, Q, 1, 0, Y, 0, 0, 1, Z, 0, 1], 3, 9),
    // body cut short
    (&[F, 2, V], 3, 2),
    (&[F, 2, V, 0, 0], 3, 2),
    (&[F, 2, P, 0, 0], 3, 2),
    (&[F, 2, A], 3, 2),
    (&[F, 2, B, 0], 3, 2),
    (&[F, 2, C, 0, 1], 3, 2),
    (&[F, 2, D, 0, 1, 2], 3, 2),
    (&[F, 2, Q, 1], 3, 2),
    (&[F, 2, Q, 1, 0, Z, 0, 0], 3, 5),
    (&[F, 2, Q, 1, 0, Y, 0, 0], 3, 5),
    // coordinates and vertices out of range
    (&[F, 2, V, 8, 0, 0], 4, 2),
    (&[F, 2, V, 0, 8, 0], 4, 2),
    (&[F, 2, V, 0, 0, 8], 4, 2),
    (&[F, 2, P, 8, 0, 0], 4, 2),
    (&[F, 2, P, 0, 0, 255], 4, 2),
    (&[F, 2, A, 64], 4, 2),
    (&[F, 2, B, 0, 64], 4, 2),
    (&[F, 2, C, 0, 1, 64], 4, 2),
    (&[F, 2, D, 0, 1, 2, 64], 4, 2),
    (&[F, 2, B, 1, 0, Q, 4, 0], 4, 2),
    (&[F, 2, B, 1, 1], 4, 2),
    (&[F, 2, C, 0, 2, 1], 4, 2),
    (&[F, 2, D, 0, 0, 1, 2], 4, 2),
    // forms, degrees and coefficients out of range
    (&[F, 2, Q, 0, 0], 4, 2),
    (&[F, 2, Q, 7, 0], 4, 2),
    (&[F, 2, Q, 255, 0], 4, 2),
    (&[F, 2, Q, 1, 4], 4, 2),
    (&[F, 2, Q, 2, 5], 4, 2),
    (&[F, 2, Q, 3, 5], 4, 2),
    (&[F, 2, Q, 4, 4], 4, 2),
    (&[F, 2, Q, 5, 7], 4, 2),
    (&[F, 2, Q, 6, 5], 4, 2),
    (&[F, 2, Q, 1, 0, Z, 0, 0, 0], 4, 5),
    (&[F, 2, Q, 1, 0, Z, 0, 0, 2], 4, 5),
    (&[F, 251, Q, 1, 0, Y, 0, 0, 251], 4, 5),
    (&[F, 0, Q, 1, 0, Y, 0, 0, 0], 4, 5),
    // not above the record before it
    (&[F, 2, V, 0, 0, 0, V, 0, 0, 0], 6, 6),
    (&[F, 2, V, 0, 0, 0, P, 0, 0, 0], 6, 6),
    (&[F, 2, P, 0, 0, 0, V, 0, 0, 0], 6, 6),
    (&[F, 2, V, 0, 0, 1, V, 7, 7, 0], 6, 6),
    (&[F, 2, V, 0, 1, 0, V, 7, 0, 0], 6, 6),
    (&[F, 2, V, 1, 0, 0, V, 0, 0, 0], 6, 6),
    (&[F, 2, B, 0, 1, A, 0], 6, 5),
    (&[F, 2, C, 0, 1, 2, B, 3, 4], 6, 6),
    (&[F, 2, D, 0, 1, 2, 3, C, 4, 5, 6], 6, 7),
    (&[F, 2, B, 1, 2, B, 0, 3], 6, 5),
    (&[F, 2, C, 0, 1, 3, C, 0, 1, 2], 6, 6),
    (&[F, 2, Q, 1, 0, Z, 0, 1, 1, Z, 0, 1, 1], 6, 9),
    (&[F, 2, Q, 1, 0, Z, 1, 0, 1, Z, 0, 255, 1], 6, 9),
    (&[F, 2, Q, 1, 0, Z, 0, 5, 1, Y, 0, 5, 1, Y, 0, 5, 1], 6, 13),
    // every record comes before the lists
    (&[F, 2, B, 0, 1], 5, 5),
    (&[F, 2, B, 0, 1, Q, 4, 0, Z, 0, 0, 0], 4, 8),
];

// Jobs whose drawing lacks a face, whatever their form, and the first cell that lacks one.
static OPEN: [(&'static [u8], usize); 7] = [
    (&[F, 2, B, 0, 1, Q, 4, 0], 0),
    (&[F, 2, B, 0, 1, Q, 1, 0], 0),
    (&[F, 2, A, 0, A, 1, B, 0, 2, Q, 4, 0], 2),
    (&[F, 2, A, 1, B, 0, 1, Q, 4, 0], 1),
    (
        &[F, 2, A, 0, A, 1, A, 2, B, 0, 1, B, 0, 3, B, 1, 3, Q, 4, 0],
        4,
    ),
    (
        &[
            F, 2, V, 0, 0, 0, A, 0, A, 1, A, 2, B, 0, 1, B, 0, 2, C, 0, 1, 2, Q, 1, 0,
        ],
        5,
    ),
    (
        &[
            F, 2, A, 0, A, 1, A, 2, A, 3, B, 0, 1, B, 0, 2, B, 0, 3, B, 1, 2, B, 1, 3, B, 2, 3, C,
            0, 1, 2, C, 0, 1, 3, C, 0, 2, 3, D, 0, 1, 2, 3, Q, 4, 0,
        ],
        13,
    ),
];

#[test]
fn faulty_records_are_refused(rt: HostRuntime) -> Result<(), Fail> {
    for (input, number, place) in FAULTY.iter() {
        check_refused(&rt, input, Layer::Job.refuses(*number, *place))?;
    }
    Ok(())
}

#[test]
fn open_drawings_are_refused(rt: HostRuntime) -> Result<(), Fail> {
    for (input, cell) in OPEN.iter() {
        check_refused(&rt, input, Layer::Leaf.refuses(7, *cell))?;
    }
    Ok(())
}

#[test]
fn every_other_field_byte_is_out_of_range(rt: HostRuntime) -> Result<(), Fail> {
    let mut refused: usize = 0;
    for byte in 0..=255u8 {
        if !matches!(byte, 0 | 2 | 3 | 5 | 7 | 251) {
            check_refused(&rt, &[F, byte, Q, 1, 0], Layer::Job.refuses(4, 0))?;
            refused = refused.saturating_add(1);
        }
    }
    assert_eq!(rt; refused, 250);
    Ok(())
}

#[test]
fn every_other_kind_is_unknown(rt: HostRuntime) -> Result<(), Fail> {
    for kind in 0..=255u8 {
        if !matches!(kind, F | V | P | A | B | C | D | Q | Z | Y) {
            check_refused(&rt, &[F, 2, kind], Layer::Job.refuses(2, 2))?;
        }
    }
    Ok(())
}
