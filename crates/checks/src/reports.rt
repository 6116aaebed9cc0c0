// Jobs that get a report.
use crate::asking::*;
use job::job;
use refusal::{Fault, Layer};
use std::process::Abort;
use std::test::Fail;

// Three vertices and three edges over the field of 3.
static RING: [u8; 20] = [F, 3, A, 0, A, 1, A, 2, B, 0, 1, B, 0, 2, B, 1, 2, Q, 4, 1];

const RING_REPORT: &'static [u8; 29] = b"field 3\nform 4\ncells 3 3 0 0\n";

// What the ring's job, cut to each length from 0, is refused by.
static TORN: [(u8, usize); 20] = [
    (5, 0),
    (3, 0),
    (5, 2),
    (3, 2),
    (5, 4),
    (3, 4),
    (5, 6),
    (3, 6),
    (5, 8),
    (3, 8),
    (3, 8),
    (5, 11),
    (3, 11),
    (3, 11),
    (5, 14),
    (3, 14),
    (3, 14),
    (5, 17),
    (3, 17),
    (3, 17),
];

// A 3 by 3 by 3 block without its centre.
static HOLLOW: [u8; 109] = [
    F, 2, V, 0, 0, 0, V, 1, 0, 0, V, 2, 0, 0, V, 0, 1, 0, V, 1, 1, 0, V, 2, 1, 0, V, 0, 2, 0, V, 1,
    2, 0, V, 2, 2, 0, V, 0, 0, 1, V, 1, 0, 1, V, 2, 0, 1, V, 0, 1, 1, V, 2, 1, 1, V, 0, 2, 1, V, 1,
    2, 1, V, 2, 2, 1, V, 0, 0, 2, V, 1, 0, 2, V, 2, 0, 2, V, 0, 1, 2, V, 1, 1, 2, V, 2, 1, 2, V, 0,
    2, 2, V, 1, 2, 2, V, 2, 2, 2, Q, 1, 0,
];

static REPORTS: [(&'static [u8], &'static [u8]); 43] = [
    // each field
    (&[F, 0, Q, 1, 0], b"field 256\nform 1\ncells 0 0 0 0\n"),
    (&[F, 2, Q, 1, 0], b"field 2\nform 1\ncells 0 0 0 0\n"),
    (&[F, 3, Q, 1, 0], b"field 3\nform 1\ncells 0 0 0 0\n"),
    (&[F, 5, Q, 1, 0], b"field 5\nform 1\ncells 0 0 0 0\n"),
    (&[F, 7, Q, 1, 0], b"field 7\nform 1\ncells 0 0 0 0\n"),
    (&[F, 251, Q, 1, 0], b"field 251\nform 1\ncells 0 0 0 0\n"),
    // the top degree of each form
    (&[F, 2, Q, 1, 3], b"field 2\nform 1\ncells 0 0 0 0\n"),
    (&[F, 2, Q, 2, 4], b"field 2\nform 2\ncells 0 0 0 0 0\n"),
    (&[F, 2, Q, 3, 4], b"field 2\nform 3\ncells 0 0 0 0 0\n"),
    (&[F, 2, Q, 4, 3], b"field 2\nform 4\ncells 0 0 0 0\n"),
    (&[F, 2, Q, 5, 6], b"field 2\nform 5\ncells 0 0 0 0 0 0 0\n"),
    (&[F, 2, Q, 6, 4], b"field 2\nform 6\ncells 0 0 0 0 0\n"),
    // one voxel, the last voxel, and a pad alone
    (
        &[F, 2, V, 0, 0, 0, Q, 1, 0],
        b"field 2\nform 1\ncells 8 12 6 1\n",
    ),
    (
        &[F, 2, V, 7, 7, 7, Q, 1, 0],
        b"field 2\nform 1\ncells 8 12 6 1\n",
    ),
    (
        &[F, 2, P, 7, 7, 7, Q, 1, 0],
        b"field 2\nform 1\ncells 8 12 6 1\n",
    ),
    // a pad and a voxel that share a square, an edge, a corner, nothing
    (
        &[F, 0, P, 0, 0, 0, V, 1, 0, 0, Q, 1, 0],
        b"field 256\nform 1\ncells 12 20 11 2\n",
    ),
    (
        &[F, 0, V, 0, 0, 0, P, 1, 1, 0, Q, 1, 0],
        b"field 256\nform 1\ncells 14 23 12 2\n",
    ),
    (
        &[F, 0, P, 0, 0, 0, V, 1, 1, 1, Q, 1, 0],
        b"field 256\nform 1\ncells 15 24 12 2\n",
    ),
    (
        &[F, 0, V, 0, 0, 0, P, 2, 0, 0, Q, 1, 0],
        b"field 256\nform 1\ncells 16 24 12 2\n",
    ),
    // voxels ascend by z, then y, then x
    (
        &[F, 2, V, 7, 7, 0, V, 0, 0, 1, Q, 1, 0],
        b"field 2\nform 1\ncells 16 24 12 2\n",
    ),
    (
        &[F, 2, V, 7, 0, 0, V, 0, 1, 0, Q, 1, 0],
        b"field 2\nform 1\ncells 16 24 12 2\n",
    ),
    // the last vertex, a filled triangle
    (&[F, 2, A, 63, Q, 4, 0], b"field 2\nform 4\ncells 1 0 0 0\n"),
    (
        &[
            F, 7, A, 0, A, 1, A, 2, B, 0, 1, B, 0, 2, B, 1, 2, C, 0, 1, 2, Q, 4, 2,
        ],
        b"field 7\nform 4\ncells 3 3 1 0\n",
    ),
    // a solid tetrahedron
    (
        &[
            F, 5, A, 1, A, 5, A, 9, A, 63, B, 1, 5, B, 1, 9, B, 1, 63, B, 5, 9, B, 5, 63, B, 9, 63,
            C, 1, 5, 9, C, 1, 5, 63, C, 1, 9, 63, C, 5, 9, 63, D, 1, 5, 9, 63, Q, 4, 3,
        ],
        b"field 5\nform 4\ncells 4 6 4 1\n",
    ),
    // the form chooses between block and drawing
    (
        &[F, 2, V, 1, 2, 3, A, 4, Q, 1, 0],
        b"field 2\nform 1\ncells 8 12 6 1\n",
    ),
    (
        &[F, 2, V, 1, 2, 3, A, 4, Q, 4, 0],
        b"field 2\nform 4\ncells 1 0 0 0\n",
    ),
    // two pads and a voxel between them: the cone, its dual, and the cone of the scalar 1
    (
        &[F, 2, P, 0, 0, 0, V, 1, 0, 0, P, 2, 0, 0, Q, 2, 1],
        b"field 2\nform 2\ncells 16 44 40 15 2\n",
    ),
    (
        &[F, 251, P, 0, 0, 0, V, 1, 0, 0, P, 2, 0, 0, Q, 3, 1],
        b"field 251\nform 3\ncells 2 15 40 44 16\n",
    ),
    (
        &[F, 0, P, 0, 0, 0, V, 1, 0, 0, P, 2, 0, 0, Q, 6, 4],
        b"field 256\nform 6\ncells 16 44 44 19 3\n",
    ),
    // no pad, and a pad alone
    (
        &[F, 3, V, 0, 0, 0, Q, 2, 0],
        b"field 3\nform 2\ncells 8 12 6 1 0\n",
    ),
    (
        &[F, 3, P, 0, 0, 0, Q, 2, 0],
        b"field 3\nform 2\ncells 8 20 18 7 1\n",
    ),
    (
        &[F, 3, P, 0, 0, 0, Q, 3, 0],
        b"field 3\nform 3\ncells 1 7 18 20 8\n",
    ),
    // a drawing tensor a voxel: an edge, the ring, and a part with no cells
    (
        &[F, 5, V, 0, 0, 0, A, 3, A, 4, B, 3, 4, Q, 5, 2],
        b"field 5\nform 5\ncells 16 32 24 8 1 0 0\n",
    ),
    (
        &[
            F, 7, V, 0, 0, 0, A, 0, A, 1, A, 2, B, 0, 1, B, 0, 2, B, 1, 2, Q, 5, 6,
        ],
        b"field 7\nform 5\ncells 24 60 54 21 3 0 0\n",
    ),
    (
        &[F, 2, A, 0, Q, 5, 0],
        b"field 2\nform 5\ncells 0 0 0 0 0 0 0\n",
    ),
    (
        &[F, 2, V, 0, 0, 0, Q, 5, 0],
        b"field 2\nform 5\ncells 0 0 0 0 0 0 0\n",
    ),
    (
        &[F, 2, V, 0, 0, 0, A, 0, Q, 5, 0],
        b"field 2\nform 5\ncells 8 12 6 1 0 0 0\n",
    ),
    // terms: the largest coefficient of a field, ascending numbers, the order that starts anew at the first Y
    (
        &[F, 2, Q, 1, 0, Z, 0, 0, 1],
        b"field 2\nform 1\ncells 0 0 0 0\n",
    ),
    (
        &[F, 251, Q, 1, 0, Y, 0, 0, 250],
        b"field 251\nform 1\ncells 0 0 0 0\n",
    ),
    (
        &[F, 0, Q, 1, 0, Z, 0, 0, 255],
        b"field 256\nform 1\ncells 0 0 0 0\n",
    ),
    (
        &[F, 3, Q, 1, 0, Z, 0, 255, 2, Z, 1, 0, 1],
        b"field 3\nform 1\ncells 0 0 0 0\n",
    ),
    (
        &[F, 3, Q, 1, 0, Z, 0, 5, 1, Y, 0, 0, 1],
        b"field 3\nform 1\ncells 0 0 0 0\n",
    ),
    (
        &[F, 3, Q, 1, 0, Z, 0, 5, 1, Y, 0, 5, 1, Y, 255, 255, 2],
        b"field 3\nform 1\ncells 0 0 0 0\n",
    ),
];

#[test]
fn ring_has_three_vertices_and_three_edges(rt: HostRuntime) -> Result<(), Fail> {
    check_report(&rt, &RING, RING_REPORT)
}

#[test]
fn torn_ring_is_refused_at_the_tear(rt: HostRuntime) -> Result<(), Fail> {
    for (length, (number, place)) in TORN.iter().enumerate() {
        let front = RING.get(..length).ok_or("longer than the ring")?;
        check_refused(&rt, front, Layer::Job.refuses(*number, *place))?;
    }
    Ok(())
}

#[test]
fn hollow_block_has_26_solids(rt: HostRuntime) -> Result<(), Fail> {
    check_report(&rt, &HOLLOW, b"field 2\nform 1\ncells 64 144 108 26\n")
}

#[test]
fn jobs_have_their_reports(rt: HostRuntime) -> Result<(), Fail> {
    for (input, text) in REPORTS.iter() {
        check_report(&rt, input, text)?;
    }
    Ok(())
}

// The ring's job is answered as the room for its report allows. The report fills it, and the table buffer is clear.
fn check_answer(rt: &impl Abort, room: &mut [u8]) -> Result<(), Fail> {
    let mut table = [BEFORE; 100];
    let length = room.len();
    match job(&RING, &mut table, room) {
        Ok(n) => assert!(rt; n == 29 && length == 29),
        Err(fault) => {
            assert!(rt; length < 29);
            assert_eq!(rt; fault.refusal(), Layer::Job.refuses(18, length));
        }
    }
    check_filled(rt, &table, 0, &RING)?;
    assert!(rt; RING_REPORT.starts_with(room));
    Ok(())
}

#[test]
fn report_is_cut_where_its_buffer_ends(rt: HostRuntime) -> Result<(), Fail> {
    for length in 0..=29usize {
        let mut room = vec![in rt.alloc(); BEFORE; length]?;
        check_answer(&rt, room.as_mut_slice())?;
    }
    Ok(())
}
