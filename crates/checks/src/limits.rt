// Both sides of each limit.
use crate::asking::*;
use refusal::Layer;
use std::alloc::{AllocError, Global};
use std::test::Fail;

// 37 voxels. 36 stand two apart and share no cube; (7, 7, 3) has one corner in common with (6, 6, 2). Their cubes
// are 36 * 27 + 26 = 998.
static VOXELS: [u8; 150] = [
    F, 2, V, 0, 0, 0, V, 2, 0, 0, V, 4, 0, 0, V, 6, 0, 0, V, 0, 2, 0, V, 2, 2, 0, V, 4, 2, 0, V, 6,
    2, 0, V, 0, 4, 0, V, 2, 4, 0, V, 4, 4, 0, V, 6, 4, 0, V, 0, 6, 0, V, 2, 6, 0, V, 4, 6, 0, V, 6,
    6, 0, V, 0, 0, 2, V, 2, 0, 2, V, 4, 0, 2, V, 6, 0, 2, V, 0, 2, 2, V, 2, 2, 2, V, 4, 2, 2, V, 6,
    2, 2, V, 0, 4, 2, V, 2, 4, 2, V, 4, 4, 2, V, 6, 4, 2, V, 0, 6, 2, V, 2, 6, 2, V, 4, 6, 2, V, 6,
    6, 2, V, 7, 7, 3, V, 0, 0, 4, V, 2, 0, 4, V, 4, 0, 4, V, 6, 0, 4,
];

// A job from its front and its end.
fn join(heap: Global, front: &[u8], end: &[u8]) -> Result<Vec<u8>, AllocError> {
    let mut input = Vec::new(heap);
    input.extend_from_slice(front)?;
    input.extend_from_slice(end)?;
    Ok(input)
}

// What follows the voxels, and what it is refused by. (0, 2, 4) has no cube in common with any, so that there are
// 1,025. The block is tested whatever the form, and before the drawing.
static ENDS: [(&'static [u8], u8, usize); 3] = [
    (&[V, 0, 2, 4, Q, 1, 0], 8, 1024),
    (&[P, 0, 2, 4, B, 0, 1, Q, 4, 0], 8, 1024),
    (&[P, 7, 1, 5, B, 0, 1, Q, 1, 0], 7, 0),
];

#[test]
fn block_of_1024_cubes_has_a_report(rt: HostRuntime) -> Result<(), Fail> {
    // (7, 1, 5) has one corner in common with (6, 0, 4)
    let full = join(rt.alloc(), &VOXELS, &[V, 7, 1, 5, Q, 1, 0])?;
    check_report(
        &rt,
        full.as_slice(),
        b"field 2\nform 1\ncells 302 456 228 38\n",
    )
}

#[test]
fn block_of_1025_cubes_is_refused(rt: HostRuntime) -> Result<(), Fail> {
    for (end, number, place) in ENDS.iter() {
        let input = join(rt.alloc(), &VOXELS, end)?;
        check_refused(&rt, input.as_slice(), Layer::Leaf.refuses(*number, *place))?;
    }
    Ok(())
}

// 37 voxels with one pad. 35 stand two apart and share no cube; (7, 7, 3) has one corner in common with (6, 6, 2), and
// (7, 1, 5) one with (6, 0, 4). Their cubes are 35 * 27 + 2 * 26 = 997, and those of the pad 27.
static CONE: [u8; 153] = [
    F, 2, P, 0, 0, 0, V, 2, 0, 0, V, 4, 0, 0, V, 6, 0, 0, V, 0, 2, 0, V, 2, 2, 0, V, 4, 2, 0, V, 6,
    2, 0, V, 0, 4, 0, V, 2, 4, 0, V, 4, 4, 0, V, 6, 4, 0, V, 0, 6, 0, V, 2, 6, 0, V, 4, 6, 0, V, 6,
    6, 0, V, 0, 0, 2, V, 2, 0, 2, V, 4, 0, 2, V, 6, 0, 2, V, 0, 2, 2, V, 2, 2, 2, V, 4, 2, 2, V, 6,
    2, 2, V, 0, 4, 2, V, 2, 4, 2, V, 4, 4, 2, V, 6, 4, 2, V, 0, 6, 2, V, 2, 6, 2, V, 4, 6, 2, V, 6,
    6, 2, V, 7, 7, 3, V, 0, 0, 4, V, 2, 0, 4, V, 6, 0, 4, V, 7, 1, 5, Q, 2, 0,
];

// The same with (4, 2, 4) in place of (7, 1, 5), which has no cube in common with any: 998 cubes.
static CONE_OF_ONE_MORE: [u8; 153] = [
    F, 2, P, 0, 0, 0, V, 2, 0, 0, V, 4, 0, 0, V, 6, 0, 0, V, 0, 2, 0, V, 2, 2, 0, V, 4, 2, 0, V, 6,
    2, 0, V, 0, 4, 0, V, 2, 4, 0, V, 4, 4, 0, V, 6, 4, 0, V, 0, 6, 0, V, 2, 6, 0, V, 4, 6, 0, V, 6,
    6, 0, V, 0, 0, 2, V, 2, 0, 2, V, 4, 0, 2, V, 6, 0, 2, V, 0, 2, 2, V, 2, 2, 2, V, 4, 2, 2, V, 6,
    2, 2, V, 0, 4, 2, V, 2, 4, 2, V, 4, 4, 2, V, 6, 4, 2, V, 0, 6, 2, V, 2, 6, 2, V, 4, 6, 2, V, 6,
    6, 2, V, 7, 7, 3, V, 0, 0, 4, V, 2, 0, 4, V, 6, 0, 4, V, 4, 2, 4, Q, 2, 0,
];

#[test]
fn cone_of_1024_cells_has_a_report_and_one_of_1025_is_refused(rt: HostRuntime) -> Result<(), Fail> {
    check_report(&rt, &CONE, b"field 2\nform 2\ncells 294 452 234 43 1\n")?;
    check_refused(&rt, &CONE_OF_ONE_MORE, Layer::Pile.refuses(8, 1024))
}

// Four voxels with 108 cubes: nine vertices give 972 pairs, and ten give 1,080.
#[test]
fn tensor_of_1080_cells_is_refused(rt: HostRuntime) -> Result<(), Fail> {
    check_report(
        &rt,
        &[
            F, 2, V, 0, 0, 0, V, 2, 0, 0, V, 4, 0, 0, V, 6, 0, 0, A, 0, A, 1, A, 2, A, 3, A, 4, A,
            5, A, 6, A, 7, A, 8, Q, 5, 0,
        ],
        b"field 2\nform 5\ncells 288 432 216 36 0 0 0\n",
    )?;
    check_refused(
        &rt,
        &[
            F, 2, V, 0, 0, 0, V, 2, 0, 0, V, 4, 0, 0, V, 6, 0, 0, A, 0, A, 1, A, 2, A, 3, A, 4, A,
            5, A, 6, A, 7, A, 8, A, 9, Q, 5, 0,
        ],
        Layer::Pile.refuses(8, 1024),
    )
}

// A record of each of the 8 by 8 by 8 voxels.
fn push_voxels(input: &mut Vec<u8>, kind: u8) -> Result<(), AllocError> {
    for z in 0..8u8 {
        for y in 0..8u8 {
            for x in 0..8u8 {
                input.extend_from_slice(&[kind, x, y, z])?;
            }
        }
    }
    Ok(())
}

#[test]
fn whole_grid_is_refused(rt: HostRuntime) -> Result<(), Fail> {
    let mut input = join(rt.alloc(), &[F, 2], &[])?;
    push_voxels(&mut input, P)?;
    input.extend_from_slice(&[Q, 4, 0])?;
    check_refused(&rt, input.as_slice(), Layer::Leaf.refuses(8, 1024))
}

static VERTICES: [u8; 130] = [
    F, 2, A, 0, A, 1, A, 2, A, 3, A, 4, A, 5, A, 6, A, 7, A, 8, A, 9, A, 10, A, 11, A, 12, A, 13,
    A, 14, A, 15, A, 16, A, 17, A, 18, A, 19, A, 20, A, 21, A, 22, A, 23, A, 24, A, 25, A, 26, A,
    27, A, 28, A, 29, A, 30, A, 31, A, 32, A, 33, A, 34, A, 35, A, 36, A, 37, A, 38, A, 39, A, 40,
    A, 41, A, 42, A, 43, A, 44, A, 45, A, 46, A, 47, A, 48, A, 49, A, 50, A, 51, A, 52, A, 53, A,
    54, A, 55, A, 56, A, 57, A, 58, A, 59, A, 60, A, 61, A, 62, A, 63,
];

// A record of each of the first edges between the 64 vertices.
fn push_edges(input: &mut Vec<u8>, edges: usize) -> Result<(), AllocError> {
    let mut left = edges;
    for a in 0..64u8 {
        for b in a + 1..64 {
            if left == 0 {
                return Ok(());
            }
            input.extend_from_slice(&[B, a, b])?;
            left -= 1;
        }
    }
    Ok(())
}

#[test]
fn drawing_of_1024_cells_has_a_report(rt: HostRuntime) -> Result<(), Fail> {
    let mut input = join(rt.alloc(), &VERTICES, &[])?;
    push_edges(&mut input, 960)?;
    input.extend_from_slice(&[Q, 4, 0])?;
    check_report(
        &rt,
        input.as_slice(),
        b"field 2\nform 4\ncells 64 960 0 0\n",
    )
}

#[test]
fn drawing_of_1025_cells_is_refused_after_its_records(rt: HostRuntime) -> Result<(), Fail> {
    let mut input = join(rt.alloc(), &VERTICES, &[])?;
    push_edges(&mut input, 961)?;
    input.extend_from_slice(&[Q, 4, 0])?;
    check_refused(&rt, input.as_slice(), Layer::Leaf.refuses(8, 1024))?;
    input.push(F)?;
    check_refused(&rt, input.as_slice(), Layer::Job.refuses(3, 3016))
}

// A Z record of each cell number below the count.
fn push_terms(input: &mut Vec<u8>, count: u16) -> Result<(), AllocError> {
    for n in 0..count {
        let [high, low] = n.to_be_bytes();
        input.extend_from_slice(&[Z, high, low, 1])?;
    }
    Ok(())
}

#[test]
fn job_of_16384_bytes_passes_and_one_more_is_refused(rt: HostRuntime) -> Result<(), Fail> {
    let mut input = join(rt.alloc(), &[F, 2, A, 0, A, 1, B, 0, 1, Q, 4, 0], &[])?;
    push_terms(&mut input, 4093)?;
    assert_eq!(rt; input.len(), 16384);
    check_report(&rt, input.as_slice(), b"field 2\nform 4\ncells 2 1 0 0\n")?;
    input.push(0)?;
    check_refused(&rt, input.as_slice(), Layer::Job.refuses(1, 16384))
}
