// Layers over leaves: dimensions and entries.
use cell::{Cell, Simplex};
use complex::Complex;
use complex::dual::Dual;
use complex::leaf::Leaf;
use field::Prime;
use index::{FaceIndex, Index, check_list};
use maps::ChainMap;
use maps::cone::{Cone, check_cone};
use maps::inclusion::{Inclusion, check_inclusion};
use maps::scalar::Scalar;
use std::process::Abort;
use std::test::Fail;
use tensor::{Tensor, check_tensor};

// Degree, row and column, and an entry that is not 0.
pub(crate) type Entry = (usize, usize, usize, u8);

// The field of 3, where -1 is 2.
pub(crate) const FIELD: Prime<3> = Prime::<3>;

pub(crate) static EDGE: [Simplex; 3] = [
    Simplex::Vertex(0),
    Simplex::Vertex(1),
    Simplex::Edge(0, 1),
];

static RING: [Simplex; 6] = [
    Simplex::Vertex(0),
    Simplex::Vertex(1),
    Simplex::Vertex(2),
    Simplex::Edge(0, 1),
    Simplex::Edge(0, 2),
    Simplex::Edge(1, 2),
];

// The edge tensor itself is a square: four corners, four sides, one face.
static OF_SQUARE: [Entry; 12] = [
    (1, 0, 0, 2),
    (1, 0, 2, 2),
    (1, 1, 0, 1),
    (1, 1, 3, 2),
    (1, 2, 1, 2),
    (1, 2, 2, 1),
    (1, 3, 1, 1),
    (1, 3, 3, 1),
    (2, 0, 0, 2),
    (2, 1, 0, 1),
    (2, 2, 0, 1),
    (2, 3, 0, 2),
];

// The cone of two vertices in the edge between them: two copies of vertices in degree 1, then the edge.
pub(crate) static OF_CONE: [Entry; 4] = [(1, 0, 0, 2), (1, 0, 2, 2), (1, 1, 1, 2), (1, 1, 2, 1)];

// The dual of the cone of the scalar 2 on the edge.
static OF_DUAL: [Entry; 7] = [
    (3, 0, 0, 1),
    (3, 0, 1, 2),
    (3, 0, 2, 1),
    (4, 0, 0, 1),
    (4, 1, 1, 1),
    (4, 2, 0, 2),
    (4, 2, 1, 1),
];

pub(crate) fn listed_entry(entries: &[Entry], at: (usize, usize, usize)) -> u8 {
    entries
        .iter()
        .find(|(k, i, j, _)| (*k, *i, *j) == at)
        .map_or(0, |(_, _, _, code)| *code)
}

// The top, the dimensions up to degree 11, and all entries of the degrees up to 11 in rows and columns up to 7: those
// that are not listed are 0.
pub(crate) fn check_complex<C: Complex>(
    rt: &impl Abort,
    c: &C,
    top: usize,
    dims: &[usize],
    entries: &[Entry],
)
    requires { C.Complex.sound c.now }
{
    assert_eq!(rt; c.top(), top);
    for k in 0..12 {
        assert_eq!(rt; c.dim(k), dims.get(k).copied().unwrap_or(0));
        for i in 0..8 {
            for j in 0..8 {
                assert_eq!(rt; c.entry(k, i, j), listed_entry(entries, (k, i, j)));
            }
        }
    }
    assert_eq!(rt; c.dim(usize::MAX), 0);
    assert_eq!(rt; c.entry(usize::MAX, 0, 0), 0);
    assert_eq!(rt; c.entry(1, usize::MAX, 0), 0);
    assert_eq!(rt; c.entry(1, 0, usize::MAX), 0);
}

// The tensor of the leaves of two lists.
fn check_tensor_of<K: Cell>(
    rt: &impl Abort,
    a: &[K],
    b: &[K],
    dims: &[usize],
    entries: &[Entry],
) -> Result<(), Fail> {
    check_list(a)?;
    check_list(b)?;
    let left = Leaf::new(FaceIndex::over(a), FIELD);
    let right = Leaf::new(FaceIndex::over(b), FIELD);
    check_tensor(&left, &right)?;
    check_complex(rt, &Tensor::new(left, right), 6, dims, entries);
    Ok(())
}

// The cone of the inclusion of one list in another.
fn check_inclusion_cone<'a, K: Cell>(
    rt: &impl Abort,
    a: &'a [K],
    b: &'a [K],
    dims: &[usize],
    entries: &[Entry],
) -> Result<(), Fail> {
    check_list(a)?;
    check_list(b)?;
    check_inclusion(&FaceIndex::over(a), &FaceIndex::over(b))?;
    let map = Inclusion::new(
        Leaf::new(FaceIndex::over(a), FIELD),
        Leaf::new(FaceIndex::over(b), FIELD),
    );
    check_cone(&map)?;
    check_complex(rt, &Cone::new(map), 4, dims, entries);
    Ok(())
}

// The dual of the cone of a scalar on the leaf of a list.
fn check_scalar_cone_dual<K: Cell>(
    rt: &impl Abort,
    a: &[K],
    code: u8,
    dims: &[usize],
    entries: &[Entry],
) -> Result<(), Fail> {
    check_list(a)?;
    let map = Scalar::new(Leaf::new(FaceIndex::over(a), FIELD), code);
    check_cone(&map)?;
    check_complex(rt, &Dual::new(Cone::new(map)), 4, dims, entries);
    Ok(())
}

#[test]
fn edge_tensor_edge_is_a_square(rt: HostRuntime) -> Result<(), Fail> {
    check_tensor_of(&rt, &EDGE, &EDGE, &[4, 4, 1], &OF_SQUARE)
}

#[test]
fn cone_of_two_vertices_in_an_edge_has_2_3_cells(rt: HostRuntime) -> Result<(), Fail> {
    check_inclusion_cone(&rt, &EDGE[0..2], &EDGE, &[2, 3], &OF_CONE)
}

#[test]
fn dual_of_a_cone_is_turned_around(rt: HostRuntime) -> Result<(), Fail> {
    check_scalar_cone_dual(&rt, &EDGE, 2, &[0, 0, 1, 3, 2], &OF_DUAL)
}

// Of the tensor of two leaves.
fn tensor_dim<K: Cell>(a: &[K], k: usize) -> Result<usize, Fail> {
    check_list(a)?;
    let left = Leaf::new(FaceIndex::over(a), FIELD);
    let right = Leaf::new(FaceIndex::over(a), FIELD);
    check_tensor(&left, &right)?;
    Ok(Tensor::new(left, right).dim(k))
}

#[test]
fn ring_tensor_ring_has_9_18_9_cells(rt: HostRuntime) -> Result<(), Fail> {
    for (k, want) in [9, 18, 9, 0, 0, 0, 0].iter().enumerate() {
        assert_eq!(rt; tensor_dim(&RING, k)?, *want);
    }
    Ok(())
}

fn scalar_entry<K: Cell>(a: &[K], code: u8, k: usize, i: usize, j: usize) -> Result<u8, Fail> {
    check_list(a)?;
    Ok(Scalar::new(Leaf::new(FaceIndex::over(a), FIELD), code).entry(k, i, j))
}

#[test]
fn scalar_stands_for_its_remainder(rt: HostRuntime) -> Result<(), Fail> {
    for (k, i, j, want) in [
        (0, 0, 0, 2),
        (0, 1, 1, 2),
        (0, 0, 1, 0),
        (0, 2, 2, 0),
        (1, 0, 0, 2),
        (1, 1, 1, 0),
    ]
    .iter()
    {
        assert_eq!(rt; scalar_entry(&EDGE, 5, *k, *i, *j)?, *want);
    }
    Ok(())
}
