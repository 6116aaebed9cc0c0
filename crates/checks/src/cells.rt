// Faces, and lists of cells.
use cell::{Cell, Cube, Face, Sign, Simplex};
use index::{FaceIndex, check_list};
use refusal::{Fault, Layer, Refusal};

// The coordinates of a face, or the vertices of one, and whether its sign is +1.
type Signed = (u8, u8, u8, bool);

// A cube, the number of a face, and the face.
static OF_CUBES: [(Cube, usize, Option<Signed>); 11] = [
    (Cube { x: 1, y: 1, z: 1 }, 0, Some((2, 1, 1, true))),
    (Cube { x: 1, y: 1, z: 1 }, 1, Some((0, 1, 1, false))),
    (Cube { x: 1, y: 1, z: 1 }, 2, Some((1, 2, 1, false))),
    (Cube { x: 1, y: 1, z: 1 }, 3, Some((1, 0, 1, true))),
    (Cube { x: 1, y: 1, z: 1 }, 4, Some((1, 1, 2, true))),
    (Cube { x: 1, y: 1, z: 1 }, 5, Some((1, 1, 0, false))),
    (Cube { x: 1, y: 1, z: 1 }, 6, None),
    (Cube { x: 16, y: 3, z: 0 }, 1, Some((16, 2, 0, false))),
    (Cube { x: 16, y: 3, z: 15 }, 2, Some((16, 3, 16, false))),
    (Cube { x: 16, y: 3, z: 0 }, 2, None),
    (Cube { x: 16, y: 2, z: 0 }, 0, None),
];

// The faces of the tetrahedron (1, 5, 9, 63).
static OF_TETRAHEDRON: [Option<Signed>; 5] = [
    Some((5, 9, 63, true)),
    Some((1, 9, 63, false)),
    Some((1, 5, 63, true)),
    Some((1, 5, 9, false)),
    None,
];

fn cube_face(c: &Cube, f: usize) -> Option<Signed> {
    let Face { cell, sign } = c.face(f)?;
    Some((cell.x, cell.y, cell.z, matches!(sign, Sign::Plus)))
}

#[test]
fn faces_of_cubes_have_their_signs(rt: HostRuntime) {
    for (c, f, want) in OF_CUBES.iter() {
        assert_eq!(rt; cube_face(c, *f), *want);
    }
}

fn triangle_face(s: &Simplex, f: usize) -> Option<Signed> {
    match s.face(f) {
        Some(
            Face {
                cell: Simplex::Triangle(a, b, c),
                sign,
            },
        ) => Some((a, b, c, matches!(sign, Sign::Plus))),
        _ => None,
    }
}

#[test]
fn tetrahedron_has_four_faces(rt: HostRuntime) {
    let solid = Simplex::Tetrahedron(1, 5, 9, 63);
    for (f, want) in OF_TETRAHEDRON.iter().enumerate() {
        assert_eq!(rt; triangle_face(&solid, f), *want);
    }
}

// An edge with its two ends, ascending.
pub static SEGMENT: [Cube; 3] = [
    Cube { x: 2, y: 4, z: 6 },
    Cube { x: 4, y: 4, z: 6 },
    Cube { x: 3, y: 4, z: 6 },
];

// Lists of cubes with a fault, its number and its place.
static FAULTY: [(&'static [Cube], u8, usize); 8] = [
    (&[Cube { x: 17, y: 0, z: 0 }], 4, 0),
    (
        &[Cube { x: 0, y: 0, z: 0 }, Cube { x: 0, y: 17, z: 0 }],
        4,
        0,
    ),
    (
        &[Cube { x: 0, y: 0, z: 0 }, Cube { x: 0, y: 0, z: 0 }],
        6,
        1,
    ),
    (
        &[Cube { x: 0, y: 2, z: 0 }, Cube { x: 2, y: 0, z: 0 }],
        6,
        1,
    ),
    (
        &[Cube { x: 0, y: 0, z: 2 }, Cube { x: 2, y: 2, z: 0 }],
        6,
        1,
    ),
    (&[Cube { x: 1, y: 0, z: 0 }], 7, 0),
    (
        &[Cube { x: 0, y: 0, z: 0 }, Cube { x: 1, y: 0, z: 0 }],
        7,
        1,
    ),
    (
        &[
            Cube { x: 0, y: 0, z: 0 },
            Cube { x: 1, y: 0, z: 0 },
            Cube { x: 0, y: 0, z: 0 },
        ],
        7,
        1,
    ),
];

// How a list is refused, if it is.
fn list_refusal<K: Cell>(cells: &[K]) -> Option<Refusal> {
    Some(check_list(cells).err()?.refusal())
}

#[test]
fn faulty_lists_are_refused(rt: HostRuntime) {
    for (cells, number, place) in FAULTY.iter() {
        assert_eq!(rt;
            list_refusal(cells),
            Some(Layer::Leaf.refuses(*number, *place))
        );
    }
    let many = [Cube { x: 17, y: 0, z: 0 }; 1025];
    assert_eq!(rt; list_refusal(&many), Some(Layer::Leaf.refuses(8, 1024)));
}

// Where a cube stands in the segment.
static PLACES: [(Cube, Option<usize>); 6] = [
    (Cube { x: 2, y: 4, z: 6 }, Some(0)),
    (Cube { x: 4, y: 4, z: 6 }, Some(1)),
    (Cube { x: 3, y: 4, z: 6 }, Some(2)),
    (Cube { x: 3, y: 4, z: 5 }, None),
    (Cube { x: 0, y: 0, z: 0 }, None),
    (
        Cube {
            x: 15,
            y: 15,
            z: 15,
        },
        None,
    ),
];

#[test]
fn cells_are_found_by_their_number(rt: HostRuntime) {
    let index = FaceIndex::over(&SEGMENT);
    for (c, place) in PLACES.iter() {
        assert_eq!(rt; index.find(c), *place);
    }
}
