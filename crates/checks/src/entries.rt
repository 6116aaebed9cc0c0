// Entries of the boundaries of a leaf.
use crate::cells::SEGMENT;
use cell::{Cell, Simplex};
use complex::Complex;
use complex::leaf::Leaf;
use field::{Field, Prime};
use index::{FaceIndex, check_list};
use std::process::Abort;

// The ring with its triangle.
pub(crate) static DISC: [Simplex; 7] = [
    Simplex::Vertex(0),
    Simplex::Vertex(1),
    Simplex::Vertex(2),
    Simplex::Edge(0, 1),
    Simplex::Edge(0, 2),
    Simplex::Edge(1, 2),
    Simplex::Triangle(0, 1, 2),
];

// Degree, row and column, and the entry.
type Row = (usize, usize, usize, u8);

// Over the field of 3, where -1 is 2.
static OF_DISC: [Row; 20] = [
    (1, 0, 0, 2),
    (1, 1, 0, 1),
    (1, 2, 0, 0),
    (1, 0, 1, 2),
    (1, 1, 1, 0),
    (1, 2, 1, 1),
    (1, 0, 2, 0),
    (1, 1, 2, 2),
    (1, 2, 2, 1),
    (2, 0, 0, 1),
    (2, 1, 0, 2),
    (2, 2, 0, 1),
    // outside
    (0, 0, 0, 0),
    (1, 3, 0, 0),
    (1, 0, 3, 0),
    (2, 0, 1, 0),
    (3, 0, 0, 0),
    (4, 0, 0, 0),
    (5, 0, 0, 0),
    (usize::MAX, usize::MAX, usize::MAX, 0),
];

// An edge between two corners, over the field of 251.
static OF_SEGMENT: [Row; 3] = [(1, 0, 0, 250), (1, 1, 0, 1), (1, 2, 0, 0)];

// An entry of the leaf of a list, if the list is closed.
fn entry_of<K: Cell, F: Field + Copy>(
    cells: &[K],
    field: F,
    (k, i, j): (usize, usize, usize),
) -> Option<u8> {
    check_list(cells).ok()?;
    Some(Leaf::new(FaceIndex::over(cells), field).entry(k, i, j))
}

fn check_entries<K: Cell, F: Field + Copy>(rt: &impl Abort, cells: &[K], field: F, rows: &[Row]) {
    for (k, i, j, want) in rows {
        assert_eq!(rt; entry_of(cells, field, (*k, *i, *j)), Some(*want));
    }
}

#[test]
fn boundaries_have_the_signs_of_the_faces(rt: HostRuntime) {
    check_entries(&rt, &DISC, Prime::<3>, &OF_DISC);
    check_entries(&rt, &SEGMENT, Prime::<251>, &OF_SEGMENT);
}
