// An index of the tests' own, and what stands on it; and an index that lends its cells.
use crate::entries::DISC;
use crate::layers::*;
use cell::{Cell, Simplex};
use complex::leaf::Leaf;
use index::{FaceIndex, Index, LendsCells, check_list};
use maps::cone::{Cone, check_cone};
use maps::inclusion::{Inclusion, check_inclusion};
use std::process::Abort;
use std::test::Fail;

// A list that can be asked for its length, for a cell and for a cell's place, and lends nothing.
#[derive(Clone, Copy)]
struct Asked<'a, K> {
    list: FaceIndex<'a, K>,
}

impl<'a, K: Cell> Index for Asked<'a, K> {
    type K = K;

    ghost cells = { λ s. s.list.cells.now };

    fn len(&self) -> usize {
        self.list.len()
    }

    fn at(&self, i: usize) -> Option<K> {
        self.list.at(i)
    }

    fn find(&self, c: &K) -> Option<usize> {
        self.list.find(c)
    }
}

// The disc: from an edge back to its first vertex and on to its second, and around the triangle.
static OF_DISC: [Entry; 9] = [
    (1, 0, 0, 2),
    (1, 1, 0, 1),
    (1, 0, 1, 2),
    (1, 2, 1, 1),
    (1, 1, 2, 2),
    (1, 2, 2, 1),
    (2, 0, 0, 1),
    (2, 1, 0, 2),
    (2, 2, 0, 1),
];

// The leaf of a list that is asked.
fn check_leaf<K: Cell>(
    rt: &impl Abort,
    cells: &[K],
    dims: &[usize],
    entries: &[Entry],
) -> Result<(), Fail> {
    check_list(cells)?;
    let list = FaceIndex::over(cells);
    check_complex(rt, &Leaf::new(Asked { list }, FIELD), 3, dims, entries);
    Ok(())
}

#[test]
fn leaf_stands_on_an_index_that_lends_nothing(rt: HostRuntime) -> Result<(), Fail> {
    check_leaf(&rt, &DISC, &[3, 3, 1], &OF_DISC)
}

// The cone of the inclusion of one list in another, both asked.
fn check_cone_of<'a, K: Cell>(
    rt: &impl Abort,
    a: &'a [K],
    b: &'a [K],
    dims: &[usize],
    entries: &[Entry],
) -> Result<(), Fail> {
    check_list(a)?;
    check_list(b)?;
    let smaller = Asked {
        list: FaceIndex::over(a),
    };
    let larger = Asked {
        list: FaceIndex::over(b),
    };
    check_inclusion(&smaller, &larger)?;
    let map = Inclusion::new(Leaf::new(smaller, FIELD), Leaf::new(larger, FIELD));
    check_cone(&map)?;
    check_complex(rt, &Cone::new(map), 4, dims, entries);
    Ok(())
}

#[test]
fn inclusion_stands_on_an_index_that_lends_nothing(rt: HostRuntime) -> Result<(), Fail> {
    check_cone_of(&rt, &EDGE[0..2], &EDGE, &[2, 3], &OF_CONE)
}

// What an index lends are these simplices, in their order.
fn check_lent<L: LendsCells<K = Simplex>>(rt: &impl Abort, index: &L, simplices: &[Simplex]) {
    let lent = index.as_slice();
    assert_eq!(rt; lent.len(), simplices.len());
    for (have, want) in lent.iter().zip(simplices) {
        assert_eq!(rt; have.rank(), want.rank());
    }
}

#[test]
fn face_index_lends_its_cells(rt: HostRuntime) {
    check_lent(&rt, &FaceIndex::over(&DISC), &DISC);
    check_lent(&rt, &FaceIndex::over(&DISC[2..2]), &[]);
}
