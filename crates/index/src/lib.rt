// Lists of cells: the face index and the test of a closed list.
#![tactic(auto)]

ghost use Rattle.std.specs.Prelude.{◌≡◌, List, length};
ghost use Rattle.std.specs.List.{slice_get};
ghost use Rattle.index.specs.Faults.{leaf_refusal};
ghost use Rattle.index.specs.Find.{Finds};
ghost use Rattle.index.specs.Parts.{TellsFaces, TellsCell};
ghost use Rattle.index.specs.Test.{above_last, list_test};
ghost use Rattle.index.specs.Verdict.{Verdict};

use cell::Cell;
use refusal::{Fault, Layer, Refusal};

// The most cells of a list.
pub const MOST_CELLS: usize = 1024;

// Why a list of cells is no closed list.
#[derive(Clone, Copy, Debug)]
pub enum LeafFault {
    OutOfRange,
    NotAbove(usize),
    FaceMissing(usize),
    TooMany,
}

impl Fault for LeafFault {
    ghost says = { leaf_refusal };

    fn refusal(&self) -> Refusal {
        match *self {
            LeafFault::OutOfRange => Layer::Leaf.refuses(4, 0),
            LeafFault::NotAbove(cell) => Layer::Leaf.refuses(6, cell),
            LeafFault::FaceMissing(cell) => Layer::Leaf.refuses(7, cell),
            LeafFault::TooMany => Layer::Leaf.refuses(8, MOST_CELLS),
        }
    }
}

// A lent list of cells, which cells are looked up in.
#[derive(Clone, Copy)]
pub struct FaceIndex<'a, K> {
    cells: &'a [K],
}

impl<'a, K: Cell> FaceIndex<'a, K> {
    pub fn over(cells: &'a [K]) -> FaceIndex<'a, K>
        ensures { result.cells.now ≡ cells.now }
    {
        FaceIndex { cells }
    }

    // The cells of the list.
    pub fn as_slice(&self) -> &[K]
        ensures { result.now ≡ self.now.cells.now }
    {
        self.cells
    }

    // The place of a cell of the rank of c, by halving.
    // The library's search has no early way out: it reads on once it has met the cell, which misses a bar of speed.
    pub fn find(&self, c: &K) -> Option<usize>
        ensures { Finds K.Cell.kind self.now.cells.now c.now result }
    {
        let want = c.rank();
        let mut low = 0;
        let mut high = self.cells.len();
        while low < high {
            let mid = low + (high - low) / 2;
            let have = self.cells[mid].rank();
            if have == want {
                return Some(mid);
            }
            if have < want {
                low = mid + 1;
            } else {
                high = mid;
            }
        }
        None
    }

    // Whether each face of c stands in the list, if the list ascends.
    #[tactic(auto, using(crate::proofs::Steps::one_face))]
    pub fn has_faces(&self, c: &K) -> bool
        ensures { TellsFaces K.Cell.kind self.now.cells.now c.now result }
    {
        for f in 0..c.face_count() {
            if let Some(face) = c.face(f) {
                let Some(_) = self.find(&face.cell) else {
                    return false;
                };
            }
        }
        true
    }
}

// Whether c stands above the last of the cells before it.
#[tactic(auto, using(crate::proofs::Steps::last_cell))]
fn stands_above<K: Cell>(before: &[K], c: &K) -> bool
    ensures { result ≡ above_last K.Cell.kind before.now c.now }
{
    before.last().is_none_or(|last| last.rank() < c.rank())
}

// The cell with the number n, after the cells before it.
fn check_cell<K: Cell>(before: &[K], c: &K, n: usize) -> Result<(), LeafFault>
    ensures { TellsCell K.Cell.kind before.now n c.now result }
{
    if !c.valid() {
        return Err(LeafFault::OutOfRange);
    }
    if !stands_above(before, c) {
        return Err(LeafFault::NotAbove(n));
    }
    if !FaceIndex::over(before).has_faces(c) {
        return Err(LeafFault::FaceMissing(n));
    }
    Ok(())
}

// Whether the list is closed, or its first fault.
pub fn check_list<K: Cell>(cells: &[K]) -> Result<(), LeafFault>
    ensures closed { Verdict K.Cell.kind cells.now result }
    ensures is { result ≡ list_test K.Cell.kind cells.now }
{
    if cells.len() > MOST_CELLS {
        return Err(LeafFault::TooMany);
    }
    for (n, c) in cells.iter().enumerate() {
        check_cell(&cells[..n], c, n)?;
    }
    Ok(())
}

// An index of cells: a list that cells are read from and looked up in.
pub trait Index {
    type K: Cell;

    ghost cells: { Self → List Self.K };

    fn len(&self) -> usize
        ensures { result ≡ length (cells self.now) };

    fn at(&self, i: usize) -> Option<Self::K>
        ensures { result ≡ slice_get (cells self.now) i };

    fn find(&self, c: &Self::K) -> Option<usize>
        ensures { Finds Self.K.Cell.kind (cells self.now) c.now result };
}

impl<'a, K: Cell> Index for FaceIndex<'a, K> {
    type K = K;

    ghost cells = { λ s. s.cells.now };

    fn len(&self) -> usize {
        self.cells.len()
    }

    fn at(&self, i: usize) -> Option<K> {
        self.cells.get(i).copied()
    }

    fn find(&self, c: &K) -> Option<usize> {
        FaceIndex::find(self, c)
    }
}

// An index that holds its cells as a slice, and lends it.
pub trait LendsCells: Index {
    fn as_slice(&self) -> &[Self::K]
        ensures { result.now ≡ Self.Index.cells self.now };
}

impl<'a, K: Cell> LendsCells for FaceIndex<'a, K> {
    fn as_slice(&self) -> &[K] {
        FaceIndex::as_slice(self)
    }
}
