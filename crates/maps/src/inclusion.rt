// The inclusion of one closed list of cells in another.
ghost use Rattle.std.specs.Prelude.{◌≡◌};
ghost use Rattle.index.specs.Closed.{Ascending};
ghost use Rattle.complex.specs.Starts.{Sound};
ghost use Rattle.maps.specs.Inclusion.{same_cell, inclusion, Included, SoundInclusion};
ghost use Rattle.maps.specs.InclusionTest.{inclusion_test, TellsInclusion};

use crate::ChainMap;
use cell::Cell;
use complex::Complex;
use complex::fault::PileFault;
use complex::leaf::Leaf;
use field::Field;
use index::Index;

// Whether each cell of the smaller list stands in the larger, or the number of the first that does not.
#[tactic(auto, using(crate::proofs::inclusion::Testing::answers))]
pub fn check_inclusion<I: Index>(smaller: &I, larger: &I) -> Result<(), PileFault>
    ensures is { Ascending I.K.Cell.kind (I.Index.cells larger.now) → result ≡ inclusion_test
        I.K.Cell.kind (I.Index.cells smaller.now) (I.Index.cells larger.now) }
    ensures law { Ascending I.K.Cell.kind (I.Index.cells larger.now) → TellsInclusion
        I.K.Cell.kind (I.Index.cells smaller.now) (I.Index.cells larger.now) result }
{
    for n in 0..smaller.len() {
        if let Some(cell) = smaller.at(n) {
            let Some(_) = larger.find(&cell) else {
                return Err(PileFault::NotIncluded(n));
            };
        }
    }
    Ok(())
}

// 1 where both cells are there and are the same, else 0.
fn same_cell<K: Cell>(row: Option<K>, column: Option<K>) -> u8
    ensures { result ≡ same_cell K.Cell.kind row column }
{
    match (row, column) {
        (Some(g), Some(c)) if g.rank() == c.rank() => 1,
        _ => 0,
    }
}

// The leaf of a list, and the leaf of a list that it is included in.
#[derive(Clone, Copy)]
pub struct Inclusion<I, F> {
    smaller: Leaf<I, F>,
    larger: Leaf<I, F>,
}

impl<I: Index, F: Field> Inclusion<I, F> {
    // The inclusion of a list that has passed the test of an inclusion; of another list it is not sound.
    pub fn new(smaller: Leaf<I, F>, larger: Leaf<I, F>) -> Inclusion<I, F>
        ensures smaller { result.smaller ≡ smaller }
        ensures larger { result.larger ≡ larger }
        ensures sound { Sound I.K.Cell.kind (I.Index.cells smaller.index) smaller.starts →
            Sound I.K.Cell.kind (I.Index.cells larger.index) larger.starts →
            Included I.K.Cell.kind (I.Index.cells smaller.index) (I.Index.cells larger.index) →
            SoundInclusion I.K.Cell.kind (I.Index.cells result.smaller.index) (I.Index.cells result.larger.index)
            result.smaller.starts result.larger.starts }
    {
        Inclusion { smaller, larger }
    }
}

impl<I: Index, F: Field> ChainMap for Inclusion<I, F> {
    type F = F;

    type Source = Leaf<I, F>;

    type Target = Leaf<I, F>;

    ghost meaning = { λ s. inclusion F.Field.codes I.K.Cell.kind (I.Index.cells s.smaller.index)
        (I.Index.cells s.larger.index) };

    ghost sound = { λ s. SoundInclusion I.K.Cell.kind (I.Index.cells s.smaller.index)
        (I.Index.cells s.larger.index) s.smaller.starts s.larger.starts };

    fn field(&self) -> &F {
        self.smaller.field()
    }

    fn source(&self) -> &Leaf<I, F> {
        &self.smaller
    }

    fn target(&self) -> &Leaf<I, F> {
        &self.larger
    }

    fn entry(&self, k: usize, i: usize, j: usize) -> u8 {
        same_cell(self.larger.cell(k, i), self.smaller.cell(k, j))
    }

    fn law(&self) {}
}
