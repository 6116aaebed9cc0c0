// The leaf: the complex of a closed list of cells.
ghost use Rattle.std.specs.Prelude.{◌≡◌, length};
ghost use Rattle.std.specs.List.{slice_get};
ghost use Rattle.index.specs.Closed.{Closed};
ghost use Rattle.complex.specs.Leaf.{code, of_degree, incidence, between, leaf};
ghost use Rattle.complex.specs.LeafSteps.{one_below};
ghost use Rattle.complex.specs.Starts.{below_degree, Starts, Sound};

use crate::Complex;
use cell::{Cell, Sign};
use field::Field;
use index::Index;
use std::array;

// A list of cells behind an index, with the places at which the degrees start in it.
//
// That the places are true is no ghost field: with one, Clone is not derived here, and a written one would ask for an
// index that can be copied.
#[derive(Clone, Copy)]
pub struct Leaf<I, F> {
    index: I,
    field: F,
    starts: [usize; 5],
}

impl<I: Index, F: Field> Leaf<I, F> {
    // The leaf of a list that has passed the test of closed lists; of another list it is not sound.
    pub fn new(index: I, field: F) -> Leaf<I, F>
        ensures index { result.index ≡ index }
        ensures field { result.field ≡ field }
        ensures starts { Starts I.K.Cell.kind (I.Index.cells index) result.starts }
        ensures sound { Closed I.K.Cell.kind (I.Index.cells index) →
            Sound I.K.Cell.kind (I.Index.cells result.index) result.starts }
    {
        let starts = find_starts(&index);
        Leaf {
            index,
            field,
            starts,
        }
    }

    // The number of cells of degree d.
    fn count(&self, d: usize) -> usize
        requires { Sound I.K.Cell.kind (I.Index.cells self.now.index) self.now.starts }
        ensures { result ≡ length (of_degree I.K.Cell.kind d (I.Index.cells self.now.index)) }
    {
        if d < 4 {
            self.starts[d + 1] - self.starts[d]
        } else {
            0
        }
    }

    // The cell with the number i among those of degree d.
    pub fn cell(&self, d: usize, i: usize) -> Option<I::K>
        requires { Sound I.K.Cell.kind (I.Index.cells self.now.index) self.now.starts }
        ensures { result ≡ slice_get (of_degree I.K.Cell.kind d (I.Index.cells self.now.index)) i }
    {
        if i < self.count(d) {
            self.index.at(self.starts[d] + i)
        } else {
            None
        }
    }
}

// 1 if the cell at i has a degree below d, else 0.
fn one_below<I: Index>(index: &I, i: usize, d: usize) -> usize
    ensures { result ≡ one_below I.K.Cell.kind d (slice_get (I.Index.cells index.now) i) }
{
    match index.at(i) {
        Some(c) => if c.degree() < d { 1 } else { 0 },
        None => 0,
    }
}

// The number of cells of a degree below d. A chain that filters and counts takes 1.6 times as long.
fn count_below<I: Index>(index: &I, d: usize) -> usize
    ensures { result ≡ length (below_degree I.K.Cell.kind d (I.Index.cells index.now)) }
{
    let mut n = 0;
    for i in 0..index.len() {
        n += one_below(index, i, d);
    }
    n
}

fn find_starts<I: Index>(index: &I) -> [usize; 5]
    ensures { Starts I.K.Cell.kind (I.Index.cells index.now) result }
{
    array::from_fn(|d| count_below(index, d))
}

// The code of a sign: 1, or the negative of 1.
fn sign_code<F: Field>(field: &F, s: Sign) -> u8
    ensures { result ≡ code F.Field.codes s }
{
    match s {
        Sign::Plus => 1,
        Sign::Minus => field.negate(1),
    }
}

// The sign of g where it stands among the faces of c, else 0.
fn incidence<K: Cell, F: Field>(field: &F, g: &K, c: &K) -> u8
    ensures { result ≡ incidence F.Field.codes K.Cell.kind g.now
        (K.Cell.kind.faces c.now) }
{
    (0..c.face_count())
        .filter_map(|f| c.face(f))
        .find(|face| face.cell.rank() == g.rank())
        .map_or(0, |face| sign_code(field, face.sign))
}

// The entry at the row of g and the column of c, where both are there.
fn between<K: Cell, F: Field>(field: &F, row: Option<K>, column: Option<K>) -> u8
    ensures { result ≡ between F.Field.codes K.Cell.kind row column }
{
    match (row, column) {
        (Some(g), Some(c)) => incidence(field, &g, &c),
        _ => 0,
    }
}

impl<I: Index, F: Field> Complex for Leaf<I, F> {
    type F = F;

    ghost meaning = { λ s. leaf F.Field.codes I.K.Cell.kind (I.Index.cells s.index) };

    ghost sound = { λ s. Sound I.K.Cell.kind (I.Index.cells s.index) s.starts };

    fn field(&self) -> &F {
        &self.field
    }

    fn top(&self) -> usize {
        3
    }

    fn dim(&self, k: usize) -> usize {
        self.count(k)
    }

    fn entry(&self, k: usize, i: usize, j: usize) -> u8 {
        if k == 0 {
            return 0;
        }
        between(&self.field, self.cell(k - 1, i), self.cell(k, j))
    }

    fn law(&self) {}
}
