// The tensor of two complexes over one field.
//
// A call of a complex's law brings in what is known of it; it does nothing when it runs.
#![tactic(auto)]

ghost use Rattle.std.specs.Prelude.{◌≡◌, suc, ◌*◌, ◌<◌, ◌≤◌, Some, IfSome};
ghost use Rattle.std.specs.Option.{option_map};
ghost use Rattle.linear.specs.Complexes.{WithinLimits};
ghost use Rattle.linear.specs.Sums.{total};
ghost use Rattle.linear.specs.Tensor.{block, locate, pair_at, signed, between, tensor};
ghost use Rattle.linear.specs.TensorLaw.{IsTensor};
ghost use Rattle.complex.specs.Limits.{cells, limits_test, Limited};
ghost use Rattle.tensor.specs.Sound.{Sound};
ghost use Rattle.tensor.specs.Steps.{meant};

use complex::fault::{PileFault, check_limits};
use complex::{Complex, count_cells};
use field::Field;

// Its cells are the pairs of a left cell and a right cell.
#[derive(Clone, Copy)]
pub struct Tensor<C, D> {
    left: C,
    right: D,
}

// Cell i of the left complex in degree p, and cell j of the right complex.
#[derive(Clone, Copy)]
struct Pair {
    p: usize,
    i: usize,
    j: usize,
}

impl<C: Complex, D: Complex<F = C::F>> Tensor<C, D> {
    // The tensor of two sound complexes that has passed the test of the limits; of others it is not sound.
    pub fn new(left: C, right: D) -> Tensor<C, D>
        ensures left { result.left ≡ left }
        ensures right { result.right ≡ right }
        ensures sound { C.Complex.sound left → D.Complex.sound right →
            WithinLimits (tensor C.F.Field.codes (C.Complex.meaning left) (D.Complex.meaning right)) →
            Sound (C.Complex.sound result.left) (D.Complex.sound result.right)
            (tensor C.F.Field.codes (C.Complex.meaning result.left) (D.Complex.meaning result.right)) }
        ensures law { IsTensor C.F.Field.codes (C.Complex.meaning left) (D.Complex.meaning right)
            (tensor C.F.Field.codes (C.Complex.meaning result.left) (D.Complex.meaning result.right)) }
    {
        Tensor { left, right }
    }
}

// Whether the tensor of two complexes keeps the limits, or which one it passes first. It has as many cells as
// there are pairs of a cell of each.
pub fn check_tensor<C: Complex, D: Complex<F = C::F>>(c: &C, d: &D) -> Result<(), PileFault>
    requires left { C.Complex.sound c.now }
    requires right { D.Complex.sound d.now }
    ensures is { result ≡ limits_test
        (cells (tensor C.F.Field.codes (C.Complex.meaning c.now) (D.Complex.meaning d.now)))
        (tensor C.F.Field.codes (C.Complex.meaning c.now) (D.Complex.meaning d.now)).top }
    ensures law { Limited
        (cells (tensor C.F.Field.codes (C.Complex.meaning c.now) (D.Complex.meaning d.now)))
        (tensor C.F.Field.codes (C.Complex.meaning c.now) (D.Complex.meaning d.now)).top result }
{
    c.law();
    d.law();
    check_limits(count_cells(c) * count_cells(d), c.top() + d.top())
}

// A code with the sign (-1)^p.
fn signed<F: Field>(field: &F, p: usize, code: u8) -> u8
    ensures { result ≡ signed F.Field.codes p code }
{
    if p % 2 == 0 { code } else { field.negate(code) }
}

// Soundness is kept as a requires: as an invariant of the type it would be asked of each caller of new. So is the bound
// on a degree, without which a sum over degrees may not fit.
impl<C: Complex, D: Complex<F = C::F>> Tensor<C, D> {
    // How many pairs of degree k have their left cell in degree p.
    fn count_block(&self, k: usize, p: usize) -> usize
        requires sound { C.Complex.sound self.now.left × D.Complex.sound self.now.right }
        requires degree { p ≤ k }
        ensures is { result
            ≡ block (C.Complex.meaning self.now.left) (D.Complex.meaning self.now.right) k p }
        ensures few { result ≤ 1024 * 1024 }
    {
        let Tensor { left, right } = self;
        left.law();
        right.law();
        left.dim(p) * right.dim(k - p)
    }

    // How many pairs of degree k there are.
    fn count_pairs(&self, k: usize) -> usize
        requires sound { C.Complex.sound self.now.left × D.Complex.sound self.now.right }
        requires degree { k ≤ 8 }
        ensures { result ≡ total (suc k)
            (block (C.Complex.meaning self.now.left) (D.Complex.meaning self.now.right) k) }
    {
        let mut n = 0;
        for p in 0..=k {
            n += self.count_block(k, p);
        }
        n
    }

    // Where the pair of degree k with the number n lies: the degree of its left cell, and its place among the pairs
    // with a left cell of this degree.
    fn locate(&self, k: usize, n: usize) -> Option<(usize, usize)>
        requires sound { C.Complex.sound self.now.left × D.Complex.sound self.now.right }
        requires degree { k ≤ 8 }
        ensures is { result ≡ locate
            (block (C.Complex.meaning self.now.left) (D.Complex.meaning self.now.right) k) (suc k) n }
        ensures within { IfSome result (λ at. (at.0 ≤ k)
            × (at.1 < block (C.Complex.meaning self.now.left) (D.Complex.meaning self.now.right) k at.0)) }
    {
        let mut rest = n;
        for p in 0..=k {
            let size = self.count_block(k, p);
            if rest < size {
                return Some((p, rest));
            }
            rest -= size;
        }
        None
    }

    // The pair of degree k with the number n.
    fn pair_at(&self, k: usize, n: usize) -> Option<Pair>
        requires sound { C.Complex.sound self.now.left × D.Complex.sound self.now.right }
        requires degree { k ≤ 8 }
        ensures { option_map meant result
            ≡ pair_at (C.Complex.meaning self.now.left) (D.Complex.meaning self.now.right) k n }
    {
        let (p, place) = self.locate(k, n)?;
        let width = self.right.dim(k - p);
        Some(Pair {
            p,
            i: place / width,
            j: place % width,
        })
    }

    // The entry of the boundary of degree k at the row of x and the column of y: by a face of the left cell, or by
    // one of the right cell with a sign.
    fn entry_at(&self, k: usize, x: Pair, y: Pair) -> u8
        requires sound { C.Complex.sound self.now.left × D.Complex.sound self.now.right }
        ensures { result ≡ between C.F.Field.codes
            (C.Complex.meaning self.now.left) (D.Complex.meaning self.now.right) k
            (Some (meant x)) (Some (meant y)) }
    {
        let Tensor { left, right } = self;
        match y.p.checked_sub(x.p) {
            Some(1) if x.j == y.j => left.entry(y.p, x.i, y.i),
            Some(0) if x.i == y.i => {
                let code = right.entry(k.saturating_sub(y.p), x.j, y.j);
                signed(left.field(), y.p, code)
            }
            _ => 0,
        }
    }
}

impl<C: Complex, D: Complex<F = C::F>> Complex for Tensor<C, D> {
    type F = C::F;

    ghost meaning = { λ s. tensor C.F.Field.codes (C.Complex.meaning s.left) (D.Complex.meaning s.right) };

    ghost sound = { λ s. Sound (C.Complex.sound s.left) (D.Complex.sound s.right)
        (tensor C.F.Field.codes (C.Complex.meaning s.left) (D.Complex.meaning s.right)) };

    fn field(&self) -> &C::F {
        self.left.field()
    }

    fn top(&self) -> usize {
        self.left.top() + self.right.top()
    }

    fn dim(&self, k: usize) -> usize {
        self.law();
        if k > self.top() {
            return 0;
        }
        self.count_pairs(k)
    }

    fn entry(&self, k: usize, i: usize, j: usize) -> u8 {
        self.law();
        if k == 0 || k > self.top() {
            return 0;
        }
        match (self.pair_at(k - 1, i), self.pair_at(k, j)) {
            (Some(x), Some(y)) => self.entry_at(k, x, y),
            _ => 0,
        }
    }

    fn law(&self) {
        self.left.law();
        self.right.law();
    }
}
