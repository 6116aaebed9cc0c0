// The mapping cone of a chain map.
ghost use Rattle.std.specs.Prelude.{◌≡◌, ◌≤◌};
ghost use Rattle.linear.specs.Complexes.{WithinLimits};
ghost use Rattle.linear.specs.Cone.{from_source, cone};
ghost use Rattle.linear.specs.ConeLaw.{IsCone};
ghost use Rattle.complex.specs.Limits.{Limited, cells, limits_test};

use crate::ChainMap;
use complex::fault::{PileFault, check_limits};
use complex::{Complex, count_cells};
use field::Field;

// The cone of a chain map: the source's cells one degree up, and the target's.
#[derive(Clone, Copy)]
pub struct Cone<M> {
    map: M,
}

// The number of cells of degree k, which the limits bound.
fn limited_dim<C: Complex>(c: &C, k: usize) -> usize
    requires { C.Complex.sound c.now }
    ensures is { result ≡ (C.Complex.meaning c.now).dim k }
    ensures small { result ≤ 1024 }
{
    c.law();
    c.dim(k)
}

// The top, which the limits bound.
fn limited_top<C: Complex>(c: &C) -> usize
    requires { C.Complex.sound c.now }
    ensures is { result ≡ (C.Complex.meaning c.now).top }
    ensures small { result ≤ 8 }
{
    c.law();
    c.top()
}

// The cone's top: the target's, or the source's one degree up.
fn cone_top<M: ChainMap>(m: &M) -> usize
    requires { M.ChainMap.sound m.now }
    ensures { result ≡ (cone M.F.Field.codes (M.ChainMap.meaning m.now)).top }
{
    m.target().top().max(limited_top(m.source()) + 1)
}

// How many of the cone's cells of degree k are the source's.
fn from_source<M: ChainMap>(m: &M, k: usize) -> usize
    requires { M.ChainMap.sound m.now }
    ensures is { result ≡ from_source (M.ChainMap.meaning m.now) k }
    ensures small { result ≤ 1024 }
{
    if k == 0 {
        0
    } else {
        limited_dim(m.source(), k - 1)
    }
}

// The number of the cone's cells: those of the source and those of the target.
fn cone_cells<M: ChainMap>(m: &M) -> usize
    requires { M.ChainMap.sound m.now }
    ensures { result ≡ cells (cone M.F.Field.codes (M.ChainMap.meaning m.now)) }
{
    m.law();
    count_cells(m.source()) + count_cells(m.target())
}

// Whether the cone of a map keeps the limits, or which one it passes first.
pub fn check_cone<M: ChainMap>(m: &M) -> Result<(), PileFault>
    requires { M.ChainMap.sound m.now }
    ensures is { result ≡ limits_test (cells (cone M.F.Field.codes (M.ChainMap.meaning m.now)))
        (cone M.F.Field.codes (M.ChainMap.meaning m.now)).top }
    ensures law { Limited (cells (cone M.F.Field.codes (M.ChainMap.meaning m.now)))
        (cone M.F.Field.codes (M.ChainMap.meaning m.now)).top result }
{
    check_limits(cone_cells(m), cone_top(m))
}

impl<M: ChainMap> Cone<M> {
    // The cone of a map that has passed the test of the limits; of another map it is not sound.
    pub fn new(map: M) -> Cone<M>
        ensures map { result.map ≡ map }
        ensures sound { M.ChainMap.sound map →
            WithinLimits (cone M.F.Field.codes (M.ChainMap.meaning map)) →
            M.ChainMap.sound result.map × WithinLimits (cone M.F.Field.codes (M.ChainMap.meaning result.map)) }
        ensures law { IsCone M.F.Field.codes (M.ChainMap.meaning map)
            (cone M.F.Field.codes (M.ChainMap.meaning map)) }
    {
        Cone { map }
    }
}

impl<M: ChainMap> Complex for Cone<M> {
    type F = M::F;

    ghost meaning = { λ s. cone M.F.Field.codes (M.ChainMap.meaning s.map) };

    ghost sound = { λ s. M.ChainMap.sound s.map
        × WithinLimits (cone M.F.Field.codes (M.ChainMap.meaning s.map)) };

    fn field(&self) -> &M::F {
        self.map.field()
    }

    fn top(&self) -> usize {
        cone_top(&self.map)
    }

    fn dim(&self, k: usize) -> usize {
        from_source(&self.map, k) + limited_dim(self.map.target(), k)
    }

    fn entry(&self, k: usize, i: usize, j: usize) -> u8 {
        if k == 0 {
            return 0;
        }
        let rows = from_source(&self.map, k - 1);
        let columns = from_source(&self.map, k);
        if j < columns {
            if i < rows {
                self.field().negate(self.map.source().entry(k - 1, i, j))
            } else {
                self.field().negate(self.map.entry(k - 1, i - rows, j))
            }
        } else if i < rows {
            0
        } else {
            self.map.target().entry(k, i - rows, j - columns)
        }
    }

    fn law(&self) {
        self.map.law();
    }
}
