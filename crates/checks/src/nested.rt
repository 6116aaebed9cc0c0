// Layers on layers, and what is refused.
ghost use Rattle.std.specs.Prelude.{◌≡◌, IfOk};
ghost use Rattle.linear.specs.Cone.{cone};
ghost use Rattle.linear.specs.Dual.{dual};
ghost use Rattle.linear.specs.Tensor.{tensor};

use crate::layers::*;
use cell::Cell;
use complex::Complex;
use complex::dual::Dual;
use complex::fault::PileFault;
use complex::leaf::Leaf;
use field::Field;
use index::{FaceIndex, check_list};
use maps::ChainMap;
use maps::cone::{Cone, check_cone};
use maps::inclusion::check_inclusion;
use maps::scalar::Scalar;
use refusal::{Fault, Layer};
use std::process::Abort;
use std::test::Fail;
use tensor::{Tensor, check_tensor};

// The dual of the tensor of the edge with the dual of the cone of the scalar 2 on the edge.
static OF_NESTED: [Entry; 33] = [
    (3, 0, 0, 2),
    (3, 0, 2, 1),
    (3, 0, 4, 2),
    (3, 0, 6, 1),
    (3, 1, 1, 2),
    (3, 1, 3, 1),
    (3, 1, 5, 2),
    (3, 1, 6, 2),
    (4, 0, 0, 1),
    (4, 0, 2, 2),
    (4, 1, 1, 1),
    (4, 1, 2, 1),
    (4, 2, 3, 1),
    (4, 2, 5, 2),
    (4, 3, 4, 1),
    (4, 3, 5, 1),
    (4, 4, 0, 2),
    (4, 4, 3, 1),
    (4, 4, 6, 2),
    (4, 5, 1, 2),
    (4, 5, 4, 1),
    (4, 5, 6, 1),
    (4, 6, 2, 2),
    (4, 6, 5, 1),
    (4, 6, 6, 2),
    (5, 0, 0, 1),
    (5, 1, 0, 2),
    (5, 2, 0, 1),
    (5, 3, 1, 1),
    (5, 4, 1, 2),
    (5, 5, 1, 1),
    (5, 6, 0, 2),
    (5, 6, 1, 1),
];

// An entry of the dual of a tensor.
fn tensor_dual_entry<C: Complex + Copy, D: Complex<F = C::F> + Copy>(
    left: C,
    right: D,
    k: usize,
    i: usize,
    j: usize,
) -> Result<u8, PileFault>
    requires left { C.Complex.sound left }
    requires right { D.Complex.sound right }
    ensures { IfOk result (λ e. e ≡
        (dual (tensor C.F.Field.codes (C.Complex.meaning left) (D.Complex.meaning right))).entry k i j) }
{
    check_tensor(&left, &right)?;
    Ok(Dual::new(Tensor::new(left, right)).entry(k, i, j))
}

// An entry of the dual of the tensor of a complex with the dual of a cone. That it is the entry so defined comes out of
// the contracts of the layers, for every complex and every chain map over its field.
fn nested_entry<C: Complex + Copy, M: ChainMap<F = C::F> + Copy>(
    left: C,
    map: M,
    k: usize,
    i: usize,
    j: usize,
) -> Result<u8, PileFault>
    requires left { C.Complex.sound left }
    requires map { M.ChainMap.sound map }
    ensures { IfOk result (λ e. e ≡ (dual (tensor C.F.Field.codes (C.Complex.meaning left)
        (dual (cone C.F.Field.codes (M.ChainMap.meaning map))))).entry k i j) }
{
    check_cone(&map)?;
    tensor_dual_entry(left, Dual::new(Cone::new(map)), k, i, j)
}

// Of the leaf of a list, and the scalar 2 on it.
fn nested_leaf_entry<K: Cell>(a: &[K], k: usize, i: usize, j: usize) -> Result<u8, Fail> {
    check_list(a)?;
    let map = Scalar::new(Leaf::new(FaceIndex::over(a), FIELD), 2);
    Ok(nested_entry(Leaf::new(FaceIndex::over(a), FIELD), map, k, i, j)?)
}

#[test]
fn nested_layers_answer_as_their_definitions_say(rt: HostRuntime) -> Result<(), Fail> {
    for k in 0..12 {
        for i in 0..8 {
            for j in 0..8 {
                assert_eq!(rt;
                    nested_leaf_entry(&EDGE, k, i, j)?,
                    listed_entry(&OF_NESTED, (k, i, j))
                );
            }
        }
    }
    Ok(())
}

// Whether the tensor of the cones of two maps is refused, and how.
fn cones_tensor<M: ChainMap + Copy, N: ChainMap<F = M::F> + Copy>(
    m: M,
    n: N,
) -> Result<(), PileFault>
    requires left { M.ChainMap.sound m }
    requires right { N.ChainMap.sound n }
{
    check_cone(&m)?;
    check_cone(&n)?;
    check_tensor(&Cone::new(m), &Cone::new(n))
}

// The same of a cone on a cone, which has one degree more.
fn higher_cones_tensor<M: ChainMap + Copy>(m: M, n: M) -> Result<(), PileFault>
    requires left { M.ChainMap.sound m }
    requires right { M.ChainMap.sound n }
{
    check_cone(&m)?;
    cones_tensor(Scalar::new(Cone::new(m), 1), n)
}

// The tops 4 and 4 pass, and the tops 5 and 4 do not.
fn check_tops<K: Cell>(rt: &impl Abort, a: &[K]) -> Result<(), Fail> {
    check_list(a)?;
    let m = Scalar::new(Leaf::new(FaceIndex::over(a), FIELD), 1);
    let n = Scalar::new(Leaf::new(FaceIndex::over(a), FIELD), 1);
    cones_tensor(m, n)?;
    match higher_cones_tensor(m, n) {
        Ok(()) => Err(Fail::new("a top of 9")),
        Err(fault) => {
            assert_eq!(rt; fault.refusal(), Layer::Pile.refuses(8, 0));
            Ok(())
        }
    }
}

#[test]
fn top_of_8_passes_and_9_is_refused(rt: HostRuntime) -> Result<(), Fail> {
    check_tops(&rt, &EDGE)
}

// Vertex 1 does not stand in the list of vertex 0 alone.
#[test]
fn missing_cell_of_an_inclusion_is_refused(rt: HostRuntime) -> Result<(), Fail> {
    match check_inclusion(&FaceIndex::over(&EDGE), &FaceIndex::over(&EDGE[0..1])) {
        Ok(()) => Err(Fail::new("an inclusion")),
        Err(fault) => {
            assert_eq!(rt; fault.refusal(), Layer::Pile.refuses(16, 1));
            Ok(())
        }
    }
}
