// Layers over a complex or a map: the limits are tested, and the layer is made.
ghost use Rattle.std.specs.Prelude.{◌≡◌, IfOk};
ghost use Rattle.linear.specs.Cone.{cone};
ghost use Rattle.linear.specs.Tensor.{tensor};
ghost use Rattle.forms.specs.Steps.{keeps_limits};
ghost use Rattle.forms.specs.Tested.{tested};

use complex::Complex;
use complex::fault::PileFault;
use maps::ChainMap;
use maps::cone::{Cone, check_cone};
use tensor::{Tensor, check_tensor};

// The cone of a chain map.
pub(crate) fn cone_of<M: ChainMap + Drop>(map: M) -> Result<Cone<M>, PileFault>
    requires { M.ChainMap.sound map }
    ensures tested { tested result
        ≡ keeps_limits (cone M.F.Field.codes (M.ChainMap.meaning map)) }
    ensures sound { IfOk result (λ c. ⟦<Cone<M> as Complex>⟧.sound c) }
    ensures map { IfOk result (λ c. c.map ≡ map) }
{
    check_cone(&map)?;
    Ok(Cone::new(map))
}

// The tensor of two complexes.
pub(crate) fn tensor_of<C: Complex + Drop, D: Complex<F = C::F> + Drop>(
    left: C,
    right: D,
) -> Result<Tensor<C, D>, PileFault>
    requires left { C.Complex.sound left }
    requires right { D.Complex.sound right }
    ensures tested { tested result ≡ keeps_limits
        (tensor C.F.Field.codes (C.Complex.meaning left) (D.Complex.meaning right)) }
    ensures sound { IfOk result (λ t. ⟦<Tensor<C, D> as Complex>⟧.sound t) }
    ensures left { IfOk result (λ t. t.left ≡ left) }
    ensures right { IfOk result (λ t. t.right ≡ right) }
{
    check_tensor(&left, &right)?;
    Ok(Tensor::new(left, right))
}
