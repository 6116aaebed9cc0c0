// The complex of each form, over one field.
ghost use Rattle.std.specs.Prelude.{◌≡◌};
ghost use Rattle.forms.specs.Counted.{piled};
ghost use Rattle.forms.specs.Held.{listing};
ghost use Rattle.forms.specs.Steps.{viewed};

use crate::job_lists::ClosedLists;
use crate::layers::{cone_of, tensor_of};
use crate::measure::dims_of;
use complex::dual::Dual;
use complex::fault::PileFault;
use field::Field;
use maps::scalar::Scalar;
use reader::question::Form;
use report::ByDegree;

// The cells of each degree of the complex that the form names.
pub(crate) fn measure_form<F: Field + Copy>(
    form: Form,
    lists: &ClosedLists<'_>,
    field: F,
) -> Result<ByDegree, PileFault>
    ensures { listing result ≡ piled F.Field.codes form (viewed lists.now) }
{
    match form {
        Form::Block => Ok(dims_of(&lists.block.leaf(field))),
        Form::PadCone => Ok(dims_of(&cone_of(lists.pads_in_block(field)?)?)),
        Form::PadConeDual => Ok(dims_of(&Dual::new(cone_of(lists.pads_in_block(field)?)?))),
        Form::Drawing => Ok(dims_of(&lists.drawing.leaf(field))),
        Form::DrawingTensorBlock => Ok(dims_of(&tensor_of(
            lists.drawing.leaf(field),
            lists.block.leaf(field),
        )?)),
        Form::BlockCone => Ok(dims_of(&cone_of(Scalar::new(lists.block.leaf(field), 1))?)),
    }
}
