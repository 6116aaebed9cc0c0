// The faults of a form: one of a list of cells, or one of a layer.
ghost use Rattle.std.specs.Prelude.{◌≡◌};
ghost use Rattle.forms.specs.Faults.{form_refusal};
ghost use Rattle.forms.specs.declared.fault.FormFault.TheVariants.{Leaf, Pile};

use complex::fault::PileFault;
use index::LeafFault;
use refusal::{Fault, Refusal};

// Why no cells are counted.
#[derive(Clone, Copy, Debug)]
pub enum FormFault {
    Leaf(LeafFault),
    Pile(PileFault),
}

impl From<LeafFault> for FormFault {
    ghost from_gives = { λ e r. r ≡ Leaf e };

    fn from(e: LeafFault) -> FormFault {
        FormFault::Leaf(e)
    }
}

impl From<PileFault> for FormFault {
    ghost from_gives = { λ e r. r ≡ Pile e };

    fn from(e: PileFault) -> FormFault {
        FormFault::Pile(e)
    }
}

impl Fault for FormFault {
    ghost says = { form_refusal };

    fn refusal(&self) -> Refusal {
        match self {
            FormFault::Leaf(fault) => fault.refusal(),
            FormFault::Pile(fault) => fault.refusal(),
        }
    }
}
