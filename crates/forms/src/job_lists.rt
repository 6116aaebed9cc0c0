// The three lists of a job.
ghost use Rattle.std.specs.Prelude.{◌≡◌, IfOk};
ghost use Rattle.cell.specs.Cubes.{cubes};
ghost use Rattle.maps.specs.InclusionTest.{inclusion_test};
ghost use Rattle.forms.specs.Counted.{lists_test};
ghost use Rattle.forms.specs.Forms.{Lists};
ghost use Rattle.forms.specs.Held.{HoldLists};
ghost use Rattle.forms.specs.Steps.{viewed};
ghost use Rattle.forms.specs.Tested.{tested};

use crate::closed::ClosedList;
use cell::{Cube, Simplex};
use complex::fault::PileFault;
use field::Field;
use index::{FaceIndex, LeafFault};
use lists::working::WorkingList;
use maps::ChainMap;
use maps::inclusion::{Inclusion, check_inclusion};

// The block, the pads and the drawing of a job, which no test has seen yet.
#[derive(Clone, Copy)]
pub struct JobLists<'a> {
    pub block: &'a WorkingList<Cube>,
    pub pads: &'a WorkingList<Cube>,
    pub drawing: &'a WorkingList<Simplex>,
}

// The same lists, which are closed.
#[derive(Drop)]
pub(crate) struct ClosedLists<'a> {
    pub(crate) block: ClosedList<'a, Cube>,
    pub(crate) pads: ClosedList<'a, Cube>,
    pub(crate) drawing: ClosedList<'a, Simplex>,
}

impl<'a> JobLists<'a> {
    // The lists, if they are closed, whatever the form: the block, the pads, the drawing.
    pub(crate) fn closed(&self) -> Result<ClosedLists<'a>, LeafFault>
        ensures tested { (l : Lists) → HoldLists self.now l → tested result ≡ lists_test l }
        ensures whole { (l : Lists) → HoldLists self.now l → IfOk result (λ c. viewed c ≡ l) }
    {
        let block = ClosedList::of(self.block)?;
        let pads = ClosedList::of(self.pads)?;
        let drawing = ClosedList::of(self.drawing)?;
        Ok(ClosedLists {
            block,
            pads,
            drawing,
        })
    }
}

impl<'a> ClosedLists<'a> {
    // The pads included in the block.
    pub(crate) fn pads_in_block<F: Field + Copy>(
        &self,
        field: F,
    ) -> Result<Inclusion<FaceIndex<'a, Cube>, F>, PileFault>
        ensures tested { tested result
            ≡ inclusion_test cubes (viewed self.now).pads (viewed self.now).block }
        ensures sound { IfOk result
            (λ m. ⟦<Inclusion<FaceIndex<'a, Cube>, F> as ChainMap>⟧.sound m) }
        ensures smaller { IfOk result (λ m. m.smaller.index.cells.now ≡ (viewed self.now).pads) }
        ensures larger { IfOk result (λ m. m.larger.index.cells.now ≡ (viewed self.now).block) }
    {
        check_inclusion(&self.pads.index(), &self.block.index())?;
        Ok(Inclusion::new(self.pads.leaf(field), self.block.leaf(field)))
    }
}
