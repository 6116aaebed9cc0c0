// A list of cells that is known to be closed.
ghost use Rattle.index.specs.Closed.{Closed};
ghost use Rattle.forms.specs.OneWay.{closed-prop};

use cell::Cell;
use complex::Complex;
use complex::leaf::Leaf;
use field::Field;
use index::{FaceIndex, LeafFault};
use lists::working::{WorkingList, check_working};

#[derive(Drop)]
pub(crate) struct ClosedList<'a, K: Cell> {
    cells: &'a [K],
    ghost closed: { Closed K.Cell.kind cells.now } by { closed-prop K.Cell.kind cells.now },
}

impl<'a, K: Cell> ClosedList<'a, K> {
    ghost use Rattle.std.specs.Prelude.{◌≡◌, List, IfOk};
    ghost use Rattle.index.specs.Test.{list_test};
    ghost use Rattle.lists.specs.Working.{Holds};
    ghost use Rattle.forms.specs.Tested.{tested};

    // The cells of a working list, if they are closed.
    pub(crate) fn of(list: &'a WorkingList<K>) -> Result<ClosedList<'a, K>, LeafFault>
        ensures tested { (cs : List K) → Holds list.now cs →
            tested result ≡ list_test K.Cell.kind cs }
        ensures whole { (cs : List K) → Holds list.now cs → IfOk result (λ c. c.cells.now ≡ cs) }
    {
        check_working(list)?;
        Ok(ClosedList {
            cells: list.cells(),
        })
    }

    pub(crate) fn index(&self) -> FaceIndex<'a, K>
        ensures { result.cells.now ≡ self.now.cells.now }
    {
        FaceIndex::over(self.cells)
    }

    pub(crate) fn leaf<F: Field>(&self, field: F) -> Leaf<FaceIndex<'a, K>, F>
        ensures cells { result.index.cells.now ≡ self.now.cells.now }
        ensures sound { ⟦<Leaf<FaceIndex<'a, K>, F> as Complex>⟧.sound result }
    {
        Leaf::new(self.index(), field)
    }
}
