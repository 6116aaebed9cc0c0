// The faults of a layer, and the limits that every complex keeps.
ghost use Rattle.std.specs.Prelude.{◌≡◌};
ghost use Rattle.complex.specs.PileFaults.{pile_refusal};
ghost use Rattle.complex.specs.Limits.{Limited, limits_test};

use index::MOST_CELLS;
use refusal::{Fault, Layer, Refusal};

// The highest top of a complex.
const HIGHEST_TOP: usize = 8;

// Why a layer is not made.
#[derive(Clone, Copy, Debug)]
pub enum PileFault {
    TooMany,
    TopTooHigh,
    NotIncluded(usize),
}

impl Fault for PileFault {
    ghost says = { pile_refusal };

    fn refusal(&self) -> Refusal {
        match *self {
            PileFault::TooMany => Layer::Pile.refuses(8, MOST_CELLS),
            PileFault::TopTooHigh => Layer::Pile.refuses(8, 0),
            PileFault::NotIncluded(cell) => Layer::Pile.refuses(16, cell),
        }
    }
}

// Whether a complex with so many cells and this top keeps the limits, or which one it passes first.
pub fn check_limits(cells: usize, top: usize) -> Result<(), PileFault>
    ensures is { result ≡ limits_test cells top }
    ensures law { Limited cells top result }
{
    if cells > MOST_CELLS {
        return Err(PileFault::TooMany);
    }
    if top > HIGHEST_TOP {
        return Err(PileFault::TopTooHigh);
    }
    Ok(())
}
