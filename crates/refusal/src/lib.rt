// What is sent back in place of an answer: a number of the closed list, the layer that refused, and a place.
#![tactic(auto)]

ghost use Rattle.std.specs.Prelude.{◌≡◌, Some};
ghost use Rattle.refusal.specs.Words.{layer_word, refusal_text};
ghost use Rattle.refusal.specs.declared.Refusal.{Refusal};

use std::fmt;

// The layer in which a fault arose.
#[derive(Clone, Copy, PartialEq, Eq, Debug)]
pub enum Layer {
    Leaf,
    Pile,
    Table,
    Job,
}

// What is printed of a fault. A layer refuses by an enum of its own; here, of an enum only the number would be printed.
#[derive(Clone, Copy, PartialEq, Eq, Debug)]
pub struct Refusal {
    pub number: u8,
    pub layer: Layer,
    pub place: usize,
}

impl Layer {
    // The refusal by this layer.
    pub fn refuses(self, number: u8, place: usize) -> Refusal
        ensures { result ≡ record { number = number; layer = self; place = place } }
    {
        Refusal {
            number,
            layer: self,
            place,
        }
    }
}

impl fmt::Display for Layer {
    ghost output = { λ l. Some (layer_word l) };

    fn fmt<W: fmt::Write>(&self, f: &mut fmt::Formatter<W>) -> fmt::Result {
        match *self {
            Layer::Leaf => f.pad("leaf"),
            Layer::Pile => f.pad("pile"),
            Layer::Table => f.pad("table"),
            Layer::Job => f.pad("job"),
        }
    }
}

impl fmt::Display for Refusal {
    ghost output = { λ r. Some (refusal_text r) };

    fn fmt<W: fmt::Write>(&self, f: &mut fmt::Formatter<W>) -> fmt::Result {
        let number = self.number;
        let layer = self.layer;
        let place = self.place;
        write!(f, "refused {number} {layer} {place}")
    }
}

// A fault of one layer. What it says of itself is fixed for each of its cases.
pub trait Fault {
    ghost says: { Self → Refusal };

    fn refusal(&self) -> Refusal
        ensures { result ≡ says self.now };
}
