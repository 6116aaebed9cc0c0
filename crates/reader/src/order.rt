// The fields that a job can name, each by its order.
ghost use Rattle.std.specs.Prelude.{◌≡◌};
ghost use Rattle.reader.specs.Named.{elements, order_named};

use crate::record::Flaw;

#[derive(Clone, Copy, PartialEq, Eq, Debug)]
pub enum FieldOrder {
    Two = 2,
    Three = 3,
    Five = 5,
    Seven = 7,
    TwoFiftyOne = 251,
    TwoFiftySix = 256,
}

impl TryFrom<u8> for FieldOrder {
    type Error = Flaw;

    ghost try_from_gives = { λ byte r. r ≡ order_named byte };

    // One byte names an order; 0 names 256.
    fn try_from(byte: u8) -> Result<FieldOrder, Flaw> {
        match byte {
            2 => Ok(FieldOrder::Two),
            3 => Ok(FieldOrder::Three),
            5 => Ok(FieldOrder::Five),
            7 => Ok(FieldOrder::Seven),
            251 => Ok(FieldOrder::TwoFiftyOne),
            0 => Ok(FieldOrder::TwoFiftySix),
            _ => Err(Flaw::OutOfRange),
        }
    }
}

impl From<FieldOrder> for u16 {
    ghost from_gives = { λ order n. n ≡ elements order };

    fn from(order: FieldOrder) -> u16 {
        order as u16
    }
}
