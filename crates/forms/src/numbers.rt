// Forms and fields for a caller that has numbers alone. What a job says has been judged, and needs no number.
ghost use Rattle.std.specs.Prelude.{◌≡◌};
ghost use Rattle.forms.specs.Fields.{order_of};
ghost use Rattle.forms.specs.Forms.{form_of};
ghost use Rattle.reader.specs.declared.order.FieldOrder.{FieldOrder};

use reader::order::FieldOrder;
use reader::question::Form;

// The form of a number; a number of no form is taken for the drawing's.
pub fn form_of(number: u8) -> Form
    ensures { result ≡ form_of number }
{
    Form::try_from(number).unwrap_or(Form::Drawing)
}

// The field of an order; a number that is the order of no prime field is taken for 256.
pub fn order_of(number: u16) -> FieldOrder
    ensures { result ≡ order_of number }
{
    match u8::try_from(number) {
        Ok(byte) => FieldOrder::try_from(byte).unwrap_or(FieldOrder::TwoFiftySix),
        Err(_) => FieldOrder::TwoFiftySix,
    }
}

// What names a field: its order, or a number, which `order_of` takes for one.
pub trait NamesField {
    ghost named: { Self → FieldOrder };

    fn field_order(self) -> FieldOrder
        ensures { result ≡ named self };
}

impl NamesField for FieldOrder {
    ghost named = { λ order. order };

    fn field_order(self) -> FieldOrder {
        self
    }
}

impl NamesField for u16 {
    ghost named = { order_of };

    fn field_order(self) -> FieldOrder {
        order_of(self)
    }
}
