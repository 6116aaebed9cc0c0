// What a job asks: the complex that its form names, and a degree of it.
ghost use Rattle.std.specs.Prelude.{◌≡◌};
ghost use Rattle.reader.specs.Named.{form_named, form_number, question_named, top, top_of};

use crate::record::Flaw;

// The forms of a job, each by its number.
#[derive(Clone, Copy, PartialEq, Eq, Debug)]
pub enum Form {
    Block = 1,
    PadCone = 2,
    PadConeDual = 3,
    Drawing = 4,
    DrawingTensorBlock = 5,
    BlockCone = 6,
}

impl Form {
    // The top degree of the complex that the form names.
    pub fn top(self) -> u8
        ensures { result ≡ top self }
    {
        match self {
            Form::Block | Form::Drawing => 3,
            Form::PadCone | Form::PadConeDual | Form::BlockCone => 4,
            Form::DrawingTensorBlock => 6,
        }
    }
}

// The top of the form with a number, for a caller that has the number alone; absent for a number of no form.
pub fn top_of(number: u8) -> Option<u8>
    ensures { result ≡ top_of number }
{
    Form::try_from(number).ok().map(Form::top)
}

impl TryFrom<u8> for Form {
    type Error = Flaw;

    ghost try_from_gives = { λ number r. r ≡ form_named number };

    fn try_from(number: u8) -> Result<Form, Flaw> {
        match number {
            1 => Ok(Form::Block),
            2 => Ok(Form::PadCone),
            3 => Ok(Form::PadConeDual),
            4 => Ok(Form::Drawing),
            5 => Ok(Form::DrawingTensorBlock),
            6 => Ok(Form::BlockCone),
            _ => Err(Flaw::OutOfRange),
        }
    }
}

impl From<Form> for u8 {
    ghost from_gives = { λ form n. n ≡ form_number form };

    fn from(form: Form) -> u8 {
        form as u8
    }
}

// A form and a degree. From bytes none is made with a degree above the top of its form.
#[derive(Clone, Copy, PartialEq, Eq, Debug)]
pub struct Question {
    pub form: Form,
    pub degree: u8,
}

impl TryFrom<(u8, u8)> for Question {
    type Error = Flaw;

    ghost try_from_gives = { λ asked r. r ≡ question_named asked.0 asked.1 };

    fn try_from((number, degree): (u8, u8)) -> Result<Question, Flaw> {
        let form = Form::try_from(number)?;
        if degree <= form.top() {
            Ok(Question { form, degree })
        } else {
            Err(Flaw::OutOfRange)
        }
    }
}
