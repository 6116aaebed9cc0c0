// Records judged by numbers, for a caller that has numbers alone: of a field the order, whatever it is, and of a question
// the two numbers. A job is judged by the types of `turn`, and needs none of this.
ghost use Rattle.std.specs.Prelude.{◌≡◌};
ghost use Rattle.reader.specs.Judging as typed;
ghost use Rattle.reader.specs.Numbers.{above, advanced, in_range, judged, order_of, started, term_in_range};
ghost use Rattle.reader.specs.NumbersLaw.{in_numbers, numbers_of};

use crate::order::FieldOrder;
use crate::question::Question;
use crate::record::{Flaw, Group, Record, Term};
use crate::turn;
use cell::Cell;

// What a record is judged by: the group and the key of the record before it, and what the records before it said of the
// order of the field and of the question (form and degree).
#[derive(Clone, Copy)]
pub struct Progress {
    pub group: Group,
    pub key: u64,
    pub order: u16,
    pub asked: (u8, u8),
}

// The order that a byte says; 0 says 256.
fn order_of(byte: u8) -> u16
    ensures { result ≡ order_of byte }
{
    if byte == 0 { 256 } else { u16::from(byte) }
}

// Whether the coefficient is below the order, and not 0.
fn term_in_range(order: u16, term: &Term) -> bool
    ensures { result ≡ term_in_range order term.now }
{
    0 < term.coefficient && u16::from(term.coefficient) < order
}

fn in_range(order: u16, record: &Record) -> bool
    ensures { result ≡ in_range order «record».now }
{
    match record {
        Record::Field(byte) => FieldOrder::try_from(*byte).is_ok(),
        Record::Filled(voxel) | Record::Pad(voxel) => voxel.is_in_range(),
        Record::Drawn(simplex) => simplex.valid(),
        Record::Question(form, degree) => Question::try_from((*form, *degree)).is_ok(),
        Record::First(term) | Record::Second(term) => term_in_range(order, term),
    }
}

impl Progress {
    // Before the first record.
    pub fn start() -> Progress
        ensures { result ≡ started }
    {
        Progress {
            group: Group::Start,
            key: 0,
            order: 0,
            asked: (0, 0),
        }
    }

    fn stands_below(&self, record: &Record) -> bool
        ensures { result ≡ above self.now «record».now }
    {
        self.group != record.group() || self.key < record.key()
    }

    // Where the job stands after the record.
    fn advanced(&self, record: &Record) -> Progress
        ensures { result ≡ advanced self.now «record».now }
    {
        let mut next = Progress {
            group: record.group(),
            key: record.key(),
            ..*self
        };
        match *record {
            Record::Field(byte) => next.order = order_of(byte),
            Record::Question(form, degree) => next.asked = (form, degree),
            _ => {}
        }
        next
    }

    // What is wrong with the record first, or where the job stands after it.
    pub fn judge(&self, record: &Record) -> Result<Progress, Flaw>
        ensures { result ≡ judged self.now «record».now }
    {
        if !self.group.admits(record.group()) {
            return Err(Flaw::OutOfTurn);
        }
        if !in_range(self.order, record) {
            return Err(Flaw::OutOfRange);
        }
        if !self.stands_below(record) {
            return Err(Flaw::NotAbove);
        }
        Ok(self.advanced(record))
    }
}

// By the numbers of a field and a question a record is judged as it is by the field and the question.
#[tactic(auto, using(crate::proofs::Agreeing::judged_agrees))]
pub fn numbers_judge_as_types_do(progress: &turn::Progress, record: &Record)
    ensures { judged (numbers_of progress.now) «record».now ≡ in_numbers (typed.judged progress.now «record».now) }
{}
