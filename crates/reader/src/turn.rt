// Judges each record after the ones before it: its turn, its values, and that it stands above the one before.
ghost use Rattle.std.specs.Prelude.{◌≡◌};
ghost use Rattle.reader.specs.Judging.{above, judged, started};
ghost use Rattle.reader.specs.Steps.{advanced_in_range};

use crate::order::FieldOrder;
use crate::question::Question;
use crate::record::{Flaw, Group, Record};
use cell::Cell;

// What a record is judged by: the group and the key of the record before it, and the field and the question
// that the records before it named.
#[derive(Clone, Copy)]
pub struct Progress {
    pub group: Group,
    pub key: u64,
    pub order: Option<FieldOrder>,
    pub asked: Option<Question>,
}

impl Progress {
    // Before the first record.
    pub fn start() -> Progress
        ensures { result ≡ started }
    {
        Progress {
            group: Group::Start,
            key: 0,
            order: None,
            asked: None,
        }
    }

    fn stands_below(&self, record: &Record) -> bool
        ensures { result ≡ above self.now «record».now }
    {
        self.group != record.group() || self.key < record.key()
    }

    // Where the job stands after the record, if its values are in range.
    fn advanced(&self, record: &Record) -> Result<Progress, Flaw>
        ensures { result ≡ advanced_in_range self.now «record».now }
    {
        let mut next = Progress {
            group: record.group(),
            key: record.key(),
            ..*self
        };
        match *record {
            Record::Field(byte) => next.order = Some(FieldOrder::try_from(byte)?),
            Record::Question(form, degree) => {
                next.asked = Some(Question::try_from((form, degree))?);
            }
            Record::Filled(voxel) | Record::Pad(voxel) if voxel.is_in_range() => {}
            Record::Drawn(simplex) if simplex.valid() => {}
            Record::First(term) | Record::Second(term)
                if self.order.is_some_and(|order| term.is_in_range(order)) => {}
            _ => return Err(Flaw::OutOfRange),
        }
        Ok(next)
    }

    // What is wrong with the record first, or where the job stands after it.
    pub fn judge(&self, record: &Record) -> Result<Progress, Flaw>
        ensures { result ≡ judged self.now «record».now }
    {
        if !self.group.admits(record.group()) {
            return Err(Flaw::OutOfTurn);
        }
        let next = self.advanced(record)?;
        if self.stands_below(record) {
            Ok(next)
        } else {
            Err(Flaw::NotAbove)
        }
    }
}
