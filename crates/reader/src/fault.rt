// The faults of a job that is read.
ghost use Rattle.reader.specs.Faults.{read_refusal};

use crate::record::Flaw;
use refusal::{Fault, Layer, Refusal};

// The longest job, in bytes.
pub const LONGEST_JOB: usize = 16384;

// Why a job cannot be read: it is too long, or the record at a byte is wrong.
#[derive(Clone, Copy, Debug)]
pub enum ReadFault {
    TooLong,
    Flawed(Flaw, usize),
}

impl Fault for ReadFault {
    ghost says = { read_refusal };

    fn refusal(&self) -> Refusal {
        match self {
            ReadFault::TooLong => Layer::Job.refuses(1, LONGEST_JOB),
            ReadFault::Flawed(flaw, at) => Layer::Job.refuses(*flaw as u8, *at),
        }
    }
}
