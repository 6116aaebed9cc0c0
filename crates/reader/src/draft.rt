// The sheet of a job while it is read.
ghost use Rattle.std.specs.Prelude.{◌≡◌, true, slice_set};
ghost use Rattle.reader.specs.Notes.{Notes, blank, noted};
ghost use Rattle.reader.specs.Reading.{finished, step};
ghost use Rattle.reader.specs.Sheets.{Reads};
ghost use Rattle.reader.specs.Steps.{Keeps, Steps, Takes};

use crate::fault::ReadFault;
use crate::record::{Flaw, Record};
use crate::sheet::Sheet;
use crate::split::next_record;
use crate::turn::Progress;
use cell::Simplex;
use lists::working::WorkingList;

// Where the job stands, the flags of the filled voxels and of the pads, and the drawn simplices so far.
#[derive(Drop)]
pub(crate) struct Draft {
    progress: Progress,
    filled: [bool; 512],
    pads: [bool; 512],
    drawing: WorkingList<Simplex>,
}

fn mark(flags: &mut [bool], n: usize)
    ensures { flags.new ≡ slice_set flags.old n true }
{
    // kept as a test and a write: of a slice after `get_mut` a proof knows the length and no element
    if n < flags.len() {
        flags[n] = true;
    }
}

impl Draft {
    // Before the first record.
    pub(crate) fn new() -> Draft
        ensures { Keeps result blank }
    {
        Draft {
            progress: Progress::start(),
            filled: [false; 512],
            pads: [false; 512],
            drawing: WorkingList::new(Simplex::Vertex(0)),
        }
    }

    // What a record adds to the block, the pads and the drawing.
    fn note(&mut self, record: &Record)
        ensures { (k : Notes) → Keeps self.old k → Keeps self.new (noted k «record».now) }
    {
        match *record {
            Record::Filled(voxel) => mark(&mut self.filled, voxel.key()),
            Record::Pad(voxel) => {
                mark(&mut self.filled, voxel.key());
                mark(&mut self.pads, voxel.key());
            }
            Record::Drawn(simplex) => self.drawing.push(simplex),
            _ => {}
        }
    }

    // A record after the ones before it: what is wrong with it, or what it says is noted.
    fn take(&mut self, record: &Record) -> Result<(), Flaw>
        ensures { (k : Notes) → Keeps self.old k → Takes k «record».now self.new result }
    {
        let progress = self.progress.judge(record)?;
        self.note(record);
        self.progress = progress;
        Ok(())
    }

    // The record at the front of the bytes; the bytes after it are left.
    pub(crate) fn step<'a>(&mut self, bytes: &'a [u8]) -> Result<&'a [u8], Flaw>
        ensures { (k : Notes) → Keeps self.old k → Steps (step k bytes.now) self.new result }
    {
        let (record, rest) = next_record(bytes)?;
        self.take(&record)?;
        Ok(rest)
    }

    // The whole sheet of a job of this length, if the field and the question have been read.
    pub(crate) fn into_sheet(self, whole: usize) -> Result<Sheet, ReadFault>
        ensures { (k : Notes) → Keeps self k → Reads (finished whole k) result }
    {
        let Draft {
            progress,
            filled,
            pads,
            drawing,
        } = self;
        match (progress.order, progress.asked) {
            (Some(order), Some(question)) => Ok(Sheet {
                progress,
                order,
                question,
                filled,
                pads,
                drawing,
            }),
            _ => Err(ReadFault::Flawed(Flaw::OutOfTurn, whole)),
        }
    }
}
