// Reads a job record by record.
ghost use Rattle.reader.specs.JobLaw.{JobLaw};
ghost use Rattle.reader.specs.Reading.{read_job};
ghost use Rattle.reader.specs.Sheets.{Reads};

use crate::draft::Draft;
use crate::fault::{LONGEST_JOB, ReadFault};
use crate::sheet::Sheet;

// What a job says, or its first fault.
pub fn read(job: &[u8]) -> Result<Sheet, ReadFault>
    ensures is { Reads (read_job job.now) result }
    ensures law { JobLaw job.now }
{
    if job.len() > LONGEST_JOB {
        return Err(ReadFault::TooLong);
    }
    let mut draft = Draft::new();
    let mut rest = job;
    while !rest.is_empty() {
        let at = job.len() - rest.len();
        rest = draft
            .step(rest)
            .map_err(|flaw| ReadFault::Flawed(flaw, at))?;
    }
    draft.into_sheet(job.len())
}
