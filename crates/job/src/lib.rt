// Answers a job by a report.
#![tactic(auto)]

ghost use Rattle.std.specs.Prelude.{◌≡◌, length, replicate, IfOk};
ghost use Rattle.forms.specs.FormLaw.{Accepted};
ghost use Rattle.forms.specs.Held.{listing};
ghost use Rattle.reader.specs.Sheets.{Contents, Shows};
ghost use Rattle.report.specs.Buffers.{overlay};
ghost use Rattle.report.specs.Degrees.{listed};
ghost use Rattle.job.specs.JobLaw.{OnlyTooMany, Reported};
ghost use Rattle.job.specs.Jobs.{answer, cells_of, fitting, lists_of, text_of, verdict, written};

pub mod fault;

use fault::JobFault;
use forms::count_cells;
use forms::fault::FormFault;
use forms::job_lists::JobLists;
use lists::block::block_of;
use reader::read::read;
use reader::sheet::Sheet;
use report::{ByDegree, write_report};

// The cells of each degree of the complex that the form names.
fn counts_of(sheet: &Sheet) -> Result<ByDegree, FormFault>
    ensures is { (k : Contents) → Shows sheet.now k → listing result ≡ cells_of k }
    ensures law { (k : Contents) → Shows sheet.now k →
        IfOk result (λ n. Accepted k.question.form (lists_of k) (listed n)) }
{
    let lists = JobLists {
        block: &block_of(&sheet.filled),
        pads: &block_of(&sheet.pads),
        drawing: &sheet.drawing,
    };
    count_cells(sheet.order, sheet.question.form, &lists)
}

fn write_lines(report: &mut [u8], sheet: &Sheet, counts: &ByDegree) -> usize
    ensures place { (k : Contents) → Shows sheet.now k →
        result ≡ length (text_of k (listed counts.now)) }
    ensures bytes { (k : Contents) → Shows sheet.now k →
        report.new ≡ overlay report.old (text_of k (listed counts.now)) }
{
    let order = u16::from(sheet.order);
    let form = u8::from(sheet.question.form);
    write_report(report, order as usize, form as usize, counts)
}

// The length of a report, if there is room for it.
fn fit(length: usize, room: usize) -> Result<usize, JobFault>
    ensures { result ≡ fitting room length }
{
    if length <= room {
        Ok(length)
    } else {
        Err(JobFault::ReportTooLong(room))
    }
}

// The report, as far as there is room for it; nothing is written before every other fault is ruled out.
fn answer_job(input: &[u8], report: &mut [u8]) -> Result<usize, JobFault>
    ensures answer { result ≡ answer (length report.old) (verdict input.now) }
    ensures report { report.new ≡ written report.old (verdict input.now) }
    ensures law { IfOk result (Reported input.now) }
    ensures layers { OnlyTooMany result }
{
    let sheet = read(input)?;
    let counts = counts_of(&sheet)?;
    let room = report.len();
    let length = write_lines(report, &sheet, &counts);
    fit(length, room)
}

// Answers a job: the length of the report that now stands at the front of the report buffer, or the first fault.
pub fn job(input: &[u8], table: &mut [u8], report: &mut [u8]) -> Result<usize, JobFault>
    ensures answer { result ≡ answer (length report.old) (verdict input.now) }
    ensures report { report.new ≡ written report.old (verdict input.now) }
    ensures table { table.new ≡ replicate (length table.old) 0 }
    ensures law { IfOk result (Reported input.now) }
    ensures layers { OnlyTooMany result }
{
    let answer = answer_job(input, report);
    table.fill(0);
    answer
}
