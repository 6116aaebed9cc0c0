// The faults of a job: one of its reading, one of its form, or that its report does not fit.
ghost use Rattle.std.specs.Prelude.{◌≡◌};
ghost use Rattle.job.specs.Faults.{job_refusal};
ghost use Rattle.forms.specs.declared.fault.FormFault.TheVariants as form;
ghost use Rattle.job.specs.declared.fault.JobFault.TheVariants.{Read, Form};

use complex::fault::PileFault;
use forms::fault::FormFault;
use index::LeafFault;
use reader::fault::ReadFault;
use refusal::{Fault, Layer, Refusal};

// Why a job gets no report.
#[derive(Clone, Copy, Debug)]
pub enum JobFault {
    Read(ReadFault),
    Form(FormFault),
    ReportTooLong(usize),
}

impl From<ReadFault> for JobFault {
    ghost from_gives = { λ e r. r ≡ Read e };

    fn from(e: ReadFault) -> JobFault {
        JobFault::Read(e)
    }
}

impl From<LeafFault> for JobFault {
    ghost from_gives = { λ e r. r ≡ Form (form.Leaf e) };

    fn from(e: LeafFault) -> JobFault {
        JobFault::Form(FormFault::Leaf(e))
    }
}

impl From<PileFault> for JobFault {
    ghost from_gives = { λ e r. r ≡ Form (form.Pile e) };

    fn from(e: PileFault) -> JobFault {
        JobFault::Form(FormFault::Pile(e))
    }
}

impl From<FormFault> for JobFault {
    ghost from_gives = { λ e r. r ≡ Form e };

    fn from(e: FormFault) -> JobFault {
        JobFault::Form(e)
    }
}

impl Fault for JobFault {
    ghost says = { job_refusal };

    fn refusal(&self) -> Refusal {
        match self {
            JobFault::Read(fault) => fault.refusal(),
            JobFault::Form(fault) => fault.refusal(),
            JobFault::ReportTooLong(room) => Layer::Job.refuses(18, *room),
        }
    }
}
