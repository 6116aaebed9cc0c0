// What the records of a job say, taken together.
use crate::order::FieldOrder;
use crate::question::Question;
use crate::turn::Progress;
use cell::Simplex;
use lists::working::WorkingList;

// Where the job stands after its last record, the field, the question, the flags of the filled voxels and of the pads,
// and the drawn simplices.
#[derive(Drop)]
pub struct Sheet {
    pub progress: Progress,
    pub order: FieldOrder,
    pub question: Question,
    pub filled: [bool; 512],
    pub pads: [bool; 512],
    pub drawing: WorkingList<Simplex>,
}
