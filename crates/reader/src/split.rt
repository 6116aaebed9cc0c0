// Takes the first record off a job.
ghost use Rattle.std.specs.Prelude.{◌≡◌};
ghost use Rattle.reader.specs.Records.{Gives, kinds, split, term_of};
ghost use Rattle.reader.specs.Steps.{front_flaw};

use crate::record::{Flaw, Record, Term, Voxel};
use cell::Simplex;

// A cell's number in two bytes, high first, and a coefficient.
fn term(high: u8, low: u8, coefficient: u8) -> Term
    ensures { result ≡ term_of high low coefficient }
{
    Term {
        cell: u16::from_be_bytes([high, low]),
        coefficient,
    }
}

// Why no record of this kind stands there. The bytes of kind are those of the patterns below.
fn flaw_of(kind: u8) -> Flaw
    ensures { result ≡ front_flaw kinds kind }
{
    match kind {
        0x46 | 0x56 | 0x50 | 0x61 | 0x62 | 0x63 | 0x64 | 0x51 | 0x5a | 0x59 => Flaw::CutShort,
        _ => Flaw::UnknownKind,
    }
}

// The first record of a job, and the bytes after it.
pub fn next_record(job: &[u8]) -> Result<(Record, &[u8]), Flaw>
    ensures { Gives (split job.now) result }
{
    match job {
        [0x46, order, rest @ ..] => Ok((Record::Field(*order), rest)),
        [0x56, x, y, z, rest @ ..] => Ok((
            Record::Filled(Voxel {
                x: *x,
                y: *y,
                z: *z,
            }),
            rest,
        )),
        [0x50, x, y, z, rest @ ..] => Ok((
            Record::Pad(Voxel {
                x: *x,
                y: *y,
                z: *z,
            }),
            rest,
        )),
        [0x61, a, rest @ ..] => Ok((Record::Drawn(Simplex::Vertex(*a)), rest)),
        [0x62, a, b, rest @ ..] => Ok((Record::Drawn(Simplex::Edge(*a, *b)), rest)),
        [0x63, a, b, c, rest @ ..] => Ok((Record::Drawn(Simplex::Triangle(*a, *b, *c)), rest)),
        [0x64, a, b, c, d, rest @ ..] => Ok((
            Record::Drawn(Simplex::Tetrahedron(*a, *b, *c, *d)),
            rest,
        )),
        [0x51, form, degree, rest @ ..] => Ok((Record::Question(*form, *degree), rest)),
        [0x5a, high, low, code, rest @ ..] => Ok((Record::First(term(*high, *low, *code)), rest)),
        [0x59, high, low, code, rest @ ..] => Ok((Record::Second(term(*high, *low, *code)), rest)),
        [kind, ..] => Err(flaw_of(*kind)),
        [] => Err(Flaw::CutShort),
    }
}
