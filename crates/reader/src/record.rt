// The records of a job.
ghost use Rattle.std.specs.Prelude.{◌≡◌};
ghost use Rattle.reader.specs.Keys.{key_of, voxel_key};
ghost use Rattle.reader.specs.Turns.{group_of, may_follow};
ghost use Rattle.reader.specs.Values.{term_in_range, voxel_in_range};

use crate::order::FieldOrder;
use cell::{Cell, Simplex};

// A place in the block of voxels.
#[derive(Clone, Copy)]
pub struct Voxel {
    pub x: u8,
    pub y: u8,
    pub z: u8,
}

// A coefficient at the cell with a number.
#[derive(Clone, Copy)]
pub struct Term {
    pub cell: u16,
    pub coefficient: u8,
}

// What one record says, as its bytes are: its turn is judged before its values.
#[derive(Clone, Copy)]
pub enum Record {
    Field(u8),
    Filled(Voxel),
    Pad(Voxel),
    Drawn(Simplex),
    Question(u8, u8),
    First(Term),
    Second(Term),
}

// The groups of records, in the order in which they come; before the first record stands Start.
#[derive(Clone, Copy, PartialEq, Eq, PartialOrd, Ord)]
pub enum Group {
    Start,
    Field,
    Voxels,
    Drawing,
    Question,
    First,
    Second,
}

// What is wrong with a record, each by its number in a refusal.
#[derive(Clone, Copy, PartialEq, Eq, Debug)]
pub enum Flaw {
    UnknownKind = 2,
    CutShort = 3,
    OutOfRange = 4,
    OutOfTurn = 5,
    NotAbove = 6,
}

impl Voxel {
    // The number of the voxel in the order by z, y, x.
    pub fn key(&self) -> usize
        ensures { result ≡ voxel_key self.now }
    {
        64 * usize::from(self.z) + 8 * usize::from(self.y) + usize::from(self.x)
    }

    // Whether it stands in the block.
    pub(crate) fn is_in_range(&self) -> bool
        ensures { result ≡ voxel_in_range self.now }
    {
        self.x <= 7 && self.y <= 7 && self.z <= 7
    }
}

impl Term {
    // Whether the coefficient is one of the field, and not 0.
    pub(crate) fn is_in_range(&self, order: FieldOrder) -> bool
        ensures { result ≡ term_in_range order self.now }
    {
        0 < self.coefficient && u16::from(self.coefficient) < u16::from(order)
    }
}

impl Record {
    pub(crate) fn group(&self) -> Group
        ensures { result ≡ group_of self.now }
    {
        match self {
            Record::Field(_) => Group::Field,
            Record::Filled(_) | Record::Pad(_) => Group::Voxels,
            Record::Drawn(_) => Group::Drawing,
            Record::Question(_, _) => Group::Question,
            Record::First(_) => Group::First,
            Record::Second(_) => Group::Second,
        }
    }

    // What the records of one group ascend by.
    pub(crate) fn key(&self) -> u64
        ensures { result ≡ key_of self.now }
    {
        match self {
            Record::Field(_) | Record::Question(_, _) => 0,
            Record::Filled(voxel) | Record::Pad(voxel) => voxel.key() as u64,
            Record::Drawn(simplex) => simplex.rank(),
            Record::First(term) | Record::Second(term) => u64::from(term.cell),
        }
    }
}

impl Group {
    // Whether a record of the group next may come after one of this group.
    pub(crate) fn admits(self, next: Group) -> bool
        ensures { result ≡ may_follow self next }
    {
        let (earliest, latest) = match self {
            Group::Start => (Group::Field, Group::Field),
            Group::Field | Group::Voxels => (Group::Voxels, Group::Question),
            Group::Drawing => (Group::Drawing, Group::Question),
            Group::Question | Group::First => (Group::First, Group::Second),
            Group::Second => (Group::Second, Group::Second),
        };
        earliest <= next && next <= latest
    }
}
