// Cells with signed faces.
#![tactic(auto)]

ghost use Rattle.std.specs.Prelude.{◌≡◌, length};
ghost use Rattle.std.specs.List.{slice_get};
ghost use Rattle.cell.specs.Kind.{Kind, IsKind};

pub mod cube;
pub mod simplex;

pub use cube::Cube;
pub use simplex::Simplex;

// The sign of a face.
#[derive(Clone, Copy)]
pub enum Sign {
    Plus,
    Minus,
}

// A face of a cell, with its sign.
#[derive(Clone, Copy)]
pub struct Face<K> {
    pub cell: K,
    pub sign: Sign,
}

// A kind of cells.
pub trait Cell: Copy {
    ghost kind: { Kind Self };

    // Whether the numbers make a cell.
    fn valid(&self) -> bool
        ensures { result ≡ kind.valid self.now };

    fn degree(&self) -> usize
        ensures { result ≡ kind.degree self.now };

    // The place in the order of all cells of the kind, and the key by which cells are compared. There is no Ord
    // beside it: values whose numbers make no cell are compared too, and two of them may have one rank.
    fn rank(&self) -> u64
        ensures { result ≡ kind.rank self.now };

    fn face_count(&self) -> usize
        ensures { result ≡ length (kind.faces self.now) };

    // The face with the number f, counted from 0.
    fn face(&self, f: usize) -> Option<Face<Self>>
        ensures { result ≡ slice_get (kind.faces self.now) f };

    ghost cell: { IsKind kind };
}
