// Simplices: the cells with up to four vertices.
ghost use Rattle.std.specs.Prelude.{◌≡◌, ◌^◌, ◌<◌, [], ◌∷◌};
ghost use Rattle.cell.specs.Digits.{numeral};
ghost use Rattle.cell.specs.Simplices.{simplices};
ghost use Rattle.cell.specs.Orders.{SimplicesAscend};
ghost use Rattle.cell.specs.SimplexLaws.{simplices_kind};

use crate::{Cell, Face, Sign};

// A simplex by its vertices, numbers from 0 to 63 that ascend.
#[derive(Clone, Copy)]
pub enum Simplex {
    Vertex(u8),
    Edge(u8, u8),
    Triangle(u8, u8, u8),
    Tetrahedron(u8, u8, u8, u8),
}

impl Cell for Simplex {
    ghost kind = { simplices };

    ghost cell = { simplices_kind };

    fn valid(&self) -> bool {
        match *self {
            Simplex::Vertex(a) => a < 64,
            Simplex::Edge(a, b) => a < b && b < 64,
            Simplex::Triangle(a, b, c) => a < b && b < c && c < 64,
            Simplex::Tetrahedron(a, b, c, d) => a < b && b < c && c < d && d < 64,
        }
    }

    fn degree(&self) -> usize {
        match *self {
            Simplex::Vertex(_) => 0,
            Simplex::Edge(_, _) => 1,
            Simplex::Triangle(_, _, _) => 2,
            Simplex::Tetrahedron(_, _, _, _) => 3,
        }
    }

    fn rank(&self) -> u64 {
        match *self {
            Simplex::Vertex(a) => add_digit(0, a),
            Simplex::Edge(a, b) => add_digit(add_digit(1, a), b),
            Simplex::Triangle(a, b, c) => add_digit(add_digit(add_digit(2, a), b), c),
            Simplex::Tetrahedron(a, b, c, d) => {
                add_digit(add_digit(add_digit(add_digit(3, a), b), c), d)
            }
        }
    }

    fn face_count(&self) -> usize {
        match *self {
            Simplex::Vertex(_) => 0,
            Simplex::Edge(_, _) => 2,
            Simplex::Triangle(_, _, _) => 3,
            Simplex::Tetrahedron(_, _, _, _) => 4,
        }
    }

    fn face(&self, f: usize) -> Option<Face<Simplex>> {
        let cell = match (*self, f) {
            (Simplex::Edge(_, b), 0) => Simplex::Vertex(b),
            (Simplex::Edge(a, _), 1) => Simplex::Vertex(a),
            (Simplex::Triangle(_, b, c), 0) => Simplex::Edge(b, c),
            (Simplex::Triangle(a, _, c), 1) => Simplex::Edge(a, c),
            (Simplex::Triangle(a, b, _), 2) => Simplex::Edge(a, b),
            (Simplex::Tetrahedron(_, b, c, d), 0) => Simplex::Triangle(b, c, d),
            (Simplex::Tetrahedron(a, _, c, d), 1) => Simplex::Triangle(a, c, d),
            (Simplex::Tetrahedron(a, b, _, d), 2) => Simplex::Triangle(a, b, d),
            (Simplex::Tetrahedron(a, b, c, _), 3) => Simplex::Triangle(a, b, c),
            _ => return None,
        };
        let sign = if f % 2 == 0 { Sign::Plus } else { Sign::Minus };
        Some(Face { cell, sign })
    }
}

// The numeral with one more digit, at the radix 64.
fn add_digit(n: u64, digit: u8) -> u64
    requires { n < 2 ^ 40 }
    ensures { result ≡ numeral 64 n (digit ∷ []) }
{
    n * 64 + digit as u64
}

// The order of simplices by rank.
pub fn simplices_ascend_by_degree_then_vertices()
    ensures { SimplicesAscend }
{}
