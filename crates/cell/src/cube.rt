// Cubes: the cells of a grid.
ghost use Rattle.std.specs.Prelude.{◌≡◌, ◌<◌};
ghost use Rattle.cell.specs.Cubes.{cubes};
ghost use Rattle.cell.specs.Steps.{moved, alternating};
ghost use Rattle.cell.specs.Orders.{CubesAscend};
ghost use Rattle.cell.specs.CubeLaws.{cubes_kind};

use crate::{Cell, Face, Sign};

// A cube by its coordinates, each from 0 to 16. It reaches along those that are odd.
#[derive(Clone, Copy)]
pub struct Cube {
    pub x: u8,
    pub y: u8,
    pub z: u8,
}

impl Cell for Cube {
    ghost kind = { cubes };

    ghost cell = { cubes_kind };

    fn valid(&self) -> bool {
        self.x <= 16 && self.y <= 16 && self.z <= 16
    }

    fn degree(&self) -> usize {
        (self.x % 2 + self.y % 2 + self.z % 2) as usize
    }

    fn rank(&self) -> u64 {
        let degree = self.degree() as u64;
        ((degree * 17 + self.z as u64) * 17 + self.y as u64) * 17 + self.x as u64
    }

    fn face_count(&self) -> usize {
        if self.valid() { 2 * self.degree() } else { 0 }
    }

    fn face(&self, f: usize) -> Option<Face<Cube>> {
        let x_end = 2 * (self.x % 2) as usize;
        let y_end = x_end + 2 * (self.y % 2) as usize;
        if f >= self.face_count() {
            return None;
        }
        let mut cell = *self;
        if f < x_end {
            cell.x = shifted(cell.x, f);
        } else if f < y_end {
            cell.y = shifted(cell.y, f);
        } else {
            cell.z = shifted(cell.z, f);
        }
        let sign = sign_at(f);
        Some(Face { cell, sign })
    }
}

// One more or less than n, by the face's number.
fn shifted(n: u8, f: usize) -> u8
    requires { (0 < n) × (n < 255) }
    ensures { result ≡ moved n f }
{
    if f % 2 == 0 { n + 1 } else { n - 1 }
}

// The sign of the face with the number f of any cube.
fn sign_at(f: usize) -> Sign
    ensures { result ≡ alternating f }
{
    if f / 2 % 2 == f % 2 {
        Sign::Plus
    } else {
        Sign::Minus
    }
}

// The order of cubes by rank.
pub fn cubes_ascend_by_degree_then_z_y_x()
    ensures { CubesAscend }
{}
