// The cubes of a block of voxels.
ghost use Rattle.std.specs.Prelude.{◌≡◌, ◌≢◌, ℕ, ◌+◌, ◌%◌, ◌<◌, ◌≤◌, ◌⊎◌, true, false, [], ◌∷◌, filter};
ghost use Rattle.std.specs.Prelude.{Decides, IfSome, IfNone};
ghost use Rattle.lists.specs.Block.{Blank, belongs, block, filled, high, low};
ghost use Rattle.lists.specs.BlockLaw.{IsBlock};
ghost use Rattle.lists.specs.Ranks.{block_below, row};
ghost use Rattle.lists.specs.Working.{Grows, Holds};

use crate::working::WorkingList;
use cell::Cube;

fn low_of(n: u8) -> u8
    ensures { result ≡ low n }
{
    n.saturating_sub(1) / 2
}

fn high_of(n: u8) -> u8
    ensures { result ≡ high n }
{
    (n / 2).min(7)
}

// Whether a test holds of the lower or of the higher voxel along a coordinate.
fn either<F: Fn(u8) -> bool>(test: F, n: u8) -> bool
    requires { F.IsAlwaysCallable test }
    ensures { (F.post test (low n) true × (result ≡ true))
        ⊎ (F.post test (low n) false × F.post test (high n) result) }
{
    test(low_of(n)) || test(high_of(n))
}

fn is_filled(voxels: &[bool], x: u8, y: u8, z: u8) -> bool
    ensures { result ≡ filled voxels.now x y z }
{
    let at = 64 * z as usize + 8 * y as usize + x as usize;
    voxels.get(at).copied().unwrap_or(false)
}

// Whether a cube belongs to the block.
fn is_in_block(voxels: &[bool], cube: &Cube) -> bool
    ensures { result ≡ belongs voxels.now cube.now }
{
    let in_row = |j, k| either(|i| is_filled(voxels, i, j, k), cube.x);
    let in_layer = |k| either(|j| in_row(j, k), cube.y);
    either(in_layer, cube.z)
}

// The parity of x in the cubes of a degree with the coordinates y and z, if there are such cubes.
fn x_parity(degree: u8, y: u8, z: u8) -> Option<u8>
    ensures some { IfSome result (λ parity. (parity ≤ 1) × (parity + y % 2 + z % 2 ≡ degree)) }
    ensures none { IfNone result ((x : ℕ) → x % 2 + y % 2 + z % 2 ≢ degree) }
{
    degree
        .checked_sub(y % 2 + z % 2)
        .filter(|parity| *parity <= 1)
}

// Puts a cube into the list, if it belongs to the block.
fn choose(voxels: &[bool], cube: Cube, list: &mut WorkingList<Cube>)
    ensures { Grows list.old list.new (filter (belongs voxels.now) (cube ∷ [])) }
{
    if is_in_block(voxels, &cube) {
        list.push(cube);
    }
}

// Puts the cubes of a row of the block into the list: those of a degree, ascending along x.
fn choose_row(voxels: &[bool], degree: u8, y: u8, z: u8, list: &mut WorkingList<Cube>)
    requires within { (y < 17) × (z < 17) }
    requires before { Holds list.old (block_below (belongs voxels.now) (row degree y z)) }
    ensures { Holds list.new (block_below (belongs voxels.now) (row degree y z + 17)) }
{
    if let Some(parity) = x_parity(degree, y, z) {
        for half in 0..9 - parity {
            let x = 2 * half + parity;
            choose(voxels, Cube { x, y, z }, list);
        }
    }
}

// Whether no voxel is filled.
fn is_blank(voxels: &[bool]) -> bool
    ensures { Decides result (Blank voxels.now) }
{
    !voxels.contains(&true)
}

// The cubes of the block, ascending. Where no voxel is filled none is sought; past 1,024 cubes no further row is.
#[tactic(auto, using(crate::proofs::BlockLaws::is_block, crate::proofs::Blocks::holds_same))]
pub fn block_of(voxels: &[bool]) -> WorkingList<Cube>
    ensures holds { Holds result (block voxels.now) }
    ensures law { IsBlock voxels.now (block voxels.now) }
{
    let mut list = WorkingList::new(Cube { x: 0, y: 0, z: 0 });
    if is_blank(voxels) {
        return list;
    }
    for degree in 0..4 {
        for z in 0..17 {
            for y in 0..17 {
                if list.is_overfull() {
                    return list;
                }
                choose_row(voxels, degree, y, z, &mut list);
            }
        }
    }
    list
}
