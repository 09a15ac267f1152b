// Centers of copies (docs/RULES.md, 'Centers and dispersion'; the Rust's `solute_mol_center(s)`). f32 arithmetic, each operation rounded once.
#![tactic(auto)]

ghost use Rattle.std.specs.Prelude.{◌≡◌, true, [], ℕ, ◌+◌, ◌*◌, ◌<◌, ◌≤◌, length, get_or, replicate};
ghost use Rattle.base.specs.Limits.{max_copies, max_picks};
ghost use Rattle.floats.specs.Constants.{zero32};
ghost use Rattle.cell.specs.Cell.{extent_of, min_image, minus};
ghost use Rattle.base.specs.Tables.{over};
ghost use Rattle.pick_lists.specs.Sound.{sound_lists, copies, pick_list};
ghost use Rattle.pick_lists.specs.Input.{given};
ghost use Rattle.centers.specs.Centers.{plus, divided_by, center_of, centers_of, centers_answer, centers_after};

use base::{MAX_COPIES, Refused};
use cell::{Cell, Vec3};

fn add(a: Vec3, b: Vec3) -> Vec3
    ensures { result ≡ plus a b }
{
    Vec3 {
        x: a.x + b.x,
        y: a.y + b.y,
        z: a.z + b.z,
    }
}

fn divide(a: Vec3, n: usize) -> Vec3
    requires { n ≤ max_picks }
    ensures { result ≡ divided_by a n }
{
    let d = n as f32;
    Vec3 {
        x: a.x / d,
        y: a.y / d,
        z: a.z / d,
    }
}

// The point's image nearest to the anchor.
fn beside(cell: Cell, anchor: Vec3, p: Vec3) -> Vec3
    ensures { result ≡ plus anchor (min_image (extent_of cell) (minus p anchor)) }
{
    add(
        anchor,
        cell::min_image(cell::extent(cell), cell::separation(anchor, p)),
    )
}

// The center of a copy with these picks, of which there is one or more.
fn center(cell: Cell, xs: &[f32], picks: &[u32]) -> Vec3
    requires picks_nonzero { (0 < length picks.now) × (length picks.now ≤ max_picks) }
    requires by_index { (k : ℕ) → k < length picks.now → get_or picks.now k 0 * 3 + 2 < length xs.now }
    ensures { result ≡ center_of cell xs.now picks.now }
{
    // Each pick is moved beside the first, so that a copy across a face of the cell is whole.
    let anchor = cell::wrap(cell, cell::point(xs, picks[0] as usize));
    let mut sum = Vec3 {
        x: 0.0,
        y: 0.0,
        z: 0.0,
    };
    for &p in picks {
        sum = add(sum, beside(cell, anchor, cell::point(xs, p as usize)));
    }
    cell::wrap(cell, divide(sum, picks.len()))
}

// The center of copy i of sound pick lists.
fn copy_center(cell: Cell, xs: &[f32], starts: &[u32], picks: &[u32], i: usize) -> Vec3
    requires picks_value { sound_lists xs.now starts.now picks.now ≡ true }
    requires i_bound { i < copies starts.now }
    ensures { result ≡ center_of cell xs.now (pick_list starts.now picks.now i) }
{
    center(cell, xs, pick_lists::copy_picks(starts, picks, i))
}

// Writes x y z of each copy's center, in order, for sound pick lists: the core of Centers, which tests nothing again.
pub fn put_centers(cell: Cell, xs: &[f32], starts: &[u32], picks: &[u32], centers: &mut [f32])
    requires picks_value { sound_lists xs.now starts.now picks.now ≡ true }
    requires starts_in_bounds { copies starts.now * 3 ≤ length centers.old }
    ensures { centers.new ≡ over (centers_of (given cell xs.now [] starts.now picks.now)) centers.old }
{
    // Sound pick lists have at least one start.
    for i in 0..starts.len() - 1 {
        let m = copy_center(cell, xs, starts, picks, i);
        let at = i * 3;
        centers[at] = m.x;
        centers[at + 1] = m.y;
        centers[at + 2] = m.z;
    }
}

// Room for the centers of a frame, a local array of its caller (docs/DECISIONS.md, 'The gate').
pub type CenterRoom = [f32; MAX_COPIES * 3];

pub fn center_room() -> CenterRoom
    ensures { result ≡ replicate (max_copies * 3) zero32 }
{
    [0f32; MAX_COPIES * 3]
}

// Centers: 1, 2, 3, 4, 15, 8, 7 in this order, or x y z of each copy's center.
pub fn centers(
    cell: Cell,
    solutes: &[f32],
    starts: &[u32],
    picks: &[u32],
    centers: &mut [f32],
) -> Result<(), Refused>
    ensures answer { result ≡ centers_answer (given cell solutes.now [] starts.now picks.now) centers.old }
    ensures after { centers.new ≡ centers_after (given cell solutes.now [] starts.now picks.now) centers.old }
{
    pick_lists::input_refusal(cell, solutes, &[], starts, picks)?;
    if centers.len() < (starts.len() - 1) * 3 {
        return Err(Refused::Short);
    }
    put_centers(cell, solutes, starts, picks, centers);
    Ok(())
}
