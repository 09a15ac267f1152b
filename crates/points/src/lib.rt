// The points of a tree (docs/RULES.md, 'Octree'): the centers of the copies, wrapped once more, and the finite waters, wrapped.
#![tactic(auto)]

ghost use Rattle.std.specs.Prelude.{◌≡◌, true, [], ◌*◌, ◌≤◌, length, replicate};
ghost use Rattle.floats.specs.Constants.{zero32};
ghost use Rattle.base.specs.Limits.{max_atoms};
ghost use Rattle.base.specs.Tables.{over};
ghost use Rattle.pick_lists.specs.Sound.{sound_lists, copies};
ghost use Rattle.pick_lists.specs.Input.{given};
ghost use Rattle.points.specs.Points.{wrap_from, tree_centers, tree_waters, finite_waters};

use base::MAX_ATOMS;
use cell::Cell;

// Wraps the first n points of a list in place.
fn wrap_all(cell: Cell, xs: &mut [f32], n: usize)
    requires { n * 3 ≤ length xs.old }
    ensures { xs.new ≡ over (wrap_from cell xs.old n 0) xs.old }
{
    for i in 0..n {
        let p = cell::wrap(cell, cell::point(xs, i));
        let at = i * 3;
        xs[at] = p.x;
        xs[at + 1] = p.y;
        xs[at + 2] = p.z;
    }
}

// Writes the tree's centers, those of the copies wrapped once more.
pub fn put_centers(cell: Cell, solutes: &[f32], starts: &[u32], picks: &[u32], out: &mut [f32])
    requires picks_value { sound_lists solutes.now starts.now picks.now ≡ true }
    requires starts_in_bounds { copies starts.now * 3 ≤ length out.old }
    ensures { out.new ≡ over (tree_centers (given cell solutes.now [] starts.now picks.now)) out.old }
{
    centers::put_centers(cell, solutes, starts, picks, out);
    wrap_all(cell, out, starts.len() - 1);
}

// Writes the finite waters, wrapped, and answers how many there are.
pub fn put_waters(cell: Cell, waters: &[f32], out: &mut [f32]) -> usize
    requires { length waters.now ≤ length out.old }
    ensures count { result ≡ finite_waters waters.now }
    ensures after { out.new ≡ over (tree_waters cell waters.now) out.old }
{
    let mut m = 0;
    for k in 0..waters.len() / 3 {
        let p = cell::point(waters, k);
        // Waters that are not finite are left out, and the others numbered without them.
        if cell::is_finite(p) {
            let w = cell::wrap(cell, p);
            let at = m * 3;
            out[at] = w.x;
            out[at + 1] = w.y;
            out[at + 2] = w.z;
            m += 1;
        }
    }
    m
}

// How many waters are finite.
pub fn count_waters(waters: &[f32]) -> usize
    ensures { result ≡ finite_waters waters.now }
{
    let mut m = 0;
    for k in 0..waters.len() / 3 {
        if cell::is_finite(cell::point(waters, k)) {
            m += 1;
        }
    }
    m
}

// Room for the waters of a frame, a local array of its caller (docs/DECISIONS.md, 'The gate').
pub type WaterRoom = [f32; MAX_ATOMS * 3];

pub fn water_room() -> WaterRoom
    ensures { result ≡ replicate (max_atoms * 3) zero32 }
{
    [0f32; MAX_ATOMS * 3]
}
