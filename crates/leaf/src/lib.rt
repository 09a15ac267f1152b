// The numbers of a leaf (docs/RULES.md, 'Leaf report'): shell, density, occupancy and partition score; the Rust's
// `water_count_in_expanded_bounds`, the ratio of `occupancy_count_score`, `reference_octree_leaf_volume` and `partition_size_score`. Every
// f32 operation rounds once, left to right. Lengths are in angstrom.
#![tactic(auto, unfolding(crate::specs::Leaf::half_side, crate::specs::Leaf::in_shell, crate::specs::Leaf::expanded, crate::specs::Leaf::room_volume, crate::specs::Leaf::density_of, crate::specs::Leaf::occupancy_of, crate::specs::Leaf::reference_leaves, crate::specs::Leaf::reference_volume, crate::specs::Leaf::partition_score, dispersion::specs::Dispersion::clamped, cell::specs::Cell::min_image, cell::specs::Cell::minus))]

ghost use Rattle.std.specs.Prelude.{◌≡◌, ◌*◌, ◌≤◌, length, IfSome};
ghost use Rattle.std.specs.Float.{binary32};
ghost use Rattle.std.specs.Float.Ieee.{sub};
ghost use Rattle.base.specs.Limits.{max_atoms};
ghost use Rattle.cell.specs.Cell.{image_axis};
ghost use Rattle.leaf.specs.Leaf.{half_side, within_half, in_shell, shell_from, expanded as expanded_of, room_volume, density_of, occupancy_of, occupancy_word, reference_leaves, reference_volume, partition_score};

use bounds::OctreeBounds;
use cell::{Cell, Vec3};
use numbers::order::{larger, smaller};

// How wet a box is: dry (no water seen), or observed waters over expected ones. Not an Option: document 01 names this form.
#[derive(Clone, Copy)]
pub enum Occupancy {
    Dry,
    Ratio(f32),
}

// The hydration shell's width in angstrom.
const SHELL: f32 = 4.2;

// Fewer waters than this are never expected.
const EXPECTED_FLOOR: f32 = 0.75;

// ---- the shell

// Half a side of the shell's box.
fn half_side(side: f32, whole: f32) -> f32
    ensures { result ≡ half_side side whole }
{
    smaller(side * 0.5 + SHELL, whole * 0.5)
}

// Whether |d| is at most h, by one comparison: of the two that -h <= d <= h takes, each would be a branch guessed wrong often.
#[tactic(auto, using(floats::proofs::Magnitudes::between), unfolding(floats::specs::Order::larger, crate::specs::Leaf::within_half))]
fn within(d: f32, h: f32) -> bool
    ensures { result ≡ within_half d h }
{
    larger(d, -d) <= h
}

// One axis: whether the minimum image from p, a center coordinate, to q is within half of the box's side with its shell.
fn axis_in_shell(p: f32, q: f32, side: f32, whole: f32) -> bool
    ensures { result ≡ within_half (image_axis (sub binary32 q p) whole) (half_side side whole) }
{
    within(cell::image_axis(q - p, whole), half_side(side, whole))
}

// Whether a wrapped water is in the shell of a box: its minimum image from the box center is within half on all axes. Most waters are
// outside on the first axis, and then no other is looked at.
fn in_shell(cell: Cell, b: OctreeBounds, w: Vec3) -> bool
    ensures { result ≡ in_shell cell b w }
{
    let e = cell::extent(cell);
    if !axis_in_shell(b.center.x, w.x, b.extent.x, e.x) {
        return false;
    }
    if !axis_in_shell(b.center.y, w.y, b.extent.y, e.y) {
        return false;
    }
    axis_in_shell(b.center.z, w.z, b.extent.z, e.z)
}

// The same, if the water is sure to be less than an extent from the box center on all axes: without a division, and without a branch on an
// axis that it is outside on.
fn fold_in_shell(cell: Cell, b: OctreeBounds, w: Vec3) -> Option<bool>
    ensures { IfSome result (λ inside. inside ≡ in_shell cell b w) }
{
    let e = cell::extent(cell);
    let d = cell::separation(b.center, w);
    let x = cell::fold_axis(d.x, e.x)?;
    let y = cell::fold_axis(d.y, e.y)?;
    let z = cell::fold_axis(d.z, e.z)?;
    let on_x = within(x, half_side(b.extent.x, e.x));
    let on_y = within(y, half_side(b.extent.y, e.y));
    let on_z = within(z, half_side(b.extent.z, e.z));
    Some(on_x & (on_y & on_z))
}

// Counts the waters in the shell of a box, if all are sure, with no division, and no branch on whether a water is inside, which would be
// guessed wrong often.
#[tactic(auto, using(crate::proofs::ShellCount::shell_more, crate::proofs::ShellCount::shell_none, crate::proofs::ShellCount::bool_few))]
fn count_folded(cell: Cell, b: OctreeBounds, waters: &[f32], m: usize) -> Option<usize>
    requires { m * 3 ≤ length waters.now }
    ensures { IfSome result (λ n. (n ≡ shell_from cell b waters.now m 0) × (n ≤ m)) }
{
    let mut n = 0;
    for i in 0..m {
        n += usize::from(fold_in_shell(cell, b, cell::point(waters, i))?);
    }
    Some(n)
}

// The same, a water at a time.
#[tactic(auto, using(crate::proofs::ShellCount::shell_more, crate::proofs::ShellCount::shell_none, crate::proofs::ShellCount::bool_few))]
fn count_each(cell: Cell, b: OctreeBounds, waters: &[f32], m: usize) -> usize
    requires { m * 3 ≤ length waters.now }
    ensures is { result ≡ shell_from cell b waters.now m 0 }
    ensures small { result ≤ m }
{
    let mut n = 0;
    for i in 0..m {
        n += usize::from(in_shell(cell, b, cell::point(waters, i)));
    }
    n
}

// How many of the first m waters are in the shell of a box. Wrapped waters are less than an extent from the center of a box in the cell, but
// for rounding, so that the second count is seldom made.
pub fn shell_waters(cell: Cell, b: OctreeBounds, waters: &[f32], m: usize) -> usize
    requires { (m * 3 ≤ length waters.now) × (m ≤ max_atoms) }
    ensures is { result ≡ shell_from cell b waters.now m 0 }
    ensures small { result ≤ m }
{
    match count_folded(cell, b, waters, m) {
        Some(n) => n,
        None => count_each(cell, b, waters, m),
    }
}

// The sides of a box with its shell.
pub fn expanded(cell: Cell, b: OctreeBounds) -> Vec3
    ensures { result ≡ expanded_of cell b }
{
    let e = cell::extent(cell);
    Vec3 {
        x: smaller(b.extent.x + 2.0 * SHELL, e.x),
        y: smaller(b.extent.y + 2.0 * SHELL, e.y),
        z: smaller(b.extent.z + 2.0 * SHELL, e.z),
    }
}

// ---- occupancy

// The cell's volume, EPSILON at least.
fn room_volume(cell: Cell) -> f32
    ensures { result ≡ room_volume cell }
{
    larger(cell::volume(cell::extent(cell)), f32::EPSILON)
}

// Waters in a cubic angstrom of the cell.
pub fn density(cell: Cell, waters: usize) -> f32
    requires { waters ≤ max_atoms }
    ensures { result ≡ density_of cell waters }
{
    waters as f32 / room_volume(cell)
}

// Dry, or observed over expected.
pub fn occupancy_of(observed: usize, expected: f32) -> Occupancy
    requires { observed ≤ max_atoms }
    ensures { result ≡ occupancy_of observed expected }
{
    if observed == 0 {
        return Occupancy::Dry;
    }
    Occupancy::Ratio(observed as f32 / larger(EXPECTED_FLOOR, expected))
}

// A word of the leaf table: the ratio's bits, 0 for dry.
pub fn occupancy_word(o: Occupancy) -> u32
    ensures { result ≡ occupancy_word o }
{
    match o {
        Occupancy::Dry => 0,
        Occupancy::Ratio(r) => numbers::class::to_bits(r),
    }
}

// ---- partition score

// The first of 1, 8, 64, 512, 4096 that is not below the copies.
fn reference_leaves(copies: usize) -> usize
    ensures is { result ≡ reference_leaves copies }
    ensures small { result ≤ 4096 }
{
    match copies {
        0..=1 => 1,
        2..=8 => 8,
        9..=64 => 64,
        65..=512 => 512,
        _ => 4096,
    }
}

// The volume that a leaf would have if the copies were spread evenly.
pub fn reference_volume(cell: Cell, copies: usize) -> f32
    ensures { result ≡ reference_volume cell copies }
{
    room_volume(cell) / reference_leaves(copies) as f32
}

// How large a leaf is against the reference, and how crowded. Only the first root is clamped.
pub fn partition_score(leaf_volume: f32, reference: f32, centers: usize) -> f32
    requires { centers ≤ max_atoms }
    ensures { result ≡ partition_score leaf_volume reference centers }
{
    if reference <= f32::EPSILON {
        return 0.0;
    }
    let size = roots::sqrt(leaf_volume / reference);
    let share = roots::sqrt(1.0 / centers as f32);
    size.clamp(0.0, 1.0) * share
}
