// Gates: exact rejection of separations on one axis. Where an axis of extent e has the gate from r to u, every separation from r to u, and
// from -u to -r, has a minimum image whose square is above the cutoff's, so that two points with it are not near (docs/RULES.md, 'Touch').
// A gate is tested once, at its ends, with the very functions of the definition; no error is estimated. Turn t has a gate of its own, from a
// little past t extents to a little before the next. Lengths are in angstrom.
#![tactic(auto)]

ghost use Rattle.std.specs.Prelude.{◌≡◌, Bool, true, ◌||◌, ℕ, ◌+◌, ◌<◌, ◌≤◌, Float};
ghost use Rattle.cell.specs.Cell.{extent_of};
ghost use Rattle.gates.specs.Inner.{turns_of, clear_right, clear_left, holds_at, short as short_of, ends_at, certified as certified_of, gate_at, gates_of, far_of, far_ends, by_images, images_of, guess_of, far_turns, SureAxis, SureTurns};

use cell::{Cell, Vec3};
use numbers::order::larger;

// The separations that one axis rejects: from r to u, and from -u to -r; none where u is below r.
#[derive(Clone, Copy)]
pub struct Gate {
    pub r: f32,
    pub u: f32,
}

// What each axis has of its own.
#[derive(Clone, Copy)]
pub struct PerAxis<T> {
    pub x: T,
    pub y: T,
    pub z: T,
}

// A test of an axis: by a gate, by images, or by the gates of many turns.
pub trait AxisTest: Copy {
    ghost rejects: { Self → Float → Float → Bool };

    // Whether every separation from lo to hi is rejected.
    fn far(self, lo: f32, hi: f32) -> bool
        ensures { result ≡ rejects self lo hi };
}

// ---- the gate of an axis at a turn

// How many extents the minimum image takes off.
pub fn turns(d: f32, e: f32) -> f32
    ensures { result ≡ turns_of d e }
{
    numbers::whole::round32(d / e)
}

// Whether the image of d is above zero, and its square above the cutoff's. The image is by the division, with no branch on d's size, which
// in an unwrapped frame would be guessed wrong on every other separation.
fn clear_right(cutoff: f32, d: f32, e: f32) -> bool
    ensures { result ≡ clear_right cutoff d e }
{
    let a = d - e * turns(d, e);
    (0.0 < a) & (cutoff * cutoff < a * a)
}

// Whether the image of d is below zero, and its square above the cutoff's.
fn clear_left(cutoff: f32, d: f32, e: f32) -> bool
    ensures { result ≡ clear_left cutoff d e }
{
    let a = d - e * turns(d, e);
    (a < 0.0) & (cutoff * cutoff < a * a)
}

// The test at the two ends l and m: what is between them takes off `least` at most, and is then right of l's image, or
// `most` at least, and is then left of m's.
fn holds(cutoff: f32, least: f32, most: f32, l: f32, m: f32, e: f32) -> bool
    ensures { result ≡ holds_at cutoff least most l m e }
{
    (least <= turns(l, e))
        & ((turns(m, e) <= most) & (clear_right(cutoff, l, e) & clear_left(cutoff, m, e)))
}

// Whether d is no longer than the separations that the theorem is about.
fn short(d: f32) -> bool
    ensures { result ≡ short_of d }
{
    (-2097152.0 <= d) & (d <= 2097152.0)
}

// How far past the cutoff a gate starts: a little, so that its tests hold there in spite of rounding.
const MARGIN: f32 = 0.05;

// From s past t extents to s before the next.
fn ends_at(s: f32, t: u32, e: f32) -> Gate
    requires { t ≤ 32768 }
    ensures { result ≡ ends_at s t e }
{
    let passed = e * t as f32;
    Gate {
        r: passed + s,
        u: passed + (e - s),
    }
}

// Whether the gate of turn t keeps its promise.
fn certified(cutoff: f32, t: u32, e: f32) -> bool
    requires { t ≤ 32768 }
    ensures { result ≡ certified_of cutoff t e }
{
    let g = ends_at(cutoff + MARGIN, t, e);
    short(g.r) & (short(g.u) & holds(cutoff, t as f32, (t + 1) as f32, g.r, g.u, e))
}

// The gate below one extent where its test holds, and one that rejects nothing where it does not: cells below about twice the cutoff.
fn gate_of(cutoff: f32, e: f32) -> Gate
    ensures { result ≡ gate_at cutoff 0 e }
{
    if certified(cutoff, 0, e) {
        return ends_at(cutoff + MARGIN, 0, e);
    }
    Gate { r: 1.0, u: 0.0 }
}

pub fn gates_of(cell: Cell, cutoff: f32) -> PerAxis<Gate>
    ensures { result ≡ gates_of cutoff (extent_of cell) }
{
    let e = cell::extent(cell);
    PerAxis {
        x: gate_of(cutoff, e.x),
        y: gate_of(cutoff, e.y),
        z: gate_of(cutoff, e.z),
    }
}

// ---- the test by a gate

impl AxisTest for Gate {
    ghost rejects = { far_of };

    // No branch turns on a sign.
    fn far(self, lo: f32, hi: f32) -> bool {
        (self.r <= larger(lo, -hi)) & (larger(hi, -lo) <= self.u)
    }
}

// ---- the test by images, at any turn

// Whether the image of d is clear of the cutoff on either side.
fn clear(cutoff: f32, d: f32, e: f32) -> bool
    ensures { result ≡ (clear_right cutoff d e || clear_left cutoff d e) }
{
    let a = d - e * turns(d, e);
    ((0.0 < a) | (a < 0.0)) & (cutoff * cutoff < a * a)
}

// Whether the images of lo and hi keep apart all that lies from lo to hi.
fn far_ends(cutoff: f32, e: f32, lo: f32, hi: f32) -> bool
    ensures { result ≡ far_ends cutoff e lo hi }
{
    let k = turns(lo, e);
    if turns(hi, e) <= k {
        return clear_right(cutoff, lo, e) | clear_left(cutoff, hi, e);
    }
    holds(cutoff, k, k + 1.0, lo, hi, e)
}

// An axis of extent e, for separations of any number of extents.
#[derive(Clone, Copy)]
pub struct AxisImages {
    pub cutoff: f32,
    pub e: f32,
}

impl AxisTest for AxisImages {
    ghost rejects = { by_images };

    fn far(self, lo: f32, hi: f32) -> bool {
        // As of two single picks: one division is enough.
        if lo == hi {
            return clear(self.cutoff, lo, self.e);
        }
        far_ends(self.cutoff, self.e, lo, hi)
    }
}

pub fn images_of(e: Vec3, cutoff: f32) -> PerAxis<AxisImages>
    ensures { result ≡ images_of cutoff e }
{
    PerAxis {
        x: AxisImages { cutoff, e: e.x },
        y: AxisImages { cutoff, e: e.y },
        z: AxisImages { cutoff, e: e.z },
    }
}

// ---- the test by the gates of many turns, for loops without a branch

// An axis whose first `top` turns have gates.
#[derive(Clone, Copy)]
pub struct AxisTurns {
    pub e: f32,
    pub inverse: f32,
    pub start: f32,
    pub top: u32,
}

// How many turns of an axis, one after the other, have gates that hold: `most` at most.
fn sure_turns(cutoff: f32, e: f32, most: u32) -> u32
    requires { most ≤ 32768 }
    ensures { (t : ℕ) → t < result → certified_of cutoff t e ≡ true }
{
    for t in 0..most {
        if !certified(cutoff, t, e) {
            return t;
        }
    }
    most
}

// The turns of an axis, `most` of them at most.
#[tactic(auto, unfolding(crate::specs::Inner::gate_start))]
fn axis_turns(cutoff: f32, e: f32, most: u32) -> AxisTurns
    requires { most ≤ 32768 }
    ensures { SureAxis cutoff e result }
{
    AxisTurns {
        e,
        inverse: 1.0 / e,
        start: cutoff + MARGIN,
        top: sure_turns(cutoff, e, most),
    }
}

pub fn turns_of(e: Vec3, cutoff: f32, most: u32) -> PerAxis<AxisTurns>
    requires { most ≤ 32768 }
    ensures { SureTurns cutoff e result }
{
    PerAxis {
        x: axis_turns(cutoff, e.x, most),
        y: axis_turns(cutoff, e.y, most),
        z: axis_turns(cutoff, e.z, most),
    }
}

// How many extents a separation takes off, or some other number: the whole part of a / e, read off the last digits of a sum that has no room for
// a fraction. What is rejected does not rest on it.
fn guess(inverse: f32, a: f32) -> u32
    ensures { result ≡ guess_of inverse a }
{
    numbers::class::to_bits(a * inverse - 0.5 + 12582912.0) & 32767
}

// One of the gates rejects.
impl AxisTest for AxisTurns {
    ghost rejects = { far_turns };

    fn far(self, lo: f32, hi: f32) -> bool {
        let t = guess(self.inverse, larger(lo, -hi));
        (t < self.top) & ends_at(self.start, t, self.e).far(lo, hi)
    }
}
