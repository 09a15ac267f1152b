// Boxes around the picks of a copy, and what crate `gates` says of two of them: copies whose boxes are kept apart do not touch, and none of their
// pairs of picks is looked at. Where they are not, all separations from one box to the other nearly always take off the same number of extents,
// and a search over the picks needs no division. Lengths are in angstrom.
#![tactic(auto)]

ghost use Rattle.std.specs.Prelude.{◌≡◌, true, cond, [], ℕ, ◌+◌, ◌-◌, ◌*◌, ◌<◌, ◌≤◌, length, get_or};
ghost use Rattle.cell.specs.Cell.{extent_of, point_at, finite_point};
ghost use Rattle.pick_lists.specs.Sound.{sound_lists, copies, pick_list};
ghost use Rattle.pick_lists.specs.Input.{given};
ghost use Rattle.touch.specs.Touch.{near as near_of, any_pair, copies_touch};
ghost use Rattle.gates.specs.Inner.{tested};
ghost use Rattle.spans.specs.Inner.{coordinate as coordinate_of, least_of, greatest_of, span_of, apart_on, outside_of, level_axis, level_of, clear_by, passed_over, over_axis, near_by, near_on, apart_from, first_past, FinitePicks};

use cell::{Cell, Vec3};
use gates::{AxisTest, PerAxis};

// ---- the box of some picks

// An axis is a number and not an enum: it is added into an index.
fn coordinate(xs: &[f32], p: u32, axis: usize) -> f32
    requires { (p * 3 + 2 < length xs.now) × (axis < 3) }
    ensures { result ≡ coordinate_of xs.now axis p }
{
    xs[p as usize * 3 + axis]
}

// What lies from lo to hi.
#[derive(Clone, Copy)]
pub struct Ends {
    pub lo: f32,
    pub hi: f32,
}

// The least and the greatest coordinate of the picks on an axis: 0, 1, 2 are x, y, z. For one pick the loop has no turn.
pub fn ends_of(xs: &[f32], a: &[u32], axis: usize) -> Ends
    requires a_nonzero { (0 < length a.now) × (axis < 3) }
    requires by_index { (k : ℕ) → k < length a.now → get_or a.now k 0 * 3 + 2 < length xs.now }
    ensures { (result.lo ≡ least_of xs.now axis a.now) × (result.hi ≡ greatest_of xs.now axis a.now) }
{
    let mut lo = coordinate(xs, a[0], axis);
    let mut hi = lo;
    for p in &a[1..] {
        let v = coordinate(xs, *p, axis);
        lo = numbers::order::smaller(lo, v);
        hi = numbers::order::larger(hi, v);
    }
    Ends { lo, hi }
}

// ---- two boxes

#[derive(Clone, Copy)]
pub struct Span {
    pub low: Vec3,
    pub high: Vec3,
}

// Whether the test of some axis keeps the boxes apart. All three are worked out, so that no branch turns on one of them.
#[tactic(auto, unfolding(crate::specs::Inner::apart_by))]
pub fn apart<T: AxisTest>(g: PerAxis<T>, b: Span, c: Span) -> bool
    ensures { result ≡ apart_on T.rejects g b c }
{
    g.x.far(c.low.x - b.high.x, c.high.x - b.low.x)
        | (g.y.far(c.low.y - b.high.y, c.high.y - b.low.y)
            | g.z.far(c.low.z - b.high.z, c.high.z - b.low.z))
}

// Whether the boxes stand over an extent apart, where gates say nothing.
pub fn outside(e: Vec3, b: Span, c: Span) -> bool
    ensures { result ≡ outside_of e b c }
{
    ((e.x < c.low.x - b.high.x) | (e.x < b.low.x - c.high.x))
        | (((e.y < c.low.y - b.high.y) | (e.y < b.low.y - c.high.y))
            | ((e.z < c.low.z - b.high.z) | (e.z < b.low.z - c.high.z)))
}

// ---- two boxes on a level

// On the axes x, y, z where it holds, every separation from one box to the other takes off the same number of extents: its image is the separation less
// `by`.
#[derive(Clone, Copy)]
pub struct Level {
    pub x: bool,
    pub y: bool,
    pub z: bool,
    pub by: Vec3,
}

fn level_axis(e: f32, lo: f32, hi: f32) -> bool
    ensures { result ≡ level_axis e lo hi }
{
    gates::turns(hi, e) <= gates::turns(lo, e)
}

// Copies that are not apart are nearly always on a level on all axes, as their boxes are small beside the cell; of a copy whose atoms were wrapped one by one
// the box may be as wide as the cell on some.
pub fn level_of(e: Vec3, b: Span, c: Span) -> Level
    ensures { result ≡ level_of e b c }
{
    Level {
        x: level_axis(e.x, c.low.x - b.high.x, c.high.x - b.low.x),
        y: level_axis(e.y, c.low.y - b.high.y, c.high.y - b.low.y),
        z: level_axis(e.z, c.low.z - b.high.z, c.high.z - b.low.z),
        by: Vec3 {
            x: e.x * gates::turns(c.low.x - b.high.x, e.x),
            y: e.y * gates::turns(c.low.y - b.high.y, e.y),
            z: e.z * gates::turns(c.low.z - b.high.z, e.z),
        },
    }
}

fn clear_by(level: bool, cutoff: f32, by: f32, lo: f32, hi: f32) -> bool
    ensures { result ≡ clear_by level cutoff by lo hi }
{
    let gap = numbers::order::larger(lo - by, -(hi - by));
    level & ((0.0 < gap) & (cutoff * cutoff < gap * gap))
}

// Whether the point is far from the whole box, on an axis of the level.
fn passed_over(cutoff: f32, level: Level, p: Vec3, c: Span) -> bool
    ensures { result ≡ passed_over cutoff level p c }
{
    clear_by(level.x, cutoff, level.by.x, c.low.x - p.x, c.high.x - p.x)
        | (clear_by(level.y, cutoff, level.by.y, c.low.y - p.y, c.high.y - p.y)
            | clear_by(level.z, cutoff, level.by.z, c.low.z - p.z, c.high.z - p.z))
}

// Whether the image of d is over the cutoff on an axis of extent e.
fn over_axis(cutoff: f32, d: f32, e: f32) -> bool
    ensures { result ≡ over_axis cutoff d e }
{
    let a = cell::image_axis(d, e);
    cutoff * cutoff < a * a
}

// Whether two points are at most the cutoff apart, wherever they are. Most pairs are settled by their first axis.
fn near_by(cutoff: f32, e: Vec3, p: Vec3, q: Vec3) -> bool
    ensures { result ≡ near_by cutoff e p q }
{
    let d = cell::separation(p, q);
    if over_axis(cutoff, d.x, e.x) {
        return false;
    }
    if over_axis(cutoff, d.y, e.y) {
        return false;
    }
    if over_axis(cutoff, d.z, e.z) {
        return false;
    }
    cell::distance_squared(e, p, q) <= cutoff * cutoff
}

// Whether two points are at most the cutoff apart. On a level there is no division, and no branch turns on a separation.
fn near_on(cutoff: f32, e: Vec3, level: Level, p: Vec3, q: Vec3) -> bool
    ensures { result ≡ near_on cutoff e level p q }
{
    if level.x & (level.y & level.z) {
        let by = level.by;
        return cell::magnitude_squared(cell::separation(by, cell::separation(p, q)))
            <= cutoff * cutoff;
    }
    near_by(cutoff, e, p, q)
}

// ---- two copies

// Where the search of a list starts: at its end, where the point is far from the list's box.
fn begin(cutoff: f32, level: Level, p: Vec3, c: Span, end: usize) -> usize
    ensures { result ≡ cond (passed_over cutoff level p c) end 0 }
{
    if passed_over(cutoff, level, p, c) {
        return end;
    }
    0
}

// Whether some pick of a and some pick of b, which lie in the box c, are near at the cutoff. A pick that is far from the box is passed over. The search
// leaves both lists at the first near pair, by the label that document 01 has for it.
pub fn lists_touch(
    cell: Cell,
    cutoff: f32,
    level: Level,
    xs: &[f32],
    a: &[u32],
    b: &[u32],
    c: Span,
) -> bool
    requires xs_value { (tested cell cutoff xs.now ≡ true) × (level ≡ level_of (extent_of cell) (span_of xs.now a.now) c) × (c ≡ span_of xs.now b.now) × (0 < length b.now) }
    requires finite_picks { FinitePicks xs.now a.now × FinitePicks xs.now b.now }
    ensures { result ≡ any_pair (near_of cutoff (extent_of cell) xs.now) a.now b.now }
{
    let e = cell::extent(cell);
    let mut found = false;
    'pairs: for i in a {
        let p = cell::point(xs, *i as usize);
        let first = begin(cutoff, level, p, c, b.len());
        for j in &b[first..] {
            if near_on(cutoff, e, level, p, cell::point(xs, *j as usize)) {
                found = true;
                break 'pairs;
            }
        }
    }
    found
}

// ---- the box of one copy, and the ends of the other, an axis at a time

// The box of some picks.
pub fn span_of(xs: &[f32], a: &[u32]) -> Span
    requires a_nonzero { 0 < length a.now }
    requires by_index { (k : ℕ) → k < length a.now → get_or a.now k 0 * 3 + 2 < length xs.now }
    ensures { result ≡ span_of xs.now a.now }
{
    let x = ends_of(xs, a, 0);
    let y = ends_of(xs, a, 1);
    let z = ends_of(xs, a, 2);
    Span {
        low: Vec3 {
            x: x.lo,
            y: y.lo,
            z: z.lo,
        },
        high: Vec3 {
            x: x.hi,
            y: y.hi,
            z: z.hi,
        },
    }
}

// Whether the test of some axis keeps the box s and the box of the picks b apart. An axis is worked out only where those before it do not decide.
fn spans_apart<T: AxisTest>(g: PerAxis<T>, xs: &[f32], b: &[u32], s: Span) -> bool
    requires b_nonzero { 0 < length b.now }
    requires by_index { (k : ℕ) → k < length b.now → get_or b.now k 0 * 3 + 2 < length xs.now }
    ensures { result ≡ apart_on T.rejects g s (span_of xs.now b.now) }
{
    let x = ends_of(xs, b, 0);
    if g.x.far(x.lo - s.high.x, x.hi - s.low.x) {
        return true;
    }
    let y = ends_of(xs, b, 1);
    if g.y.far(y.lo - s.high.y, y.hi - s.low.y) {
        return true;
    }
    let z = ends_of(xs, b, 2);
    g.z.far(z.lo - s.high.z, z.hi - s.low.z)
}

// Whether the test of some axis keeps the box s and the box of copy j of sound pick lists apart.
fn row_apart<T: AxisTest>(
    g: PerAxis<T>,
    xs: &[f32],
    starts: &[u32],
    picks: &[u32],
    s: Span,
    j: usize,
) -> bool
    requires picks_value { sound_lists xs.now starts.now picks.now ≡ true }
    requires j_bound { j < copies starts.now }
    ensures { result ≡ apart_from (apart_on T.rejects g) xs.now starts.now picks.now s j }
{
    spans_apart(g, xs, pick_lists::copy_picks(starts, picks, j), s)
}

// The first copy from j on that no axis keeps apart from the box s, or the number of copies. A loop of its own, so that what follows such a
// copy takes none of its registers.
pub fn next_close<T: AxisTest>(
    g: PerAxis<T>,
    xs: &[f32],
    starts: &[u32],
    picks: &[u32],
    s: Span,
    j: usize,
) -> usize
    requires picks_value { sound_lists xs.now starts.now picks.now ≡ true }
    requires j_bound { j ≤ copies starts.now }
    ensures { result ≡ first_past (apart_from (apart_on T.rejects g) xs.now starts.now picks.now s) (copies starts.now - j) j }
{
    let n = starts.len() - 1;
    for k in j..n {
        if !row_apart(g, xs, starts, picks, s, k) {
            return k;
        }
    }
    n
}

// The box of copy j of sound pick lists.
pub fn copy_span(xs: &[f32], starts: &[u32], picks: &[u32], j: usize) -> Span
    requires picks_value { sound_lists xs.now starts.now picks.now ≡ true }
    requires j_bound { j < copies starts.now }
    ensures { result ≡ span_of xs.now (pick_list starts.now picks.now j) }
{
    span_of(xs, pick_lists::copy_picks(starts, picks, j))
}

// ---- two lists, a part at a time

// How many picks a part has. The box of a long list is large, and few picks are far from it; the boxes of its parts are smaller.
const PART: usize = 64;

// Whether some pick of a, which lie in the box s, and some pick of b are near at the cutoff: by the parts of b.
fn part_touch(cell: Cell, cutoff: f32, xs: &[f32], a: &[u32], s: Span, b: &[u32]) -> bool
    requires xs_value { (tested cell cutoff xs.now ≡ true) × (s ≡ span_of xs.now a.now) }
    requires finite_picks { FinitePicks xs.now a.now × FinitePicks xs.now b.now }
    ensures { result ≡ any_pair (near_of cutoff (extent_of cell) xs.now) a.now b.now }
{
    let e = cell::extent(cell);
    for q in b.chunks(PART) {
        let c = span_of(xs, q);
        if lists_touch(cell, cutoff, level_of(e, s, c), xs, a, q, c) {
            return true;
        }
    }
    false
}

// The same by the parts of both lists.
fn parts_touch(cell: Cell, cutoff: f32, xs: &[f32], a: &[u32], b: &[u32]) -> bool
    requires xs_value { tested cell cutoff xs.now ≡ true }
    requires finite_picks { FinitePicks xs.now a.now × FinitePicks xs.now b.now }
    ensures { result ≡ any_pair (near_of cutoff (extent_of cell) xs.now) a.now b.now }
{
    for p in a.chunks(PART) {
        if part_touch(cell, cutoff, xs, p, span_of(xs, p), b) {
            return true;
        }
    }
    false
}

// The same for lists in the boxes s and c. Two lists of one part each have these boxes already.
fn boxed_touch(cell: Cell, cutoff: f32, xs: &[f32], a: &[u32], b: &[u32], s: Span, c: Span) -> bool
    requires xs_value { (tested cell cutoff xs.now ≡ true) × (s ≡ span_of xs.now a.now) × (c ≡ span_of xs.now b.now) }
    requires b_nonzero { 0 < length b.now }
    requires finite_picks { FinitePicks xs.now a.now × FinitePicks xs.now b.now }
    ensures { result ≡ any_pair (near_of cutoff (extent_of cell) xs.now) a.now b.now }
{
    if (a.len() <= PART) & (b.len() <= PART) {
        let level = level_of(cell::extent(cell), s, c);
        return lists_touch(cell, cutoff, level, xs, a, b, c);
    }
    parts_touch(cell, cutoff, xs, a, b)
}

// Whether copies i and j of sound pick lists, in the boxes s and c, touch at the cutoff.
pub fn copies_touch(
    cell: Cell,
    cutoff: f32,
    xs: &[f32],
    starts: &[u32],
    picks: &[u32],
    s: Span,
    c: Span,
    i: usize,
    j: usize,
) -> bool
    requires picks_value { sound_lists xs.now starts.now picks.now ≡ true }
    requires xs_value { tested cell cutoff xs.now ≡ true }
    requires i_bound { (i < copies starts.now) × (j < copies starts.now) }
    requires s_value { (s ≡ span_of xs.now (pick_list starts.now picks.now i)) × (c ≡ span_of xs.now (pick_list starts.now picks.now j)) }
    ensures { result ≡ copies_touch (given cell xs.now [] starts.now picks.now) cutoff i j }
{
    let a = pick_lists::copy_picks(starts, picks, i);
    let b = pick_lists::copy_picks(starts, picks, j);
    boxed_touch(cell, cutoff, xs, a, b, s, c)
}
