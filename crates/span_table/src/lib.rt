// The boxes of all copies in one table, for the scan of a whole frame: a row's copies are flagged first, and the search looks at the others. The
// table has six numbers a copy: the least x of each copy, then the greatest, and the same for y and z. Lengths are in angstrom.
#![tactic(auto)]

ghost use Rattle.std.specs.Prelude.{◌≡◌, true, false, cond, [], ℕ, ◌+◌, ◌*◌, ◌<◌, ◌≤◌, length, get_or};
ghost use Rattle.std.specs.Float.{nan};
ghost use Rattle.base.specs.Limits.{max_copies};
ghost use Rattle.cell.specs.Cell.{extent_of};
ghost use Rattle.pick_lists.specs.Sound.{sound_lists, copies, pick_list};
ghost use Rattle.pick_lists.specs.Input.{given};
ghost use Rattle.touch.specs.Touch.{copies_touch};
ghost use Rattle.gates.specs.Inner.{tested};
ghost use Rattle.spans.specs.Inner.{least_of, greatest_of, apart_on};
ghost use Rattle.span_table.specs.Inner.{span_at, Spans, SureMarks, apart_marks, flags_after};

use cell::{Cell, Vec3};
use gates::{AxisTest, AxisTurns, Gate, PerAxis};
use spans::{Span, ends_of};

// One axis of the table: n least coordinates from entry `at` on, then n greatest ones.
fn fill_axis(xs: &[f32], starts: &[u32], picks: &[u32], table: &mut [f32], at: usize, axis: usize)
    requires picks_value { sound_lists xs.now starts.now picks.now ≡ true }
    requires axis_bound { (axis < 3) × (at + 2 * copies starts.now ≤ length table.old) }
    ensures least { (i : ℕ) → i < copies starts.now → get_or table.new (at + i) nan ≡ least_of xs.now axis (pick_list starts.now picks.now i) }
    ensures greatest { (i : ℕ) → i < copies starts.now → get_or table.new (at + copies starts.now + i) nan ≡ greatest_of xs.now axis (pick_list starts.now picks.now i) }
    ensures before { (m : ℕ) → m < at → get_or table.new m nan ≡ get_or table.old m nan }
    ensures past { (m : ℕ) → at + 2 * copies starts.now ≤ m → get_or table.new m nan ≡ get_or table.old m nan }
{
    let n = starts.len() - 1;
    for i in 0..n {
        let e = ends_of(xs, pick_lists::copy_picks(starts, picks, i), axis);
        table[at + i] = e.lo;
        table[at + n + i] = e.hi;
    }
}

// The table of all copies; entries past 6n keep their values.
pub fn fill_spans(xs: &[f32], starts: &[u32], picks: &[u32], table: &mut [f32])
    requires picks_value { sound_lists xs.now starts.now picks.now ≡ true }
    requires starts_in_bounds { 6 * copies starts.now ≤ length table.old }
    ensures table { Spans xs.now starts.now picks.now table.new }
    ensures past { (m : ℕ) → 6 * copies starts.now ≤ m → get_or table.new m nan ≡ get_or table.old m nan }
{
    let n = starts.len() - 1;
    fill_axis(xs, starts, picks, table, 0, 0);
    fill_axis(xs, starts, picks, table, 2 * n, 1);
    fill_axis(xs, starts, picks, table, 4 * n, 2);
}

// The box of copy i in the table of n copies.
fn span_at(table: &[f32], n: usize, i: usize) -> Span
    requires { (n ≤ max_copies) × (i < n) × (6 * n ≤ length table.now) }
    ensures { result ≡ span_at table.now n i }
{
    Span {
        low: Vec3 {
            x: table[i],
            y: table[2 * n + i],
            z: table[4 * n + i],
        },
        high: Vec3 {
            x: table[n + i],
            y: table[3 * n + i],
            z: table[5 * n + i],
        },
    }
}

// How the copies of a frame are told apart: by gates, or, where some stand over an extent apart, by the gates of many turns.
#[derive(Clone, Copy)]
pub enum Marks {
    Gates(PerAxis<Gate>),
    Turns(PerAxis<AxisTurns>),
}

// Whether some copy stands over an extent away from the first. It only chooses the quicker way, so that nothing is promised of it.
fn spread(e: Vec3, table: &[f32], n: usize) -> bool
    requires { (n ≤ max_copies) × (6 * n ≤ length table.now) }
{
    let mut out = false;
    for j in 0..n {
        out = out | spans::outside(e, span_at(table, n, 0), span_at(table, n, j));
    }
    out
}

// The marks of the cell at the cutoff, for the copies of the table.
pub fn marks_of(cell: Cell, cutoff: f32, table: &[f32], n: usize) -> Marks
    requires { (n ≤ max_copies) × (6 * n ≤ length table.now) }
    ensures { SureMarks cutoff (extent_of cell) result }
{
    let e = cell::extent(cell);
    if spread(e, table, n) {
        // One turn at most for every fourth copy: a small part of the time that the marks take.
        Marks::Turns(gates::turns_of(e, cutoff, (1 + n / 4) as u32))
    } else {
        Marks::Gates(gates::gates_of(cell, cutoff))
    }
}

// Which later copies the tests of the axes keep apart from copy i: 1 at j, or 0; the other flags keep their values. The loop has no branch.
fn mark_by<T: AxisTest>(g: PerAxis<T>, table: &[f32], flags: &mut [u32], n: usize, i: usize)
    requires { (n ≤ max_copies) × (i < n) × (6 * n ≤ length table.now) × (n ≤ length flags.old) }
    ensures { flags.new ≡ flags_after (apart_on T.rejects g) table.now n i flags.old }
{
    let b = span_at(table, n, i);
    for j in i + 1..n {
        flags[j] = u32::from(spans::apart(g, b, span_at(table, n, j)));
    }
}

// The same by the marks.
#[tactic(auto, unfolding(crate::specs::Inner::apart_marks))]
pub fn mark_apart(g: Marks, table: &[f32], flags: &mut [u32], n: usize, i: usize)
    requires { (n ≤ max_copies) × (i < n) × (6 * n ≤ length table.now) × (n ≤ length flags.old) }
    ensures { flags.new ≡ flags_after (apart_marks g) table.now n i flags.old }
{
    match g {
        Marks::Gates(g) => mark_by(g, table, flags, n, i),
        Marks::Turns(g) => mark_by(g, table, flags, n, i),
    }
}

// Whether copies i and j of sound pick lists touch at the cutoff, given the span table.
fn table_touch(
    cell: Cell,
    cutoff: f32,
    xs: &[f32],
    starts: &[u32],
    picks: &[u32],
    table: &[f32],
    i: usize,
    j: usize,
) -> bool
    requires picks_value { sound_lists xs.now starts.now picks.now ≡ true }
    requires xs_value { tested cell cutoff xs.now ≡ true }
    requires spans { Spans xs.now starts.now picks.now table.now }
    requires i_bound { (i < copies starts.now) × (j < copies starts.now) × (6 * copies starts.now ≤ length table.now) }
    ensures { result ≡ copies_touch (given cell xs.now [] starts.now picks.now) cutoff i j }
{
    let n = starts.len() - 1;
    let s = span_at(table, n, i);
    let c = span_at(table, n, j);
    spans::copies_touch(cell, cutoff, xs, starts, picks, s, c, i, j)
}

// The same. A copy j whose flag is set does not touch copy i.
pub fn marked_touch(
    cell: Cell,
    cutoff: f32,
    xs: &[f32],
    starts: &[u32],
    picks: &[u32],
    table: &[f32],
    flags: &[u32],
    i: usize,
    j: usize,
) -> bool
    requires picks_value { sound_lists xs.now starts.now picks.now ≡ true }
    requires xs_value { tested cell cutoff xs.now ≡ true }
    requires spans { Spans xs.now starts.now picks.now table.now }
    requires i_bound { (i < copies starts.now) × (j < copies starts.now) × (6 * copies starts.now ≤ length table.now) }
    requires j_in_bounds { (j < length flags.now) × ((get_or flags.now j 0 ≡ 0 → ⊥) → copies_touch (given cell xs.now [] starts.now picks.now) cutoff i j ≡ false) }
    ensures { result ≡ copies_touch (given cell xs.now [] starts.now picks.now) cutoff i j }
{
    if flags[j] != 0 {
        return false;
    }
    table_touch(cell, cutoff, xs, starts, picks, table, i, j)
}
