// Pick lists (docs/RULES.md, 'Selection' and refusal 8): whether they are sound, the picks of a copy, and the refusals that every call on them makes
// first.
#![tactic(auto)]

ghost use Rattle.std.specs.Prelude.{◌≡◌, true, ◌&&◌, ◌+◌, ◌*◌, ◌/◌, ◌≤◌, ◌<◌, ltb, length, get_or};
ghost use Rattle.base.specs.Refusals.{first_refusal, answer_of};
ghost use Rattle.pick_lists.specs.Sound.{finite_atom, rises as rises_of, all_finite, pick_list, sound_starts, sound_lists};
ghost use Rattle.pick_lists.specs.Inner.{finite_coordinates};
ghost use Rattle.pick_lists.specs.Input.{given, input_refusals};

use base::{MAX_ATOMS, MAX_COPIES, MAX_PICKS, Refused};
use cell::Cell;

// Whether solute atom k is finite.
pub fn finite_atom(xs: &[f32], k: usize) -> bool
    requires { k * 3 + 2 < length xs.now }
    ensures { result ≡ finite_atom xs.now k }
{
    cell::is_finite(cell::point(xs, k))
}

// Whether index i names a finite atom of the copy at base.
pub fn named(xs: &[f32], per: usize, base: usize, i: usize) -> bool
    requires { (base + per) * 3 ≤ length xs.now }
    ensures { result ≡ (ltb i per && finite_atom xs.now (base + i)) }
{
    if i < per {
        return finite_atom(xs, base + i);
    }
    false
}

// Whether each number is below the next. Here and below a loop without a branch lets a processor test several numbers at once.
fn rises(starts: &[u32]) -> bool
    ensures { result ≡ rises_of starts.now }
{
    let mut all = true;
    for &[a, b] in starts.array_windows::<2>() {
        all = all & (a < b);
    }
    all
}

// Whether every coordinate is finite.
fn coordinates_finite(xs: &[f32]) -> bool
    ensures { result ≡ finite_coordinates xs.now }
{
    let mut all = true;
    for &x in xs {
        all = all & numbers::class::is_finite32(x);
    }
    all
}

// Whether each pick names a finite atom, where every atom is finite: whether it names one.
fn all_named(xs: &[f32], picks: &[u32], atoms: u32) -> bool
    requires atoms_value { atoms ≡ length xs.now / 3 }
    requires xs_value { finite_coordinates xs.now ≡ true }
    ensures { result ≡ all_finite xs.now picks.now }
{
    let mut all = true;
    for &p in picks {
        all = all & (p < atoms);
    }
    all
}

// Whether each pick names a finite atom, an atom at a time. `all` in place of the loop takes a tenth longer.
fn each_finite(xs: &[f32], picks: &[u32]) -> bool
    ensures { result ≡ all_finite xs.now picks.now }
{
    let atoms = xs.len() / 3;
    for &p in picks {
        if !named(xs, atoms, 0, p as usize) {
            return false;
        }
    }
    true
}

// Whether each pick names a finite atom. Most lists have no coordinate that is not finite, and a pass over all of them is quicker than one
// over the picked ones.
fn all_finite(xs: &[f32], picks: &[u32]) -> bool
    ensures { result ≡ all_finite xs.now picks.now }
{
    if (xs.len() <= MAX_ATOMS * 3) & coordinates_finite(xs) {
        return all_named(xs, picks, (xs.len() / 3) as u32);
    }
    each_finite(xs, picks)
}

fn starts_sound(starts: &[u32], picks: usize) -> bool
    ensures { result ≡ sound_starts starts.now picks }
{
    if (starts.len() == 0) | (starts.len() > MAX_COPIES + 1) {
        return false;
    }
    let last = starts.len() - 1;
    (starts[0] == 0) & (rises(starts) & ((starts[last] as usize == picks) & (picks <= MAX_PICKS)))
}

// Whether starts and picks are sound pick lists of the solutes xs: what 8 asks for.
pub fn is_sound(xs: &[f32], starts: &[u32], picks: &[u32]) -> bool
    ensures { result ≡ sound_lists xs.now starts.now picks.now }
{
    if !starts_sound(starts, picks.len()) {
        return false;
    }
    all_finite(xs, picks)
}

// The first of 1, 2, 3, 4, 15 and 8 that holds. A call that takes no waters hands over an empty list.
pub fn input_refusal(
    cell: Cell,
    solutes: &[f32],
    waters: &[f32],
    starts: &[u32],
    picks: &[u32],
) -> Result<(), Refused>
    ensures { result ≡ answer_of (first_refusal (input_refusals (given cell solutes.now waters.now starts.now picks.now))) }
{
    frame_limits::frame_refusal(cell, solutes, waters)?;
    if !is_sound(solutes, starts, picks) {
        return Err(Refused::Lists);
    }
    Ok(())
}

// The picks of copy i; sound pick lists have what is asked.
pub fn copy_picks<'a>(starts: &[u32], picks: &'a [u32], i: usize) -> &'a [u32]
    requires { (i + 1 < length starts.now) × (get_or starts.now i 0 ≤ get_or starts.now (i + 1) 0) × (get_or starts.now (i + 1) 0 ≤ length picks.now) }
    ensures { result.now ≡ pick_list starts.now picks.now i }
{
    let a = starts[i] as usize;
    let b = starts[i + 1] as usize;
    &picks[a..b]
}
