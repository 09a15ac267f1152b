// Which atoms count (docs/RULES.md, 'Selection'): Select.
// Select passes over the copies twice: it counts before it writes, so that a refusal changes nothing.
#![tactic(auto)]

ghost use Rattle.std.specs.Prelude.{◌≡◌, ◌+◌, ◌*◌, ◌≤◌, ◌<◌, length};
ghost use Rattle.base.specs.Limits.{max_atoms, max_indices, max_picks};
ghost use Rattle.base.specs.Refusals.{first_refusal, answer_of};
ghost use Rattle.base.specs.Tables.{placed, over};
ghost use Rattle.selection.specs.Selection.{finite_atoms, indexed, picked, chunks, kept_copies, picks_of, starts_of, list_refusals, room_refusals, select_answer, starts_after, picks_after};

use base::{MAX_COPIES, MAX_INDICES, MAX_PICKS, Refused};

// How many copies are kept, and how many atoms are picked in them.
#[derive(Clone, Copy)]
pub struct Counted {
    pub copies: usize,
    pub picks: usize,
}

// How many whole chunks of `per` atoms there are: none where that is zero, and a trailing short one is dropped.
fn chunks(atoms: usize, per: usize) -> usize
    ensures { result ≡ chunks per atoms }
{
    atoms.checked_div(per).unwrap_or(0)
}

// Here and where they are written the indexed atoms and all atoms have a loop each: they differ in where an atom comes from, and one loop over an
// iterator would be no plainer.
fn count_indexed(xs: &[f32], per: usize, base: usize, indices: &[u32]) -> usize
    requires { (base + per) * 3 ≤ length xs.now }
    ensures { result ≡ length (indexed xs.now per base indices.now) }
{
    // A chain of `filter` and `count` takes half as long again.
    let mut n = 0;
    for &i in indices {
        if pick_lists::named(xs, per, base, i as usize) {
            n += 1;
        }
    }
    n
}

fn count_finite(xs: &[f32], per: usize, base: usize) -> usize
    requires { (base + per) * 3 ≤ length xs.now }
    ensures { result ≡ length (finite_atoms xs.now per base) }
{
    let mut n = 0;
    for k in 0..per {
        if pick_lists::finite_atom(xs, base + k) {
            n += 1;
        }
    }
    n
}

// How many atoms are picked of the copy at base.
fn count_copy(xs: &[f32], per: usize, base: usize, indices: &[u32]) -> usize
    requires { (base + per) * 3 ≤ length xs.now }
    ensures { result ≡ length (picked xs.now per indices.now base) }
{
    // Where the indices pick nothing, every finite atom counts.
    let n = count_indexed(xs, per, base, indices);
    if n > 0 {
        return n;
    }
    count_finite(xs, per, base)
}

// How many copies are kept and atoms picked. Within the limits on the lists neither sum wraps.
pub fn count(xs: &[f32], per: usize, indices: &[u32]) -> Counted
    requires { (length xs.now ≤ max_atoms * 3) × (length indices.now ≤ max_indices) }
    ensures { (result.copies ≡ length (kept_copies xs.now per indices.now)) × (result.picks ≡ length (picks_of (kept_copies xs.now per indices.now))) }
{
    let mut copies = 0;
    let mut picks = 0;
    for chunk in 0..chunks(xs.len() / 3, per) {
        let n = count_copy(xs, per, chunk * per, indices);
        // A copy with no pick vanishes.
        if n > 0 {
            copies += 1;
        }
        picks += n;
    }
    Counted { copies, picks }
}

fn put_indexed(
    xs: &[f32],
    per: usize,
    base: usize,
    indices: &[u32],
    picks: &mut [u32],
    at: usize,
) -> usize
    requires per_in_bounds { ((base + per) * 3 ≤ length xs.now) × (length xs.now ≤ max_atoms * 3) }
    requires indices_in_bounds { at + length (indexed xs.now per base indices.now) ≤ length picks.old }
    ensures value { result ≡ at + length (indexed xs.now per base indices.now) }
    ensures picks_after { picks.new ≡ placed at (indexed xs.now per base indices.now) picks.old }
{
    let mut end = at;
    for &i in indices {
        if pick_lists::named(xs, per, base, i as usize) {
            picks[end] = base as u32 + i;
            end += 1;
        }
    }
    end
}

fn put_finite(xs: &[f32], per: usize, base: usize, picks: &mut [u32], at: usize) -> usize
    requires per_in_bounds { ((base + per) * 3 ≤ length xs.now) × (length xs.now ≤ max_atoms * 3) }
    requires base_in_bounds { at + length (finite_atoms xs.now per base) ≤ length picks.old }
    ensures value { result ≡ at + length (finite_atoms xs.now per base) }
    ensures picks_after { picks.new ≡ placed at (finite_atoms xs.now per base) picks.old }
{
    let mut end = at;
    for k in 0..per {
        let atom = base + k;
        if pick_lists::finite_atom(xs, atom) {
            picks[end] = atom as u32;
            end += 1;
        }
    }
    end
}

// Writes what is picked of the copy at base, from entry `at` on, and answers where it ends.
fn put_copy(
    xs: &[f32],
    per: usize,
    base: usize,
    indices: &[u32],
    picks: &mut [u32],
    at: usize,
) -> usize
    requires per_in_bounds { ((base + per) * 3 ≤ length xs.now) × (length xs.now ≤ max_atoms * 3) }
    requires base_in_bounds { at + length (picked xs.now per indices.now base) ≤ length picks.old }
    ensures value { result ≡ at + length (picked xs.now per indices.now base) }
    ensures picks_after { picks.new ≡ placed at (picked xs.now per indices.now base) picks.old }
{
    // Where no index named a finite atom nothing was written yet.
    let end = put_indexed(xs, per, base, indices, picks, at);
    if end > at {
        return end;
    }
    put_finite(xs, per, base, picks, at)
}

// Writes both pick lists into tables that have room for them. A copy's picks end where the next one's start.
pub fn fill(xs: &[f32], per: usize, indices: &[u32], starts: &mut [u32], picks: &mut [u32])
    requires xs_len_bound { (length xs.now ≤ max_atoms * 3) × (length (picks_of (kept_copies xs.now per indices.now)) ≤ max_picks) }
    requires indices_in_bounds { (length (kept_copies xs.now per indices.now) < length starts.old) × (length (picks_of (kept_copies xs.now per indices.now)) ≤ length picks.old) }
    ensures starts_after { starts.new ≡ over (starts_of (kept_copies xs.now per indices.now)) starts.old }
    ensures picks_after { picks.new ≡ over (picks_of (kept_copies xs.now per indices.now)) picks.old }
{
    // Where the first copy's picks start, and with no copies where they end.
    starts[0] = 0;
    let mut copies = 0;
    let mut at = 0;
    for chunk in 0..chunks(xs.len() / 3, per) {
        let end = put_copy(xs, per, chunk * per, indices, picks, at);
        // A vanished copy has no start of its own.
        if at < end {
            copies += 1;
            starts[copies] = end as u32;
            at = end;
        }
    }
}

// The first of 1, 2 and 4 that holds.
fn list_refusal(solutes: &[f32], indices: &[u32]) -> Result<(), Refused>
    ensures { result ≡ answer_of (first_refusal (list_refusals solutes.now indices.now)) }
{
    if frame_limits::ragged(solutes) {
        return Err(Refused::Ragged);
    }
    if frame_limits::long(solutes) | (indices.len() > MAX_INDICES) {
        return Err(Refused::Long);
    }
    if frame_limits::coordinate_over(solutes) {
        return Err(Refused::Coordinate);
    }
    Ok(())
}

// The first of 5, 6 and 7 that holds, for these counts and tables of these lengths.
fn room_refusal(n: Counted, start_room: usize, pick_room: usize) -> Result<(), Refused>
    ensures { result ≡ answer_of (first_refusal (room_refusals n.copies n.picks start_room pick_room)) }
{
    if n.copies > MAX_COPIES {
        return Err(Refused::Copies);
    }
    if n.picks > MAX_PICKS {
        return Err(Refused::Picks);
    }
    if (start_room < n.copies + 1) | (pick_room < n.picks) {
        return Err(Refused::Short);
    }
    Ok(())
}

// Select: 1, 2, 4, 5, 6, 7 in this order, or both pick lists, and how much is in them. `per` is the atoms per copy.
pub fn select(
    solutes: &[f32],
    per: usize,
    indices: &[u32],
    starts: &mut [u32],
    picks: &mut [u32],
) -> Result<Counted, Refused>
    ensures answer { result ≡ select_answer solutes.now per indices.now starts.old picks.old }
    ensures starts_after { starts.new ≡ starts_after solutes.now per indices.now starts.old picks.old }
    ensures picks_after { picks.new ≡ picks_after solutes.now per indices.now starts.old picks.old }
{
    list_refusal(solutes, indices)?;
    // Both counts are known before the first write, so that a refusal leaves the tables.
    let n = count(solutes, per, indices);
    room_refusal(n, starts.len(), picks.len())?;
    fill(solutes, per, indices, starts, picks);
    Ok(n)
}
