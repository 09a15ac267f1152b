// Clusters of touching copies (docs/RULES.md, 'Clusters'): Open, Row and Close over a lent cluster table (crate `cluster_table`). A scan may
// be split over several jobs: whatever order the rows come in, Close gives one answer (the order rule, specs/Order.antt).
#![tactic(auto)]

ghost use Rattle.std.specs.Prelude.{◌≡◌, true, [], ◌<◌, ◌≤◌, length};
ghost use Rattle.base.specs.Refusals.{first_refusal};
ghost use Rattle.cell.specs.Reach.{sound_reach};
ghost use Rattle.pick_lists.specs.Sound.{copies};
ghost use Rattle.pick_lists.specs.Input.{input_refusals, given};
ghost use Rattle.touch.specs.Touch.{copies_touch};
ghost use Rattle.cluster_table.specs.Table.{words, sound_table};
ghost use Rattle.clusters.specs.Answers.{row_table, open_answer, open_after, row_answer, row_after, close_answer};

use base::{MAX_COPIES, Refused};
use cell::Cell;
use cluster_table::{ClusterFractions, HEADER};

// ---- Open

// Open: 5, 16, 7 in this order, or a table of n copies. Its rows are for the cutoff, which it keeps.
pub fn open(table: &mut [u32], n: usize, cutoff: f32) -> Result<(), Refused>
    ensures answer { result ≡ open_answer n cutoff table.old }
    ensures after { table.new ≡ open_after n cutoff table.old }
{
    if n > MAX_COPIES {
        return Err(Refused::Copies);
    }
    if !cell::sound_reach(cutoff) {
        return Err(Refused::Reach);
    }
    if table.len() < HEADER + 3 * n {
        return Err(Refused::Short);
    }
    cluster_table::open_table(table, n, numbers::class::to_bits(cutoff));
    Ok(())
}

// ---- Row

// Row i of input that nothing refuses on a sound table: what Row's tests establish is asked, and nothing is tested again. The box of copy i settles
// most copies (crate `spans`).
pub fn scan_row(
    cell: Cell,
    cutoff: f32,
    solutes: &[f32],
    starts: &[u32],
    picks: &[u32],
    table: &mut [u32],
    i: usize,
)
    requires picks_value { (first_refusal (input_refusals (given cell solutes.now [] starts.now picks.now)) ≡ 0) × (sound_reach cutoff ≡ true) }
    requires starts_in_bounds { (words (copies starts.now) ≤ length table.old) × (sound_table (copies starts.now) table.old ≡ true) × (i < copies starts.now) }
    ensures { table.new ≡ row_table (copies_touch (given cell solutes.now [] starts.now picks.now) cutoff) (copies starts.now) i table.old }
{
    let n = starts.len() - 1;
    let e = cell::extent(cell);
    let g = gates::gates_of(cell, cutoff);
    let s = spans::copy_span(solutes, starts, picks, i);
    // Gates are quicker, and say nothing of copies that stand over an extent apart: from the first of those on, images decide.
    let mut wide = false;
    // Copies up to i had their own rows for this pair.
    let mut j = spans::next_close(g, solutes, starts, picks, s, i + 1);
    while j < n {
        let c = spans::copy_span(solutes, starts, picks, j);
        if spans::copies_touch(cell, cutoff, solutes, starts, picks, s, c, i, j) {
            cluster_table::add_contact(table, n, i, j);
        }
        wide = wide | spans::outside(e, s, c);
        j = if wide {
            spans::next_close(
                gates::images_of(e, cutoff),
                solutes,
                starts,
                picks,
                s,
                j + 1,
            )
        } else {
            spans::next_close(g, solutes, starts, picks, s, j + 1)
        };
    }
    cluster_table::set_mark(table, n, i);
}

// Row i: 1, 2, 3, 4, 15, 8, 16, 7, 9, 17, 10, 11 in this order, or the row's contacts at the cutoff, which must be the table's own.
pub fn row(
    cell: Cell,
    cutoff: f32,
    solutes: &[f32],
    starts: &[u32],
    picks: &[u32],
    table: &mut [u32],
    i: usize,
) -> Result<(), Refused>
    ensures answer { result ≡ row_answer (given cell solutes.now [] starts.now picks.now) cutoff table.old i }
    ensures after { table.new ≡ row_after (given cell solutes.now [] starts.now picks.now) cutoff table.old i }
{
    pick_lists::input_refusal(cell, solutes, &[], starts, picks)?;
    cluster_table::row_refusal(table, starts.len() - 1, cutoff, i)?;
    scan_row(cell, cutoff, solutes, starts, picks, table, i);
    Ok(())
}

// ---- Close

// Close: 7, 9, 12 in this order, or the three fractions; it writes nothing.
pub fn close(table: &[u32]) -> Result<ClusterFractions, Refused>
    ensures answer { result ≡ close_answer table.now }
{
    if table.len() < HEADER {
        return Err(Refused::Short);
    }
    // The table says its own number of copies; nothing else is given.
    let n = table[0] as usize;
    if table.len() < HEADER + 3 * n {
        return Err(Refused::Short);
    }
    if MAX_COPIES < n {
        return Err(Refused::Table);
    }
    if !cluster_table::is_sound(table, n) {
        return Err(Refused::Table);
    }
    if !cluster_table::all_marked(table, n) {
        return Err(Refused::RowLeft);
    }
    Ok(cluster_table::fractions(table, n))
}
