// The unchecked scan of every row (docs/RULES.md, 'Whole frame'): Open and the rows in rising order, for input that nothing refuses, with one span table
// for all rows. What a row adds is crate `clusters`' own.
#![tactic(auto)]

ghost use Rattle.std.specs.Prelude.{◌≡◌, true, [], ◌*◌, ◌<◌, ◌≤◌, length};
ghost use Rattle.cell.specs.Cell.{extent_of};
ghost use Rattle.cell.specs.Reach.{sound_reach};
ghost use Rattle.base.specs.Refusals.{first_refusal};
ghost use Rattle.pick_lists.specs.Sound.{copies};
ghost use Rattle.pick_lists.specs.Input.{input_refusals, given};
ghost use Rattle.touch.specs.Touch.{copies_touch};
ghost use Rattle.span_table.specs.Inner.{Spans, SureMarks};
ghost use Rattle.cluster_table.specs.Table.{words, sound_table};
ghost use Rattle.clusters.specs.Answers.{row_table};
ghost use Rattle.scan.specs.Scan.{scanned};

use base::MAX_COPIES;
use cell::Cell;
use span_table::Marks;

// Row i as `clusters::scan_row`, given the marks of the cell and the span table; `flags` is scratch.
fn scan_boxed(
    cell: Cell,
    cutoff: f32,
    g: Marks,
    solutes: &[f32],
    starts: &[u32],
    picks: &[u32],
    room: &[f32],
    flags: &mut [u32],
    table: &mut [u32],
    i: usize,
)
    requires picks_value { (first_refusal (input_refusals (given cell solutes.now [] starts.now picks.now)) ≡ 0) × (sound_reach cutoff ≡ true) }
    requires starts_in_bounds { (words (copies starts.now) ≤ length table.old) × (sound_table (copies starts.now) table.old ≡ true) × (i < copies starts.now) }
    requires sure_marks { (SureMarks cutoff (extent_of cell) g) × (6 * copies starts.now ≤ length room.now) × (copies starts.now ≤ length flags.old) }
    requires spans { Spans solutes.now starts.now picks.now room.now }
    ensures { table.new ≡ row_table (copies_touch (given cell solutes.now [] starts.now picks.now) cutoff) (copies starts.now) i table.old }
{
    let n = starts.len() - 1;
    // Flags of copies up to i are of an earlier row, and not read.
    span_table::mark_apart(g, room, flags, n, i);
    for k in i + 1..n {
        if span_table::marked_touch(cell, cutoff, solutes, starts, picks, room, flags, i, k) {
            cluster_table::add_contact(table, n, i, k);
        }
    }
    cluster_table::set_mark(table, n, i);
}

// Opens the table and scans every row in rising order, with the span table.
fn scan_rows(
    cell: Cell,
    cutoff: f32,
    g: Marks,
    solutes: &[f32],
    starts: &[u32],
    picks: &[u32],
    room: &[f32],
    flags: &mut [u32],
    table: &mut [u32],
)
    requires picks_value { (first_refusal (input_refusals (given cell solutes.now [] starts.now picks.now)) ≡ 0) × (sound_reach cutoff ≡ true) }
    requires starts_in_bounds { words (copies starts.now) ≤ length table.old }
    requires sure_marks { (SureMarks cutoff (extent_of cell) g) × (6 * copies starts.now ≤ length room.now) × (copies starts.now ≤ length flags.old) }
    requires spans { Spans solutes.now starts.now picks.now room.now }
    ensures { table.new ≡ scanned (given cell solutes.now [] starts.now picks.now) cutoff table.old }
{
    let copies = starts.len() - 1;
    cluster_table::open_table(table, copies, numbers::class::to_bits(cutoff));
    for i in 0..copies {
        scan_boxed(
            cell, cutoff, g, solutes, starts, picks, room, flags, table, i,
        );
    }
}

// Opens the table and scans every row in rising order, for input that nothing refuses: the core of the whole frame. The span table is made once.
pub fn scan_all(
    cell: Cell,
    cutoff: f32,
    solutes: &[f32],
    starts: &[u32],
    picks: &[u32],
    table: &mut [u32],
)
    requires picks_value { (first_refusal (input_refusals (given cell solutes.now [] starts.now picks.now)) ≡ 0) × (sound_reach cutoff ≡ true) }
    requires starts_in_bounds { words (copies starts.now) ≤ length table.old }
    ensures { table.new ≡ scanned (given cell solutes.now [] starts.now picks.now) cutoff table.old }
{
    // What the arrays hold at first is never read.
    let mut room: [f32; MAX_COPIES * 6] = base::room(0.0);
    let mut flags: [u32; MAX_COPIES] = base::room(0);
    span_table::fill_spans(solutes, starts, picks, &mut room);
    let g = span_table::marks_of(cell, cutoff, &room, starts.len() - 1);
    scan_rows(
        cell, cutoff, g, solutes, starts, picks, &room, &mut flags, table,
    );
}
