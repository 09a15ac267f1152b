// The C interface: every call of docs/RULES.md over numbers and slices, as include/baithrum.h declares it. The result is the refusal's
// number, 0 for success. The values of an answer go to the lent table `answers`, as many of them as it holds, floats as bits.
#![tactic(auto)]

ghost use Rattle.std.specs.Prelude.{◌≡◌, []};
ghost use Rattle.pick_lists.specs.Input.{given};
ghost use Rattle.selection.specs.Selection.{select_refusal, select_answer, select_values, starts_after, picks_after};
ghost use Rattle.clusters.specs.Answers.{open_refusal, open_after, row_refusal, row_after, close_refusal, close_answer, close_values};
ghost use Rattle.centers.specs.Centers.{centers_refusal, centers_after};
ghost use Rattle.dispersion.specs.Dispersion.{dispersion_refusal, dispersion_answer, dispersion_values};
ghost use Rattle.octree.specs.Tree.{tree_tables};
ghost use Rattle.tree.specs.Tree.{tree_refusal, tree_answer, tree_values, tree_after};
ghost use Rattle.report.specs.Report.{report_refusal, report_answer, report_values, report_after, leaves_after};
ghost use Rattle.mixing.specs.Frame.{frame_of, frame_tables, frame_refusal, frame_answer, frame_after};
ghost use Rattle.answers.specs.Interface.{cell_of, bits_of, answers_after, frame_words};

// Select answers the kept copies and the picks.
#[unsafe(no_mangle)]
pub extern "C" fn baithrum_select(
    solutes: &[f32],
    per: usize,
    indices: &[u32],
    starts: &mut [u32],
    picks: &mut [u32],
    answers: &mut [u32],
) -> u32
    ensures number { result ≡ select_refusal solutes.now per indices.now starts.old picks.old }
    ensures starts_after { starts.new ≡ starts_after solutes.now per indices.now starts.old picks.old }
    ensures picks_after { picks.new ≡ picks_after solutes.now per indices.now starts.old picks.old }
    ensures answers_after { answers.new ≡ answers_after (select_values (select_answer solutes.now per indices.now starts.old picks.old)) answers.old }
{
    answers::selected(
        selection::select(solutes, per, indices, starts, picks),
        answers,
    )
}

// Open has no answer but its number.
#[unsafe(no_mangle)]
pub extern "C" fn baithrum_open(table: &mut [u32], n: usize, cutoff: f32) -> u32
    ensures number { result ≡ open_refusal n cutoff table.old }
    ensures after { table.new ≡ open_after n cutoff table.old }
{
    answers::number(clusters::open(table, n, cutoff))
}

// Row has no answer but its number.
#[unsafe(no_mangle)]
pub extern "C" fn baithrum_row(
    lx: f32,
    ly: f32,
    lz: f32,
    hx: f32,
    hy: f32,
    hz: f32,
    cutoff: f32,
    solutes: &[f32],
    starts: &[u32],
    picks: &[u32],
    table: &mut [u32],
    i: usize,
) -> u32
    ensures number { result ≡ row_refusal (given (cell_of lx ly lz hx hy hz) solutes.now [] starts.now picks.now) cutoff table.old i }
    ensures after { table.new ≡ row_after (given (cell_of lx ly lz hx hy hz) solutes.now [] starts.now picks.now) cutoff table.old i }
{
    answers::number(clusters::row(
        answers::cell(lx, ly, lz, hx, hy, hz),
        cutoff,
        solutes,
        starts,
        picks,
        table,
        i,
    ))
}

// Close answers the largest, contacted and pair fractions.
#[unsafe(no_mangle)]
pub extern "C" fn baithrum_close(table: &[u32], answers: &mut [u32]) -> u32
    ensures number { result ≡ close_refusal table.now }
    ensures answers_after { answers.new ≡ answers_after (bits_of (close_values (close_answer table.now))) answers.old }
{
    answers::closing(clusters::close(table), answers)
}

// Centers has no answer but its number.
#[unsafe(no_mangle)]
pub extern "C" fn baithrum_centers(
    lx: f32,
    ly: f32,
    lz: f32,
    hx: f32,
    hy: f32,
    hz: f32,
    solutes: &[f32],
    starts: &[u32],
    picks: &[u32],
    centers: &mut [f32],
) -> u32
    ensures number { result ≡ centers_refusal (given (cell_of lx ly lz hx hy hz) solutes.now [] starts.now picks.now) centers.old }
    ensures after { centers.new ≡ centers_after (given (cell_of lx ly lz hx hy hz) solutes.now [] starts.now picks.now) centers.old }
{
    answers::number(centers::centers(
        answers::cell(lx, ly, lz, hx, hy, hz),
        solutes,
        starts,
        picks,
        centers,
    ))
}

// Dispersion answers the score.
#[unsafe(no_mangle)]
pub extern "C" fn baithrum_dispersion(
    lx: f32,
    ly: f32,
    lz: f32,
    hx: f32,
    hy: f32,
    hz: f32,
    solutes: &[f32],
    starts: &[u32],
    picks: &[u32],
    answers: &mut [u32],
) -> u32
    ensures number { result ≡ dispersion_refusal (given (cell_of lx ly lz hx hy hz) solutes.now [] starts.now picks.now) }
    ensures answers_after { answers.new ≡ answers_after (bits_of (dispersion_values (dispersion_answer (given (cell_of lx ly lz hx hy hz) solutes.now [] starts.now picks.now)))) answers.old }
{
    answers::dispersed(
        dispersion::dispersion(
            answers::cell(lx, ly, lz, hx, hy, hz),
            solutes,
            starts,
            picks,
        ),
        answers,
    )
}

// Tree answers the number of nodes and the greatest depth.
#[unsafe(no_mangle)]
pub extern "C" fn baithrum_tree(
    lx: f32,
    ly: f32,
    lz: f32,
    hx: f32,
    hy: f32,
    hz: f32,
    solutes: &[f32],
    waters: &[f32],
    starts: &[u32],
    picks: &[u32],
    center_order: &mut [u32],
    water_order: &mut [u32],
    records: &mut [u32],
    boxes: &mut [f32],
    answers: &mut [u32],
) -> u32
    ensures number { result ≡ tree_refusal (given (cell_of lx ly lz hx hy hz) solutes.now waters.now starts.now picks.now) (tree_tables center_order.old water_order.old records.old boxes.old) }
    ensures after { tree_tables center_order.new water_order.new records.new boxes.new
        ≡ tree_after (given (cell_of lx ly lz hx hy hz) solutes.now waters.now starts.now picks.now) (tree_tables center_order.old water_order.old records.old boxes.old) }
    ensures answers_after { answers.new ≡ answers_after (tree_values (tree_answer (given (cell_of lx ly lz hx hy hz) solutes.now waters.now starts.now picks.now) (tree_tables center_order.old water_order.old records.old boxes.old))) answers.old }
{
    answers::tree(
        tree::tree(
            answers::cell(lx, ly, lz, hx, hy, hz),
            solutes,
            waters,
            starts,
            picks,
            center_order,
            water_order,
            records,
            boxes,
        ),
        answers,
    )
}

// Report answers the nodes, the greatest depth, the reported leaves and the dry leaves.
#[unsafe(no_mangle)]
pub extern "C" fn baithrum_report(
    lx: f32,
    ly: f32,
    lz: f32,
    hx: f32,
    hy: f32,
    hz: f32,
    solutes: &[f32],
    waters: &[f32],
    starts: &[u32],
    picks: &[u32],
    center_order: &mut [u32],
    water_order: &mut [u32],
    records: &mut [u32],
    boxes: &mut [f32],
    leaves: &mut [u32],
    answers: &mut [u32],
) -> u32
    ensures number { result ≡ report_refusal (given (cell_of lx ly lz hx hy hz) solutes.now waters.now starts.now picks.now) (tree_tables center_order.old water_order.old records.old boxes.old) leaves.old }
    ensures after { tree_tables center_order.new water_order.new records.new boxes.new
        ≡ report_after (given (cell_of lx ly lz hx hy hz) solutes.now waters.now starts.now picks.now) (tree_tables center_order.old water_order.old records.old boxes.old) leaves.old }
    ensures reported { leaves.new ≡ leaves_after (given (cell_of lx ly lz hx hy hz) solutes.now waters.now starts.now picks.now) (tree_tables center_order.old water_order.old records.old boxes.old) leaves.old }
    ensures answers_after { answers.new ≡ answers_after (report_values (report_answer (given (cell_of lx ly lz hx hy hz) solutes.now waters.now starts.now picks.now) (tree_tables center_order.old water_order.old records.old boxes.old) leaves.old)) answers.old }
{
    answers::report(
        report::report(
            answers::cell(lx, ly, lz, hx, hy, hz),
            solutes,
            waters,
            starts,
            picks,
            center_order,
            water_order,
            records,
            boxes,
            leaves,
        ),
        answers,
    )
}

// The whole frame answers blank (1 or 0), copies, picks, the largest, contacted and pair fractions, the dispersion, nodes, greatest depth,
// reported leaves and dry leaves. A blank frame is no refusal: its result is 0.
#[unsafe(no_mangle)]
pub extern "C" fn baithrum_frame(
    lx: f32,
    ly: f32,
    lz: f32,
    hx: f32,
    hy: f32,
    hz: f32,
    cutoff: f32,
    solutes: &[f32],
    per: usize,
    indices: &[u32],
    waters: &[f32],
    starts: &mut [u32],
    picks: &mut [u32],
    clusters: &mut [u32],
    center_order: &mut [u32],
    water_order: &mut [u32],
    records: &mut [u32],
    boxes: &mut [f32],
    leaves: &mut [u32],
    answers: &mut [u32],
) -> u32
    ensures number { result ≡ frame_refusal (frame_of (cell_of lx ly lz hx hy hz) cutoff solutes.now per indices.now waters.now) (frame_tables starts.old picks.old clusters.old center_order.old water_order.old records.old boxes.old leaves.old) }
    ensures after { frame_tables starts.new picks.new clusters.new center_order.new water_order.new records.new boxes.new leaves.new
        ≡ frame_after (frame_of (cell_of lx ly lz hx hy hz) cutoff solutes.now per indices.now waters.now) (frame_tables starts.old picks.old clusters.old center_order.old water_order.old records.old boxes.old leaves.old) }
    ensures answers_after { answers.new ≡ answers_after (frame_words (frame_answer (frame_of (cell_of lx ly lz hx hy hz) cutoff solutes.now per indices.now waters.now) (frame_tables starts.old picks.old clusters.old center_order.old water_order.old records.old boxes.old leaves.old))) answers.old }
{
    answers::frame(
        mixing::frame(
            answers::cell(lx, ly, lz, hx, hy, hz),
            cutoff,
            solutes,
            per,
            indices,
            waters,
            starts,
            picks,
            clusters,
            center_order,
            water_order,
            records,
            boxes,
            leaves,
        ),
        answers,
    )
}
