// The leaf report (docs/RULES.md, Report): Report rebuilds the tree in the lent tables and fills a leaf table. Beside the tables it keeps
// what Tree keeps on its stack.
#![tactic(auto)]

ghost use Rattle.std.specs.Prelude.{◌≡◌, true, ◌≤◌, ◌*◌, length};
ghost use Rattle.base.specs.Limits.{max_atoms};
ghost use Rattle.base.specs.Refusals.{answer_number};
ghost use Rattle.pick_lists.specs.Sound.{sound_lists, copies};
ghost use Rattle.pick_lists.specs.Input.{given};
ghost use Rattle.octree.specs.Tree.{tree_tables};
ghost use Rattle.points.specs.Points.{finite_waters};
ghost use Rattle.tree.specs.Tree.{input_after};
ghost use Rattle.report.specs.Inner.{core_answer};
ghost use Rattle.report.specs.Report.{report_answer, report_after, leaves_by, leaves_after};

use base::Refused;
use cell::Cell;

// What Report answers: nodes, greatest depth, reported leaves and dry leaves.
#[derive(Clone, Copy)]
pub struct ReportCounts {
    pub nodes: usize,
    pub depth: usize,
    pub leaves: usize,
    pub dry: usize,
}

// The report of sound pick lists: the core of Report, which tests nothing again. It answers 13 at most. The waters are kept in a local
// array of 196,608 floats.
pub fn report_of(
    cell: Cell,
    solutes: &[f32],
    waters: &[f32],
    starts: &[u32],
    picks: &[u32],
    center_order: &mut [u32],
    water_order: &mut [u32],
    records: &mut [u32],
    boxes: &mut [f32],
    leaves: &mut [u32],
) -> Result<ReportCounts, Refused>
    requires picks_value { sound_lists solutes.now starts.now picks.now ≡ true }
    requires waters_len_bound { length waters.now ≤ max_atoms * 3 }
    requires starts_in_bounds { (copies starts.now ≤ length center_order.old) × (finite_waters waters.now ≤ length water_order.old) }
    ensures answer { result ≡ core_answer (given cell solutes.now waters.now starts.now picks.now) (tree_tables center_order.old water_order.old records.old boxes.old) leaves.old }
    ensures after { tree_tables center_order.new water_order.new records.new boxes.new
        ≡ input_after (answer_number result) (given cell solutes.now waters.now starts.now picks.now) (tree_tables center_order.old water_order.old records.old boxes.old) }
    ensures reported { leaves.new ≡ leaves_by (answer_number result) (given cell solutes.now waters.now starts.now picks.now) leaves.old }
{
    let mut wrapped = points::water_room();
    let m = points::put_waters(cell, waters, &mut wrapped);
    // The leaf table counts as a third node table for 13.
    let limit = leaves.len() / 8;
    let Some(size) = tree::tree_of(
        cell,
        solutes,
        starts,
        picks,
        &wrapped,
        m,
        center_order,
        water_order,
        records,
        boxes,
        limit,
    ) else {
        // 13: the builder has reset the other tables.
        leaves.fill(0);
        return Err(Refused::Nodes);
    };
    // The waters are those of the tree, wrapped and finite.
    let density = leaf::density(cell, m);
    let reference = leaf::reference_volume(cell, starts.len() - 1);
    let counts = leaf_table::put_leaves(
        cell, &wrapped, m, density, reference, records, boxes, size.nodes, leaves,
    );
    Ok(ReportCounts {
        nodes: size.nodes,
        depth: size.depth,
        leaves: counts.reported,
        dry: counts.dry,
    })
}

// Report: 1, 2, 3, 4, 15, 8, 7, 13 in this order, or the nodes, the greatest depth, the reported leaves and the dry leaves.
pub fn report(
    cell: Cell,
    solutes: &[f32],
    waters: &[f32],
    starts: &[u32],
    picks: &[u32],
    center_order: &mut [u32],
    water_order: &mut [u32],
    records: &mut [u32],
    boxes: &mut [f32],
    leaves: &mut [u32],
) -> Result<ReportCounts, Refused>
    ensures answer { result ≡ report_answer (given cell solutes.now waters.now starts.now picks.now) (tree_tables center_order.old water_order.old records.old boxes.old) leaves.old }
    ensures after { tree_tables center_order.new water_order.new records.new boxes.new
        ≡ report_after (given cell solutes.now waters.now starts.now picks.now) (tree_tables center_order.old water_order.old records.old boxes.old) leaves.old }
    ensures reported { leaves.new ≡ leaves_after (given cell solutes.now waters.now starts.now picks.now) (tree_tables center_order.old water_order.old records.old boxes.old) leaves.old }
{
    tree::refusal(
        cell,
        solutes,
        waters,
        starts,
        picks,
        center_order,
        water_order,
    )?;
    report_of(
        cell,
        solutes,
        waters,
        starts,
        picks,
        center_order,
        water_order,
        records,
        boxes,
        leaves,
    )
}
