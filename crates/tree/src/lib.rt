// Tree (docs/RULES.md, 'Octree'; the Rust's `MixingOctree::new`): the octree over the centers of the copies and the finite waters.
// Beside the lent tables a call keeps the wrapped points on its stack: 12,288 and 196,608 floats, and 65,536 words and bytes to split.
#![tactic(auto)]

ghost use Rattle.std.specs.Prelude.{◌≡◌, true, [], ◌*◌, ◌≤◌, length};
ghost use Rattle.base.specs.Limits.{max_atoms};
ghost use Rattle.base.specs.Refusals.{first_refusal, answer_of};
ghost use Rattle.pick_lists.specs.Sound.{sound_lists, copies};
ghost use Rattle.pick_lists.specs.Input.{given};
ghost use Rattle.octree.specs.Inner.{tree_room, built_answer, built_number};
ghost use Rattle.octree.specs.Tree.{tree_tables, tables_after};
ghost use Rattle.tree.specs.Tree.{test_refusals, tree_answer, tree_after};
ghost use Rattle.tree.specs.Inner.{tree_over, tree_on};

use base::Refused;
use bounds::OctreeBounds;
use cell::Cell;
use octree::TreeSize;

// The first of 1, 2, 3, 4, 15, 8 and 7 (for the order lists) that holds: what Tree and Report test before they write.
pub fn refusal(
    cell: Cell,
    solutes: &[f32],
    waters: &[f32],
    starts: &[u32],
    picks: &[u32],
    center_order: &[u32],
    water_order: &[u32],
) -> Result<(), Refused>
    ensures { result ≡ answer_of (first_refusal (test_refusals (given cell solutes.now waters.now starts.now picks.now) center_order.now water_order.now)) }
{
    pick_lists::input_refusal(cell, solutes, waters, starts, picks)?;
    if center_order.len() < starts.len() - 1 {
        return Err(Refused::Short);
    }
    // Waters that are not finite get no place.
    if water_order.len() < points::count_waters(waters) {
        return Err(Refused::Short);
    }
    Ok(())
}

// The tree over the first n centers and the first m waters. The order lists are used up to n and m.
fn tree_over(
    cell: Cell,
    centers: &[f32],
    n: usize,
    waters: &[f32],
    m: usize,
    center_order: &mut [u32],
    water_order: &mut [u32],
    records: &mut [u32],
    boxes: &mut [f32],
    limit: usize,
) -> Option<TreeSize>
    requires n_in_bounds { (n * 3 ≤ length centers.now) × (m * 3 ≤ length waters.now) × (n ≤ max_atoms) × (m ≤ max_atoms) }
    requires n_in_bounds_2 { (n ≤ length center_order.old) × (m ≤ length water_order.old) }
    ensures answer { result ≡ built_answer (tree_room records.old boxes.old limit) (tree_over cell centers.now n waters.now m) }
    ensures after { tree_tables center_order.new water_order.new records.new boxes.new
        ≡ tables_after (built_number result) (tree_over cell centers.now n waters.now m) n m (tree_tables center_order.old water_order.old records.old boxes.old) }
{
    tree_tables::build_tree(
        OctreeBounds::from(cell),
        &centers[..n * 3],
        &waters[..m * 3],
        &mut center_order[..n],
        &mut water_order[..m],
        records,
        boxes,
        limit,
    )
}

// The tree of sound pick lists over m wrapped waters: the core of Tree, which tests nothing again. `limit` is the room in a further table
// of the caller. The centers are kept in a local array of 12,288 floats.
pub fn tree_of(
    cell: Cell,
    solutes: &[f32],
    starts: &[u32],
    picks: &[u32],
    wrapped: &[f32],
    m: usize,
    center_order: &mut [u32],
    water_order: &mut [u32],
    records: &mut [u32],
    boxes: &mut [f32],
    limit: usize,
) -> Option<TreeSize>
    requires picks_value { sound_lists solutes.now starts.now picks.now ≡ true }
    requires m_in_bounds { (m * 3 ≤ length wrapped.now) × (m ≤ max_atoms) }
    requires starts_in_bounds { (copies starts.now ≤ length center_order.old) × (m ≤ length water_order.old) }
    ensures answer { result ≡ built_answer (tree_room records.old boxes.old limit) (tree_on (given cell solutes.now [] starts.now picks.now) wrapped.now m) }
    ensures after { tree_tables center_order.new water_order.new records.new boxes.new
        ≡ tables_after (built_number result) (tree_on (given cell solutes.now [] starts.now picks.now) wrapped.now m) (copies starts.now) m (tree_tables center_order.old water_order.old records.old boxes.old) }
{
    let mut centers = centers::center_room();
    points::put_centers(cell, solutes, starts, picks, &mut centers);
    tree_over(
        cell,
        &centers,
        starts.len() - 1,
        wrapped,
        m,
        center_order,
        water_order,
        records,
        boxes,
        limit,
    )
}

// Tree: 1, 2, 3, 4, 15, 8, 7, 13 in this order, or the number of nodes and the greatest depth.
pub fn tree(
    cell: Cell,
    solutes: &[f32],
    waters: &[f32],
    starts: &[u32],
    picks: &[u32],
    center_order: &mut [u32],
    water_order: &mut [u32],
    records: &mut [u32],
    boxes: &mut [f32],
) -> Result<TreeSize, Refused>
    ensures answer { result ≡ tree_answer (given cell solutes.now waters.now starts.now picks.now) (tree_tables center_order.old water_order.old records.old boxes.old) }
    ensures after { tree_tables center_order.new water_order.new records.new boxes.new
        ≡ tree_after (given cell solutes.now waters.now starts.now picks.now) (tree_tables center_order.old water_order.old records.old boxes.old) }
{
    refusal(
        cell,
        solutes,
        waters,
        starts,
        picks,
        center_order,
        water_order,
    )?;
    let mut wrapped = points::water_room();
    let m = points::put_waters(cell, waters, &mut wrapped);
    // No third table: the records alone.
    let limit = records.len() / 8;
    tree_of(
        cell,
        solutes,
        starts,
        picks,
        &wrapped,
        m,
        center_order,
        water_order,
        records,
        boxes,
        limit,
    )
    .ok_or(Refused::Nodes)
}
