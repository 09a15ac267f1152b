// The whole tree of a frame in lent tables (docs/RULES.md, 'Octree' and 13): `build_tree` rearranges two order lists and fills two node tables; it
// tests nothing, its caller does.
#![tactic(auto)]

ghost use Rattle.std.specs.Prelude.{◌≡◌, length};
ghost use Rattle.octree.specs.Inner.{Numbered, tree_room, built_answer, built_number};
ghost use Rattle.octree.specs.Tree.{tree_of, tree_tables, tables_after};

use base::MAX_ATOMS;
use bounds::OctreeBounds;
use division::MAX_DEPTH;
use octree::TreeSize;
use octree::build::build;

// A node at each depth for each center and each water: no tree has more.
const MOST_NODES: usize = (MAX_DEPTH + 1) * (2 * MAX_ATOMS);

// Builds the tree of a box with these centers and waters, x y z in turn. A node table is too small where it has fewer whole records
// than the tree has nodes; `limit` is the room in a further table of the caller.
pub fn build_tree(
    bounds: OctreeBounds,
    centers: &[f32],
    waters: &[f32],
    center_order: &mut [u32],
    water_order: &mut [u32],
    records: &mut [u32],
    boxes: &mut [f32],
    limit: usize,
) -> Option<TreeSize>
    requires { Numbered centers.now center_order.old × Numbered waters.now water_order.old }
    ensures answer { result ≡ built_answer (tree_room records.old boxes.old limit) (tree_of bounds centers.now waters.now) }
    ensures after { tree_tables center_order.new water_order.new records.new boxes.new
        ≡ tables_after (built_number result) (tree_of bounds centers.now waters.now) (length center_order.old) (length water_order.old) (tree_tables center_order.old water_order.old records.old boxes.old) }
{
    nodes::count_up(center_order);
    nodes::count_up(water_order);
    // No points: no nodes, in tables of any size.
    if center_order.len() + water_order.len() == 0 {
        return Some(TreeSize { nodes: 0, depth: 0 });
    }
    let tables = (records.len() / 8).min(boxes.len() / 6);
    // The cap keeps every node number in a word, and no tree reaches it.
    let room = tables.min(limit).min(MOST_NODES);
    let mut scratch = [0u32; MAX_ATOMS];
    let mut codes = [0u8; MAX_ATOMS];
    let Some(size) = build(
        bounds,
        0,
        centers,
        waters,
        center_order,
        water_order,
        0,
        0,
        records,
        boxes,
        0,
        room,
        &mut scratch,
        &mut codes,
    ) else {
        nodes::reset(center_order, water_order, records, boxes);
        return None;
    };
    Some(size)
}
