// The leaf table (docs/RULES.md, 'Leaf report'): eight words for each leaf with centers, from the node tables of a tree.
#![tactic(auto, unfolding(crate::specs::LeafTable::leaf_words, crate::specs::Inner::node_at))]

ghost use Rattle.std.specs.Prelude.{◌≡◌, ◌&&◌, cond, ℕ, ◌+◌, ◌*◌, ◌^◌, ◌≤◌, ◌<◌, eqb, ltb, length, get_or};
ghost use Rattle.base.specs.Limits.{max_atoms};
ghost use Rattle.cell.specs.Cell.{point_at};
ghost use Rattle.base.specs.Tables.{placed, over};
ghost use Rattle.bounds.specs.Bounds.{box_between};
ghost use Rattle.leaf_table.specs.LeafTable.{leaf_words, node_words, leaves_from, reported_leaves, dry_leaves};
ghost use Rattle.leaf_table.specs.Inner.{node_at, nodes_from};

use bounds::OctreeBounds;
use cell::Cell;

// How many leaves are reported, and how many of them have no water in their own box.
#[derive(Clone, Copy)]
pub struct Counts {
    pub reported: usize,
    pub dry: usize,
}

// The box of node i.
fn read_box(boxes: &[f32], i: usize) -> OctreeBounds
    requires { i * 6 + 6 ≤ length boxes.now }
    ensures { result ≡ box_between (point_at boxes.now (i * 2)) (point_at boxes.now (i * 2 + 1)) }
{
    OctreeBounds::from(Cell {
        low: cell::point(boxes, i * 2),
        high: cell::point(boxes, i * 2 + 1),
    })
}

// Whether node i is a leaf with centers.
fn is_reported(records: &[u32], i: usize) -> bool
    requires { i * 8 + 8 ≤ length records.now }
    ensures { result ≡ (eqb (get_or records.now (i * 8 + 5) 0) 0 && ltb 0 (get_or records.now (i * 8 + 2) 0)) }
{
    (records[i * 8 + 5] == 0) & (records[i * 8 + 2] > 0)
}

// 1 where node i has no water in its box.
fn dry_bit(records: &[u32], i: usize) -> usize
    requires { i * 8 + 8 ≤ length records.now }
    ensures is { result ≡ cond (eqb (get_or records.now (i * 8 + 4) 0) 0) 1 0 }
    ensures small { result ≤ 1 }
{
    usize::from(records[i * 8 + 4] == 0)
}

// Writes the eight words of a leaf: node i, with so many centers and waters in its box b.
fn put_row(
    cell: Cell,
    waters: &[f32],
    m: usize,
    density: f32,
    reference: f32,
    i: u32,
    centers: u32,
    wet: u32,
    b: OctreeBounds,
    dst: &mut [u32],
)
    requires { (m * 3 ≤ length waters.now) × (m ≤ max_atoms) × (centers ≤ max_atoms) × (wet ≤ max_atoms) × (length dst.old ≡ 8) }
    ensures { dst.new ≡ leaf_words cell density reference waters.now m i centers wet b }
{
    // Box and shell are held against the same density.
    let volume = cell::volume(b.extent);
    let shell = leaf::shell_waters(cell, b, waters, m);
    let own = leaf::occupancy_of(wet as usize, density * volume);
    let around = leaf::occupancy_of(shell, density * cell::volume(leaf::expanded(cell, b)));
    let score = leaf::partition_score(volume, reference, centers as usize);
    nodes::put_record(
        dst,
        i,
        centers,
        wet,
        leaf::occupancy_word(own),
        shell as u32,
        leaf::occupancy_word(around),
        numbers::class::to_bits(score),
    );
}

// Writes node i as leaf k of the table.
fn put_leaf(
    cell: Cell,
    waters: &[f32],
    m: usize,
    density: f32,
    reference: f32,
    records: &[u32],
    boxes: &[f32],
    i: usize,
    leaves: &mut [u32],
    k: usize,
)
    requires m_in_bounds { (m * 3 ≤ length waters.now) × (m ≤ max_atoms) }
    requires i_in_bounds { (i * 8 + 8 ≤ length records.now) × (i * 6 + 6 ≤ length boxes.now) × (i < 2 ^ 32) × (k * 8 + 8 ≤ length leaves.old) }
    requires i_bound { (get_or records.now (i * 8 + 2) 0 ≤ max_atoms) × (get_or records.now (i * 8 + 4) 0 ≤ max_atoms) }
    ensures { leaves.new ≡ placed (k * 8) (node_words cell density reference waters.now m i (node_at records.now boxes.now i)) leaves.old }
{
    put_row(
        cell,
        waters,
        m,
        density,
        reference,
        i as u32,
        records[i * 8 + 2],
        records[i * 8 + 4],
        read_box(boxes, i),
        &mut leaves[k * 8..k * 8 + 8],
    );
}

// Writes the leaf table of the first n nodes, over m wrapped waters.
pub fn put_leaves(
    cell: Cell,
    waters: &[f32],
    m: usize,
    density: f32,
    reference: f32,
    records: &[u32],
    boxes: &[f32],
    n: usize,
    leaves: &mut [u32],
) -> Counts
    requires m_in_bounds { (m * 3 ≤ length waters.now) × (m ≤ max_atoms) }
    requires n_in_bounds { (n * 8 ≤ length records.now) × (n * 6 ≤ length boxes.now) × (n * 8 ≤ length leaves.old) × (n < 2 ^ 32) }
    requires by_index { (k : ℕ) → k < n → (get_or records.now (k * 8 + 2) 0 ≤ max_atoms) × (get_or records.now (k * 8 + 4) 0 ≤ max_atoms) }
    ensures reported { result.reported ≡ reported_leaves (nodes_from records.now boxes.now n 0) }
    ensures dry { result.dry ≡ dry_leaves (nodes_from records.now boxes.now n 0) }
    ensures table { leaves.new ≡ over (leaves_from cell density reference waters.now m 0 (nodes_from records.now boxes.now n 0)) leaves.old }
{
    let mut reported = 0;
    let mut dry = 0;
    for i in 0..n {
        // Leaves without centers are passed over, so the table has no more rows than nodes.
        if is_reported(records, i) {
            put_leaf(
                cell, waters, m, density, reference, records, boxes, i, leaves, reported,
            );
            dry += dry_bit(records, i);
            reported += 1;
        }
    }
    Counts { reported, dry }
}
