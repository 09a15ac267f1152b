// A tree's nodes in lent tables (docs/RULES.md, 'Octree'): a node's record and box, and fresh tables.
#![tactic(auto)]

ghost use Rattle.std.specs.Prelude.{◌≡◌, [], ◌∷◌, ◌≤◌, ◌<◌, ◌*◌, length, replicate};
ghost use Rattle.floats.specs.Constants.{zero32};
ghost use Rattle.base.specs.Limits.{max_atoms};
ghost use Rattle.base.specs.Tables.{placed, first_numbers};
ghost use Rattle.nodes.specs.Nodes.{corners_of};
ghost use Rattle.nodes.specs.Inner.{NodeFits};

use bounds::OctreeBounds;

// Writes seven words and a 0: the record of a node, or of a leaf.
pub fn put_record(dst: &mut [u32], a: u32, b: u32, c: u32, d: u32, e: u32, f: u32, g: u32)
    requires { length dst.old ≡ 8 }
    ensures { dst.new ≡ a ∷ b ∷ c ∷ d ∷ e ∷ f ∷ g ∷ 0 ∷ [] }
{
    dst.copy_from_slice(&[a, b, c, d, e, f, g, 0]);
}

fn put_box(dst: &mut [f32], b: OctreeBounds)
    requires { length dst.old ≡ 6 }
    ensures { dst.new ≡ corners_of b }
{
    dst.copy_from_slice(&[b.low.x, b.low.y, b.low.z, b.high.x, b.high.y, b.high.z]);
}

// Writes node `at`: its nc centers from number fc on, nw waters from number fw on, its children and the node after its subtree.
pub fn put_node(
    records: &mut [u32],
    boxes: &mut [f32],
    at: usize,
    depth: usize,
    fc: usize,
    nc: usize,
    fw: usize,
    nw: usize,
    children: usize,
    after: usize,
    b: OctreeBounds,
)
    requires { NodeFits (length records.old) (length boxes.old) at depth fc nc fw nw children after }
    ensures records_after { records.new ≡ placed (at * 8) (depth ∷ fc ∷ nc ∷ fw ∷ nw ∷ children ∷ after ∷ 0 ∷ []) records.old }
    ensures boxes_after { boxes.new ≡ placed (at * 6) (corners_of b) boxes.old }
{
    put_record(
        &mut records[at * 8..at * 8 + 8],
        depth as u32,
        fc as u32,
        nc as u32,
        fw as u32,
        nw as u32,
        children as u32,
        after as u32,
    );
    // Center and extent are worked out again by who reads the corners.
    put_box(&mut boxes[at * 6..at * 6 + 6], b);
}

// Writes 0, 1, 2, ..
pub fn count_up(s: &mut [u32])
    requires { length s.old ≤ max_atoms }
    ensures { s.new ≡ first_numbers (length s.old) }
{
    for (i, entry) in s.iter_mut().enumerate() {
        *entry = i as u32;
    }
}

// The order lists as they start, and node tables of zeros.
pub fn reset(corder: &mut [u32], worder: &mut [u32], records: &mut [u32], boxes: &mut [f32])
    requires { (length corder.old ≤ max_atoms) × (length worder.old ≤ max_atoms) }
    ensures corder_after { corder.new ≡ first_numbers (length corder.old) }
    ensures worder_after { worder.new ≡ first_numbers (length worder.old) }
    ensures records_after { records.new ≡ replicate (length records.old) 0 }
    ensures boxes_after { boxes.new ≡ replicate (length boxes.old) zero32 }
{
    count_up(corder);
    count_up(worder);
    records.fill(0);
    boxes.fill(0.0);
}
