// The recursive builder (docs/RULES.md, 'Octree'): a node, and in its own middle stretch of both order lists each of its children.
ghost use Rattle.std.specs.Prelude.{◌-◌, length};
ghost use Rattle.division.specs.Split.{max_depth};
ghost use Rattle.octree.specs.Tree.{subtree};
ghost use Rattle.octree.specs.Inner.{Ready, Planted};

use crate::TreeSize;
use bounds::OctreeBounds;
use division::divide;
use nodes::put_node;

// Builds the subtree of a box. Its centers and waters are the two order lists, whose first entries are number fc and fw of the whole.
// Its nodes are numbered from `at` on, and there is room for `room` in all. Answers the number
// after its nodes, as the nodes up to there, and its greatest depth; None where the node tables are too small (13).
pub fn build(
    b: OctreeBounds,
    depth: usize,
    centers: &[f32],
    waters: &[f32],
    corder: &mut [u32],
    worder: &mut [u32],
    fc: usize,
    fw: usize,
    records: &mut [u32],
    boxes: &mut [f32],
    at: usize,
    room: usize,
    scratch: &mut [u32],
    codes: &mut [u8],
) -> Option<TreeSize>
    requires { Ready depth (length corder.old) (length worder.old) fc fw (length records.old) (length boxes.old) room (length scratch.old) (length codes.old) }
    ensures { Planted room (subtree centers.now waters.now (max_depth - depth) at fc fw b corder.old worder.old) at result
        corder.new worder.new records.old records.new boxes.old boxes.new }
{
    // The node itself has no record left.
    if at >= room {
        return None;
    }
    let mut next = at + 1;
    let mut deep = depth;
    let mut children = 0;
    let mut ca = 0; // centers that children have so far, and waters
    let mut wa = 0;
    let mut ccounts = [0usize; 8]; // centers of each octant, and waters
    let mut wcounts = [0usize; 8];
    let left = divide(
        depth,
        b,
        centers,
        waters,
        corder,
        worder,
        &mut ccounts,
        &mut wcounts,
        scratch,
        codes,
    );
    // Octants by rising number, the last `left` of them; none where the node does not split.
    for o in 8 - left..8 {
        let nc = ccounts[o];
        let nw = wcounts[o];
        // An octant without points gets no node.
        if nc + nw == 0 {
            continue;
        }
        let ce = ca + nc;
        let we = wa + nw;
        let child = build(
            b.child(o),
            depth + 1,
            centers,
            waters,
            &mut corder[ca..ce],
            &mut worder[wa..we],
            fc + ca,
            fw + wa,
            records,
            boxes,
            next,
            room,
            scratch,
            codes,
        )?;
        ca = ce;
        wa = we;
        next = child.nodes;
        children += 1;
        deep = deep.max(child.depth);
    }
    // The record is written last: only now the children and the node after them are known.
    put_node(
        records,
        boxes,
        at,
        depth,
        fc,
        corder.len(),
        fw,
        worder.len(),
        children,
        next,
        b,
    );
    Some(TreeSize {
        nodes: next,
        depth: deep,
    })
}
