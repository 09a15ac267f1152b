// Whether a node splits, and its two order lists divided (docs/RULES.md, 'Octree'): arranged by octant, each octant's points counted.
// `divide` tests nothing of its lists; its caller does.
#![tactic(auto)]

ghost use Rattle.std.specs.Prelude.{◌≡◌, ◌≤◌, ◌<◌, ◌-◌, length};
ghost use Rattle.octants.specs.Inner.{Sortable};
ghost use Rattle.division.specs.Split.{max_depth};
ghost use Rattle.division.specs.Inner.{octants_of, Divided};

use bounds::OctreeBounds;
use octants::arrange;

// No node of this depth splits.
pub const MAX_DEPTH: usize = 14;

// How many octants a node has to visit: all 8 where it splits, else none.
fn octants(depth: usize, order: &[u32], b: OctreeBounds) -> usize
    requires { depth ≤ max_depth }
    ensures is { result ≡ octants_of (max_depth - depth) order.now b }
    ensures small { result ≤ 8 }
    ensures deep { 0 < result → depth < max_depth }
{
    if depth < MAX_DEPTH && order.len() > 1 && b.is_wide() {
        8
    } else {
        0
    }
}

// Where a node splits, arranges both order lists by octant and counts each octant's points. Answers how many octants there are to visit.
// What `scratch` and `codes` hold afterwards is left free.
pub fn divide(
    depth: usize,
    b: OctreeBounds,
    centers: &[f32],
    waters: &[f32],
    corder: &mut [u32],
    worder: &mut [u32],
    ccounts: &mut [usize; 8],
    wcounts: &mut [usize; 8],
    scratch: &mut [u32],
    codes: &mut [u8],
) -> usize
    requires depth_le_max_depth { depth ≤ max_depth }
    requires sortable { Sortable corder.old ccounts.old (length scratch.old) (length codes.old) }
    requires sortable_2 { Sortable worder.old wcounts.old (length scratch.old) (length codes.old) }
    ensures is { result ≡ octants_of (max_depth - depth) corder.old b }
    ensures small { result ≤ 8 }
    ensures deep { 0 < result → depth < max_depth }
    ensures centers { Divided centers.now b.center result corder.old corder.new ccounts.new }
    ensures waters { Divided waters.now b.center result worder.old worder.new wcounts.new }
{
    let left = octants(depth, corder, b);
    if left == 0 {
        return 0;
    }
    arrange(corder, centers, b.center, ccounts, scratch, codes);
    arrange(worder, waters, b.center, wcounts, scratch, codes);
    left
}
