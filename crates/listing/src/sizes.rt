// How many bytes a text has.
ghost use Rattle.std.specs.Prelude.{◌≡◌, ◌+◌, ◌*◌, ◌≤◌, length, leb};
ghost use Rattle.text.specs.Text.{places, occupancy};
ghost use Rattle.listing.specs.Listing.{leaf_line, leaf_lines};

use mixing::Mixture;
use text::decimal_places;

// `dry`, or eight digits.
fn occupancy_size(w: u32) -> usize
    ensures { (result ≡ length (occupancy w)) × (result ≤ 8) }
{
    if w == 0 { 3 } else { 8 }
}

// The line of a leaf.
fn leaf_size(leaf: &[u32; 8]) -> usize
    ensures { result ≡ length (leaf_line leaf.now 0) }
{
    let [node, centers, waters, inside, seen, shell, _, _] = *leaf;
    20 + decimal_places(node as usize)
        + decimal_places(centers as usize)
        + decimal_places(waters as usize)
        + occupancy_size(inside)
        + decimal_places(seen as usize)
        + occupancy_size(shell)
}

// Whether the lines of so many leaves have at most so many bytes. The room is used up a line at a time, so that no sum wraps.
pub(crate) fn leaves_fit(leaves: &[u32], count: usize, room: usize) -> bool
    requires { count * 8 ≤ length leaves.now }
    ensures { result ≡ leb (length (leaf_lines leaves.now count 0)) room }
{
    let (table, _) = leaves.as_chunks::<8>();
    let mut left = room;
    for leaf in &table[..count] {
        let Some(rest) = left.checked_sub(leaf_size(leaf)) else {
            return false;
        };
        left = rest;
    }
    true
}

// All lines but those of the leaves.
pub(crate) fn head_size(m: Mixture) -> usize
    ensures { (result ≡ 82 + places m.counted.copies + places m.report.nodes + places m.report.depth + places m.report.dry) × (result ≤ 162) }
{
    82 + decimal_places(m.counted.copies)
        + decimal_places(m.report.nodes)
        + decimal_places(m.report.depth)
        + decimal_places(m.report.dry)
}
