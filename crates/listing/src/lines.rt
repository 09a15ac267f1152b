// The lines of the listing, each written from entry `at` on; each answers where it ends.
#![tactic(auto, using(crate::proofs::Pieces::lengths), unfolding(crate::specs::Listing::clusters_line, crate::specs::Listing::dispersion_line, crate::specs::Listing::nodes_line, crate::specs::Listing::leaf_line, crate::specs::Listing::dry_line))]

ghost use Rattle.std.specs.Prelude.{◌≡◌, ◌+◌, ◌*◌, ◌≤◌, length};
ghost use Rattle.base.specs.Tables.{placed};
ghost use Rattle.listing.specs.Listing.{clusters_line, dispersion_line, nodes_line, leaf_line, leaf_lines, dry_line, listing_text};

use cluster_table::ClusterFractions;
use mixing::Mixture;
use text::{put_bits, put_number, put_occupancy, put_text, put_word};

pub(crate) fn put_clusters(
    copies: usize,
    fractions: ClusterFractions,
    out: &mut [u8],
    at: usize,
) -> usize
    requires { at + length (clusters_line copies fractions.largest fractions.contacted fractions.pair) ≤ length out.old }
    ensures { (result ≡ at + length (clusters_line copies fractions.largest fractions.contacted fractions.pair)) × (out.new ≡ placed at (clusters_line copies fractions.largest fractions.contacted fractions.pair) out.old) }
{
    let word = put_text(b"clusters ", out, at);
    let first = put_number(copies, b' ', out, word);
    let second = put_bits(fractions.largest, b' ', out, first);
    let third = put_bits(fractions.contacted, b' ', out, second);
    put_bits(fractions.pair, b'\n', out, third)
}

pub(crate) fn put_dispersion(dispersion: f32, out: &mut [u8], at: usize) -> usize
    requires { at + length (dispersion_line dispersion) ≤ length out.old }
    ensures { (result ≡ at + length (dispersion_line dispersion)) × (out.new ≡ placed at (dispersion_line dispersion) out.old) }
{
    let word = put_text(b"dispersion ", out, at);
    put_bits(dispersion, b'\n', out, word)
}

pub(crate) fn put_nodes(nodes: usize, depth: usize, out: &mut [u8], at: usize) -> usize
    requires { at + length (nodes_line nodes depth) ≤ length out.old }
    ensures { (result ≡ at + length (nodes_line nodes depth)) × (out.new ≡ placed at (nodes_line nodes depth) out.old) }
{
    let word = put_text(b"nodes ", out, at);
    let first = put_number(nodes, b' ', out, word);
    let second = put_text(b"depth ", out, first);
    put_number(depth, b'\n', out, second)
}

fn put_leaf(leaf: &[u32; 8], out: &mut [u8], at: usize) -> usize
    requires { at + length (leaf_line leaf.now 0) ≤ length out.old }
    ensures { (result ≡ at + length (leaf_line leaf.now 0)) × (out.new ≡ placed at (leaf_line leaf.now 0) out.old) }
{
    let [node, centers, waters, inside, seen, shell, score, _] = *leaf;
    let word = put_text(b"leaf ", out, at);
    let first = put_number(node as usize, b' ', out, word);
    let second = put_number(centers as usize, b' ', out, first);
    let third = put_number(waters as usize, b' ', out, second);
    let fourth = put_occupancy(inside, out, third);
    let fifth = put_number(seen as usize, b' ', out, fourth);
    let sixth = put_occupancy(shell, out, fifth);
    put_word(score, b'\n', out, sixth)
}

// So many leaves, from the start of the leaf table on.
pub(crate) fn put_leaves(leaves: &[u32], count: usize, out: &mut [u8], at: usize) -> usize
    requires { (count * 8 ≤ length leaves.now) × (at + length (leaf_lines leaves.now count 0) ≤ length out.old) }
    ensures { (result ≡ at + length (leaf_lines leaves.now count 0)) × (out.new ≡ placed at (leaf_lines leaves.now count 0) out.old) }
{
    let (table, _) = leaves.as_chunks::<8>();
    let mut end = at;
    for leaf in &table[..count] {
        end = put_leaf(leaf, out, end);
    }
    end
}

pub(crate) fn put_dry(dry: usize, out: &mut [u8], at: usize) -> usize
    requires { at + length (dry_line dry) ≤ length out.old }
    ensures { (result ≡ at + length (dry_line dry)) × (out.new ≡ placed at (dry_line dry) out.old) }
{
    let word = put_text(b"dryleaves ", out, at);
    put_number(dry, b'\n', out, word)
}

// All lines, from the buffer's start on.
#[tactic(auto, using(crate::proofs::Pieces::lengths), unfolding(crate::specs::Listing::listing_text))]
pub(crate) fn put_lines(m: Mixture, leaves: &[u32], out: &mut [u8]) -> usize
    requires { (m.report.leaves * 8 ≤ length leaves.now) × (length (listing_text m leaves.now) ≤ length out.old) }
    ensures { (result ≡ 0 + length (listing_text m leaves.now)) × (out.new ≡ placed 0 (listing_text m leaves.now) out.old) }
{
    let first = put_clusters(m.counted.copies, m.fractions, out, 0);
    let second = put_dispersion(m.dispersion, out, first);
    let third = put_nodes(m.report.nodes, m.report.depth, out, second);
    let fourth = put_leaves(leaves, m.report.leaves, out, third);
    put_dry(m.report.dry, out, fourth)
}
