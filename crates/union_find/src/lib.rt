// Union-find over a lent list of parents (docs/RULES.md, 'Clusters'; the Rust's `find_root` and `union_roots`): joins without rank,
// chains shortened as the Rust does. The largest set takes a fixed multiple of n steps on any sound list, chains of depth n included.
#![tactic(auto)]

ghost use Rattle.std.specs.Prelude.{◌≡◌, true, ℕ, ◌+◌, ◌<◌, ◌≤◌, length, get_or};
ghost use Rattle.base.specs.Limits.{max_copies};
ghost use Rattle.union_find.specs.Parents.{root_of, compressed, joined, sound_parents, largest_set};

use base::MAX_COPIES;

// The root of i; each copy on the way is then put under it. The first loop yields the root, the second shortens.
fn find_root(parent: &mut [u32], i: u32) -> u32
    requires { (sound_parents parent.old ≡ true) × (i < length parent.old) }
    ensures value { result ≡ root_of parent.old i }
    ensures parent_after { parent.new ≡ compressed parent.old i }
{
    let mut root = i;
    while parent[root as usize] != root {
        root = parent[root as usize];
    }
    let mut k = i;
    while parent[k as usize] != k {
        let next = parent[k as usize];
        parent[k as usize] = root;
        k = next;
    }
    root
}

// The set of b is joined to that of a: the root of b is put under the root of a.
pub fn union_roots(parent: &mut [u32], a: u32, b: u32)
    requires { (sound_parents parent.old ≡ true) × (a < length parent.old) × (b < length parent.old) }
    ensures { parent.new ≡ joined parent.old a b }
{
    let a_root = find_root(parent, a);
    let b_root = find_root(parent, b);
    if a_root != b_root {
        parent[b_root as usize] = a_root;
    }
}

// Finds each root in p, which shortens its chains, counts it in `sizes`, and answers the greatest count. A half word holds each
// count, for there are at most 4,096 copies.
fn greatest_size(p: &mut [u32], sizes: &mut [u16]) -> u32
    requires p_value { (sound_parents p.old ≡ true) × (length p.old ≤ max_copies) × (length p.old ≤ length sizes.old) }
    requires by_index { (k : ℕ) → k < length p.old → get_or sizes.old k 0 ≡ 0 }
    ensures { result ≡ largest_set p.old }
{
    let mut most: u16 = 0;
    for i in 0..p.len() {
        let size = &mut sizes[find_root(p, i as u32) as usize];
        *size += 1;
        most = most.max(*size);
    }
    u32::from(most)
}

// The size of the largest set with one root; 0 where there is no copy. The list is only read: the search is in a local copy.
pub fn largest_set(parent: &[u32]) -> u32
    requires { (sound_parents parent.now ≡ true) × (length parent.now ≤ max_copies) }
    ensures { result ≡ largest_set parent.now }
{
    let mut copy = [0u32; MAX_COPIES];
    let p = &mut copy[..parent.len()];
    p.copy_from_slice(parent);
    let mut sizes = [0u16; MAX_COPIES];
    greatest_size(p, &mut sizes)
}
