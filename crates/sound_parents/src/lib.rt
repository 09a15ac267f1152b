// Whether a list of parents is sound (docs/RULES.md, refusal 9): each parent below n, and each copy reaches its own root in n steps. The test takes
// a fixed multiple of n steps on any list, cycles and chains of depth n included: a local array of 4,096 half words remembers what was seen.
#![tactic(auto)]

ghost use Rattle.std.specs.Prelude.{◌≡◌, true, ◌+◌, ◌<◌, ◌≤◌, length, get_or, ltb};
ghost use Rattle.base.specs.Limits.{max_copies};
ghost use Rattle.base.specs.Range.{all_below};
ghost use Rattle.union_find.specs.Parents.{walk, reaches_root, sound_parents};
ghost use Rattle.union_find.specs.Inner.{root_within};
ghost use Rattle.sound_parents.specs.Inner.{Stamped};

use base::MAX_COPIES;

// Whether every word is below n. The loop has no branch on a word, so that a processor tests several at once.
pub fn all_below(words: &[u32], n: u32) -> bool
    ensures { result ≡ all_below (length words.now) (λ i. ltb (get_or words.now i 0) n) }
{
    let mut all = true;
    for word in words {
        all = all & (*word < n);
    }
    all
}

// The copy two steps above i, for parents that are all below n.
fn two_up(parent: &[u32], i: u32) -> u32
    requires parent_value { all_below (length parent.now) (λ i. ltb (get_or parent.now i 0) (length parent.now)) ≡ true }
    requires i_in_bounds { i < length parent.now }
    ensures { (result ≡ walk parent.now 2 i) × (result < length parent.now) }
{
    let k = parent[i as usize];
    parent[k as usize]
}

// The same, four steps above i.
fn four_up(parent: &[u32], i: u32) -> u32
    requires parent_value { all_below (length parent.now) (λ i. ltb (get_or parent.now i 0) (length parent.now)) ≡ true }
    requires i_in_bounds { i < length parent.now }
    ensures { (result ≡ walk parent.now 4 i) × (result < length parent.now) }
{
    two_up(parent, two_up(parent, i))
}

// Whether i is at most eight steps below its root. Four are enough for most copies, so that a processor foresees the branch.
fn near_root(parent: &[u32], i: u32) -> bool
    requires parent_value { all_below (length parent.now) (λ i. ltb (get_or parent.now i 0) (length parent.now)) ≡ true }
    requires i_in_bounds { i < length parent.now }
    ensures { result ≡ root_within parent.now 8 i }
{
    let k = four_up(parent, i);
    if parent[k as usize] == k {
        return true;
    }
    let m = four_up(parent, k);
    parent[m as usize] == m
}

// Whether each copy is at most eight steps below its root, for parents that are all below n: a scan leaves most lists so. It writes nothing, and no
// step turns on what an earlier copy led to, so it is the quicker test where it holds.
fn shallow(parent: &[u32]) -> bool
    requires parent_value { all_below (length parent.now) (λ i. ltb (get_or parent.now i 0) (length parent.now)) ≡ true }
    requires parent_len_bound { length parent.now ≤ max_copies }
    ensures { result ≡ all_below (length parent.now) (root_within parent.now 8) }
{
    for i in 0..parent.len() {
        if !near_root(parent, i as u32) {
            return false;
        }
    }
    true
}

// Walks up from i, leaving i + 1 in `seen` at each copy that no walk saw before. An earlier walk ended at a root, so a copy that
// it saw reaches one; a copy that this walk saw closes a cycle. A half word holds each stamp, for i is below 4,096.
fn ends(parent: &[u32], seen: &mut [u16], i: u32) -> bool
    requires parent_value { all_below (length parent.now) (λ i. ltb (get_or parent.now i 0) (length parent.now)) ≡ true }
    requires i_in_bounds { (i < length parent.now) × (length parent.now ≤ length seen.old) × (length parent.now ≤ max_copies) }
    requires stamped { Stamped parent.now seen.old i }
    ensures value { result ≡ reaches_root parent.now i }
    ensures stamped_2 { result ≡ true → Stamped parent.now seen.new (i + 1) }
{
    let stamp = (i + 1) as u16;
    let mut k = i;
    while seen[k as usize] == 0 {
        seen[k as usize] = stamp;
        if parent[k as usize] == k {
            return true;
        }
        k = parent[k as usize];
    }
    seen[k as usize] != stamp
}

// Whether every chain ends at a root, for parents that are all below n.
fn all_end(parent: &[u32], seen: &mut [u16]) -> bool
    requires parent_value { all_below (length parent.now) (λ i. ltb (get_or parent.now i 0) (length parent.now)) ≡ true }
    requires parent_in_bounds { (length parent.now ≤ length seen.old) × (length parent.now ≤ max_copies) }
    requires stamped { Stamped parent.now seen.old 0 }
    ensures { result ≡ all_below (length parent.now) (reaches_root parent.now) }
{
    for i in 0..parent.len() {
        if !ends(parent, seen, i as u32) {
            return false;
        }
    }
    true
}

// Whether a list is sound: each parent below n, each copy reaches its own root in n steps.
pub fn is_sound(parent: &[u32]) -> bool
    requires { length parent.now ≤ max_copies }
    ensures { result ≡ sound_parents parent.now }
{
    all_below(parent, parent.len() as u32)
        && (shallow(parent) || all_end(parent, &mut [0; MAX_COPIES]))
}
