// The cluster table (docs/RULES.md, 'Clusters'), one lent list of words: copies n, contacts, the cutoff's bits, then n parents, n degrees, n marks. Here
// it is opened and tested, gets its contacts and marks, and gives its fractions. A function asks for what it needs and tests none of it: the calls that do
// are Open, Row and Close of `clusters`.
#![tactic(auto)]

ghost use Rattle.std.specs.Prelude.{◌≡◌, true, ◌+◌, ◌^◌, ◌<◌, ◌≤◌, ltb, eqb, length, get_or, set};
ghost use Rattle.base.specs.Limits.{max_copies};
ghost use Rattle.base.specs.Range.{all_below, count};
ghost use Rattle.base.specs.Refusals.{first_refusal, answer_of};
ghost use Rattle.union_find.specs.Parents.{sound_parents};
ghost use Rattle.cluster_table.specs.Table.{parents, degrees, marks, degree, contacts, mark, mark_at, words, pairs, contact, opened, sound_words, sound_table};
ghost use Rattle.cluster_table.specs.Refusals.{row_table_refusals};
ghost use Rattle.cluster_table.specs.Fractions.{ratio, table_fractions};

use base::Refused;
use numbers::class::to_bits;

// The words before the parents.
pub const HEADER: usize = 3;

// The three fractions of a table.
#[derive(Clone, Copy)]
pub struct ClusterFractions {
    pub largest: f32,
    pub contacted: f32,
    pub pair: f32,
}

// How many pairs n copies have.
fn pair_count(n: usize) -> usize
    requires { n ≤ max_copies }
    ensures { result ≡ pairs n }
{
    n * n.saturating_sub(1) / 2
}

// ---- the parts of a table

fn parents(table: &[u32], n: usize) -> &[u32]
    requires { words n ≤ length table.now }
    ensures { result.now ≡ parents n table.now }
{
    &table[HEADER..HEADER + n]
}

fn degrees(table: &[u32], n: usize) -> &[u32]
    requires { words n ≤ length table.now }
    ensures { result.now ≡ degrees n table.now }
{
    &table[HEADER + n..HEADER + 2 * n]
}

fn marks(table: &[u32], n: usize) -> &[u32]
    requires { words n ≤ length table.now }
    ensures { result.now ≡ marks n table.now }
{
    &table[HEADER + 2 * n..HEADER + 3 * n]
}

// ---- opening

// Writes the table of n copies with no contact, and the cutoff's bits.
pub fn open_table(table: &mut [u32], n: usize, bits: u32)
    requires { (n ≤ max_copies) × (words n ≤ length table.old) }
    ensures { table.new ≡ opened n bits table.old }
{
    table[0] = n as u32;
    table[1] = 0;
    table[2] = bits;
    let end = HEADER + n;
    for (i, parent) in table[HEADER..end].iter_mut().enumerate() {
        *parent = i as u32;
    }
    table[end..end + 2 * n].fill(0);
}

// ---- whether a table is sound (9)

// Whether the degrees are below n and the marks 0 or 1.
fn words_sound(table: &[u32], n: usize) -> bool
    requires { (n ≤ max_copies) × (words n ≤ length table.now) }
    ensures { result ≡ all_below n (sound_words n table.now) }
{
    sound_parents::all_below(degrees(table, n), n as u32)
        & sound_parents::all_below(marks(table, n), 2)
}

// Whether a table of n copies is sound: any table whatever is decided.
pub fn is_sound(table: &[u32], n: usize) -> bool
    requires { (n ≤ max_copies) × (words n ≤ length table.now) }
    ensures { result ≡ sound_table n table.now }
{
    table[0] as usize == n
        && table[1] as usize <= pair_count(n)
        && sound_parents::is_sound(parents(table, n))
        && words_sound(table, n)
}

// ---- what Row asks of a table

// Row i with this cutoff on a table of n copies: the first of 16, 7, 9, 17, 10 and 11 that holds.
pub fn row_refusal(table: &[u32], n: usize, cutoff: f32, i: usize) -> Result<(), Refused>
    requires { n ≤ max_copies }
    ensures { result ≡ answer_of (first_refusal (row_table_refusals n cutoff table.now i)) }
{
    if !cell::sound_reach(cutoff) {
        return Err(Refused::Reach);
    }
    if table.len() < HEADER + 3 * n {
        return Err(Refused::Short);
    }
    if !is_sound(table, n) {
        return Err(Refused::Table);
    }
    // Bit for bit: the table's word may be any, also that of no number.
    if to_bits(cutoff) != table[2] {
        return Err(Refused::OtherCutoff);
    }
    if i >= n {
        return Err(Refused::NoRow);
    }
    if marks(table, n)[i] == 1 {
        return Err(Refused::RowAgain);
    }
    Ok(())
}

// ---- contacts and marks

// A touch of i and j: their sets are joined, and both degrees and the contacts raised, also where one root was theirs already.
pub fn add_contact(table: &mut [u32], n: usize, i: usize, j: usize)
    requires n_le_max_copies { (n ≤ max_copies) × (words n ≤ length table.old) × (i < j) × (j < n) }
    requires table_value { sound_parents (parents n table.old) ≡ true }
    requires i_bound { (degree n table.old i < 2 ^ 31) × (degree n table.old j < 2 ^ 31) × (contacts table.old < 2 ^ 31) }
    ensures { table.new ≡ contact n table.old i j }
{
    let end = HEADER + n;
    // Chains are shortened also where i and j have one root already.
    union_find::union_roots(&mut table[HEADER..end], i as u32, j as u32);
    table[end + i] += 1;
    table[end + j] += 1;
    table[1] += 1;
}

// Mark i becomes 1.
pub fn set_mark(table: &mut [u32], n: usize, i: usize)
    requires { (n ≤ max_copies) × (words n ≤ length table.old) × (i < n) }
    ensures { table.new ≡ set table.old (mark_at n i) 1 }
{
    table[HEADER + n + n + i] = 1;
}

// Whether every row is accepted.
pub fn all_marked(table: &[u32], n: usize) -> bool
    requires { (n ≤ max_copies) × (words n ≤ length table.now) }
    ensures { result ≡ all_below n (λ i. eqb (mark n table.now i) 1) }
{
    marks(table, n).iter().all(|mark| *mark == 1)
}

// ---- the fractions

// How many copies have a contact.
fn contacted(table: &[u32], n: usize) -> u32
    requires { (n ≤ max_copies) × (words n ≤ length table.now) }
    ensures { result ≡ count n (λ i. ltb 0 (degree n table.now i)) }
{
    // A chain of `filter` and `count` has a branch on each degree, guessed wrong where copies with and without a contact alternate.
    let mut k = 0;
    for degree in degrees(table, n) {
        if *degree > 0 {
            k += 1;
        }
    }
    k
}

// One division of two whole numbers that f32 holds exactly.
fn quotient(a: u32, b: u32) -> f32
    requires { (a ≤ 2 ^ 24) × (b ≤ 2 ^ 24) }
    ensures { result ≡ ratio a b }
{
    a as f32 / b as f32
}

// The three fractions of a sound table of n copies. A call of its own, so that the search's local arrays stand on the
// stack only while it runs.
#[inline(never)]
pub fn fractions(table: &[u32], n: usize) -> ClusterFractions
    requires n_le_max_copies { (n ≤ max_copies) × (words n ≤ length table.now) }
    requires table_value { sound_table n table.now ≡ true }
    ensures { result ≡ table_fractions table.now }
{
    if n < 2 {
        return ClusterFractions {
            largest: 0.0,
            contacted: 0.0,
            pair: 0.0,
        };
    }
    let largest = union_find::largest_set(parents(table, n));
    ClusterFractions {
        largest: quotient(largest - 1, (n - 1) as u32),
        contacted: quotient(contacted(table, n), n as u32),
        pair: quotient(table[1], pair_count(n) as u32),
    }
}
