// The octant of a point, and stable splitting of an order list by octant (docs/RULES.md, 'Octree'): a counting sort, linear in the points.
// `arrange` tests nothing of its lists; its callers do.
#![tactic(auto)]

ghost use Rattle.std.specs.Prelude.{◌≡◌, ℕ, ◌≤◌, ◌<◌, length, get_or, replicate};
ghost use Rattle.base.specs.Limits.{max_atoms};
ghost use Rattle.bounds.specs.Bounds.{above_of, octant_at};
ghost use Rattle.octants.specs.Inner.{sum_before, lists_from, beside, Tallied, Dealable, Sortable, Arranged};

use cell::Vec3;

// 1 where a coordinate is strictly above the center's.
fn above(p: f32, c: f32) -> usize
    ensures is { result ≡ above_of p c }
    ensures small { result ≤ 1 }
{
    usize::from(p > c)
}

// The octant of point v about a center, or 0 where there is no such point.
#[tactic(auto, unfolding(bounds::specs::Bounds::octant_at))]
fn octant(points: &[f32], center: Vec3, v: u32) -> usize
    ensures is { result ≡ octant_at points.now center v }
    ensures small { result < 8 }
{
    let v = v as usize;
    if v * 3 + 2 < points.len() {
        let p = cell::point(points, v);
        above(p.x, center.x) + 2 * above(p.y, center.y) + 4 * above(p.z, center.z)
    } else {
        0
    }
}

// Notes the octant of each point of `order`, and adds up how many points each octant has.
fn tally(order: &[u32], points: &[f32], center: Vec3, codes: &mut [u8], counts: &mut [usize; 8])
    requires { (length order.now ≤ length codes.old) × (counts.old ≡ replicate 8 0) }
    ensures { Tallied points.now center order.now codes.new counts.new }
{
    for (i, v) in order.iter().enumerate() {
        let o = octant(points, center, *v);
        codes[i] = o as u8;
        counts[o] += 1;
    }
}

// The first place of each octant, where they follow each other by rising octant.
fn firsts(counts: &[usize; 8]) -> [usize; 8]
    requires { sum_before (λ o. get_or counts.now o 0) 8 ≤ max_atoms }
    ensures { (o : ℕ) → o < 8 → get_or result o 0 ≡ sum_before (λ k. get_or counts.now k 0) o }
{
    let mut places = [0; 8];
    let mut at = 0;
    for o in 0..8 {
        places[o] = at;
        at += counts[o];
    }
    places
}

// Copies src to dst. Of std's `copy_from_slice` the compiler makes a call of memmove here, which a program in C would then have to bring.
fn paste(dst: &mut [u32], src: &[u32])
    requires { length dst.old ≡ length src.now }
    ensures { dst.new ≡ src.now }
{
    for (i, slot) in dst.iter_mut().enumerate() {
        *slot = src[i];
    }
}

// Puts each saved point, in their order, at the next place of its octant.
fn deal(saved: &[u32], codes: &[u8], places: &mut [usize; 8], order: &mut [u32])
    requires { Dealable codes.now saved.now (length order.old) places.old }
    ensures { order.new ≡ lists_from (beside codes.now saved.now (length order.old)) 8 }
{
    for i in 0..order.len() {
        let o = codes[i] as usize;
        order[places[o]] = saved[i];
        places[o] += 1;
    }
}

// Rearranges `order`: the points by rising octant, each octant's in their order. Counts each octant's points.
pub fn arrange(
    order: &mut [u32],
    points: &[f32],
    center: Vec3,
    counts: &mut [usize; 8],
    scratch: &mut [u32],
    codes: &mut [u8],
)
    requires { Sortable order.old counts.old (length scratch.old) (length codes.old) }
    ensures { Arranged points.now center order.old order.new counts.new }
{
    let saved = &mut scratch[..order.len()];
    paste(saved, order);
    tally(order, points, center, codes, counts);
    let mut places = firsts(counts);
    deal(saved, codes, &mut places, order);
}
