// How evenly the centers of copies are spread (docs/RULES.md, 'Centers and dispersion'; the Rust's `solute_center_dispersion_score`).
// f32 arithmetic, each operation rounded once; squared distances are summed in f64.
#![tactic(auto, unfolding(crate::specs::Dispersion::clamped, crate::specs::Dispersion::expected_of, crate::specs::Dispersion::observed_of, crate::specs::Dispersion::score_of))]

ghost use Rattle.std.specs.Prelude.{◌≡◌, true, [], ℕ, ◌+◌, ◌-◌, ◌*◌, ◌<◌, ◌≤◌, length, get_or, IfSome};
ghost use Rattle.std.specs.Float.{binary64, nan};
ghost use Rattle.std.specs.Float.Ieee.{of_bits};
ghost use Rattle.base.specs.Limits.{max_copies};
ghost use Rattle.cell.specs.Cell.{distance2, point_at};
ghost use Rattle.pick_lists.specs.Sound.{sound_lists};
ghost use Rattle.pick_lists.specs.Input.{given};
ghost use Rattle.dispersion.specs.Dispersion.{expected_of, row_sum, pair_sum, observed_of, score_of, dispersion_of, dispersion_answer};

use base::Refused;
use cell::{Cell, Vec3};

// The root mean square distance that an even spread would have.
fn expected(e: Vec3) -> f32
    ensures { result ≡ expected_of e }
{
    roots::sqrt(cell::magnitude_squared(e) / 12.0)
}

// s and the squared distances of center i to those from j up to end, in order.
#[tactic(auto, using(crate::proofs::Sums::row_more, crate::proofs::Sums::row_none))]
fn stretch_sum(e: Vec3, centers: &[f32], i: usize, j: usize, end: usize, s: f64) -> f64
    requires { (i < j) × (j ≤ end) × (end * 3 ≤ length centers.now) }
    ensures { result ≡ row_sum e centers.now i (end - j) j s }
{
    let a = cell::point(centers, i);
    let mut sum = s;
    for k in j..end {
        sum += numbers::convert::widen(cell::distance_squared(e, a, cell::point(centers, k)));
    }
    sum
}

// How many squared distances are found together, before they are added: one by one takes a sixth more instructions.
const BLOCK: usize = 16;

// The squared distances of center i to a block of centers from j on, if all are sure, without a division.
fn block_squares(e: Vec3, centers: &[f32], i: usize, j: usize) -> Option<[f32; BLOCK]>
    requires { (i < j) × ((j + 16) * 3 ≤ length centers.now) }
    ensures { IfSome result (λ squares. (k : ℕ) → k < 16 → get_or squares k nan ≡ distance2 e (point_at centers.now i) (point_at centers.now (j + k))) }
{
    let a = cell::point(centers, i);
    let mut squares = [0.0; BLOCK];
    for (k, square) in squares.iter_mut().enumerate() {
        *square = cell::fold_distance(e, a, cell::point(centers, j + k))?;
    }
    Some(squares)
}

// s and the squared distances of center i to a block of centers from j on, in order.
#[tactic(auto, using(crate::proofs::Sums::row_more, crate::proofs::Sums::row_none))]
fn block_sum(e: Vec3, centers: &[f32], i: usize, j: usize, s: f64) -> f64
    requires { (i < j) × ((j + 16) * 3 ≤ length centers.now) }
    ensures { result ≡ row_sum e centers.now i 16 j s }
{
    let Some(squares) = block_squares(e, centers, i, j) else {
        return stretch_sum(e, centers, i, j, j + BLOCK, s);
    };
    let mut sum = s;
    for square in squares {
        sum += numbers::convert::widen(square);
    }
    sum
}

// s and the squared distances of center i to the later ones.
fn row_sum(e: Vec3, centers: &[f32], n: usize, i: usize, s: f64) -> f64
    requires { (n * 3 ≤ length centers.now) × (i < n) }
    ensures { result ≡ row_sum e centers.now i (n - (i + 1)) (i + 1) s }
{
    let blocks = (n - (i + 1)) / BLOCK;
    let mut sum = s;
    for b in 0..blocks {
        sum = block_sum(e, centers, i, i + 1 + b * BLOCK, sum);
    }
    stretch_sum(e, centers, i, i + 1 + blocks * BLOCK, n, sum)
}

// The squared distances of all pairs of the first n centers, in order.
#[tactic(auto, using(crate::proofs::Sums::pair_more, crate::proofs::Sums::pair_none))]
fn pair_sum(e: Vec3, centers: &[f32], n: usize) -> f64
    requires { n * 3 ≤ length centers.now }
    ensures { result ≡ pair_sum e centers.now n n 0 (of_bits binary64 0) }
{
    let mut sum = 0.0;
    for i in 0..n {
        sum = row_sum(e, centers, n, i, sum);
    }
    sum
}

// The root mean square distance of n centers, two or more.
fn observed(e: Vec3, centers: &[f32], n: usize) -> f32
    requires { (n * 3 ≤ length centers.now) × (2 ≤ n) × (n ≤ max_copies) }
    ensures { result ≡ observed_of e centers.now n }
{
    let pairs = n * (n - 1) / 2;
    numbers::convert::narrow(roots::sqrt(pair_sum(e, centers, n) / pairs as f64))
}

// The score of the first n centers.
fn score(e: Vec3, centers: &[f32], n: usize) -> f32
    requires { (n * 3 ≤ length centers.now) × (n ≤ max_copies) }
    ensures { result ≡ score_of e centers.now n }
{
    if n < 2 {
        return 1.0;
    }
    let even = expected(e);
    if even <= f32::EPSILON {
        return 0.0;
    }
    (observed(e, centers, n) / even).clamp(0.0, 1.0)
}

// The dispersion of sound pick lists: the core of Dispersion. The centers are kept in a local array of 12,288 floats.
pub fn dispersion_of(cell: Cell, xs: &[f32], starts: &[u32], picks: &[u32]) -> f32
    requires { sound_lists xs.now starts.now picks.now ≡ true }
    ensures { result ≡ dispersion_of (given cell xs.now [] starts.now picks.now) }
{
    let mut centers = centers::center_room();
    centers::put_centers(cell, xs, starts, picks, &mut centers);
    score(cell::extent(cell), &centers, starts.len() - 1)
}

// Dispersion: 1, 2, 3, 4, 15, 8 in this order, or the score, 0 to 1.
pub fn dispersion(
    cell: Cell,
    solutes: &[f32],
    starts: &[u32],
    picks: &[u32],
) -> Result<f32, Refused>
    ensures answer { result ≡ dispersion_answer (given cell solutes.now [] starts.now picks.now) }
{
    pick_lists::input_refusal(cell, solutes, &[], starts, picks)?;
    Ok(dispersion_of(cell, solutes, starts, picks))
}
