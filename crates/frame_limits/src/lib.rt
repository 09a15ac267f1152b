// The limits of a frame (docs/RULES.md, 'Limits') and the refusals 1, 2, 3, 4 and 15. A call that takes no
// waters or no indices hands over an empty list in their place.
#![tactic(auto)]

ghost use Rattle.std.specs.Prelude.{◌≡◌};
ghost use Rattle.frame_limits.specs.Limits.{exceeds as exceeds_of, beyond as beyond_of, any, any_over, ragged as ragged_of, long as long_of, bound_over, limit_refusals, frame_refusals, max_coordinate};
ghost use Rattle.base.specs.Refusals.{first_refusal, answer_of};

use base::{MAX_ATOMS, MAX_INDICES, Refused};
use cell::Cell;

const MAX_BOUND: f32 = 65536.0;

const MAX_COORDINATE: f32 = 1048576.0;

// Whether x is finite and over a limit in magnitude.
fn exceeds(limit: f32, x: f32) -> bool
    ensures { result ≡ exceeds_of limit x }
{
    numbers::class::is_finite32(x) & ((limit < x) | (x < -limit))
}

// Whether a coordinate is beyond its limit, an infinite one too. Here and below the loop has no branch on a coordinate, so that a processor tests
// several at once.
fn beyond(xs: &[f32]) -> bool
    ensures { result ≡ any (beyond_of max_coordinate) xs.now }
{
    let mut any = false;
    for &x in xs {
        any = any | ((MAX_COORDINATE < x) | (x < -MAX_COORDINATE));
    }
    any
}

// Whether a coordinate is finite and over its limit.
fn finite_over(xs: &[f32]) -> bool
    ensures { result ≡ any_over max_coordinate xs.now }
{
    let mut over = false;
    for &x in xs {
        over = over | exceeds(MAX_COORDINATE, x);
    }
    over
}

// Whether a coordinate of the list is over its limit (4), one at a time: also in a point that is not finite. Most lists have none beyond it, which
// is tested in less than whether one is finite too.
pub fn coordinate_over(xs: &[f32]) -> bool
    ensures { result ≡ any_over max_coordinate xs.now }
{
    if !beyond(xs) {
        return false;
    }
    finite_over(xs)
}

// Whether a bound of the cell is over its limit (3).
fn bound_over(cell: Cell) -> bool
    ensures { result ≡ bound_over cell }
{
    exceeds(MAX_BOUND, cell.low.x)
        | (exceeds(MAX_BOUND, cell.low.y)
            | (exceeds(MAX_BOUND, cell.low.z)
                | (exceeds(MAX_BOUND, cell.high.x)
                    | (exceeds(MAX_BOUND, cell.high.y) | exceeds(MAX_BOUND, cell.high.z)))))
}

// Whether the list's length is no multiple of three (1).
pub fn ragged(xs: &[f32]) -> bool
    ensures { result ≡ ragged_of xs.now }
{
    xs.len() % 3 != 0
}

// Whether the list has more points than the limit (2).
pub fn long(xs: &[f32]) -> bool
    ensures { result ≡ long_of xs.now }
{
    xs.len() > MAX_ATOMS * 3
}

// The first of 1, 2, 3 and 4 that holds.
pub fn limit_refusal(
    cell: Cell,
    solutes: &[f32],
    waters: &[f32],
    indices: &[u32],
) -> Result<(), Refused>
    ensures { result ≡ answer_of (first_refusal (limit_refusals cell solutes.now waters.now indices.now)) }
{
    if ragged(solutes) | ragged(waters) {
        return Err(Refused::Ragged);
    }
    if long(solutes) | (long(waters) | (indices.len() > MAX_INDICES)) {
        return Err(Refused::Long);
    }
    if bound_over(cell) {
        return Err(Refused::Bound);
    }
    if coordinate_over(solutes) | coordinate_over(waters) {
        return Err(Refused::Coordinate);
    }
    Ok(())
}

// The first of 1, 2, 3, 4 and 15 that holds: what every call on a cell and its coordinates tests before all else.
pub fn frame_refusal(cell: Cell, solutes: &[f32], waters: &[f32]) -> Result<(), Refused>
    ensures { result ≡ answer_of (first_refusal (frame_refusals cell solutes.now waters.now)) }
{
    limit_refusal(cell, solutes, waters, &[])?;
    if !cell::is_valid(cell) {
        return Err(Refused::Cell);
    }
    Ok(())
}
