// The cell of a frame and the geometry in it (docs/RULES.md, 'Cell'): extent, validity, wrap, minimum image, squared
// distance, volume, and the bounds of a reach (16). Lengths are in angstrom. Every f32 operation rounds once, left to right.
#![tactic(auto, unfolding(crate::specs::Cell::extent_of, crate::specs::Cell::valid_axis, crate::specs::Cell::valid, crate::specs::Cell::wrap_axis, crate::specs::Cell::wrap, crate::specs::Cell::image_axis, crate::specs::Cell::min_image, crate::specs::Cell::squared, crate::specs::Cell::minus, crate::specs::Cell::distance2, crate::specs::Cell::volume_of, crate::specs::Cell::point_at, crate::specs::Cell::finite_point, crate::specs::Reach::sound_reach, crate::specs::Inner::within_axis, crate::specs::Inner::within_all))]

ghost use Rattle.std.specs.Prelude.{◌≡◌, cond, ◌+◌, ◌*◌, ◌<◌, length};
ghost use Rattle.std.specs.Bool.{then_some};
ghost use Rattle.std.specs.Float.{binary32};
ghost use Rattle.std.specs.Float.Ieee.{of_bits};
ghost use Rattle.cell.specs.Cell.{wrap_axis, image_axis, valid_axis, extent_of, valid, wrap as wrap_of, min_image, squared, minus, distance2, volume_of, point_at, finite_point};
ghost use Rattle.cell.specs.Reach.{sound_reach};
ghost use Rattle.cell.specs.Inner.{within_axis, within_all};

// The longest reach.
pub const MAX_REACH: f32 = 16.0;

#[derive(Clone, Copy)]
pub struct Vec3 {
    pub x: f32,
    pub y: f32,
    pub z: f32,
}

#[derive(Clone, Copy)]
pub struct Cell {
    pub low: Vec3,
    pub high: Vec3,
}

// The sides of the cell.
pub fn extent(cell: Cell) -> Vec3
    ensures { result ≡ extent_of cell }
{
    Vec3 {
        x: cell.high.x - cell.low.x,
        y: cell.high.y - cell.low.y,
        z: cell.high.z - cell.low.z,
    }
}

fn valid_axis(e: f32) -> bool
    ensures { result ≡ valid_axis e }
{
    numbers::class::is_finite32(e) & (e > f32::EPSILON)
}

// Whether every extent is finite and above EPSILON, 2^-23.
pub fn is_valid(cell: Cell) -> bool
    ensures { result ≡ valid cell }
{
    let e = extent(cell);
    valid_axis(e.x) & (valid_axis(e.y) & valid_axis(e.z))
}

// One axis of wrap: the coordinate moved by whole extents into the cell, but for rounding.
fn wrap_axis(p: f32, low: f32, e: f32) -> f32
    ensures { result ≡ wrap_axis p low e }
{
    p - e * numbers::whole::floor32((p - low) / e)
}

// a where t holds, else 0.
fn masked(t: bool, a: f32) -> f32
    ensures { result ≡ cond t a (of_bits binary32 0) }
{
    if t { a } else { 0.0 }
}

// One axis of the minimum image, if the separation is sure to be below the extent: it is d or an extent from it, by two comparisons, with no
// division, and no branch at half the extent, which would be guessed wrong on every other separation. d + 0.0 makes -0 +0, as the division's
// form does.
pub fn fold_axis(d: f32, e: f32) -> Option<f32>
    ensures { result ≡ then_some (within_axis d e) (image_axis d e) }
{
    let twice = d + d;
    let sure = numbers::class::is_finite32(e) & ((d < e) & (-e < d));
    sure.then_some(d + 0.0 - (masked(e <= twice, e) - masked(twice <= -e, e)))
}

// One axis of the minimum image: the separation moved by whole extents to the nearest to zero, but for rounding.
pub fn image_axis(d: f32, e: f32) -> f32
    ensures { result ≡ image_axis d e }
{
    match fold_axis(d, e) {
        Some(image) => image,
        None => d - e * numbers::whole::round32(d / e),
    }
}

// The point moved into the cell.
pub fn wrap(cell: Cell, p: Vec3) -> Vec3
    ensures { result ≡ wrap_of cell p }
{
    let e = extent(cell);
    Vec3 {
        x: wrap_axis(p.x, cell.low.x, e.x),
        y: wrap_axis(p.y, cell.low.y, e.y),
        z: wrap_axis(p.z, cell.low.z, e.z),
    }
}

// The separation d to the nearest image, in a cell of extent e.
pub fn min_image(e: Vec3, d: Vec3) -> Vec3
    ensures { result ≡ min_image e d }
{
    Vec3 {
        x: image_axis(d.x, e.x),
        y: image_axis(d.y, e.y),
        z: image_axis(d.z, e.z),
    }
}

// The separation from p to q.
pub fn separation(p: Vec3, q: Vec3) -> Vec3
    ensures { result ≡ minus q p }
{
    Vec3 {
        x: q.x - p.x,
        y: q.y - p.y,
        z: q.z - p.z,
    }
}

// The squared length of d.
pub fn magnitude_squared(d: Vec3) -> f32
    ensures { result ≡ squared d }
{
    d.x * d.x + d.y * d.y + d.z * d.z
}

// The squared distance of two points, if they are sure to be less than an extent apart on all axes, without a division.
pub fn fold_distance(e: Vec3, p: Vec3, q: Vec3) -> Option<f32>
    ensures { result ≡ then_some (within_all (minus q p) e) (distance2 e p q) }
{
    let d = separation(p, q);
    let image = Vec3 {
        x: fold_axis(d.x, e.x)?,
        y: fold_axis(d.y, e.y)?,
        z: fold_axis(d.z, e.z)?,
    };
    Some(magnitude_squared(image))
}

// The squared distance of two points, by the minimum image, in a cell of extent e. Points in the cell are at most an extent apart, so that
// the division is for points outside, or at two opposite bounds.
pub fn distance_squared(e: Vec3, p: Vec3, q: Vec3) -> f32
    ensures { result ≡ distance2 e p q }
{
    match fold_distance(e, p, q) {
        Some(square) => square,
        None => magnitude_squared(min_image(e, separation(p, q))),
    }
}

// The product of three sides, in order.
pub fn volume(e: Vec3) -> f32
    ensures { result ≡ volume_of e }
{
    e.x * e.y * e.z
}

// Point k of a coordinate list, x y z in turn.
pub fn point(xs: &[f32], k: usize) -> Vec3
    requires { k * 3 + 2 < length xs.now }
    ensures { result ≡ point_at xs.now k }
{
    let i = k * 3;
    Vec3 {
        x: xs[i],
        y: xs[i + 1],
        z: xs[i + 2],
    }
}

// Whether all three coordinates are finite.
pub fn is_finite(p: Vec3) -> bool
    ensures { result ≡ finite_point p }
{
    numbers::class::is_finite32(p.x)
        & (numbers::class::is_finite32(p.y) & numbers::class::is_finite32(p.z))
}

// Whether a reach, as the cutoff of contacts, is finite, above 0 and at most MAX_REACH; where it is not, a call refuses 16.
pub fn sound_reach(k: f32) -> bool
    ensures { result ≡ sound_reach k }
{
    numbers::class::is_finite32(k) & ((0.0 < k) & (k <= MAX_REACH))
}
