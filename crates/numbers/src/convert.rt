// Conversions between the two widths: f32 to f64, exact, and f64 to the nearest f32, a tie to the even one.
ghost use Rattle.std.specs.Prelude.{◌≡◌, ◌^◌, ◌<◌, ◌≤◌, from_bits, to_bits};
ghost use Rattle.std.specs.Float.{binary32, binary64};
ghost use Rattle.std.specs.Float.Ieee.Nearest.{closest};
ghost use Rattle.floats.specs.Convert.{narrow_of};

use crate::class::{from_bits, to_bits};
use crate::width::Width;

// The f64 that is equal to x.
pub fn widen(x: f32) -> f64
    ensures { result ≡ x }
{
    std::num::f32_to_f64_with_nan(x)
}

// The bits of the f64 that is equal to the f32 whose bits are b. Every NaN gives 7FF8000000000000.
pub fn widen_bits(b: u32) -> u64
    ensures { result ≡ to_bits binary64 (from_bits binary32 b) }
{
    to_bits(widen(from_bits(b)))
}

// q / 2^k to the nearest whole number, a tie to the even one.
fn shift_nearest(q: u64, k: u64) -> u64
    requires { (q < 2 ^ 53) × (k < 64) }
    ensures { result ≡ closest q (2 ^ k) }
{
    let unit = 1u64 << k;
    let kept = q >> k;
    let twice = (q & (unit - 1)) * 2;
    if twice < unit {
        return kept;
    }
    if twice > unit {
        return kept + 1;
    }
    kept + kept % 2
}

// The bits of the f32 nearest to the f64 whose bits are n, which has no sign and is no NaN.
fn narrow_size(n: u64) -> u32
    requires { n ≤ 0x7ff0_0000_0000_0000 }
    ensures { (result ≡ to_bits binary32 (narrow_of binary32 (from_bits binary64 n))) × (result ≤ 0x7f80_0000) }
{
    let exponent = n >> 52;
    let digits = (n & 0xf_ffff_ffff_ffff) | 0x10_0000_0000_0000;
    if exponent >= 1151 {
        return 0x7f80_0000;
    }
    if exponent >= 897 {
        return (((exponent - 897) << 23) + shift_nearest(digits, 29)) as u32;
    }
    if exponent >= 872 {
        return shift_nearest(digits, 926 - exponent) as u32;
    }
    0
}

// The bits of the f32 nearest to the f64 whose bits are b, a tie to the even one.
pub fn narrow_bits(b: u64) -> u32
    ensures { result ≡ to_bits binary32 (narrow_of binary32 (from_bits binary64 b)) }
{
    let size = b & 0x7fff_ffff_ffff_ffff;
    if size > 0x7ff0_0000_0000_0000 {
        return f32::from_u64(f32::NAN_BITS);
    }
    let low = narrow_size(size);
    if b >> 63 == 0 {
        return low;
    }
    low + 0x8000_0000
}

// The f32 nearest to x, a tie to the even one.
pub fn narrow(x: f64) -> f32
    ensures { result ≡ narrow_of binary32 x }
{
    from_bits(narrow_bits(to_bits(x)))
}
