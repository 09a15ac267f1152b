// Floor, and round with halves away from zero. A zero result takes the argument's sign; NaN and infinities stay.
// From 2^23 on every f32 is whole. Below it floor's whole part comes by shifts and masks, and from 0 up to 1 by comparisons; round's comes by a sum.
ghost use Rattle.std.specs.Prelude.{◌≡◌, if◌then◌else◌, from_bits, to_bits};
ghost use Rattle.std.specs.Float.{binary32};
ghost use Rattle.floats.specs.Whole.{floor_of, round_of};

use crate::class::{from_bits, to_bits};
use crate::order::larger;

fn floor_any32(x: f32) -> f32
    ensures { result ≡ floor_of binary32 x }
{
    if x > 0.0 {
        if x < 8388608.0 {
            return std::num::truncating_f32_to_u64(x) as f32;
        }
        return x;
    }
    if x < 0.0 {
        if x > -8388608.0 {
            let a = -x;
            let w = std::num::truncating_f32_to_u64(a);
            // A fraction is left over: the whole number below x is one further from zero.
            if (w as f32) < a {
                return -((w + 1) as f32);
            }
            return -(w as f32);
        }
        return x;
    }
    x
}

// The largest whole number that is not above x.
pub fn floor32(x: f32) -> f32
    ensures { result ≡ floor_of binary32 x }
{
    if x < 1.0 {
        if x >= 0.0 {
            return x * 0.0; // from 0 up to 1
        }
        return floor_any32(x);
    }
    floor_any32(x)
}

// 1 where t holds, else 0.
fn unit(t: bool) -> f32
    ensures { result ≡ (if t then from_bits binary32 0x3f80_0000 else from_bits binary32 0) }
{
    if t { 1.0 } else { 0.0 }
}

// From 2^23 on every f32 is whole, and a sum from 2^23 on has no room for a fraction.
const WHOLE: f32 = 8388608.0;

// The whole number nearest to x, a half away from zero. No branch turns on x's fraction or sign, which in a minimum image would be guessed wrong
// on every other separation.
pub fn round32(x: f32) -> f32
    ensures { result ≡ round_of binary32 x }
{
    let size = larger(x, -x);
    if size < WHOLE {
        let even = size + WHOLE - WHOLE; // the nearest whole number, a tie to the even one
        let away = even + unit(even + 0.5 <= size); // a tie that went down goes up
        // x * 0.0 is a zero with x's sign. Less the opposite of the answer it is the answer, and a zero keeps x's sign.
        let opposite = if 0.0 < x { -away } else { away };
        return x * 0.0 - opposite;
    }
    x
}

// The bits of the floor of the f32 whose bits are b. Every NaN gives 7FC00000.
pub fn floor_bits32(b: u32) -> u32
    ensures { result ≡ to_bits binary32 (floor_of binary32 (from_bits binary32 b)) }
{
    to_bits(floor32(from_bits(b)))
}

// The bits of the f32 whose bits are b, rounded to a whole number. Every NaN gives 7FC00000.
pub fn round_bits32(b: u32) -> u32
    ensures { result ≡ to_bits binary32 (round_of binary32 (from_bits binary32 b)) }
{
    to_bits(round32(from_bits(b)))
}
