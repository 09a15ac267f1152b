// What kind of value a float is, and its bits.
ghost use Rattle.std.specs.Prelude.{◌≡◌, from_bits, to_bits};
ghost use Rattle.std.specs.Float.Ieee.{nan_bits};
ghost use Rattle.std.specs.Float.Ieee.Scale.{finite};

use crate::width::Width;

// Whether x is neither a NaN nor an infinity: taken from itself it leaves a zero.
pub fn is_finite32(x: f32) -> bool
    ensures { result ≡ finite x }
{
    x - x == 0.0
}

// Whether b is a NaN's pattern: without its sign it is above infinity's.
fn is_nan_bits<W: Width>(b: W::Bits) -> bool
    ensures { result ≡ nan_bits W.format (W.number b) }
{
    W::to_u64(b) & (W::SIGN_BIT - 1) > W::INFINITY_BITS
}

// The float with these bits; every NaN's pattern is the one NaN.
pub fn from_bits<W: Width>(b: W::Bits) -> W
    ensures { W.value result ≡ from_bits W.format (W.number b) }
{
    if is_nan_bits::<W>(b) {
        return W::nan();
    }
    W::of_bits(b)
}

// The bits of x; a NaN's are NAN_BITS.
pub fn to_bits<W: Width>(x: W) -> W::Bits
    ensures { W.number result ≡ to_bits W.format (W.value x) }
{
    if x.is_nan() {
        return W::from_u64(W::NAN_BITS);
    }
    x.bits()
}
