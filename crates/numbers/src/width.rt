// The two widths of floats.
ghost use Rattle.std.specs.Prelude.{◌≡◌, ℕ, ◌*◌, ◌<◌, Float, refl, false, is_nan, from_bits, to_bits};
ghost use Rattle.std.specs.Float.{NotNan, nan, Format, binary32, binary64};
ghost use Rattle.std.specs.Float.Ieee.{nan_bits, prec, low, hid, ones, top};
ghost use Rattle.floats.proofs.Patterns.{nan32, nan64};

// f32 or f64. Callers name it as a bound. A pattern is a number here, and `Bits` outside.
pub trait Width: Copy {
    type Bits: Copy;

    // The binary digits of a significand, the leading one counted.
    const DIGITS: u64;

    // The least float above 0 is 2 ^ -LOWEST.
    const LOWEST: u64;

    // The sign's bit.
    const SIGN_BIT: u64;

    const INFINITY_BITS: u64;

    // The bits that every NaN gives (docs/RULES.md): quiet, with no sign.
    const NAN_BITS: u64;

    ghost DIGITS: { ℕ };

    ghost LOWEST: { ℕ };

    ghost SIGN_BIT: { ℕ };

    ghost INFINITY_BITS: { ℕ };

    ghost NAN_BITS: { ℕ };

    ghost format: { Format };

    ghost value: { Self → Float };

    ghost number: { Self.Bits → ℕ };

    fn to_u64(b: Self::Bits) -> u64
        ensures same { result ≡ number b }
        ensures bound { result < 2 * top format };

    fn from_u64(n: u64) -> Self::Bits
        requires { n < 2 * top format }
        ensures { number result ≡ n };

    fn is_nan(self) -> bool
        ensures { result ≡ is_nan (value self) };

    fn nan() -> Self
        ensures { value result ≡ nan };

    fn of_bits(b: Self::Bits) -> Self
        requires { nan_bits format (number b) ≡ false }
        ensures { value result ≡ from_bits format (number b) };

    fn bits(self) -> Self::Bits
        requires { NotNan (value self) }
        ensures pattern { number result ≡ to_bits format (value self) }
        ensures back { from_bits format (number result) ≡ value self };

    ghost digits_is: { DIGITS ≡ prec format };

    ghost lowest_is: { LOWEST ≡ low format };

    ghost sign_is: { SIGN_BIT ≡ top format };

    ghost infinity_is: { INFINITY_BITS ≡ ones format * hid format };

    ghost nan_is: { NAN_BITS ≡ to_bits format nan };
}

impl Width for f32 {
    type Bits = u32;

    const DIGITS: u64 = 24;

    const LOWEST: u64 = 149;

    const SIGN_BIT: u64 = 0x8000_0000;

    const INFINITY_BITS: u64 = 0x7f80_0000;

    const NAN_BITS: u64 = 0x7fc0_0000;

    ghost DIGITS = { 24 };

    ghost LOWEST = { 149 };

    ghost SIGN_BIT = { 0x8000_0000 };

    ghost INFINITY_BITS = { 0x7f80_0000 };

    ghost NAN_BITS = { 0x7fc0_0000 };

    ghost format = { binary32 };

    ghost value = { λ x. x };

    ghost number = { λ b. b };

    ghost digits_is = { refl };

    ghost lowest_is = { refl };

    ghost sign_is = { refl };

    ghost infinity_is = { refl };

    ghost nan_is = { nan32 };

    fn to_u64(b: u32) -> u64 {
        b as u64
    }

    fn from_u64(n: u64) -> u32 {
        n as u32
    }

    fn is_nan(self) -> bool {
        f32::is_nan(self)
    }

    fn nan() -> f32 {
        f32::NAN
    }

    fn of_bits(b: u32) -> f32 {
        f32::from_bits(b)
    }

    fn bits(self) -> u32 {
        f32::to_bits(self)
    }
}

impl Width for f64 {
    type Bits = u64;

    const DIGITS: u64 = 53;

    const LOWEST: u64 = 1074;

    const SIGN_BIT: u64 = 0x8000_0000_0000_0000;

    const INFINITY_BITS: u64 = 0x7ff0_0000_0000_0000;

    const NAN_BITS: u64 = 0x7ff8_0000_0000_0000;

    ghost DIGITS = { 53 };

    ghost LOWEST = { 1074 };

    ghost SIGN_BIT = { 0x8000_0000_0000_0000 };

    ghost INFINITY_BITS = { 0x7ff0_0000_0000_0000 };

    ghost NAN_BITS = { 0x7ff8_0000_0000_0000 };

    ghost format = { binary64 };

    ghost value = { λ x. x };

    ghost number = { λ b. b };

    ghost digits_is = { refl };

    ghost lowest_is = { refl };

    ghost sign_is = { refl };

    ghost infinity_is = { refl };

    ghost nan_is = { nan64 };

    fn to_u64(b: u64) -> u64 {
        b
    }

    fn from_u64(n: u64) -> u64 {
        n
    }

    fn is_nan(self) -> bool {
        f64::is_nan(self)
    }

    fn nan() -> f64 {
        f64::NAN
    }

    fn of_bits(b: u64) -> f64 {
        f64::from_bits(b)
    }

    fn bits(self) -> u64 {
        f64::to_bits(self)
    }
}
