// Square root, correctly rounded, at two widths. The bits are split into sign, exponent and fraction by shifts and masks,
// the root is taken over whole numbers, one digit a turn, and the fields are put together again.
// It is not std's sqrt: the must-fail edits `root_rounded_down` and `root32_below_zero` edit these bodies.
#![tactic(auto)]

ghost use Rattle.std.specs.Prelude.{◌≡◌, suc, ◌*◌, ◌/◌, ◌%◌, ◌^◌, ◌<◌, ◌≤◌};
ghost use Rattle.std.specs.Float.Ieee.{hid, ones, of_bits, to_bits};
ghost use Rattle.floats.specs.Inner.{Rooted, Packed};
ghost use Rattle.floats.specs.Root.{root_drop, root_digits, sqrt_of};

use numbers::class::from_bits;
use numbers::width::Width;

// The whole root of m * 4^n / 2^54, where m has at most 54 binary digits: a digit of the root a turn.
// `rem` is what the square of `r` leaves of the digits of m taken so far, two at a time from the top.
fn root(m: u64, n: u64) -> u64
    requires { (m < 2 ^ 54) × (n ≤ 54) }
    ensures { Rooted (m * 4 ^ n / 2 ^ 54) result }
{
    let mut r: u64 = 0;
    let mut rem: u64 = 0;
    let mut w: u64 = m;
    for _ in 0..n {
        let t = rem * 4 + (w >> 52);
        w = (w & 0xf_ffff_ffff_ffff) << 2;
        let digit = (r * 4 < t) as u64;
        rem = t - (r * 4 + 1) * digit;
        r = r * 2 + digit;
    }
    r
}

// A rounded root by its fields: digits * 2^exponent, the leading digit among the digits.
#[derive(Clone, Copy)]
struct RootFields {
    exponent: u64,
    digits: u64,
}

// The root of m * 2^t to p binary digits, for an m of 53 or 54 digits and an even t.
fn even_root(m: u64, t: u64, p: u64) -> RootFields
    requires { (2 ^ 52 ≤ m) × (m < 2 ^ 54) × (t % 2 ≡ 0) × (66 ≤ t) × (t < 4096) × (p ≤ 53) }
    ensures { (result.exponent ≡ suc (root_drop p (m * 2 ^ t))) × (result.digits ≡ root_digits p (m * 2 ^ t)) }
{
    let r = root(m, p + 1);
    RootFields {
        exponent: t / 2 + 27 - p,
        digits: (r + 1) >> 1,
    }
}

// The root of m * 2^t to p binary digits. A short m is shifted up first, to 53 digits.
fn root_of(m: u64, t: u64, p: u64) -> RootFields
    requires { (0 < m) × (m < 2 ^ 53) × (120 ≤ t) × (t < 4096) × (p ≤ 53) }
    ensures { (result.exponent ≡ suc (root_drop p (m * 2 ^ t))) × (result.digits ≡ root_digits p (m * 2 ^ t)) }
{
    let s = m.leading_zeros() as u64 - 11;
    let d = m << s;
    let e = t - s;
    if e % 2 == 0 {
        return even_root(d, e, p);
    }
    even_root(d * 2, e - 1, p)
}

// The root of a finite number above zero, by the number's bits.
fn root_of_bits<W: Width>(n: u64) -> RootFields
    requires { (0 < n) × (n < ones W.format * hid W.format) }
    ensures { Packed W.format n result.exponent result.digits }
{
    let digits = W::DIGITS;
    let lowest = W::LOWEST;
    let lead = 1u64 << (digits - 1);
    let up = 53 - digits; // to the digits of an f64
    let exponent = n >> (digits - 1);
    let fraction = n & (lead - 1);
    if exponent == 0 {
        return root_of(fraction << up, lowest - up, digits);
    }
    root_of((fraction | lead) << up, exponent - 1 + lowest - up, digits)
}

// The bits of the square root of the float whose bits are b.
pub fn sqrt_bits<W: Width>(b: W::Bits) -> W::Bits
    ensures { W.number result ≡ to_bits W.format (sqrt_of W.format (of_bits W.format (W.number b))) }
{
    let n = W::to_u64(b);
    let size = n & (W::SIGN_BIT - 1);
    if size == 0 {
        return b;
    }
    if size > W::INFINITY_BITS || n != size {
        return W::from_u64(W::NAN_BITS);
    }
    if size == W::INFINITY_BITS {
        return b;
    }
    let r = root_of_bits::<W>(n);
    W::from_u64((r.exponent << (W::DIGITS - 1)) + r.digits)
}

// The square root of x.
pub fn sqrt<W: Width>(x: W) -> W
    ensures { W.value result ≡ sqrt_of W.format (W.value x) }
{
    if x.is_nan() {
        return x;
    }
    from_bits(sqrt_bits::<W>(x.bits()))
}
