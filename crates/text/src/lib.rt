// Words, numbers and floats as bytes in a lent buffer, each written with the byte after it. A piece is written from entry `at` on, and answers
// where it ends.
#![tactic(auto)]

ghost use Rattle.std.specs.Prelude.{◌≡◌, ◌+◌, ◌<◌, ◌≤◌, length};
ghost use Rattle.base.specs.Tables.{placed};
ghost use Rattle.text.specs.Text.{glyph as glyph_of, digits, places, decimal, hex, hex_bits, occupancy, followed};

// The digit that counts d.
fn glyph(d: usize) -> u8
    requires { d < 16 }
    ensures { result ≡ glyph_of d }
{
    if d < 10 { 48 + d as u8 } else { 55 + d as u8 }
}

// How many decimal digits n has: a usize has twenty at most.
pub fn decimal_places(n: usize) -> usize
    ensures { (result ≡ places n) × (result ≤ 20) }
{
    n.max(1).ilog10() as usize + 1
}

// The last k digits of n, from the last to the first. By hand: `write!` does not promise that it answers Ok, and `listing::put_listing`
// promises its text wherever that has room.
fn put_digits(n: usize, base: usize, k: usize, out: &mut [u8], at: usize) -> usize
    requires { (0 < base) × (base ≤ 16) × (at + k ≤ length out.old) }
    ensures { (result ≡ at + k) × (out.new ≡ placed at (digits base k n) out.old) }
{
    let mut m = n;
    for i in (0..k).rev() {
        out[at + i] = glyph(m % base);
        m /= base;
    }
    at + k
}

pub fn put_text(text: &[u8], out: &mut [u8], at: usize) -> usize
    requires { at + length text.now ≤ length out.old }
    ensures { (result ≡ at + length text.now) × (out.new ≡ placed at text.now out.old) }
{
    let end = at + text.len();
    out[at..end].copy_from_slice(text);
    end
}

// n in decimal.
pub fn put_number(n: usize, after: u8, out: &mut [u8], at: usize) -> usize
    requires { at + length (followed (decimal n) after) ≤ length out.old }
    ensures { (result ≡ at + length (followed (decimal n) after)) × (out.new ≡ placed at (followed (decimal n) after) out.old) }
{
    let end = put_digits(n, 10, decimal_places(n), out, at);
    out[end] = after;
    end + 1
}

// A word's bits in eight digits.
pub fn put_word(w: u32, after: u8, out: &mut [u8], at: usize) -> usize
    requires { at + length (followed (hex w) after) ≤ length out.old }
    ensures { (result ≡ at + length (followed (hex w) after)) × (out.new ≡ placed at (followed (hex w) after) out.old) }
{
    let end = put_digits(w as usize, 16, 8, out, at);
    out[end] = after;
    end + 1
}

// A float's bits.
pub fn put_bits(x: f32, after: u8, out: &mut [u8], at: usize) -> usize
    requires { at + length (followed (hex_bits x) after) ≤ length out.old }
    ensures { (result ≡ at + length (followed (hex_bits x) after)) × (out.new ≡ placed at (followed (hex_bits x) after) out.old) }
{
    put_word(numbers::class::to_bits(x), after, out, at)
}

// `dry` where the word is 0, else its bits.
pub fn put_occupancy(w: u32, out: &mut [u8], at: usize) -> usize
    requires { at + length (followed (occupancy w) 32) ≤ length out.old }
    ensures { (result ≡ at + length (followed (occupancy w) 32)) × (out.new ≡ placed at (followed (occupancy w) 32) out.old) }
{
    if w == 0 {
        return put_text(b"dry ", out, at);
    }
    put_word(w, b' ', out, at)
}
