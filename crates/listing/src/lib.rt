// What program `frame` prints (docs/RULES.md), written into a lent buffer: `refused` and a number, `blank`, or the listing.
// The text's length is counted before its first byte is written, so that a refusal changes nothing.
#![tactic(auto)]

ghost use Rattle.std.specs.Prelude.{◌≡◌, false};
ghost use Rattle.listing.specs.Listing.{refused_text, blank_text, listing_text, leaves_missing, text_answer, text_after};

// sizes.rt: how many bytes a text has
mod sizes;
// lines.rt: the lines of the listing
mod lines;

use base::Refused;
use mixing::Mixture;

// `refused` and the number: 7, or the bytes written.
pub fn put_refused(n: u32, out: &mut [u8]) -> Result<usize, Refused>
    ensures answer { result ≡ text_answer false (refused_text n) out.old }
    ensures after { out.new ≡ text_after false (refused_text n) out.old }
{
    let number = n as usize;
    if out.len() < 9 + text::decimal_places(number) {
        return Err(Refused::Short);
    }
    let word = text::put_text(b"refused ", out, 0);
    Ok(text::put_number(number, b'\n', out, word))
}

// `blank`: 7, or the bytes written.
pub fn put_blank(out: &mut [u8]) -> Result<usize, Refused>
    ensures answer { result ≡ text_answer false blank_text out.old }
    ensures after { out.new ≡ text_after false blank_text out.old }
{
    if out.len() < 6 {
        return Err(Refused::Short);
    }
    Ok(text::put_text(b"blank\n", out, 0))
}

// The listing, with the leaves that the leaf table begins with: 7, also where it has fewer, or the bytes written.
pub fn put_listing(m: Mixture, leaves: &[u32], out: &mut [u8]) -> Result<usize, Refused>
    ensures answer { result ≡ text_answer (leaves_missing leaves.now m.report.leaves) (listing_text m leaves.now) out.old }
    ensures after { out.new ≡ text_after (leaves_missing leaves.now m.report.leaves) (listing_text m leaves.now) out.old }
{
    let count = m.report.leaves;
    if leaves.len() / 8 < count {
        return Err(Refused::Short);
    }
    let head = sizes::head_size(m);
    if out.len() < head {
        return Err(Refused::Short);
    }
    if !sizes::leaves_fit(leaves, count, out.len() - head) {
        return Err(Refused::Short);
    }
    Ok(lines::put_lines(m, leaves, out))
}
