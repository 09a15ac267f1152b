// The lines of a vector file.
ghost use Rattle.std.specs.Prelude.{◌≤◌, ◌<◌, length, IfSome};

// What a line holds.
#[derive(Clone, Copy)]
pub(crate) enum Line {
    // An argument and the result that it must give.
    Vector(u64, u64),
    // A comment, or nothing.
    Remark,
    Damaged,
}

// The first line of a text and what follows its newline. An empty text has no line.
pub(crate) fn cut(text: &[u8]) -> Option<(&[u8], &[u8])>
    ensures { IfSome result (λ r. length r.1.now < length text.now) }
{
    if text.is_empty() {
        return None;
    }
    Some(match text.iter().position(|c| *c == b'\n') {
        Some(end) => (&text[..end], &text[end + 1..]),
        None => (text, &[]),
    })
}

// What a capital hexadecimal digit counts.
fn digit(c: u8) -> Option<u64> {
    match c {
        b'0'..=b'9' => Some((c - b'0') as u64),
        b'A'..=b'F' => Some((c - b'A') as u64 + 10),
        _ => None,
    }
}

// What a word of hexadecimal digits counts.
fn bits_of(s: &[u8]) -> Option<u64> {
    let mut bits: u64 = 0;
    for c in s {
        bits = (bits << 4) | digit(*c)?;
    }
    Some(bits)
}

// Reads a line whose two words have so many digits, with one blank between.
pub(crate) fn read(s: &[u8], input: usize, output: usize) -> Line
    requires { (input ≤ 16) × (output ≤ 16) }
{
    if let [] | [b'#', ..] = s {
        return Line::Remark;
    }
    let second = input + 1;
    if s.len() != second + output || s[input] != b' ' {
        return Line::Damaged;
    }
    match (bits_of(&s[..input]), bits_of(&s[second..])) {
        (Some(x), Some(y)) => Line::Vector(x, y),
        _ => Line::Damaged,
    }
}
