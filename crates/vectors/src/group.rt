// A group of vectors: a file, and the operation that it is about.
ghost use Rattle.std.specs.Prelude.{◌≡◌, ◌+◌, ◌≤◌, ◌<◌, length, IfOk};

use crate::line::{self, Line};
use crate::operation::Operation;
use std::rt::Files;
use std::{fs, io};

// How many vectors agreed, of how many.
#[derive(Clone, Copy)]
struct Tally {
    agreed: u64,
    of: u64,
}

// The tally after a vector more, which counts whether it agreed or not.
fn compare(
    rt: &impl Print,
    name: &str,
    op: Operation,
    input: u64,
    expected: u64,
    t: Tally,
) -> io::Result<Tally>
    requires { (t.agreed ≤ t.of) × (t.of < 65536) }
    ensures { IfOk result (λ r. (r.agreed ≤ r.of) × (r.of ≡ t.of + 1)) }
{
    let got = op.answer(input);
    let agrees = got == expected;
    if !agrees {
        let (i, o) = (op.input_digits(), op.output_digits());
        println!(rt; "{name}: of {input:0i$X} expected {expected:0o$X}, got {got:0o$X}")?;
    }
    Ok(Tally {
        agreed: t.agreed + u64::from(agrees),
        of: t.of + 1,
    })
}

// The tally after a line more, which has that number in its file.
fn take_line(
    rt: &impl Print,
    name: &str,
    op: Operation,
    s: &[u8],
    number: u64,
    t: Tally,
) -> io::Result<Tally>
    requires { (t.agreed ≤ t.of) × (t.of < 65536) }
    ensures { IfOk result (λ r. (r.agreed ≤ r.of) × (r.of ≤ t.of + 1)) }
{
    match line::read(s, op.input_digits(), op.output_digits()) {
        Line::Vector(input, expected) => compare(rt, name, op, input, expected, t),
        Line::Remark => Ok(t),
        Line::Damaged => {
            println!(rt; "{name}: line {number} is no vector")?;
            Ok(t)
        }
    }
}

// Takes the lines of a file in turn.
fn take_lines(rt: &impl Print, name: &str, op: Operation, text: &[u8]) -> io::Result<Tally>
    requires { length text.now ≤ 65536 }
{
    let mut t = Tally { agreed: 0, of: 0 };
    let mut number: u64 = 0;
    let mut rest = text;
    // No `for` over `split`: of an iterator with a closure in a generic function no invariant can be stated, and `of` would have no bound.
    while let Some((s, after)) = line::cut(rest) {
        number += 1;
        rest = after;
        t = take_line(rt, name, op, s, number, t)?;
    }
    Ok(t)
}

// Runs the vectors of a file and prints what came of it.
pub(crate) fn run(
    rt: &(impl Files + Print),
    name: &str,
    path: &str,
    op: Operation,
) -> io::Result<()> {
    let Ok(mut file) = fs::open(rt, path) else {
        return println!(rt; "{name}: cannot open {path}");
    };
    let mut text: [u8; 65536] = base::room(0);
    let n = input::read_full(&mut file, &mut text)?;
    // A full buffer may have cut the file off.
    if n == text.len() {
        println!(rt; "{name}: the file is too long")?;
    }
    let t = take_lines(rt, name, op, &text[..n])?;
    println!(rt; "{name}: {} of {}", t.agreed, t.of)
}
