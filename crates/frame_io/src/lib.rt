// What program `frame` does (docs/RULES.md): reads one block from standard input and prints `refused` and the number, `blank`, or the
// listing. No contract can say which bytes the system gives or takes; `put_frame` promises the text of the input for every reader and writer
// whose bytes are known.
#![tactic(auto)]

ghost use Rattle.std.specs.Prelude.{◌≡◌, ◌≤◌, ◌<◌, length, IfOk, IfSome, OnOk};
ghost use Rattle.std.specs.Io.KnownBytes.{Appends};
ghost use Rattle.block.specs.Block.{max_block};
ghost use Rattle.block_text.specs.Printed.{printed};
ghost use Rattle.std.specs.Counts.{IsPrefixLen};
ghost use Rattle.frame_io.specs.Input.{WholeText, TextLength};

use block::MAX_BLOCK;
use block_text::TEXT_ROOM;
use std::io;
use std::io::{Read, Write};

// One byte more than a block may have, so that longer input is seen.
const INPUT_ROOM: usize = MAX_BLOCK + 1;

// Writes the text of the input that the buffer holds with its first n bytes, and answers how many bytes that is. The buffer is longer
// than a block may be, so that its text is the whole input's.
fn put_input(input: &[u8], n: usize, out: &mut [u8; TEXT_ROOM]) -> usize
    requires { (max_block < length input.now) × (n ≤ length input.now) }
    ensures room { IsPrefixLen result out.new }
    ensures text { WholeText input.now n out.old result out.new }
{
    block_text::put_text(&input[..n], out)
}

// Reads the input, to its end or until the buffer is full, writes its text, and answers how many bytes that has.
pub fn put_frame<R: Read, W: Write>(from: &mut R, to: &mut W) -> io::Result<usize>
    ensures length { IfOk result (λ n. TextLength n) }
    ensures count { IfOk result (λ n. IfSome (R.remaining from.old) (λ s. n ≡ length (printed s))) }
    ensures text { OnOk result (IfSome (R.remaining from.old) (λ s. Appends (W.contents to.old) (W.contents to.new) (printed s))) }
{
    let mut input: [u8; INPUT_ROOM] = base::room(0);
    let n = input::read_full(from, &mut input)?;
    let mut out: [u8; TEXT_ROOM] = base::room(0);
    let m = put_input(&input, n, &mut out);
    to.write_all(&out[..m])?;
    Ok(m)
}

// Reads the input, to its end or until the buffer is full, prints its text, and answers how many bytes that has.
pub fn print_frame(rt: &(impl Input + Print)) -> io::Result<usize>
    ensures { IfOk result (λ n. TextLength n) }
{
    put_frame(&mut rt.reader(), &mut io::writer(rt))
}
