// Recorded answers replayed: each block of the file on standard input goes through `block_text::put_text`, and what it gives is compared
// byte for byte with the listing recorded beside it. Prints how many blocks there were and how many agreed, and the number of the
// first, from 0, that did not. The file (oracle/README.md, 'Recorded answers') is a count, then for each block its length, its bytes,
// the length of its listing and the listing; counts and lengths are four bytes, the lowest first.
#![tactic(auto)]

ghost use Rattle.std.specs.Prelude.{◌≡◌, ◌+◌, ◌-◌, ◌≤◌, length, drop, IfSome};

use block_text::TEXT_ROOM;
use std::io;

// One byte more than the file has room for, so that a longer one is seen.
const FILE_ROOM: usize = 655361;

// A part of the file and what follows it: its length, and so many bytes. None where the file is cut off in it.
fn part(file: &[u8]) -> Option<(&[u8], &[u8])>
    ensures { IfSome result (λ r. (length r.1.now + 4 ≤ length file.now) × (r.1.now ≡ drop (length file.now - length r.1.now) file.now)) }
{
    let (length, rest) = file.split_first_chunk::<4>()?;
    rest.split_at_checked(u32::from_le_bytes(*length) as usize)
}

// Whether a block's text is its recorded listing.
fn agrees(block: &[u8], recorded: &[u8]) -> bool {
    let mut out: [u8; TEXT_ROOM] = base::room(0);
    let n = block_text::put_text(block, &mut out);
    &out[..n] == recorded
}

// Whether the first record agrees, and what follows it. None where the file is cut off in it.
fn record(file: &[u8]) -> Option<(bool, &[u8])>
    ensures { IfSome result (λ r. (length r.1.now + 8 ≤ length file.now) × (r.1.now ≡ drop (length file.now - length r.1.now) file.now)) }
{
    let (block, rest) = part(file)?;
    let (recorded, rest) = part(rest)?;
    Some((agrees(block, recorded), rest))
}

// `led` blocks agreed before the first that did not.
fn tell(rt: &impl Print, count: u32, agreed: u32, led: u32, more: bool) -> io::Result<()> {
    println!(rt; "{count} blocks, {agreed} agreed")?;
    if led < count {
        println!(rt; "the first that did not: {led}")?;
    }
    if more {
        println!(rt; "the file goes on after the last block")?;
    }
    Ok(())
}

fn replay(rt: &impl Print, file: &[u8]) -> io::Result<()> {
    let Some((count, mut rest)) = file.split_first_chunk::<4>() else {
        return println!(rt; "no recorded answers");
    };
    let count = u32::from_le_bytes(*count);
    let mut agreed = 0;
    let mut led = 0;
    for done in 0..count {
        let Some((agrees, after)) = record(rest) else {
            break;
        };
        rest = after;
        if agrees {
            agreed += 1;
            if led == done {
                led += 1;
            }
        }
    }
    tell(rt, count, agreed, led, !rest.is_empty())
}

fn main(rt: HostRuntime) -> io::Result<()> {
    let mut input: [u8; FILE_ROOM] = base::room(0);
    let n = input::read_full(&mut rt.reader(), &mut input)?;
    replay(&rt, &input[..n])
}
