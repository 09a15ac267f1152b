// The text that program `frame` prints for a block (docs/RULES.md): the block is read, the whole frame worked out, and its answer listed.
// Beside what `frame_text` keeps on its stack there are the tables of the block, about 180,000 bytes.
#![tactic(auto)]

ghost use Rattle.std.specs.Prelude.{◌≡◌, false, ◌≤◌, length};
ghost use Rattle.base.specs.Tables.{over};
ghost use Rattle.listing.specs.Listing.{text_answer, text_after};
ghost use Rattle.block_text.specs.Printed.{printed};

use base::Refused;
use touch::CUTOFF;

// The bytes that a text has at most: a listing's lines besides the leaves have 162, and each of 2,048 leaves has 116, where every
// number has twenty digits.
pub const TEXT_ROOM: usize = 162 + 2048 * 116;

// The numbers that a block of the greatest size has in one part.
const PART_ROOM: usize = 14988;

// The text of the bytes that were read: 7, or the bytes written.
fn put_block(bytes: &[u8], out: &mut [u8]) -> Result<usize, Refused>
    ensures answer { result ≡ text_answer false (printed bytes.now) out.old }
    ensures after { out.new ≡ text_after false (printed bytes.now) out.old }
{
    let mut indices: [u32; PART_ROOM] = base::room(0);
    let mut solutes: [f32; PART_ROOM] = base::room(0.0);
    let mut waters: [f32; PART_ROOM] = base::room(0.0);
    match block::read_block(bytes, &mut indices, &mut solutes, &mut waters) {
        Ok(f) => frame_text::put_frame(
            f.cell,
            CUTOFF,
            &solutes[..f.solutes * 3],
            f.per,
            &indices[..f.indices],
            &waters[..f.waters * 3],
            out,
        ),
        Err(e) => listing::put_refused(e.number(), out),
    }
}

// Writes what is printed for the bytes that were read, and answers how many bytes that is: every text fits the buffer.
pub fn put_text(bytes: &[u8], out: &mut [u8; TEXT_ROOM]) -> usize
    ensures written { (result ≡ length (printed bytes.now)) × (result ≤ length out.new) }
    ensures after { out.new ≡ over (printed bytes.now) out.old }
{
    // Never 0: there is room.
    put_block(bytes, out).unwrap_or(0)
}
