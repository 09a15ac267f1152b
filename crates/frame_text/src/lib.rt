// The text that program `frame` prints for a frame that was read (docs/RULES.md): the whole frame is worked out in tables of the program's
// sizes, and its answer listed. Beside what the whole frame keeps on its stack there are these tables, about 350,000 bytes.
#![tactic(auto)]

ghost use Rattle.std.specs.Prelude.{◌≡◌, false};
ghost use Rattle.listing.specs.Listing.{text_answer, text_after};
ghost use Rattle.mixing.specs.Frame.{frame_of};
ghost use Rattle.frame_text.specs.Texts.{program_tables, frame_text};

use base::{MAX_COPIES, Refused};
use cell::Cell;
use cluster_table::HEADER;

// The records of each node table, at most.
const RECORDS: usize = 2048;

// The text of a frame, worked out at the cutoff in tables of the program's sizes: 7, or the bytes written.
pub fn put_frame(
    cell: Cell,
    cutoff: f32,
    solutes: &[f32],
    per: usize,
    indices: &[u32],
    waters: &[f32],
    out: &mut [u8],
) -> Result<usize, Refused>
    ensures answer { result ≡ text_answer false (frame_text (frame_of cell cutoff solutes.now per indices.now waters.now) program_tables) out.old }
    ensures after { out.new ≡ text_after false (frame_text (frame_of cell cutoff solutes.now per indices.now waters.now) program_tables) out.old }
{
    let mut starts: [u32; MAX_COPIES + 1] = base::room(0);
    let mut picks: [u32; 16384] = base::room(0);
    let mut clusters: [u32; HEADER + 3 * MAX_COPIES] = base::room(0);
    let mut center_order: [u32; MAX_COPIES] = base::room(0);
    let mut water_order: [u32; 4996] = base::room(0);
    let mut records: [u32; 8 * RECORDS] = base::room(0);
    let mut boxes: [f32; 6 * RECORDS] = base::room(0.0);
    let mut leaves: [u32; 8 * RECORDS] = base::room(0);
    match mixing::frame(
        cell,
        cutoff,
        solutes,
        per,
        indices,
        waters,
        &mut starts,
        &mut picks,
        &mut clusters,
        &mut center_order,
        &mut water_order,
        &mut records,
        &mut boxes,
        &mut leaves,
    ) {
        Ok(Some(m)) => listing::put_listing(m, &leaves, out),
        Ok(None) => listing::put_blank(out),
        Err(e) => listing::put_refused(e.number(), out),
    }
}
