// What `frame` prints for a block of the greatest size: 59,998 bytes, for a block's length is 2 more than a multiple of 4. Standard input is
// block 34 of crates/replay/stdin (oracle/README.md, 'Recorded answers'), standard output its recorded listing.
#![tactic(auto)]

use std::io;

fn main(rt: HostRuntime) -> io::Result<()> {
    frame_io::print_frame(&rt)?;
    Ok(())
}
