// What `frame` prints for a sound block with a byte after it: 14. Standard input is that of `frame_greatest` and a newline, so that a
// buffer without room for the byte would print a listing.
#![tactic(auto)]

use std::io;

fn main(rt: HostRuntime) -> io::Result<()> {
    frame_io::print_frame(&rt)?;
    Ok(())
}
