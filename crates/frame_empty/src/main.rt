// What `frame` prints for no input: 14. Standard input is an empty file.
#![tactic(auto)]

use std::io;

fn main(rt: HostRuntime) -> io::Result<()> {
    frame_io::print_frame(&rt)?;
    Ok(())
}
