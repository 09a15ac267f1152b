// What `frame` prints for input longer than a block may be, whose length is right but for that: 14. Standard input is block 35 of
// crates/replay/stdin (oracle/README.md, 'Recorded answers'), 60,002 bytes.
#![tactic(auto)]

use std::io;

fn main(rt: HostRuntime) -> io::Result<()> {
    frame_io::print_frame(&rt)?;
    Ok(())
}
