// The program `frame` (docs/RULES.md): reads one block of at most 60,000 bytes from standard input and prints `refused` and the number,
// `blank`, or the listing. The gate runs it on the listed frame (docs/RULES.md).
#![tactic(auto)]

use std::io;

fn main(rt: HostRuntime) -> io::Result<()> {
    frame_io::print_frame(&rt)?;
    Ok(())
}
