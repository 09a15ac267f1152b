// Runs vector files through the public functions of `numbers` and `roots`. Prints for each file how many of its vectors agreed, and a
// line for each that did not, for each line that is no vector and for each file that cannot be read whole: neither a
// wrong answer nor a damaged file leaves the output as it was.
#![tactic(auto)]

mod group;
mod line;
mod operation;

use operation::Operation;
use std::io;

fn main(rt: HostRuntime) -> io::Result<()> {
    // Worked examples.
    group::run(&rt, "worked32", "worked32.txt", Operation::Sqrt32)?;
    // Published vectors.
    group::run(&rt, "sqrt32", "sqrt32.txt", Operation::Sqrt32)?;
    group::run(&rt, "sqrt64", "sqrt64.txt", Operation::Sqrt64)?;
    // Further vectors, with the special values of each operation.
    group::run(&rt, "floor32", "floor32.txt", Operation::Floor32)?;
    group::run(&rt, "round32", "round32.txt", Operation::Round32)?;
    group::run(&rt, "widen", "widen.txt", Operation::Widen)?;
    group::run(&rt, "narrow", "narrow.txt", Operation::Narrow)
}
