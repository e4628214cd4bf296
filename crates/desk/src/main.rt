// The desk: reads call records from standard input to the end, and writes an answer to each to standard output.

#![tactic(auto)]

use lanes::{Desk, stream};

fn main(rt: HostRuntime) {
    // A read or a write that fails ends the desk, and nothing is said of it.
    let _ = stream::run(
        &mut rt.stdin(),
        &mut rt.stdout(),
        &mut [0; Desk::WORDS],
        &mut [0; Desk::INPUT],
        &mut [0; Desk::OUTPUT],
    );
}
