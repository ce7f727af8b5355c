// Reads a tape on standard input and prints a line for each of its records.
#![tactic(auto)]

use std::io;

#[tactic(auto, using(run::proofs::Printing::text_within))]
fn main(rt: HostRuntime) -> io::Result<()> {
    run::print(&rt, &mut [0; run::LINES], run::tape_text)
}
