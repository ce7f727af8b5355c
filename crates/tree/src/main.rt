// Reads a tape on standard input and prints the tree of every package after it.
#![tactic(auto)]

use std::io;

#[tactic(auto, using(run::proofs::Printing::text_within))]
fn main(rt: HostRuntime) -> io::Result<()> {
    run::print(&rt, &mut [0; listing::TREES], run::tree_text)
}
