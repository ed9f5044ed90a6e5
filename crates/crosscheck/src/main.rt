// What is not proved is run and compared: random codes by a second checker, and random lists of calls against the graph.
#![tactic(auto)]

mod build;
mod calls;
mod codes;
mod damage;
mod edges;
mod pending;
mod plan;
mod program;
mod random;
mod second;
mod sequences;
mod tally;
mod words;

use std::io;

fn main(rt: HostRuntime) -> io::Result<()> {
    let tally = codes::compare_some(60000);
    println!(rt; "{tally}")
}
