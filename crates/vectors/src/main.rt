// Runs every worked value of the documents and prints a line for each, with what was expected. The lines are held to the file
// `stdout`.
#![tactic(auto)]

use std::io;

mod arithmetic;
mod labels;
mod report;
mod stripe;

fn main(rt: HostRuntime) -> io::Result<()> {
    arithmetic::run(&rt)?;
    stripe::run(&rt)?;
    labels::run(&rt)
}
