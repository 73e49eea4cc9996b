// Reads a listing's text from standard input and prints a record of it: the number of facts and of records, the
// root, and how many records each level has; or the fault that keeps it from being opened.

#![tactic(auto)]

mod printing;

use printing::{print_fault, print_summary};
use std::io::Read;
use text::summary::summarize;

// A level has four digits in a text.
const LEVELS: usize = 10_000;

fn run(rt: &HostRuntime) -> anyhow::Result<()> {
    let mut bytes = Vec::new(rt.alloc());
    rt.stdin().read_to_end(&mut bytes)?;
    let mut counts = vec![in rt.alloc(); 0usize; LEVELS]?;
    match summarize(bytes.as_slice(), counts.as_mut_slice()) {
        Ok(summary) => print_summary(rt, summary, counts.as_slice()),
        Err(fault) => print_fault(rt, fault),
    }
}

fn main(rt: HostRuntime) -> anyhow::Result<()> {
    run(&rt)
}
