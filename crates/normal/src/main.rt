// Reads a listing's text from standard input and writes its normal text to standard output; or, where it has a fault,
// the fault's number, place and detail in columns of 6.

#![tactic(auto)]

use anyhow::anyhow;
use listing::Record;
use normalizing::texts::{MOST_BYTES, MOST_RECORDS, normal_bytes};
use rows::row::Row;
use std::io::{Read, Write};

fn run(rt: &HostRuntime) -> anyhow::Result<()> {
    let mut input = Vec::new(rt.alloc());
    rt.stdin().read_to_end(&mut input)?;
    let mut rows = vec![in rt.alloc(); Row::default(); MOST_RECORDS]?;
    let mut records = vec![in rt.alloc(); Record::default(); MOST_RECORDS]?;
    let mut output = vec![in rt.alloc(); 0u8; MOST_BYTES]?;
    match normal_bytes(
        input.as_slice(),
        rows.as_mut_slice(),
        records.as_mut_slice(),
        output.as_mut_slice(),
    ) {
        Ok(len) => {
            let Some(normal) = output.get(..len) else {
                return Err(anyhow!("the length told is beyond the output"));
            };
            rt.stdout().write_all(normal)?;
            Ok(())
        }
        Err(_) => Err(anyhow!("the output has no room for a fault")),
    }
}

fn main(rt: HostRuntime) -> anyhow::Result<()> {
    run(&rt)
}
