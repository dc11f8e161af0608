// Replays recorded answers of axdevice: the library has to answer each question as the record says.
#![tactic(auto)]

mod access;
mod answer;
mod input;
mod record;
mod register;
mod request;

use access::same_access;
use answer::same_placement;
use register::same_register;
use std::io;
use std::io::Read;

// Whether the next record is there and the library answers as it says.
fn same<R: Read>(input: &mut R) -> io::Result<bool> {
    match input::kind(input)? {
        Some(0) => same_access(input),
        Some(1) => same_register(input),
        Some(2) => same_placement(input),
        _ => Ok(false),
    }
}

// How many of so many records differ; one that is missing differs too.
fn differing<R: Read>(input: &mut R, records: u64) -> io::Result<u64> {
    let mut differ: u64 = 0;
    for _done in 0..records {
        if !same(input)? {
            differ += 1;
        }
    }
    Ok(differ)
}

// One line: how many records, how many differ.
fn main(rt: HostRuntime) -> io::Result<()> {
    let mut input = rt.stdin();
    let records = input::records(&mut input)?;
    let differ = differing(&mut input, records)?;
    println!(rt; "replay: {records} records, {differ} differ")
}
