// Files and what the placement program has to print for each, as an independent implementation answered.
#![tactic(auto)]

mod records;

use records::{ROOM, agrees, next_at};
use std::io;

// How many of so many records, from the first on, differ.
fn differing(records: &[u8], count: u64) -> u64 {
    let mut at = 8;
    let mut differ: u64 = 0;
    for _done in 0..count {
        let text = next_at(records, at);
        if !agrees(records, at, text) {
            differ += 1;
        }
        at = next_at(records, text);
    }
    differ
}

// One line: how many files, for how many the text differs.
fn main(rt: HostRuntime) -> io::Result<()> {
    let mut records = [0u8; ROOM];
    let read = streams::fill(&mut rt.stdin(), &mut records)?;
    let count = word::read(&records[..read], 0, 8);
    let differ = differing(&records[..read], count);
    println!(rt; "files: {count} files, {differ} differ")
}
