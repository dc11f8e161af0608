// The placement program: a declaration on standard input, where its BARs are on standard output.
#![tactic(auto)]

use std::io;
use std::io::Write;
use text::{FILE_MOST, TEXT_ROOM};

// One byte more than a file may have tells that it is too long.
fn main(rt: HostRuntime) -> io::Result<()> {
    let mut file = [0u8; FILE_MOST + 1];
    let read = streams::fill(&mut rt.stdin(), &mut file)?;
    let mut text = [0u8; TEXT_ROOM];
    let length = text::file_text(&mut text, &file[..read]);
    rt.stdout().write_all(&text[..length])
}
