// The console: a bus of the declaration that the first argument names; each line of standard input is answered at once.
#![tactic(auto)]

mod talk;

use std::fs::File;
use std::io::{Read, Write};
use std::{env, io};
use talk::converse;
use text::{FILE_MOST, TEXT_ROOM};

// What the placement program prints.
fn refuse<W: Write>(output: &mut W, file: &[u8]) -> io::Result<()> {
    let mut text = [0u8; TEXT_ROOM];
    let length = text::file_text(&mut text, file);
    output.write_all(&text[..length])
}

// A dialogue over a file's bus, or the refusal of the file.
fn open<R: Read, W: Write>(input: &mut R, output: &mut W, file: &[u8]) -> io::Result<()> {
    if FILE_MOST < file.len() {
        return refuse(output, file);
    }
    match bus::start(file) {
        Ok(bus) => converse(input, output, bus),
        Err(_) => refuse(output, file),
    }
}

// One byte more than a file may have tells that it is too long.
fn main(rt: HostRuntime) -> io::Result<()> {
    let Some(path) = env::args(&rt)?.nth(1) else {
        return eprintln!(rt; "console DECLARATION: Invalid argument");
    };
    let mut declared = File::open(&rt, &path)?;
    let mut file = [0u8; FILE_MOST + 1];
    let read = streams::fill(&mut declared, &mut file)?;
    open(&mut rt.stdin(), &mut rt.stdout(), &file[..read])
}
