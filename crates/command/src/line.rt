// What a line asks.
ghost use Rattle.std.specs.Prelude.{◌≡◌, ◌≤◌};
ghost use Rattle.command.specs.Command.{word_length, argument_at, ended_by, read_by, write_by, lookup_by, device_by, command_by, command_of};

use crate::numeral::numeral_of;

#[derive(Clone, Copy)]
pub enum Command {
    Read {
        device: usize,
        offset: usize,
        width: usize,
    },
    Write {
        device: usize,
        offset: usize,
        width: usize,
        value: u64,
    },
    Lookup {
        address: u64,
        width: usize,
    },
    Reset,
    Enumerate(usize),
    Revision(usize),
    Dump,
    // What the console answers with the line itself, so a case of its own.
    Unknown,
}

// An argument: its value, and where the line goes on after it.
#[derive(Clone, Copy)]
pub struct Argument {
    pub value: u64,
    pub next: usize,
}

// How long the word from `at` on is: it goes up to the next blank or the end of the line.
fn word_length(line: &[u8], at: usize) -> usize
    ensures { result ≡ word_length line.now at }
{
    let most = word::past(line.len(), at);
    for n in 0..most {
        if line[at + n] == b' ' {
            return n;
        }
    }
    most
}

// Where the first argument begins: the line goes on after its letter.
const AFTER_LETTER: usize = 1;

// The argument from `at` on: a blank, and a number in a base.
#[tactic(auto, unfolding(crate::specs::Command::argument_at))]
fn argument_at(line: &[u8], at: usize, base: u32) -> Option<Argument>
    requires above_unary { 2 ≤ base }
    requires hex_at_most { base ≤ 16 }
    ensures { result ≡ argument_at line.now at base }
{
    if word::byte_at(line, at) != b' ' {
        return None;
    }
    let start = at + 1;
    let length = word_length(line, start);
    let value = numeral_of(word::part(line, start, length), base)?;
    Some(Argument {
        value,
        next: start + length,
    })
}

// A command, where the line ends at `at`.
fn ended(line: &[u8], at: usize, command: Command) -> Option<Command>
    ensures { result ≡ ended_by line.now at command }
{
    if at == line.len() {
        return Some(command);
    }
    None
}

const HEX: u32 = 16;

const DECIMAL: u32 = 10;

#[tactic(auto, unfolding(crate::specs::Command::read_by))]
fn read_command(line: &[u8]) -> Option<Command>
    ensures { result ≡ read_by line.now }
{
    let device = argument_at(line, AFTER_LETTER, HEX)?;
    let offset = argument_at(line, device.next, HEX)?;
    let width = argument_at(line, offset.next, DECIMAL)?;
    let command = Command::Read {
        device: device.value as usize,
        offset: offset.value as usize,
        width: width.value as usize,
    };
    ended(line, width.next, command)
}

#[tactic(auto, unfolding(crate::specs::Command::write_by))]
fn write_command(line: &[u8]) -> Option<Command>
    ensures { result ≡ write_by line.now }
{
    let device = argument_at(line, AFTER_LETTER, HEX)?;
    let offset = argument_at(line, device.next, HEX)?;
    let width = argument_at(line, offset.next, DECIMAL)?;
    let value = argument_at(line, width.next, HEX)?;
    let command = Command::Write {
        device: device.value as usize,
        offset: offset.value as usize,
        width: width.value as usize,
        value: value.value,
    };
    ended(line, value.next, command)
}

#[tactic(auto, unfolding(crate::specs::Command::lookup_by))]
fn lookup_command(line: &[u8]) -> Option<Command>
    ensures { result ≡ lookup_by line.now }
{
    let address = argument_at(line, AFTER_LETTER, HEX)?;
    let width = argument_at(line, address.next, DECIMAL)?;
    let command = Command::Lookup {
        address: address.value,
        width: width.value as usize,
    };
    ended(line, width.next, command)
}

// The device that is the only argument.
#[tactic(auto, unfolding(crate::specs::Command::device_by))]
fn device_alone(line: &[u8]) -> Option<usize>
    ensures { result ≡ device_by line.now }
{
    let device = argument_at(line, AFTER_LETTER, HEX)?;
    if device.next == line.len() {
        return Some(device.value as usize);
    }
    None
}

// The command of a letter, if the line goes on as it wants.
#[tactic(auto, unfolding(crate::specs::Command::command_by))]
fn command_by(letter: u8, line: &[u8]) -> Option<Command>
    ensures { result ≡ command_by letter line.now }
{
    match letter {
        b'r' => read_command(line),
        b'w' => write_command(line),
        b'm' => lookup_command(line),
        b'z' => ended(line, AFTER_LETTER, Command::Reset),
        b'e' => Some(Command::Enumerate(device_alone(line)?)),
        b'v' => Some(Command::Revision(device_alone(line)?)),
        b'x' => ended(line, AFTER_LETTER, Command::Dump),
        _ => None,
    }
}

// What a line asks.
#[tactic(auto, unfolding(crate::specs::Command::command_of))]
pub fn command_of(line: &[u8]) -> Command
    ensures { result ≡ command_of line.now }
{
    command_by(word::byte_at(line, 0), line).unwrap_or(Command::Unknown)
}
