// A line's answer, and the bus after it.
ghost use Rattle.std.specs.Prelude.{◌≡◌};
ghost use Rattle.text.specs.Part.{Room, Put};
ghost use Rattle.text.specs.Text.{Holds};
ghost use Rattle.command.specs.Command.{command_of};
ghost use Rattle.dialogue.specs.Access.{write_text, reset_text};
ghost use Rattle.dialogue.specs.Report.{report_text};
ghost use Rattle.dialogue.specs.Answer.{unknown_text, unknown_room, answer_room, answer_text, bus_after};
ghost use Rattle.bus.specs.Access.{bus_write_of};
ghost use Rattle.bus.specs.Reset.{bus_reset_of};
ghost use Rattle.enumeration.specs.Enumerate.{enumerate_of};

use crate::access::{put_lookup, put_read, put_reset, put_write};
use crate::dump::put_dump;
use crate::part::put_bytes;
use crate::report::{put_report, put_revision};
use address::limits::FUNCTION_LIMIT;
use bus::Bus;
use command::{Command, command_of};
use text::Text;

// The longest answer: a dump of every function, 24 bytes, 16 lines of 52 and an empty line each.
pub const ANSWER_ROOM: usize = FUNCTION_LIMIT * (24 + 16 * 52 + 1);

// The most bytes that are shown of a line that is not known.
pub const LINE_MOST: usize = 4096;

// How long the answer in the lent buffer is, and the bus after it.
#[derive(Clone, Copy)]
pub struct Answered {
    pub length: usize,
    pub bus: Bus,
}

#[tactic(auto, unfolding(crate::specs::Answer::unknown_text))]
fn put_unknown(text: &mut Text<'_>, line: &[u8])
    requires { Room text.old unknown_room }
    ensures { Put text.old text.new unknown_room (unknown_text line.now) }
{
    put_bytes(text, b"? ");
    put_bytes(text, word::part(line, 0, LINE_MOST));
    put_bytes(text, b"\n");
}

fn answer_write(
    text: &mut Text<'_>,
    bus: Bus,
    device: usize,
    offset: usize,
    width: usize,
    value: u64,
) -> Bus
    requires { Room text.old answer_room }
    ensures told { Put text.old text.new answer_room (write_text (bus_write_of bus device offset width value).answer) }
    ensures after { result ≡ (bus_write_of bus device offset width value).bus }
{
    let done = bus::write(bus, device, offset, width, value);
    put_write(text, done.answer);
    done.bus
}

fn answer_reset(text: &mut Text<'_>, bus: Bus) -> Bus
    requires { Room text.old answer_room }
    ensures told { Put text.old text.new answer_room (reset_text (bus_reset_of bus).answer) }
    ensures after { result ≡ (bus_reset_of bus).bus }
{
    let done = bus::reset(bus);
    put_reset(text, done.answer);
    done.bus
}

fn answer_enumerate(text: &mut Text<'_>, bus: Bus, device: usize) -> Bus
    requires { Room text.old answer_room }
    ensures told { Put text.old text.new answer_room (report_text device (enumerate_of bus device).report) }
    ensures after { result ≡ (enumerate_of bus device).bus }
{
    let done = enumeration::enumerate(bus, device);
    let report = done.report;
    put_report(text, device, report);
    done.bus
}

// Answers a command, and gives the bus after it; the line is shown where it is not known.
fn answer_command(text: &mut Text<'_>, line: &[u8], bus: Bus, asked: Command) -> Bus
    requires { Room text.old answer_room }
    ensures told { Put text.old text.new answer_room (answer_text bus line.now asked) }
    ensures after { result ≡ bus_after bus asked }
{
    match asked {
        Command::Read {
            device,
            offset,
            width,
        } => put_read(text, width, bus::read(bus, device, offset, width)),
        Command::Write {
            device,
            offset,
            width,
            value,
        } => return answer_write(text, bus, device, offset, width, value),
        Command::Lookup { address, width } => put_lookup(text, bus::lookup(bus, address, width)),
        Command::Reset => return answer_reset(text, bus),
        Command::Enumerate(device) => return answer_enumerate(text, bus, device),
        Command::Revision(device) => put_revision(text, bus, device),
        Command::Dump => put_dump(text, bus),
        Command::Unknown => put_unknown(text, line),
    }
    bus
}

// Answers a line, without its end: the text goes to the front of the buffer.
pub fn answer(text: &mut [u8; ANSWER_ROOM], line: &[u8], bus: Bus) -> Answered
    ensures { Holds text.new result.length (answer_text bus line.now (command_of line.now)) × (result.bus ≡ bus_after bus (command_of line.now)) }
{
    let mut text = Text { bytes: text, at: 0 };
    let after = answer_command(&mut text, line, bus, command_of(line));
    Answered {
        length: text.at,
        bus: after,
    }
}
