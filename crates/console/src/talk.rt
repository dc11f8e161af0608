// A dialogue over a bus: input is taken as it comes, and each line is answered as soon as it ends.
use bus::Bus;
use dialogue::{ANSWER_ROOM, Answered, LINE_MOST};
use std::io;
use std::io::{ErrorKind, Read, Write};

// How much of the last line is held in the buffer, which outlives it, and whether it began before that.
#[derive(Clone, Copy)]
struct Held {
    pub length: usize,
    pub long: bool,
}

#[derive(Clone, Copy)]
struct Talk {
    pub bus: Bus,
    pub held: Held,
}

fn nothing_held() -> Held {
    Held {
        length: 0,
        long: false,
    }
}

// The bytes that are held of a line.
fn held_bytes<'a>(line: &'a [u8], held: Held) -> &'a [u8] {
    word::part(line, 0, held.length)
}

// Writes what is held of a line that is longer than the buffer: it is taken for no command, and shown.
fn show<W: Write>(output: &mut W, line: &[u8], held: Held) -> io::Result<()> {
    if !held.long {
        output.write_all(b"? ")?;
    }
    output.write_all(held_bytes(line, held))
}

fn answer_line<W: Write>(output: &mut W, line: &[u8], held: Held, bus: Bus) -> io::Result<Bus> {
    let mut text = [0u8; ANSWER_ROOM];
    let done = dialogue::answer(&mut text, held_bytes(line, held), bus);
    let length = done.length;
    output.write_all(&text[..length])?;
    Ok(done.bus)
}

// The line has ended: the bus after its answer.
fn end_line<W: Write>(output: &mut W, line: &[u8], held: Held, bus: Bus) -> io::Result<Bus> {
    if held.long {
        show(output, line, held)?;
        output.write_all(b"\n")?;
        return Ok(bus);
    }
    answer_line(output, line, held, bus)
}

// One byte more of the line.
fn keep<W: Write>(
    output: &mut W,
    line: &mut [u8; LINE_MOST],
    held: Held,
    byte: u8,
) -> io::Result<Held> {
    let at = held.length;
    if at < LINE_MOST {
        line[at] = byte;
        return Ok(Held {
            length: at + 1,
            long: held.long,
        });
    }
    show(output, line, held)?;
    line[0] = byte;
    Ok(Held {
        length: 1,
        long: true,
    })
}

// Takes what was read.
fn hear<W: Write>(
    output: &mut W,
    line: &mut [u8; LINE_MOST],
    input: &[u8],
    talk: Talk,
) -> io::Result<Talk> {
    let mut bus = talk.bus;
    let mut held = talk.held;
    for byte in input {
        if *byte == b'\n' {
            bus = end_line(output, line, held, bus)?;
            held = nothing_held();
        } else {
            held = keep(output, line, held, *byte)?;
        }
    }
    Ok(Talk { bus, held })
}

// The input has ended; the last line may lack its end.
fn close<W: Write>(output: &mut W, line: &[u8], talk: Talk) -> io::Result<()> {
    if talk.held.length > 0 {
        end_line(output, line, talk.held, talk.bus)?;
    }
    Ok(())
}

// Reads once, and answers what came; `None` where the input has ended.
fn listen<R: Read, W: Write>(
    input: &mut R,
    output: &mut W,
    line: &mut [u8; LINE_MOST],
    talk: Talk,
) -> io::Result<Option<Talk>> {
    let mut came = [0u8; 4096];
    match input.read(&mut came) {
        Ok(0) => {
            close(output, line, talk)?;
            Ok(None)
        }
        Ok(count) => {
            let next = hear(output, line, &came[..count], talk)?;
            Ok(Some(next))
        }
        Err(e) => {
            if e.kind() == ErrorKind::Interrupted {
                return Ok(Some(talk));
            }
            Err(e)
        }
    }
}

fn blank_line() -> [u8; LINE_MOST] {
    [0u8; LINE_MOST]
}

// A proved loop ends, so it has a number of turns, one that no run uses up.
pub fn converse<R: Read, W: Write>(input: &mut R, output: &mut W, bus: Bus) -> io::Result<()> {
    let mut line = blank_line();
    let mut talk = Talk {
        bus,
        held: nothing_held(),
    };
    for _ in 0..u64::MAX {
        match listen(input, output, &mut line, talk)? {
            Some(next) => talk = next,
            None => return Ok(()),
        }
    }
    Ok(())
}
