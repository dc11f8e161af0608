// Parts of a text for other crates: each follows the text, if there is room.
ghost use Rattle.std.specs.Prelude.{◌≡◌, ◌+◌, leb, length};
ghost use Rattle.text.specs.Part.{Written};
ghost use Rattle.text.specs.Line.{column};
ghost use Rattle.text.specs.Numeral.{hex_of, decimal_room, decimal_of};

use crate::buffer::{DECIMAL_ROOM, Text};

// Whether `room` bytes are free from `at` on in `length`.
fn has_room(length: usize, at: usize, room: usize) -> bool
    ensures { result ≡ leb (at + room) length }
{
    length >= room && at <= length - room
}

impl<'a> Text<'a> {
    pub fn write_bytes(&mut self, part: &[u8])
        ensures { Written self.old self.new (length part.now) part.now }
    {
        if has_room(self.bytes.len(), self.at, part.len()) {
            self.put_bytes(part);
        }
    }

    // The last `count` hex digits of a number.
    pub fn write_hex(&mut self, count: usize, value: u64)
        ensures { Written self.old self.new count (hex_of count value) }
    {
        if has_room(self.bytes.len(), self.at, count) {
            self.put_hex(count, value);
        }
    }

    // A blank and `count` hex digits.
    pub fn write_column(&mut self, count: u8, value: u64)
        ensures { Written self.old self.new (1 + count) (column count value) }
    {
        let digits = count as usize;
        if has_room(self.bytes.len(), self.at, 1 + digits) {
            self.put_column(digits, value);
        }
    }

    // A number in decimal, where its most digits have room.
    pub fn write_decimal(&mut self, value: u64)
        ensures { Written self.old self.new decimal_room (decimal_of value) }
    {
        if has_room(self.bytes.len(), self.at, DECIMAL_ROOM) {
            self.put_decimal(value);
        }
    }
}
