// A text in a lent buffer.
ghost use Rattle.std.specs.Prelude.{◌≡◌, ◌+◌, ◌≤◌, length};
ghost use Rattle.text.specs.Part.{Room, Put};
ghost use Rattle.text.specs.Line.{column};
ghost use Rattle.text.specs.Numeral.{hex_of, decimal_room, decimal_of};

// The text is the first `at` bytes; the next byte goes to `at`.
#[derive(Drop)]
pub struct Text<'a> {
    pub bytes: &'a mut [u8],
    pub at: usize,
}

const HEX_DIGITS: [u8; 16] = *b"0123456789abcdef";

// The most decimal digits that a number has.
pub(crate) const DECIMAL_ROOM: usize = 20;

impl<'a> Text<'a> {
    #[tactic(auto, using(crate::proofs::Writes::laid_take))]
    pub(crate) fn put_bytes(&mut self, part: &[u8])
        requires { Room self.old (length part.now) }
        ensures { Put self.old self.new (length part.now) part.now }
    {
        word::lay(self.bytes, self.at, part);
        self.at += part.len();
    }

    // The last `count` hex digits of a number, written from the last to the first.
    pub(crate) fn put_hex(&mut self, count: usize, value: u64)
        requires { Room self.old count }
        ensures { Put self.old self.new count (hex_of count value) }
    {
        let end = self.at + count;
        let mut rest = value;
        for done in 0..count {
            self.bytes[end - 1 - done] = HEX_DIGITS[(rest % 16) as usize];
            rest /= 16;
        }
        self.at = end;
    }

    // A number in decimal.
    pub(crate) fn put_decimal(&mut self, value: u64)
        requires { Room self.old decimal_room }
        ensures { Put self.old self.new decimal_room (decimal_of value) }
    {
        let mut decimal = [0u8; DECIMAL_ROOM];
        let count = io::decimal(value, &mut decimal);
        self.put_bytes(&decimal[..count]);
    }

    // A blank and hex digits.
    #[tactic(auto, unfolding(crate::specs::Line::column))]
    pub(crate) fn put_column(&mut self, count: usize, value: u64)
        requires { Room self.old (1 + count) }
        ensures { Put self.old self.new (1 + count) (column count value) }
    {
        self.put_bytes(b" ");
        self.put_hex(count, value);
    }
}
