// Parts written into a text that has room for them.
ghost use Rattle.std.specs.Prelude.{◌+◌, length};
ghost use Rattle.text.specs.Part.{Room, Put};
ghost use Rattle.text.specs.Line.{column};
ghost use Rattle.text.specs.Numeral.{hex_of, decimal_room, decimal_of};

use text::Text;

pub(crate) fn put_bytes(text: &mut Text<'_>, part: &[u8])
    requires { Room text.old (length part.now) }
    ensures { Put text.old text.new (length part.now) part.now }
{
    text.write_bytes(part);
}

pub(crate) fn put_hex(text: &mut Text<'_>, count: usize, value: u64)
    requires { Room text.old count }
    ensures { Put text.old text.new count (hex_of count value) }
{
    text.write_hex(count, value);
}

pub(crate) fn put_column(text: &mut Text<'_>, count: u8, value: u64)
    requires { Room text.old (1 + count) }
    ensures { Put text.old text.new (1 + count) (column count value) }
{
    text.write_column(count, value);
}

pub(crate) fn put_decimal(text: &mut Text<'_>, value: u64)
    requires { Room text.old decimal_room }
    ensures { Put text.old text.new decimal_room (decimal_of value) }
{
    text.write_decimal(value);
}
