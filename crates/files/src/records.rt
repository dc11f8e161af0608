// The records: their number, then for each a file and its text; each has its length before it and is padded to 8 bytes.
ghost use Rattle.std.specs.Prelude.{◌≤◌};

use text::TEXT_ROOM;

pub const ROOM: usize = 262_144;

// The length that stands at a place.
fn length_at(records: &[u8], at: usize) -> usize
    ensures { result ≤ 262144 }
{
    word::at_most(word::read(records, at, 8) as usize, ROOM)
}

// The bytes whose length stands at a place.
fn bytes_at<'a>(records: &'a [u8], at: usize) -> &'a [u8] {
    word::part(records, word::at_most(at, ROOM) + 8, length_at(records, at))
}

// Where the next length stands.
pub fn next_at(records: &[u8], at: usize) -> usize {
    word::at_most(at, ROOM) + 8 + (length_at(records, at) + 7) / 8 * 8
}

// Whether the text for the file at one place is the text at another.
pub fn agrees(records: &[u8], file: usize, text: usize) -> bool {
    let mut printed = [0u8; TEXT_ROOM];
    let length = text::file_text(&mut printed, bytes_at(records, file));
    check::same(&printed[..length], bytes_at(records, text))
}
