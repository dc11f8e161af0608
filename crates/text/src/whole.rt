// The whole text.
ghost use Rattle.std.specs.Prelude.{◌≡◌, ◌*◌, ◌<◌};
ghost use Rattle.placement.specs.Keys.{key_count};
ghost use Rattle.text.specs.Part.{Room, Put};
ghost use Rattle.text.specs.Line.{bar_length};
ghost use Rattle.text.specs.Text.{line_at, lines_below, text_room, accepted_text, text_of, Holds};

use crate::buffer::Text;
use crate::shown::{Shown, shown_of};
use address::limits::BAR_SLOTS;
use placement::KEY_COUNT;

// The longest text: an aperture's line of 29 bytes and 48 lines of 24.
pub const TEXT_ROOM: usize = 29 + KEY_COUNT * 24;

// The longest file that is read.
pub const FILE_MOST: usize = 65_536;

impl<'a> Text<'a> {
    // The line of a key, where it has a BAR.
    fn put_key(&mut self, shown: Shown, key: usize)
        requires { Room self.old bar_length × (key < key_count) }
        ensures { Put self.old self.new bar_length (line_at shown key) }
    {
        let range = shown.ranges[key];
        if range.size != 0 {
            let device = shown.devices[key / BAR_SLOTS];
            self.put_bar(device, key % BAR_SLOTS, range.start, range.size);
        }
    }

    fn put_lines(&mut self, shown: Shown)
        requires { Room self.old (key_count * bar_length) }
        ensures { Put self.old self.new (key_count * bar_length) (lines_below shown key_count) }
    {
        for key in 0..KEY_COUNT {
            self.put_key(shown, key);
        }
    }

    #[tactic(auto, unfolding(crate::specs::Text::accepted_text))]
    fn put_accepted(&mut self, shown: Shown)
        requires { Room self.old text_room }
        ensures { Put self.old self.new text_room (accepted_text shown) }
    {
        self.put_aperture(shown.aperture);
        self.put_lines(shown);
    }
}

// The text for a file goes to the front of the buffer; its length.
pub fn file_text(text: &mut [u8; TEXT_ROOM], file: &[u8]) -> usize
    ensures { Holds text.new result (text_of file.now) }
{
    let mut text = Text { bytes: text, at: 0 };
    if FILE_MOST < file.len() {
        text.put_bytes(b"refused long\n");
        return text.at;
    }
    match bus::start(file) {
        Ok(bus) => text.put_accepted(shown_of(bus)),
        Err(refused) => text.put_refused(refused),
    }
    text.at
}
