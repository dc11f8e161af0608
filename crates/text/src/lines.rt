// The lines of the text.
ghost use Rattle.std.specs.Prelude.{◌≡◌};
ghost use Rattle.text.specs.Part.{Room, Put};
ghost use Rattle.text.specs.Line.{aperture_line, device_text, bar_line, place_text, refused_line, aperture_length, bar_length, place_room, refused_room};

use crate::buffer::Text;
use bar::Aperture;
use declaration::{DeclarationRefusal, Place};

impl<'a> Text<'a> {
    #[tactic(auto, unfolding(crate::specs::Line::aperture_line))]
    pub(crate) fn put_aperture(&mut self, aperture: Aperture)
        requires { Room self.old aperture_length }
        ensures { Put self.old self.new aperture_length (aperture_line aperture) }
    {
        self.put_bytes(b"aperture");
        self.put_column(9, aperture.start);
        self.put_column(9, aperture.end);
        self.put_bytes(b"\n");
    }

    // The device and a dot.
    #[tactic(auto, unfolding(crate::specs::Line::device_text))]
    fn put_device(&mut self, device: u8)
        requires { Room self.old 3 }
        ensures { Put self.old self.new 3 (device_text device) }
    {
        self.put_hex(2, u64::from(device));
        self.put_bytes(b".");
    }

    #[tactic(auto, unfolding(crate::specs::Line::bar_line))]
    pub(crate) fn put_bar(&mut self, device: u8, slot: usize, address: u64, size: u64)
        requires { Room self.old bar_length }
        ensures { Put self.old self.new bar_length (bar_line device slot address size) }
    {
        self.put_device(device);
        self.put_hex(1, slot as u64);
        self.put_column(8, address);
        self.put_column(9, size);
        self.put_bytes(b"\n");
    }

    #[tactic(auto, unfolding(crate::specs::Line::place_text))]
    fn put_place(&mut self, place: Place)
        requires { Room self.old place_room }
        ensures { Put self.old self.new place_room (place_text place) }
    {
        match place {
            Place::Offset(offset) => self.put_decimal(offset as u64),
            Place::Index { device, index } => {
                self.put_device(device);
                self.put_decimal(index as u64);
            }
        }
    }

    #[tactic(auto, unfolding(crate::specs::Line::refused_line))]
    pub(crate) fn put_refused(&mut self, refused: DeclarationRefusal)
        requires { Room self.old refused_room }
        ensures { Put self.old self.new refused_room (refused_line refused) }
    {
        self.put_bytes(b"refused ");
        self.put_decimal(u64::from(refused.refusal.number()));
        self.put_bytes(b" ");
        self.put_place(refused.place);
        self.put_bytes(b"\n");
    }
}
