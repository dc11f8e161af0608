// The reading of a file, field by field.
ghost use Rattle.std.specs.Prelude.{◌≡◌};
ghost use Rattle.address.specs.Limits.{limits};
ghost use Rattle.declaration.specs.Reading.{fields_of};

use crate::finished::Finished;
use crate::frame::frame_at;
use crate::so_far::SoFar;
use crate::take::take_field;
use refusal::Refusal;

// How the reading stands: the refusal, if there is one; the position of the refused field, or of the next one.
#[derive(Clone, Copy)]
pub struct Reading {
    pub refusal: Option<Refusal>,
    pub at: usize,
    pub now: SoFar,
    pub finished: Finished,
}

// Frames and takes one field after the other, up to the first that is refused. A function is finished where the next one begins.
pub fn read_fields(file: &[u8]) -> Reading
    ensures { result ≡ fields_of limits file.now }
{
    let mut at = 0;
    let mut now = SoFar::new();
    let mut finished = Finished::new();
    // It goes by the position, and each field says how far.
    while at < file.len() {
        let field = match frame_at(file, at) {
            Ok(field) => field,
            Err(refusal) => {
                return Reading {
                    refusal: Some(refusal),
                    at,
                    now,
                    finished,
                };
            }
        };
        let body = word::part(file, field.start, field.length);
        let next = match take_field(now, field.tag, body) {
            Ok(next) => next,
            Err(refusal) => {
                return Reading {
                    refusal: Some(refusal),
                    at,
                    now,
                    finished,
                };
            }
        };
        if next.count != now.count {
            finished = finished.with_latest(now);
        }
        now = next;
        at = field.start + field.length;
    }
    Reading {
        refusal: None,
        at,
        now,
        finished,
    }
}
