// A reader that holds the lent file and its position, thin over the functions on slice and position.
// It is no iterator: `next` looks without moving, and a refused field is met again.
ghost use Rattle.std.specs.Prelude.{◌≡◌};
ghost use Rattle.declaration.specs.Frame.{frame_of};
ghost use Rattle.declaration.specs.Reader.{more_at, field_body, next_from};

use crate::frame::{Field, field_body, frame_at, more_at, next_at};
use refusal::Refusal;

#[derive(Clone, Copy)]
pub struct Reader<'a> {
    pub file: &'a [u8],
    pub at: usize,
}

impl<'a> Reader<'a> {
    // At the start of a file.
    pub fn new(file: &'a [u8]) -> Reader<'a>
        ensures { (result.file ≡ file.entry) × (result.at ≡ 0) }
    {
        Reader { file, at: 0 }
    }

    // Whether there is a next field.
    pub fn more(self) -> bool
        ensures { result ≡ more_at self.entry.file.now self.entry.at }
    {
        more_at(self.file, self.at)
    }

    // The next field, or its refusal.
    pub fn next(self) -> Result<Field, Refusal>
        ensures { result ≡ frame_of self.entry.file.now self.entry.at }
    {
        frame_at(self.file, self.at)
    }

    // Its body, as that part of the file.
    pub fn body(self) -> &'a [u8]
        ensures { result.now ≡ field_body self.entry.file.now self.entry.at }
    {
        field_body(self.file, self.at)
    }

    // The reader past it; where it is refused, the reader stays.
    pub fn advance(self) -> Reader<'a>
        ensures { (result.file ≡ self.entry.file) × (result.at ≡ next_from self.entry.file.now self.entry.at) }
    {
        let next = next_at(self.file, self.at);
        Reader {
            file: self.file,
            at: next,
        }
    }
}
