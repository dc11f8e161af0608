// Framing: from a position in the file to a field's tag and body.
ghost use Rattle.std.specs.Prelude.{◌≡◌};
ghost use Rattle.declaration.specs.Frame.{frame_of};
ghost use Rattle.declaration.specs.Reader.{more_at, field_body, next_from};

use crate::tag::Tag;
use refusal::Refusal;

const FIELD_HEADER: usize = 3;

// A field: its tag, and the span of its body in the file. The tag is a byte, since `say` and `take_field` take every byte.
#[derive(Clone, Copy, Debug, PartialEq, Eq)]
pub struct Field {
    pub tag: u8,
    pub start: usize,
    pub length: usize,
}

// The field at a position of the file.
pub fn frame_at(file: &[u8], at: usize) -> Result<Field, Refusal>
    ensures { result ≡ frame_of file.now at }
{
    let left = word::past(file.len(), at);
    if left < FIELD_HEADER {
        return Err(Refusal::FieldCut);
    }
    let byte = file[at];
    let length = word::read(file, at + 1, 2) as usize;
    let Some(tag) = Tag::new(byte) else {
        return Err(Refusal::BadForm);
    };
    if !tag.allows(length) {
        return Err(Refusal::BadForm);
    }
    if tag.is_long(length) {
        return Err(Refusal::LongBody);
    }
    if left - FIELD_HEADER < length {
        return Err(Refusal::FieldCut);
    }
    Ok(Field {
        tag: byte,
        start: at + FIELD_HEADER,
        length,
    })
}

// Whether there is a field at a position.
pub fn more_at(file: &[u8], at: usize) -> bool
    ensures { result ≡ more_at file.now at }
{
    at < file.len()
}

// The body of the field at a position, as that part of the file; an empty part where the field is refused.
#[tactic(auto, unfolding(crate::specs::Reader::field_body))]
pub fn field_body<'a>(file: &'a [u8], at: usize) -> &'a [u8]
    ensures { result.now ≡ field_body file.now at }
{
    match frame_at(file, at) {
        Ok(field) => word::part(file, field.start, field.length),
        Err(_) => &file[..0],
    }
}

// Where the field after it starts; the position itself where the field is refused.
#[tactic(auto, unfolding(crate::specs::Reader::next_from))]
pub fn next_at(file: &[u8], at: usize) -> usize
    ensures { result ≡ next_from file.now at }
{
    match frame_at(file, at) {
        Ok(field) => field.start + field.length,
        Err(_) => at,
    }
}
