// Document 01's refusals and their numbers.
ghost use Rattle.std.specs.Prelude.{◌≡◌};
ghost use Rattle.refusal.specs.Number.{numbers};
ghost use Rattle.refusal.specs.Refusal.{number_of, answer_number};

// The number where nothing is refused.
pub const ACCEPTED: u8 = 0;

// Why something is refused, in the order of the table.
#[derive(Clone, Copy, Debug, PartialEq, Eq, Hash)]
pub enum Refusal {
    // Header or body of a field is cut.
    FieldCut = 1,

    // Unknown tag, wrong length (even or zero for tag 6), byte outside its set, automatic address not zero.
    BadForm = 2,

    // Field out of order or repeated; file ends with no aperture.
    OutOfOrder = 3,

    // One more than a limit.
    AboveLimit = 4,

    // Device above 31 or declared twice; slot above 5 or used twice in the function.
    BadDeviceOrSlot = 5,

    // Vendor 0xffff.
    AbsentVendor = 6,

    // Size below 16, not a power of two, or above 4 GiB.
    BadSize = 7,

    // Not start < end, or end above 4 GiB.
    BadAperture = 8,

    // Config byte not at 0x0c, 0x0d, 0x3c or in 0x40 to 0xff outside every capability.
    BadConfigByte = 9,

    // Capability body above 253 bytes (length above 507).
    LongBody = 10,

    // Effect empty, starts before 2, ends after its capability, overlaps an earlier one there, or covers a byte with mask not zero.
    BadEffect = 11,

    // Effect id repeated in the function.
    RepeatedEffect = 12,

    // A capability would end after 0x100.
    PastSpace = 13,

    // Fixed address not a multiple of size.
    NotMultiple = 14,

    // Fixed range outside the aperture or past 64 bits.
    OutsideAperture = 15,

    // Fixed range overlaps one placed before.
    OverlapsPlaced = 16,

    // No free place for an automatic BAR.
    NoPlace = 17,

    // Access: offset 0x100 or more, width not 1, 2, 4, or offset not a multiple of width; memory lookup: width not 1, 2, 4, 8.
    BadAccess = 18,

    // Access touches an effect but isn't inside it, or its direction isn't allowed.
    BadTouch = 19,

    // Revision counter at its largest.
    RevisionExhausted = 20,
}

impl Refusal {
    pub fn number(self) -> u8
        ensures { result ≡ number_of self }
    {
        self as u8
    }
}

// The number of an answer, 0 where nothing is refused.
pub fn number<T: Copy>(answer: Result<T, Refusal>) -> u8
    ensures { result ≡ answer_number answer }
{
    match answer {
        Ok(_) => ACCEPTED,
        Err(refusal) => refusal.number(),
    }
}

impl From<Refusal> for u8 {
    ghost from_gives = { λ refusal n. n ≡ number_of refusal };

    fn from(refusal: Refusal) -> u8 {
        refusal.number()
    }
}

// All numbers, in order; the promise holds the enum to the definitions.
pub fn all() -> [u8; 21]
    ensures { result ≡ numbers }
{
    [
        ACCEPTED,
        Refusal::FieldCut.number(),
        Refusal::BadForm.number(),
        Refusal::OutOfOrder.number(),
        Refusal::AboveLimit.number(),
        Refusal::BadDeviceOrSlot.number(),
        Refusal::AbsentVendor.number(),
        Refusal::BadSize.number(),
        Refusal::BadAperture.number(),
        Refusal::BadConfigByte.number(),
        Refusal::LongBody.number(),
        Refusal::BadEffect.number(),
        Refusal::RepeatedEffect.number(),
        Refusal::PastSpace.number(),
        Refusal::NotMultiple.number(),
        Refusal::OutsideAperture.number(),
        Refusal::OverlapsPlaced.number(),
        Refusal::NoPlace.number(),
        Refusal::BadAccess.number(),
        Refusal::BadTouch.number(),
        Refusal::RevisionExhausted.number(),
    ]
}
