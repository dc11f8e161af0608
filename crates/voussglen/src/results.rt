// Questions and answers as plain structs, since C has no Option and no Result. `refusal` is document 01's number, 0 where there is none; what an answer does not tell is 0.
ghost use Rattle.std.specs.Prelude.{◌≡◌};
ghost use Rattle.voussglen.specs.Result.{no_effect};

use capability::{EffectHit, PlacedEffect};

// What an answer is; C has it as a byte.
#[derive(Clone, Copy, Debug, PartialEq, Eq)]
pub enum Kind {
    Refused = 0,
    Value = 1,
    Stored = 2,
    Dropped = 3,
    Probing = 4,
    Moved = 5,
    Kept = 6,
    Effect = 7,
    Hit = 8,
    Miss = 9,
}

// `width` bytes at `offset` of a device.
#[repr(C)]
#[derive(Clone, Copy)]
pub struct ReadAsk {
    pub device: usize,
    pub offset: usize,
    pub width: usize,
}

// Refused, a value, or an effect.
#[repr(C)]
#[derive(Clone, Copy)]
pub struct ReadResult {
    pub kind: u8,
    pub refusal: u8,
    pub value: u64,
    pub effect: EffectHit,
}

// `width` bytes of `value` at `offset` of a device.
#[repr(C)]
#[derive(Clone, Copy)]
pub struct WriteAsk {
    pub device: usize,
    pub offset: usize,
    pub width: usize,
    pub value: u64,
}

// Refused (20 with the device), stored, dropped, probing, moved or kept (with the slot and the committed address), or an effect.
#[repr(C)]
#[derive(Clone, Copy)]
pub struct WriteResult {
    pub kind: u8,
    pub refusal: u8,
    pub device: u8,
    pub slot: usize,
    pub address: u64,
    pub effect: EffectHit,
}

// `width` bytes at a memory address.
#[repr(C)]
#[derive(Clone, Copy)]
pub struct LookupAsk {
    pub address: u64,
    pub width: usize,
}

// Refused, a hit with device, slot and offset, or a miss.
#[repr(C)]
#[derive(Clone, Copy)]
pub struct LookupResult {
    pub kind: u8,
    pub refusal: u8,
    pub device: u8,
    pub slot: usize,
    pub offset: u64,
}

// 20 with the lowest device whose revision stayed, or 0.
#[repr(C)]
#[derive(Clone, Copy)]
pub struct ResetResult {
    pub refusal: u8,
    pub device: u8,
}

// A refusal's place: an offset of the file where `in_file` says so, else a device and an index.
#[repr(C)]
#[derive(Clone, Copy)]
pub struct StartResult {
    pub refusal: u8,
    pub in_file: bool,
    pub device: u8,
    pub offset: usize,
    pub index: usize,
}

// What an answer says that is none of an effect.
pub(crate) fn no_effect() -> EffectHit
    ensures { result ≡ no_effect }
{
    EffectHit {
        capability_id: 0,
        region: PlacedEffect::none(),
        offset: 0,
        region_offset: 0,
    }
}
