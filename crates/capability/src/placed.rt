// Capabilities and effects at their places in config space, as a function's state keeps them.
ghost use Rattle.std.specs.Prelude.{◌≡◌};
ghost use Rattle.capability.specs.Blank.{no_placed_capability, no_placed_effect, nothing_placed};

use address::ConfigOffset;
use address::limits::{CAPABILITY_LIMIT, EFFECT_LIMIT};

// The bytes of a capability before its body, and the longest body.
pub const CAPABILITY_HEADER_SIZE: usize = 2;

pub const CAPABILITY_BODY_MAX_SIZE: usize = 253;

// A capability: where it starts, and how many bytes of body follow its two header bytes.
#[repr(C)]
#[derive(Clone, Copy, Debug, PartialEq, Eq)]
pub struct PlacedCapability {
    pub id: u8,
    pub offset: ConfigOffset,
    pub length: u8,
}

// An effect of the capability at index `capability`: its region starts `offset` bytes from that one's start; `access` is document 01's number, 1 read, 2 write, 3 both.
#[repr(C)]
#[derive(Clone, Copy, Debug, PartialEq, Eq)]
pub struct PlacedEffect {
    pub id: u16,
    pub capability: u8,
    pub offset: u8,
    pub length: u8,
    pub access: u8,
}

// Those of a function; what lies past a count is blank. C reads this layout, and there is no heap.
#[repr(C)]
#[derive(Clone, Copy, Debug, PartialEq, Eq)]
pub struct Placed {
    pub capabilities: [PlacedCapability; CAPABILITY_LIMIT],
    pub count: usize,
    pub effects: [PlacedEffect; EFFECT_LIMIT],
    pub effect_count: usize,
}

impl PlacedCapability {
    // What stands past the last capability; the name is a promise.
    pub fn none() -> PlacedCapability
        ensures { result ≡ no_placed_capability }
    {
        PlacedCapability {
            id: 0,
            offset: ConfigOffset::zero(),
            length: 0,
        }
    }
}

impl PlacedEffect {
    // What stands past the last effect; the name is a promise.
    pub fn none() -> PlacedEffect
        ensures { result ≡ no_placed_effect }
    {
        PlacedEffect {
            id: 0,
            capability: 0,
            offset: 0,
            length: 0,
            access: 0,
        }
    }
}

impl Placed {
    // Nothing at all.
    #[tactic(auto, unfolding(crate::specs::Blank::nothing_placed, word::specs::Table::table))]
    pub fn none() -> Placed
        ensures { result ≡ nothing_placed }
    {
        Placed {
            capabilities: [PlacedCapability::none(); CAPABILITY_LIMIT],
            count: 0,
            effects: [PlacedEffect::none(); EFFECT_LIMIT],
            effect_count: 0,
        }
    }
}
