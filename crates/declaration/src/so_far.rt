// What is declared so far, while a file is read.
ghost use Rattle.std.specs.Prelude.{◌≡◌};
ghost use Rattle.declaration.specs.Blank.{empty_contents, empty_function, no_identity, no_mask, nothing_so_far};

use address::ConfigOffset;
use address::limits::{BAR_SLOTS, CONFIG_BYTE_LIMIT, FUNCTION_LIMIT};
use bar::{Aperture, MemoryBar};
use capability::{CAPABILITY_BODY_MAX_SIZE, Capabilities};
use config::{BODY_SPACE, ConfigByte, Contents, Function, Identity};

// The aperture, the devices in the order of the file, the latest function, and the write masks of its latest capability.
// Devices are an array and a count, since there is no heap.
#[derive(Clone, Copy)]
pub struct SoFar {
    pub aperture: Option<Aperture>,
    pub devices: [u8; FUNCTION_LIMIT],
    pub count: usize,
    pub function: Function,
    pub mask: [u8; CAPABILITY_BODY_MAX_SIZE],
}

#[tactic(auto, unfolding(crate::specs::Blank::empty_contents))]
fn no_contents(identity: Identity) -> Contents
    ensures { result ≡ empty_contents identity }
{
    let none = ConfigByte {
        offset: ConfigOffset::zero(),
        value: 0,
        mask: 0,
    };
    Contents {
        identity,
        intx: None,
        bytes: [none; CONFIG_BYTE_LIMIT],
        byte_count: 0,
        bodies: [0u8; BODY_SPACE],
        masks: [0u8; BODY_SPACE],
    }
}

// A function with a device and an identity, and nothing else declared of it.
#[tactic(auto, unfolding(crate::specs::Blank::empty_function))]
pub(crate) fn empty_function(device: u8, identity: Identity) -> Function
    ensures { result ≡ empty_function device identity }
{
    let none = MemoryBar::none();
    Function {
        device,
        contents: no_contents(identity),
        bars: [none; BAR_SLOTS],
        capabilities: Capabilities::none(),
    }
}

fn no_identity() -> Identity
    ensures { result ≡ no_identity }
{
    Identity {
        vendor: 0,
        device: 0,
        subsystem_vendor: 0,
        subsystem: 0,
        revision: 0,
        base_class: 0,
        subclass: 0,
        programming_interface: 0,
    }
}

// What stands past the last function.
pub(crate) fn no_function() -> Function
    ensures { result ≡ empty_function 0 no_identity }
{
    empty_function(0, no_identity())
}

#[tactic(auto, unfolding(crate::specs::Blank::no_mask))]
pub(crate) fn no_mask() -> [u8; CAPABILITY_BODY_MAX_SIZE]
    ensures { result ≡ no_mask }
{
    [0u8; CAPABILITY_BODY_MAX_SIZE]
}

impl SoFar {
    // Before the first field.
    #[tactic(auto, unfolding(crate::specs::Blank::nothing_so_far))]
    pub fn new() -> SoFar
        ensures { result ≡ nothing_so_far }
    {
        SoFar {
            aperture: None,
            devices: [0u8; FUNCTION_LIMIT],
            count: 0,
            function: no_function(),
            mask: no_mask(),
        }
    }
}
