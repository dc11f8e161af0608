// What is declared of a function beside its BARs and capabilities.
use address::limits::{BAR_SLOTS, CONFIG_BYTE_LIMIT};
use address::{ConfigOffset, config_layout};
use bar::MemoryBar;
use capability::Capabilities;

// The bytes from 0x40 on, where capabilities lie.
pub const BODY_SPACE: usize = config_layout::CONFIG_SPACE_BYTES
    - config_layout::CONFIG_STANDARD_HEADER_END;

#[repr(C)]
#[derive(Clone, Copy)]
pub struct Identity {
    pub vendor: u16,
    pub device: u16,
    pub subsystem_vendor: u16,
    pub subsystem: u16,
    pub revision: u8,
    pub base_class: u8,
    pub subclass: u8,
    pub programming_interface: u8,
}

// The pin, 1 to 4, and the line.
#[derive(Clone, Copy, Debug, PartialEq, Eq)]
pub struct Intx {
    pub pin: u8,
    pub line: u8,
}

#[repr(C)]
#[derive(Clone, Copy)]
pub struct ConfigByte {
    pub offset: ConfigOffset,
    pub value: u8,
    pub mask: u8,
}

// The bytes of bodies and masks lie each at its place in config space, from 0x40 on. There is no heap.
#[derive(Clone, Copy)]
pub struct Contents {
    pub identity: Identity,
    pub intx: Option<Intx>,
    pub bytes: [ConfigByte; CONFIG_BYTE_LIMIT],
    pub byte_count: usize,
    pub bodies: [u8; BODY_SPACE],
    pub masks: [u8; BODY_SPACE],
}

// A function as it is declared; BARs by slot, a blank where there is none.
#[derive(Clone, Copy)]
pub struct Function {
    pub device: u8,
    pub contents: Contents,
    pub bars: [MemoryBar; BAR_SLOTS],
    pub capabilities: Capabilities,
}
