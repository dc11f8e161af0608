// What enumeration reports of a device.
use address::limits::{BAR_SLOTS, CAPABILITY_LIMIT};
use config::Identity;

// A slot: its size and address; a size of 0 is an empty one.
#[repr(C)]
#[derive(Clone, Copy)]
pub struct SlotReport {
    pub size: u64,
    pub address: u64,
}

// A capability in the list: its offset and id.
#[repr(C)]
#[derive(Clone, Copy)]
pub struct Listed {
    pub offset: u8,
    pub id: u8,
}

// For C by a fixed layout, so no Option: absent, with everything blank; or identity, pin, slots, and the list of capabilities, blank past its count.
#[repr(C)]
#[derive(Clone, Copy)]
pub struct Report {
    pub present: bool,
    pub identity: Identity,
    pub pin: u8,
    pub slots: [SlotReport; BAR_SLOTS],
    pub list: [Listed; CAPABILITY_LIMIT],
    pub list_count: usize,
}
