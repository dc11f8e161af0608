// The config layout: offsets and bits of a type 0 header.
pub const CONFIG_SPACE_SIZE: u16 = 0x100;

// The same as the length of an image.
pub const CONFIG_SPACE_BYTES: usize = CONFIG_SPACE_SIZE as usize;

pub const CONFIG_DWORD_SIZE: usize = 4;

pub const ACCESS_WIDTH_MOST: usize = 4;

pub const CONFIG_VENDOR_ID_OFFSET: usize = 0x00;

// The vendor that an absent function reads as.
pub const ABSENT_VENDOR_ID: u16 = 0xffff;

pub const CONFIG_DEVICE_ID_OFFSET: usize = 0x02;

pub const CONFIG_COMMAND_OFFSET: usize = 0x04;

pub const CONFIG_STATUS_OFFSET: usize = 0x06;

pub const CONFIG_REVISION_OFFSET: usize = 0x08;

pub const CONFIG_PROGRAMMING_INTERFACE_OFFSET: usize = 0x09;

pub const CONFIG_SUBCLASS_OFFSET: usize = 0x0a;

pub const CONFIG_BASE_CLASS_OFFSET: usize = 0x0b;

pub const CONFIG_CACHE_LINE_SIZE_OFFSET: usize = 0x0c;

pub const CONFIG_LATENCY_TIMER_OFFSET: usize = 0x0d;

pub const CONFIG_HEADER_TYPE_OFFSET: usize = 0x0e;

pub const CONFIG_BAR_START: usize = 0x10;

pub const CONFIG_BAR_REGISTER_SIZE: usize = 4;

pub const CONFIG_BAR_END: usize = 0x28;

pub const CONFIG_SUBSYSTEM_VENDOR_ID_OFFSET: usize = 0x2c;

pub const CONFIG_SUBSYSTEM_DEVICE_ID_OFFSET: usize = 0x2e;

pub const CONFIG_CAPABILITY_POINTER_OFFSET: usize = 0x34;

pub const CONFIG_INTERRUPT_LINE_OFFSET: usize = 0x3c;

pub const CONFIG_INTERRUPT_PIN_OFFSET: usize = 0x3d;

pub const CONFIG_STANDARD_HEADER_END: usize = 0x40;

pub const BAR_COUNT: u8 = 6;

pub const COMMAND_MEMORY_SPACE_ENABLE: u8 = 0x02;

pub const COMMAND_BUS_MASTER_ENABLE: u8 = 0x04;

pub const COMMAND_INTERRUPT_DISABLE: u8 = 0x04;

pub const STATUS_CAPABILITIES_LIST: u8 = 0x10;
