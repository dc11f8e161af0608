// How many there can be, and so the lengths of the arrays that hold them.
use crate::config_layout::BAR_COUNT;

pub const FUNCTION_LIMIT: usize = 8;

pub const CAPABILITY_LIMIT: usize = 16;

pub const EFFECT_LIMIT: usize = 32;

pub const CONFIG_BYTE_LIMIT: usize = 32;

// The BARs of one function, as a length.
pub const BAR_SLOTS: usize = BAR_COUNT as usize;
