// A function's state.
ghost use Rattle.std.specs.Prelude.{◌≡◌};
ghost use Rattle.config.specs.State.{in_bar, bar_at, slot_at, with_bar, no_body};
ghost use Rattle.config.specs.Space.{space_of};

use address::config_layout;
use address::config_layout::CONFIG_SPACE_BYTES;
use address::limits::BAR_SLOTS;
use bar::BarState;
use capability::{CAPABILITY_BODY_MAX_SIZE, Placed, Snapshot};

// Two images and the write masks, six BARs by value (a plan of size 0 is no BAR), the placed capabilities and effects, the revision.
#[repr(C)]
#[derive(Clone, Copy)]
pub struct FunctionState {
    pub live: [u8; CONFIG_SPACE_BYTES],
    pub power_on: [u8; CONFIG_SPACE_BYTES],
    pub mask: [u8; CONFIG_SPACE_BYTES],
    pub bars: [BarState; BAR_SLOTS],
    pub placed: Placed,
    pub revision: u64,
}

// How many bytes of config space a function has.
pub fn space_of(state: FunctionState) -> u16
    ensures { result ≡ space_of state }
{
    config_layout::CONFIG_SPACE_SIZE
}

// The slot whose register has the byte at an offset.
pub fn slot_at(offset: usize) -> usize
    ensures { result ≡ slot_at offset }
{
    if offset < config_layout::CONFIG_BAR_START {
        return 0;
    }
    (offset - config_layout::CONFIG_BAR_START) / config_layout::CONFIG_BAR_REGISTER_SIZE
}

// The BAR at an index; that of an empty slot past the last.
pub fn bar_at(bars: [BarState; BAR_SLOTS], i: usize) -> BarState
    ensures { result ≡ bar_at bars i }
{
    if i < BAR_SLOTS {
        return bars[i];
    }
    BarState::none()
}

// Whether an offset lies in the register of a slot that has a BAR.
pub fn in_bar(bars: [BarState; BAR_SLOTS], offset: usize) -> bool
    ensures { result ≡ in_bar bars offset }
{
    if offset < config_layout::CONFIG_BAR_START {
        return false;
    }
    if config_layout::CONFIG_BAR_END <= offset {
        return false;
    }
    let bar = bar_at(bars, slot_at(offset));
    bar.plan.size != 0
}

// The copy of no body.
pub fn no_body() -> Snapshot
    ensures { result ≡ no_body }
{
    Snapshot {
        length: 0,
        bytes: [0u8; CAPABILITY_BODY_MAX_SIZE],
    }
}

// The state with the BAR at an index changed; an index past the last changes nothing.
pub fn with_bar(state: FunctionState, i: usize, bar: BarState) -> FunctionState
    ensures { result ≡ with_bar state i bar }
{
    if BAR_SLOTS <= i {
        return state;
    }
    let mut out = state;
    out.bars[i] = bar;
    out
}
