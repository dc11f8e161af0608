// Checks and registers, on plain numbers: C has no Option and no Result.
ghost use Rattle.std.specs.Prelude.{◌≡◌};
ghost use Rattle.refusal.specs.Refusal.{answer_number};
ghost use Rattle.address.specs.Layout.{config_space_size};
ghost use Rattle.address.specs.Kinds.{slot};
ghost use Rattle.address.specs.Check.{access_of};
ghost use Rattle.bar.specs.Bar.{bar_of};
ghost use Rattle.bar.specs.Register.{size_mask};
ghost use Rattle.bar.specs.State.{shown, asks};
ghost use Rattle.bar.specs.declared.memory_bar.Request.TheVariants.{Auto};
ghost use Rattle.capability.specs.Declaration.{capability_of};
ghost use Rattle.harness.specs.Scalar.{bar_with, asked_numbers};

use address::config_layout::CONFIG_SPACE_SIZE;
use address::{Slot, check};
use bar::{BarState, BarWrite, MemoryBar, Plan, Request};
use capability::Capability;

// What a write to a BAR's register asks for: a probe, or an address; that is 0 for a probe.
#[repr(C)]
#[derive(Clone, Copy)]
pub struct BarAsked {
    pub probe: bool,
    pub address: u64,
}

// Refusal 18, or 0.
#[unsafe(no_mangle)]
pub extern "C" fn harness_check(offset: usize, width: usize) -> u8
    ensures { result ≡ answer_number (access_of config_space_size offset width) }
{
    refusal::number(check(CONFIG_SPACE_SIZE, offset, width))
}

// Refusal 7, or 0.
#[unsafe(no_mangle)]
pub extern "C" fn harness_size(size: u64) -> u8
    ensures { result ≡ answer_number (bar_of (slot 0) size Auto) }
{
    refusal::number(MemoryBar::new(Slot::zero(), size, Request::Auto))
}

// What a BAR of this size reads while it is probed.
#[unsafe(no_mangle)]
pub extern "C" fn harness_size_mask(size: u64) -> u64
    ensures { result ≡ size_mask size }
{
    bar::size_mask(size)
}

// A BAR of this size at this address.
fn bar_with(size: u64, address: u64, probing: bool) -> BarState
    ensures { result ≡ bar_with size address probing }
{
    let plan = Plan {
        slot: Slot::zero(),
        size,
        address,
    };
    BarState {
        plan,
        address,
        probing,
    }
}

// What the register of a BAR reads.
#[unsafe(no_mangle)]
pub extern "C" fn harness_shown(size: u64, address: u64, probing: bool) -> u64
    ensures { result ≡ shown (bar_with size address probing) }
{
    let bar = bar_with(size, address, probing);
    bar.raw_dword()
}

// What a write of `width` bytes to the register of a BAR, from `lane` on, asks for.
#[unsafe(no_mangle)]
pub extern "C" fn harness_bar_asks(
    size: u64,
    address: u64,
    probing: bool,
    lane: usize,
    width: usize,
    value: u64,
) -> BarAsked
    ensures { result ≡ asked_numbers (asks (bar_with size address probing) lane width value) }
{
    let bar = bar_with(size, address, probing);
    match bar.write(lane, width, value) {
        BarWrite::Probe => BarAsked {
            probe: true,
            address: 0,
        },
        BarWrite::Relocate(address) => BarAsked {
            probe: false,
            address,
        },
    }
}

// Refusal 10 of a body of this length, or 0.
#[unsafe(no_mangle)]
pub extern "C" fn harness_body(length: usize) -> u8
    ensures { result ≡ answer_number (capability_of 0 length) }
{
    refusal::number(Capability::new(0, length))
}
