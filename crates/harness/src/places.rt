// Placement in numbers: C has no Option and no Result.
ghost use Rattle.std.specs.Prelude.{◌≡◌, ◌<◌};
ghost use Rattle.address.specs.Layout.{bar_count};
ghost use Rattle.address.specs.Kinds.{slot};
ghost use Rattle.address.specs.Limits.{function_room};
ghost use Rattle.harness.specs.Places.{request_of, bar_in, slots_in, function_in, functions_in, placed_out, place_of};

use address::Slot;
use address::limits::{BAR_SLOTS, FUNCTION_LIMIT};
use bar::{Aperture, MemoryBar, Request};
use placement::{DeclaredBars, FunctionBars, KEY_COUNT, PlacementRefusal, resolve_bar_addresses};
use refusal::ACCEPTED;
use std::array;

// The aperture, and the BARs of `count` functions: place `i * 6 + slot` of an array is that slot of function i, and a size of 0 is no BAR. C reads this layout.
#[repr(C)]
#[derive(Clone, Copy)]
pub struct PlaceNumbers {
    pub start: u64,
    pub end: u64,
    pub count: usize,
    pub devices: [u8; FUNCTION_LIMIT],
    pub sizes: [u64; KEY_COUNT],
    pub fixed: [bool; KEY_COUNT],
    pub addresses: [u64; KEY_COUNT],
}

// Refusal 0 where all are placed; else 14 to 17, with the device and the slot, and no address.
#[repr(C)]
#[derive(Clone, Copy)]
pub struct PlacedOut {
    pub refusal: u8,
    pub device: u8,
    pub slot: u8,
    pub addresses: [u64; KEY_COUNT],
}

fn slot_at(index: usize) -> Slot
    requires { index < bar_count }
    ensures { result ≡ slot index }
{
    Slot::new(index as u8).unwrap()
}

fn request_of(fixed: bool, address: u64) -> Request
    ensures { result ≡ request_of fixed address }
{
    if fixed {
        return Request::Fixed(address);
    }
    Request::Auto
}

// The BAR at a slot of a function.
fn bar_in(request: PlaceNumbers, function: usize, slot: usize) -> MemoryBar
    requires { (function < function_room) × (slot < bar_count) }
    ensures { result ≡ bar_in request function slot }
{
    let sizes = request.sizes;
    let fixed = request.fixed;
    let addresses = request.addresses;
    let key = function * BAR_SLOTS + slot;
    let asked = request_of(fixed[key], addresses[key]);
    match MemoryBar::new(slot_at(slot), sizes[key], asked) {
        Ok(bar) => bar,
        Err(_) => MemoryBar::none(),
    }
}

fn bars_in(request: PlaceNumbers, function: usize) -> [MemoryBar; BAR_SLOTS]
    requires { function < function_room }
    ensures { result ≡ slots_in request function }
{
    array::from_fn(|slot| bar_in(request, function, slot))
}

fn function_in(request: PlaceNumbers, function: usize) -> FunctionBars
    requires { function < function_room }
    ensures { result ≡ function_in request function }
{
    let devices = request.devices;
    FunctionBars {
        device: devices[function],
        count: BAR_SLOTS,
        bars: bars_in(request, function),
    }
}

fn functions_in(request: PlaceNumbers) -> [FunctionBars; FUNCTION_LIMIT]
    ensures { result ≡ functions_in request }
{
    array::from_fn(|i| function_in(request, i))
}

fn placed_out(placement: Result<[u64; KEY_COUNT], PlacementRefusal>) -> PlacedOut
    ensures { result ≡ placed_out placement }
{
    match placement {
        Ok(addresses) => PlacedOut {
            refusal: ACCEPTED,
            device: 0,
            slot: 0,
            addresses,
        },
        Err(refused) => PlacedOut {
            refusal: refused.refusal.number(),
            device: refused.device,
            slot: refused.slot,
            addresses: [0u64; KEY_COUNT],
        },
    }
}

// Places the BARs.
#[unsafe(no_mangle)]
pub extern "C" fn harness_place(request: PlaceNumbers) -> PlacedOut
    ensures { result ≡ place_of request }
{
    let functions = functions_in(request);
    let declared = DeclaredBars {
        count: request.count,
        functions,
    };
    let aperture = Aperture {
        start: request.start,
        end: request.end,
    };
    placed_out(resolve_bar_addresses(aperture, declared))
}
