// A bus from the bytes of a file.
ghost use Rattle.std.specs.Prelude.{◌≡◌, ◌<◌};
ghost use Rattle.address.specs.Layout.{bar_count};
ghost use Rattle.address.specs.Kinds.{slot};
ghost use Rattle.address.specs.Limits.{limits, function_room};
ghost use Rattle.bus.specs.Start.{function_bars, declared_bars, bars_placed, function_start, devices_of, functions_of, bus_of, start_declared, start_of};

use crate::state::{Bus, no_function_state};
use address::Slot;
use address::config_layout::CONFIG_SPACE_SIZE;
use address::limits::{BAR_SLOTS, FUNCTION_LIMIT};
use bar::{BarState, Plan};
use capability::{Placed, layout_capabilities};
use config::{Function, FunctionState, PowerOn};
use declaration::{Declaration, DeclarationRefusal, Place, read_declaration};
use placement::{DeclaredBars, FunctionBars, KEY_COUNT, resolve_bar_addresses};
use std::array;

fn function_bars(function: Function) -> FunctionBars
    ensures { result ≡ function_bars function }
{
    let bars = function.bars;
    FunctionBars {
        device: function.device,
        count: BAR_SLOTS,
        bars,
    }
}

// The declared BARs, as placement takes them.
fn declared_bars(declaration: Declaration) -> DeclaredBars
    ensures { result ≡ declared_bars declaration }
{
    DeclaredBars {
        count: declaration.count,
        functions: declaration
            .functions
            .map(|function| function_bars(function)),
    }
}

// The slot at an index. It asks a bound, so no public function can be both this one and that of harness.
fn slot_at(i: usize) -> Slot
    requires { i < bar_count }
    ensures { result ≡ slot i }
{
    Slot::new(i as u8).unwrap()
}

// The BARs of the function at an index, each where it was placed.
fn bars_placed(function: Function, addresses: [u64; KEY_COUNT], k: usize) -> [BarState; BAR_SLOTS]
    requires { k < function_room }
    ensures { result ≡ bars_placed function addresses k }
{
    array::from_fn(|i| {
        let bar = function.bars[i];
        BarState::new(Plan {
            slot: slot_at(i),
            size: bar.size(),
            address: addresses[k * BAR_SLOTS + i],
        })
    })
}

// The function at an index, at power-on.
fn function_start(function: Function, addresses: [u64; KEY_COUNT], k: usize) -> FunctionState
    requires { k < function_room }
    ensures { result ≡ function_start function addresses k }
{
    let bars = bars_placed(function, addresses, k);
    let capabilities = function.capabilities;
    let placed = layout_capabilities(CONFIG_SPACE_SIZE, capabilities).unwrap_or(Placed::none());
    let contents = function.contents;
    let power_on = PowerOn::build(contents, bars, placed);
    FunctionState::new(power_on, bars, placed)
}

// The devices in order, and nothing past the last.
fn devices_of(declaration: Declaration) -> [u8; FUNCTION_LIMIT]
    ensures { result ≡ devices_of declaration }
{
    let count = word::at_most(declaration.count, FUNCTION_LIMIT);
    let mut devices = [0u8; FUNCTION_LIMIT];
    for k in 0..count {
        let function = declaration.functions[k];
        devices[k] = function.device;
    }
    devices
}

// The functions at power-on, and blanks past the last.
fn functions_of(
    declaration: Declaration,
    addresses: [u64; KEY_COUNT],
) -> [FunctionState; FUNCTION_LIMIT]
    ensures { result ≡ functions_of declaration addresses }
{
    let count = word::at_most(declaration.count, FUNCTION_LIMIT);
    let none = no_function_state();
    let mut functions = [none; FUNCTION_LIMIT];
    for k in 0..count {
        functions[k] = function_start(declaration.functions[k], addresses, k);
    }
    functions
}

// The bus of a declaration whose BARs have these addresses.
fn bus_of(declaration: Declaration, addresses: [u64; KEY_COUNT]) -> Bus
    ensures { result ≡ bus_of declaration addresses }
{
    let aperture = declaration.aperture;
    Bus {
        aperture,
        devices: devices_of(declaration),
        functions: functions_of(declaration, addresses),
        count: declaration.count,
    }
}

// Placement, then power-on images.
#[tactic(auto, unfolding(crate::specs::Start::start_declared))]
fn start_declared(declaration: Declaration) -> Result<Bus, DeclarationRefusal>
    ensures { result ≡ start_declared declaration }
{
    match resolve_bar_addresses(declaration.aperture, declared_bars(declaration)) {
        Ok(addresses) => Ok(bus_of(declaration, addresses)),
        Err(refused) => Err(DeclarationRefusal {
            refusal: refused.refusal,
            place: Place::Index {
                device: refused.device,
                index: refused.slot as usize,
            },
        }),
    }
}

// Starts a bus from a declaration file.
#[tactic(auto, unfolding(crate::specs::Start::start_of))]
pub fn start(file: &[u8]) -> Result<Bus, DeclarationRefusal>
    ensures { result ≡ start_of limits file.now }
{
    start_declared(read_declaration(file)?)
}
