// Start from the bytes of a declaration file.
ghost use Rattle.std.specs.Prelude.{◌≡◌};
ghost use Rattle.voussglen.specs.Result.{place_result};
ghost use Rattle.voussglen.specs.Step.{start_step};

use crate::results::StartResult;
use bus::Bus;
use declaration::Place;

fn at_place(refusal: u8, place: Place) -> StartResult
    ensures { result ≡ place_result refusal place }
{
    match place {
        Place::Offset(offset) => StartResult {
            refusal,
            in_file: true,
            device: 0,
            offset,
            index: 0,
        },
        Place::Index { device, index } => StartResult {
            refusal,
            in_file: false,
            device,
            offset: 0,
            index,
        },
    }
}

#[derive(Clone, Copy)]
pub struct StartStep {
    pub result: StartResult,
    pub bus: Bus,
}

// The step by value.
fn step(file: &[u8]) -> StartStep
    ensures { result ≡ start_step file.now }
{
    match bus::start(file) {
        Ok(bus) => StartStep {
            result: StartResult {
                refusal: refusal::ACCEPTED,
                in_file: false,
                device: 0,
                offset: 0,
                index: 0,
            },
            bus,
        },
        Err(refused) => {
            let bus = Bus::none();
            StartStep {
                result: at_place(refused.refusal.number(), refused.place),
                bus,
            }
        }
    }
}

// Puts the bus that a file declares into `bus`, the empty one where it is refused.
#[unsafe(no_mangle)]
pub extern "C" fn vg_start(bus: &mut Bus, file: &[u8]) -> StartResult
    ensures { (result ≡ (start_step file.now).result) × (bus.new ≡ (start_step file.now).bus) }
{
    let d = step(file);
    *bus = d.bus;
    d.result
}
