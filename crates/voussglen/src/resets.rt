// Reset of the whole bus.
ghost use Rattle.std.specs.Prelude.{◌≡◌};
ghost use Rattle.voussglen.specs.Result.{reset_result};
ghost use Rattle.voussglen.specs.Step.{reset_step};

use crate::results::ResetResult;
use bus::{Bus, Exhausted};
use refusal::Refusal;

fn result_of(answer: Result<(), Exhausted>) -> ResetResult
    ensures { result ≡ reset_result answer }
{
    match answer {
        Ok(()) => ResetResult {
            refusal: refusal::ACCEPTED,
            device: 0,
        },
        Err(exhausted) => ResetResult {
            refusal: Refusal::from(exhausted).number(),
            device: exhausted.0,
        },
    }
}

#[derive(Clone, Copy)]
pub struct ResetStep {
    pub result: ResetResult,
    pub bus: Bus,
}

// The step by value.
fn step(bus: Bus) -> ResetStep
    ensures { result ≡ reset_step bus }
{
    let done = bus::reset(bus);
    ResetStep {
        result: result_of(done.answer),
        bus: done.bus,
    }
}

// Restores every function and counts.
#[unsafe(no_mangle)]
pub extern "C" fn vg_reset(bus: &mut Bus) -> ResetResult
    ensures { (result ≡ (reset_step bus.old).result) × (bus.new ≡ (reset_step bus.old).bus) }
{
    let d = step(*bus);
    *bus = d.bus;
    d.result
}
