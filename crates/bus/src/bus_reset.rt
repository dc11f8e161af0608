// Reset of the whole bus.
ghost use Rattle.std.specs.Prelude.{◌≡◌, ◌≤◌};
ghost use Rattle.address.specs.Limits.{function_room};
ghost use Rattle.bus.specs.Reset.{reset_first, reset_answer, bus_reset_of};
ghost use Rattle.refusal.specs.declared.refusal.Refusal.TheVariants.{RevisionExhausted};

use crate::state::{Bus, count_on};
use address::limits::FUNCTION_LIMIT;
use config::{FunctionState, LARGEST_REVISION};
use refusal::Refusal;

// Refusal 20: the lowest device whose revision was at its largest.
#[derive(Clone, Copy, Debug, PartialEq, Eq)]
pub struct Exhausted(pub u8);

impl From<Exhausted> for Refusal {
    ghost from_gives = { λ _ refusal. refusal ≡ RevisionExhausted };

    fn from(_device: Exhausted) -> Refusal {
        Refusal::RevisionExhausted
    }
}

// All restored; or 20, everything else done, so the bus stands beside the answer.
#[derive(Clone, Copy)]
pub struct BusResetDone {
    pub answer: Result<(), Exhausted>,
    pub bus: Bus,
}

// The lowest device whose revision is at its largest.
fn reset_answer(bus: Bus) -> Result<(), Exhausted>
    ensures { result ≡ reset_answer bus }
{
    let count = count_on(bus.count);
    for k in 0..count {
        let function = bus.functions[k];
        if function.revision == LARGEST_REVISION {
            return Err(Exhausted(bus.devices[k]));
        }
    }
    Ok(())
}

// Every function restored.
fn reset_functions(
    functions: [FunctionState; FUNCTION_LIMIT],
    count: usize,
) -> [FunctionState; FUNCTION_LIMIT]
    requires { count ≤ function_room }
    ensures { result ≡ reset_first functions count }
{
    let mut out = functions;
    for k in 0..count {
        let done = config::reset(out[k]);
        out[k] = done.state;
    }
    out
}

pub fn reset(bus: Bus) -> BusResetDone
    ensures { result ≡ bus_reset_of bus }
{
    let answer = reset_answer(bus);
    let functions = bus.functions;
    let mut out = bus;
    let restored = reset_functions(functions, count_on(bus.count));
    out.functions = restored;
    BusResetDone { answer, bus: out }
}
