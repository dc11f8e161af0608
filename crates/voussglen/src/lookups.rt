// Memory lookup.
ghost use Rattle.std.specs.Prelude.{◌≡◌};
ghost use Rattle.voussglen.specs.Result.{lookup_result};
ghost use Rattle.voussglen.specs.Step.{lookup_step};

use crate::results::{Kind, LookupAsk, LookupResult};
use bus::{Bus, Hit};
use refusal::Refusal;

fn result_of(answer: Result<Option<Hit>, Refusal>) -> LookupResult
    ensures { result ≡ lookup_result answer }
{
    match answer {
        Ok(Some(hit)) => LookupResult {
            kind: Kind::Hit as u8,
            refusal: refusal::ACCEPTED,
            device: hit.device,
            slot: hit.slot,
            offset: hit.offset,
        },
        Ok(None) => LookupResult {
            kind: Kind::Miss as u8,
            refusal: refusal::ACCEPTED,
            device: 0,
            slot: 0,
            offset: 0,
        },
        Err(refusal) => LookupResult {
            kind: Kind::Refused as u8,
            refusal: refusal.number(),
            device: 0,
            slot: 0,
            offset: 0,
        },
    }
}

// The question by value.
fn ask_of(bus: Bus, ask: LookupAsk) -> LookupResult
    ensures { result ≡ lookup_step bus ask }
{
    result_of(bus::lookup(bus, ask.address, ask.width))
}

// The BAR that holds the whole access.
#[unsafe(no_mangle)]
pub extern "C" fn vg_lookup(bus: &Bus, ask: LookupAsk) -> LookupResult
    ensures { result ≡ lookup_step bus.now ask }
{
    ask_of(*bus, ask)
}
