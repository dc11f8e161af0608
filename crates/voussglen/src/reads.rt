// Config reads.
ghost use Rattle.std.specs.Prelude.{◌≡◌};
ghost use Rattle.bus.specs.Access.{bus_read_of};
ghost use Rattle.voussglen.specs.Result.{read_plain, read_result, read_body};
ghost use Rattle.voussglen.specs.Step.{read_step};

use crate::results::{Kind, ReadAsk, ReadResult, no_effect};
use bus::Bus;
use capability::Snapshot;
use config::ReadAnswer;
use refusal::Refusal;

// An answer that is none of an effect.
fn plain(kind: u8, refusal: u8, value: u64) -> ReadResult
    ensures { result ≡ read_plain kind refusal value }
{
    ReadResult {
        kind,
        refusal,
        value,
        effect: no_effect(),
    }
}

fn result_of(answer: Result<ReadAnswer, Refusal>) -> ReadResult
    ensures { result ≡ read_result answer }
{
    match answer {
        Ok(ReadAnswer::Value(value)) => plain(Kind::Value as u8, refusal::ACCEPTED, value),
        Ok(ReadAnswer::Effect { hit, body: _ }) => ReadResult {
            kind: Kind::Effect as u8,
            refusal: refusal::ACCEPTED,
            value: 0,
            effect: hit,
        },
        Err(refusal) => plain(Kind::Refused as u8, refusal.number(), 0),
    }
}

// What the lent buffer holds: the body of an effect, else what it held.
fn body_of(answer: Result<ReadAnswer, Refusal>, held: Snapshot) -> Snapshot
    ensures { result ≡ read_body held answer }
{
    match answer {
        Ok(ReadAnswer::Effect { hit: _, body }) => body,
        _ => held,
    }
}

#[derive(Clone, Copy)]
pub struct ReadStep {
    pub result: ReadResult,
    pub body: Snapshot,
}

// The step by value.
fn step(bus: Bus, body: Snapshot, ask: ReadAsk) -> ReadStep
    ensures { result ≡ read_step bus body ask }
{
    let answer = bus::read(bus, ask.device, ask.offset, ask.width);
    ReadStep {
        result: result_of(answer),
        body: body_of(answer, body),
    }
}

// Reads `width` bytes at `offset` of a device; `body` gets an effect's live body and is else left as it is.
#[unsafe(no_mangle)]
pub extern "C" fn vg_read(bus: &Bus, body: &mut Snapshot, ask: ReadAsk) -> ReadResult
    ensures { (result ≡ (read_step bus.now body.old ask).result) × (body.new ≡ (read_step bus.now body.old ask).body) }
{
    let d = step(*bus, *body, ask);
    *body = d.body;
    d.result
}
