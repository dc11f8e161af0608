// Config writes.
ghost use Rattle.std.specs.Prelude.{◌≡◌};
ghost use Rattle.voussglen.specs.Result.{write_plain, did_result, device_told, write_result, write_body};
ghost use Rattle.voussglen.specs.Step.{write_step};

use crate::results::{Kind, WriteAsk, WriteResult, no_effect};
use bus::{Bus, BusWriteAnswer, WriteRefusal};
use capability::Snapshot;
use refusal::Refusal;

// An answer that is none of an effect.
fn plain(kind: u8, refusal: u8, device: u8, slot: usize, address: u64) -> WriteResult
    ensures { result ≡ write_plain kind refusal device slot address }
{
    WriteResult {
        kind,
        refusal,
        device,
        slot,
        address,
        effect: no_effect(),
    }
}

fn did(answer: BusWriteAnswer) -> WriteResult
    ensures { result ≡ did_result answer }
{
    let refusal = refusal::ACCEPTED;
    match answer {
        BusWriteAnswer::Stored => plain(Kind::Stored as u8, refusal, 0, 0, 0),
        BusWriteAnswer::Dropped => plain(Kind::Dropped as u8, refusal, 0, 0, 0),
        BusWriteAnswer::Probing(slot) => plain(Kind::Probing as u8, refusal, 0, slot, 0),
        BusWriteAnswer::Moved { slot, address } => plain(
            Kind::Moved as u8,
            refusal,
            0,
            slot,
            address,
        ),
        BusWriteAnswer::Kept { slot, address } => plain(
            Kind::Kept as u8,
            refusal,
            0,
            slot,
            address,
        ),
        BusWriteAnswer::Effect { hit, body: _ } => WriteResult {
            kind: Kind::Effect as u8,
            refusal,
            device: 0,
            slot: 0,
            address: 0,
            effect: hit,
        },
    }
}

// The device that a refusal tells.
fn device_told(refused: WriteRefusal) -> u8
    ensures { result ≡ device_told refused }
{
    match refused {
        WriteRefusal::Exhausted(device) => device,
        _ => 0,
    }
}

fn result_of(answer: Result<BusWriteAnswer, WriteRefusal>) -> WriteResult
    ensures { result ≡ write_result answer }
{
    match answer {
        Ok(answer) => did(answer),
        Err(refused) => {
            let refusal = Refusal::from(refused);
            plain(
                Kind::Refused as u8,
                refusal.number(),
                device_told(refused),
                0,
                0,
            )
        }
    }
}

// What the lent buffer holds: the body of an effect, else what it held. As for a read: a trait over both answers would be longer.
fn body_of(answer: Result<BusWriteAnswer, WriteRefusal>, held: Snapshot) -> Snapshot
    ensures { result ≡ write_body held answer }
{
    match answer {
        Ok(BusWriteAnswer::Effect { hit: _, body }) => body,
        _ => held,
    }
}

#[derive(Clone, Copy)]
pub struct WriteStep {
    pub result: WriteResult,
    pub body: Snapshot,
    pub bus: Bus,
}

// The step by value.
fn step(bus: Bus, body: Snapshot, ask: WriteAsk) -> WriteStep
    ensures { result ≡ write_step bus body ask }
{
    let done = bus::write(bus, ask.device, ask.offset, ask.width, ask.value);
    let answer = done.answer;
    WriteStep {
        result: result_of(answer),
        body: body_of(answer, body),
        bus: done.bus,
    }
}

// Writes `width` bytes of `value` at `offset` of a device; `body` gets an effect's live body and is else left as it is.
#[unsafe(no_mangle)]
pub extern "C" fn vg_write(bus: &mut Bus, body: &mut Snapshot, ask: WriteAsk) -> WriteResult
    ensures { (result ≡ (write_step bus.old body.old ask).result) × ((body.new ≡ (write_step bus.old body.old ask).body) × (bus.new ≡ (write_step bus.old body.old ask).bus)) }
{
    let d = step(*bus, *body, ask);
    *bus = d.bus;
    *body = d.body;
    d.result
}
