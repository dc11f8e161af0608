// A config write by device.
ghost use Rattle.std.specs.Prelude.{◌≡◌, ◌<◌, Ok};
ghost use Rattle.address.specs.Layout.{config_space_size, bar_count};
ghost use Rattle.address.specs.Limits.{function_room};
ghost use Rattle.address.specs.Check.{access_of};
ghost use Rattle.bus.specs.Access.{refusal_of, refused_at, written_as, put_on, settled_on, absent_write, written_on, bus_write_of};

use crate::ranges::accepted_at;
use crate::state::{Bus, count_on, index_of};
use address::check;
use address::config_layout::CONFIG_SPACE_SIZE;
use capability::{EffectHit, Snapshot};
use config::{FunctionState, WriteAnswer, finish_at};
use refusal::Refusal;

// What a write did: stored, dropped, started a probe, moved a BAR or kept it where it was (the committed address is given), or is inside an effect, with the copy of the live body.
#[derive(Clone, Copy)]
pub enum BusWriteAnswer {
    Stored,
    Dropped,
    Probing(usize),
    Moved { slot: usize, address: u64 },
    Kept { slot: usize, address: u64 },
    Effect { hit: EffectHit, body: Snapshot },
}

// Refusal 18 or 19, or 20 with the device.
#[derive(Clone, Copy, Debug, PartialEq, Eq)]
pub enum WriteRefusal {
    BadAccess,
    BadTouch,
    Exhausted(u8),
}

impl From<WriteRefusal> for Refusal {
    ghost from_gives = { λ refused refusal. refusal ≡ refusal_of refused };

    fn from(refused: WriteRefusal) -> Refusal {
        match refused {
            WriteRefusal::BadAccess => Refusal::BadAccess,
            WriteRefusal::BadTouch => Refusal::BadTouch,
            WriteRefusal::Exhausted(_) => Refusal::RevisionExhausted,
        }
    }
}

// Why a function's write is refused, on the bus; a function refuses a write for no other reason.
fn refused_at(device: u8, refusal: Refusal) -> WriteRefusal
    ensures { result ≡ refused_at device refusal }
{
    match refusal {
        Refusal::RevisionExhausted => WriteRefusal::Exhausted(device),
        Refusal::BadTouch => WriteRefusal::BadTouch,
        _ => WriteRefusal::BadAccess,
    }
}

// What it did or why it is refused, and the bus after it.
#[derive(Clone, Copy)]
pub struct BusWriteDone {
    pub answer: Result<BusWriteAnswer, WriteRefusal>,
    pub bus: Bus,
}

// What a write to one function comes to: the answer, and the function after it. The bus is changed once, at the end.
#[derive(Clone, Copy)]
struct Written {
    pub answer: Result<BusWriteAnswer, WriteRefusal>,
    pub function: FunctionState,
}

fn comes_to(answer: BusWriteAnswer, function: FunctionState) -> Written
    ensures { result ≡ written_as (Ok answer) function }
{
    Written {
        answer: Ok(answer),
        function,
    }
}

// The end of a relocation: the candidate is accepted, or the address stays.
fn settle(bus: Bus, k: usize, i: usize, address: u64) -> Written
    requires { (k < function_room) × (i < bar_count) }
    ensures { put_on bus k result ≡ settled_on bus k i address }
{
    let function = bus.functions[k];
    let accepted = accepted_at(bus, k, i, address);
    if accepted {
        let moved = finish_at(function, i, Some(address));
        return comes_to(BusWriteAnswer::Moved { slot: i, address }, moved);
    }
    let bar = function.bars[i];
    let kept = finish_at(function, i, None);
    comes_to(
        BusWriteAnswer::Kept {
            slot: i,
            address: bar.address,
        },
        kept,
    )
}

// A write to the function at an index.
fn write_on(bus: Bus, k: usize, offset: usize, width: usize, value: u64) -> Written
    requires { k < function_room }
    ensures { put_on bus k result ≡ written_on bus k offset width value }
{
    let function = bus.functions[k];
    let step = config::write(function, offset, width, value);
    let answer = step.answer;
    match answer {
        Ok(did) => match did {
            WriteAnswer::Stored => comes_to(BusWriteAnswer::Stored, step.state),
            WriteAnswer::Probing(i) => comes_to(BusWriteAnswer::Probing(i), step.state),
            WriteAnswer::Candidate { slot, address } => settle(bus, k, slot, address),
            WriteAnswer::Effect { hit, body } => {
                comes_to(BusWriteAnswer::Effect { hit, body }, function)
            }
        },
        Err(refusal) => Written {
            answer: Err(refused_at(bus.devices[k], refusal)),
            function,
        },
    }
}

// A write where no function is declared.
fn absent_write(bus: Bus, offset: usize, width: usize) -> BusWriteDone
    ensures { result ≡ absent_write bus (access_of config_space_size offset width) }
{
    let answer = match check(CONFIG_SPACE_SIZE, offset, width) {
        Ok(_) => Ok(BusWriteAnswer::Dropped),
        Err(_) => Err(WriteRefusal::BadAccess),
    };
    BusWriteDone { answer, bus }
}

// Writes `width` bytes of `value` at `offset` of a device.
pub fn write(bus: Bus, device: usize, offset: usize, width: usize, value: u64) -> BusWriteDone
    ensures { result ≡ bus_write_of bus device offset width value }
{
    let count = count_on(bus.count);
    let devices = bus.devices;
    match index_of(&devices, count, device) {
        Some(k) => {
            let step = write_on(bus, k, offset, width, value);
            let mut out = bus;
            out.functions[k] = step.function;
            BusWriteDone {
                answer: step.answer,
                bus: out,
            }
        }
        None => absent_write(bus, offset, width),
    }
}
