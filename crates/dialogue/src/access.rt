// The answers to reads, writes, lookups and resets, as text.
ghost use Rattle.std.specs.Prelude.{◌≡◌, ◌+◌, ◌*◌, ◌≤◌, length};
ghost use Rattle.text.specs.Part.{Room, Put};
ghost use Rattle.dialogue.specs.Access.{value_text, value_room, read_text, refused_text, refused_room, exhausted_text, exhausted_room, probing_text, probing_room, placed_text, placed_room, did_text, write_refused_text, write_text, hit_text, hit_room, lookup_text, reset_text, access_room};

use crate::effect::put_effect;
use crate::part::{put_bytes, put_column, put_decimal, put_hex};
use bus::{BusWriteAnswer, Exhausted, Hit, WriteRefusal};
use config::ReadAnswer;
use refusal::Refusal;
use text::Text;

// The widest read.
const READ_MOST: usize = 4;

// A value, two digits a byte of the width.
#[tactic(auto, unfolding(crate::specs::Access::value_text))]
fn put_value(text: &mut Text<'_>, width: usize, value: u64)
    requires { Room text.old value_room }
    ensures { Put text.old text.new value_room (value_text width value) }
{
    put_bytes(text, b"value ");
    put_hex(text, 2 * word::at_most(width, READ_MOST), value);
    put_bytes(text, b"\n");
}

#[tactic(auto, unfolding(crate::specs::Access::refused_text))]
fn put_refused(text: &mut Text<'_>, number: u8)
    requires { Room text.old refused_room }
    ensures { Put text.old text.new refused_room (refused_text number) }
{
    put_bytes(text, b"refused ");
    put_decimal(text, u64::from(number));
    put_bytes(text, b"\n");
}

// Refusal 20, with its device.
#[tactic(auto, unfolding(crate::specs::Access::exhausted_text))]
fn put_exhausted(text: &mut Text<'_>, device: u8)
    requires { Room text.old exhausted_room }
    ensures { Put text.old text.new exhausted_room (exhausted_text device) }
{
    put_bytes(text, b"refused ");
    put_decimal(text, u64::from(Refusal::RevisionExhausted.number()));
    put_column(text, 2, u64::from(device));
    put_bytes(text, b"\n");
}

pub(crate) fn put_read(text: &mut Text<'_>, width: usize, answer: Result<ReadAnswer, Refusal>)
    requires { Room text.old access_room }
    ensures { Put text.old text.new access_room (read_text width answer) }
{
    match answer {
        Ok(ReadAnswer::Value(value)) => put_value(text, width, value),
        Ok(ReadAnswer::Effect { hit, body }) => put_effect(text, hit, body),
        Err(refusal) => put_refused(text, refusal.number()),
    }
}

#[tactic(auto, unfolding(crate::specs::Access::probing_text))]
fn put_probing(text: &mut Text<'_>, slot: usize)
    requires { Room text.old probing_room }
    ensures { Put text.old text.new probing_room (probing_text slot) }
{
    put_bytes(text, b"probing");
    put_column(text, 1, slot as u64);
    put_bytes(text, b"\n");
}

// A slot and its committed address, after a word.
#[tactic(auto, unfolding(crate::specs::Access::placed_text))]
fn put_placed(text: &mut Text<'_>, word: &[u8], slot: usize, address: u64)
    requires { Room text.old (length word.now + placed_room) }
    ensures { Put text.old text.new (length word.now + placed_room) (placed_text word.now slot address) }
{
    put_bytes(text, word);
    put_column(text, 1, slot as u64);
    put_column(text, 8, address);
    put_bytes(text, b"\n");
}

fn put_did(text: &mut Text<'_>, answer: BusWriteAnswer)
    requires { Room text.old access_room }
    ensures { Put text.old text.new access_room (did_text answer) }
{
    match answer {
        BusWriteAnswer::Stored => put_bytes(text, b"stored\n"),
        BusWriteAnswer::Dropped => put_bytes(text, b"dropped\n"),
        BusWriteAnswer::Probing(slot) => put_probing(text, slot),
        BusWriteAnswer::Moved { slot, address } => put_placed(text, b"moved", slot, address),
        BusWriteAnswer::Kept { slot, address } => put_placed(text, b"kept", slot, address),
        BusWriteAnswer::Effect { hit, body } => put_effect(text, hit, body),
    }
}

fn put_write_refused(text: &mut Text<'_>, refused: WriteRefusal)
    requires { Room text.old access_room }
    ensures { Put text.old text.new access_room (write_refused_text refused) }
{
    match refused {
        WriteRefusal::BadAccess => put_refused(text, Refusal::BadAccess.number()),
        WriteRefusal::BadTouch => put_refused(text, Refusal::BadTouch.number()),
        WriteRefusal::Exhausted(device) => put_exhausted(text, device),
    }
}

pub(crate) fn put_write(text: &mut Text<'_>, answer: Result<BusWriteAnswer, WriteRefusal>)
    requires { Room text.old access_room }
    ensures { Put text.old text.new access_room (write_text answer) }
{
    match answer {
        Ok(did) => put_did(text, did),
        Err(refused) => put_write_refused(text, refused),
    }
}

#[tactic(auto, unfolding(crate::specs::Access::hit_text))]
fn put_hit(text: &mut Text<'_>, device: u8, slot: usize, offset: u64)
    requires { Room text.old hit_room }
    ensures { Put text.old text.new hit_room (hit_text device slot offset) }
{
    put_bytes(text, b"hit");
    put_column(text, 2, u64::from(device));
    put_bytes(text, b".");
    put_hex(text, 1, slot as u64);
    put_column(text, 8, offset);
    put_bytes(text, b"\n");
}

pub(crate) fn put_lookup(text: &mut Text<'_>, answer: Result<Option<Hit>, Refusal>)
    requires { Room text.old access_room }
    ensures { Put text.old text.new access_room (lookup_text answer) }
{
    match answer {
        Ok(Some(hit)) => put_hit(text, hit.device, hit.slot, hit.offset),
        Ok(None) => put_bytes(text, b"miss\n"),
        Err(refusal) => put_refused(text, refusal.number()),
    }
}

pub(crate) fn put_reset(text: &mut Text<'_>, answer: Result<(), Exhausted>)
    requires { Room text.old access_room }
    ensures { Put text.old text.new access_room (reset_text answer) }
{
    match answer {
        Ok(()) => put_bytes(text, b"reset\n"),
        Err(Exhausted(device)) => put_exhausted(text, device),
    }
}
