// Every declared function as a dump that `lspci -F` reads.
ghost use Rattle.std.specs.Prelude.{◌≡◌, ◌+◌, ◌*◌, ◌≤◌, length};
ghost use Rattle.text.specs.Part.{Room, Put};
ghost use Rattle.address.specs.Limits.{function_room};
ghost use Rattle.dialogue.specs.Dump.{shown_or, byte_shown, bytes_text, bytes_room, row_text, row_room, rows_text, row_count, id_text, id_room, address_text, address_room, title_text, title_room, function_dump, dump_room, dump_text};

use crate::part::{put_bytes, put_column, put_hex};
use address::config_layout;
use address::limits::FUNCTION_LIMIT;
use bus::Bus;
use config::ReadAnswer;
use refusal::Refusal;
use text::Text;

const ROW_BYTES: usize = 16;

const ROWS: usize = 16;

// The value of a read, or another where it gives none.
fn shown_or(answer: Result<ReadAnswer, Refusal>, live: u8) -> u64
    ensures { result ≡ shown_or answer live }
{
    match answer {
        Ok(ReadAnswer::Value(value)) => value,
        _ => u64::from(live),
    }
}

// The byte of the function at an index: what a read gives, or that of the live image.
fn byte_shown(bus: Bus, k: usize, offset: usize) -> u64
    ensures { result ≡ byte_shown bus k offset }
{
    let devices = bus.devices;
    let function = bus::function_at(bus, k);
    let live = function.live;
    let answer = bus::read(bus, word::byte_at(&devices, k) as usize, offset, 1);
    shown_or(answer, word::byte_at(&live, offset))
}

#[tactic(auto, unfolding(crate::specs::Dump::bytes_text))]
fn put_row_bytes(text: &mut Text<'_>, bus: Bus, k: usize, row: usize)
    requires { Room text.old bytes_room × (row ≤ row_count) }
    ensures { Put text.old text.new bytes_room (bytes_text bus k row) }
{
    for i in 0..ROW_BYTES {
        put_column(text, 2, byte_shown(bus, k, row * ROW_BYTES + i));
    }
}

// A line of sixteen bytes.
#[tactic(auto, unfolding(crate::specs::Dump::row_text))]
fn put_row(text: &mut Text<'_>, bus: Bus, k: usize, row: usize)
    requires { Room text.old row_room × (row ≤ row_count) }
    ensures { Put text.old text.new row_room (row_text bus k row) }
{
    put_hex(text, 2, (row * ROW_BYTES) as u64);
    put_bytes(text, b":");
    put_row_bytes(text, bus, k, row);
    put_bytes(text, b"\n");
}

#[tactic(auto, unfolding(crate::specs::Dump::rows_text))]
fn put_rows(text: &mut Text<'_>, bus: Bus, k: usize)
    requires { Room text.old (row_count * row_room) }
    ensures { Put text.old text.new (row_count * row_room) (rows_text bus k) }
{
    for row in 0..ROWS {
        put_row(text, bus, k, row);
    }
}

// The vendor's and the device's id.
#[tactic(auto, unfolding(crate::specs::Dump::id_text))]
fn put_id(text: &mut Text<'_>, bus: Bus, k: usize)
    requires { Room text.old id_room }
    ensures { Put text.old text.new id_room (id_text bus k) }
{
    put_column(
        text,
        2,
        byte_shown(bus, k, config_layout::CONFIG_VENDOR_ID_OFFSET + 1),
    );
    put_hex(
        text,
        2,
        byte_shown(bus, k, config_layout::CONFIG_VENDOR_ID_OFFSET),
    );
    put_bytes(text, b":");
    put_hex(
        text,
        2,
        byte_shown(bus, k, config_layout::CONFIG_DEVICE_ID_OFFSET + 1),
    );
    put_hex(
        text,
        2,
        byte_shown(bus, k, config_layout::CONFIG_DEVICE_ID_OFFSET),
    );
}

// The address of a device's function.
#[tactic(auto, unfolding(crate::specs::Dump::address_text))]
fn put_address(text: &mut Text<'_>, device: u8)
    requires { Room text.old address_room }
    ensures { Put text.old text.new address_room (address_text device) }
{
    put_bytes(text, b"00:");
    put_hex(text, 2, u64::from(device));
    put_bytes(text, b".0");
}

// The line before the bytes: address, class and ids, as lspci -n prints them.
#[tactic(auto, unfolding(crate::specs::Dump::title_text))]
fn put_title(text: &mut Text<'_>, bus: Bus, k: usize)
    requires { Room text.old title_room }
    ensures { Put text.old text.new title_room (title_text bus k) }
{
    let devices = bus.devices;
    put_address(text, word::byte_at(&devices, k));
    let base = byte_shown(bus, k, config_layout::CONFIG_BASE_CLASS_OFFSET);
    put_column(text, 2, base);
    let sub = byte_shown(bus, k, config_layout::CONFIG_SUBCLASS_OFFSET);
    put_hex(text, 2, sub);
    put_bytes(text, b":");
    put_id(text, bus, k);
}

#[tactic(auto, unfolding(crate::specs::Dump::function_dump))]
fn put_function_dump(text: &mut Text<'_>, bus: Bus, k: usize)
    requires { Room text.old dump_room }
    ensures { Put text.old text.new dump_room (function_dump bus k) }
{
    put_title(text, bus, k);
    put_bytes(text, b"\n");
    put_rows(text, bus, k);
    put_bytes(text, b"\n");
}

#[tactic(auto, unfolding(crate::specs::Dump::dump_text))]
pub(crate) fn put_dump(text: &mut Text<'_>, bus: Bus)
    requires { Room text.old (function_room * dump_room) }
    ensures { Put text.old text.new (function_room * dump_room) (dump_text bus) }
{
    let count = word::at_most(bus.count, FUNCTION_LIMIT);
    for k in 0..count {
        put_function_dump(text, bus, k);
    }
}
