// A report and a revision, as text.
ghost use Rattle.std.specs.Prelude.{◌≡◌, ◌+◌, ◌*◌, ◌≤◌, length};
ghost use Rattle.text.specs.Part.{Room, Put};
ghost use Rattle.address.specs.Layout.{bar_count};
ghost use Rattle.address.specs.Limits.{capability_room};
ghost use Rattle.dialogue.specs.Report.{pair_text, pair_room, ids_text, ids_room, class_text, class_room, function_line, function_line_room, slot_text, slot_room, slots_text, listed_text, listed_room, list_text, present_text, report_text, report_room, counted_text, revision_text, revision_room};

use crate::part::{put_bytes, put_column, put_decimal, put_hex};
use address::limits::{BAR_SLOTS, CAPABILITY_LIMIT, FUNCTION_LIMIT};
use bus::Bus;
use config::Identity;
use enumeration::{Listed, Report, SlotReport};
use text::Text;

// A blank, and two ids.
#[tactic(auto, unfolding(crate::specs::Report::pair_text))]
fn put_pair(text: &mut Text<'_>, vendor: u16, id: u16)
    requires { Room text.old pair_room }
    ensures { Put text.old text.new pair_room (pair_text vendor id) }
{
    put_column(text, 4, u64::from(vendor));
    put_bytes(text, b":");
    put_hex(text, 4, u64::from(id));
}

// The device and its ids.
#[tactic(auto, unfolding(crate::specs::Report::ids_text))]
fn put_ids(text: &mut Text<'_>, device: usize, identity: Identity)
    requires { Room text.old ids_room }
    ensures { Put text.old text.new ids_room (ids_text device identity) }
{
    put_bytes(text, b"function");
    put_column(text, 2, device as u64);
    put_pair(text, identity.vendor, identity.device);
    put_pair(text, identity.subsystem_vendor, identity.subsystem);
}

// The three class bytes.
#[tactic(auto, unfolding(crate::specs::Report::class_text))]
fn put_class(text: &mut Text<'_>, identity: Identity)
    requires { Room text.old class_room }
    ensures { Put text.old text.new class_room (class_text identity) }
{
    put_bytes(text, b" class");
    put_column(text, 2, u64::from(identity.base_class));
    put_hex(text, 2, u64::from(identity.subclass));
    put_hex(text, 2, u64::from(identity.programming_interface));
}

// The line of a function.
#[tactic(auto, unfolding(crate::specs::Report::function_line))]
fn put_function(text: &mut Text<'_>, device: usize, identity: Identity, pin: u8)
    requires { Room text.old function_line_room }
    ensures { Put text.old text.new function_line_room (function_line device identity pin) }
{
    put_ids(text, device, identity);
    put_bytes(text, b" rev");
    put_column(text, 2, u64::from(identity.revision));
    put_class(text, identity);
    put_bytes(text, b" pin");
    put_column(text, 1, u64::from(pin));
    put_bytes(text, b"\n");
}

// The line of a slot, where it is not empty.
#[tactic(auto, unfolding(crate::specs::Report::slot_line))]
fn put_slot(text: &mut Text<'_>, slot: usize, report: SlotReport)
    requires { Room text.old slot_room }
    ensures { Put text.old text.new slot_room (slot_text slot report) }
{
    if report.size == 0 {
        return;
    }
    put_bytes(text, b"bar");
    put_column(text, 1, slot as u64);
    put_column(text, 8, report.address);
    put_column(text, 9, report.size);
    put_bytes(text, b"\n");
}

#[tactic(auto, unfolding(crate::specs::Report::slots_text))]
fn put_slots(text: &mut Text<'_>, report: Report)
    requires { Room text.old (bar_count * slot_room) }
    ensures { Put text.old text.new (bar_count * slot_room) (slots_text report) }
{
    for i in 0..BAR_SLOTS {
        put_slot(text, i, report.slots[i]);
    }
}

// The line of a capability.
#[tactic(auto, unfolding(crate::specs::Report::listed_text))]
fn put_listed(text: &mut Text<'_>, listed: Listed)
    requires { Room text.old listed_room }
    ensures { Put text.old text.new listed_room (listed_text listed) }
{
    put_bytes(text, b"cap");
    put_column(text, 2, u64::from(listed.offset));
    put_column(text, 2, u64::from(listed.id));
    put_bytes(text, b"\n");
}

#[tactic(auto, unfolding(crate::specs::Report::list_text))]
fn put_list(text: &mut Text<'_>, report: Report)
    requires { Room text.old (capability_room * listed_room) }
    ensures { Put text.old text.new (capability_room * listed_room) (list_text report) }
{
    let count = word::at_most(report.list_count, CAPABILITY_LIMIT);
    for k in 0..count {
        put_listed(text, report.list[k]);
    }
}

#[tactic(auto, unfolding(crate::specs::Report::present_text))]
fn put_present(text: &mut Text<'_>, device: usize, report: Report)
    requires { Room text.old report_room }
    ensures { Put text.old text.new report_room (present_text device report) }
{
    let identity = report.identity;
    put_function(text, device, identity, report.pin);
    put_slots(text, report);
    put_list(text, report);
    put_bytes(text, b"end\n");
}

#[tactic(auto, unfolding(crate::specs::Report::report_text))]
pub(crate) fn put_report(text: &mut Text<'_>, device: usize, report: Report)
    requires { Room text.old report_room }
    ensures { Put text.old text.new report_room (report_text device report) }
{
    if report.present {
        return put_present(text, device, report);
    }
    put_bytes(text, b"absent\n");
}

// The revision of the function at an index.
#[tactic(auto, unfolding(crate::specs::Report::counted_text))]
fn put_counted(text: &mut Text<'_>, revision: u64)
    requires { Room text.old revision_room }
    ensures { Put text.old text.new revision_room (counted_text revision) }
{
    put_bytes(text, b"revision ");
    put_decimal(text, revision);
    put_bytes(text, b"\n");
}

pub(crate) fn put_revision(text: &mut Text<'_>, bus: Bus, device: usize)
    requires { Room text.old revision_room }
    ensures { Put text.old text.new revision_room (revision_text bus device) }
{
    let count = word::at_most(bus.count, FUNCTION_LIMIT);
    let devices = bus.devices;
    match bus::index_of(&devices, count, device) {
        Some(k) => {
            let function = bus::function_at(bus, k);
            put_counted(text, function.revision);
        }
        None => put_bytes(text, b"absent\n"),
    }
}
