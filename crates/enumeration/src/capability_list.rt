// The list of capabilities, by its pointers.
ghost use Rattle.std.specs.Prelude.{◌≡◌, length, replicate};
ghost use Rattle.address.specs.Limits.{capability_room};
ghost use Rattle.enumeration.specs.Enumerate.{list_from, list_array, no_listed, list_read};
ghost use Rattle.enumeration.specs.Turn.{goes_on, listed_at, next_pointer};

use crate::asked::{answers_byte, ask_byte, ask_word};
use crate::report::Listed;
use address::config_layout;
use address::limits::CAPABILITY_LIMIT;
use bus::Bus;

// There is no heap.
#[derive(Clone, Copy)]
pub(crate) struct ListDone {
    pub list: [Listed; CAPABILITY_LIMIT],
    pub count: usize,
}

pub(crate) fn no_list() -> [Listed; CAPABILITY_LIMIT]
    ensures { result ≡ replicate capability_room no_listed }
{
    let none = Listed { offset: 0, id: 0 };
    [none; CAPABILITY_LIMIT]
}

// Whether a pointer leads to a capability.
#[tactic(auto, unfolding(crate::specs::Turn::goes_on))]
fn goes_on(bus: Bus, device: usize, at: u8) -> bool
    ensures { result ≡ goes_on bus device at }
{
    if at == 0 {
        return false;
    }
    answers_byte(bus, device, at as usize)
}

// The capability that it leads to.
#[tactic(auto, unfolding(crate::specs::Turn::listed_at))]
fn listed_at(bus: Bus, device: usize, at: u8) -> Listed
    ensures { result ≡ listed_at bus device at }
{
    Listed {
        offset: at,
        id: ask_byte(bus, device, at as usize),
    }
}

// The pointer after it, 0 where none is read.
#[tactic(auto, unfolding(crate::specs::Turn::next_pointer))]
fn next_pointer(bus: Bus, device: usize, at: u8) -> u8
    ensures { result ≡ next_pointer bus device at }
{
    let there = answers_byte(bus, device, (at as usize) + 1);
    if there {
        return ask_byte(bus, device, (at as usize) + 1);
    }
    0
}

// Follows the list from a pointer on.
fn list_from(bus: Bus, device: usize, pointer: u8) -> ListDone
    ensures { (result.list ≡ list_array (list_from bus device capability_room pointer)) × (result.count ≡ length (list_from bus device capability_room pointer)) }
{
    let mut list = no_list();
    let mut at = pointer;
    for n in 0..CAPABILITY_LIMIT {
        let there = goes_on(bus, device, at);
        if !there {
            return ListDone { list, count: n };
        }
        let listed = listed_at(bus, device, at);
        list[n] = listed;
        at = next_pointer(bus, device, at);
    }
    ListDone {
        list,
        count: CAPABILITY_LIMIT,
    }
}

// The list, if status says that there is one.
pub(crate) fn read_list(bus: Bus, device: usize) -> ListDone
    ensures { (result.list ≡ list_array (list_read bus device)) × (result.count ≡ length (list_read bus device)) }
{
    let status = ask_word(bus, device, config_layout::CONFIG_STATUS_OFFSET);
    if status & (config_layout::STATUS_CAPABILITIES_LIST as u16) == 0 {
        return ListDone {
            list: no_list(),
            count: 0,
        };
    }
    list_from(
        bus,
        device,
        ask_byte(bus, device, config_layout::CONFIG_CAPABILITY_POINTER_OFFSET),
    )
}
