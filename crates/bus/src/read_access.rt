// A config read by device.
ghost use Rattle.std.specs.Prelude.{◌≡◌, true, ◌-◌, ◌^◌};
ghost use Rattle.word.specs.Width.{width_ok};
ghost use Rattle.address.specs.Layout.{config_space_size};
ghost use Rattle.address.specs.Check.{most_width, access_of};
ghost use Rattle.bus.specs.Access.{absent_read, bus_read_of};

use crate::state::{Bus, count_on, index_of};
use address::check;
use address::config_layout::CONFIG_SPACE_SIZE;
use config::ReadAnswer;
use refusal::Refusal;

// All ones of a width.
fn ones(width: usize) -> u64
    requires { width_ok most_width width ≡ true }
    ensures { result ≡ 256 ^ width - 1 }
{
    match width {
        1 => 0xff,
        2 => 0xffff,
        _ => 0xffff_ffff,
    }
}

// A read where no function is declared.
fn absent_read(offset: usize, width: usize) -> Result<ReadAnswer, Refusal>
    ensures { result ≡ absent_read (access_of config_space_size offset width) }
{
    let access = check(CONFIG_SPACE_SIZE, offset, width)?;
    Ok(ReadAnswer::Value(ones(access.width)))
}

// Reads `width` bytes at `offset` of a device, or answers 18 or 19; nothing changes.
pub fn read(bus: Bus, device: usize, offset: usize, width: usize) -> Result<ReadAnswer, Refusal>
    ensures { result ≡ bus_read_of bus device offset width }
{
    let count = count_on(bus.count);
    let devices = bus.devices;
    match index_of(&devices, count, device) {
        Some(k) => config::read(bus.functions[k], offset, width),
        None => absent_read(offset, width),
    }
}
