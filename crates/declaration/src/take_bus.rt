// Fields of the bus: the aperture, and a new function.
ghost use Rattle.std.specs.Prelude.{[], ◌≡◌, ◌≤◌, Ok};
ghost use Rattle.address.specs.Limits.{limits, function_room};
ghost use Rattle.declaration.specs.Standing.{device_used, device_bad};
ghost use Rattle.declaration.specs.Take.{taken_said};

use crate::said::Said;
use crate::so_far::{SoFar, empty_function, no_mask};
use address::config_layout;
use address::limits::FUNCTION_LIMIT;
use bar::Aperture;
use config::Identity;
use refusal::Refusal;

const MOST_DEVICE: u8 = 31;

impl SoFar {
    #[tactic(auto, unfolding(crate::specs::Take::taken_said))]
    pub(crate) fn take_aperture(self, start: u64, end: u64) -> Result<SoFar, Refusal>
        ensures { result ≡ taken_said limits self (Ok (Said.Aperture start end)) [] }
    {
        if self.aperture.is_some() {
            return Err(Refusal::OutOfOrder);
        }
        let aperture = Aperture::new(start, end)?;
        let mut out = self;
        out.aperture = Some(aperture);
        Ok(out)
    }

    // Whether a device is declared.
    fn device_used(self, device: u8) -> bool
        requires { self.count ≤ function_room }
        ensures { result ≡ device_used self device }
    {
        self.devices[..self.count].contains(&device)
    }

    // Whether it is above the highest, or declared.
    fn device_bad(self, device: u8) -> bool
        requires { self.count ≤ function_room }
        ensures { result ≡ device_bad self device }
    {
        MOST_DEVICE < device || self.device_used(device)
    }

    #[tactic(auto, unfolding(crate::specs::Take::taken_said))]
    pub(crate) fn take_function(self, device: u8, identity: Identity) -> Result<SoFar, Refusal>
        ensures { result ≡ taken_said limits self (Ok (Said.Function device identity)) [] }
    {
        let vendor = identity.vendor;
        if self.aperture.is_none() {
            return Err(Refusal::OutOfOrder);
        }
        let i = self.count;
        if FUNCTION_LIMIT <= i {
            return Err(Refusal::AboveLimit);
        }
        if self.device_bad(device) {
            return Err(Refusal::BadDeviceOrSlot);
        }
        if vendor == config_layout::ABSENT_VENDOR_ID {
            return Err(Refusal::AbsentVendor);
        }
        let mut out = self;
        out.devices[i] = device;
        out.count = i + 1;
        let function = empty_function(device, identity);
        out.function = function;
        let mask = no_mask();
        out.mask = mask;
        Ok(out)
    }
}
