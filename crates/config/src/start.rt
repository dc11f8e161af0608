// A function's state at power-on.
ghost use Rattle.std.specs.Prelude.{◌≡◌};
ghost use Rattle.config.specs.Start.{power_on_state};

use crate::power_on::PowerOn;
use crate::reset_step::reset_bars;
use crate::state::FunctionState;
use address::limits::BAR_SLOTS;
use bar::BarState;
use capability::Placed;

impl FunctionState {
    // The live image is the power-on image, every BAR stands where it was placed, and the revision is 0.
    pub fn new(power_on: PowerOn, bars: [BarState; BAR_SLOTS], placed: Placed) -> FunctionState
        ensures { result ≡ power_on_state power_on bars placed }
    {
        let image = power_on.image;
        let mask = power_on.mask;
        let fresh = reset_bars(bars);
        FunctionState {
            live: image,
            power_on: image,
            mask,
            bars: fresh,
            placed,
            revision: 0,
        }
    }
}
