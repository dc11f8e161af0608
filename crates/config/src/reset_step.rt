// A function's reset.
ghost use Rattle.std.specs.Prelude.{◌≡◌, map};
ghost use Rattle.bar.specs.State.{reset_of};
ghost use Rattle.config.specs.Reset.{reset_done};

use crate::state::FunctionState;
use crate::store_leaf::LARGEST_REVISION;
use address::limits::BAR_SLOTS;
use bar::BarState;
use refusal::Refusal;

// Restored; or 20, with the revision at its largest and everything else restored, so the state stands beside the answer.
#[derive(Clone, Copy)]
pub struct ResetDone {
    pub answer: Result<(), Refusal>,
    pub state: FunctionState,
}

// Every BAR as it was placed.
pub fn reset_bars(bars: [BarState; BAR_SLOTS]) -> [BarState; BAR_SLOTS]
    ensures { result ≡ map reset_of bars }
{
    bars.map(|bar| bar.reset())
}

pub fn reset(state: FunctionState) -> ResetDone
    ensures { result ≡ reset_done state }
{
    let mut out = state;
    let image = state.power_on;
    out.live = image;
    let bars = state.bars;
    let fresh = reset_bars(bars);
    out.bars = fresh;
    let n = state.revision;
    if n == LARGEST_REVISION {
        return ResetDone {
            answer: Err(Refusal::RevisionExhausted),
            state: out,
        };
    }
    out.revision = n + 1;
    ResetDone {
        answer: Ok(()),
        state: out,
    }
}
