// The write step on a state that is lent and changed in place; by value and in place are both promised (docs/PROMISES.md).
ghost use Rattle.std.specs.Prelude.{◌≡◌};
ghost use Rattle.config.specs.Write.{write_of};

use crate::state::FunctionState;
use crate::write_step::{WriteAnswer, write};
use refusal::Refusal;

// `width` bytes of `value`, to be written at `offset`.
#[repr(C)]
#[derive(Clone, Copy)]
pub struct ConfigWrite {
    pub offset: usize,
    pub width: usize,
    pub value: u64,
}

// Writes to a lent state; a candidate is put to the bus, as `write` does.
pub fn write_in_place(state: &mut FunctionState, w: ConfigWrite) -> Result<WriteAnswer, Refusal>
    ensures { (result ≡ (write_of state.old w.offset w.width w.value).answer) × (state.new ≡ (write_of state.old w.offset w.width w.value).state) }
{
    let d = write(*state, w.offset, w.width, w.value);
    *state = d.state;
    d.answer
}
