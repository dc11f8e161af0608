// The checks after the whole file: refusals 12, 13 and 9.
ghost use Rattle.std.specs.Prelude.{◌≡◌};
ghost use Rattle.declaration.specs.Whole.{byte_fault, fault_of};

use address::config_layout::CONFIG_SPACE_SIZE;
use capability::layout_capabilities;
use config::{BadConfigByte, Function, check_config_bytes};
use refusal::Refusal;

// What is wrong, and the index of the capability or config byte.
#[derive(Clone, Copy, Debug, PartialEq, Eq)]
pub struct Fault {
    pub refusal: Refusal,
    pub index: usize,
}

fn byte_fault(check: Result<(), BadConfigByte>) -> Option<Fault>
    ensures { result ≡ byte_fault check }
{
    match check {
        Ok(()) => None,
        Err(BadConfigByte(index)) => Some(Fault {
            refusal: Refusal::BadConfigByte,
            index,
        }),
    }
}

// The first fault of a function: capabilities in order, then config bytes.
#[tactic(auto, unfolding(crate::specs::Whole::fault_of))]
pub(crate) fn fault_of(function: Function) -> Option<Fault>
    ensures { result ≡ fault_of function }
{
    let capabilities = function.capabilities;
    match layout_capabilities(CONFIG_SPACE_SIZE, capabilities) {
        Ok(placed) => {
            let contents = function.contents;
            byte_fault(check_config_bytes(CONFIG_SPACE_SIZE, contents, placed))
        }
        Err(refused) => Some(Fault {
            refusal: refused.refusal,
            index: refused.index,
        }),
    }
}
