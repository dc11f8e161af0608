// The functions whose fields are all read, in device order.
ghost use Rattle.std.specs.Prelude.{◌≡◌, ◌≤◌, ◌<◌, length};
ghost use Rattle.address.specs.Limits.{function_room};
ghost use Rattle.declaration.specs.Blank.{no_function};
ghost use Rattle.declaration.specs.Finished.{place_in, opened, none_finished, finished_with, finished_so_far};

use crate::so_far::{SoFar, no_function};
use address::limits::FUNCTION_LIMIT;
use config::Function;

// What lies past the count is blank. There is no heap.
#[derive(Clone, Copy)]
pub struct Finished {
    pub functions: [Function; FUNCTION_LIMIT],
    pub count: usize,
}

// A list with a function at a place, and what stood there and after it one place further.
fn opened_at(
    functions: [Function; FUNCTION_LIMIT],
    place: usize,
    function: Function,
) -> [Function; FUNCTION_LIMIT]
    requires { place < function_room }
    ensures { result ≡ opened no_function functions place function }
{
    let mut out = functions;
    out[place] = function;
    for k in place + 1..FUNCTION_LIMIT {
        let before = functions[k - 1];
        out[k] = before;
    }
    out
}

impl Finished {
    #[tactic(auto, unfolding(crate::specs::Finished::none_finished))]
    pub(crate) fn new() -> Finished
        ensures { result ≡ none_finished }
    {
        let none = no_function();
        Finished {
            functions: [none; FUNCTION_LIMIT],
            count: 0,
        }
    }

    // Where a function of this device goes.
    fn place_in(self, device: u8) -> usize
        requires { self.count ≤ function_room }
        ensures { result ≡ place_in self device }
    {
        for k in 0..self.count {
            let function = self.functions[k];
            if device < function.device {
                return k;
            }
        }
        self.count
    }

    // With one more function.
    #[tactic(auto, unfolding(crate::specs::Finished::finished_with))]
    pub(crate) fn with(self, function: Function) -> Finished
        ensures { result ≡ finished_with self function }
    {
        let n = self.count;
        if FUNCTION_LIMIT <= n {
            return self;
        }
        let place = self.place_in(function.device);
        let list = self.functions;
        Finished {
            functions: opened_at(list, place, function),
            count: n + 1,
        }
    }

    // With the latest function of what is declared so far, where there is one.
    #[tactic(auto, unfolding(crate::specs::Finished::finished_so_far))]
    pub(crate) fn with_latest(self, so_far: SoFar) -> Finished
        ensures { result ≡ finished_so_far self so_far }
    {
        if so_far.count == 0 {
            return self;
        }
        let function = so_far.function;
        self.with(function)
    }
}
