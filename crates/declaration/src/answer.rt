// The answer to a file: the declaration, or a refusal with its place.
ghost use Rattle.std.specs.Prelude.{◌≡◌};
ghost use Rattle.address.specs.Limits.{limits};
ghost use Rattle.declaration.specs.Answer.{no_declaration, first_refusal, checked_whole, declared_from, declared_by};

use crate::finished::Finished;
use crate::reading::{Reading, read_fields};
use crate::whole::fault_of;
use address::limits::FUNCTION_LIMIT;
use bar::Aperture;
use config::Function;
use refusal::Refusal;

// Where a refusal is: at an offset of the file, or at an index of a device.
#[derive(Clone, Copy, Debug, PartialEq, Eq)]
pub enum Place {
    Offset(usize),
    Index { device: u8, index: usize },
}

// Why a file is refused, and where.
#[derive(Clone, Copy, Debug, PartialEq, Eq)]
pub struct DeclarationRefusal {
    pub refusal: Refusal,
    pub place: Place,
}

// A bus as it is declared, its functions in device order; what lies past the count is blank. There is no heap.
#[derive(Clone, Copy)]
pub struct Declaration {
    pub aperture: Aperture,
    pub functions: [Function; FUNCTION_LIMIT],
    pub count: usize,
}

impl Declaration {
    // No functions, and an aperture of no addresses, which no file declares.
    #[tactic(auto, unfolding(crate::specs::Finished::none_finished))]
    pub fn none() -> Declaration
        ensures { result ≡ no_declaration }
    {
        let finished = Finished::new();
        let functions = finished.functions;
        Declaration {
            aperture: Aperture { start: 0, end: 0 },
            functions,
            count: 0,
        }
    }
}

// The first fault of the functions in device order.
fn first_refusal(finished: Finished) -> Option<DeclarationRefusal>
    ensures { result ≡ first_refusal finished }
{
    for k in 0..word::at_most(finished.count, FUNCTION_LIMIT) {
        let function = finished.functions[k];
        if let Some(fault) = fault_of(function) {
            return Some(DeclarationRefusal {
                refusal: fault.refusal,
                place: Place::Index {
                    device: function.device,
                    index: fault.index,
                },
            });
        }
    }
    None
}

// After the whole file: the functions are checked in device order.
#[tactic(auto, unfolding(crate::specs::Answer::checked_whole))]
fn checked_whole(aperture: Aperture, finished: Finished) -> Result<Declaration, DeclarationRefusal>
    ensures { result ≡ checked_whole aperture finished }
{
    if let Some(refusal) = first_refusal(finished) {
        return Err(refusal);
    }
    let functions = finished.functions;
    Ok(Declaration {
        aperture,
        functions,
        count: finished.count,
    })
}

// The answer where the reading of a file of `end` bytes stands so at its end.
#[tactic(auto, unfolding(crate::specs::Answer::declared_from))]
pub(crate) fn declared_from(end: usize, reading: Reading) -> Result<Declaration, DeclarationRefusal>
    ensures { result ≡ declared_from end reading }
{
    if let Some(refusal) = reading.refusal {
        return Err(DeclarationRefusal {
            refusal,
            place: Place::Offset(reading.at),
        });
    }
    let now = reading.now;
    let Some(aperture) = now.aperture else {
        return Err(DeclarationRefusal {
            refusal: Refusal::OutOfOrder,
            place: Place::Offset(end),
        });
    };
    let finished = reading.finished;
    checked_whole(aperture, finished.with_latest(now))
}

// Reads a declaration file.
#[tactic(auto, unfolding(crate::specs::Answer::declared_by))]
pub fn read_declaration(file: &[u8]) -> Result<Declaration, DeclarationRefusal>
    ensures { result ≡ declared_by limits file.now }
{
    declared_from(file.len(), read_fields(file))
}
