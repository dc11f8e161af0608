// Effects as they are declared.
ghost use Rattle.std.specs.Prelude.{◌≡◌};
ghost use Rattle.capability.specs.Effect.{effect_access_number, access_of_number, no_effect};
ghost use Rattle.capability.specs.Touch.{allows};

use refusal::Refusal;

// The directions that an effect allows, with document 01's numbers.
#[derive(Clone, Copy, Debug, PartialEq, Eq)]
pub enum EffectAccess {
    Read = 1,
    Write = 2,
    ReadWrite = 3,
}

// An effect of the capability at index `capability`: `length` bytes, from `offset` bytes after that one's start.
#[derive(Clone, Copy, Debug, PartialEq, Eq)]
pub struct Effect {
    pub id: u16,
    pub capability: u8,
    pub offset: u8,
    pub length: u8,
    pub access: EffectAccess,
}

impl EffectAccess {
    // The access that document 01 gives the number.
    #[tactic(auto, unfolding(crate::specs::Effect::access_of_number))]
    pub fn new(number: u8) -> Result<EffectAccess, Refusal>
        ensures { result ≡ access_of_number number }
    {
        match number {
            1 => Ok(EffectAccess::Read),
            2 => Ok(EffectAccess::Write),
            3 => Ok(EffectAccess::ReadWrite),
            _ => Err(Refusal::BadForm),
        }
    }

    pub fn number(self) -> u8
        ensures { result ≡ effect_access_number self }
    {
        self as u8
    }

    // Whether it allows a direction.
    #[tactic(auto, unfolding(crate::specs::Touch::allows))]
    pub(crate) fn allows(self, write: bool) -> bool
        ensures { result ≡ allows write (effect_access_number self) }
    {
        match self {
            EffectAccess::Read => !write,
            EffectAccess::Write => write,
            EffectAccess::ReadWrite => true,
        }
    }
}

impl Effect {
    // What stands past the last effect of a list; the name is a promise.
    pub fn none() -> Effect
        ensures { result ≡ no_effect }
    {
        Effect {
            id: 0,
            capability: 0,
            offset: 0,
            length: 0,
            access: EffectAccess::Read,
        }
    }
}
