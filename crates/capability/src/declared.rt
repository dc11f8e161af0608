// A function's capabilities as they are declared.
ghost use Rattle.std.specs.Prelude.{◌≡◌};
ghost use Rattle.address.specs.Limits.{limits};
ghost use Rattle.capability.specs.Declaration.{capability_of, no_capability, none_declared, count_of, effect_count_of, length_at};
ghost use Rattle.capability.specs.Addition.{add_capability_of};

use crate::effect::Effect;
use crate::placed::CAPABILITY_BODY_MAX_SIZE;
use address::limits::{CAPABILITY_LIMIT, EFFECT_LIMIT};
use refusal::Refusal;

// A capability: its id, and the length of its body.
#[derive(Clone, Copy, Debug, PartialEq, Eq)]
pub struct Capability {
    id: u8,
    length: u8,
}

// Those of a function in declaration order, with their effects; what lies past a count is blank. There is no heap.
#[derive(Clone, Copy, Debug, PartialEq, Eq)]
pub struct Capabilities {
    pub list: [Capability; CAPABILITY_LIMIT],
    pub count: usize,
    pub effects: [Effect; EFFECT_LIMIT],
    pub effect_count: usize,
}

impl Capability {
    // Refusal 10.
    #[tactic(auto, unfolding(crate::specs::Declaration::capability_of))]
    pub fn new(id: u8, length: usize) -> Result<Capability, Refusal>
        ensures { result ≡ capability_of id length }
    {
        if length <= CAPABILITY_BODY_MAX_SIZE {
            Ok(Capability {
                id,
                length: length as u8,
            })
        } else {
            Err(Refusal::LongBody)
        }
    }

    // What stands past the last capability of a list; the name is a promise.
    pub fn none() -> Capability
        ensures { result ≡ no_capability }
    {
        Capability { id: 0, length: 0 }
    }

    pub fn id(self) -> u8
        ensures { result ≡ self.id }
    {
        self.id
    }

    // The length of the body.
    pub fn length(self) -> u8
        ensures { result ≡ self.length }
    {
        self.length
    }
}

impl Capabilities {
    #[tactic(auto, unfolding(crate::specs::Declaration::none_declared, word::specs::Table::table))]
    pub fn none() -> Capabilities
        ensures { result ≡ none_declared }
    {
        Capabilities {
            list: [Capability::none(); CAPABILITY_LIMIT],
            count: 0,
            effects: [Effect::none(); EFFECT_LIMIT],
            effect_count: 0,
        }
    }

    // How many capabilities are declared.
    pub fn declared_count(self) -> usize
        ensures { result ≡ count_of self }
    {
        self.count.min(CAPABILITY_LIMIT)
    }

    // How many effects are.
    pub fn declared_effects(self) -> usize
        ensures { result ≡ effect_count_of self }
    {
        self.effect_count.min(EFFECT_LIMIT)
    }

    // The body length of the capability at an index, 0 past the array.
    pub fn length_at(self, index: usize) -> u8
        ensures { result ≡ length_at self index }
    {
        match self.list.get(index) {
            Some(capability) => capability.length,
            None => 0,
        }
    }

    // Declares one more capability: refusal 4.
    #[tactic(auto, unfolding(crate::specs::Addition::add_capability_of))]
    pub fn add_capability(self, capability: Capability) -> Result<Capabilities, Refusal>
        ensures { result ≡ add_capability_of limits self capability }
    {
        let n = self.count;
        if CAPABILITY_LIMIT <= n {
            return Err(Refusal::AboveLimit);
        }
        let mut out = self;
        out.list[n] = capability;
        out.count = n + 1;
        Ok(out)
    }
}
