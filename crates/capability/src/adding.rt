// Adding an effect to the latest capability: refusals 3, 4 and 11.
ghost use Rattle.std.specs.Prelude.{◌≡◌};
ghost use Rattle.address.specs.Limits.{limits};
ghost use Rattle.capability.specs.Declaration.{effect_count_of, latest};
ghost use Rattle.capability.specs.BadEffect.{mask_at, clashes, overlaps_earlier, covers_writable, effect_bad};
ghost use Rattle.capability.specs.Addition.{add_effect_of};

use crate::declared::Capabilities;
use crate::effect::{Effect, EffectAccess};
use crate::placed::CAPABILITY_HEADER_SIZE;
use address::limits::EFFECT_LIMIT;
use refusal::Refusal;

// Whether an effect's region overlaps that of an earlier effect of its capability.
fn overlaps_one(earlier: Effect, effect: Effect) -> bool
    ensures { result ≡ clashes earlier effect.capability effect.offset effect.length }
{
    earlier.capability == effect.capability
        && word::overlap(
            effect.offset as u64,
            effect.length as u64,
            earlier.offset as u64,
            earlier.length as u64,
        )
}

// Whether it overlaps one that is declared.
fn overlaps_earlier(declared: Capabilities, effect: Effect) -> bool
    ensures { result ≡ overlaps_earlier declared.effects (effect_count_of declared) effect.capability effect.offset effect.length }
{
    let count = declared.declared_effects();
    declared.effects[..count]
        .iter()
        .any(|earlier| overlaps_one(*earlier, effect))
}

// The write mask of byte `at` of a capability.
fn mask_at(mask: &[u8], at: usize) -> u8
    ensures { result ≡ mask_at mask.now at }
{
    if at < CAPABILITY_HEADER_SIZE {
        return 0;
    }
    word::byte_at(mask, at - CAPABILITY_HEADER_SIZE)
}

// Whether its region has a byte that the guest may write.
fn covers_writable(mask: &[u8], effect: Effect) -> bool
    ensures { result ≡ covers_writable mask.now effect.offset effect.length }
{
    let start = effect.offset as usize;
    (0..effect.length as usize).any(|i| mask_at(mask, start + i) != 0)
}

// The index of the latest capability, 0 where there is none.
fn latest_of(declared: Capabilities) -> u8
    ensures { result ≡ latest declared }
{
    declared.declared_count().saturating_sub(1) as u8
}

// Whether the latest capability refuses an effect of its own.
#[tactic(auto, unfolding(crate::specs::BadEffect::effect_bad))]
fn effect_bad(mask: &[u8], declared: Capabilities, effect: Effect) -> bool
    requires { effect.capability ≡ latest declared }
    ensures { result ≡ effect_bad mask.now declared effect.offset effect.length }
{
    let start = effect.offset as usize;
    let length = effect.length as usize;
    let body = declared.length_at(effect.capability as usize) as usize;
    length == 0
        || start < CAPABILITY_HEADER_SIZE
        || CAPABILITY_HEADER_SIZE + body < start + length
        || overlaps_earlier(declared, effect)
        || covers_writable(mask, effect)
}

impl Capabilities {
    // Declares an effect of the latest capability, whose body has the write masks `mask`.
    #[tactic(auto, unfolding(crate::specs::Addition::add_effect_of))]
    pub fn add_effect(
        self,
        mask: &[u8],
        id: u16,
        offset: u8,
        length: u8,
        access: EffectAccess,
    ) -> Result<Capabilities, Refusal>
        ensures { result ≡ add_effect_of limits mask.now self id offset length access }
    {
        if self.count == 0 {
            return Err(Refusal::OutOfOrder);
        }
        let n = self.effect_count;
        if EFFECT_LIMIT <= n {
            return Err(Refusal::AboveLimit);
        }
        let effect = Effect {
            id,
            capability: latest_of(self),
            offset,
            length,
            access,
        };
        if effect_bad(mask, self, effect) {
            return Err(Refusal::BadEffect);
        }
        let mut out = self;
        out.effects[n] = effect;
        out.effect_count = n + 1;
        Ok(out)
    }
}
