// Capabilities and effects in numbers: C has no Option and no Result.
ghost use Rattle.std.specs.Prelude.{◌≡◌, min};
ghost use Rattle.capability.specs.Declaration.{capability};
ghost use Rattle.capability.specs.Size.{body_most};
ghost use Rattle.harness.specs.Lists.{access_taken, effect_taken, capabilities_in, effects_in, declared_in, laid_out, lay_out, effect_number};

use address::config_layout::CONFIG_SPACE_SIZE;
use address::limits::{CAPABILITY_LIMIT, EFFECT_LIMIT};
use capability::{
    CAPABILITY_BODY_MAX_SIZE, Capabilities, Capability, Effect, EffectAccess, LayoutRefusal,
    Placed, PlacedEffect, layout_capabilities,
};
use std::array;
use word::at_most;

// A function's capabilities in declaration order, each with its id and body length, and its effects with the index of their capability and the number of their access. C reads this layout.
#[repr(C)]
#[derive(Clone, Copy)]
pub struct DeclaredNumbers {
    pub ids: [u8; CAPABILITY_LIMIT],
    pub lengths: [u8; CAPABILITY_LIMIT],
    pub count: usize,
    pub effects: [PlacedEffect; EFFECT_LIMIT],
    pub effect_count: usize,
}

// Refusal 0 where all are placed; else 12 or 13, with the index of the capability at fault, and nothing placed.
#[repr(C)]
#[derive(Clone, Copy)]
pub struct LaidOut {
    pub refusal: u8,
    pub index: usize,
    pub placed: Placed,
}

fn capability_of(id: u8, length: u8) -> Capability
    ensures { result ≡ capability id (min length body_most) }
{
    let length = at_most(length as usize, CAPABILITY_BODY_MAX_SIZE);
    Capability::new(id, length).unwrap_or(Capability::none())
}

fn access_taken(number: u8) -> EffectAccess
    ensures { result ≡ access_taken number }
{
    EffectAccess::new(number).unwrap_or(EffectAccess::Read)
}

fn effect_taken(effect: PlacedEffect) -> Effect
    ensures { result ≡ effect_taken effect }
{
    let access = access_taken(effect.access);
    Effect {
        id: effect.id,
        capability: effect.capability,
        offset: effect.offset,
        length: effect.length,
        access,
    }
}

fn capabilities_in(
    ids: [u8; CAPABILITY_LIMIT],
    lengths: [u8; CAPABILITY_LIMIT],
) -> [Capability; CAPABILITY_LIMIT]
    ensures { result ≡ capabilities_in ids lengths }
{
    array::from_fn(|k| capability_of(ids[k], lengths[k]))
}

// Place by place: by an array's `map` a call of harness_effect takes 2.8 times as long.
fn effects_in(effects: [PlacedEffect; EFFECT_LIMIT]) -> [Effect; EFFECT_LIMIT]
    ensures { result ≡ effects_in effects }
{
    let none = Effect::none();
    let mut list = [none; EFFECT_LIMIT];
    for j in 0..EFFECT_LIMIT {
        let effect = effect_taken(effects[j]);
        list[j] = effect;
    }
    list
}

fn declared_in(declared: DeclaredNumbers) -> Capabilities
    ensures { result ≡ declared_in declared }
{
    let ids = declared.ids;
    let lengths = declared.lengths;
    let numbers = declared.effects;
    let list = capabilities_in(ids, lengths);
    let effects = effects_in(numbers);
    Capabilities {
        list,
        count: at_most(declared.count, CAPABILITY_LIMIT),
        effects,
        effect_count: at_most(declared.effect_count, EFFECT_LIMIT),
    }
}

fn laid_out(layout: Result<Placed, LayoutRefusal>) -> LaidOut
    ensures { result ≡ laid_out layout }
{
    match layout {
        Ok(placed) => LaidOut {
            refusal: refusal::ACCEPTED,
            index: 0,
            placed,
        },
        Err(refused) => LaidOut {
            refusal: refused.refusal.number(),
            index: refused.index,
            placed: Placed::none(),
        },
    }
}

// The layout in config space.
#[unsafe(no_mangle)]
pub extern "C" fn harness_layout(declared: DeclaredNumbers) -> LaidOut
    ensures { result ≡ lay_out declared }
{
    laid_out(layout_capabilities(CONFIG_SPACE_SIZE, declared_in(declared)))
}

// Refusal 11, 4 or 3 of an effect of the latest capability, whose body has the write masks `mask`, or 0.
#[unsafe(no_mangle)]
pub extern "C" fn harness_effect(declared: DeclaredNumbers, mask: &[u8], effect: PlacedEffect) -> u8
    ensures { result ≡ effect_number declared mask.now effect }
{
    let access = access_taken(effect.access);
    let state = declared_in(declared);
    refusal::number(state.add_effect(mask, effect.id, effect.offset, effect.length, access))
}
