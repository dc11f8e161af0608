// Declared capabilities and effects, put at their places.
ghost use Rattle.std.specs.Prelude.{◌≡◌, ℕ, ◌≤◌, ◌<◌, Ok, get_or};
ghost use Rattle.word.specs.Table.{filled};
ghost use Rattle.address.specs.Limits.{capability_room, effect_room};
ghost use Rattle.capability.specs.Effect.{no_effect};
ghost use Rattle.capability.specs.Declaration.{length_at};
ghost use Rattle.capability.specs.Offset.{offset_at};
ghost use Rattle.capability.specs.Blank.{no_placed_capability, no_placed_effect};
ghost use Rattle.capability.specs.Layout.{answer_of, placed_capability, placed_effect, placed_of};

use crate::declared::Capabilities;
use crate::effect::Effect;
use crate::offset::{next_offset, offset_in};
use crate::placed::{Placed, PlacedCapability, PlacedEffect};
use address::config_layout::CONFIG_STANDARD_HEADER_END;
use address::limits::{CAPABILITY_LIMIT, EFFECT_LIMIT};

// The first `count` capabilities at their places, blanks after.
#[tactic(auto, using(word::proofs::Tables::filled_none, word::proofs::Tables::filled_more, crate::proofs::Offsets::offset_first, crate::proofs::Offsets::offset_next, crate::proofs::Offsets::next_near), unfolding(word::specs::Table::table))]
fn place_capabilities(
    space: u16,
    declared: Capabilities,
    count: usize,
) -> [PlacedCapability; CAPABILITY_LIMIT]
    requires { (count ≤ capability_room) × ((k : ℕ) → k < count → offset_at (length_at declared) k < space) }
    ensures { result ≡ filled capability_room count (placed_capability declared) no_placed_capability }
{
    let mut out = [PlacedCapability::none(); CAPABILITY_LIMIT];
    let mut start = CONFIG_STANDARD_HEADER_END;
    for i in 0..count {
        let capability = declared.list[i];
        let length = capability.length();
        out[i] = PlacedCapability {
            id: capability.id(),
            offset: offset_in(space, start),
            length,
        };
        start = next_offset(start, length);
    }
    out
}

fn place_effect(effect: Effect) -> PlacedEffect
    ensures { result ≡ placed_effect effect }
{
    let access = effect.access;
    PlacedEffect {
        id: effect.id,
        capability: effect.capability,
        offset: effect.offset,
        length: effect.length,
        access: access.number(),
    }
}

// The first `count` effects, blanks after.
#[tactic(auto, using(word::proofs::Tables::filled_none, word::proofs::Tables::filled_more), unfolding(word::specs::Table::table))]
fn place_effects(effects: [Effect; EFFECT_LIMIT], count: usize) -> [PlacedEffect; EFFECT_LIMIT]
    requires { count ≤ effect_room }
    ensures { result ≡ filled effect_room count (λ j. placed_effect (get_or effects j no_effect)) no_placed_effect }
{
    let mut out = [PlacedEffect::none(); EFFECT_LIMIT];
    for i in 0..count {
        let effect = place_effect(effects[i]);
        out[i] = effect;
    }
    out
}

// Everything at its place; `space` is checked.
pub(crate) fn place(space: u16, declared: Capabilities) -> Placed
    requires { answer_of space declared ≡ Ok tt }
    ensures { result ≡ placed_of declared }
{
    let count = declared.declared_count();
    let capabilities = place_capabilities(space, declared, count);
    let effect_count = declared.declared_effects();
    let list = declared.effects;
    let effects = place_effects(list, effect_count);
    Placed {
        capabilities,
        count,
        effects,
        effect_count,
    }
}
