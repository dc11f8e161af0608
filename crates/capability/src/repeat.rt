// Effect ids that are repeated in a function: refusal 12.
ghost use Rattle.std.specs.Prelude.{◌≡◌, ◌≤◌, ◌<◌};
ghost use Rattle.address.specs.Limits.{effect_room};
ghost use Rattle.capability.specs.Repeat.{id_among, repeats, repeats_at};

use crate::declared::Capabilities;
use crate::effect::Effect;
use address::limits::EFFECT_LIMIT;

// Whether one of the first `count` effects has the id.
fn id_among(effects: [Effect; EFFECT_LIMIT], id: u16, count: usize) -> bool
    requires { count ≤ effect_room }
    ensures { result ≡ id_among effects id count }
{
    effects[..count].iter().any(|earlier| earlier.id == id)
}

// Whether the effect at `index` is one of the capability and has an earlier one's id.
fn repeats_one(effects: [Effect; EFFECT_LIMIT], capability: usize, index: usize) -> bool
    requires { index < effect_room }
    ensures { result ≡ repeats effects capability index }
{
    let effect = effects[index];
    if (effect.capability as usize) == capability {
        return id_among(effects, effect.id, index);
    }
    false
}

// Whether the capability repeats an effect id of the function.
pub(crate) fn repeats_at(declared: Capabilities, capability: usize) -> bool
    ensures { result ≡ repeats_at declared capability }
{
    let effects = declared.effects;
    (0..declared.declared_effects()).any(|i| repeats_one(effects, capability, i))
}
