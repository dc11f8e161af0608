// An effect, as text.
ghost use Rattle.std.specs.Prelude.{◌≡◌, ◌+◌, ◌*◌, ◌≤◌, length};
ghost use Rattle.text.specs.Part.{Room, Put};
ghost use Rattle.dialogue.specs.Effect.{body_bytes, body_text, body_column, body_room, region_text, region_room, effect_text, effect_room};

use crate::part::{put_bytes, put_column, put_hex};
use capability::{CAPABILITY_BODY_MAX_SIZE, EffectHit, PlacedEffect, Snapshot};
use text::Text;

// The bytes of a body.
#[tactic(auto, unfolding(crate::specs::Effect::body_bytes))]
fn put_body_bytes(text: &mut Text<'_>, body: Snapshot)
    requires { Room text.old body_room }
    ensures { Put text.old text.new body_room (body_bytes body) }
{
    let bytes = body.bytes;
    let count = word::at_most(body.length as usize, CAPABILITY_BODY_MAX_SIZE);
    for k in 0..count {
        put_hex(text, 2, u64::from(bytes[k]));
    }
}

// A body, or a dash for an empty one.
#[tactic(auto, unfolding(crate::specs::Effect::body_text))]
fn put_body(text: &mut Text<'_>, body: Snapshot)
    requires { Room text.old body_room }
    ensures { Put text.old text.new body_room (body_text body) }
{
    if body.length == 0 {
        return put_bytes(text, b"-");
    }
    put_body_bytes(text, body);
}

// A blank, then a body.
#[tactic(auto, unfolding(crate::specs::Effect::body_column))]
fn put_body_column(text: &mut Text<'_>, body: Snapshot)
    requires { Room text.old (1 + body_room) }
    ensures { Put text.old text.new (1 + body_room) (body_column body) }
{
    put_bytes(text, b" ");
    put_body(text, body);
}

// Id, offset, length and access of a region.
#[tactic(auto, unfolding(crate::specs::Effect::region_text))]
fn put_region(text: &mut Text<'_>, region: PlacedEffect)
    requires { Room text.old region_room }
    ensures { Put text.old text.new region_room (region_text region) }
{
    put_column(text, 4, u64::from(region.id));
    put_column(text, 2, u64::from(region.offset));
    put_column(text, 2, u64::from(region.length));
    put_column(text, 1, u64::from(region.access));
}

#[tactic(auto, unfolding(crate::specs::Effect::effect_text))]
pub(crate) fn put_effect(text: &mut Text<'_>, hit: EffectHit, body: Snapshot)
    requires { Room text.old effect_room }
    ensures { Put text.old text.new effect_room (effect_text hit body) }
{
    put_bytes(text, b"effect");
    put_column(text, 2, u64::from(hit.capability_id));
    put_region(text, hit.region);
    put_column(text, 2, u64::from(hit.offset));
    put_body_column(text, body);
    put_column(text, 2, u64::from(hit.region_offset));
    put_bytes(text, b"\n");
}
