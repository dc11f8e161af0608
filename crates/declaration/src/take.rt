// What one field does to the declaration so far.
ghost use Rattle.std.specs.Prelude.{◌≡◌};
ghost use Rattle.address.specs.Limits.{limits};
ghost use Rattle.declaration.specs.Take.{taken_of};

use crate::said::{Said, say};
use crate::so_far::SoFar;
use refusal::Refusal;

// The declaration with the field of this tag and body, or its refusal.
#[tactic(auto, unfolding(crate::specs::Take::taken_said))]
pub fn take_field(so_far: SoFar, tag: u8, body: &[u8]) -> Result<SoFar, Refusal>
    ensures { result ≡ taken_of limits so_far tag body.now }
{
    match say(tag, body)? {
        Said::Aperture { start, end } => so_far.take_aperture(start, end),
        Said::Function { device, identity } => so_far.take_function(device, identity),
        Said::Intx { pin, line } => so_far.take_intx(pin, line),
        Said::Bar {
            slot,
            size,
            request,
        } => so_far.take_bar(slot, size, request),
        Said::ConfigByte {
            offset,
            value,
            mask,
        } => so_far.take_config_byte(offset, value, mask),
        Said::Capability { id, length } => so_far.take_capability(id, length, body),
        Said::Effect {
            id,
            offset,
            length,
            access,
        } => so_far.take_effect(id, offset, length, access),
    }
}
