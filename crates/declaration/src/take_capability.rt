// Fields of the latest function's capabilities: a capability, and an effect of the latest one.
ghost use Rattle.std.specs.Prelude.{[], ◌≡◌, ◌≤◌, Ok};
ghost use Rattle.address.specs.Limits.{limits};
ghost use Rattle.capability.specs.Size.{body_most};
ghost use Rattle.declaration.specs.Take.{body_place, mask_part, with_part, bodies_with, taken_said};
ghost use Rattle.declaration.specs.Blank.{no_mask};

use crate::said::Said;
use crate::so_far::{SoFar, no_mask};
use address::config_layout::CONFIG_STANDARD_HEADER_END;
use capability::{
    CAPABILITY_BODY_MAX_SIZE, CAPABILITY_HEADER_SIZE, Capabilities, Capability, EffectAccess,
};
use config::Contents;
use refusal::Refusal;

// Where in the bytes from 0x40 on the body of the next capability lies.
fn body_place(capabilities: Capabilities) -> usize
    ensures { result ≡ body_place capabilities }
{
    word::past(
        capabilities.next_start() + CAPABILITY_HEADER_SIZE,
        CONFIG_STANDARD_HEADER_END,
    )
}

// The write masks of a capability whose field has this body.
fn mask_of(length: usize, body: &[u8]) -> [u8; CAPABILITY_BODY_MAX_SIZE]
    requires { length ≤ body_most }
    ensures { result ≡ with_part no_mask 0 (mask_part length body.now) }
{
    let mut mask = no_mask();
    word::lay(&mut mask, 0, word::part(body, 1 + length, length));
    mask
}

// The contents with the bytes of one more capability at their place.
fn bodies_with(
    contents: Contents,
    capabilities: Capabilities,
    length: usize,
    body: &[u8],
) -> Contents
    requires { length ≤ body_most }
    ensures { result ≡ bodies_with contents capabilities length body.now }
{
    let at = body_place(capabilities);
    let mut bodies = contents.bodies;
    word::lay(&mut bodies, at, word::part(body, 1, length));
    let mut masks = contents.masks;
    word::lay(&mut masks, at, word::part(body, 1 + length, length));
    let mut out = contents;
    out.bodies = bodies;
    out.masks = masks;
    out
}

impl SoFar {
    pub(crate) fn take_capability(
        self,
        id: u8,
        length: usize,
        body: &[u8],
    ) -> Result<SoFar, Refusal>
        ensures { result ≡ taken_said limits self (Ok (Said.Capability id length)) body.now }
    {
        let capability = Capability::new(id, length)?;
        if self.count == 0 {
            return Err(Refusal::OutOfOrder);
        }
        let mut function = self.function;
        let capabilities = function.capabilities;
        let with = capabilities.add_capability(capability)?;
        let contents = bodies_with(function.contents, capabilities, length, body);
        function.contents = contents;
        function.capabilities = with;
        let mut out = self;
        out.function = function;
        let mask = mask_of(length, body);
        out.mask = mask;
        Ok(out)
    }

    #[tactic(auto, unfolding(crate::specs::Take::taken_said))]
    pub(crate) fn take_effect(
        self,
        id: u16,
        offset: u8,
        length: u8,
        access: EffectAccess,
    ) -> Result<SoFar, Refusal>
        ensures { result ≡ taken_said limits self (Ok (Said.Effect id offset length access)) [] }
    {
        if self.count == 0 {
            return Err(Refusal::OutOfOrder);
        }
        let mut function = self.function;
        let capabilities = function.capabilities;
        let mask = self.mask;
        let with = capabilities.add_effect(&mask, id, offset, length, access)?;
        function.capabilities = with;
        Ok(self.with_function(function))
    }
}
