// Form: what a field's body says.
ghost use Rattle.std.specs.Prelude.{◌≡◌};
ghost use Rattle.word.specs.Number.{read_at};
ghost use Rattle.declaration.specs.Said.{aperture_said, function_said, intx_said, bar_said, config_byte_said, capability_said, effect_said, said_of};

use crate::tag::Tag;
use bar::Request;
use capability::EffectAccess;
use config::Identity;
use refusal::Refusal;

// What a field says. The bytes of a capability's body and masks stay in the field's body.
#[derive(Clone, Copy)]
pub enum Said {
    Aperture {
        start: u64,
        end: u64,
    },
    Function {
        device: u8,
        identity: Identity,
    },
    Intx {
        pin: u8,
        line: u8,
    },
    Bar {
        slot: u8,
        size: u64,
        request: Request,
    },
    ConfigByte {
        offset: u8,
        value: u8,
        mask: u8,
    },
    Capability {
        id: u8,
        length: usize,
    },
    Effect {
        id: u16,
        offset: u8,
        length: u8,
        access: EffectAccess,
    },
}

fn word_at(body: &[u8], at: usize) -> u16
    ensures { result ≡ read_at body.now at 2 }
{
    word::read(body, at, 2) as u16
}

fn say_aperture(body: &[u8]) -> Said
    ensures { result ≡ aperture_said body.now }
{
    Said::Aperture {
        start: word::read(body, 0, 8),
        end: word::read(body, 8, 8),
    }
}

fn say_function(body: &[u8]) -> Said
    ensures { result ≡ function_said body.now }
{
    let identity = Identity {
        vendor: word_at(body, 1),
        device: word_at(body, 3),
        subsystem_vendor: word_at(body, 5),
        subsystem: word_at(body, 7),
        revision: word::byte_at(body, 9),
        base_class: word::byte_at(body, 10),
        subclass: word::byte_at(body, 11),
        programming_interface: word::byte_at(body, 12),
    };
    Said::Function {
        device: word::byte_at(body, 0),
        identity,
    }
}

fn say_intx(body: &[u8]) -> Result<Said, Refusal>
    ensures { result ≡ intx_said body.now }
{
    let pin = word::byte_at(body, 0);
    if pin < 1 || 4 < pin {
        return Err(Refusal::BadForm);
    }
    Ok(Said::Intx {
        pin,
        line: word::byte_at(body, 1),
    })
}

fn say_bar(body: &[u8]) -> Result<Said, Refusal>
    ensures { result ≡ bar_said body.now }
{
    let slot = word::byte_at(body, 0);
    let kind = word::byte_at(body, 1);
    let size = word::read(body, 2, 8);
    let address = word::read(body, 10, 8);
    if kind == 0 {
        if address == 0 {
            return Ok(Said::Bar {
                slot,
                size,
                request: Request::Auto,
            });
        }
        return Err(Refusal::BadForm);
    }
    if kind == 1 {
        return Ok(Said::Bar {
            slot,
            size,
            request: Request::Fixed(address),
        });
    }
    Err(Refusal::BadForm)
}

fn say_config_byte(body: &[u8]) -> Said
    ensures { result ≡ config_byte_said body.now }
{
    Said::ConfigByte {
        offset: word::byte_at(body, 0),
        value: word::byte_at(body, 1),
        mask: word::byte_at(body, 2),
    }
}

fn say_capability(body: &[u8]) -> Said
    ensures { result ≡ capability_said body.now }
{
    Said::Capability {
        id: word::byte_at(body, 0),
        length: body.len() / 2,
    }
}

fn say_effect(body: &[u8]) -> Result<Said, Refusal>
    ensures { result ≡ effect_said body.now }
{
    let id = word_at(body, 0);
    let offset = word::byte_at(body, 2);
    let length = word::byte_at(body, 3);
    let access = EffectAccess::new(word::byte_at(body, 4))?;
    Ok(Said::Effect {
        id,
        offset,
        length,
        access,
    })
}

// What a field of this tag and body says; nothing where the body has not a length that the tag allows.
#[tactic(auto, unfolding(crate::specs::Said::said_of))]
pub fn say(tag: u8, body: &[u8]) -> Result<Said, Refusal>
    ensures { result ≡ said_of tag body.now }
{
    let Some(tag) = Tag::new(tag) else {
        return Err(Refusal::BadForm);
    };
    if !tag.allows(body.len()) {
        return Err(Refusal::BadForm);
    }
    match tag {
        Tag::Aperture => Ok(say_aperture(body)),
        Tag::Function => Ok(say_function(body)),
        Tag::Intx => say_intx(body),
        Tag::Bar => say_bar(body),
        Tag::ConfigByte => Ok(say_config_byte(body)),
        Tag::Capability => Ok(say_capability(body)),
        Tag::Effect => say_effect(body),
    }
}
