// The image and the write masks that a function has at power-on.
ghost use Rattle.std.specs.Prelude.{◌≡◌, [], ◌∷◌, ◌<◌};
ghost use Rattle.address.specs.Layout.{config_space_size, bar_count};
ghost use Rattle.capability.specs.Owner.{capability_count};
ghost use Rattle.config.specs.ConfigByte.{byte_count};
ghost use Rattle.config.specs.Field.{laid};
ghost use Rattle.config.specs.PowerOn.{identity_fields, intx_fields, command_fields, byte_values, byte_masks, bar_field, bar_fields, list_fields, header_fields, body_field, capability_fields, capability_masks, power_on_of};

use crate::command::{COMMAND_HIGH, COMMAND_LOW};
use crate::config_byte::byte_count;
use crate::function::{Contents, Identity, Intx};
use crate::image::{copy, put_byte, put_word};
use address::config_layout;
use address::config_layout::CONFIG_SPACE_BYTES;
use address::limits::BAR_SLOTS;
use bar::BarState;
use capability::{CAPABILITY_HEADER_SIZE, Placed, capability_count, capability_start};

#[repr(C)]
#[derive(Clone, Copy)]
pub struct PowerOn {
    pub image: [u8; CONFIG_SPACE_BYTES],
    pub mask: [u8; CONFIG_SPACE_BYTES],
}

fn put_identity(image: &mut [u8], identity: Identity)
    ensures { image.new ≡ laid image.old (identity_fields identity) }
{
    put_word(
        image,
        config_layout::CONFIG_VENDOR_ID_OFFSET,
        identity.vendor,
    );
    put_word(
        image,
        config_layout::CONFIG_DEVICE_ID_OFFSET,
        identity.device,
    );
    put_byte(
        image,
        config_layout::CONFIG_REVISION_OFFSET,
        identity.revision,
    );
    put_byte(
        image,
        config_layout::CONFIG_PROGRAMMING_INTERFACE_OFFSET,
        identity.programming_interface,
    );
    put_byte(
        image,
        config_layout::CONFIG_SUBCLASS_OFFSET,
        identity.subclass,
    );
    put_byte(
        image,
        config_layout::CONFIG_BASE_CLASS_OFFSET,
        identity.base_class,
    );
    put_byte(image, config_layout::CONFIG_HEADER_TYPE_OFFSET, 0);
    put_word(
        image,
        config_layout::CONFIG_SUBSYSTEM_VENDOR_ID_OFFSET,
        identity.subsystem_vendor,
    );
    put_word(
        image,
        config_layout::CONFIG_SUBSYSTEM_DEVICE_ID_OFFSET,
        identity.subsystem,
    );
}

fn put_intx(image: &mut [u8], intx: Option<Intx>)
    ensures { image.new ≡ laid image.old (intx_fields intx) }
{
    match intx {
        Some(Intx { pin, line }) => {
            put_byte(image, config_layout::CONFIG_INTERRUPT_LINE_OFFSET, line);
            put_byte(image, config_layout::CONFIG_INTERRUPT_PIN_OFFSET, pin);
        }
        None => {}
    }
}

fn put_command(mask: &mut [u8])
    ensures { mask.new ≡ laid mask.old command_fields }
{
    put_byte(mask, config_layout::CONFIG_COMMAND_OFFSET, COMMAND_LOW);
    put_byte(mask, config_layout::CONFIG_COMMAND_OFFSET + 1, COMMAND_HIGH);
}

fn put_config_bytes(image: &mut [u8], mask: &mut [u8], contents: Contents)
    ensures { (image.new ≡ laid image.old (byte_values contents (byte_count contents))) × (mask.new ≡ laid mask.old (byte_masks contents (byte_count contents))) }
{
    let n = byte_count(contents);
    for i in 0..n {
        let byte = contents.bytes[i];
        let offset = byte.offset;
        let at = offset.value() as usize;
        put_byte(image, at, byte.value);
        put_byte(mask, at, byte.mask);
    }
}

// The register of a slot, where it has a BAR.
fn put_bar(image: &mut [u8], bar: BarState, slot: u8)
    ensures { image.new ≡ laid image.old (bar_field bar slot) }
{
    if bar.plan.size == 0 {
        return;
    }
    let register = config_layout::CONFIG_BAR_START
        + config_layout::CONFIG_BAR_REGISTER_SIZE * (slot as usize);
    word::put(
        image,
        register,
        config_layout::CONFIG_BAR_REGISTER_SIZE,
        bar::committed_dword(bar.plan.address) as u64,
    );
}

fn put_bars(image: &mut [u8], bars: [BarState; BAR_SLOTS])
    ensures { image.new ≡ laid image.old (bar_fields bars bar_count) }
{
    for slot in 0..config_layout::BAR_COUNT {
        let bar = bars[slot as usize];
        put_bar(image, bar, slot);
    }
}

// The status bit and the pointer of the list.
fn put_list(image: &mut [u8], placed: Placed)
    ensures { image.new ≡ laid image.old (list_fields placed) }
{
    if capability_count(placed) == 0 {
        return;
    }
    put_byte(
        image,
        config_layout::CONFIG_STATUS_OFFSET,
        config_layout::STATUS_CAPABILITIES_LIST,
    );
    word::put(
        image,
        config_layout::CONFIG_CAPABILITY_POINTER_OFFSET,
        1,
        capability_start(placed, 0) as u64,
    );
}

// The id and the next offset of a capability.
fn put_header(image: &mut [u8], placed: Placed, i: usize)
    requires { i < capability_count placed }
    ensures { image.new ≡ laid image.old (header_fields placed i) }
{
    let capability = placed.capabilities[i];
    let start = capability_start(placed, i) as usize;
    put_byte(image, start, capability.id);
    word::put(image, start + 1, 1, capability_start(placed, i + 1) as u64);
}

// The body of a capability, or its masks.
fn put_body(image: &mut [u8], bytes: &[u8], placed: Placed, i: usize)
    requires { i < capability_count placed }
    ensures { image.new ≡ laid image.old (body_field placed bytes.now i ∷ []) }
{
    let capability = placed.capabilities[i];
    let length = capability.length as usize;
    let start = capability_start(placed, i) as usize;
    copy(
        image,
        start + CAPABILITY_HEADER_SIZE,
        length,
        config_layout::CONFIG_STANDARD_HEADER_END,
        bytes,
    );
}

fn put_capabilities(image: &mut [u8], mask: &mut [u8], bodies: &[u8], masks: &[u8], placed: Placed)
    ensures { (image.new ≡ laid image.old (capability_fields placed bodies.now (capability_count placed))) × (mask.new ≡ laid mask.old (capability_masks placed masks.now (capability_count placed))) }
{
    let n = capability_count(placed);
    for i in 0..n {
        put_header(image, placed, i);
        put_body(image, bodies, placed, i);
        put_body(mask, masks, placed, i);
    }
}

impl PowerOn {
    // The image and the masks of a function: identity, INTx, command, config bytes, BARs, capabilities.
    pub fn build(contents: Contents, bars: [BarState; BAR_SLOTS], placed: Placed) -> PowerOn
        ensures { result ≡ power_on_of config_space_size contents bars placed }
    {
        let identity = contents.identity;
        let intx = contents.intx;
        let bodies = contents.bodies;
        let masks = contents.masks;
        let mut image = [0u8; CONFIG_SPACE_BYTES];
        let mut mask = [0u8; CONFIG_SPACE_BYTES];
        put_identity(&mut image, identity);
        put_intx(&mut image, intx);
        put_command(&mut mask);
        put_config_bytes(&mut image, &mut mask, contents);
        put_bars(&mut image, bars);
        put_list(&mut image, placed);
        put_capabilities(&mut image, &mut mask, &bodies, &masks, placed);
        PowerOn { image, mask }
    }
}
