// PCI capabilities: declarations, layout, effects, byte modes, views.
#![tactic(auto)]

mod adding;
mod byte_mode;
mod declared;
mod effect;
mod effect_access;
mod layout;
mod offset;
mod owner;
mod placed;
mod placing;
mod repeat;
mod snapshot;
mod view;

pub use byte_mode::{ByteMode, capability_at, mode_of};
pub use declared::{Capabilities, Capability};
pub use effect::{Effect, EffectAccess};
pub use effect_access::{EffectHit, effect_for_access};
pub use layout::{LayoutRefusal, layout_capabilities};
pub use offset::CAPABILITY_ALIGNMENT;
pub use owner::{capability_count, capability_start, owner_of};
pub use placed::{
    CAPABILITY_BODY_MAX_SIZE, CAPABILITY_HEADER_SIZE, Placed, PlacedCapability, PlacedEffect,
};
pub use snapshot::{Snapshot, snapshot_of};
pub use view::{ViewCopy, view_copy, view_of};
