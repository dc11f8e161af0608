// Fields of the latest function: INTx, BARs, config bytes.
ghost use Rattle.std.specs.Prelude.{[], ◌≡◌, Ok};
ghost use Rattle.word.specs.Search.{all_below};
ghost use Rattle.address.specs.Layout.{bar_count};
ghost use Rattle.address.specs.Limits.{limits};
ghost use Rattle.declaration.specs.Standing.{slot_used};
ghost use Rattle.declaration.specs.Take.{with_function, taken_said};

use crate::said::Said;
use crate::so_far::SoFar;
use address::limits::{BAR_SLOTS, CONFIG_BYTE_LIMIT};
use address::{ConfigOffset, Slot};
use bar::{MemoryBar, Request};
use config::{ConfigByte, Contents, Function, Intx};
use refusal::Refusal;

// Whether a slot has a BAR.
fn slot_used(function: Function, slot: usize) -> bool
    ensures { result ≡ slot_used function slot }
{
    if BAR_SLOTS <= slot {
        return false;
    }
    let bar = function.bars[slot];
    0 < bar.size()
}

// Whether every slot has one.
fn slots_used(function: Function) -> bool
    ensures { result ≡ all_below (slot_used function) bar_count }
{
    for i in 0..BAR_SLOTS {
        if !slot_used(function, i) {
            return false;
        }
    }
    true
}

impl SoFar {
    // The declaration with another latest function.
    pub(crate) fn with_function(self, function: Function) -> SoFar
        ensures { result ≡ with_function self function }
    {
        let mut out = self;
        out.function = function;
        out
    }

    #[tactic(auto, unfolding(crate::specs::Take::taken_said))]
    pub(crate) fn take_intx(self, pin: u8, line: u8) -> Result<SoFar, Refusal>
        ensures { result ≡ taken_said limits self (Ok (Said.Intx pin line)) [] }
    {
        if self.count == 0 {
            return Err(Refusal::OutOfOrder);
        }
        let mut function = self.function;
        let contents = function.contents;
        if contents.intx.is_some() {
            return Err(Refusal::OutOfOrder);
        }
        let with = Contents {
            intx: Some(Intx { pin, line }),
            ..contents
        };
        function.contents = with;
        Ok(self.with_function(function))
    }

    #[tactic(auto, unfolding(crate::specs::Take::taken_said))]
    pub(crate) fn take_bar(self, slot: u8, size: u64, request: Request) -> Result<SoFar, Refusal>
        ensures { result ≡ taken_said limits self (Ok (Said.Bar slot size request)) [] }
    {
        if self.count == 0 {
            return Err(Refusal::OutOfOrder);
        }
        let mut function = self.function;
        if slots_used(function) {
            return Err(Refusal::AboveLimit);
        }
        let at = Slot::new(slot)?;
        let i = at.index();
        if slot_used(function, i) {
            return Err(Refusal::BadDeviceOrSlot);
        }
        let bar = MemoryBar::new(at, size, request)?;
        function.bars[i] = bar;
        Ok(self.with_function(function))
    }

    #[tactic(auto, unfolding(crate::specs::Take::taken_said))]
    pub(crate) fn take_config_byte(self, offset: u8, value: u8, mask: u8) -> Result<SoFar, Refusal>
        ensures { result ≡ taken_said limits self (Ok (Said.ConfigByte offset value mask)) [] }
    {
        if self.count == 0 {
            return Err(Refusal::OutOfOrder);
        }
        let mut function = self.function;
        let mut contents = function.contents;
        let n = contents.byte_count;
        if CONFIG_BYTE_LIMIT <= n {
            return Err(Refusal::AboveLimit);
        }
        contents.bytes[n] = ConfigByte {
            offset: ConfigOffset::from(offset),
            value,
            mask,
        };
        contents.byte_count = n + 1;
        function.contents = contents;
        Ok(self.with_function(function))
    }
}
