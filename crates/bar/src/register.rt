// A BAR's register as a dword.
ghost use Rattle.std.specs.Prelude.{◌≡◌};
ghost use Rattle.bar.specs.Register.{size_mask, candidate, committed, starts_probe};

use crate::range::FOUR_GIB;

// The low four bits of a register are not part of an address.
const ADDRESS_UNIT: u64 = 0x10;

// The dword that starts a probe.
const PROBE: u32 = 0xffff_ffff;

// What a probe reads; a size above 4 GiB, which no BAR has, reads 0.
pub fn size_mask(size: u64) -> u64
    ensures { result ≡ size_mask size }
{
    if FOUR_GIB < size {
        return 0;
    }
    FOUR_GIB - size
}

// The address that a dword asks for.
pub fn candidate_address(dword: u32) -> u64
    ensures { result ≡ candidate dword }
{
    (dword as u64) / ADDRESS_UNIT * ADDRESS_UNIT
}

// An address as the register shows it.
pub fn committed_dword(address: u64) -> u32
    ensures { result ≡ committed address }
{
    (address % FOUR_GIB / ADDRESS_UNIT * ADDRESS_UNIT) as u32
}

pub fn starts_probe(dword: u32) -> bool
    ensures { result ≡ starts_probe dword }
{
    dword == PROBE
}
