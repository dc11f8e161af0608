// Numbers in a line.
ghost use Rattle.std.specs.Prelude.{◌≡◌, ◌≤◌};
ghost use Rattle.command.specs.Numeral.{numeral_of};

// The number of 64 bits at most that a word spells in a base, hex digits in either case.
pub(crate) fn numeral_of(word: &[u8], base: u32) -> Option<u64>
    requires above_unary { 2 ≤ base }
    requires hex_at_most { base ≤ 16 }
    ensures { result ≡ numeral_of base word.now }
{
    if word.is_empty() {
        return None;
    }
    let mut value: u64 = 0;
    for byte in word {
        let digit = char::from(*byte).to_digit(base)?;
        let shifted = value.checked_mul(u64::from(base))?;
        value = shifted.checked_add(u64::from(digit))?;
    }
    Some(value)
}
