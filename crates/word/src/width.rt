// The widths that an access may have.
ghost use Rattle.std.specs.Prelude.{◌≡◌};
ghost use Rattle.word.specs.Width.{width_ok};

// Whether a width is 1, 2, 4 or 8 and at most `most`.
pub fn width_ok(most: usize, width: usize) -> bool
    ensures { result ≡ width_ok most width }
{
    if most < width {
        return false;
    }
    match width {
        1 => true,
        2 => true,
        4 => true,
        8 => true,
        _ => false,
    }
}
