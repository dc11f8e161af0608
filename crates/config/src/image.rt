// One field put into a lent image: a byte, a word, or a part of bytes that lie at their places.
ghost use Rattle.std.specs.Prelude.{◌≡◌, [], ◌∷◌};
ghost use Rattle.config.specs.Field.{laid, at, part};

// A byte and a word at their place. One for each: a shared one would leave the widening to every caller.
pub fn put_byte(image: &mut [u8], offset: usize, value: u8)
    ensures { image.new ≡ laid image.old (at offset 1 value ∷ []) }
{
    word::put(image, offset, 1, value as u64);
}

pub fn put_word(image: &mut [u8], offset: usize, value: u16)
    ensures { image.new ≡ laid image.old (at offset 2 value ∷ []) }
{
    word::put(image, offset, 2, value as u64);
}

// Copies `length` bytes from `offset` on, as far as the image reaches, out of bytes that lie at their places from `base` on.
pub fn copy(image: &mut [u8], offset: usize, length: usize, base: usize, bytes: &[u8])
    ensures { image.new ≡ laid image.old (part offset length base bytes.now ∷ []) }
{
    let n = word::at_most(length, word::past(image.len(), offset));
    for i in 0..n {
        let at = offset + i;
        image[at] = word::byte_at(bytes, word::past(at, base));
    }
}
