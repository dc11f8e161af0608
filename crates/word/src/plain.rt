// Bytes put in their place, with no mask.
ghost use Rattle.std.specs.Prelude.{◌≡◌, length};
ghost use Rattle.word.specs.Store.{put_of, laid_over};

use crate::masked::reach;

// Puts `width` bytes of `value` from `offset` on, as far as the list reaches.
pub fn put(bytes: &mut [u8], offset: usize, width: usize, value: u64)
    ensures { bytes.new ≡ put_of bytes.old offset width value }
{
    let many = reach(bytes.len(), offset, width);
    let mut rest = value;
    for i in 0..many {
        bytes[offset + i] = (rest % 256) as u8;
        rest = rest / 256;
    }
}

// Lays a list over bytes from `offset` on, as far as they reach.
pub fn lay(bytes: &mut [u8], offset: usize, part: &[u8])
    ensures { bytes.new ≡ laid_over bytes.old offset (length part.now) part.now }
{
    let many = reach(bytes.len(), offset, part.len());
    for i in 0..many {
        bytes[offset + i] = part[i];
    }
}
