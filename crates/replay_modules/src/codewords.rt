// The codewords of a case: pseudo-random, as the list's maker takes them.
ghost use Rattle.std.specs.Prelude.{◌<◌};

use types::{Mask, QrCodeEcc, Version};

// Where the pseudo-random numbers of a case start.
pub(crate) fn seed(ver: Version, ecl: QrCodeEcc, mask: Mask) -> u64
    ensures { result < 2147483648 }
{
    u64::from(ver.value()) * 32 + ecl.ordinal() as u64 * 8 + u64::from(mask.value())
}

// Fills in pseudo-random codewords.
pub(crate) fn fill(words: &mut [u8], seed: u64)
    requires { seed < 2147483648 }
{
    let mut x = seed;
    for word in words.iter_mut() {
        x = (x * 1103515245 + 12345) % 2147483648;
        *word = (x / 65536 % 256) as u8;
    }
}
