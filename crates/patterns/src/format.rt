// Format and version bits: words with their check bits, and drawing them.
ghost use Rattle.std.specs.Prelude.{◌≡◌, ℕ, ◌+◌, ◌%◌, ◌^◌, ◌<◌, ◌≤◌};
ghost use Rattle.standard.specs.Numbers.{bit, one};
ghost use Rattle.standard.specs.Sizes.{side};
ghost use Rattle.standard.specs.Format.{checked, format_word, version_word};
ghost use Rattle.laws.specs.Dots.{dots};
ghost use Rattle.types.specs.Numbers.{level_of};
ghost use Rattle.patterns.specs.Layers.{formats, versions};
ghost use Rattle.patterns.specs.FormatPlaces.{first_x, first_y, second_x, second_y, word_bit, Places};
ghost use Rattle.patterns.specs.Words.{Reduces};
ghost use Rattle.patterns.specs.Painted.{Paints};

use super::Canvas;
use types::{Mask, QrCodeEcc, Version};

// The check bits of a word: what is left of it by a generator of degree w + 1.
fn remainder(word: u32, w: u32, generator: u32) -> u32
    requires { (w ≤ 11) × (word < 2 ^ (w + 1)) × Reduces w generator }
    ensures { (result ≡ checked w generator (w + 1) word) × (result < 2 ^ (w + 1)) }
{
    let mut rem = word;
    for _i in 0..w + 1 {
        rem = (2 * rem) ^ ((rem >> w) * generator);
    }
    rem
}

// Level and mask with ten check bits: uint15.
fn format_word(ecl: QrCodeEcc, mask: Mask) -> u32
    ensures { (result ≡ format_word (level_of ecl) mask.value) × (result < 32768) }
{
    let data = 8 * u32::from(ecl.format_bits()) + u32::from(mask.value());
    (1024 * data + remainder(data, 9, 0x537)) ^ 0x5412
}

// The version with twelve check bits: uint18.
fn version_word(ver: Version) -> u32
    requires { 7 ≤ ver.value }
    ensures { result ≡ version_word ver.value }
{
    let data = u32::from(ver.value());
    4096 * data + remainder(data, 11, 0x1F25)
}

// Where bit i of the first copy of the format bits stands: its column and row.
#[tactic(auto, unfolding(crate::specs::FormatPlaces::first_x, crate::specs::FormatPlaces::first_y))]
fn first_place(i: usize) -> (usize, usize)
    requires { i < 15 }
    ensures { (result.0 ≡ first_x i) × (result.1 ≡ first_y i) × (result.0 < 21) × (result.1 < 21) }
{
    match i {
        0..=5 => (8, i),
        6 => (8, 7),
        7 => (8, 8),
        8 => (7, 8),
        _ => (14 - i, 8),
    }
}

// Where bit i of the second copy stands.
#[tactic(auto, unfolding(crate::specs::FormatPlaces::second_x, crate::specs::FormatPlaces::second_y))]
fn second_place(size: usize, i: usize) -> (usize, usize)
    requires { (21 ≤ size) × (size ≤ 177) × (i < 15) }
    ensures { (result.0 ≡ second_x size i) × (result.1 ≡ second_y size i) × (result.0 < size) × (result.1 < size) }
{
    if i < 8 {
        (size - 1 - i, 8)
    } else {
        (8, size - 15 + i)
    }
}

// Returns true iff the i'th bit of x is set to 1.
fn get_bit(x: u32, i: usize) -> bool
    requires { i < 18 }
    ensures { one result ≡ bit x i }
{
    (x >> i) % 2 == 1
}

impl Canvas<'_> {
    // Draws a copy of the format bits, bit i at the place at(i).
    fn draw_copy<F: Fn(usize) -> (usize, usize)>(&mut self, bits: u32, at: F)
        requires callable { (i : ℕ) → i < 15 → F.pre at i }
        requires inside { (i : ℕ) (p : ℕ × ℕ) → i < 15 → F.post at i p → (p.0 < self.old.size) × (p.1 < self.old.size) }
        ensures { (px py : ℕ → ℕ) → Places (F.post at) px py → Paints self.old self.new (dots 15 px py (word_bit bits)) }
    {
        for i in 0..15 {
            let (x, y) = at(i);
            self.set_function_module(x, y, get_bit(bits, i));
        }
    }

    // Draws two copies of the format bits, and the module that is always dark. (Inlined, so that grid and side are no struct in memory.)
    #[inline(always)]
    pub fn draw_format(&mut self, ver: Version, ecl: QrCodeEcc, mask: Mask)
        requires { self.old.size ≡ side ver.value }
        ensures { Paints self.old self.new (formats (side ver.value) (format_word (level_of ecl) mask.value)) }
    {
        let size = self.size;
        let bits = format_word(ecl, mask);
        self.draw_copy(bits, first_place);
        self.draw_copy(bits, |i| second_place(size, i));
        self.set_function_module(8, size - 8, true); // Always dark
    }

    // Draws two copies of the version bits (with its own error correction code), iff 7 <= version <= 40.
    pub fn draw_version(&mut self, ver: Version)
        requires { self.old.size ≡ side ver.value }
        ensures { Paints self.old self.new (versions ver.value) }
    {
        if ver.value() < 7 {
            return;
        }
        let size = self.size;
        let bits = version_word(ver);
        for i in 0..18 {
            self.set_twin_modules(size - 11 + i % 3, i / 3, get_bit(bits, i));
        }
    }
}
