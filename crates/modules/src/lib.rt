// Data modules in the work grid of `patterns`: codewords along the zigzag, masks, and the finished grid.
// (A grid is a lent slice here, and each contract says that it is square: a struct of a `&mut` has two moments in every clause. `patterns` has
// one, `Canvas`, for what it draws within.)
#![tactic(auto)]

mod mask; // mask.rt: the eight masks
mod question; // question.rt: one module of a grid
mod read; // read.rt: level, mask and codewords are read back
mod zigzag; // zigzag.rt: the path of the codewords

ghost use Rattle.std.specs.Prelude.{◌≡◌, ◌*◌, ◌%◌, ◌<◌, ◌≤◌, length};
ghost use Rattle.standard.specs.Sizes.{side};
ghost use Rattle.standard.specs.Format.{format_word};
ghost use Rattle.standard.specs.Grid.{content, grid as grid_of};
ghost use Rattle.laws.specs.Grid.{Square};
ghost use Rattle.laws.specs.Each.{each};
ghost use Rattle.types.specs.Numbers.{level_of};
ghost use Rattle.modules.specs.Zigzag.{bit_of, Laid, Laid.laid, lay_at, drawn};
ghost use Rattle.modules.specs.Work.{work};

pub use mask::apply_mask;
pub use question::get_module;
pub use read::{read_codewords, read_level, read_mask, same_functions};
use types::{Mask, QrCodeEcc, Version};

/*---- Codewords ----*/

// Bit i of the codewords, the highest of a byte first.
#[tactic(auto, unfolding(crate::specs::Zigzag::bit_of))]
fn bit(codewords: &[u8], i: usize) -> u8
    requires { i < length codewords.now * 8 }
    ensures { result ≡ bit_of codewords.now i }
{
    (codewords[i / 8] >> (7 - i % 8)) % 2
}

// Draws bit i at a place, if that is no function module and there is such a bit. Answers the number of the next bit.
#[tactic(auto, unfolding(crate::specs::Zigzag::lay_at))]
fn draw_bit(grid: &mut [u8], codewords: &[u8], at: usize, i: usize) -> usize
    requires { (at < length grid.old) × (length codewords.now ≤ 4096) }
    ensures { laid grid.new result ≡ lay_at codewords.now at (laid grid.old i) }
{
    if grid[at] < 2 && i < codewords.len() * 8 {
        grid[at] = bit(codewords, i);
        i + 1
    } else {
        i
    }
}

// Draws the given sequence of 8-bit codewords (data and error correction) onto the entire
// data area of this QR Code. Function modules need to be marked off before this is called.
// Remainder modules (0 to 7) are left unchanged.
fn draw_codewords(grid: &mut [u8], ver: Version, codewords: &[u8])
    requires square { Square grid.old (side ver.value) }
    requires version { length codewords.now ≤ 4096 }
    ensures { grid.new ≡ drawn (side ver.value) codewords.now grid.old }
{
    let size = patterns::size_of(ver);
    zigzag::zigzag(size, grid, |grid, at, i| draw_bit(grid, codewords, at, i));
}

/*---- Whole grids ----*/

// Leaves the colors of a work grid: 0 light, 1 dark.
pub fn finish(grid: &mut [u8])
    ensures { grid.new ≡ each (λ _ k. k % 2) grid.old }
{
    for m in grid.iter_mut() {
        *m %= 2;
    }
}

// Draws function modules and codewords, without a mask. Any mask will do for the format bits where they are drawn again.
pub fn draw_modules(grid: &mut [u8], ver: Version, ecl: QrCodeEcc, mask: Mask, codewords: &[u8])
    requires square { Square grid.old (side ver.value) }
    requires version { length codewords.now ≤ 4096 }
    ensures { grid.new ≡ work ver.value (format_word (level_of ecl) mask.value) (content ver.value codewords.now) }
{
    grid.fill(0);
    patterns::draw_function_patterns(grid, ver, ecl, mask);
    draw_codewords(grid, ver, codewords);
}

// Draws the whole grid: function modules and codewords, the mask, the format bits; and leaves the colors.
pub fn draw_label(grid: &mut [u8], ver: Version, ecl: QrCodeEcc, mask: Mask, codewords: &[u8])
    requires square { Square grid.old (side ver.value) }
    requires version { length codewords.now ≤ 4096 }
    ensures { grid.new ≡ grid_of ver.value (level_of ecl) mask.value (content ver.value codewords.now) }
{
    draw_modules(grid, ver, ecl, mask, codewords);
    apply_mask(grid, ver, mask);
    patterns::draw_format_bits(grid, ver, ecl, mask);
    finish(grid);
}
