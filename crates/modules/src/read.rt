// The way back: level and mask from the first copy of the format bits, and codewords along the zigzag, without the mask.
ghost use Rattle.std.specs.Prelude.{◌≡◌, cond, ◌*◌, ◌<◌, ◌≤◌, ltb, length};
ghost use Rattle.standard.specs.Sizes.{side};
ghost use Rattle.laws.specs.Grid.{Square};
ghost use Rattle.types.specs.Numbers.{level_of};
ghost use Rattle.modules.specs.Zigzag.{Laid, Laid.laid, read_at};
ghost use Rattle.standard.specs.Format.{level_bits};
ghost use Rattle.modules.specs.FormatBack.{format_bit, format_data, read_level, read_mask};
ghost use Rattle.modules.specs.Back.{copied, read_grid, read_words};
ghost use Rattle.modules.specs.Same.{agree, agree_to};

use types::{Mask, QrCodeEcc, Version};

/*---- Format ----*/

// The bit of the module (x, 8).
fn format_bit(grid: &[u8], size: usize, x: usize) -> u8
    requires square { Square grid.now size }
    requires le_size { (21 ≤ size) × (x < 5) }
    ensures { (result ≡ format_bit size grid.now x) × (result < 2) }
{
    let at = patterns::place(size, x, 8);
    grid[at] % 2
}

// Level and mask bits: the five highest bits of the first copy of the format bits.
fn format_data(grid: &[u8], size: usize) -> u8
    requires square { Square grid.now size }
    requires le_size { 21 ≤ size }
    ensures { result ≡ format_data size grid.now }
{
    let a = format_bit(grid, size, 0);
    let b = format_bit(grid, size, 1);
    let c = format_bit(grid, size, 2);
    let d = format_bit(grid, size, 3);
    let e = format_bit(grid, size, 4);
    (16 * a + 8 * b + 4 * c + 2 * d + e) ^ 0x15
}

// The level whose format bits are b.
fn level_of(b: u8) -> QrCodeEcc
    requires { b < 4 }
    ensures { level_of result ≡ level_bits b }
{
    match b {
        0 => QrCodeEcc::Medium,
        1 => QrCodeEcc::Low,
        2 => QrCodeEcc::High,
        _ => QrCodeEcc::Quartile,
    }
}

// Reads the error correction level.
pub fn read_level(grid: &[u8], ver: Version) -> QrCodeEcc
    requires square { Square grid.now (side ver.value) }
    ensures { level_of result ≡ read_level (side ver.value) grid.now }
{
    let size = patterns::size_of(ver);
    let bits = format_data(grid, size);
    level_of(bits / 8)
}

// Reads the mask.
pub fn read_mask(grid: &[u8], ver: Version) -> Mask
    requires square { Square grid.now (side ver.value) }
    ensures { result.value ≡ read_mask (side ver.value) grid.now }
{
    let size = patterns::size_of(ver);
    types::mask_at(format_data(grid, size) % 8)
}

/*---- Codewords ----*/

// Reads the module at a place as bit i of out, if it is no function module and out has such a bit. Answers the number of the next bit.
#[tactic(auto, unfolding(crate::specs::Zigzag::read_at))]
fn read_bit(grid: &[u8], out: &mut [u8], at: usize, i: usize) -> usize
    requires { (at < length grid.now) × (length out.old ≤ 4096) }
    ensures { laid out.new result ≡ read_at grid.now at (laid out.old i) }
{
    let v = grid[at];
    if v < 2 && i < out.len() * 8 {
        out[i / 8] = out[i / 8] % 128 * 2 + v;
        i + 1
    } else {
        i
    }
}

// A function module stays, a data module becomes d.
fn taken(c: u8, d: u8) -> u8
    ensures { result ≡ cond (ltb c 2) d c }
{
    if c < 2 { d } else { c }
}

// Copies the data modules of grid into work.
fn copy_data(grid: &[u8], work: &mut [u8])
    requires { length grid.now ≡ length work.old }
    ensures { work.new ≡ copied grid.now work.old }
{
    // The grid by an index: of what is written under a zip a proof learns nothing.
    for (k, m) in work.iter_mut().enumerate() {
        *m = taken(*m, grid[k]);
    }
}

// The data modules of grid without the mask, between function modules, in work.
fn unmask(grid: &[u8], work: &mut [u8], ver: Version, ecl: QrCodeEcc, mask: Mask)
    requires square { Square grid.now (side ver.value) }
    requires square_2 { Square work.old (side ver.value) }
    ensures { work.new ≡ read_grid ver.value (level_of ecl) mask.value grid.now }
{
    work.fill(0);
    patterns::draw_function_patterns(work, ver, ecl, mask);
    copy_data(grid, work);
    super::apply_mask(work, ver, mask);
}

// Reads the codewords of a grid into out, with work to draw in.
pub fn read_codewords(
    grid: &[u8],
    work: &mut [u8],
    ver: Version,
    ecl: QrCodeEcc,
    mask: Mask,
    out: &mut [u8],
)
    requires square { Square grid.now (side ver.value) }
    requires square_2 { Square work.old (side ver.value) }
    requires version { length out.old ≤ 4096 }
    ensures out_after { out.new ≡ read_words ver.value (level_of ecl) mask.value grid.now out.old }
    ensures work_after { work.new ≡ read_grid ver.value (level_of ecl) mask.value grid.now }
{
    unmask(grid, work, ver, ecl, mask);
    let size = patterns::size_of(ver);
    super::zigzag::zigzag(size, out, |out, at, i| read_bit(work, out, at, i));
}

/*---- Function modules ----*/

// Whether c is the color of the module w of a work grid, if that is a function module.
#[tactic(auto, unfolding(crate::specs::Same::agree))]
fn agrees(c: u8, w: u8) -> bool
    ensures { result ≡ agree c w }
{
    (w < 2) | (w % 2 == c)
}

// Whether the function modules of work have their colors in grid.
pub fn same_functions(grid: &[u8], work: &[u8]) -> bool
    requires { length grid.now ≡ length work.now }
    ensures { result ≡ agree_to (length work.now) grid.now work.now }
{
    let mut all = true;
    for (c, w) in grid.iter().zip(work) {
        all &= agrees(*c, *w);
    }
    all
}
