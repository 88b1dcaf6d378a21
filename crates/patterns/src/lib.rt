// Function patterns: timing, finders, alignment, format and version, drawn in a work grid of size * size bytes, one a module:
// 0 and 1 are data modules, light and dark; 2 and 3 are function modules, light and dark.
#![tactic(auto)]

mod alignment; // alignment.rt: alignment patterns
mod canvas; // canvas.rt: a work grid with its side, and single modules of it
mod finders; // finders.rt: timing and finders
mod format; // format.rt: format and version bits

ghost use Rattle.std.specs.Prelude.{◌≡◌, ◌+◌, ◌*◌, ◌<◌, ◌≤◌};
ghost use Rattle.standard.specs.Sizes.{side};
ghost use Rattle.standard.specs.Format.{format_word};
ghost use Rattle.laws.specs.Grid.{Square, paint};
ghost use Rattle.types.specs.Numbers.{level_of};
ghost use Rattle.patterns.specs.Layers.{formats, functions};

use canvas::Canvas;
use types::{Mask, QrCodeEcc, Version};

// The width and height of a QR Code of the given version, between 21 and 177 (inclusive).
pub fn size_of(ver: Version) -> usize
    ensures { result ≡ side ver.value }
{
    4 * usize::from(ver.value()) + 17
}

// Where the module (x, y) stands in the grid.
pub fn place(size: usize, x: usize, y: usize) -> usize
    requires { (size ≤ 177) × (x < size) × (y < size) }
    ensures { (result ≡ y * size + x) × (result < size * size) }
{
    y * size + x
}

// Draws and marks all function modules.
pub fn draw_function_patterns(grid: &mut [u8], ver: Version, ecl: QrCodeEcc, mask: Mask)
    requires square { Square grid.old (side ver.value) }
    ensures { grid.new ≡ paint (side ver.value) (functions ver.value (format_word (level_of ecl) mask.value)) grid.old }
{
    let mut canvas = Canvas::new(grid, ver);
    canvas.draw_timing();
    canvas.draw_finders();
    canvas.draw_alignment_patterns(ver);
    canvas.draw_format(ver, ecl, mask);
    canvas.draw_version(ver);
}

// Draws two copies of the format bits (with its own error correction code)
// based on the given mask and error correction level.
pub fn draw_format_bits(grid: &mut [u8], ver: Version, ecl: QrCodeEcc, mask: Mask)
    requires square { Square grid.old (side ver.value) }
    ensures { grid.new ≡ paint (side ver.value) (formats (side ver.value) (format_word (level_of ecl) mask.value)) grid.old }
{
    let mut canvas = Canvas::new(grid, ver);
    canvas.draw_format(ver, ecl, mask);
}
