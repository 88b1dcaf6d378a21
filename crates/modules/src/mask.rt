// The eight masks. Each repeats after six columns and twelve rows: as much is worked out once, and then laid over the grid.
ghost use Rattle.std.specs.Prelude.{◌≡◌, ◌*◌, ◌%◌, ◌<◌, ◌≤◌, min, length, get_or};
ghost use Rattle.standard.specs.Numbers.{one};
ghost use Rattle.standard.specs.Sizes.{side};
ghost use Rattle.standard.specs.Masks.{inverts};
ghost use Rattle.laws.specs.Grid.{Square, paint};
ghost use Rattle.laws.specs.Each.{each, each_done};
ghost use Rattle.modules.specs.Mask.{masked};
ghost use Rattle.modules.specs.MaskRows.{on_row, again, in_row, inverted};

use types::{Mask, Version};

// Whether the mask inverts the module in column x and row y.
#[tactic(auto, unfolding(standard::specs::Masks::inverts, standard::specs::Masks::mask_number))]
fn inverted(mask: Mask, x: usize, y: usize) -> bool
    requires { (x < 177) × (y < 177) }
    ensures { result ≡ inverts mask.value x y }
{
    let xy = x * y;
    match mask.value() {
        0 => (x + y) % 2 == 0,
        1 => y % 2 == 0,
        2 => x % 3 == 0,
        3 => (x + y) % 3 == 0,
        4 => (x / 3 + y / 2) % 2 == 0,
        5 => xy % 2 + xy % 3 == 0,
        6 => (xy % 2 + xy % 3) % 2 == 0,
        7 => ((x + y) % 2 + xy % 3) % 2 == 0,
        _ => false,
    }
}

// Works out row y of the mask, 1 where a module is inverted: six places, and what repeats them.
fn mask_row(row: &mut [u8], mask: Mask, y: usize)
    requires { (6 ≤ length row.old) × (y < 177) }
    ensures { row.new ≡ each (on_row mask.value y) row.old }
{
    for x in 0..6 {
        row[x] = u8::from(inverted(mask, x, y));
    }
    // By an index: each place is read after it is written, six places on, which no iterator over the row does.
    for x in 6..row.len() {
        row[x] = row[x - 6];
    }
}

// Works out twelve rows of the mask.
fn mask_rows(rows: &mut [u8], size: usize, mask: Mask)
    requires { (length rows.old ≡ 12 * size) × (6 ≤ size) × (size ≤ 177) }
    ensures { rows.new ≡ each (in_row mask.value size) rows.old }
{
    // Parts by an index: of what is written to the parts of chunks_mut a proof learns nothing.
    for y in 0..12 {
        mask_row(&mut rows[y * size..(y + 1) * size], mask, y);
    }
}

// A data module is inverted where invert is 1, a function module never is.
fn flipped(invert: u8, v: u8) -> u8
    ensures { result ≡ inverted invert v }
{
    if v < 2 { v ^ invert } else { v }
}

// Lays the worked out rows over as many modules.
fn mask_band(grid: &mut [u8], rows: &[u8])
    requires { length grid.old ≤ length rows.now }
    ensures { grid.new ≡ each (λ k v. inverted (get_or rows.now k 0) v) grid.old }
{
    // The rows by an index: of what is written under a zip a proof learns nothing.
    for (k, m) in grid.iter_mut().enumerate() {
        *m = flipped(rows[k], *m);
    }
}

// Lays the worked out rows over the grid, again and again.
fn mask_bands(grid: &mut [u8], rows: &[u8])
    requires { 0 < length rows.now }
    ensures { grid.new ≡ each (λ k v. inverted (get_or rows.now (k % length rows.now) 0) v) grid.old }
{
    // Parts by an index: of what is written to the parts of chunks_mut a proof learns nothing.
    for at in (0..grid.len()).step_by(rows.len()) {
        let end = grid.len().min(at + rows.len());
        mask_band(&mut grid[at..end], rows);
    }
}

// XORs the codeword modules in this QR Code with the given mask pattern.
// The function modules must be marked and the codeword bits must be drawn
// before masking. Due to the arithmetic of XOR, calling apply_mask() with
// the same mask value a second time will undo the mask. A final well-formed
// QR Code needs exactly one (not zero, two, etc.) mask applied.
pub fn apply_mask(grid: &mut [u8], ver: Version, mask: Mask)
    requires square { Square grid.old (side ver.value) }
    ensures { grid.new ≡ paint (side ver.value) (masked mask.value) grid.old }
{
    let size = patterns::size_of(ver);
    let n = 12 * size;
    let mut rows: [u8; 2124] = [0; 2124];
    mask_with(grid, size, mask, &mut rows[0..n]);
}

// The same, with room for twelve rows lent.
fn mask_with(grid: &mut [u8], size: usize, mask: Mask, rows: &mut [u8])
    requires square { Square grid.old size }
    requires rows_len { (length rows.old ≡ 12 * size) × (6 ≤ size) }
    ensures { grid.new ≡ paint size (masked mask.value) grid.old }
{
    mask_rows(rows, size, mask);
    mask_bands(grid, rows);
}
