// The lines of a grid packed into words, and kept in a list of them.
ghost use Rattle.std.specs.Prelude.{◌≡◌, ℕ, ◌+◌, ◌*◌, ◌<◌, ◌≤◌, length};
ghost use Rattle.standard.specs.Numbers.{from};
ghost use Rattle.packed.specs.Digits.{value};
ghost use Rattle.packed.specs.Packs.{digit_of, digit_at};
ghost use Rattle.packed.specs.Stored.{put};
ghost use Rattle.packed.specs.Ways.{LineHeld};

use super::lines::Line;
use super::strip::Strip;
use super::way::Way;

// What is packed of a byte of the grid: its colour or, if free, whether it is a data module, which a mask may invert.
pub fn digit_of(byte: u8, free: bool) -> u64
    ensures { (result ≡ digit_of free byte) × (result ≤ 1) }
{
    if free {
        (byte < 2) as u64
    } else {
        (byte % 2) as u64
    }
}

// n modules of a line of a grid in a word, from module first on: module i stands at start + i * step.
// By index: `skip`, `step_by`, `take` and `rev` in a chain would say no more plainly which byte is read.
pub fn pack_word(grid: &[u8], start: usize, step: usize, first: usize, n: usize, free: bool) -> u64
    requires { (n ≤ 64) × (first ≤ 200) × ((i : ℕ) → first ≤ i → i < first + n → start + i * step < length grid.now) }
    ensures { result ≡ value (from first n (digit_at free grid.now start step)) }
{
    let mut w: u64 = 0;
    for i in (0..n).rev() {
        w = w * 2 + digit_of(grid[start + (first + i) * step], free);
    }
    w
}

// Packs every line of a grid, six words a line: three of its colours and three of its data modules.
// Inlined, so that the way is known where the modules are gone through.
#[inline(always)]
pub fn pack_lines(way: Way, grid: &[u8], side: usize, words: &mut [u64])
    requires { (side ≤ 177) × (length grid.now ≡ side * side) × (length words.old ≡ 6 * side) }
    ensures { (length words.new ≡ 6 * side) × ((k : ℕ) → k < side → LineHeld way side grid.now words.new k) }
{
    let step = way.step(side);
    for k in 0..side {
        let start = way.start(side, k);
        store(words, 6 * k, Line::pack(grid, start, step, side, false));
        store(words, 6 * k + 3, Line::pack(grid, start, step, side, true));
    }
}

// Writes a line's words to p and after it.
fn store(words: &mut [u64], p: usize, line: Line)
    requires { p + 2 < length words.old }
    ensures { words.new ≡ put words.old p line.a line.b line.c }
{
    words[p] = line.a;
    words[p + 1] = line.b;
    words[p + 2] = line.c;
}
