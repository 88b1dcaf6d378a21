// The rows and columns of a grid with a mask on it, from the lines that are kept.
ghost use Rattle.std.specs.Prelude.{◌≡◌, ◌+◌, ◌*◌, ◌<◌, ◌≤◌, length};
ghost use Rattle.laws.specs.Grid.{paint};
ghost use Rattle.modules.specs.Mask.{masked};
ghost use Rattle.penalty.specs.Lines.{colours};
ghost use Rattle.packed.specs.Digits.{value};
ghost use Rattle.packed.specs.Frame.{frame};
ghost use Rattle.packed.specs.Masks.{twelve};
ghost use Rattle.packed.specs.Stored.{HeldRows, HeldColumns};
ghost use Rattle.packed.specs.Ways.{line, words_of};

use super::masks::MASKS;
use super::packing::digit_of;
use super::strip::Strip;
use super::way::Way;

// Format bits stand in this row and this column alone.
const FORMAT_LINE: usize = 8;

// A grid with its packed rows and columns, which hold it but for format bits, and the mask to be laid on them.
#[derive(Clone, Copy)]
pub struct Candidate<'a> {
    pub grid: &'a [u8],
    pub rows: &'a [u64],
    pub columns: &'a [u64],
    pub side: usize,
    pub msk: usize,
    ghost fits: { (9 ≤ side) × (side ≤ 177) × (msk < 8) × (length grid.now ≡ side * side) },
    ghost held_rows: { ∥ HeldRows side grid.now rows.now ∥₁ },
    ghost held_columns: { ∥ HeldColumns side grid.now columns.now ∥₁ },
}

// The first twelve modules of line k of a mask: of row k or, where the pattern is 8 more, of column k.
fn twelve_of(pattern: usize, k: usize) -> u64
    requires { pattern < 16 }
    ensures { (result ≡ twelve pattern k) × (result < 4096) }
{
    let at = k % 12;
    (MASKS[pattern][at / 4] >> ((12 * (at % 4)) as u32)) % 4096
}

impl<'a> Candidate<'a> {
    // The packed rows or columns.
    fn words(&self, way: Way) -> &'a [u64]
        ensures { result.now ≡ words_of way self.now.rows.now self.now.columns.now }
    {
        match way {
            Way::Rows => self.rows,
            Way::Columns => self.columns,
        }
    }

    // Line k of the masked grid, framed. Line 8 has format bits and is packed anew, of the others module 8.
    // Inlined, so that the way is known where the lines are gone through.
    #[inline(always)]
    pub fn line<L: Strip>(&self, way: Way, k: usize) -> L
        requires { (k < self.now.side) × (self.now.side + 8 ≤ L.room) }
        ensures { L.number result ≡ value (frame (line way self.now.side (colours (paint self.now.side (masked self.now.msk) self.now.grid.now)) k)) }
    {
        let start = way.start(self.side, k);
        let step = way.step(self.side);
        let inverted = L::spread(twelve_of(way.pattern(self.msk), k));
        if k == FORMAT_LINE {
            let color = L::pack(self.grid, start, step, self.side, false);
            let free = L::pack(self.grid, start, step, self.side, true);
            return color.xor(free.and(inverted));
        }
        let words = self.words(way);
        let byte = self.grid[start + FORMAT_LINE * step];
        let color = L::load(words, 6 * k).patch(digit_of(byte, false));
        let free = L::load(words, 6 * k + 3).patch(digit_of(byte, true));
        color.xor(free.and(inverted))
    }
}
