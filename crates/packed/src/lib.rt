// The penalty of a grid on packed lines: runs, cores, squares and dark modules by shifts and population counts.
#![tactic(auto)]

ghost use Rattle.std.specs.Prelude.{◌≡◌, ℕ, ◌+◌, ◌*◌, ◌<◌, ◌≤◌, length};
ghost use Rattle.standard.specs.Penalty.{penalty};
ghost use Rattle.laws.specs.Grid.{paint};
ghost use Rattle.modules.specs.Mask.{masked};
ghost use Rattle.penalty.specs.Lines.{colours};
ghost use Rattle.packed.specs.Rows.{RowSums, column_sum};
ghost use Rattle.packed.specs.Stored.{RowHeld, ColumnHeld, HeldRows, HeldColumns};

mod cost; // cost.rt: what a line costs
mod lines; // lines.rt: lines of three words
mod masking; // masking.rt: lines with a mask on them
mod masks; // masks.rt: the lines of the eight masks
mod packing; // packing.rt: lines of a grid, packed and kept
mod strip; // strip.rt: lines of any number of words, and of one
mod way; // way.rt: rows and columns

use cost::{line_cost, square_count};
use lines::Line;
use masking::Candidate;
use strip::Strip;
use way::Way;

// For use in get_penalty_score, when evaluating which mask is best.
const PENALTY_N2: u32 = 3;

const PENALTY_N4: u32 = 10;

// The largest side whose framed lines stand in one word.
const WORD_SIDE: usize = 56;

// Packs every row of a grid, six words a row: three of its colours and three of its data modules.
pub fn pack_rows(grid: &[u8], side: usize, words: &mut [u64])
    requires { (side ≤ 177) × (length grid.now ≡ side * side) × (length words.old ≡ 6 * side) }
    ensures { (length words.new ≡ 6 * side) × ((k : ℕ) → k < side → RowHeld side grid.now words.new k) }
{
    packing::pack_lines(Way::Rows, grid, side, words);
}

// Packs every column of a grid likewise.
pub fn pack_columns(grid: &[u8], side: usize, words: &mut [u64])
    requires { (side ≤ 177) × (length grid.now ≡ side * side) × (length words.old ≡ 6 * side) }
    ensures { (length words.new ≡ 6 * side) × ((k : ℕ) → k < side → ColumnHeld side grid.now words.new k) }
{
    packing::pack_lines(Way::Columns, grid, side, words);
}

/*---- The whole grid ----*/

// What the rows cost, the squares between them, and their dark modules.
#[derive(Clone, Copy)]
struct Sums {
    cost: u32,
    same: u32,
    dark: u32,
}

// Goes through the rows of the masked grid once.
fn rows_of<L: Strip>(candidate: &Candidate) -> Sums
    requires { candidate.now.side + 8 ≤ L.room }
    ensures { RowSums candidate.now.side (paint candidate.now.side (masked candidate.now.msk) candidate.now.grid.now) result.cost result.same result.dark }
{
    let side = candidate.side;
    let full = L::mask(side + 8);
    let most = L::mask(side - 4);
    let pairs = L::mask(side - 1);
    let mut last: L = candidate.line(Way::Rows, 0);
    let mut cost = line_cost(last, full, most, side);
    let mut dark = last.count();
    let mut same: u32 = 0;
    for y in 1..side {
        let next: L = candidate.line(Way::Rows, y);
        cost += line_cost(next, full, most, side);
        dark += next.count();
        same += square_count(last, next, pairs, side);
        last = next;
    }
    Sums { cost, same, dark }
}

// Adjacent modules in column having same color, and finder-like patterns.
fn columns_of<L: Strip>(candidate: &Candidate) -> u32
    requires { candidate.now.side + 8 ≤ L.room }
    ensures { (result ≡ column_sum candidate.now.side (paint candidate.now.side (masked candidate.now.msk) candidate.now.grid.now)) × (result ≤ 6960 * candidate.now.side) }
{
    let side = candidate.side;
    let full = L::mask(side + 8);
    let most = L::mask(side - 4);
    let mut result: u32 = 0;
    for x in 0..side {
        let column: L = candidate.line(Way::Columns, x);
        result += line_cost(column, full, most, side);
    }
    result
}

// The score of a grid whose framed lines fit a kind of line.
fn score<L: Strip>(candidate: &Candidate) -> u32
    requires { candidate.now.side + 8 ≤ L.room }
    ensures { result ≡ penalty candidate.now.side (colours (paint candidate.now.side (masked candidate.now.msk) candidate.now.grid.now)) }
{
    let across = rows_of::<L>(candidate);
    let lines = across.cost + columns_of::<L>(candidate);
    let same = PENALTY_N2 * across.same;
    let total = (candidate.side * candidate.side) as u32;
    lines + same + PENALTY_N4 * penalty::balance_of(across.dark, total)
}

// Calculates and returns the penalty score of a grid as it is with the mask on it, which is not drawn.
// The words hold its rows and columns, but for format bits.
pub fn get_penalty_score(grid: &[u8], rows: &[u64], columns: &[u64], side: usize, msk: usize) -> u32
    requires le_side { (9 ≤ side) × (side ≤ 177) × (msk < 8) × (length grid.now ≡ side * side) }
    requires held_rows { HeldRows side grid.now rows.now × HeldColumns side grid.now columns.now }
    ensures { result ≡ penalty side (colours (paint side (masked msk) grid.now)) }
{
    let candidate = Candidate {
        grid,
        rows,
        columns,
        side,
        msk,
    };
    if side <= WORD_SIDE {
        score::<u64>(&candidate)
    } else {
        score::<Line>(&candidate)
    }
}
