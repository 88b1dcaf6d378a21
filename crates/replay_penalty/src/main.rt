// Compares penalty scores with those of the original: the byte scan's, and those of the packed lines. A case on standard input is a line of 17 bytes:
// kind, version, parameter, score. tools/vectors/penalty.rs makes the list, and has the same rules for the grids.
#![tactic(auto)]

ghost use Rattle.std.specs.Prelude.{◌≡◌, ◌*◌, ◌+◌, ◌^◌, ◌<◌, ◌≤◌, length};
ghost use Rattle.standard.specs.Sizes.{side as side_of};
ghost use Rattle.laws.specs.Grid.{Square};

use std::io::Read;
use streams::read_full;
use types::{Mask, Version};

// How the modules of a grid are made: dark by chance, or different from the one before by chance, or by a rule.
#[derive(Clone, Copy)]
enum Kind {
    Random { flips: bool },
    Regular(Rule),
}

// Grids of one colour, of stripes, and with cores at the borders of rows or columns.
#[derive(Clone, Copy)]
enum Rule {
    Plain,
    Upright,
    Level,
    RowCores,
    ColumnCores,
}

impl Kind {
    // The kind of a number of the list.
    fn at(number: u64) -> Kind {
        match number {
            0 => Kind::Random { flips: false },
            1 => Kind::Random { flips: true },
            2 => Kind::Regular(Rule::Plain),
            3 => Kind::Regular(Rule::Upright),
            4 => Kind::Regular(Rule::Level),
            5 => Kind::Regular(Rule::RowCores),
            _ => Kind::Regular(Rule::ColumnCores),
        }
    }
}

// A case of the list, with the score that the original gives.
#[derive(Clone, Copy)]
struct Case {
    kind: Kind,
    version: Version,
    parameter: usize,
    score: u64,
    ghost small: { parameter < 1000 },
}

impl Case {
    // Reads a line; there is no case where it names no version.
    fn parse(line: &[u8; 17]) -> Option<Case> {
        Some(Case {
            version: Version::new(number(&line[2..4]) as u8)?,
            kind: Kind::at(number(&line[0..1])),
            parameter: number(&line[5..8]) as usize,
            score: number(&line[9..16]),
        })
    }
}

// The number that digits name; another byte counts as 0.
fn number(digits: &[u8]) -> u64
    requires { length digits.now ≤ 7 }
    ensures { result < 10 ^ length digits.now }
{
    let mut n: u64 = 0;
    for byte in digits {
        n = 10 * n + digit(*byte);
    }
    n
}

// A digit of a line.
fn digit(byte: u8) -> u64
    ensures { result ≤ 9 }
{
    match byte {
        b'0'..=b'9' => (byte - b'0') as u64,
        _ => 0,
    }
}

/*---- Grids ----*/

// The next random number.
fn next(x: u64) -> u64
    requires { x < 2147483648 }
    ensures { result < 2147483648 }
{
    (x * 1103515245 + 12345) % 2147483648
}

// Modules that are dark by chance, or that differ from the one before by chance.
fn random(grid: &mut [u8], seed: u64, flips: bool)
    requires { seed < 2147483648 }
{
    let mut x = seed;
    let mut last = false;
    for module in grid {
        x = next(x);
        let hit = x / 65536 % 8 < 1 + seed % 7;
        last = hit != (flips && last);
        *module = last as u8;
    }
}

// Whether a module is dark in a core of unit n that begins d modules from the border.
fn core(at: usize, n: usize, d: usize) -> bool {
    n > 0 && at >= d && matches!((at - d) / n, 0 | 2..=4 | 6)
}

// Lines by threes: a core at one border, at the other, and dark.
fn finder(side: usize, along: usize, across: usize, p: usize) -> bool
    requires { along < side }
{
    match across % 3 {
        0 => core(along, p / 10, p % 10),
        1 => core(side - 1 - along, p / 10, p % 10),
        _ => true,
    }
}

// A module of a stripe p modules wide.
fn stripe(at: usize, p: usize) -> bool {
    p > 0 && at / p % 2 == 1
}

impl Rule {
    // Whether the module at column x and row y is dark.
    fn module(self, side: usize, x: usize, y: usize, p: usize) -> bool
        requires { (x < side) × (y < side) }
    {
        match self {
            Rule::Plain => p == 1,
            Rule::Upright => stripe(x, p),
            Rule::Level => stripe(y, p),
            Rule::RowCores => finder(side, x, y, p),
            Rule::ColumnCores => finder(side, y, x, p),
        }
    }

    // The grid of a rule.
    fn draw(self, grid: &mut [u8], side: usize, p: usize)
        requires { (1 ≤ side) × (length grid.old ≡ side * side) }
    {
        for (i, module) in grid.iter_mut().enumerate() {
            *module = self.module(side, i % side, i / side, p) as u8;
        }
    }
}

// Marks every fifth module as a function module, which no mask inverts.
fn mark(grid: &mut [u8]) {
    for five in grid.chunks_mut(5) {
        five[0] = five[0] % 2 + 2;
    }
}

/*---- Scores ----*/

// How many cases are read at most.
const MOST: u64 = 999999;

// Scores the grid on packed lines: the mask is drawn, and the same mask laid over the packed lines takes it off again.
fn packed_score(grid: &mut [u8], ver: Version, mask: Mask) -> u32
    requires { Square grid.old (side_of ver.value) }
{
    let side = patterns::size_of(ver);
    let mut row_words = [0u64; 1062];
    let mut column_words = [0u64; 1062];
    let rows = &mut row_words[0..6 * side];
    let columns = &mut column_words[0..6 * side];
    modules::apply_mask(grid, ver, mask);
    packed::pack_rows(grid, side, rows);
    packed::pack_columns(grid, side, columns);
    packed::get_penalty_score(grid, rows, columns, side, mask.value() as usize)
}

// The score of the grid of a case, if the byte scan and the packed lines give the same.
fn score(case: Case) -> Option<u32> {
    let side = patterns::size_of(case.version);
    let mut room = [0u8; 31329];
    let grid = &mut room[0..side * side];
    match case.kind {
        Kind::Random { flips } => random(grid, case.parameter as u64, flips),
        Kind::Regular(rule) => rule.draw(grid, side, case.parameter),
    }
    let scanned = penalty::get_penalty_score(grid, side);
    mark(grid);
    let mask = types::mask_at((case.parameter % 8) as u8);
    if packed_score(grid, case.version, mask) == scanned {
        Some(scanned)
    } else {
        None
    }
}

// Whether the score of a line's case is the one that the line gives.
fn agrees(line: &[u8; 17]) -> bool {
    let Some(case) = Case::parse(line) else {
        return false;
    };
    match score(case) {
        Some(found) => found as u64 == case.score,
        None => false,
    }
}

// How many scores were compared, and how many of them differ.
#[derive(Clone, Copy)]
struct Tally {
    compared: u64,
    differ: u64,
}

// Every case of the input.
fn all(input: &mut impl Read) -> Tally {
    let mut differ: u64 = 0;
    let mut line = [0u8; 17];
    for compared in 0..MOST {
        if read_full(input, &mut line) < line.len() {
            return Tally { compared, differ };
        }
        differ += !agrees(&line) as u64;
    }
    Tally {
        compared: MOST,
        differ,
    }
}

fn main(rt: HostRuntime) {
    let tally = all(&mut rt.reader());
    streams::number(&rt, tally.compared);
    streams::say(&rt, b" scores compared, ");
    streams::number(&rt, tally.differ);
    streams::say(&rt, b" differ\n");
}
