// Compares whole grids with a fixed list of the original's answers on standard input, one case a line. How the list was made, and what
// a line says, stands in tools/vectors/modules.rs. Level, mask and codewords are also read back, and some modules are asked for.
#![tactic(auto)]

ghost use Rattle.std.specs.Prelude.{◌≤◌, length};
ghost use Rattle.standard.specs.Sizes.{side};
ghost use Rattle.laws.specs.Grid.{Square};

mod codewords; // the codewords of a case
mod lines; // the lines of the list

use lines::{Case, Kind};
use std::io::Read;

// How many grids were compared in full and by digests, how many of them differ, how many
// gave something else back, and how many answered wrong.
#[derive(Clone, Copy)]
struct Tally {
    full: u64,
    digests: u64,
    differ: u64,
    lost: u64,
    wrong: u64,
}

// Whether a grid is the same, gave back what was drawn, and answered right.
#[derive(Clone, Copy)]
struct Outcome {
    equal: bool,
    found: bool,
    right: bool,
}

fn main(rt: HostRuntime) {
    let t = replay(&mut rt.reader());
    told(&rt, b"compared in full: ", t.full);
    told(&rt, b"compared by digests: ", t.digests);
    told(&rt, b"different: ", t.differ);
    told(&rt, b"not read back: ", t.lost);
    told(&rt, b"wrong answers: ", t.wrong);
}

// Writes a line.
fn told(rt: &impl Print, words: &[u8], n: u64) {
    streams::say(rt, words);
    streams::number(rt, n);
    streams::say(rt, b"\n");
}

// All lines.
fn replay(input: &mut impl Read) -> Tally {
    let mut t = Tally {
        full: 0,
        digests: 0,
        differ: 0,
        lost: 0,
        wrong: 0,
    };
    let mut line = [0u8; 32768];
    for _turn in 0..100_000 {
        match lines::read_line(input, &mut line) {
            Some(n) => t = counted(t, lines::kind_of(line[0]), outcome_of(&line[..n])),
            None => return t,
        }
    }
    t
}

// The counts after a grid.
fn counted(t: Tally, kind: Kind, o: Outcome) -> Tally {
    Tally {
        full: plus(t.full, kind == Kind::Full),
        digests: plus(t.digests, kind == Kind::Digest),
        differ: plus(t.differ, !o.equal),
        lost: plus(t.lost, !o.found),
        wrong: plus(t.wrong, !o.right),
    }
}

// One more, if it counts.
fn plus(n: u64, counts: bool) -> u64 {
    n.wrapping_add(u64::from(counts))
}

// One line. One that says no case differs.
fn outcome_of(line: &[u8]) -> Outcome {
    match lines::case_of(line) {
        Some(case) => tried(&case),
        None => Outcome {
            equal: false,
            found: true,
            right: true,
        },
    }
}

// One case, in buffers of the size that the largest version needs.
#[tactic(auto, using(laws::specs::Grid::area_small, counts::specs::Ranges::words_fit))]
fn tried(case: &Case<'_>) -> Outcome {
    let size = patterns::size_of(case.ver);
    let n = size * size;
    let m = capacity::get_num_raw_data_modules(case.ver) / 8;
    let mut grid = [0u8; 31329];
    let mut work = [0u8; 31329];
    let mut words = [0u8; 3706];
    let mut back = [0u8; 3706];
    compared(
        case,
        &mut grid[0..n],
        &mut work[0..n],
        &mut words[0..m],
        &mut back[0..m],
    )
}

// Makes the codewords of a case, draws its grid, reads that back, and compares.
fn compared(
    case: &Case<'_>,
    grid: &mut [u8],
    work: &mut [u8],
    words: &mut [u8],
    back: &mut [u8],
) -> Outcome
    requires square { Square grid.old (side case.now.ver.value) }
    requires square_2 { Square work.old (side case.now.ver.value) }
    requires words_len_bound { (length words.old ≤ 4096) × (length back.old ≤ 4096) }
{
    codewords::fill(words, codewords::seed(case.ver, case.ecl, case.mask));
    modules::draw_label(grid, case.ver, case.ecl, case.mask, words);
    modules::read_codewords(grid, work, case.ver, case.ecl, case.mask, back);
    let same = *words == *back;
    Outcome {
        equal: grid_is(case, grid),
        found: same && format_is(case, grid),
        right: asked(grid, patterns::size_of(case.ver)),
    }
}

// Whether the characters of a case are the modules of a grid, or their digest.
fn grid_is(case: &Case<'_>, grid: &[u8]) -> bool {
    match case.kind {
        Kind::Full => listing::is_modules(case.want, grid),
        Kind::Digest => listing::is_hex(case.want, &listing::four(listing::digest(grid))),
    }
}

// Whether level and mask are read.
fn format_is(case: &Case<'_>, grid: &[u8]) -> bool
    requires square { Square grid.now (side case.now.ver.value) }
{
    modules::read_level(grid, case.ver) == case.ecl
        && modules::read_mask(grid, case.ver) == case.mask
}

// Whether the corner is dark, and all is light outside.
fn asked(grid: &[u8], size: usize) -> bool {
    let corner = modules::get_module(grid, size, 0, 0);
    let left = modules::get_module(grid, size, -1, 0);
    let above = modules::get_module(grid, size, 0, -2147483648);
    let right = modules::get_module(grid, size, 177, 0);
    let below = modules::get_module(grid, size, 0, 2147483647);
    corner && !left && !above && !right && !below
}
