// Compares masks that are chosen automatically, and the grids drawn with them, with a fixed list of the original's answers on standard
// input, one case a line. How the list was made, and what a line says, stands in tools/vectors/choice.rs.
#![tactic(auto)]

ghost use Rattle.std.specs.Prelude.{◌<◌, ◌≤◌, length};

use listing::digit;
use std::io::Read;
use types::{Mask, QrCodeEcc, Version};

// How many grids were compared in full and by digests, and how many masks and grids differ.
#[derive(Clone, Copy)]
struct Tally {
    full: u64,
    digests: u64,
    masks: u64,
    grids: u64,
}

// Whether mask and grid of a line are the same.
#[derive(Clone, Copy)]
struct Same {
    mask: bool,
    grid: bool,
}

fn main(rt: HostRuntime) {
    let t = replay(&mut rt.reader());
    streams::say!(rt; "compared in full: ", t.full, "\n");
    streams::say!(rt; "compared by digests: ", t.digests, "\n");
    streams::say!(rt; "other masks: ", t.masks, "\n");
    streams::say!(rt; "other grids: ", t.grids, "\n");
}

// All lines.
fn replay(input: &mut impl Read) -> Tally {
    let mut t = Tally {
        full: 0,
        digests: 0,
        masks: 0,
        grids: 0,
    };
    let mut line = [0u8; 4096];
    for _ in 0..100_000 {
        let Some(n) = streams::read_line(input, &mut line) else {
            return t;
        };
        t = counted(t, line[0], case(&line[..n]));
    }
    t
}

// The counts after one more line; where a line is no case, mask and grid differ.
fn counted(t: Tally, kind: u8, c: Option<Same>) -> Tally {
    let full = kind == b'F';
    let same = c.unwrap_or(Same {
        mask: false,
        grid: false,
    });
    Tally {
        full: t.full.wrapping_add(u64::from(full)),
        digests: t.digests.wrapping_add(u64::from(!full)),
        masks: t.masks.wrapping_add(u64::from(!same.mask)),
        grids: t.grids.wrapping_add(u64::from(!same.grid)),
    }
}

// Makes the data codewords of a line, encodes them with the automatic choice, and compares.
fn case(line: &[u8]) -> Option<Same> {
    if line.len() < 18 {
        return None;
    }
    let level = digit(line[7]);
    let ver = Version::new(digit(line[4]) * 10 + digit(line[5]))?;
    let n = capacity::get_num_data_codewords(ver, QrCodeEcc::try_from(level).ok()?);
    let mut all = [0u8; 2956];
    if all.len() < n {
        return None;
    }
    let data = &mut all[..n];
    fill(data, digit(line[2]), six(line));
    compared(line, ver, level, data)
}

// The parameter of a line, six digits.
fn six(line: &[u8]) -> u64
    requires { 18 ≤ length line.now }
    ensures { result < 2147483648 }
{
    let high = three(line[9], line[10], line[11]);
    let low = three(line[12], line[13], line[14]);
    high * 1000 + low
}

// The number of three digits.
fn three(a: u8, b: u8, c: u8) -> u64
    ensures { result ≤ 1665 }
{
    u64::from(a % 16) * 100 + u64::from(b % 16) * 10 + u64::from(c % 16)
}

// Makes data codewords by a rule: pseudo-random ones, or all the same.
fn fill(data: &mut [u8], rule: u8, parameter: u64)
    requires { parameter < 2147483648 }
{
    if rule == 0 {
        listing::fill_random(data, parameter);
    } else {
        data.fill((parameter % 256) as u8);
    }
}

// Encodes data codewords with the automatic choice, and compares.
fn compared(line: &[u8], ver: Version, level: u8, data: &[u8]) -> Option<Same>
    requires { 18 ≤ length line.now }
{
    let mut grid = [0u8; 31329];
    let mut scratch = [0u8; 40000];
    let label = encoder::encode_codewords(
        ver.value(),
        level,
        data,
        8,
        &mut grid,
        &mut scratch,
    ).ok()?;
    Some(Same {
        mask: mask_is(line[16], label.mask),
        grid: grid_is(line, &grid, ver),
    })
}

// Whether a character is a mask's.
fn mask_is(c: u8, mask: Mask) -> bool {
    c == b'0' + mask.value()
}

// How many modules a version has.
fn area_of(ver: Version) -> usize {
    let size = 4 * (ver.value() as usize) + 17;
    size * size
}

// Whether a line ends with the modules of a version's grid or, where it begins D, with their digest.
fn grid_is(line: &[u8], grid: &[u8], ver: Version) -> bool
    requires { 18 ≤ length line.now }
{
    let area = area_of(ver);
    if grid.len() < area {
        return false;
    }
    if line[0] == b'F' {
        return listing::is_modules(&line[18..], &grid[..area]);
    }
    let digest = listing::four(listing::digest(&grid[..area]));
    listing::is_hex(&line[18..], &digest)
}
