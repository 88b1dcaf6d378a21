// Compares all codewords with a fixed list of the original's answers on standard input, one case a line. How the list was made, and what
// a line says, stands in tools/vectors/blocks.rs. The data codewords are also taken out of all codewords again.
#![tactic(auto)]

ghost use Rattle.std.specs.Prelude.{◌<◌, ◌≤◌, length};

use listing::{digest, digit, fill_random, four, is_byte, level};
use std::io::Read;
use streams::{read_byte, read_full};
use types::{QrCodeEcc, Version};

// How many cases were compared in full and by digests, how many of them differ, and how many
// gave other data codewords back.
#[derive(Clone, Copy)]
struct Tally {
    full: u64,
    digests: u64,
    differ: u64,
    lost: u64,
}

// Of a case: whether it was compared in full, whether all codewords are those of the list,
// and whether the data codewords were found again.
#[derive(Clone, Copy)]
struct Compared {
    in_full: bool,
    same: bool,
    found: bool,
}

impl Tally {
    // Counts a case.
    fn count(&mut self, case: Compared) {
        self.full = self.full.saturating_add(u64::from(case.in_full));
        self.digests = self.digests.saturating_add(u64::from(!case.in_full));
        self.differ = self.differ.saturating_add(u64::from(!case.same));
        self.lost = self.lost.saturating_add(u64::from(!case.found));
    }
}

fn main(rt: HostRuntime) {
    let t = replay(&mut rt.reader());
    told(&rt, b"compared in full: ", t.full);
    told(&rt, b"compared by digests: ", t.digests);
    told(&rt, b"different: ", t.differ);
    told(&rt, b"data not found again: ", t.lost);
}

// Writes a line.
fn told(rt: &impl Print, words: &[u8], n: u64) {
    streams::say(rt, words);
    streams::number(rt, n);
    streams::say(rt, b"\n");
}

// All lines, 1000 at most.
fn replay(input: &mut impl Read) -> Tally {
    let mut t = Tally {
        full: 0,
        digests: 0,
        differ: 0,
        lost: 0,
    };
    for _ in 0..1000u16 {
        match line(input) {
            Some(case) => t.count(case),
            None => return t,
        }
    }
    t
}

// One line. A version that is none ends the list.
fn line(input: &mut impl Read) -> Option<Compared> {
    let mut head = [0u8; 7];
    if read_full(input, &mut head) < 7 {
        return None;
    }
    let ver = Version::new(digit(head[2]) * 10 + digit(head[3]))?;
    Some(case(input, head[0] == b'F', ver, level(head[5])))
}

// One case, in buffers of the size that the largest version needs: makes all codewords,
// and the data codewords from them, and compares both.
fn case(input: &mut impl Read, in_full: bool, ver: Version, ecl: QrCodeEcc) -> Compared {
    let n = capacity::get_num_data_codewords(ver, ecl);
    let m = capacity::get_num_raw_data_modules(ver) / 8;
    let mut data_room = [0u8; 2956];
    let mut all_room = [0u8; 3706];
    let mut back_room = [0u8; 2956];
    let data = &mut data_room[..n];
    let all = &mut all_room[..m];
    let back = &mut back_room[..n];
    fill_random(data, seed(ver, ecl));
    blocks::add_ecc_and_interleave(ver, ecl, data, all);
    blocks::data_words(ver, ecl, all, back);
    Compared {
        in_full,
        same: if in_full {
            is_line(input, all)
        } else {
            is_digests(input, all, n)
        },
        found: *data == *back,
    }
}

// Where the pseudo-random numbers of a case start.
fn seed(ver: Version, ecl: QrCodeEcc) -> u64
    ensures { result < 2147483648 }
{
    u64::from(ver.value()) * 4 + ecl.ordinal() as u64
}

// Whether the rest of the line has these bytes.
fn is_line(input: &mut impl Read, bytes: &[u8]) -> bool {
    let same = are_next(input, bytes);
    let ended = read_byte(input) == Some(b'\n');
    same && ended
}

// Whether the rest of the line has the digests of the first n bytes and of the others.
fn is_digests(input: &mut impl Read, bytes: &[u8], n: usize) -> bool
    requires { n ≤ length bytes.now }
{
    let first = are_next(input, &four(digest(&bytes[..n])));
    is_line(input, &four(digest(&bytes[n..]))) && first
}

// Whether the next characters are the digits of these bytes. All of them are read, also where one differs.
fn are_next(input: &mut impl Read, bytes: &[u8]) -> bool {
    let mut same = true;
    for b in bytes {
        let mut two = [0u8; 2];
        let _ = read_full(input, &mut two);
        same &= is_byte(two[0], two[1], *b);
    }
    same
}
