// Runs the strict parser on the data codewords of a fixed list (tools/vectors/parser.rs) and compares its answers, records and characters.
#![tactic(auto)]

ghost use Rattle.std.specs.Prelude.{◌*◌, ◌<◌, ◌≤◌, length};

use parser::Counts;
use std::io::Read;
use streams::read_full;
use types::Version;

// The number of a hexadecimal digit.
fn digit(c: u8) -> u8
    ensures { result < 16 }
{
    if c < 58 { c % 16 } else { (c % 16 + 9) % 16 }
}

// Byte i; 0 where there is none.
fn byte_at(s: &[u8], i: usize) -> u8 {
    s.get(i).copied().unwrap_or(0)
}

// The number in two bytes, the high one first.
fn pair_at(s: &[u8], i: usize) -> u16
    requires { i < 65536 }
{
    u16::from_be_bytes([byte_at(s, i), byte_at(s, i + 1)])
}

// The bytes of a line of hexadecimal digits.
fn decode(line: &[u8], out: &mut [u8])
    requires { length out.old ≤ 16384 }
{
    for (i, b) in out.iter_mut().enumerate() {
        *b = digit(byte_at(line, 2 * i)) * 16 + digit(byte_at(line, 2 * i + 1));
    }
}

// Whether a record that was written is the one that is wanted, 8 bytes from place j on.
fn same_record(want: &[u8], j: usize, record: &[u64]) -> bool
    requires { j < 65000 }
{
    let high = u64::from(byte_at(want, j + 5));
    let assign = high * 65536 + u64::from(pair_at(want, j + 6));
    let kind = u64::from(byte_at(want, j));
    let start = u64::from(pair_at(want, j + 1));
    let count = u64::from(pair_at(want, j + 3));
    record == [kind, start, count, assign].as_slice()
}

// Whether the records that were written are those that are wanted, 8 bytes each.
fn same_records(want: &[u8], records: &[u64], n: usize) -> bool
    requires { (n ≤ 2048) × (4 * n ≤ length records.now) }
{
    // By number, which gives the places in both.
    for i in 0..n {
        if !same_record(want, 8 * i, &records[4 * i..4 * i + 4]) {
            return false;
        }
    }
    true
}

// Whether the characters that were written are those that are wanted, after so many bytes of records.
fn same_text(want: &[u8], from: usize, text: &[u8]) -> bool
    requires { (from ≤ 65536) × (length text.now ≤ 65536) }
{
    for (i, c) in text.iter().enumerate() {
        if *c != byte_at(want, from + i) {
            return false;
        }
    }
    true
}

// One case: so many records and characters are wanted, or a fault at bit t.
fn same(
    codewords: &[u8],
    ver: Version,
    want: &[u8],
    r: usize,
    t: usize,
    text: &mut [u8],
    records: &mut [u64],
) -> bool
    requires { (length codewords.now ≤ 4096) × (length text.old ≤ 8192) × (length records.old ≤ 8192) }
{
    match parser::count_all(codewords, ver) {
        Ok(counts) => {
            if counts
                != (Counts {
                    records: r,
                    text: t,
                })
                || text.len() < t
                || records.len() / 4 < r
            {
                return false;
            }
            parser::write_all(codewords, ver, text, records);
            same_records(want, records, r) && same_text(want, 8 * r, &text[..t])
        }
        Err(fault) => r == 65535 && fault.bit == t,
    }
}

// The same with buffers of its own.
fn answers(codewords: &[u8], ver: Version, want: &[u8], r: usize, t: usize) -> bool
    requires { length codewords.now ≤ 4096 }
{
    let mut text = [0u8; 8192];
    let mut records = [0u64; 8192];
    same(codewords, ver, want, r, t, &mut text, &mut records)
}

// The bytes of a case, taken apart.
fn case(s: &[u8]) -> bool {
    let n = usize::from(pair_at(s, 1));
    let r = usize::from(pair_at(s, 3));
    let t = usize::from(pair_at(s, 5));
    let end = 7 + n;
    if 4096 < n || s.len() < end {
        return false;
    }
    match Version::new(byte_at(s, 0)) {
        Some(ver) => answers(&s[7..end], ver, &s[end..], r, t),
        None => false,
    }
}

// Reads the rest of a line, n bytes, and answers whether its case is the same.
fn rest(input: &mut impl Read, digits: &mut [u8], bytes: &mut [u8], n: usize) -> bool
    requires { (n ≤ 16384) × (length bytes.old ≤ 16384) }
{
    let m = 2 * n + 1;
    if digits.len() < m || bytes.len() < n {
        return false;
    }
    let _ = read_full(input, &mut digits[..m]);
    decode(digits, bytes);
    case(&bytes[..n])
}

// Reads a line, four digits with the count of its bytes, and those bytes, and answers whether its case is the same;
// none at the end of the input.
fn one(input: &mut impl Read) -> Option<bool> {
    let mut head = [0u8; 4];
    if read_full(input, &mut head) < 4 {
        return None;
    }
    let mut size = [0u8; 2];
    decode(&head, &mut size);
    let n = usize::from(pair_at(&size, 0));
    if 16384 < n {
        return Some(false);
    }
    let mut digits = [0u8; 32769];
    let mut bytes = [0u8; 16384];
    Some(rest(input, &mut digits, &mut bytes, n))
}

fn main(rt: HostRuntime) {
    let mut input = rt.reader();
    let mut cases: u64 = 0;
    let mut others: u64 = 0;
    for _ in 0..1_000_000u64 {
        let Some(same) = one(&mut input) else {
            break;
        };
        cases += 1;
        if !same {
            others += 1;
        }
    }
    streams::say!(rt; cases, " lists of data codewords parsed, ", others, " answers differ\n");
}
