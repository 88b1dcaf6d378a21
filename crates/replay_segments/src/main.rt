// Compares payloads, total bits and data codewords with those of the original.
// tools/vectors/segments.rs makes the list on standard input, and says how a case stands there.
#![tactic(auto)]

ghost use Rattle.std.specs.Prelude.{◌≡◌, ◌<◌, ◌≤◌, T, length, replicate};
ghost use Rattle.standard.specs.Numbers.{every};
ghost use Rattle.standard.specs.Segments.{segments_of, good_part, fits};
ghost use Rattle.types.specs.Numbers.{level_of};
ghost use Rattle.segments.specs.Records.{parts_of};

mod lines; // the lines of the list

use lines::{digit, read_line, read_part, read_records, same_bits, six};
use std::io::Read;
use types::{QrCodeEcc, TextKind, Version};

// Makes the payload of a kind in a zeroed buffer, and returns the bit after it.
// There is none of characters that are not of the kind, nor of more than 2,000.
fn make(bb: &mut [u8], kind: u8, text: &[u8], assign: u32) -> Option<usize>
    requires { (bb.old ≡ replicate 4096 0) × (assign < 1_000_000) }
{
    if 2000 < text.len() {
        return None;
    }
    match TextKind::new(u64::from(kind)) {
        Some(TextKind::Numeric) if segments::is_numeric(text) => {
            Some(segments::make::make_numeric(bb, 0, text))
        }
        Some(TextKind::Alphanumeric) if segments::is_alphanumeric(text) => {
            Some(segments::make::make_alphanumeric(bb, 0, text))
        }
        Some(TextKind::Byte) => Some(segments::make::make_bytes(bb, 0, text)),
        None => Some(segments::make::make_eci(bb, 0, assign)),
        _ => None,
    }
}

// A payload: its kind and number, its characters, and its bits. Whether they are those that are made.
fn payload_case(input: &mut impl Read, line: &[u8; 24]) -> Option<bool> {
    let mut text = [0u8; 2048];
    let mut want = [0u8; 32_768];
    let text = read_part(input, &mut text, six(line, 10) as usize)?;
    let want = read_part(input, &mut want, six(line, 17) as usize)?;
    let mut bb = [0u8; 4096];
    let end = make(&mut bb, digit(line[1]), text, six(line, 3)).unwrap_or(0);
    Some(same_bits(&bb, end, want))
}

// Whether the data codewords of records are those that are wanted.
fn words_same(ver: Version, ecl: QrCodeEcc, text: &[u8], records: &[u64], line: &[u8]) -> bool
    requires { T (every (good_part text.now) (parts_of records.now)) × T (fits (level_of ecl) (segments_of text.now (parts_of records.now)) ver.value) }
{
    let mut bb = [0u8; 2956];
    let bb = &mut bb[..capacity::get_num_data_codewords(ver, ecl)];
    segments::codewords::data_codewords(bb, ver, ecl, text, records);
    listing::is_hex(line, bb)
}

// Whether total bits and data codewords of records are those that are wanted.
fn list_same(
    text: &[u8],
    records: &[u64],
    ver: Version,
    ecl: QrCodeEcc,
    total: Option<usize>,
    words: &[u8],
) -> bool
    requires { length records.now ≤ 64 }
{
    if segments::records::first_bad(text, records).is_some() {
        return false;
    }
    let used = segments::records::get_total_bits(text, records, ver);
    if used != total {
        return false;
    }
    match used {
        Some(n) if !words.is_empty() => {
            n <= 8 * capacity::get_num_data_codewords(ver, ecl)
                && words_same(ver, ecl, text, records, words)
        }
        _ => true,
    }
}

// The total bits that a line names: some, or none where a length does not fit its field.
fn total_of(line: &[u8; 24]) -> Option<Option<usize>> {
    match digit(line[1]) {
        0 => Some(None),
        1 => Some(Some(six(line, 3) as usize)),
        _ => None,
    }
}

// A list of records: its level, version and text, the records, and what is wanted. Whether that is what is made.
fn list_case(input: &mut impl Read, line: &[u8; 24]) -> Option<bool> {
    let mut text = [0u8; 2048];
    let mut records = [0u64; 64];
    let mut words = [0u8; 8192];
    let n = six(line, 10) as usize;
    let count = six(line, 17);
    let _ = read_part(input, &mut text, n);
    read_records(input, &mut records, count);
    let end = read_line(input);
    let words = read_part(input, &mut words, 2 * six(&end, 10) as usize)?;
    let ver = Version::new(u8::try_from(six(line, 3)).ok()?)?;
    let total = total_of(&end)?;
    let text = text.get(..n)?;
    let records = records.get(..4 * count as usize)?;
    let ecl = listing::level(b'0' + digit(line[1]));
    Some(list_same(text, records, ver, ecl, total, words))
}

// How many cases there were of each sort, and how many differ.
#[derive(Drop)]
struct Counts {
    payloads: u64,
    lists: u64,
    differ: u64,
}

// All cases.
fn all(input: &mut impl Read) -> Counts {
    let mut c = Counts {
        payloads: 0,
        lists: 0,
        differ: 0,
    };
    for _ in 0..u64::MAX {
        let line = read_line(input);
        let same = match line[0] {
            0 => break,
            b'P' => {
                c.payloads += 1;
                payload_case(input, &line)
            }
            _ => {
                c.lists += 1;
                list_case(input, &line)
            }
        };
        if same != Some(true) {
            c.differ += 1;
        }
    }
    c
}

fn main(rt: HostRuntime) {
    let c = all(&mut rt.reader());
    streams::say!(rt; c.payloads, " payloads compared\n");
    streams::say!(rt; c.lists, " lists of records compared: total bits and data codewords\n");
    streams::say!(rt; c.differ, " differ\n");
}
