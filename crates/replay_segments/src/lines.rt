// The lines of the list: what is read of them, and what is compared with them.
ghost use Rattle.std.specs.Prelude.{◌≡◌, ◌<◌, ◌≤◌, length, IfSome};

use listing::decimal;
use std::io::Read;
use streams::{read_byte, read_full};

// A digit of a line; 0 for any other character.
pub(crate) fn digit(c: u8) -> u8
    ensures { result ≤ 9 }
{
    decimal(c).unwrap_or(0)
}

// The number of six digits of a line.
#[tactic(auto, using(crate::specs::Facts::six_product, crate::specs::Facts::six_fits, crate::specs::Facts::six_next, crate::specs::Facts::six_end))]
pub(crate) fn six(line: &[u8; 24], at: usize) -> u32
    requires { at ≤ 18 }
    ensures { result < 1_000_000 }
{
    let mut n = 0;
    for c in &line[at..at + 6] {
        n = n * 10 + u32::from(digit(*c));
    }
    n
}

// Reads a line of 24 bytes; zeros at the end of the input.
pub(crate) fn read_line(input: &mut impl Read) -> [u8; 24] {
    let mut line = [0u8; 24];
    let _ = read_full(input, &mut line);
    line
}

// Reads n bytes and the end of the line, where they fit; there are none where the input ends before.
pub(crate) fn read_part<'a>(input: &mut impl Read, buf: &'a mut [u8], n: usize) -> Option<&'a [u8]>
    ensures { IfSome result (λ part. length part.now ≡ n) }
{
    let part = buf.get_mut(..n)?;
    let got = read_full(input, part);
    let _ = read_byte(input);
    if got < n {
        return None;
    }
    Some(part)
}

// Whether the first bits of a buffer are those of a line of 0 and 1.
pub(crate) fn same_bits(bb: &[u8; 4096], end: usize, line: &[u8]) -> bool {
    if line.len() != end || 32_768 < end {
        return false;
    }
    for (i, c) in line.iter().enumerate() {
        if bits::read_bit(bb, i) != *c % 2 {
            return false;
        }
    }
    true
}

// Reads the four numbers of a record.
fn read_record(input: &mut impl Read) -> [u64; 4] {
    let line = read_line(input);
    [
        u64::from(digit(line[1])),
        u64::from(six(&line, 3)),
        u64::from(six(&line, 10)),
        u64::from(six(&line, 17)),
    ]
}

// Reads records into a list of numbers, four to a record, as far as there is room.
pub(crate) fn read_records(input: &mut impl Read, numbers: &mut [u64], count: u32) {
    let mut places = numbers.chunks_exact_mut(4);
    for _ in 0..count {
        let record = read_record(input);
        if let Some(place) = places.next() {
            place.copy_from_slice(&record);
        }
    }
}
