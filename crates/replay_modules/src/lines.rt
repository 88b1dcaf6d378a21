// The lines of the list, and what their characters mean.
ghost use Rattle.std.specs.Prelude.{◌≤◌, length, IfSome};

use std::io::Read;
use streams::read_full;
use types::{Mask, QrCodeEcc, Version};

// How a line shows a grid: all modules of it, or a digest.
#[derive(Clone, Copy, PartialEq, Eq)]
pub(crate) enum Kind {
    Full,
    Digest,
}

// A case: what to draw, and the characters that show it.
#[derive(Clone, Copy)]
pub(crate) struct Case<'a> {
    pub kind: Kind,
    pub ver: Version,
    pub ecl: QrCodeEcc,
    pub mask: Mask,
    pub want: &'a [u8],
}

// Reads a line without its end, and answers its length; none at the end of the input. A line that is too long is read as several.
// A length and no part of the buffer: the kind of an empty line is still that of the byte which stands first in it.
pub(crate) fn read_line(input: &mut impl Read, line: &mut [u8]) -> Option<usize>
    ensures { IfSome result (λ n. n ≤ length line.new) }
{
    for (n, place) in line.iter_mut().enumerate() {
        let c = next(input)?;
        if c == b'\n' {
            return Some(n);
        }
        *place = c;
    }
    Some(line.len())
}

// The next character; none at the end of the input, which a 0 is too.
fn next(input: &mut impl Read) -> Option<u8> {
    let mut one = [0u8; 1];
    let _ = read_full(input, &mut one);
    if one[0] == 0 { None } else { Some(one[0]) }
}

// The kind of a line that begins with c.
pub(crate) fn kind_of(c: u8) -> Kind {
    if c == b'F' { Kind::Full } else { Kind::Digest }
}

// The case of a line; none where that is too short, or says no version or no mask.
pub(crate) fn case_of(line: &[u8]) -> Option<Case<'_>> {
    if line.len() < 9 {
        return None;
    }
    Some(Case {
        kind: kind_of(line[0]),
        ver: Version::new(digit(line[2]) * 10 + digit(line[3]))?,
        ecl: level(line[5]),
        mask: Mask::new(digit(line[7]))?,
        want: &line[9..],
    })
}

// The value of a digit.
fn digit(c: u8) -> u8
    ensures { result ≤ 9 }
{
    c % 16 % 10
}

// The level of a digit.
fn level(c: u8) -> QrCodeEcc {
    match c {
        b'0' => QrCodeEcc::Low,
        b'1' => QrCodeEcc::Medium,
        b'2' => QrCodeEcc::Quartile,
        _ => QrCodeEcc::High,
    }
}
