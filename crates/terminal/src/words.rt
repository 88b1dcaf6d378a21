// Words of the command line: numbers, and the values of options.
ghost use Rattle.std.specs.Prelude.{◌≡◌, ◌<◌, length, IfSome};
ghost use Rattle.terminal.specs.Words.{place_in, small, next_number, number_of, versions_named, level_named, mask_named, switch_named, line};

use types::QrCodeEcc;

// Where a byte first stands in a word.
pub fn place(c: u8, word: &[u8]) -> Option<usize>
    ensures value { result ≡ place_in c word.now }
    ensures bound { IfSome result (λ i. i < length word.now) }
{
    word.iter().position(|b| *b == c)
}

// A number after one digit more, if it is below 256.
fn next_number(n: u8, c: u8) -> Option<u8>
    ensures { result ≡ small (next_number n c) }
{
    match c {
        b'0'..=b'9' => n.checked_mul(10)?.checked_add(c - b'0'),
        _ => None,
    }
}

// The number below 256 that digits stand for.
fn number(word: &[u8]) -> Option<u8>
    ensures { result ≡ small (number_of word.now) }
{
    if word.is_empty() {
        return None;
    }
    let mut n = 0;
    for c in word {
        n = next_number(n, *c)?;
    }
    Some(n)
}

// The numbers before and after the dash of a range.
pub(crate) fn versions_named(word: &[u8]) -> Option<(u8, u8)>
    ensures { result ≡ versions_named word.now }
{
    let dash = place(b'-', word)?;
    let first = number(&word[..dash])?;
    let last = number(&word[dash + 1..])?;
    Some((first, last))
}

// The level of a letter.
pub(crate) fn level_named(word: &[u8]) -> Option<QrCodeEcc>
    ensures { result ≡ level_named word.now }
{
    match word {
        b"L" => Some(QrCodeEcc::Low),
        b"M" => Some(QrCodeEcc::Medium),
        b"Q" => Some(QrCodeEcc::Quartile),
        b"H" => Some(QrCodeEcc::High),
        _ => None,
    }
}

// The mask of a word, 8 for `auto`. Tried: after a `match` on byte strings the proof does not know that the word is not `auto`.
pub(crate) fn mask_named(word: &[u8]) -> Option<u8>
    ensures { result ≡ mask_named word.now }
{
    if word == b"auto".as_slice() {
        return Some(8);
    }
    number(word).filter(|n| *n < 8)
}

// Whether a word is `on`, if it is that or `off`.
pub(crate) fn switch_named(word: &[u8]) -> Option<bool>
    ensures { result ≡ switch_named word.now }
{
    match word {
        b"off" => Some(false),
        b"on" => Some(true),
        _ => None,
    }
}

// A text without the newline at its end, if there is one.
pub fn line(text: &[u8]) -> &[u8]
    ensures { result.now ≡ line text.now }
{
    text.strip_suffix(b"\n").unwrap_or(text)
}
