// Payloads: the bits of characters and of ECI numbers, appended to a lent buffer.
ghost use Rattle.std.specs.Prelude.{◌≡◌, ◌+◌, ◌^◌, ◌<◌, ◌≤◌, T, length, take, drop};
ghost use Rattle.standard.specs.Numbers.{every};
ghost use Rattle.standard.specs.Kinds.{count_width, is_digit, is_alphanumeric, allowed, digit_bits, pair_bits, byte_bits, eci_bits};
ghost use Rattle.standard.specs.Segments.{good_segment, payload, segment_bits};
ghost use Rattle.types.specs.Numbers.{text_kind_of};
ghost use Rattle.bits.specs.Appended.{Free, Appended};
ghost use Rattle.segments.specs.Kinds.{size, group_number};
ghost use Rattle.segments.specs.Runs.{run_bits};
ghost use Rattle.segments.specs.Meaning.{meaning};

use super::records::Segment;
use super::{code_of, limit_of, size_of, width_of};
use types::{TextKind, Version};

// The number of a group of characters.
#[tactic(auto, using(crate::specs::Runs::size_pos, crate::specs::Codes::char_at, crate::specs::Codes::number_start, crate::specs::Codes::number_next, crate::specs::Codes::number_fits, crate::specs::Codes::product_fits, crate::specs::Codes::number_end))]
fn group_number(kind: TextKind, group: &[u8]) -> u32
    requires { (length group.now ≤ size (text_kind_of kind)) × T (every (allowed (text_kind_of kind)) group.now) }
    ensures { result ≡ group_number (text_kind_of kind) 0 group.now }
{
    let base = limit_of(kind, 1);
    let mut x = 0;
    for c in group {
        x = x * base + code_of(kind, *c);
    }
    x
}

// Appends the groups of the given characters of a kind, and returns the bit after them.
#[tactic(auto, using(crate::specs::Runs::size_pos, crate::specs::Groups::width_32, crate::specs::Groups::groups_start, crate::specs::Groups::group_fits, crate::specs::Groups::group_allowed, crate::specs::Groups::after_allowed, crate::specs::Groups::groups_free, crate::specs::Groups::groups_next, crate::specs::Groups::groups_end))]
fn append_groups(bb: &mut [u8], at: usize, kind: TextKind, text: &[u8]) -> usize
    requires { T (every (allowed (text_kind_of kind)) text.now) × Free bb.old at (run_bits (text_kind_of kind) (length text.now) (length text.now) text.now) }
    ensures { Appended bb.old bb.new at result (run_bits (text_kind_of kind) (length text.now) (length text.now) text.now) }
{
    let mut p = at;
    for group in text.chunks(size_of(kind)) {
        let w = width_of(kind, group.len());
        p = bits::append_bits(bb, p, group_number(kind, group), w);
    }
    p
}

// The next three are the original's names for `append_groups` of one kind, and docs/PROOFS.md (`make_*`) names what each promises.

// Appends the given binary data, encoded in byte mode, and returns the bit after it.
// All input byte slices are acceptable.
pub fn make_bytes(bb: &mut [u8], at: usize, data: &[u8]) -> usize
    requires { Free bb.old at (byte_bits «data».now) }
    ensures { Appended bb.old bb.new at result (byte_bits «data».now) }
{
    append_groups(bb, at, TextKind::Byte, data)
}

// Appends the given string of decimal digits, encoded in numeric mode, and returns the bit after it.
pub fn make_numeric(bb: &mut [u8], at: usize, text: &[u8]) -> usize
    requires { T (every is_digit text.now) × Free bb.old at (digit_bits text.now) }
    ensures { Appended bb.old bb.new at result (digit_bits text.now) }
{
    append_groups(bb, at, TextKind::Numeric, text)
}

// Appends the given text string, encoded in alphanumeric mode, and returns the bit after it.
pub fn make_alphanumeric(bb: &mut [u8], at: usize, text: &[u8]) -> usize
    requires { T (every is_alphanumeric text.now) × Free bb.old at (pair_bits text.now) }
    ensures { Appended bb.old bb.new at result (pair_bits text.now) }
{
    append_groups(bb, at, TextKind::Alphanumeric, text)
}

// Appends an Extended Channel Interpretation (ECI) designator with the given assignment value,
// and returns the bit after it.
pub fn make_eci(bb: &mut [u8], at: usize, assignval: u32) -> usize
    requires { (assignval < 1_000_000) × Free bb.old at (eci_bits assignval) }
    ensures { Appended bb.old bb.new at result (eci_bits assignval) }
{
    if assignval < 128 {
        bits::append_bits(bb, at, assignval, 8)
    } else if assignval < 16_384 {
        let p = bits::append_bits(bb, at, 2, 2);
        bits::append_bits(bb, p, assignval, 14)
    } else {
        let p = bits::append_bits(bb, at, 6, 3);
        bits::append_bits(bb, p, assignval, 21)
    }
}

// Appends the payload of a segment, and returns the bit after it.
fn append_payload(bb: &mut [u8], at: usize, seg: Segment) -> usize
    requires { T (good_segment (meaning seg)) × Free bb.old at (payload (meaning seg)) }
    ensures { Appended bb.old bb.new at result (payload (meaning seg.entry)) }
{
    match seg {
        Segment::Text { kind, chars } => match kind {
            TextKind::Numeric => make_numeric(bb, at, chars),
            TextKind::Alphanumeric => make_alphanumeric(bb, at, chars),
            TextKind::Byte => make_bytes(bb, at, chars),
        },
        Segment::Eci(assignval) => make_eci(bb, at, assignval),
    }
}

// Appends a segment: its mode, its length and its payload, and returns the bit after it.
pub(crate) fn append_segment(bb: &mut [u8], at: usize, ver: Version, seg: Segment) -> usize
    requires { T (good_segment (meaning seg)) × (length (meaning seg).chars < 2 ^ count_width ver.value (meaning seg).kind) × Free bb.old at (segment_bits ver.value (meaning seg)) }
    ensures { Appended bb.old bb.new at result (segment_bits ver.value (meaning seg.entry)) }
{
    let mode = seg.mode();
    let p = bits::append_bits(bb, at, mode.mode_bits(), 4);
    let count = seg.num_chars() as u32;
    let q = bits::append_bits(bb, p, count, mode.num_char_count_bits(ver));
    append_payload(bb, q, seg)
}
