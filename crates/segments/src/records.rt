// Records: one lent slice of numbers, four to a record (kind, start, length, assign), that name parts of one lent text.
ghost use Rattle.std.specs.Prelude.{◌≡◌, ◌*◌, ◌/◌, ◌^◌, ◌<◌, ◌≤◌, T, length, MatchOption};
ghost use Rattle.standard.specs.Numbers.{every};
ghost use Rattle.standard.specs.Kinds.{count_width, eci_bits};
ghost use Rattle.standard.specs.Segments.{segment_of, segments_of, good_part, first_bad, payload, whole};
ghost use Rattle.types.specs.Numbers.{kind_of, text_kind_of};
ghost use Rattle.segments.specs.Runs.{run_size};
ghost use Rattle.segments.specs.Records.{part_from, parts_of};
ghost use Rattle.segments.specs.Meaning.{meaning};
ghost use Rattle.segments.specs.Totals.{size_of, total_of};

use super::{is_text, size_of, width_of};
use types::{QrSegmentMode, TextKind, Version};

// What a record that is as it should be names: characters of a kind, or an ECI number.
#[derive(Clone, Copy)]
pub(crate) enum Segment<'a> {
    Text { kind: TextKind, chars: &'a [u8] },
    Eci(u32),
}

impl<'a> Segment<'a> {
    // Returns the mode of this segment.
    pub(crate) fn mode(self) -> QrSegmentMode
        ensures { kind_of result ≡ (meaning self.entry).kind }
    {
        match self {
            Segment::Text { kind, .. } => kind.mode(),
            Segment::Eci(_) => QrSegmentMode::Eci,
        }
    }

    // Returns the number of characters of this segment.
    pub(crate) fn num_chars(self) -> usize
        ensures { result ≡ length (meaning self.entry).chars }
    {
        match self {
            Segment::Text { chars, .. } => chars.len(),
            Segment::Eci(_) => 0,
        }
    }

    // Returns how many bits the payload of this segment takes.
    #[tactic(auto, using(crate::specs::Totals::text_size, crate::specs::Totals::eci_size, types::specs::Laws::text_kind_lt))]
    fn payload_bits(self) -> usize
        requires { length (meaning self).chars < 2 ^ 32 }
        ensures { result ≡ length (payload (meaning self.entry)) }
    {
        match self {
            Segment::Text { kind, chars } => run_size(kind, chars.len()),
            Segment::Eci(assignval) => eci_bits(assignval),
        }
    }

    // Returns how many bits this segment takes at the given version; there are none where its length
    // does not fit its length field.
    #[tactic(auto, using(crate::specs::Fit::width_fits, crate::specs::Fit::size_long, crate::specs::Fit::chars_32, crate::specs::Fit::sum_64, crate::specs::Fit::size_fits))]
    fn bits(self, ver: Version) -> Option<usize>
        ensures { result ≡ size_of ver.value (meaning self.entry) }
    {
        let ccbits = self.mode().num_char_count_bits(ver);
        if 1 << ccbits <= self.num_chars() {
            return None;
        }
        Some(4 + ccbits as usize + self.payload_bits())
    }
}

// How many bits the groups of count characters of a kind take.
fn run_size(kind: TextKind, count: usize) -> usize
    requires { count < 2 ^ 32 }
    ensures { result ≡ run_size (text_kind_of kind) count }
{
    let full = size_of(kind);
    let w = width_of(kind, full) as usize;
    let v = width_of(kind, count % full) as usize;
    count / full * w + v
}

// How many bits the given ECI number takes.
#[tactic(auto, using(laws::specs::Lists::length_bits), unfolding(standard::specs::Kinds::eci_bits))]
fn eci_bits(assignval: u32) -> usize
    ensures { result ≡ length (eci_bits assignval) }
{
    if assignval < 128 {
        8
    } else if assignval < 16_384 {
        16
    } else {
        24
    }
}

// The numbers of one record of the kind with the given number, whichever it is, that names the whole text.
#[tactic(auto, unfolding(crate::specs::Records::parts_of))]
pub fn whole_record(kind: u8, text: &[u8]) -> [u64; 4]
    ensures { parts_of result ≡ whole kind text.now }
{
    [kind as u64, 0, text.len() as u64, 0]
}

// Tests whether a record is as it should be: its kind and fields, its part inside the text, and each character one of its kind.
#[tactic(auto, using(crate::specs::Good::eci_number, crate::specs::Good::eci_start, crate::specs::Good::eci_length, crate::specs::Good::bad_kind, crate::specs::Good::bad_assign, crate::specs::Good::bad_part, crate::specs::Good::good_text, types::specs::Laws::text_kind_lt))]
fn is_good(text: &[u8], numbers: &[u64; 4]) -> bool
    ensures { result ≡ good_part text.now (part_from numbers.now) }
{
    let [kind, start, len, assign] = *numbers;
    let n = text.len() as u64;
    match TextKind::new(kind) {
        Some(k) if assign == 0 && start <= n && len <= n - start => {
            is_text(k, &text[start as usize..(start + len) as usize])
        }
        None if kind == 3 && start == 0 && len == 0 => assign < 1_000_000,
        _ => false,
    }
}

// The index of the first record that is not as it should be, if there is one.
pub fn first_bad(text: &[u8], records: &[u64]) -> Option<usize>
    ensures { MatchOption result (first_bad text.now (parts_of records.now) ≡ length (parts_of records.now)) (λ i. (i ≡ first_bad text.now (parts_of records.now)) × (i < length (parts_of records.now))) }
{
    records
        .as_chunks::<4>()
        .0
        .iter()
        .position(|numbers| !is_good(text, numbers))
}

// What a record that is as it should be names.
#[tactic(auto, using(crate::specs::Good::part_inside, crate::specs::Good::assign_32, crate::specs::Good::text_named, crate::specs::Good::eci_named, types::specs::Laws::text_kind_lt))]
pub(crate) fn segment_of<'a>(text: &'a [u8], numbers: &[u64; 4]) -> Segment<'a>
    requires { T (good_part text.now (part_from numbers.now)) }
    ensures { meaning result ≡ segment_of text.now (part_from numbers.now) }
{
    let [kind, start, len, assign] = *numbers;
    match TextKind::new(kind) {
        Some(kind) => Segment::Text {
            kind,
            chars: &text[start as usize..(start + len) as usize],
        },
        None => Segment::Eci(assign as u32),
    }
}

// Calculates and returns the number of bits needed to encode the given records at the given version.
// (That every record is good is asked here, in `data_codewords` and within: it speaks of the two slices that callers lend.)
// There is none if a segment has too many characters to fit its length field.
#[tactic(auto, using(crate::specs::Records::good_chunk, crate::specs::Totals::totals_start, crate::specs::Totals::totals_next, crate::specs::Totals::totals_long, crate::specs::Totals::totals_end, crate::specs::Fit::total_room, crate::specs::Fit::total_bound))]
pub fn get_total_bits(text: &[u8], records: &[u64], ver: Version) -> Option<usize>
    requires { (length records.now ≤ 8195) × T (every (good_part text.now) (parts_of records.now)) }
    ensures { result ≡ total_of ver.value (segments_of text.now (parts_of records.now)) }
{
    let mut result: usize = 0;
    for record in records.as_chunks::<4>().0 {
        result += segment_of(text, record).bits(ver)?;
    }
    Some(result)
}
