// Data codewords: the bits of all segments, a terminator, zero bits up to a byte, then pad bytes.
ghost use Rattle.std.specs.Prelude.{◌≡◌, ◌≤◌, T, length, take, replicate};
ghost use Rattle.standard.specs.Numbers.{every};
ghost use Rattle.standard.specs.Sizes.{data_codewords};
ghost use Rattle.standard.specs.Segments.{segments_of, good_part, stream, lengths_fit, fits};
ghost use Rattle.standard.specs.Codewords.{pad_byte, padded, data_words};
ghost use Rattle.types.specs.Numbers.{level_of};
ghost use Rattle.bits.specs.Appended.{Free, Appended};
ghost use Rattle.segments.specs.Records.{parts_of};
ghost use Rattle.segments.specs.Ends.{end_bits};

use super::make::append_segment;
use super::records::segment_of;
use types::{QrCodeEcc, Version};

// Concatenates all segments to create the data bit string, and returns the bit after it.
#[tactic(auto, using(crate::specs::Streams::stream_start, crate::specs::Streams::fit_start, crate::specs::Records::good_chunk, crate::specs::Good::named_good, crate::specs::Streams::fit_here, crate::specs::Streams::fit_next, crate::specs::Streams::stream_free, crate::specs::Streams::stream_next, crate::specs::Streams::stream_end))]
fn append_segments(bb: &mut [u8], ver: Version, text: &[u8], records: &[u64]) -> usize
    requires { T (every (good_part text.now) (parts_of records.now)) × T (lengths_fit ver.value (segments_of text.now (parts_of records.now))) × Free bb.old 0 (stream ver.value (segments_of text.now (parts_of records.now))) }
    ensures { Appended bb.old bb.new 0 result (stream ver.value (segments_of text.now (parts_of records.now))) }
{
    let mut at = 0;
    for record in records.as_chunks::<4>().0 {
        at = append_segment(bb, at, ver, segment_of(text, record));
    }
    at
}

// Pad byte i.
pub fn pad_byte(i: usize) -> u8
    ensures { result ≡ pad_byte i }
{
    if i % 2 == 0 { 0xEC } else { 0x11 }
}

// Adds the terminator and pads up to a byte if applicable, and returns the bit after.
fn add_terminator(bb: &mut [u8], len: usize, datacapacitybits: usize) -> usize
    requires { (len ≤ datacapacitybits) × Free bb.old len (end_bits datacapacitybits len) }
    ensures { Appended bb.old bb.new len result (end_bits datacapacitybits len) }
{
    let numzerobits = (datacapacitybits - len).min(4);
    let at = bits::append_bits(bb, len, 0, numzerobits as u8);
    let numzerobits = 0usize.wrapping_sub(at) % 8;
    bits::append_bits(bb, at, 0, numzerobits as u8)
}

// Pads with alternating bytes, from byte k on, until the data capacity is reached.
#[tactic(auto, using(crate::specs::Ends::pad_end))]
fn add_pad_bytes(bb: &mut [u8], k: usize)
    requires { k ≤ length bb.old }
    ensures { bb.new ≡ padded (length bb.old) (take k bb.old) }
{
    let rest = &mut bb[k..];
    for (i, padbyte) in rest.iter_mut().enumerate() {
        *padbyte = pad_byte(i);
    }
}

// Writes the data codewords of records that are as they should be and fit the version at the level
// into a buffer of zeros that is as long as they are.
pub fn data_codewords(bb: &mut [u8], ver: Version, ecl: QrCodeEcc, text: &[u8], records: &[u64])
    requires { (bb.old ≡ replicate (data_codewords ver.value (level_of ecl)) 0) × T (every (good_part text.now) (parts_of records.now)) × T (fits (level_of ecl) (segments_of text.now (parts_of records.now)) ver.value) }
    ensures { bb.new ≡ data_words ver.value (level_of ecl) (segments_of text.now (parts_of records.now)) }
{
    let datacapacitybits = 8 * capacity::get_num_data_codewords(ver, ecl);
    let len = append_segments(bb, ver, text, records);
    let end = add_terminator(bb, len, datacapacitybits);
    add_pad_bytes(bb, end / 8);
}
