// One segment: what stands at a bit of the data.
ghost use Rattle.std.specs.Prelude.{◌≡◌, ◌+◌, ◌*◌, ◌≤◌, length};
ghost use Rattle.standard.specs.Bits.{unpack};
ghost use Rattle.standard.specs.Kinds.{count_width};
ghost use Rattle.types.specs.Numbers.{text_kind_of};
ghost use Rattle.segments.specs.Kinds.{size};
ghost use Rattle.parser.specs.Runs.{run_end};
ghost use Rattle.parser.specs.Eci.{eci_at};
ghost use Rattle.parser.specs.Steps.{text_step, step_at, from_eci, found_of, step_of};

use crate::eci_number::eci_at;
use crate::fields::field_at;
use crate::{Fault, Segment};
use types::{QrSegmentMode, TextKind, Version};

// The bit after a group of m characters that stands at bit at; a fault where it is cut short or too large.
fn group_end(buf: &[u8], kind: TextKind, at: usize, m: usize) -> Result<usize, Fault>
    requires { (m ≤ size (text_kind_of kind)) × (length buf.now ≤ 4096) × (at ≤ 8 * length buf.now) }
    ensures { result ≡ run_end (text_kind_of kind) (unpack buf.now) m at m }
{
    let w = segments::width_of(kind, m);
    let x = field_at(buf, at, w)?;
    if segments::limit_of(kind, m) <= x {
        return Err(Fault { bit: at });
    }
    Ok(at + w as usize)
}

// The bit after the groups of count characters from bit at on, or the bit at which the first faulty group begins.
fn groups_end(buf: &[u8], kind: TextKind, at: usize, count: usize) -> Result<usize, Fault>
    requires { (length buf.now ≤ 4096) × (at ≤ 8 * length buf.now) }
    ensures { result ≡ run_end (text_kind_of kind) (unpack buf.now) count at count }
{
    let m = segments::size_of(kind);
    let mut p = at;
    for _ in 0..count / m {
        p = group_end(buf, kind, p, m)?;
    }
    group_end(buf, kind, p, count % m)
}

// The bit after count bytes from bit at on, or the bit at which the first begins that the data's end cuts short.
fn byte_end(buf: &[u8], at: usize, count: usize) -> Result<usize, Fault>
    requires { (length buf.now ≤ 4096) × (at ≤ 8 * length buf.now) }
    ensures { result ≡ run_end 2 (unpack buf.now) count at count }
{
    let room = (buf.len() * 8 - at) / 8;
    if room < count {
        return Err(Fault { bit: at + 8 * room });
    }
    Ok(at + 8 * count)
}

// The bit after count characters from bit at on, or the bit at which the first faulty group begins.
fn run_end(buf: &[u8], kind: TextKind, at: usize, count: usize) -> Result<usize, Fault>
    requires { (length buf.now ≤ 4096) × (at ≤ 8 * length buf.now) }
    ensures { result ≡ run_end (text_kind_of kind) (unpack buf.now) count at count }
{
    match kind {
        TextKind::Byte => byte_end(buf, at, count),
        _ => groups_end(buf, kind, at, count),
    }
}

// A segment of characters whose mode bits stand at bit at.
fn text_step(buf: &[u8], ver: Version, at: usize, kind: TextKind) -> Result<Segment, Fault>
    requires { (length buf.now ≤ 4096) × (at + 4 ≤ 8 * length buf.now) }
    ensures { found_of result ≡ text_step (count_width ver.value (text_kind_of kind)) (unpack buf.now) at (text_kind_of kind) }
{
    let mode = kind.mode();
    let w = mode.num_char_count_bits(ver);
    let count = field_at(buf, at + 4, w)? as usize;
    let start = at + 4 + w as usize;
    let end = run_end(buf, kind, start, count)?;
    Ok(Segment {
        mode,
        start,
        count,
        assign: 0,
        end,
    })
}

// An ECI segment whose mode bits stand at bit at.
fn eci_step(buf: &[u8], at: usize) -> Result<Segment, Fault>
    requires { (length buf.now ≤ 4096) × (at + 4 ≤ 8 * length buf.now) }
    ensures { found_of result ≡ from_eci (at + 4) (eci_at (unpack buf.now) (at + 4)) }
{
    let start = at + 4;
    let eci = eci_at(buf, start)?;
    Ok(Segment {
        mode: QrSegmentMode::Eci,
        start,
        count: 0,
        assign: eci.assign,
        end: eci.end,
    })
}

// The segment that stands at bit at; none where the segments end.
pub fn step_at(buf: &[u8], ver: Version, at: usize) -> Result<Option<Segment>, Fault>
    requires { (length buf.now ≤ 4096) × (at ≤ 8 * length buf.now) }
    ensures { step_of result ≡ step_at ver.value (unpack buf.now) at }
{
    if buf.len() * 8 < at + 4 {
        return Ok(None);
    }
    match bits::read_bits(buf, at, 4) {
        0 => Ok(None),
        1 => text_step(buf, ver, at, TextKind::Numeric).map(Some),
        2 => text_step(buf, ver, at, TextKind::Alphanumeric).map(Some),
        4 => text_step(buf, ver, at, TextKind::Byte).map(Some),
        7 => eci_step(buf, at).map(Some),
        _ => Err(Fault { bit: at }),
    }
}
