// What follows the segments: terminator, fill and pad bytes.
ghost use Rattle.std.specs.Prelude.{◌≡◌, ◌-◌, ◌*◌, ◌/◌, ◌≤◌, length};
ghost use Rattle.standard.specs.Bits.{unpack};
ghost use Rattle.parser.specs.Tail.{pads_at, fill_at, tail_at};

use crate::Fault;
use segments::codewords::pad_byte;

// The pad bytes from bit at on, a byte's first bit: the bit after them, or the first bit of the first that is wrong.
fn pads_at(buf: &[u8], at: usize) -> Result<usize, Fault>
    requires { (length buf.now ≤ 4096) × (at ≤ 8 * length buf.now) }
    ensures { result ≡ pads_at (unpack buf.now) ((length (unpack buf.now) - at) / 8) at 0 }
{
    let mut p = at;
    for i in 0..(buf.len() * 8 - at) / 8 {
        if bits::read_bits(buf, p, 8) != pad_byte(i) as u32 {
            return Err(Fault { bit: p });
        }
        p += 8;
    }
    Ok(p)
}

// What follows the terminator, which ends at bit e.
fn fill_at(buf: &[u8], e: usize) -> Result<usize, Fault>
    requires { (length buf.now ≤ 4096) × (e ≤ 8 * length buf.now) }
    ensures { result ≡ fill_at (unpack buf.now) e }
{
    let g = (8 - e % 8) % 8;
    if bits::read_bits(buf, e, g as u8) != 0 {
        return Err(Fault { bit: e });
    }
    pads_at(buf, e + g)
}

// What follows the segments, which end at bit at: the bit after it, or the bit at which the first faulty field begins.
pub fn tail_at(buf: &[u8], at: usize) -> Result<usize, Fault>
    requires { (length buf.now ≤ 4096) × (at ≤ 8 * length buf.now) }
    ensures { result ≡ tail_at (unpack buf.now) at }
{
    let t = (buf.len() * 8 - at).min(4);
    if bits::read_bits(buf, at, t as u8) != 0 {
        return Err(Fault { bit: at });
    }
    fill_at(buf, at + t)
}
