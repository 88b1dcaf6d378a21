// One field of the data: the number that some bits stand for.
ghost use Rattle.std.specs.Prelude.{◌≡◌, ◌*◌, ◌≤◌, length};
ghost use Rattle.standard.specs.Bits.{unpack};
ghost use Rattle.parser.specs.Faults.{field_in};

use crate::Fault;

// The number in the w bits from bit at on; a fault where the data end before them.
pub fn field_at(buf: &[u8], at: usize, w: u8) -> Result<u32, Fault>
    requires { (w ≤ 32) × (length buf.now ≤ 4096) × (at ≤ 8 * length buf.now) }
    ensures { result ≡ field_in (unpack buf.now) at w }
{
    if buf.len() * 8 < at + w as usize {
        return Err(Fault { bit: at });
    }
    Ok(bits::read_bits(buf, at, w))
}
