// The first checks: the side, the length of the grid, its bytes, and the length of scratch.
ghost use Rattle.std.specs.Prelude.{◌≡◌, length, cond, nat_lt, Some, None, option_map};
ghost use Rattle.standard.specs.Module.{version_of, valid_side};
ghost use Rattle.standard.specs.Read.{first_above};
ghost use Rattle.reader.specs.Answers.{Checks};
ghost use Rattle.reader.specs.Early.{small_to};

use super::Refusal;
use types::Version;

// The version of a side; there is none of other sides.
fn version_of(size: usize) -> Option<Version>
    ensures { option_map (λ v. v.value) result ≡ cond (valid_side size) (Some (version_of size)) None }
{
    if size < 21 || 177 < size || size % 4 != 1 {
        return None;
    }
    Some(types::version_at(((size - 17) / 4) as u8))
}

// Whether every byte is 0 or 1. It looks at all of them, many at a time.
fn all_small(grid: &[u8]) -> bool
    ensures { result ≡ small_to (length grid.now) grid.now }
{
    let mut all = true;
    for b in grid {
        all &= *b < 2;
    }
    all
}

// The place of the first byte above 1.
fn first_above(grid: &[u8]) -> Option<usize>
    ensures { result ≡ cond (nat_lt (first_above grid.now) (length grid.now)) (Some (first_above grid.now)) None }
{
    if all_small(grid) {
        return None;
    }
    grid.iter().position(|b| 1 < *b)
}

// The version, where the side, the length, the bytes, and so many bytes of scratch are right.
pub fn check_first(grid: &[u8], size: usize, room: usize) -> Result<Version, Refusal>
    ensures { Checks grid.now size room result }
{
    let ver = version_of(size).ok_or(Refusal::Side(size))?;
    let area = size * size;
    if grid.len() != area {
        return Err(Refusal::Length(area));
    }
    if let Some(at) = first_above(grid) {
        return Err(Refusal::Byte(at));
    }
    if room < 40000 {
        return Err(Refusal::Scratch);
    }
    Ok(ver)
}
