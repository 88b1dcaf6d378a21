// Modules from what shows them: a picture as the program draws it, or rows of 0 and 1.
ghost use Rattle.std.specs.Prelude.{◌≡◌, ◌+◌, ◌≤◌, ◌<◌, length, IfSome};
ghost use Rattle.standard.specs.Numbers.{tabulate};
ghost use Rattle.terminal.specs.Adds.{Adds, HasRoom};
ghost use Rattle.terminal.specs.Scan.{is_half, halves as halves_of, upper as upper_of, lower as lower_of, module_of, side_in, row_module, even as even_at, uneven_in};

use super::text::Text;
use super::words::place;

/*---- A picture ----*/

// Whether a byte is the last one of a picture's character.
fn is_half(c: u8) -> bool
    ensures { result ≡ is_half c }
{
    matches!(c, b' ' | 0x80 | 0x84 | 0x88)
}

// Puts the last bytes of a picture's characters behind a text.
pub fn halves(text: &[u8], out: &mut Text)
    requires { HasRoom out.old (length text.now) }
    ensures said { Adds out.old (halves_of text.now) out.new }
    ensures bound { out.new.len ≤ out.old.len + length text.now }
{
    for c in text {
        if is_half(*c) {
            out.push(*c);
        }
    }
}

// The upper module of a character.
fn upper(half: u8) -> u8
    ensures { result ≡ upper_of half }
{
    match half {
        0x80 | 0x88 => 1,
        _ => 0,
    }
}

// The lower module of a character.
fn lower(half: u8) -> u8
    ensures { result ≡ lower_of half }
{
    match half {
        0x84 | 0x88 => 1,
        _ => 0,
    }
}

// Module k of a grid, from the last bytes of its picture's characters; light past their end.
fn module_at(side: usize, halves: &[u8], k: usize) -> u8
    requires { (0 < side) × (side ≤ 177) × (k ≤ 31328) }
    ensures { result ≡ module_of side halves.now k }
{
    let row = k / side + 4;
    let half = halves
        .get(row / 2 * (side + 8) + (k % side + 4))
        .copied()
        .unwrap_or(0);
    if row % 2 == 0 {
        return upper(half);
    }
    lower(half)
}

// Reads the modules of a grid from the last bytes of its picture's characters.
pub fn scan(side: usize, halves: &[u8], grid: &mut [u8])
    requires { (0 < side) × (side ≤ 177) × (length grid.old ≤ 31329) }
    ensures { grid.new ≡ tabulate (length grid.old) (module_of side halves.now) }
{
    for (k, module) in grid.iter_mut().enumerate() {
        *module = module_at(side, halves, k);
    }
}

// The side of a picture, by the length of its first line; none where that is too short.
pub fn side_of(text: &[u8]) -> Option<usize>
    ensures { result ≡ side_in text.now }
{
    let first_line = place(b'\n', text).unwrap_or(text.len());
    if first_line <= 21 {
        return None;
    }
    Some(first_line - 21)
}

/*---- Rows of 0 and 1 ----*/

// Module k of a grid, from rows of a side; 2, which a reader refuses at its place, where neither 0 nor 1 stands.
fn row_module(side: usize, text: &[u8], k: usize) -> u8
    requires { (0 < side) × (k < 65536) }
    ensures { result ≡ row_module side text.now k }
{
    match text.get(k + k / side) {
        Some(b'0') => 0,
        Some(b'1') => 1,
        _ => 2,
    }
}

// Reads the modules of a grid from rows of a side.
pub fn rows(side: usize, text: &[u8], grid: &mut [u8])
    requires { (0 < side) × (length grid.old ≤ 65536) }
    ensures { grid.new ≡ tabulate (length grid.old) (row_module side text.now) }
{
    for (k, module) in grid.iter_mut().enumerate() {
        *module = row_module(side, text, k);
    }
}

// Whether a newline stands at a place exactly if a row ends there.
fn even(side: usize, text: &[u8], p: usize) -> bool
    requires { (side ≤ 65536) × (p < length text.now) }
    ensures { result ≡ even_at side text.now p }
{
    (p % (side + 1) == side) == (text[p] == b'\n')
}

// The first place where that fails.
pub fn uneven(side: usize, text: &[u8]) -> Option<usize>
    requires { side ≤ 65536 }
    ensures value { result ≡ uneven_in side text.now }
    ensures bound { IfSome result (λ p. p < length text.now) }
{
    (0..text.len()).find(|p| !even(side, text, *p))
}
