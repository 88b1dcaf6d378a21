// Reads a label from standard input: the picture that `label` draws, or rows of 0 and 1.
ghost use Rattle.std.specs.Prelude.{◌≡◌, ◌*◌, ◌≤◌, ◌<◌, length, MatchOption};
ghost use Rattle.terminal.specs.Scan.{side_of, Begins};

use super::show::read_grid;
use streams::{read_full, say};
use terminal::text::Text;
use terminal::{picture, scan, words};

// How many bytes a text, a grid and what is drawn of it have room for. (That a text is no longer stands in
// four contracts below: a struct of a lent text with that fact would be named with its moment in each.)
const ROOM: usize = 65536;

// Says that a picture is none of a label.
fn no_picture(rt: &impl Print) {
    say!(rt; "label: this begins like a picture, and label draws no such picture\n");
}

// Reads the picture of a grid at the start of a text, and returns the place after it, if there is one. It is a picture if it is
// drawn so again.
fn picture_end(text: &[u8], side: usize, grid: &mut [u8], work: &mut [u8; ROOM]) -> Option<usize>
    requires { (side ≡ side_of text.now) × (0 < side) × (side ≤ 177) × (length grid.old ≡ side * side) × (length text.now ≤ 65536) }
    ensures { MatchOption result (Begins text.now side 0 grid.new) (λ end. Begins text.now side end grid.new × (0 < end) × (end ≤ length text.now)) }
{
    let mut halves = Text::new(work);
    scan::halves(text, &mut halves);
    scan::scan(side, halves.bytes(), grid);
    let mut drawn = Text::new(work);
    picture::draw(side, grid, &mut drawn);
    let picture = drawn.bytes();
    if !text.starts_with(picture) {
        return None;
    }
    Some(picture.len())
}

// Reads the label of a picture.
fn read_picture(rt: &impl Print, text: &[u8], grid: &mut [u8; ROOM], work: &mut [u8; ROOM])
    requires { length text.now ≤ 65536 }
{
    let side = match scan::side_of(text) {
        Some(side) if side <= 177 => side,
        _ => return no_picture(rt),
    };
    let area = side * side;
    let modules = &mut grid[..area];
    match picture_end(text, side, modules, work) {
        Some(end) => read_grid(rt, modules, side, &text[end..]),
        None => no_picture(rt),
    }
}

// Reads the label of rows of a side, as many as there are.
fn read_even(rt: &impl Print, text: &[u8], side: usize, grid: &mut [u8; ROOM])
    requires { (0 < side) × (side ≤ 65536) × (length text.now ≤ 65536) }
{
    let lines = (text.len() + 1) / (side + 1);
    let area = lines * side;
    let modules = &mut grid[..area];
    scan::rows(side, text, modules);
    read_grid(rt, modules, side, b"")
}

// The line, counted from 1, in which a place lies that comes after lines of a side.
fn line_of(p: usize, side: usize) -> usize
    requires { (p ≤ 65536) × (side ≤ 65536) }
{
    p / (side + 1) + 1
}

// Says that the line of a place has not the length of the first one.
fn uneven_line(rt: &impl Print, p: usize, side: usize)
    requires { (p ≤ 65536) × (side ≤ 65536) }
{
    say!(rt; "label: line ", line_of(p, side), " has not as many characters as line 1\n");
}

// Reads the label of lines, without the newline after the last one.
fn read_lines(rt: &impl Print, text: &[u8], grid: &mut [u8; ROOM])
    requires { length text.now ≤ 65536 }
{
    let end = text.len();
    let side = words::place(b'\n', text).unwrap_or(end);
    if side == 0 {
        say!(rt; "label: line 1 is empty\n");
        return;
    }
    match scan::uneven(side, text) {
        Some(p) => uneven_line(rt, p, side),
        None if (end + 1) % (side + 1) != 0 => uneven_line(rt, end, side),
        None => read_even(rt, text, side, grid),
    }
}

// Reads a label from standard input: a picture, which begins with a colour code, or rows. No picture and no rows of a label take
// as many bytes as there is room for.
pub(crate) fn read_label(rt: &(impl Input + Print)) {
    let mut text = [0u8; ROOM];
    let mut grid = [0u8; ROOM];
    let mut work = [0u8; ROOM];
    let n = read_full(&mut rt.reader(), &mut text);
    match &text[..n] {
        [] => say!(rt; "label: there is nothing to read\n"),
        _ if n == ROOM => say!(rt; "label: this is longer than a label\n"),
        [b'\x1b', ..] => read_picture(rt, &text[..n], &mut grid, &mut work),
        _ => read_lines(rt, words::line(&text[..n]), &mut grid),
    }
}
