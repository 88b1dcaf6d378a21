// Draws the label of a text.
use super::refusals::refused;
use encoder::Label;
use streams::{read_full, say};
use terminal::options::Options;
use terminal::text::{Text, caption};
use terminal::{picture, words};

// Draws a label and says which one it is.
fn show(rt: &impl Print, grid: &[u8], label: Label) {
    let version = label.version.value();
    let mut memory = [0u8; 53000];
    let mut out = Text::new(&mut memory);
    picture::draw(4 * version as usize + 17, grid, &mut out);
    caption(&mut out, version, label.level.ordinal(), label.mask.value());
    let _ = rt.write_all(out.bytes());
}

// Makes the label of a text, and draws it or says why there is none.
fn make(rt: &impl Print, o: Options, text: &[u8]) {
    let mut grid = [0u8; 31329];
    let mut scratch = [0u8; 40000];
    let label = encoder::encode_text(
        text,
        o.level,
        o.first,
        o.last,
        o.mask,
        o.boost,
        &mut grid,
        &mut scratch,
    );
    match label {
        Ok(label) => show(rt, &grid, label),
        Err(r) => refused(rt, r, o),
    }
}

// Reads the text and takes the newline off it. Room for one byte more than a text and its newline shows that it is too long.
pub(crate) fn read_text(rt: &(impl Input + Print), o: Options) {
    let mut memory = [0u8; 8194];
    let n = read_full(&mut rt.reader(), &mut memory);
    let text = words::line(&memory[..n]);
    if 8192 < text.len() {
        say!(rt; "label: the text has more than 8192 bytes\n");
        return;
    }
    make(rt, o, text);
}
