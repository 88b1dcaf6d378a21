// Reads the label of a grid, and says which one it is and what its segments hold.
ghost use Rattle.std.specs.Prelude.{◌+◌, ◌≤◌, ◌<◌, ◌^◌, length};
ghost use Rattle.records.specs.Reading.{count};
ghost use Rattle.records.specs.Within.{Within};

use super::refusals::unread;
use reader::{Label, Refusal};
use records::Record;
use streams::say;
use terminal::text::{Text, caption, escape};

/*---- Segments ----*/

// The name of a record's kind of characters. Kept (the C interface): a kind is a number in a `Record`.
fn kind_name(kind: u64) -> &'static str {
    match kind {
        0 => "numeric",
        1 => "alphanumeric",
        2 => "byte",
        _ => "",
    }
}

// Says kind, length and characters of a segment.
fn tell_characters(rt: &impl Print, kind: u64, characters: &[u8])
    requires { length characters.now ≤ 7089 }
{
    let mut memory = [0u8; 28356];
    let mut out = Text::new(&mut memory);
    escape(&mut out, characters);
    say!(rt; kind_name(kind), ", length ", characters.len(), ": ");
    let _ = rt.write_all(out.bytes());
    say!(rt; "\n");
}

// Says a segment after its number.
fn tell_segment(rt: &impl Print, r: Record, text: &[u8])
    requires { (r.start + r.length ≤ length text.now) × (length text.now ≤ 7089) }
{
    if r.kind == 3 {
        say!(rt; "ECI ", r.assign, "\n");
        return;
    }
    let start = r.start as usize;
    let end = start + r.length as usize;
    tell_characters(rt, r.kind, &text[start..end]);
}

// Says the first n segments, counted from 1.
fn tell_segments(rt: &impl Print, n: usize, records: &[Record], text: &[u8])
    requires { (n ≤ length records.now) × Within n records.now (length text.now) × (length text.now ≤ 7089) }
{
    for (i, r) in records[..n].iter().enumerate() {
        say!(rt; "segment ", i + 1, ": ");
        tell_segment(rt, *r, text);
    }
}

/*---- The label ----*/

// Says which label was read, and returns whether it is the right one. What stands under a picture has to be the line that goes with it.
fn tell_label(rt: &impl Print, label: Label, under: &[u8]) -> bool {
    let mut memory = [0u8; 40];
    let mut out = Text::new(&mut memory);
    caption(
        &mut out,
        label.version.value(),
        label.level.ordinal(),
        label.mask.value(),
    );
    let right = under.is_empty() || under == out.bytes();
    if !right {
        say!(rt; "label: the line under the picture should be: ");
    }
    let _ = rt.write_all(out.bytes());
    right
}

// Says which label was read or why there is none, and returns how many segments are to be said.
fn tell(rt: &impl Print, answer: Result<Label, Refusal>, under: &[u8]) -> usize
    ensures { result ≤ count answer }
{
    match answer {
        Ok(label) => {
            if !tell_label(rt, label, under) {
                return 0;
            }
            if label.records == 0 {
                say!(rt; "no segments\n");
            }
            label.records
        }
        Err(r) => {
            unread(rt, r);
            0
        }
    }
}

// Reads the label that a grid shows, and says what it holds or why it is none.
pub(crate) fn read_grid(rt: &impl Print, grid: &[u8], side: usize, under: &[u8]) {
    let none = Record {
        kind: 0,
        start: 0,
        length: 0,
        assign: 0,
    };
    let mut text = [0u8; 7089];
    let mut records = [none; 2048];
    let mut scratch = [0u8; 40000];
    let answer = records::read(grid, side, &mut text, &mut records, &mut scratch);
    let n = tell(rt, answer, under);
    tell_segments(rt, n, &records, &text);
}
