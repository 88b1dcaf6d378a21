// Text that is put together in lent memory before it is written: words, numbers, the line under a picture, escaped bytes.
ghost use Rattle.std.specs.Prelude.{◌≡◌, ◌+◌, ◌*◌, ◌≤◌, ◌<◌, [], ◌∷◌, length, take};
ghost use Rattle.terminal.specs.Text.{decimal, letter as letter_of, caption as caption_of, hex_digit, hexed, escaped_byte, escaped};
ghost use Rattle.terminal.specs.Adds.{Adds, HasRoom};

// A text that stands at the start of lent memory.
#[derive(Drop)]
pub struct Text<'a> {
    memory: &'a mut [u8],
    len: usize,
}

impl<'a> Text<'a> {
    // An empty text.
    pub fn new(memory: &'a mut [u8]) -> Text<'a>
        ensures same_memory { result.memory.ghost_name ≡ memory.entry.ghost_name }
        ensures unchanged { result.memory.now ≡ memory.old }
        ensures empty { result.len ≡ 0 }
    {
        Text { memory, len: 0 }
    }

    // Puts a byte behind the text.
    #[inline(always)]
    pub fn push(&mut self, c: u8)
        requires { HasRoom self.old 1 }
        ensures { Adds self.old (c ∷ []) self.new }
    {
        self.say(&[c]);
    }

    // Puts words behind the text. (Inlined: a copy of so many bytes as stand in the program is a store or two.)
    #[inline(always)]
    pub fn say(&mut self, words: &[u8])
        requires { HasRoom self.old (length words.now) }
        ensures { Adds self.old words.now self.new }
    {
        let start = self.len;
        let end = start + words.len();
        let memory = &mut *self.memory;
        memory[start..end].copy_from_slice(words);
        self.len = end;
    }

    // The text.
    pub fn bytes(&self) -> &[u8]
        requires { HasRoom self.now 0 }
        ensures { result.now ≡ take self.now.len self.now.memory.now }
    {
        &self.memory[..self.len]
    }
}

// Puts a number in decimal behind a text.
fn number(out: &mut Text, n: u8)
    requires { HasRoom out.old 3 }
    ensures said { Adds out.old (decimal n) out.new }
    ensures bound { out.new.len ≤ out.old.len + 3 }
{
    match n {
        0..=9 => out.say(&[b'0' + n]),
        10..=99 => out.say(&[b'0' + n / 10, b'0' + n % 10]),
        _ => out.say(&[b'0' + n / 100, b'0' + n / 10 % 10, b'0' + n % 10]),
    }
}

// The letter of a level. Kept (this promise): the level is a number, since the answer is for every number.
pub fn letter(level: usize) -> u8
    ensures { result ≡ letter_of level }
{
    match level {
        0 => b'L',
        1 => b'M',
        2 => b'Q',
        _ => b'H',
    }
}

// Puts the line that says which label it is behind a text. Kept (this promise): the level is a number, as `letter` takes it.
pub fn caption(out: &mut Text, version: u8, level: usize, mask: u8)
    requires { HasRoom out.old 40 }
    ensures said { Adds out.old (caption_of version level mask) out.new }
    ensures bound { out.new.len ≤ out.old.len + 40 }
{
    out.say(b"version ");
    number(out, version);
    out.say(b", level ");
    out.push(letter(level));
    out.say(b", mask ");
    number(out, mask);
    out.say(b"\n");
}

// A digit in base 16.
fn hex_digit(n: u8) -> u8
    requires { n < 16 }
    ensures { result ≡ hex_digit n }
{
    if n < 10 { b'0' + n } else { b'a' + (n - 10) }
}

// Puts a byte as \xNN behind a text.
fn hex(out: &mut Text, c: u8)
    requires { HasRoom out.old 4 }
    ensures { Adds out.old (hexed c) out.new }
{
    out.say(&[b'\\', b'x', hex_digit(c / 16), hex_digit(c % 16)]);
}

// Puts a byte as itself where a terminal can show it, and else as \xNN; the backslash as \x5c, so that the bytes can be told.
fn escape_byte(out: &mut Text, c: u8)
    requires { HasRoom out.old 4 }
    ensures said { Adds out.old (escaped_byte c) out.new }
    ensures bound { out.new.len ≤ out.old.len + 4 }
{
    match c {
        b'\\' => hex(out, c),
        b' '..=b'~' => out.push(c),
        _ => hex(out, c),
    }
}

// Puts a text, escaped, behind another.
pub fn escape(out: &mut Text, text: &[u8])
    requires { HasRoom out.old (4 * length text.now) }
    ensures said { Adds out.old (escaped text.now) out.new }
    ensures bound { HasRoom out.new 0 }
{
    for c in text {
        escape_byte(out, *c);
    }
}
