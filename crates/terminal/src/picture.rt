// The picture of a label in a terminal. Each line sets both colours, so that it reads on a dark screen and on a light one.
ghost use Rattle.std.specs.Prelude.{◌≡◌, ◌+◌, ◌≤◌};
ghost use Rattle.terminal.specs.Adds.{Adds, HasRoom};
ghost use Rattle.terminal.specs.Picture.{shown as shown_at, glyph as glyph_of, characters as characters_of, line as line_of, picture as picture_of};

use super::text::Text;

// Puts the character of two modules behind a text: a space, or the lower half, the upper half or the whole dark.
#[inline(always)]
fn glyph(out: &mut Text, upper: u8, lower: u8)
    requires { HasRoom out.old 3 }
    ensures said { Adds out.old (glyph_of upper lower) out.new }
    ensures bound { out.new.len ≤ out.old.len + 3 }
{
    match (upper, lower) {
        (0, 0) => out.say(b" "),
        (0, _) => out.say(b"\xe2\x96\x84"),
        (_, 0) => out.say(b"\xe2\x96\x80"),
        _ => out.say(b"\xe2\x96\x88"),
    }
}

// A grid of a side that has a picture.
#[derive(Clone, Copy)]
struct Picture<'a> {
    side: usize,
    grid: &'a [u8],
    ghost small: { side ≤ 177 },
}

impl Picture<'_> {
    // The module at a place of the picture, whose border of four modules is light.
    fn shown(&self, x: usize, y: usize) -> u8
        requires { (x ≤ 186) × (y ≤ 186) }
        ensures { result ≡ shown_at self.now.side self.now.grid.now x y }
    {
        let side = self.side;
        if x < 4 || y < 4 || side + 4 <= x || side + 4 <= y {
            return 0;
        }
        let k = (y - 4) * side + (x - 4);
        self.grid.get(k).copied().unwrap_or(0)
    }

    // Puts the characters that show rows y and y + 1 behind a text.
    #[inline(always)]
    fn characters(&self, y: usize, out: &mut Text)
        requires { (y ≤ 185) × HasRoom out.old 555 }
        ensures said { Adds out.old (characters_of self.now.side self.now.grid.now y (self.now.side + 8)) out.new }
        ensures bound { out.new.len ≤ out.old.len + 555 }
    {
        for x in 0..self.side + 8 {
            let upper = self.shown(x, y);
            let lower = self.shown(x, y + 1);
            glyph(out, upper, lower);
        }
    }

    // Puts the line of text that shows rows y and y + 1 behind a text. It is put together in an array of its own,
    // so that the compiler keeps the place in it in a register.
    fn line(&self, y: usize, out: &mut Text)
        requires { (y ≤ 185) × HasRoom out.old 569 }
        ensures said { Adds out.old (line_of self.now.side self.now.grid.now y) out.new }
        ensures bound { out.new.len ≤ out.old.len + 569 }
    {
        let mut memory = [0u8; 569];
        let mut line = Text::new(&mut memory);
        line.say(b"\x1b[30;107m");
        self.characters(y, &mut line);
        line.say(b"\x1b[0m\n");
        out.say(line.bytes());
    }
}

// Puts the whole picture behind a text.
pub fn draw(side: usize, grid: &[u8], out: &mut Text)
    requires { (side ≤ 177) × HasRoom out.old 52917 }
    ensures said { Adds out.old (picture_of side grid.now) out.new }
    ensures bound { out.new.len ≤ out.old.len + 52917 }
{
    let picture = Picture { side, grid };
    for j in 0..(side + 9) / 2 {
        picture.line(2 * j, out);
    }
}
