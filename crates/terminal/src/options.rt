// The options of the command line.
ghost use Rattle.std.specs.Prelude.{◌≡◌};
ghost use Rattle.terminal.specs.Choices.{defaults as default_options, chosen as chosen_options};

use super::words::{level_named, mask_named, switch_named, versions_named};

// What the encoder is asked for. It refuses levels and versions that are none. Kept (the C interface): the level is a number, and
// mask 8 is the automatic choice, as `encode_text` takes them.
#[derive(Clone, Copy)]
pub struct Options {
    pub level: u8,
    pub first: u8,
    pub last: u8,
    pub mask: u8,
    pub boost: bool,
}

// What is asked for where nothing is said.
pub fn defaults() -> Options
    ensures { result ≡ default_options }
{
    Options {
        level: 1,
        first: 1,
        last: 40,
        mask: 8,
        boost: true,
    }
}

// The options after one more of them and its value; none where these are not understood.
// Tried: a `match` on byte strings leaves 23 goals, one for each byte that may be another one.
pub fn chosen(o: Options, name: &[u8], value: &[u8]) -> Option<Options>
    ensures { result ≡ chosen_options o name.now value.now }
{
    if name == b"--level".as_slice() {
        return Some(Options {
            level: level_named(value)?.ordinal() as u8,
            ..o
        });
    }
    if name == b"--versions".as_slice() {
        let (first, last) = versions_named(value)?;
        return Some(Options { first, last, ..o });
    }
    if name == b"--mask".as_slice() {
        return Some(Options {
            mask: mask_named(value)?,
            ..o
        });
    }
    if name == b"--boost".as_slice() {
        return Some(Options {
            boost: switch_named(value)?,
            ..o
        });
    }
    None
}
