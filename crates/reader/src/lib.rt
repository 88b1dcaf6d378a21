// The strict reader: what label a grid shows. Function modules and all codewords are compared with what the label draws.
// (Grid and work stay lent slices, as in `modules`, and each contract says that they are square.)
#![tactic(auto)]

mod check; // check.rt: the first checks

ghost use Rattle.std.specs.Prelude.{◌≡◌, ◌&&◌, [], ◌∷◌, ◌++◌, ◌+◌, ◌*◌, ◌≤◌, length, take, replicate};
ghost use Rattle.standard.specs.Numbers.{same};
ghost use Rattle.standard.specs.Sizes.{side, raw_codewords, data_codewords};
ghost use Rattle.standard.specs.Blocks.{all_words};
ghost use Rattle.laws.specs.Grid.{Square};
ghost use Rattle.types.specs.Numbers.{level_of};
ghost use Rattle.blocks.specs.Undo.{data_of};
ghost use Rattle.modules.specs.FormatBack.{read_level, read_mask};
ghost use Rattle.modules.specs.Work.{Small};
ghost use Rattle.modules.specs.Back.{read_grid, read_words};
ghost use Rattle.modules.specs.Same.{agree_to};
ghost use Rattle.reader.specs.Numbers.{FindsNumbers, ReadsNumbers};
ghost use Rattle.reader.specs.Told.{Tells};
ghost use Rattle.reader.specs.Recovered.{Looks};
ghost use Rattle.standard.specs.Encode.{zeroed};

use types::{Mask, QrCodeEcc, Version};

// Why a grid is not read.
#[derive(Clone, Copy, PartialEq, Eq)]
pub enum Refusal {
    // The side is that of no version.
    Side(usize),
    // The grid has not as many bytes.
    Length(usize),
    // The byte at this place is above 1.
    Byte(usize),
    // Scratch is too short.
    Scratch,
    // No label has this grid.
    NoLabel,
    // The text buffer is shorter than the text.
    Text(usize),
    // The record buffer holds fewer records.
    Records(usize),
}

// A label that was read: how many records and characters of text it has.
#[derive(Clone, Copy, PartialEq, Eq)]
pub struct Label {
    pub version: Version,
    pub level: QrCodeEcc,
    pub mask: Mask,
    pub records: usize,
    pub text: usize,
}

// What the format of a grid says.
#[derive(Clone, Copy, PartialEq, Eq)]
struct Format {
    version: Version,
    level: QrCodeEcc,
    mask: Mask,
}

/*---- The label ----*/

// Reads all codewords of a grid into all, which is zero and one byte longer, for the remainder modules; and the data codewords
// into data. Work is to draw in.
#[tactic(auto, using(crate::specs::Recovered::raw_small))]
fn read_data(grid: &[u8], format: Format, work: &mut [u8], all: &mut [u8], data: &mut [u8])
    requires grid { Square grid.now (side format.version.value) }
    requires work { Square work.old (side format.version.value) }
    requires lengths { (length all.old ≡ raw_codewords format.version.value + 1) × (length «data».old ≡ data_codewords format.version.value (level_of format.level)) }
    ensures all_after { all.new ≡ read_words format.version.value (level_of format.level) format.mask.value grid.now all.old }
    ensures data_after { «data».new ≡ data_of format.version.value (level_of format.level) (take (raw_codewords format.version.value) all.new) }
    ensures work_after { work.new ≡ read_grid format.version.value (level_of format.level) format.mask.value grid.now }
{
    let ver = format.version;
    let ecl = format.level;
    modules::read_codewords(grid, work, ver, ecl, format.mask, all);
    let raw = all.len() - 1;
    blocks::data_words(ver, ecl, &all[0..raw], data);
}

// Makes all codewords of the data anew, check bytes and all, in `again`, and answers whether they are those in `all`.
fn same_words(ver: Version, ecl: QrCodeEcc, data: &[u8], all: &[u8], again: &mut [u8]) -> bool
    requires { (length all.now ≡ raw_codewords ver.value) × (length again.old ≡ raw_codewords ver.value) × (length «data».now ≡ data_codewords ver.value (level_of ecl)) }
    ensures { result ≡ same all.now (all_words ver.value (level_of ecl) «data».now) }
{
    blocks::add_ecc_and_interleave(ver, ecl, data, again);
    *all == *again
}

// Whether the function modules of work stand in grid, and what was read into all are the codewords of data, and remainder
// modules of 0. The codewords of data are made in work.
fn is_drawn(
    grid: &[u8],
    ver: Version,
    ecl: QrCodeEcc,
    data: &[u8],
    all: &[u8],
    work: &mut [u8],
) -> bool
    requires work { (length grid.now ≡ length work.old) × Square work.old (side ver.value) }
    requires lengths { (length all.now ≡ raw_codewords ver.value + 1) × (length «data».now ≡ data_codewords ver.value (level_of ecl)) }
    ensures { result ≡ agree_to (length work.old) grid.now work.old && same all.now (all_words ver.value (level_of ecl) «data».now ++ (0 ∷ [])) }
{
    let raw = all.len() - 1;
    modules::same_functions(grid, work)
        && all[raw] == 0
        && same_words(ver, ecl, data, &all[0..raw], &mut work[0..raw])
}

// Parses data codewords strictly, and writes text and records where there is room.
fn tell(data: &[u8], format: Format, text: &mut [u8], records: &mut [u64]) -> Result<Label, Refusal>
    requires { (length «data».now ≡ data_codewords format.version.value (level_of format.level)) }
    ensures { Tells format.version.value (level_of format.level) format.mask.value «data».now text.old records.old result text.new records.new }
{
    let Ok(counts) = parser::count_all(data, format.version) else {
        return Err(Refusal::NoLabel);
    };
    if text.len() < counts.text {
        return Err(Refusal::Text(counts.text));
    }
    if records.len() / 4 < counts.records {
        return Err(Refusal::Records(counts.records));
    }
    parser::write_all(data, format.version, text, records);
    Ok(Label {
        version: format.version,
        level: format.level,
        mask: format.mask,
        records: counts.records,
        text: counts.text,
    })
}

// Reads a grid at its version, level and mask.
fn read_words(
    grid: &[u8],
    format: Format,
    text: &mut [u8],
    records: &mut [u64],
    work: &mut [u8],
    all: &mut [u8],
    data: &mut [u8],
) -> Result<Label, Refusal>
    requires grid { Square grid.now (side format.version.value) }
    requires work { Square work.old (side format.version.value) }
    requires lengths { (all.old ≡ replicate (raw_codewords format.version.value + 1) 0) × (length «data».old ≡ data_codewords format.version.value (level_of format.level)) }
    requires format { (level_of format.level ≡ read_level (side format.version.value) grid.now) × (format.mask.value ≡ read_mask (side format.version.value) grid.now) × Small format.version.value grid.now }
    ensures { Looks grid.now text.old records.old result text.new records.new }
{
    read_data(grid, format, work, all, data);
    if !is_drawn(grid, format.version, format.level, data, all, work) {
        return Err(Refusal::NoLabel);
    }
    tell(data, format, text, records)
}

// Reads a grid of a version, with work to draw in.
fn read_square(
    grid: &[u8],
    ver: Version,
    text: &mut [u8],
    records: &mut [u64],
    work: &mut [u8],
) -> Result<Label, Refusal>
    requires grid { Square grid.now (side ver.value) }
    requires work { Square work.old (side ver.value) }
    requires small { Small ver.value grid.now }
    ensures { Looks grid.now text.old records.old result text.new records.new }
{
    let format = Format {
        version: ver,
        level: modules::read_level(grid, ver),
        mask: modules::read_mask(grid, ver),
    };
    let raw = capacity::get_num_raw_data_modules(ver) / 8;
    let len = capacity::get_num_data_codewords(ver, format.level);
    let mut all: [u8; 3707] = [0; 3707];
    let mut data: [u8; 2956] = [0; 2956];
    read_words(
        grid,
        format,
        text,
        records,
        work,
        &mut all[0..raw + 1],
        &mut data[0..len],
    )
}

/*---- The entry ----*/

// (Text and records stay two parameters: a struct of two `&mut` would be named `.entry` or `.exit` in each clause.)

// Reads a grid of a version in scratch, and zeroes that.
fn read_checked(
    grid: &[u8],
    ver: Version,
    text: &mut [u8],
    records: &mut [u64],
    scratch: &mut [u8],
) -> Result<Label, Refusal>
    requires grid { Square grid.now (side ver.value) }
    requires small { Small ver.value grid.now }
    requires scratch { 40000 ≤ length scratch.old }
    ensures { FindsNumbers grid.now text.old records.old (zeroed scratch.old) result text.new records.new scratch.new }
{
    let size = patterns::size_of(ver);
    let area = size * size;
    let r = read_square(grid, ver, text, records, &mut scratch[0..area]);
    scratch[0..40000].fill(0);
    r
}

// Reads the label that a grid shows: its characters into text and its records, four numbers to each (kind, start, length
// and assign), into records, from the start of both on.
pub fn read(
    grid: &[u8],
    size: usize,
    text: &mut [u8],
    records: &mut [u64],
    scratch: &mut [u8],
) -> Result<Label, Refusal>
    ensures { ReadsNumbers grid.now size text.old records.old scratch.old result text.new records.new scratch.new }
{
    let ver = check::check_first(grid, size, scratch.len())?;
    read_checked(grid, ver, text, records, scratch)
}
