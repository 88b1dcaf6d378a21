// The entries over lent slices of segment records. The work is done on numbers, four to a record; what is here unpacks and packs.
#![tactic(auto)]

ghost use Rattle.std.specs.Prelude.{◌≡◌, ◌*◌, ◌≤◌, min, length};
ghost use Rattle.standard.specs.Encode.{encode};
ghost use Rattle.standard.specs.Read.{Reads};
ghost use Rattle.types.specs.Numbers.{level_of};
ghost use Rattle.types.specs.Masks.{mask_number};
ghost use Rattle.encoder.specs.Answers.{answer_of};
ghost use Rattle.reader.specs.Answers.{read_of};
ghost use Rattle.records.specs.Records.{fields, parts, unpacked, record_at, packed};

use encoder::{Label, Refusal, Settings};

// A segment record: kind 0 Numeric, 1 Alphanumeric and 2 Byte name a part of one lent text, with assign 0;
// kind 3 is ECI, with start and length 0.
#[repr(C)]
#[derive(Clone, Copy)]
pub struct Record {
    pub kind: u64,
    pub start: u64,
    pub length: u64,
    pub assign: u64,
}

impl From<Record> for [u64; 4] {
    ghost from_gives = { λ r numbers. numbers ≡ fields r };

    // The numbers of a record, in the order in which the encoder takes them.
    fn from(r: Record) -> [u64; 4] {
        [r.kind, r.start, r.length, r.assign]
    }
}

/*---- Records to numbers ----*/

// Stores the four numbers of a record. (Four stores: a copy of an array into a part of a slice takes several times as long.)
fn put(place: &mut [u64], r: Record)
    requires { length place.old ≡ 4 }
    ensures { place.new ≡ fields r }
{
    let four = <[u64; 4]>::from(r);
    place[0] = four[0];
    place[1] = four[1];
    place[2] = four[2];
    place[3] = four[3];
}

// Writes the numbers of all records, from the start on.
fn unpack(records: &[Record], numbers: &mut [u64])
    requires { 4 * length records.now ≤ length numbers.old }
    ensures { numbers.new ≡ unpacked (length records.now) records.now numbers.old }
{
    for (i, r) in records.iter().enumerate() {
        put(&mut numbers[4 * i..4 * i + 4], *r);
    }
}

// Encodes records by way of an array of N numbers.
fn encode_in<const N: usize>(
    text: &[u8],
    records: &[Record],
    settings: Settings,
    grid: &mut [u8],
    scratch: &mut [u8],
) -> Result<Label, Refusal>
    requires small { N ≤ 8192 }
    requires room { 4 * length records.now ≤ N }
    ensures { record { answer = answer_of result; grid = grid.new; scratch = scratch.new } ≡ encode (level_of settings.level) settings.minversion.value settings.maxversion.value (mask_number settings.mask) settings.boostecl text.now (parts records.now) grid.old scratch.old }
{
    let mut numbers = [0u64; N];
    unpack(records, &mut numbers);
    let end = 4 * records.len();
    encoder::encode_records(text, &numbers[..end], settings, grid, scratch)
}

// Returns a label of the given records over one text, with the given encoding parameters.
// The smallest possible version within the given range is automatically chosen; with boostecl the level
// may be higher than the one asked for, if that does not take a higher version. Mask 8 is the automatic choice.
// Two lengths of the array of numbers: few records do not pay for zeroing the long one.
pub fn encode_segments_advanced(
    text: &[u8],
    records: &[Record],
    level: u8,
    minversion: u8,
    maxversion: u8,
    mask: u8,
    boostecl: bool,
    grid: &mut [u8],
    scratch: &mut [u8],
) -> Result<Label, Refusal>
    ensures { record { answer = answer_of result; grid = grid.new; scratch = scratch.new } ≡ encode level minversion maxversion mask boostecl text.now (parts records.now) grid.old scratch.old }
{
    let settings = Settings::new(level, minversion, maxversion, mask, boostecl)?;
    let n = records.len();
    if n <= 128 {
        encode_in::<512>(text, records, settings, grid, scratch)
    } else if n <= 2048 {
        encode_in::<8192>(text, records, settings, grid, scratch)
    } else {
        Err(Refusal::Records(n))
    }
}

/*---- Numbers to records ----*/

// Writes as many records of the numbers as there is room for, from the start on.
// (A struct literal, and no `From`: a part of a slice is no array of four, so that a conversion would be longer.)
fn pack(numbers: &[u64], records: &mut [Record])
    requires { 4 * length records.old ≤ length numbers.now }
    ensures { records.new ≡ packed (length records.old) numbers.now records.old }
{
    for (i, r) in records.iter_mut().enumerate() {
        let k = 4 * i;
        *r = Record {
            kind: numbers[k],
            start: numbers[k + 1],
            length: numbers[k + 2],
            assign: numbers[k + 3],
        };
    }
}

// Reads by way of an array of N numbers. No label has more than 2,048 records.
fn read_in<const N: usize>(
    grid: &[u8],
    size: usize,
    text: &mut [u8],
    records: &mut [Record],
    scratch: &mut [u8],
) -> Result<reader::Label, reader::Refusal>
    requires small { N ≤ 8192 }
    requires room { 4 * min (length records.old) 2048 ≤ N }
    ensures read { Reads grid.now size text.old (parts records.old) scratch.old (read_of result text.new (parts records.new) scratch.new) }
{
    let mut numbers = [0u64; N];
    let end = 4 * records.len().min(2048);
    let label = reader::read(grid, size, text, &mut numbers[..end], scratch)?;
    pack(&numbers, &mut records[..label.records]);
    Ok(label)
}

// Reads the label that a grid shows: its characters into text and its records into records, from the start of both on.
// Two lengths of the array of numbers, as above.
pub fn read(
    grid: &[u8],
    size: usize,
    text: &mut [u8],
    records: &mut [Record],
    scratch: &mut [u8],
) -> Result<reader::Label, reader::Refusal>
    ensures { Reads grid.now size text.old (parts records.old) scratch.old (read_of result text.new (parts records.new) scratch.new) }
{
    if records.len() <= 128 {
        read_in::<512>(grid, size, text, records, scratch)
    } else {
        read_in::<8192>(grid, size, text, records, scratch)
    }
}
