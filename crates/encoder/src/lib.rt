// The encoder: planning, drawing and the public entries. No entry asks anything of its caller: every input gets a label or one refusal.
#![tactic(auto)]

ghost use Rattle.std.specs.Prelude.{◌≡◌, ◌≤◌};
ghost use Rattle.standard.specs.Encode.{encode, encode_text, encode_bytes, encode_codewords};
ghost use Rattle.types.specs.Numbers.{level_of};
ghost use Rattle.types.specs.Masks.{mask_number};
ghost use Rattle.segments.specs.Records.{parts_of};
ghost use Rattle.encoder.specs.Answers.{answer_of};
ghost use Rattle.encoder.specs.Entries.{numbers_in};

mod draw; // draw.rt: data codewords, blocks, modules, mask
mod plan; // plan.rt: version and level for a list of records
mod settings; // settings.rt: what the numbers of an entry stand for

pub use settings::Settings;
use types::{Mask, QrCodeEcc, TextKind, Version};

// Why there is no label; document 01's refusals 1 to 10 in their order.
#[derive(Clone, Copy, PartialEq, Eq)]
pub enum Refusal {
    Level(u8),
    Versions { first: u8, last: u8 },
    MaskNumber(u8),
    Records(usize),
    Record(usize),
    SegmentTooLong,
    DataOverCapacity { bits: usize, capacity: usize },
    GridShort(usize),
    ScratchShort(usize),
    DataLength(usize),
}

// Which label was drawn.
#[derive(Clone, Copy, PartialEq, Eq)]
pub struct Label {
    pub version: Version,
    pub level: QrCodeEcc,
    pub mask: Mask,
}

// Returns a label of the given records over one text, with the given encoding parameters.
// The smallest possible version within the given range is automatically chosen; with boostecl the level
// may be higher than the one asked for, if that does not take a higher version. Mask 8 is the automatic choice.
#[tactic(auto, using(crate::specs::Entries::asked_refused))]
pub fn encode_segments_advanced(
    text: &[u8],
    records: &[u64],
    level: u8,
    minversion: u8,
    maxversion: u8,
    mask: u8,
    boostecl: bool,
    grid: &mut [u8],
    scratch: &mut [u8],
) -> Result<Label, Refusal>
    ensures { record { answer = answer_of result; grid = grid.new; scratch = scratch.new } ≡ encode level minversion maxversion mask boostecl text.now (parts_of records.now) grid.old scratch.old }
{
    let settings = Settings::new(level, minversion, maxversion, mask, boostecl)?;
    encode_records(text, records, settings, grid, scratch)
}

// The same with settings that are known to be right.
#[tactic(auto, unfolding(standard::specs::Encode::encode, standard::specs::Encode::draw_plan))]
pub fn encode_records(
    text: &[u8],
    records: &[u64],
    settings: Settings,
    grid: &mut [u8],
    scratch: &mut [u8],
) -> Result<Label, Refusal>
    ensures { record { answer = answer_of result; grid = grid.new; scratch = scratch.new } ≡ encode (level_of settings.level) settings.minversion.value settings.maxversion.value (mask_number settings.mask) settings.boostecl text.now (parts_of records.now) grid.old scratch.old }
{
    let plan = plan::make_plan(settings, text, records)?;
    draw::draw_plan(text, records, plan, settings.mask, grid, scratch)
}

// Returns a label of the given text: Numeric if every byte is a digit, else Alphanumeric if every byte stands in the
// 45-character set, else Byte. Empty text has no segment; any bytes are accepted.
pub fn encode_text(
    text: &[u8],
    level: u8,
    minversion: u8,
    maxversion: u8,
    mask: u8,
    boostecl: bool,
    grid: &mut [u8],
    scratch: &mut [u8],
) -> Result<Label, Refusal>
    ensures { record { answer = answer_of result; grid = grid.new; scratch = scratch.new } ≡ encode_text level minversion maxversion mask boostecl text.now grid.old scratch.old }
{
    let seg = segments::records::whole_record(segments::text_kind(text).number(), text);
    let n = if text.is_empty() { 0 } else { 4 };
    encode_segments_advanced(
        text,
        &seg[..n],
        level,
        minversion,
        maxversion,
        mask,
        boostecl,
        grid,
        scratch,
    )
}

// Returns a label of the given binary data, always as one Byte segment.
pub fn encode_binary(
    data: &[u8],
    level: u8,
    minversion: u8,
    maxversion: u8,
    mask: u8,
    boostecl: bool,
    grid: &mut [u8],
    scratch: &mut [u8],
) -> Result<Label, Refusal>
    ensures { record { answer = answer_of result; grid = grid.new; scratch = scratch.new } ≡ encode_bytes level minversion maxversion mask boostecl «data».now grid.old scratch.old }
{
    let seg = segments::records::whole_record(TextKind::Byte.number(), data);
    encode_segments_advanced(
        data, &seg, level, minversion, maxversion, mask, boostecl, grid, scratch,
    )
}

// Returns a label of the given data codewords, at the given version and level. Mask 8 is the automatic choice.
#[tactic(auto, unfolding(standard::specs::Encode::encode_codewords))]
pub fn encode_codewords(
    version: u8,
    level: u8,
    data: &[u8],
    mask: u8,
    grid: &mut [u8],
    scratch: &mut [u8],
) -> Result<Label, Refusal>
    ensures { record { answer = answer_of result; grid = grid.new; scratch = scratch.new } ≡ encode_codewords level version mask «data».now grid.old scratch.old }
{
    let ecl = QrCodeEcc::try_from(level)?;
    let ver = Version::new(version).ok_or(Refusal::Versions {
        first: version,
        last: version,
    })?;
    let msk = settings::mask_of(mask)?;
    let n = capacity::get_num_data_codewords(ver, ecl);
    if data.len() != n {
        return Err(Refusal::DataLength(n));
    }
    draw::draw(ver, ecl, msk, data, grid, scratch)
}
