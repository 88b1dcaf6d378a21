// The number types of the original, so that a mask can't be passed as a version, its levels and its modes.
#![tactic(auto)]

ghost use Rattle.std.specs.Prelude.{◌≡◌, ◌≤◌, ◌<◌, option_map, MatchOption};
ghost use Rattle.standard.specs.Format.{level_bits};
ghost use Rattle.standard.specs.Kinds.{mode_bits, count_width};
ghost use Rattle.types.specs.Numbers.{level_of, kind_of, text_kind_of, new_version, new_mask};
ghost use Rattle.types.specs.Levels.{NamesLevel};

// The error correction level in a QR Code symbol.
#[derive(Clone, Copy, PartialEq, Eq)]
pub enum QrCodeEcc {
    // The QR Code can tolerate about  7% erroneous codewords.
    Low,
    // The QR Code can tolerate about 15% erroneous codewords.
    Medium,
    // The QR Code can tolerate about 25% erroneous codewords.
    Quartile,
    // The QR Code can tolerate about 30% erroneous codewords.
    High,
}

impl QrCodeEcc {
    // Returns an unsigned 2-bit integer (in the range 0 to 3).
    pub fn ordinal(self) -> usize
        ensures { result ≡ level_of self }
    {
        match self {
            QrCodeEcc::Low => 0,
            QrCodeEcc::Medium => 1,
            QrCodeEcc::Quartile => 2,
            QrCodeEcc::High => 3,
        }
    }

    // Returns an unsigned 2-bit integer (in the range 0 to 3).
    #[tactic(auto, unfolding(standard::specs::Format::level_bits))]
    pub fn format_bits(self) -> u8
        ensures { result ≡ level_bits (level_of self) }
    {
        match self {
            QrCodeEcc::Low => 1,
            QrCodeEcc::Medium => 0,
            QrCodeEcc::Quartile => 3,
            QrCodeEcc::High => 2,
        }
    }
}

// A number that is no level's.
#[derive(Clone, Copy, PartialEq, Eq)]
pub struct NoLevel(pub u8);

impl TryFrom<u8> for QrCodeEcc {
    type Error = NoLevel;

    ghost try_from_gives = { NamesLevel };

    // The level of a number in the range 0 to 3; there is none above.
    fn try_from(n: u8) -> Result<QrCodeEcc, NoLevel> {
        match n {
            0 => Ok(QrCodeEcc::Low),
            1 => Ok(QrCodeEcc::Medium),
            2 => Ok(QrCodeEcc::Quartile),
            3 => Ok(QrCodeEcc::High),
            _ => Err(NoLevel(n)),
        }
    }
}

// Describes how a segment's data bits are interpreted.
#[derive(Clone, Copy, PartialEq, Eq)]
pub enum QrSegmentMode {
    Numeric,
    Alphanumeric,
    Byte,
    Eci,
}

impl QrSegmentMode {
    // Returns an unsigned 4-bit integer value (range 0 to 15)
    // representing the mode indicator bits for this mode object.
    pub fn mode_bits(self) -> u32
        ensures { result ≡ mode_bits (kind_of self) }
    {
        match self {
            QrSegmentMode::Numeric => 0x1,
            QrSegmentMode::Alphanumeric => 0x2,
            QrSegmentMode::Byte => 0x4,
            QrSegmentMode::Eci => 0x7,
        }
    }

    // Returns the bit width of the character count field for a segment in this mode
    // in a QR Code at the given version number. The result is in the range [0, 16].
    pub fn num_char_count_bits(self, ver: Version) -> u8
        ensures { result ≡ count_width ver.value (kind_of self) }
    {
        let class = ((ver.value() + 7) / 17) as usize;
        match self {
            QrSegmentMode::Numeric => NUMERIC_WIDTHS[class],
            QrSegmentMode::Alphanumeric => ALPHANUMERIC_WIDTHS[class],
            QrSegmentMode::Byte => BYTE_WIDTHS[class],
            QrSegmentMode::Eci => 0,
        }
    }
}

// Count widths for versions 1 to 9, 10 to 26 and 27 to 40.
const NUMERIC_WIDTHS: [u8; 3] = [10, 12, 14];

const ALPHANUMERIC_WIDTHS: [u8; 3] = [9, 11, 13];

const BYTE_WIDTHS: [u8; 3] = [8, 16, 16];

// The kinds of segments that have characters.
#[derive(Clone, Copy, PartialEq, Eq)]
pub enum TextKind {
    Numeric,
    Alphanumeric,
    Byte,
}

impl TextKind {
    // The kind with the given number; there is none above 2.
    pub fn new(number: u64) -> Option<TextKind>
        ensures { MatchOption result (2 < number) (λ kind. text_kind_of kind ≡ number) }
    {
        match number {
            0 => Some(TextKind::Numeric),
            1 => Some(TextKind::Alphanumeric),
            2 => Some(TextKind::Byte),
            _ => None,
        }
    }

    // Returns the number of the kind in a record.
    pub fn number(self) -> u8
        ensures { result ≡ text_kind_of self }
    {
        match self {
            TextKind::Numeric => 0,
            TextKind::Alphanumeric => 1,
            TextKind::Byte => 2,
        }
    }

    // Returns the mode of a segment of this kind.
    pub fn mode(self) -> QrSegmentMode
        ensures { kind_of result ≡ text_kind_of self }
    {
        match self {
            TextKind::Numeric => QrSegmentMode::Numeric,
            TextKind::Alphanumeric => QrSegmentMode::Alphanumeric,
            TextKind::Byte => QrSegmentMode::Byte,
        }
    }
}

// A number between 1 and 40 (inclusive).
#[derive(Clone, Copy, PartialEq, Eq)]
pub struct Version {
    value: u8,
    pub ghost in_range: { (1 ≤ value) × (value ≤ 40) },
}

impl Version {
    // The minimum version number supported in the QR Code Model 2 standard.
    pub const MIN: Version = Version { value: 1 };

    // The maximum version number supported in the QR Code Model 2 standard.
    pub const MAX: Version = Version { value: 40 };

    // Creates a version object from the given number; there is none outside the range [1, 40].
    #[tactic(auto, using(crate::specs::Laws::version_low, crate::specs::Laws::version_high, crate::specs::Laws::version_is))]
    pub fn new(ver: u8) -> Option<Version>
        ensures { option_map (λ v. v.value) result ≡ new_version ver }
    {
        if ver < Version::MIN.value() || Version::MAX.value() < ver {
            return None;
        }
        Some(Version { value: ver })
    }

    // Returns the value, which is in the range [1, 40].
    pub fn value(self) -> u8
        ensures { result ≡ self.value }
    {
        self.value
    }
}

// A number between 0 and 7 (inclusive).
#[derive(Clone, Copy, PartialEq, Eq)]
pub struct Mask {
    value: u8,
    pub ghost in_range: { value ≤ 7 },
}

impl Mask {
    // Creates a mask object from the given number; there is none above 7.
    #[tactic(auto, using(crate::specs::Laws::mask_high, crate::specs::Laws::mask_is))]
    pub fn new(mask: u8) -> Option<Mask>
        ensures { option_map (λ m. m.value) result ≡ new_mask mask }
    {
        if 7 < mask {
            return None;
        }
        Some(Mask { value: mask })
    }

    // Returns the value, which is in the range [0, 7].
    pub fn value(self) -> u8
        ensures { result ≡ self.value }
    {
        self.value
    }
}

// The level of a number that is known to be one. (Where the number may be anything, `try_from` answers.)
pub fn level_at(n: u8) -> QrCodeEcc
    requires { n ≤ 3 }
    ensures { level_of result ≡ n }
{
    match n {
        0 => QrCodeEcc::Low,
        1 => QrCodeEcc::Medium,
        2 => QrCodeEcc::Quartile,
        _ => QrCodeEcc::High,
    }
}

// The version of a number that is known to be one.
pub fn version_at(n: u8) -> Version
    requires { (1 ≤ n) × (n ≤ 40) }
    ensures { result.value ≡ n }
{
    Version { value: n }
}

// The mask of a number that is known to be one.
pub fn mask_at(n: u8) -> Mask
    requires { n ≤ 7 }
    ensures { result.value ≡ n }
{
    Mask { value: n }
}
