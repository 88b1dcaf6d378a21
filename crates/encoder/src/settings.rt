// The settings of a label: the numbers that a caller gives for level, versions and mask, as what they stand for.
ghost use Rattle.std.specs.Prelude.{◌≡◌, ◌≤◌};
ghost use Rattle.types.specs.declared.NoLevel.{NoLevel};
ghost use Rattle.encoder.specs.declared.Refusal.{Refusal};
ghost use Rattle.encoder.specs.declared.Refusal.TheVariants.{Level};
ghost use Rattle.encoder.specs.Masks.{NamesMask};

use super::Refusal;
use types::{Mask, NoLevel, QrCodeEcc, Version};

// Encoding parameters that refusals 1 to 3 do not apply to. With boostecl the level may become a higher one.
#[derive(Clone, Copy, PartialEq, Eq)]
pub struct Settings {
    pub level: QrCodeEcc,
    pub minversion: Version,
    pub maxversion: Version,
    // None is the automatic choice.
    pub mask: Option<Mask>,
    pub boostecl: bool,
    pub ghost ordered: { minversion.value ≤ maxversion.value },
}

impl Settings {
    ghost use Rattle.encoder.specs.Settings.{Asked};

    // Returns the settings that the numbers stand for, or refusal 1, 2 or 3, in this order.
    pub fn new(
        level: u8,
        minversion: u8,
        maxversion: u8,
        mask: u8,
        boostecl: bool,
    ) -> Result<Settings, Refusal>
        ensures { Asked level minversion maxversion mask boostecl result }
    {
        let versions = Refusal::Versions {
            first: minversion,
            last: maxversion,
        };
        let level = QrCodeEcc::try_from(level)?;
        let minversion = Version::new(minversion).ok_or(versions)?;
        let maxversion = Version::new(maxversion).ok_or(versions)?;
        if maxversion.value() < minversion.value() {
            return Err(versions);
        }
        let mask = mask_of(mask)?;
        Ok(Settings {
            level,
            minversion,
            maxversion,
            mask,
            boostecl,
        })
    }
}

impl From<NoLevel> for Refusal {
    ghost from_gives = { λ n e. e ≡ Level n.0 };

    // Refusal 1 tells the number.
    fn from(n: NoLevel) -> Refusal {
        Refusal::Level(n.0)
    }
}

// The mask of a number, which is none for 8, the automatic choice.
pub(crate) fn mask_of(mask: u8) -> Result<Option<Mask>, Refusal>
    ensures { NamesMask mask result }
{
    if mask == 8 {
        return Ok(None);
    }
    let m = Mask::new(mask).ok_or(Refusal::MaskNumber(mask))?;
    Ok(Some(m))
}
