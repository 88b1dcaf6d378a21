// The reader's answers as numbers.
ghost use Rattle.std.specs.Prelude.{◌≡◌};
ghost use Rattle.standard.specs.Read.{unread as unread_by};
ghost use Rattle.reader.specs.Answers.{refusal_of, answer_of};
ghost use Rattle.gatemurmur.specs.Told.{unread_as, reading_as};

use super::Reading;
use reader::{Label, Refusal};

// The answer of a refusal; the reader's have one detail at most.
fn unread(number: u32, first: u64) -> Reading
    ensures { result ≡ unread_as number first 0 }
{
    Reading {
        number,
        version: 0,
        level: 0,
        mask: 0,
        records: 0,
        text: 0,
        first,
        second: 0,
    }
}

// Each refusal under its number, with its detail.
impl From<Refusal> for Reading {
    ghost from_gives = { λ e a. a ≡ reading_as (unread_by (refusal_of e)) };

    fn from(e: Refusal) -> Reading {
        match e {
            Refusal::Side(size) => unread(11, size as u64),
            Refusal::Length(area) => unread(12, area as u64),
            Refusal::Byte(place) => unread(13, place as u64),
            Refusal::Scratch => unread(9, 40000),
            Refusal::NoLabel => unread(14, 0),
            Refusal::Text(length) => unread(15, length as u64),
            Refusal::Records(count) => unread(16, count as u64),
        }
    }
}

// The answer of an outcome: a label's numbers with no details, or a refusal's.
impl From<Result<Label, Refusal>> for Reading {
    ghost from_gives = { λ o a. a ≡ reading_as (answer_of o) };

    fn from(o: Result<Label, Refusal>) -> Reading {
        match o {
            Ok(label) => Reading {
                number: 0,
                version: label.version.value(),
                level: label.level.ordinal() as u8,
                mask: label.mask.value(),
                records: label.records as u64,
                text: label.text as u64,
                first: 0,
                second: 0,
            },
            Err(e) => Reading::from(e),
        }
    }
}
