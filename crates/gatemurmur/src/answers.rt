// The encoder's answers as numbers.
ghost use Rattle.std.specs.Prelude.{◌≡◌};
ghost use Rattle.standard.specs.Encode.{refused as refused_by};
ghost use Rattle.encoder.specs.Answers.{number_of, answer_of};
ghost use Rattle.gatemurmur.specs.Told.{refused_as, answer_as};

use super::Answer;
use encoder::{Label, Refusal};

// The answer of a refusal.
fn refused(number: u32, first: u64, second: u64) -> Answer
    ensures { result ≡ refused_as number first second }
{
    Answer {
        number,
        version: 0,
        level: 0,
        mask: 0,
        first,
        second,
    }
}

// Each refusal under its number, with its details.
impl From<Refusal> for Answer {
    ghost from_gives = { λ e a. a ≡ answer_as (refused_by (number_of e)) };

    fn from(e: Refusal) -> Answer {
        match e {
            Refusal::Level(level) => refused(1, level as u64, 0),
            Refusal::Versions { first, last } => refused(2, first as u64, last as u64),
            Refusal::MaskNumber(mask) => refused(3, mask as u64, 0),
            Refusal::Records(count) => refused(4, count as u64, 0),
            Refusal::Record(index) => refused(5, index as u64, 0),
            Refusal::SegmentTooLong => refused(6, 0, 0),
            Refusal::DataOverCapacity { bits, capacity } => refused(
                7,
                bits as u64,
                capacity as u64,
            ),
            Refusal::GridShort(area) => refused(8, area as u64, 0),
            Refusal::ScratchShort(needed) => refused(9, needed as u64, 0),
            Refusal::DataLength(right) => refused(10, right as u64, 0),
        }
    }
}

// The answer of an outcome: a label's numbers with no details, or a refusal's.
impl From<Result<Label, Refusal>> for Answer {
    ghost from_gives = { λ o a. a ≡ answer_as (answer_of o) };

    fn from(o: Result<Label, Refusal>) -> Answer {
        match o {
            Ok(label) => Answer {
                number: 0,
                version: label.version.value(),
                level: label.level.ordinal() as u8,
                mask: label.mask.value(),
                first: 0,
                second: 0,
            },
            Err(e) => Answer::from(e),
        }
    }
}
