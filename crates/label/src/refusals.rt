// The words of refusals.
use encoder::Refusal;
use streams::say;
use terminal::options::Options;
use terminal::text::letter;

// Says a refusal's number, and words before and after one detail.
fn one(rt: &impl Print, refusal: u8, before: &str, n: usize, after: &str) {
    say!(rt; "refusal ", refusal, ": ", before, n, after, "\n");
}

// Says why a text has no label, with the refusal's number and details, where the options are asked for.
pub(crate) fn refused(rt: &impl Print, r: Refusal, o: Options) {
    let version = o.last as usize;
    let level = char::from(letter(o.level as usize));
    match r {
        Refusal::Level(n) => one(rt, 1, "", n as usize, " is no error correction level"),
        Refusal::Versions { first, last } => {
            say!(rt; "refusal 2: versions ", first, " to ", last, " are no range within 1 to 40\n");
        }
        Refusal::MaskNumber(n) => one(rt, 3, "", n as usize, " is no mask"),
        Refusal::Records(n) => one(rt, 4, "", n, " segments are too many"),
        Refusal::Record(n) => one(rt, 5, "segment ", n, " is not a good one"),
        Refusal::SegmentTooLong => one(
            rt,
            6,
            "the text has more characters than the length field of version ",
            version,
            " counts",
        ),
        Refusal::DataOverCapacity { bits, capacity } => {
            say!(rt;
                "refusal 7: the text needs ", bits, " bits, and version ", version, " at level ", level, " holds ", capacity, "\n"
            );
        }
        Refusal::GridShort(n) => one(
            rt,
            8,
            "the grid is shorter than the ",
            n,
            " modules of the label",
        ),
        Refusal::ScratchShort(n) => one(rt, 9, "the scratch memory is shorter than ", n, " bytes"),
        Refusal::DataLength(n) => one(rt, 10, "the label takes ", n, " data codewords"),
    }
}

// Says why modules are not read, with the refusal's number and details.
pub(crate) fn unread(rt: &impl Print, r: reader::Refusal) {
    match r {
        reader::Refusal::Side(n) => one(rt, 11, "", n, " modules are the side of no label"),
        reader::Refusal::Length(n) => one(rt, 12, "a label of this side has ", n, " modules"),
        reader::Refusal::Byte(n) => one(
            rt,
            13,
            "module ",
            n,
            ", counted from 0, is neither 0 nor 1",
        ),
        reader::Refusal::Scratch => one(
            rt,
            9,
            "the scratch memory is shorter than ",
            40000,
            " bytes",
        ),
        reader::Refusal::NoLabel => {
            say!(rt; "refusal 14: no label has these modules\n");
        }
        reader::Refusal::Text(n) => one(
            rt,
            15,
            "the text has ",
            n,
            " bytes, more than there is room for",
        ),
        reader::Refusal::Records(n) => one(
            rt,
            16,
            "the label has ",
            n,
            " segments, more than there is room for",
        ),
    }
}
