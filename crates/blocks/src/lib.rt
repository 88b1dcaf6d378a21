// Check bytes of each block, all codewords from the data codewords, and the data codewords back out of all codewords.
#![tactic(auto)]

mod shares; // shares.rt: how the bytes are shared out among the blocks, and the bytes of blocks in turn

ghost use Rattle.std.specs.Prelude.{◌≡◌, ◌+◌, ◌*◌, length};
ghost use Rattle.standard.specs.Sizes.{raw_codewords, data_codewords};
ghost use Rattle.standard.specs.Blocks.{all_words};
ghost use Rattle.types.specs.Numbers.{level_of};
ghost use Rattle.blocks.specs.Shape.{data_in};
ghost use Rattle.blocks.specs.Undo.{data_of};
ghost use Rattle.blocks.specs.Checks.{checks_in};
ghost use Rattle.blocks.specs.SharedOut.{SharedOut};

use field::Divisor;
use shares::Shares;
use types::{QrCodeEcc, Version};

// Puts into `out` all codewords: the given data codewords with the error correction codewords
// of each block, interleaved.
pub fn add_ecc_and_interleave(ver: Version, ecl: QrCodeEcc, data: &[u8], out: &mut [u8])
    requires data_len { (length «data».now ≡ data_codewords ver.value (level_of ecl)) × (length out.old ≡ raw_codewords ver.value) }
    ensures { out.new ≡ all_words ver.value (level_of ecl) «data».now }
{
    let shares = share_out(ver, ecl);
    let mut room: [u8; 2430] = [0; 2430];
    let checks = &mut room[..shares.numblocks * shares.blockecclen];
    all_checks(shares, data, checks);
    shares.interleave(data, &mut out[..data.len()]);
    shares
        .of_checks()
        .interleave(checks, &mut out[data.len()..]);
}

// Puts into `out` the data codewords, taken out of all codewords: the way back.
pub fn data_words(ver: Version, ecl: QrCodeEcc, all: &[u8], out: &mut [u8])
    requires all_len { (length all.now ≡ raw_codewords ver.value) × (length out.old ≡ data_codewords ver.value (level_of ecl)) }
    ensures { out.new ≡ data_of ver.value (level_of ecl) all.now }
{
    share_out(ver, ecl).take_data(all, out);
}

// Calculates how the data codewords are shared out among the blocks.
fn share_out(ver: Version, ecl: QrCodeEcc) -> Shares
    ensures { SharedOut ver.value (level_of ecl) result.numblocks result.shortdatlen result.numshortblocks result.blockecclen }
{
    let numblocks = capacity::num_error_correction_blocks(ver, ecl);
    let blockecclen = capacity::ecc_codewords_per_block(ver, ecl);
    let rawcodewords = capacity::get_num_raw_data_modules(ver) / 8;
    Shares {
        numblocks,
        blockecclen,
        numshortblocks: numblocks - rawcodewords % numblocks,
        shortdatlen: rawcodewords / numblocks - blockecclen,
    }
}

// Puts the check bytes of all blocks into `out`, one block after the other: what the divisor leaves of each.
fn all_checks(shares: Shares, data: &[u8], out: &mut [u8])
    requires { (length «data».now ≡ data_in shares.numblocks shares.shortdatlen shares.numshortblocks) × (length out.old ≡ shares.numblocks * shares.blockecclen) }
    ensures { out.new ≡ checks_in shares.blockecclen shares.shortdatlen shares.numshortblocks «data».now shares.numblocks }
{
    let mut room: [u8; 30] = [0; 30];
    let rsdiv = &mut room[..shares.blockecclen];
    field::reed_solomon_compute_divisor(rsdiv);
    let divisor = Divisor::new(rsdiv);
    for i in 0..shares.numblocks {
        let start = shares.block_start(i);
        let end = start + shares.block_length(i);
        let at = i * shares.blockecclen;
        field::reed_solomon_compute_remainder(
            &data[start..end],
            &divisor,
            &mut out[at..at + shares.blockecclen],
        );
    }
}
