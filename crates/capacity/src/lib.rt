// How much a version holds: the two tables, raw modules, data codewords and the places of alignment patterns.
#![tactic(auto)]

ghost use Rattle.std.specs.Prelude.{◌≡◌, [], ◌++◌, ◌-◌, length, get_or, replicate};
ghost use Rattle.standard.specs.Sizes.{raw_modules, check_bytes, blocks, data_codewords};
ghost use Rattle.standard.specs.Patterns.{alignment_step, alignment};
ghost use Rattle.types.specs.Numbers.{level_of};

mod tables;

use tables::{ECC_CODEWORDS_PER_BLOCK, NUM_ERROR_CORRECTION_BLOCKS};
use types::{QrCodeEcc, Version};

// Returns an entry from the given table based on the given values.
#[tactic(auto, using(types::specs::Laws::level_le))]
fn table_get(table: &[[u8; 41]; 4], ver: Version, ecl: QrCodeEcc) -> usize
    ensures { result ≡ get_or (get_or table.now (level_of ecl) []) ver.value 0 }
{
    table[ecl.ordinal()][ver.value() as usize] as usize
}

// Returns the number of check bytes in each block.
#[tactic(auto, unfolding(standard::specs::Sizes::check_bytes, standard::specs::Tables::check_table))]
pub fn ecc_codewords_per_block(ver: Version, ecl: QrCodeEcc) -> usize
    ensures { result ≡ check_bytes ver.value (level_of ecl) }
{
    table_get(&ECC_CODEWORDS_PER_BLOCK, ver, ecl)
}

// Returns the number of blocks.
#[tactic(auto, unfolding(standard::specs::Sizes::blocks, standard::specs::Tables::block_table))]
pub fn num_error_correction_blocks(ver: Version, ecl: QrCodeEcc) -> usize
    ensures { result ≡ blocks ver.value (level_of ecl) }
{
    table_get(&NUM_ERROR_CORRECTION_BLOCKS, ver, ecl)
}

// Returns the number of data bits that can be stored in a QR Code of the given version number, after
// all function modules are excluded. This includes remainder bits, so it might not be a multiple of 8.
// The result is in the range [208, 29648].
#[tactic(auto, using(crate::specs::Raw::raw_one, crate::specs::Raw::raw_small, crate::specs::Raw::raw_large))]
pub fn get_num_raw_data_modules(ver: Version) -> usize
    ensures { result ≡ raw_modules ver.value }
{
    let v = ver.value() as usize;
    let mut result = (16 * v + 128) * v + 64;
    if 2 <= v {
        let numalign = v / 7 + 2;
        result -= (25 * numalign - 10) * numalign - 55;
        if 7 <= v {
            result -= 36;
        }
    }
    result
}

// Returns the number of 8-bit data (i.e. not error correction) codewords contained in any
// QR Code of the given version number and error correction level, with remainder bits discarded.
#[tactic(auto, using(crate::specs::Raw::check_fits, crate::specs::Raw::data_words_lem, types::specs::Laws::level_le))]
pub fn get_num_data_codewords(ver: Version, ecl: QrCodeEcc) -> usize
    ensures { result ≡ data_codewords ver.value (level_of ecl) }
{
    get_num_raw_data_modules(ver) / 8
        - ecc_codewords_per_block(ver, ecl) * num_error_correction_blocks(ver, ecl)
}

// Returns how far alignment positions are apart.
#[tactic(auto, using(crate::specs::Positions::step_32, crate::specs::Positions::step_other, crate::specs::Positions::quotient_le))]
fn alignment_step(ver: Version) -> usize
    ensures { result ≡ alignment_step ver.value }
{
    let v = ver.value() as usize;
    if v == 32 {
        return 26;
    }
    let numalign = v / 7 + 2;
    (4 * v + 2 * numalign + 1) / (2 * numalign - 2) * 2
}

// Positions of alignment patterns: the first `count` of `at`; zeros follow.
// An array and a count, and not a list, since memory is fixed (no heap) and `get_alignment_pattern_positions`
// promises its whole array.
#[derive(Clone, Copy)]
pub struct Positions {
    pub count: usize,
    pub at: [usize; 7],
}

// Returns an ascending list of positions of alignment patterns for this version number.
// Each position is in the range [0,177), and are used on both the x and y axes.
#[tactic(auto, using(crate::specs::Positions::stored_first, crate::specs::Positions::position_le, crate::specs::Positions::stored_next, crate::specs::Positions::stored_end))]
pub fn get_alignment_pattern_positions(ver: Version) -> Positions
    ensures { (result.count ≡ length (alignment ver.value)) × (result.at ≡ alignment ver.value ++ replicate (7 - result.count) 0) }
{
    let v = ver.value() as usize;
    let mut at = [0; 7];
    if v == 1 {
        return Positions { count: 0, at };
    }
    let numalign = v / 7 + 2;
    let step = alignment_step(ver);
    at[0] = 6;
    for i in 1..numalign {
        at[i] = 4 * v + 10 - (numalign - 1 - i) * step;
    }
    Positions {
        count: numalign,
        at,
    }
}
