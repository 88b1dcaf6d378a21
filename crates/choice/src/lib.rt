// A label drawn with the mask that is asked for, or with the automatic choice: the lowest mask of least penalty.
// (A grid and its packed lines stay lent slices, as in `modules`, and each contract says what they hold.)
#![tactic(auto)]

ghost use Rattle.std.specs.Prelude.{◌≡◌, ◌*◌, ◌≤◌, length};
ghost use Rattle.standard.specs.Sizes.{side};
ghost use Rattle.standard.specs.Format.{format_word};
ghost use Rattle.standard.specs.Grid.{content, grid as grid_of};
ghost use Rattle.standard.specs.Penalty.{penalty};
ghost use Rattle.standard.specs.Choice.{chosen};
ghost use Rattle.laws.specs.Grid.{Square, paint};
ghost use Rattle.types.specs.Numbers.{level_of};
ghost use Rattle.types.specs.Masks.{mask_number};
ghost use Rattle.patterns.specs.Layers.{formats};
ghost use Rattle.penalty.specs.Lines.{colours};
ghost use Rattle.packed.specs.Stored.{HeldRows, HeldColumns};
ghost use Rattle.choice.specs.Candidates.{candidate, Chooses};

use types::{Mask, QrCodeEcc, Version};

// Scores a candidate on the whole grid, with its own mask and its own format bits. The format bits are drawn; the mask is laid over the packed lines alone.
fn score_mask(
    grid: &mut [u8],
    rows: &[u64],
    columns: &[u64],
    ver: Version,
    ecl: QrCodeEcc,
    msk: Mask,
) -> u32
    requires square { Square grid.old (side ver.value) }
    requires held_rows { HeldRows (side ver.value) grid.old rows.now × HeldColumns (side ver.value) grid.old columns.now }
    ensures { (result ≡ penalty (side ver.value) (colours (candidate ver.value (level_of ecl) msk.value grid.old))) × (grid.new ≡ paint (side ver.value) (formats (side ver.value) (format_word (level_of ecl) msk.value)) grid.old) }
{
    patterns::draw_format_bits(grid, ver, ecl, msk);
    packed::get_penalty_score(
        grid,
        rows,
        columns,
        patterns::size_of(ver),
        msk.value() as usize,
    )
}

// Automatically chooses the best mask of a grid that is drawn without one and whose rows and columns are packed.
fn choose_best(grid: &mut [u8], rows: &[u64], columns: &[u64], ver: Version, ecl: QrCodeEcc) -> Mask
    requires square { Square grid.old (side ver.value) }
    requires held_rows { HeldRows (side ver.value) grid.old rows.now × HeldColumns (side ver.value) grid.old columns.now }
    ensures { Chooses ver.value (level_of ecl) 8 grid.old grid.new result.value }
{
    let mut msk = types::mask_at(0);
    let mut minpenalty = score_mask(grid, rows, columns, ver, ecl, msk);
    for i in 1..8 {
        let mask = types::mask_at(i);
        let penalty = score_mask(grid, rows, columns, ver, ecl, mask);
        if penalty < minpenalty {
            msk = mask;
            minpenalty = penalty;
        }
    }
    msk
}

// Packs the rows and columns, and chooses.
fn choose_packed(
    grid: &mut [u8],
    rows: &mut [u64],
    columns: &mut [u64],
    ver: Version,
    ecl: QrCodeEcc,
) -> Mask
    requires square { Square grid.old (side ver.value) }
    requires room { (length rows.old ≡ 6 * side ver.value) × (length columns.old ≡ 6 * side ver.value) }
    ensures { Chooses ver.value (level_of ecl) 8 grid.old grid.new result.value }
{
    let size = patterns::size_of(ver);
    packed::pack_rows(grid, size, rows);
    packed::pack_columns(grid, size, columns);
    choose_best(grid, rows, columns, ver, ecl)
}

// Automatically chooses the best mask of a grid that is drawn without one.
fn choose_mask(grid: &mut [u8], ver: Version, ecl: QrCodeEcc) -> Mask
    requires square { Square grid.old (side ver.value) }
    ensures { Chooses ver.value (level_of ecl) 8 grid.old grid.new result.value }
{
    let mut rows = [0u64; 1062];
    let mut columns = [0u64; 1062];
    let words = 6 * patterns::size_of(ver);
    choose_packed(grid, &mut rows[..words], &mut columns[..words], ver, ecl)
}

// The mask that is asked for or, where there is none, the automatic choice.
fn mask_for(grid: &mut [u8], ver: Version, ecl: QrCodeEcc, msk: Option<Mask>) -> Mask
    requires square { Square grid.old (side ver.value) }
    ensures { Chooses ver.value (level_of ecl) (mask_number msk) grid.old grid.new result.value }
{
    match msk {
        Some(mask) => mask,
        None => choose_mask(grid, ver, ecl),
    }
}

// Draws the whole grid of codewords, with the mask that is asked for or, where there is none, with the automatic choice.
pub fn draw_masked(
    grid: &mut [u8],
    ver: Version,
    ecl: QrCodeEcc,
    msk: Option<Mask>,
    codewords: &[u8],
) -> Mask
    requires square { Square grid.old (side ver.value) }
    requires codewords_len { length codewords.now ≤ 4096 }
    ensures { (result.value ≡ chosen ver.value (level_of ecl) (mask_number msk) (content ver.value codewords.now)) × (grid.new ≡ grid_of ver.value (level_of ecl) result.value (content ver.value codewords.now)) }
{
    modules::draw_modules(grid, ver, ecl, types::mask_at(0), codewords);
    let mask = mask_for(grid, ver, ecl, msk);
    modules::apply_mask(grid, ver, mask);
    patterns::draw_format_bits(grid, ver, ecl, mask);
    modules::finish(grid);
    mask
}
