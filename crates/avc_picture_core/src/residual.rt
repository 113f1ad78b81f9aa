//! Predicted samples and their residual (8.5.14), 4x4 block by block.
ghost use Rattle.std.specs.Prelude.{◌≡◌, ℕ, ◌+◌, ◌*◌, ◌/◌, ◌^◌, ◌<◌, ◌≤◌, pos, ◌+ℤ◌, false, []};
ghost use Rattle.std.specs.Prelude.{All, slice_index_or};
ghost use Rattle.avc_types.specs.Arithmetic.{◌>>ℤ◌};
ghost use Rattle.avc_types.specs.Macroblock.{total_coeff};
ghost use Rattle.avc_types.specs.MacroblockFields.{residual_of};
ghost use Rattle.avc_neigh.specs.Blocks.{block_x, block_y};
ghost use Rattle.avc_mbsyntax.specs.Ranges.{AreSmall};
ghost use Rattle.avc_transform.specs.Bounds.{IsBelow, AllBelow, matrix};
ghost use Rattle.avc_transform.specs.Residual.{residual4x4, residual4x4_with_dc};
ghost use Rattle.avc_transform.specs.MacroblockResidual.{luma_residual, luma_residual_16x16};
ghost use Rattle.avc_transform.specs.MacroblockResidual.{chroma_residual};
ghost use Rattle.avc_plane.specs.Plane.{HasRectangle};
ghost use Rattle.avc_picture_core.specs.Places.{HasMacroblock};
ghost use Rattle.avc_picture_core.specs.Residuals.{with_residual};

use crate::corner::{first_column, first_row};
use crate::levels::{ChromaLevels, Levels4x4, Levels16x16};
use crate::places::MbPlace;
use avc_plane::Plane;
use avc_transform::{
    add_clip, add_to_row, add_to_square, chroma_dc, clipped_sum, luma_dc, residual_of_dc,
    residual4x4, residual4x4_with_dc,
};
use avc_types::Levels;

/// The quantiser of a block: QP_Y, or QP_C, which reaches less far.
#[derive(Clone, Copy)]
pub(crate) struct Quantiser {
    pub value: u8,

    ghost range: { value ≤ 51 },
}

/// The quantiser of chroma, QP_C (8.5.8).
#[derive(Clone, Copy)]
pub(crate) struct ChromaQuantiser {
    pub value: u8,

    ghost range: { value ≤ 39 },
}

/// The quantisers of a macroblock.
#[derive(Clone, Copy)]
pub(crate) struct Quantisers {
    pub luma: Quantiser,

    pub chroma: ChromaQuantiser,
}

/// Adds a residual to a 4x4 block.
#[inline(always)]
#[tactic(auto, using(crate::proofs::InterTiles::with_block_same))]
fn add_residual4x4<const PAD: usize>(
    plane: &mut Plane<PAD>,
    left: usize,
    top: usize,
    values: &[i32; 16],
)
    requires block { HasRectangle left top 4 4 plane.old }
    requires small { AllBelow 16 (2 ^ 25) values.now }
    ensures { plane.new ≡ with_residual plane.old left top 4 4 (matrix values.now) }
{
    let samples = plane.rectangle::<4, 4, 16>(left, top);
    let sums = add_clip(&samples, values);
    plane.set_rectangle::<4, 4, 16>(left, top, &sums);
}

/// Adds the same residual to each sample of a 4x4 block.
#[inline(always)]
fn add_level4x4<const PAD: usize>(plane: &mut Plane<PAD>, left: usize, top: usize, value: i32)
    requires block { HasRectangle left top 4 4 plane.old }
    requires small { IsBelow (2 ^ 25) value }
    ensures { plane.new ≡ with_residual plane.old left top 4 4 (λ x y. value) }
{
    let mut samples = plane.rectangle::<4, 4, 16>(left, top);
    for i in 0..16 {
        samples[i] = clipped_sum(samples[i], value);
    }
    plane.set_rectangle::<4, 4, 16>(left, top, &samples);
}

/// Adds to each of four 4x4 blocks beside one another a residual that is one value.
#[inline(always)]
fn add_levels_to_row<const PAD: usize>(
    plane: &mut Plane<PAD>,
    left: usize,
    top: usize,
    values: [i32; 4],
)
    requires row { HasRectangle left top 16 4 plane.old }
    requires small { AllBelow 4 (2 ^ 25) values }
    ensures { plane.new
        ≡ with_residual plane.old left top 16 4 (λ x y. slice_index_or values (x / 4) (pos 0)) }
{
    let samples = plane.rectangle::<16, 4, 64>(left, top);
    let sums = add_to_row(&samples, values);
    plane.set_rectangle::<16, 4, 64>(left, top, &sums);
}

/// Adds to each of the four 4x4 blocks of a square a residual that is one value.
fn add_levels_to_square<const PAD: usize>(
    plane: &mut Plane<PAD>,
    left: usize,
    top: usize,
    values: [i32; 4],
)
    requires square { HasRectangle left top 8 8 plane.old }
    requires small { AllBelow 4 (2 ^ 25) values }
    ensures { plane.new
        ≡ with_residual plane.old left top 8 8
        (λ x y. slice_index_or values (2 * (y / 4) + x / 4) (pos 0)) }
{
    let samples = plane.rectangle::<8, 8, 64>(left, top);
    let sums = add_to_square(&samples, values);
    plane.set_rectangle::<8, 8, 64>(left, top, &sums);
}

/// The residuals of four blocks without levels, from their DC values, which stand from this place
/// on.
#[inline(always)]
fn residuals_of_dc<const N: usize>(values: &[i32; N], first: usize) -> [i32; 4]
    requires within { first + 4 ≤ N }
    requires small { AllBelow N (2 ^ 27) values.now }
    ensures values { (k : ℕ) → k < 4 → slice_index_or result k (pos 0)
        ≡ (slice_index_or values.now (first + k) (pos 0) +ℤ pos 32 >>ℤ 6) }
    ensures small { AllBelow 4 (2 ^ 25) result }
{
    [
        residual_of_dc(values[first]),
        residual_of_dc(values[first + 1]),
        residual_of_dc(values[first + 2]),
        residual_of_dc(values[first + 3]),
    ]
}

/// Adds the residual of sixteen levels to a 4x4 block (8.5.1).
#[inline(never)]
fn add_coded_block4x4<const PAD: usize>(
    plane: &mut Plane<PAD>,
    left: usize,
    top: usize,
    levels: &Levels<16>,
    qp: Quantiser,
)
    requires block { HasRectangle left top 4 4 plane.old }
    requires levels { AreSmall levels.now }
    ensures { plane.new ≡ with_residual plane.old left top 4 4 (residual4x4 qp.value levels.now) }
{
    let values = residual4x4(levels.as_array(), qp.value);
    add_residual4x4(plane, left, top, &values);
}

/// Adds the residual of a 4x4 block, by which nothing is done where the levels are all 0.
// the test stands in the caller, since most blocks have no levels
#[inline(always)]
pub(crate) fn add_block4x4<const PAD: usize>(
    plane: &mut Plane<PAD>,
    left: usize,
    top: usize,
    levels: &Levels<16>,
    qp: Quantiser,
)
    requires block { HasRectangle left top 4 4 plane.old }
    requires levels { AreSmall levels.now }
    ensures { plane.new ≡ with_residual plane.old left top 4 4 (residual4x4 qp.value levels.now) }
{
    if levels.total_coeff() == 0 {
        plane.holds_bytes();
    } else {
        add_coded_block4x4(plane, left, top, levels, qp);
    }
}

/// Adds the residual of a DC value and fifteen levels to a 4x4 block (8.5.2, 8.5.4). It is one
/// value everywhere where the levels are all 0, and nothing is done where the DC value is 0 too.
fn add_block4x4_with_dc<const PAD: usize>(
    plane: &mut Plane<PAD>,
    left: usize,
    top: usize,
    dc: i32,
    levels: &Levels<15>,
    qp: Quantiser,
)
    requires block { HasRectangle left top 4 4 plane.old }
    requires dc { IsBelow (2 ^ 27) dc }
    requires levels { AreSmall levels.now }
    ensures { plane.new
        ≡ with_residual plane.old left top 4 4 (residual4x4_with_dc qp.value dc levels.now) }
{
    if levels.total_coeff() != 0 {
        let values = residual4x4_with_dc(dc, levels.as_array(), qp.value);
        add_residual4x4(plane, left, top, &values);
    } else if dc != 0 {
        add_level4x4(plane, left, top, residual_of_dc(dc));
    } else {
        plane.holds_bytes();
    }
}

/// Adds the residual of luma block `k` of a macroblock.
// where a part of its number is known, little of its place is left to be computed
#[inline(always)]
fn add_numbered<const PAD: usize>(
    plane: &mut Plane<PAD>,
    place: MbPlace,
    levels: &[Levels<16>; 16],
    qp: Quantiser,
    k: usize,
)
    requires macroblock { HasMacroblock 16 place.column place.row plane.old }
    requires number { k < 16 }
    requires levels { All AreSmall levels.now }
    ensures size { (plane.new.width ≡ plane.old.width) × (plane.new.height ≡ plane.old.height) }
    ensures block { plane.new
        ≡ with_residual plane.old (16 * place.column + block_x k) (16 * place.row + block_y k) 4 4
        (residual4x4 qp.value (slice_index_or levels.now k [])) }
{
    let left = first_column(plane, 16, place.column) + left_of_block(k);
    let top = first_row(plane, 16, place.row) + top_of_block(k);
    add_block4x4(plane, left, top, &levels[k], qp);
}

/// Adds the luma residual to a macroblock whose blocks have all their levels (8.5.1).
pub(crate) fn add_luma_residual<const PAD: usize>(
    plane: &mut Plane<PAD>,
    place: MbPlace,
    levels: Levels4x4<'_>,
    qp: Quantiser,
)
    requires macroblock { HasMacroblock 16 place.column place.row plane.old }
    ensures { plane.new ≡ with_residual plane.old (16 * place.column) (16 * place.row) 16 16
        (luma_residual qp.value (residual_of [] levels.entry.blocks.now)) }
{
    plane.holds_bytes();
    for quarter in 0..4 {
        let first = 4 * quarter;
        add_numbered(plane, place, &levels.blocks.luma, qp, first);
        add_numbered(plane, place, &levels.blocks.luma, qp, first + 1);
        add_numbered(plane, place, &levels.blocks.luma, qp, first + 2);
        add_numbered(plane, place, &levels.blocks.luma, qp, first + 3);
    }
}

/// Whether one of sixteen blocks has a level that is not 0.
fn has_luma_levels(levels: &[Levels<15>; 16]) -> bool
    ensures { result ≡ false → (k : ℕ) → k < 16 → total_coeff (slice_index_or levels.now k []) ≡ 0 }
{
    for k in 0..16 {
        if levels[k].total_coeff() != 0 {
            return true;
        }
    }
    false
}

/// Adds the luma residual to an Intra 16x16 macroblock that has DC values alone, four blocks beside
/// one another at once.
fn add_luma_levels<const PAD: usize>(plane: &mut Plane<PAD>, place: MbPlace, values: &[i32; 16])
    requires macroblock { HasMacroblock 16 place.column place.row plane.old }
    requires small { AllBelow 16 (2 ^ 27) values.now }
    ensures { plane.new ≡ with_residual plane.old (16 * place.column) (16 * place.row) 16 16
        (λ x y. slice_index_or values.now (4 * (y / 4) + x / 4) (pos 0) +ℤ pos 32 >>ℤ 6) }
{
    let left = first_column(plane, 16, place.column);
    let top = first_row(plane, 16, place.row);
    add_levels_to_row(plane, left, top, residuals_of_dc(values, 0));
    add_levels_to_row(plane, left, top + 4, residuals_of_dc(values, 4));
    add_levels_to_row(plane, left, top + 8, residuals_of_dc(values, 8));
    add_levels_to_row(plane, left, top + 12, residuals_of_dc(values, 12));
}

/// Adds the luma residual to an Intra 16x16 macroblock (8.5.2).
pub(crate) fn add_luma_residual_16x16<const PAD: usize>(
    plane: &mut Plane<PAD>,
    place: MbPlace,
    levels: Levels16x16<'_>,
    qp: Quantiser,
)
    requires macroblock { HasMacroblock 16 place.column place.row plane.old }
    ensures { plane.new ≡ with_residual plane.old (16 * place.column) (16 * place.row) 16 16
        (luma_residual_16x16 qp.value
        (residual_of levels.entry.dc.now levels.entry.blocks.now)) }
{
    plane.holds_bytes();
    let values = luma_dc(levels.dc.as_array(), qp.value);
    let blocks = levels.blocks;
    if !has_luma_levels(&blocks.luma) {
        add_luma_levels(plane, place, &values);
        return;
    }
    let column = first_column(plane, 16, place.column);
    let row = first_row(plane, 16, place.row);
    for k in 0..16 {
        let left = left_of_block(k);
        let top = top_of_block(k);
        let dc = values[top + left / 4];
        add_block4x4_with_dc(plane, column + left, row + top, dc, &blocks.luma[k], qp);
    }
}

/// Adds the residual of a chroma component block by block, or of all four at once where they have
/// DC values alone.
fn add_chroma_blocks4x4<const PAD: usize>(
    plane: &mut Plane<PAD>,
    place: MbPlace,
    dc: &Levels<4>,
    ac: &[Levels<15>; 4],
    qp: ChromaQuantiser,
)
    requires macroblock { HasMacroblock 8 place.column place.row plane.old }
    requires dc { AreSmall dc.now }
    requires ac { All AreSmall ac.now }
    ensures { plane.new ≡ with_residual plane.old (8 * place.column) (8 * place.row) 8 8
        (chroma_residual qp.value dc.now ac.now) }
{
    plane.holds_bytes();
    let values = chroma_dc(dc.as_array(), qp.value);
    let column = first_column(plane, 8, place.column);
    let row = first_row(plane, 8, place.row);
    if !has_ac_levels(ac) {
        add_levels_to_square(plane, column, row, residuals_of_dc(&values, 0));
        return;
    }
    for k in 0..4 {
        let left = column + 4 * (k % 2);
        let top = row + 4 * (k / 2);
        let block_qp = Quantiser { value: qp.value };
        add_block4x4_with_dc(plane, left, top, values[k], &ac[k], block_qp);
    }
}

/// Adds its residual to a chroma component of a macroblock (8.5.4), by the quantiser of chroma.
/// Nothing is done where it has no level but 0.
#[inline(always)]
pub(crate) fn add_chroma_residual<const PAD: usize>(
    plane: &mut Plane<PAD>,
    place: MbPlace,
    levels: ChromaLevels<'_>,
    qp: ChromaQuantiser,
)
    requires macroblock { HasMacroblock 8 place.column place.row plane.old }
    ensures { plane.new ≡ with_residual plane.old (8 * place.column) (8 * place.row) 8 8
        (chroma_residual qp.value levels.entry.dc.now levels.entry.ac.now) }
{
    if has_chroma_levels(levels.dc, levels.ac) {
        add_chroma_blocks4x4(plane, place, levels.dc, levels.ac, qp);
    } else {
        plane.holds_bytes();
    }
}

/// The upper left sample of luma block `k` in its macroblock (6.4.3), from the left.
pub(crate) fn left_of_block(k: usize) -> usize
    requires { k < 16 }
    ensures value { result ≡ block_x k }
    ensures inside { result + 4 ≤ 16 }
{
    8 * (k / 4 % 2) + 4 * (k % 2)
}

/// The upper left sample of luma block `k` in its macroblock (6.4.3), from above.
pub(crate) fn top_of_block(k: usize) -> usize
    requires { k < 16 }
    ensures value { result ≡ block_y k }
    ensures inside { result + 4 ≤ 16 }
{
    8 * (k / 8) + 4 * (k / 2 % 2)
}

/// Whether one of the four blocks of a chroma component has a level that is not 0.
#[inline(always)]
fn has_ac_levels(ac: &[Levels<15>; 4]) -> bool
    ensures { result ≡ false → (k : ℕ) → k < 4 → total_coeff (slice_index_or ac.now k []) ≡ 0 }
{
    ac[0].total_coeff() != 0
        || ac[1].total_coeff() != 0
        || ac[2].total_coeff() != 0
        || ac[3].total_coeff() != 0
}

/// Whether a chroma component has a level that is not 0.
fn has_chroma_levels(dc: &Levels<4>, ac: &[Levels<15>; 4]) -> bool
    ensures dc { result ≡ false → total_coeff dc.now ≡ 0 }
    ensures ac { result ≡ false → (k : ℕ) → k < 4 → total_coeff (slice_index_or ac.now k []) ≡ 0 }
{
    dc.total_coeff() != 0 || has_ac_levels(ac)
}
