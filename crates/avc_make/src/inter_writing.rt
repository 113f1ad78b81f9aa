//! Inter macroblocks whose vectors are coded (7.3.5.1, 7.3.5.2).
ghost use Rattle.std.specs.Prelude.{◌≡◌, ◌≤◌, ◌<◌, ◌++◌, true, false, [], length, take};
ghost use Rattle.std.specs.List.{flat_map};
ghost use Rattle.avc_types.specs.Macroblock.{parts_of, partitions};
ghost use Rattle.avc_types.specs.MacroblockFields.{residual_of};
ghost use Rattle.avc_rbsp.specs.Made.{Puts};
ghost use Rattle.avc_rbsp.specs.Words.{te_word, ue_word};
ghost use Rattle.avc_make.specs.MbWriting.{IsPInter, IsRefIdx, has_ref_idx, p_inter_bits};
ghost use Rattle.avc_make.specs.MbWriting.{p_mb_number, ref_idx_bits, sub_mb_types_bits};
ghost use Rattle.avc_make_headers.specs.MbParts.{IsMvd, mvd_bits};
ghost use Rattle.avc_make_headers.specs.VuiWriting.{Each};

use crate::macroblock_writing::put_pattern;
use avc_make_headers::put_each;
use avc_mbsyntax::{Context, part_count, partitions};
use avc_rbsp::BitMaker;
use avc_types::{BlockLevels, Mvd, OutOfMemory, PMbType};

/// Puts mb_type and what follows it.
pub(crate) fn put_p_inter(
    maker: &mut BitMaker,
    context: &Context,
    mb_type: &PMbType,
    ref_idx: &[u8; 4],
    mvd: &[Mvd; 16],
    levels: &BlockLevels<16>,
) -> Result<(), OutOfMemory>
    requires going { maker.old.failed ≡ false }
    requires ranges { IsPInter context.now mb_type.now (take (partitions mb_type.now) ref_idx.now)
        (take (length (parts_of mb_type.now)) mvd.now) (residual_of [] levels.now) }
    ensures { Puts result (ue_word (p_mb_number mb_type.now)
        ++ p_inter_bits context.now mb_type.now (take (partitions mb_type.now) ref_idx.now)
        (take (length (parts_of mb_type.now)) mvd.now) (residual_of [] levels.now)) maker.old
        maker.new }
{
    put_p_type(maker, mb_type)?;
    put_sub_mb_types(maker, mb_type)?;
    put_ref_idx(maker, context.num_ref_idx_active, mb_type, ref_idx)?;
    put_mvd(maker, mb_type, mvd)?;
    put_pattern(maker, context, false, levels)?;
    Ok(())
}

fn put_p_type(maker: &mut BitMaker, mb_type: &PMbType) -> Result<(), OutOfMemory>
    ensures { Puts result (ue_word (p_mb_number mb_type.now)) maker.old maker.new }
{
    maker.ue(number_of(mb_type))
}

// mvd_l0 of each part
fn put_mvd(maker: &mut BitMaker, mb_type: &PMbType, mvd: &[Mvd; 16]) -> Result<(), OutOfMemory>
    requires going { maker.old.failed ≡ false }
    requires ranges { Each IsMvd (take (length (parts_of mb_type.now)) mvd.now) }
    ensures { Puts result (flat_map mvd_bits (take (length (parts_of mb_type.now)) mvd.now))
        maker.old maker.new }
{
    put_each(maker, &mvd[..part_count(mb_type)])
}

// mb_type (Table 7-13)
fn number_of(mb_type: &PMbType) -> u32
    ensures value { result ≡ p_mb_number mb_type.now }
    ensures few { result ≤ 4 }
{
    match mb_type {
        PMbType::P16x16 => 0,
        PMbType::P16x8 => 1,
        PMbType::P8x16 => 2,
        PMbType::P8x8(_) => 3,
        PMbType::P8x8Ref0(_) => 4,
    }
}

fn put_sub_mb_types(maker: &mut BitMaker, mb_type: &PMbType) -> Result<(), OutOfMemory>
    requires { maker.old.failed ≡ false }
    ensures { Puts result (sub_mb_types_bits mb_type.now) maker.old maker.new }
{
    match mb_type {
        PMbType::P16x16 | PMbType::P16x8 | PMbType::P8x16 => Ok(()),
        PMbType::P8x8(subs) => put_each(maker, subs),
        PMbType::P8x8Ref0(subs) => put_each(maker, subs),
    }
}

// ref_idx_l0 of each partition, where there is more than one index
fn put_ref_idx(
    maker: &mut BitMaker,
    num_ref_idx_active: u8,
    mb_type: &PMbType,
    ref_idx: &[u8; 4],
) -> Result<(), OutOfMemory>
    requires going { maker.old.failed ≡ false }
    requires ranges { IsRefIdx num_ref_idx_active (partitions mb_type.now)
        (has_ref_idx num_ref_idx_active mb_type.now)
        (take (partitions mb_type.now) ref_idx.now) }
    ensures { Puts result
        (ref_idx_bits num_ref_idx_active (has_ref_idx num_ref_idx_active mb_type.now)
        (take (partitions mb_type.now) ref_idx.now)) maker.old maker.new }
{
    if has_ref_idx(num_ref_idx_active, mb_type) {
        put_indices(
            maker,
            num_ref_idx_active as u32 - 1,
            &ref_idx[..partitions(mb_type)],
        )
    } else {
        Ok(())
    }
}

fn has_ref_idx(num_ref_idx_active: u8, mb_type: &PMbType) -> bool
    ensures value { result ≡ has_ref_idx num_ref_idx_active mb_type.now }
    ensures many { result ≡ true → 2 ≤ num_ref_idx_active }
{
    match mb_type {
        PMbType::P8x8Ref0(_) => false,
        _ => num_ref_idx_active > 1,
    }
}

// te(v) of each index
fn put_indices(maker: &mut BitMaker, most: u32, ref_idx: &[u8]) -> Result<(), OutOfMemory>
    requires going { maker.old.failed ≡ false }
    requires some { 1 ≤ most }
    requires within { Each (λ i. (i ≤ most) × (i < 4294967295)) ref_idx.now }
    ensures { Puts result (flat_map (te_word most) ref_idx.now) maker.old maker.new }
{
    for index in ref_idx {
        maker.te(most, *index as u32)?;
    }
    Ok(())
}
