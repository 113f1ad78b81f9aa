//! Inter macroblocks whose vectors are coded (7.3.5, 7.3.5.1, 7.3.5.2).
ghost use Rattle.std.specs.Prelude.{◌≡◌, ◌≤◌, length, replicate, take, IfOk, All, ◌-◌};
ghost use Rattle.avc_types.specs.Macroblock.{parts_of, parts_of_quarter, parts_of_quarters};
ghost use Rattle.avc_types.specs.Macroblock.{partitions};
ghost use Rattle.avc_types.specs.declared.mb.Syntax.TheVariants.{PInter};
ghost use Rattle.avc_bits.specs.Bits.{times};
ghost use Rattle.avc_bits.specs.Reader.{Reads};
ghost use Rattle.avc_mbsyntax.specs.Ranges.{IsSyntax};
ghost use Rattle.avc_mbsyntax.specs.Reading.{mvd_l0, p_mb, p_mb_type, ref_idx_l0, sub_mb_types};
ghost use Rattle.avc_mbsyntax.specs.Steps.{ReadsInto, context_of, inter_levels_in, is_ref0, mvd_in};

use crate::context::LentContext;
use crate::elements::read_elements;
use crate::residual::{qp_after, read_after_pattern, zero_levels};
use avc_bits::BitReader;
use avc_types::{Fault, Mb, Mvd, PMbType, SubMbType, Syntax};
use avc_vlc::read_cbp;

// Of a part whose difference is not read yet.
const NO_MVD: Mvd = Mvd { x: 0, y: 0 };

/// Reads a macroblock with this mb_type of a P slice, at most 4 (Table 7-13).
pub(crate) fn read_p_mb(
    reader: &mut BitReader,
    context: &LentContext<'_>,
    mb_type: u32,
    mb: &mut Mb,
) -> Result<(), Fault>
    ensures read { ReadsInto result mb.new (p_mb (context_of context.now) mb_type) reader.old
        reader.new }
    ensures range { IfOk result (λ _. IsSyntax context.now.num_ref_idx_active mb.new.syntax) }
    ensures quantiser { context.now.qp ≤ 51 → IfOk result (λ _. mb.new.qp ≤ 51) }
{
    let mb_type = read_p_mb_type(reader, mb_type)?;
    let mut ref_idx = [0; 4];
    read_ref_idx(reader, context.num_ref_idx_active, &mb_type, &mut ref_idx)?;
    set_inter(&mut mb.syntax, mb_type, ref_idx);
    let Syntax::PInter { mvd, .. } = &mut mb.syntax else {
        unreachable!()
    };
    read_mvd(reader, &mb_type, mvd)?;
    let pattern = read_cbp(reader, false)?;
    let Syntax::PInter { levels, .. } = &mut mb.syntax else {
        unreachable!()
    };
    read_after_pattern(reader, context, pattern, levels)?;
    mb.qp = qp_after(context.qp, levels.mb_qp_delta);
    Ok(())
}

// An inter macroblock of this type with these reference indices; the rest is what stands there from
// one before, or nothing.
fn set_inter(syntax: &mut Syntax, mb_type: PMbType, ref_idx: [u8; 4])
    ensures { syntax.new ≡ PInter mb_type ref_idx (mvd_in syntax.old) (inter_levels_in syntax.old) }
{
    match syntax {
        Syntax::PInter { mb_type: place, .. } => *place = mb_type,
        _ => {
            *syntax = Syntax::PInter {
                mb_type,
                ref_idx,
                mvd: [NO_MVD; 16],
                levels: zero_levels(),
            };
            return;
        }
    }
    let Syntax::PInter { ref_idx: place, .. } = syntax else {
        unreachable!()
    };
    *place = ref_idx;
}

fn read_sub_mb_types(reader: &mut BitReader) -> Result<[SubMbType; 4], Fault>
    ensures { Reads result sub_mb_types reader.old reader.new }
{
    let mut sub_mb_types = [SubMbType::Sub8x8; 4];
    read_elements(reader, 4, 1, &mut sub_mb_types)?;
    Ok(sub_mb_types)
}

fn read_p_mb_type(reader: &mut BitReader, mb_type: u32) -> Result<PMbType, Fault>
    ensures { Reads result (p_mb_type mb_type) reader.old reader.new }
{
    match mb_type {
        0 => Ok(PMbType::P16x16),
        1 => Ok(PMbType::P16x8),
        2 => Ok(PMbType::P8x16),
        3 => Ok(PMbType::P8x8(read_sub_mb_types(reader)?)),
        _ => Ok(PMbType::P8x8Ref0(read_sub_mb_types(reader)?)),
    }
}

// Where none is coded each is 0, as before.
fn read_ref_idx(
    reader: &mut BitReader,
    num_ref_idx_active: u8,
    mb_type: &PMbType,
    ref_idx: &mut [u8; 4],
) -> Result<(), Fault>
    requires zero { ref_idx.old ≡ replicate 4 0 }
    ensures range { IfOk result
        (λ _. All (λ ref. ref ≤ num_ref_idx_active - 1)
        (take (partitions mb_type.now) ref_idx.new)) }
    ensures read { ReadsInto result (take (partitions mb_type.now) ref_idx.new)
        (ref_idx_l0 num_ref_idx_active mb_type.now) reader.old reader.new }
{
    if is_ref0(mb_type) {
        return Ok(());
    }
    if num_ref_idx_active <= 1 {
        return Ok(());
    }
    let most = u32::from(num_ref_idx_active) - 1;
    read_elements(reader, partitions(mb_type), most, ref_idx)
}

fn read_mvd(reader: &mut BitReader, mb_type: &PMbType, mvd: &mut [Mvd; 16]) -> Result<(), Fault>
    ensures { ReadsInto result (take (length (parts_of mb_type.now)) mvd.new)
        (times (length (parts_of mb_type.now)) mvd_l0) reader.old reader.new }
{
    read_elements(reader, part_count(mb_type), 1, mvd)
}

fn is_ref0(mb_type: &PMbType) -> bool
    ensures { result ≡ is_ref0 mb_type.now }
{
    match mb_type {
        PMbType::P8x8Ref0(_) => true,
        _ => false,
    }
}

/// How many partitions a macroblock has, each with a reference index (Table 7-13).
pub fn partitions(mb_type: &PMbType) -> usize
    ensures value { result ≡ partitions mb_type.now }
    ensures most { result ≤ 4 }
{
    match mb_type {
        PMbType::P16x16 => 1,
        PMbType::P16x8 | PMbType::P8x16 => 2,
        PMbType::P8x8(_) | PMbType::P8x8Ref0(_) => 4,
    }
}

/// How many parts a macroblock has, each with a vector (7.3.5.1, 7.3.5.2).
pub fn part_count(mb_type: &PMbType) -> usize
    ensures value { result ≡ length (parts_of mb_type.now) }
    ensures most { result ≤ 16 }
{
    match mb_type {
        PMbType::P16x16 => 1,
        PMbType::P16x8 | PMbType::P8x16 => 2,
        PMbType::P8x8(subs) => parts_of_quarters(subs),
        PMbType::P8x8Ref0(subs) => parts_of_quarters(subs),
    }
}

// of the four quarters
fn parts_of_quarters(subs: &[SubMbType; 4]) -> usize
    ensures value { result ≡ length (parts_of_quarters subs.now 0) }
    ensures most { result ≤ 16 }
{
    let [first, second, third, fourth] = *subs;
    parts_of_quarter(first)
        + parts_of_quarter(second)
        + parts_of_quarter(third)
        + parts_of_quarter(fourth)
}

// of one quarter
fn parts_of_quarter(sub_mb_type: SubMbType) -> usize
    ensures value { result ≡ length (parts_of_quarter sub_mb_type 0 0 0) }
    ensures most { result ≤ 4 }
{
    match sub_mb_type {
        SubMbType::Sub8x8 => 1,
        SubMbType::Sub8x4 | SubMbType::Sub4x8 => 2,
        SubMbType::Sub4x4 => 4,
    }
}
