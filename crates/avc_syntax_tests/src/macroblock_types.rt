//! A macroblock of each type, and how they follow one another in a slice.

ghost use Rattle.std.specs.Prelude.{◌≡◌, ◌≤◌, ◌<◌, ◌+◌, ◌==◌, ◌++◌, ◌∷◌, ℕ, ℤ, Bool, List, ◌≤ℤ◌};
ghost use Rattle.std.specs.Prelude.{pos, negsuc, true, false, length, take, IfOk, []};
ghost use Rattle.std.specs.List.{range_with_len};
ghost use Rattle.avc_types.specs.Macroblock.{Mb, parts_of, partitions};
ghost use Rattle.avc_types.specs.MacroblockFields.{residual_of, syntax_of};
ghost use Rattle.avc_mbsyntax.specs.Reading.{is_coded, qp_after};
ghost use Rattle.avc_make.specs.MbWriting.{AreBlocks, HasQuarters, IsBlock, IsChromaDc, IsLumaDc};
ghost use Rattle.avc_make.specs.MbWriting.{IsRefIdx, IsResidual, has_ref_idx, luma_max, qp_of};
ghost use Rattle.avc_syntax_tests.specs.Following.{GoesOn, Stands};

use avc_types::{BlockLevels, Levels, Mb, Mvd, OutOfMemory, PMbType, SubMbType, Syntax};

// ---- residuals

fn block_16() -> Levels<16>
    ensures { IsBlock 16 true result }
{
    Levels::from_array([0, 3, 0, 1, -1, -1, 0, 1, 0, 0, 0, 0, 0, 0, 0, 0])
}

fn block_15() -> Levels<15>
    ensures { IsBlock 15 true result }
{
    Levels::from_array([-2063, 40, 3, -2, 1, 0, 0, 1, 0, 0, 0, 0, 0, 0, -1])
}

fn block_4() -> Levels<4>
    ensures { IsBlock 4 true result }
{
    Levels::from_array([1, 0, -3, 2])
}

// of pattern 15
fn all_coded<const MAXN: usize>(block: &Levels<MAXN>) -> [Levels<MAXN>; 16]
    requires { IsBlock MAXN true block.now }
    ensures { AreBlocks MAXN (is_coded 15) (range_with_len 0 16) result }
{
    [*block; 16]
}

// of pattern 6
fn half_coded<const MAXN: usize>(block: &Levels<MAXN>) -> [Levels<MAXN>; 16]
    requires { IsBlock MAXN true block.now }
    ensures { AreBlocks MAXN (is_coded 6) (range_with_len 0 16) result }
{
    let a = Levels::zero();
    let b = *block;
    [a, a, a, a, b, b, b, b, b, b, b, b, a, a, a, a]
}

// of pattern 0
fn none_coded<const MAXN: usize>() -> [Levels<MAXN>; 16]
    ensures { AreBlocks MAXN (is_coded 0) (range_with_len 0 16) result }
{
    [Levels::zero(); 16]
}

fn chroma_dc(chroma_pattern: u8) -> Levels<4>
    ensures { IsChromaDc chroma_pattern result }
{
    match chroma_pattern {
        0 => Levels::zero(),
        _ => block_4(),
    }
}

fn chroma_ac(chroma_pattern: u8) -> [Levels<15>; 4]
    ensures { AreBlocks 15 (λ k. chroma_pattern == 2) (range_with_len 0 4) result }
{
    if chroma_pattern == 2 {
        [block_15(); 4]
    } else {
        [Levels::zero(); 4]
    }
}

// with these luma blocks
fn levels<const MAXN: usize>(
    luma_pattern: u8,
    luma: [Levels<MAXN>; 16],
    chroma_pattern: u8,
    mb_qp_delta: i8,
) -> BlockLevels<MAXN>
    requires luma_pattern { luma_pattern ≤ 15 }
    requires chroma_pattern { chroma_pattern ≤ 2 }
    requires least { negsuc 25 ≤ℤ mb_qp_delta }
    requires most { mb_qp_delta ≤ℤ pos 25 }
    requires luma { AreBlocks MAXN (is_coded luma_pattern) (range_with_len 0 16) luma }
    ensures residual { (with_dc : Bool) (dc : List ℤ) → MAXN ≡ luma_max with_dc →
        IsLumaDc with_dc dc → IsResidual with_dc (residual_of dc result) }
    ensures pattern { result.luma_pattern ≡ luma_pattern }
    ensures delta { result.mb_qp_delta ≡ mb_qp_delta }
{
    BlockLevels {
        luma_pattern,
        chroma_pattern,
        mb_qp_delta,
        luma,
        cb_dc: chroma_dc(chroma_pattern),
        cr_dc: chroma_dc(chroma_pattern),
        cb_ac: chroma_ac(chroma_pattern),
        cr_ac: chroma_ac(chroma_pattern),
    }
}

// ---- macroblocks

fn i_nxn(mb_qp_delta: i8) -> Syntax
    requires least { negsuc 25 ≤ℤ mb_qp_delta }
    requires most { mb_qp_delta ≤ℤ pos 25 }
    ensures { (p : Bool) (n : ℕ) → Stands p n (syntax_of result) }
{
    Syntax::INxN {
        modes: [
            None,
            Some(0),
            Some(1),
            Some(2),
            Some(3),
            Some(4),
            Some(5),
            Some(6),
            Some(7),
            None,
            None,
            Some(7),
            Some(0),
            None,
            Some(3),
            None,
        ],
        chroma_mode: 3,
        levels: levels(15, all_coded(&block_16()), 2, mb_qp_delta),
    }
}

// mb_type 1 to 24 of an I slice (Table 7-11)
fn i_16x16(mode: u8, chroma_pattern: u8, luma_coded: bool, mb_qp_delta: i8) -> Syntax
    requires mode { mode ≤ 3 }
    requires chroma_pattern { chroma_pattern ≤ 2 }
    requires least { negsuc 25 ≤ℤ mb_qp_delta }
    requires most { mb_qp_delta ≤ℤ pos 25 }
    ensures { (p : Bool) (n : ℕ) → Stands p n (syntax_of result) }
{
    Syntax::I16x16 {
        mode,
        chroma_mode: mode,
        luma_dc: block_16(),
        levels: levels_15(luma_coded, chroma_pattern, mb_qp_delta),
    }
}

fn levels_15(luma_coded: bool, chroma_pattern: u8, mb_qp_delta: i8) -> BlockLevels<15>
    requires chroma_pattern { chroma_pattern ≤ 2 }
    requires least { negsuc 25 ≤ℤ mb_qp_delta }
    requires most { mb_qp_delta ≤ℤ pos 25 }
    ensures residual { (dc : List ℤ) → IsBlock 16 true dc →
        IsResidual true (residual_of dc result) }
    ensures pattern { result.luma_pattern ≡ elim luma_coded [ true ↦ 15 | false ↦ 0 ] }
{
    if luma_coded {
        levels(15, all_coded(&block_15()), chroma_pattern, mb_qp_delta)
    } else {
        levels(0, none_coded(), chroma_pattern, mb_qp_delta)
    }
}

pub(crate) fn i_pcm() -> Syntax
    ensures { (p : Bool) (n : ℕ) → Stands p n (syntax_of result) }
{
    Syntax::IPcm {
        luma: [0x11; 256],
        cb: [0x40; 64],
        cr: [0xC0; 64],
    }
}

fn p_inter(mb_type: PMbType, ref_idx: [u8; 4], mb_qp_delta: i8) -> Syntax
    requires least { negsuc 25 ≤ℤ mb_qp_delta }
    requires most { mb_qp_delta ≤ℤ pos 25 }
    requires quarters { HasQuarters mb_type }
    requires parts { length (parts_of mb_type) ≤ 16 }
    requires ref_idx { IsRefIdx 2 (partitions mb_type) (has_ref_idx 2 mb_type)
        (take (partitions mb_type) ref_idx) }
    ensures { Stands true 2 (syntax_of result) }
{
    Syntax::PInter {
        mb_type,
        ref_idx,
        mvd: [Mvd { x: -3, y: 64 }; 16],
        levels: levels(6, half_coded(&block_16()), 1, mb_qp_delta),
    }
}

// ---- macroblocks in a row

// QP_Y after a difference (7.4.5)
fn qp_after(previous: u8, mb_qp_delta: i8) -> u8
    ensures { result ≡ qp_after previous mb_qp_delta }
{
    ((i32::from(previous) + i32::from(mb_qp_delta) + 52).unsigned_abs() % 52) as u8
}

fn qp_of(previous: u8, syntax: &Syntax) -> u8
    ensures { result ≡ qp_of previous (syntax_of syntax.now) }
{
    match syntax {
        Syntax::PSkip => previous,
        Syntax::IPcm { .. } => previous,
        Syntax::INxN { levels, .. } => qp_after(previous, levels.mb_qp_delta),
        Syntax::I16x16 { levels, .. } => qp_after(previous, levels.mb_qp_delta),
        Syntax::PInter { levels, .. } => qp_after(previous, levels.mb_qp_delta),
    }
}

/// A macroblock more, after one with this QP_Y: its own.
pub(crate) fn add(list: &mut Vec<Mb>, qp: u8, syntax: Syntax) -> Result<u8, OutOfMemory>
    ensures goes_on { IfOk result (λ after. (p : Bool) (n first : ℕ) →
        Stands p n (syntax_of syntax) →
        GoesOn p n first qp after list.old.items list.new.items) }
    ensures one { IfOk result (λ _. length list.new.items ≡ length list.old.items + 1) }
{
    let after = qp_of(qp, &syntax);
    list.push(Mb { syntax, qp: after })?;
    Ok(after)
}

/// Macroblocks of the 26 types of I slices, after one with this QP_Y: that of the last.
pub(crate) fn add_i_types(list: &mut Vec<Mb>, qp: u8) -> Result<u8, OutOfMemory>
    ensures goes_on { IfOk result (λ after. (p : Bool) (n first : ℕ) →
        GoesOn p n first qp after list.old.items list.new.items) }
    ensures more { IfOk result (λ _. length list.new.items ≡ length list.old.items + 26) }
{
    let mut now = add(list, qp, i_nxn(-26))?;
    'types: for k in 0..24u8 {
        let delta = if k % 5 == 0 { 25 } else { -7 };
        now = add(list, now, i_16x16(k % 4, k / 4 % 3, k >= 12, delta))?;
    }
    let last = add(list, now, i_pcm())?;
    Ok(last)
}

/// Macroblocks of the five types of inter macroblocks, a skipped one before each, after one with
/// this QP_Y: that of the last.
pub(crate) fn add_p_types(list: &mut Vec<Mb>, qp: u8) -> Result<u8, OutOfMemory>
    ensures goes_on { IfOk result (λ after. (first : ℕ) →
        GoesOn true 2 first qp after list.old.items list.new.items) }
    ensures more { IfOk result (λ _. length list.new.items ≡ length list.old.items + 10) }
{
    let subs = [
        SubMbType::Sub8x8,
        SubMbType::Sub8x4,
        SubMbType::Sub4x8,
        SubMbType::Sub4x4,
    ];
    let a = add_inter(list, qp, p_inter(PMbType::P16x16, [1, 0, 0, 0], 5))?;
    let b = add_inter(list, a, p_inter(PMbType::P16x8, [0, 1, 0, 0], -5))?;
    let c = add_inter(list, b, p_inter(PMbType::P8x16, [1, 1, 0, 0], 0))?;
    let d = add_inter(list, c, p_inter(PMbType::P8x8(subs), [0, 1, 1, 0], 1))?;
    add_inter(list, d, p_inter(PMbType::P8x8Ref0(subs), [0; 4], -1))
}

// a skipped macroblock and one that is not
fn add_inter(list: &mut Vec<Mb>, qp: u8, syntax: Syntax) -> Result<u8, OutOfMemory>
    requires { Stands true 2 (syntax_of syntax) }
    ensures goes_on { IfOk result (λ after. (first : ℕ) →
        GoesOn true 2 first qp after list.old.items list.new.items) }
    ensures more { IfOk result (λ _. length list.new.items ≡ length list.old.items + 2) }
{
    let before = add_skipped(list, qp)?;
    add(list, before, syntax)
}

/// A skipped macroblock, after one with this QP_Y: its own.
pub(crate) fn add_skipped(list: &mut Vec<Mb>, qp: u8) -> Result<u8, OutOfMemory>
    ensures goes_on { IfOk result (λ after. (first : ℕ) →
        GoesOn true 2 first qp after list.old.items list.new.items) }
    ensures more { IfOk result (λ _. length list.new.items ≡ length list.old.items + 1) }
{
    add(list, qp, Syntax::PSkip)
}
