//! What the macroblocks of a slice know of those before them while they are written (6.4.9, 9.2.1).
ghost use Rattle.std.specs.Prelude.{◌≡◌, List, ◌∷◌, [], ◌++◌, IfOk, map};
ghost use Rattle.std.specs.Option.{option_copied, option_map};
ghost use Rattle.avc_types.specs.Macroblock.{Mb, total_coeff};
ghost use Rattle.avc_types.specs.MacroblockFields.{residual_of, syntax_of};
ghost use Rattle.avc_types.specs.Pictures.{PicMb};
ghost use Rattle.avc_neigh.specs.TotalCoeffs.{all_total_coeffs, residual_total_coeffs};
ghost use Rattle.avc_neigh.specs.TotalCoeffs.{total_coeffs_of};
ghost use Rattle.avc_mbsyntax.specs.SliceData.{SliceStart, context, placed};
ghost use Rattle.avc_make_headers.specs.HeaderWriting.{IsHeader};
ghost use Rattle.avc_make.specs.SliceMbs.{earlier_mbs, own_start};
ghost use Rattle.avc_make.specs.SliceSteps.{IsOf, AreInfoOf};

use crate::slice::CodedSlice;
use avc_mbsyntax::Context;
use avc_neigh::{Motion, NearMode, NeighbourInfo, Row, TotalCoeffs};
use avc_types::{BlockLevels, Levels, OutOfMemory, Syntax};
use std::alloc::Global;

// A slice that is written is slice 1 of its picture, and slice 0 has all macroblocks before it.
const EARLIER_SLICE: u32 = 0;

const OWN_SLICE: u32 = 1;

// QP_Y of a slice whose parameter set and header add nothing (7.4.3)
const QP_AT_FIRST: i32 = 26;

/// A row before the slice's first macroblock.
pub(crate) fn row_before(alloc: Global, slice: &CodedSlice) -> Result<Row, OutOfMemory>
    ensures { IfOk result
        (λ row. AreInfoOf (own_start slice.now).width (earlier_mbs slice.now) row) }
{
    let mut row = Row::new(alloc, slice.sps.width_in_mbs())?;
    let earlier = info(EARLIER_SLICE, all_total_coeffs(0));
    'earlier: for _ in 0..slice.header.first_mb_in_slice.get() {
        row.put(&earlier);
    }
    Ok(row)
}

/// Adds the slice's next macroblock.
pub(crate) fn put_info(row: &mut Row, syntax: &Syntax)
    ensures { (s : SliceStart) (before : List PicMb) (m : Mb) → s.slice ≡ 1 →
        m.syntax ≡ syntax_of syntax.now
        → AreInfoOf s.width before row.old → AreInfoOf s.width (before ++ placed s m ∷ []) row.new }
{
    row.put(&info(OWN_SLICE, total_coeffs_of(syntax)));
}

/// The context of the slice's first macroblock, but for what stands beside it.
pub(crate) fn first_context(slice: &CodedSlice) -> Context
    requires { IsHeader slice.now.sps slice.now.pps slice.now.header }
    ensures own { IsOf (own_start slice.now) result }
    ensures qp { result.qp ≡ (own_start slice.now).qp }
{
    Context {
        is_p: slice.header.is_p(),
        num_ref_idx_active: slice.header.num_ref_idx_active as u8,
        qp: (QP_AT_FIRST + slice.pps.pic_init_qp_minus26 + slice.header.slice_qp_delta) as u8,
        left: None,
        up: None,
    }
}

/// The context of the slice's next macroblock, after one with this QP_Y.
pub(crate) fn context_beside(first: &Context, qp: u8, row: &Row) -> Context
    ensures { (s : SliceStart) (before : List PicMb) → IsOf s first.now →
        AreInfoOf s.width before row.now → result ≡ context s before qp }
{
    let around = row.around(OWN_SLICE);
    Context {
        is_p: first.is_p,
        num_ref_idx_active: first.num_ref_idx_active,
        qp,
        left: total_coeffs_in(around.a),
        up: total_coeffs_in(around.b),
    }
}

fn total_coeffs_in(info: Option<&NeighbourInfo>) -> Option<TotalCoeffs>
    ensures { result ≡ option_map (λ f. f.total_coeffs) (option_copied info.entry) }
{
    match info {
        Some(info) => Some(info.total_coeffs),
        None => None,
    }
}

// what is asked of a macroblock while others are written: not its modes and not its motion
fn info(slice: u32, total_coeffs: TotalCoeffs) -> NeighbourInfo
    ensures slice { result.slice ≡ slice }
    ensures total_coeffs { result.total_coeffs ≡ total_coeffs }
{
    NeighbourInfo {
        slice,
        total_coeffs,
        modes: [NearMode::Absent; 16],
        motion: [Motion::Absent; 16],
    }
}

/// total_coeff of each block of a macroblock (9.2.1), which later macroblocks ask for.
pub fn total_coeffs_of(syntax: &Syntax) -> TotalCoeffs
    ensures { result ≡ total_coeffs_of (syntax_of syntax.now) }
{
    match syntax {
        Syntax::PSkip => all_total_coeffs(0),
        Syntax::IPcm { .. } => all_total_coeffs(16),
        Syntax::INxN { levels, .. } => residual_total_coeffs(levels),
        Syntax::I16x16 { levels, .. } => residual_total_coeffs(levels),
        Syntax::PInter { levels, .. } => residual_total_coeffs(levels),
    }
}

// this total_coeff for each block
fn all_total_coeffs(total_coeff: u8) -> TotalCoeffs
    ensures { result ≡ all_total_coeffs total_coeff }
{
    TotalCoeffs {
        luma: [total_coeff; 16],
        cb: [total_coeff; 4],
        cr: [total_coeff; 4],
    }
}

// without the DC blocks
fn residual_total_coeffs<const MAXN: usize>(levels: &BlockLevels<MAXN>) -> TotalCoeffs
    ensures { result ≡ residual_total_coeffs (residual_of [] levels.now) }
{
    TotalCoeffs {
        luma: total_coeffs(&levels.luma),
        cb: total_coeffs(&levels.cb_ac),
        cr: total_coeffs(&levels.cr_ac),
    }
}

fn total_coeffs<const MAXN: usize, const N: usize>(blocks: &[Levels<MAXN>; N]) -> [u8; N]
    ensures { result ≡ map total_coeff blocks.now }
{
    let mut counts = [0; N];
    'blocks: for k in 0..N {
        counts[k] = blocks[k].total_coeff();
    }
    counts
}
