//! Whether two macroblocks are the same, element by element.

use avc_mbsyntax::{part_count, partitions};
use avc_types::{BlockLevels, Levels, Mb, Mvd, PMbType, Syntax};

pub(crate) fn is_same(a: &Mb, b: &Mb) -> bool {
    a.qp == b.qp && is_same_syntax(&a.syntax, &b.syntax)
}

fn is_same_syntax(a: &Syntax, b: &Syntax) -> bool {
    match a {
        Syntax::PSkip => is_skip(b),
        Syntax::IPcm { luma, cb, cr } => is_pcm(b, luma, cb, cr),
        Syntax::INxN {
            modes,
            chroma_mode,
            levels,
        } => is_nxn(b, modes, *chroma_mode, levels),
        Syntax::I16x16 {
            mode,
            chroma_mode,
            luma_dc,
            levels,
        } => is_16x16(b, *mode, *chroma_mode, luma_dc, levels),
        Syntax::PInter {
            mb_type,
            ref_idx,
            mvd,
            levels,
        } => is_inter(b, mb_type, ref_idx, mvd, levels),
    }
}

fn is_skip(b: &Syntax) -> bool {
    match b {
        Syntax::PSkip => true,
        _ => false,
    }
}

fn is_pcm(b: &Syntax, luma: &[u8; 256], cb: &[u8; 64], cr: &[u8; 64]) -> bool {
    match b {
        Syntax::IPcm {
            luma: b_luma,
            cb: b_cb,
            cr: b_cr,
        } => luma == b_luma && cb == b_cb && cr == b_cr,
        _ => false,
    }
}

fn is_nxn(b: &Syntax, modes: &[Option<u8>; 16], chroma_mode: u8, levels: &BlockLevels<16>) -> bool {
    match b {
        Syntax::INxN {
            modes: b_modes,
            chroma_mode: b_chroma_mode,
            levels: b_levels,
        } => modes == b_modes && chroma_mode == *b_chroma_mode && has_same_levels(levels, b_levels),
        _ => false,
    }
}

fn is_16x16(
    b: &Syntax,
    mode: u8,
    chroma_mode: u8,
    luma_dc: &Levels<16>,
    levels: &BlockLevels<15>,
) -> bool {
    match b {
        Syntax::I16x16 {
            mode: b_mode,
            chroma_mode: b_chroma_mode,
            luma_dc: b_luma_dc,
            levels: b_levels,
        } => {
            mode == *b_mode
                && chroma_mode == *b_chroma_mode
                && luma_dc.as_array() == b_luma_dc.as_array()
                && has_same_levels(levels, b_levels)
        }
        _ => false,
    }
}

// What stands behind the indices and the differences that the type has means nothing.
fn is_inter(
    b: &Syntax,
    mb_type: &PMbType,
    ref_idx: &[u8; 4],
    mvd: &[Mvd; 16],
    levels: &BlockLevels<16>,
) -> bool {
    match b {
        Syntax::PInter {
            mb_type: b_mb_type,
            ref_idx: b_ref_idx,
            mvd: b_mvd,
            levels: b_levels,
        } => {
            let indices = partitions(mb_type);
            let parts = part_count(mb_type);
            mb_type == b_mb_type
                && ref_idx[..indices] == b_ref_idx[..indices]
                && mvd[..parts] == b_mvd[..parts]
                && has_same_levels(levels, b_levels)
        }
        _ => false,
    }
}

fn has_same_levels<const MAXN: usize>(a: &BlockLevels<MAXN>, b: &BlockLevels<MAXN>) -> bool {
    a.luma_pattern == b.luma_pattern
        && a.chroma_pattern == b.chroma_pattern
        && a.mb_qp_delta == b.mb_qp_delta
        && are_same(&a.luma, &b.luma)
        && a.cb_dc.as_array() == b.cb_dc.as_array()
        && a.cr_dc.as_array() == b.cr_dc.as_array()
        && are_same(&a.cb_ac, &b.cb_ac)
        && are_same(&a.cr_ac, &b.cr_ac)
}

fn are_same<const MAXN: usize, const N: usize>(
    a: &[Levels<MAXN>; N],
    b: &[Levels<MAXN>; N],
) -> bool {
    for k in 0..N {
        if a[k].as_array() != b[k].as_array() {
            return false;
        }
    }
    true
}
