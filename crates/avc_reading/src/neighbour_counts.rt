//! What later macroblocks ask of one: total_coeff of its blocks (9.2.1), its prediction modes and
//! its motion.

ghost use Rattle.std.specs.Prelude.{◌≡◌, map};
ghost use Rattle.std.specs.Option.{option_copied, option_map};
ghost use Rattle.avc_types.specs.Macroblock.{total_coeff};
ghost use Rattle.avc_neigh.specs.TotalCoeffs.{all_total_coeffs, total_coeffs_of};

use avc_neigh::{NeighbourInfo, TotalCoeffs};
use avc_selection::Derived;
use avc_types::{BlockLevels, Levels, Mb, Syntax};

/// What is known of a macroblock of this slice that was read, for which this follows from its
/// neighbours.
pub(crate) fn info_of(mb: &Mb, slice: u32, derived: &Derived) -> NeighbourInfo
    ensures slice { result.slice ≡ slice }
    ensures total_coeffs { result.total_coeffs ≡ total_coeffs_of mb.now.syntax }
    ensures modes { result.modes ≡ derived.now.modes }
    ensures motion { result.motion ≡ derived.now.motion }
{
    NeighbourInfo {
        slice,
        total_coeffs: total_coeffs_of(mb),
        modes: derived.modes,
        motion: derived.motion,
    }
}

/// total_coeff of a neighbouring macroblock, where it is available.
pub(crate) fn total_coeffs_in(info: Option<&NeighbourInfo>) -> Option<&TotalCoeffs>
    ensures { option_copied result ≡ option_map (λ f. f.total_coeffs) (option_copied info.entry) }
{
    match info {
        Some(info) => Some(&info.total_coeffs),
        None => None,
    }
}

fn total_coeffs_of(mb: &Mb) -> TotalCoeffs
    ensures { result ≡ total_coeffs_of mb.now.syntax }
{
    match &mb.syntax {
        Syntax::PSkip => all(0),
        Syntax::IPcm { .. } => all(16),
        Syntax::INxN { levels, .. } => of_levels(levels),
        Syntax::I16x16 { levels, .. } => of_levels(levels),
        Syntax::PInter { levels, .. } => of_levels(levels),
    }
}

/// This total_coeff for each block.
fn all(count: u8) -> TotalCoeffs
    ensures { result ≡ all_total_coeffs count }
{
    TotalCoeffs {
        luma: [count; 16],
        cb: [count; 4],
        cr: [count; 4],
    }
}

fn of_levels<const MAXN: usize>(levels: &BlockLevels<MAXN>) -> TotalCoeffs
    ensures luma { result.luma ≡ map total_coeff levels.now.luma }
    ensures cb { result.cb ≡ map total_coeff levels.now.cb_ac }
    ensures cr { result.cr ≡ map total_coeff levels.now.cr_ac }
{
    TotalCoeffs {
        luma: counts(&levels.luma),
        cb: counts(&levels.cb_ac),
        cr: counts(&levels.cr_ac),
    }
}

fn counts<const MAXN: usize, const N: usize>(blocks: &[Levels<MAXN>; N]) -> [u8; N]
    ensures { result ≡ map total_coeff blocks.now }
{
    let mut counts = [0; N];
    for k in 0..N {
        counts[k] = blocks[k].total_coeff();
    }
    counts
}
