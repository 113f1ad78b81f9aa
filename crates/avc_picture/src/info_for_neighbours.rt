//! What later macroblocks are told of one (6.4).

ghost use Rattle.std.specs.Prelude.{◌≡◌, true, map, All, OnOk};
ghost use Rattle.std.specs.Option.{option_copied};
ghost use Rattle.avc_types.specs.Macroblock.{total_coeff};
ghost use Rattle.avc_types.specs.References.{result_map};
ghost use Rattle.avc_neigh.specs.Around.{info_of};
ghost use Rattle.avc_neigh.specs.BlockNear.{HasModes};
ghost use Rattle.avc_neigh.specs.Modes.{IsMode};
ghost use Rattle.avc_neigh.specs.TotalCoeffs as total_coeffs_;
ghost use Rattle.avc_neigh.specs.TotalCoeffs.{all_total_coeffs as each_total_coeff};
ghost use Rattle.avc_neigh.specs.TotalCoeffs.{total_coeffs_of};
ghost use Rattle.avc_motion.specs.Motion.{AreOfOneMotion, HasMotion, has_one_motion};
ghost use Rattle.avc_picture.specs.MacroblockInfo.{AreModes, HasRems, IsNeighbourInfo};

use avc_motion::motion;
use avc_neigh::{NearMode, NeighbourInfo, Neighbours, TotalCoeffs, intra4x4_modes};
use avc_types::{BlockLevels, Fault, Levels, Mb, Syntax};

/// Intra_4x4_DC, for which an intra macroblock counts that is not I_NxN.
const DC: u8 = 2;

/// Writes total_coeff of each of these blocks.
fn set_counts<const MAXN: usize, const N: usize>(counts: &mut [u8; N], blocks: &[Levels<MAXN>; N])
    ensures { counts.new ≡ map total_coeff blocks.now }
{
    for k in 0..N {
        counts[k] = blocks[k].total_coeff();
    }
}

/// Of the blocks that are coded (9.2.1).
fn set_coded<const MAXN: usize>(total_coeffs: &mut TotalCoeffs, levels: &BlockLevels<MAXN>)
    ensures luma { total_coeffs.new.luma ≡ map total_coeff levels.now.luma }
    ensures cb { total_coeffs.new.cb ≡ map total_coeff levels.now.cb_ac }
    ensures cr { total_coeffs.new.cr ≡ map total_coeff levels.now.cr_ac }
{
    set_counts(&mut total_coeffs.luma, &levels.luma);
    set_counts(&mut total_coeffs.cb, &levels.cb_ac);
    set_counts(&mut total_coeffs.cr, &levels.cr_ac);
}

/// Sets total_coeff of each block to this number.
fn set_all(total_coeffs: &mut TotalCoeffs, count: u8)
    ensures { total_coeffs.new ≡ each_total_coeff count }
{
    total_coeffs.luma = [count; 16];
    total_coeffs.cb = [count; 4];
    total_coeffs.cr = [count; 4];
}

/// total_coeff of the blocks of a macroblock (9.2.1).
fn set_total_coeffs(total_coeffs: &mut TotalCoeffs, mb: &Mb)
    ensures { total_coeffs.new ≡ total_coeffs_of mb.now.syntax }
{
    match &mb.syntax {
        Syntax::PSkip => set_all(total_coeffs, 0),
        Syntax::IPcm { .. } => set_all(total_coeffs, 16),
        Syntax::INxN { levels, .. } => set_coded(total_coeffs, levels),
        Syntax::I16x16 { levels, .. } => set_coded(total_coeffs, levels),
        Syntax::PInter { levels, .. } => set_coded(total_coeffs, levels),
    }
}

/// Intra4x4PredMode of the blocks of a macroblock, as those beside them ask for it (8.3.1.1).
fn set_modes(
    modes: &mut [NearMode; 16],
    mb: &Mb,
    neighbours: &Neighbours<'_>,
    constrained_intra_pred: bool,
)
    requires { HasRems mb.now.syntax }
    ensures modes { AreModes (info_of neighbours.now) constrained_intra_pred mb.now.syntax
        modes.new }
    ensures within { HasModes (option_copied neighbours.now.a) →
        HasModes (option_copied neighbours.now.b) → All IsMode modes.new }
{
    match &mb.syntax {
        Syntax::PSkip | Syntax::PInter { .. } => *modes = [NearMode::Inter; 16],
        Syntax::IPcm { .. } | Syntax::I16x16 { .. } => *modes = [NearMode::Mode(DC); 16],
        Syntax::INxN { modes: coded, .. } => *modes = intra4x4_modes(
            neighbours,
            constrained_intra_pred,
            coded,
        ),
    }
}

/// Writes into `info` what is told of a macroblock of this slice with these neighbours.
/// `VectorRange` where a component of one of its vectors is no 16-bit number; the info is then any.
pub(crate) fn set_neighbour_info(
    info: &mut NeighbourInfo,
    mb: &Mb,
    slice: u32,
    neighbours: &Neighbours<'_>,
    constrained_intra_pred: bool,
) -> Result<(), Fault>
    requires { HasRems mb.now.syntax }
    ensures motion { HasMotion (info_of neighbours.now) mb.now.syntax
        (result_map (λ _. info.new.motion) result) }
    ensures one { has_one_motion mb.now.syntax ≡ true →
        OnOk result (AreOfOneMotion info.new.motion) }
    ensures told { OnOk result
        (IsNeighbourInfo slice (info_of neighbours.now) constrained_intra_pred mb.now info.new) }
{
    motion(mb, neighbours, &mut info.motion)?;
    info.slice = slice;
    set_total_coeffs(&mut info.total_coeffs, mb);
    set_modes(&mut info.modes, mb, neighbours, constrained_intra_pred);
    Ok(())
}
