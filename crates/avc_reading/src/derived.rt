//! What follows for a macroblock from its neighbours, found.

ghost use Rattle.std.specs.Prelude.{◌≡◌, true, false, All};
ghost use Rattle.avc_types.specs.MacroblockFields.{syntax_of};
ghost use Rattle.avc_neigh.specs.Around.{info_of};
ghost use Rattle.avc_neigh.specs.BlockNear.{AreNxnModes};
ghost use Rattle.avc_neigh.specs.Modes.{IsRem};
ghost use Rattle.avc_reading.specs.Neighbours.{AreModes, HasRems, IsDerived, IsMotionHad};

use avc_motion::motion;
use avc_neigh::{Motion, NearMode, Neighbours, intra4x4_modes};
use avc_selection::Derived;
use avc_types::{Mb, Syntax};

/// Intra_4x4_DC, for which an intra macroblock counts that is not I_NxN.
const DC: u8 = 2;

/// The greatest rem_intra4x4_pred_mode (7.3.5.1).
const MAX_REM: u8 = 7;

/// Of a macroblock with these neighbours.
pub(crate) fn derived_of(
    mb: &Mb,
    neighbours: &Neighbours<'_>,
    constrained_intra_pred: bool,
) -> Derived
    ensures { IsDerived (info_of neighbours.now) constrained_intra_pred mb.now.syntax result }
{
    Derived {
        modes: modes_of(&mb.syntax, neighbours, constrained_intra_pred),
        motion: motion_had(mb, neighbours),
    }
}

fn motion_had(mb: &Mb, neighbours: &Neighbours<'_>) -> [Motion; 16]
    ensures { IsMotionHad (info_of neighbours.now) mb.now.syntax result }
{
    let mut blocks = [Motion::Absent; 16];
    match motion(mb, neighbours, &mut blocks) {
        Ok(()) => blocks,
        Err(_) => [Motion::Absent; 16],
    }
}

fn modes_of(
    syntax: &Syntax,
    neighbours: &Neighbours<'_>,
    constrained_intra_pred: bool,
) -> [NearMode; 16]
    ensures { HasRems (syntax_of syntax.now) →
        AreModes (info_of neighbours.now) constrained_intra_pred (syntax_of syntax.now) result }
{
    match syntax {
        Syntax::PSkip | Syntax::PInter { .. } => [NearMode::Inter; 16],
        Syntax::IPcm { .. } | Syntax::I16x16 { .. } => [NearMode::Mode(DC); 16],
        Syntax::INxN { modes, .. } => nxn_modes(modes, neighbours, constrained_intra_pred),
    }
}

fn nxn_modes(
    coded: &[Option<u8>; 16],
    neighbours: &Neighbours<'_>,
    constrained_intra_pred: bool,
) -> [NearMode; 16]
    ensures { All IsRem coded.now →
        AreNxnModes (info_of neighbours.now) constrained_intra_pred coded.now result }
{
    if are_rems(coded) {
        intra4x4_modes(neighbours, constrained_intra_pred, coded)
    } else {
        // none of those that are read
        [NearMode::Absent; 16]
    }
}

// Whether each is a number that is coded (7.3.5.1).
fn are_rems(coded: &[Option<u8>]) -> bool
    ensures yes { result ≡ true → All IsRem coded.now }
    ensures no { result ≡ false → All IsRem coded.now → ⊥ }
{
    'modes: for mode in coded {
        if !is_rem(*mode) {
            return false;
        }
    }
    true
}

fn is_rem(mode: Option<u8>) -> bool
    ensures yes { result ≡ true → IsRem mode }
    ensures no { result ≡ false → IsRem mode → ⊥ }
{
    match mode {
        Some(rem) => rem <= MAX_REM,
        None => true,
    }
}
