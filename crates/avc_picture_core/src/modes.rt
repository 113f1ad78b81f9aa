//! Prediction modes by their numbers in the syntax.
ghost use Rattle.std.specs.Prelude.{◌≡◌, ◌≤◌, All};
ghost use Rattle.avc_neigh.specs.Modes.{IsMode};
ghost use Rattle.avc_intra.specs.Luma4x4.{mode4x4_of};
ghost use Rattle.avc_intra.specs.Luma16x16.{mode16x16_of};
ghost use Rattle.avc_intra.specs.Chroma.{mode_chroma_of};
ghost use Rattle.avc_picture_core.specs.Built.{mode_number};
ghost use Rattle.avc_picture_core.specs.Modes.{IsMode-prop};

use avc_intra::{Mode4x4, Mode16x16, ModeChroma};
use avc_neigh::NearMode;

/// By Intra4x4PredMode (Table 8-2).
static MODES_4X4: [Mode4x4; 9] = [
    Mode4x4::Vertical,
    Mode4x4::Horizontal,
    Mode4x4::Dc,
    Mode4x4::DiagonalDownLeft,
    Mode4x4::DiagonalDownRight,
    Mode4x4::VerticalRight,
    Mode4x4::HorizontalDown,
    Mode4x4::VerticalLeft,
    Mode4x4::HorizontalUp,
];

/// By Intra16x16PredMode (Table 8-4).
static MODES_16X16: [Mode16x16; 4] = [
    Mode16x16::Vertical,
    Mode16x16::Horizontal,
    Mode16x16::Dc,
    Mode16x16::Plane,
];

/// By intra_chroma_pred_mode (Table 8-5).
static MODES_CHROMA: [ModeChroma; 4] = [
    ModeChroma::Dc,
    ModeChroma::Horizontal,
    ModeChroma::Vertical,
    ModeChroma::Plane,
];

/// What the blocks of a macroblock have as their intra prediction modes.
#[derive(Clone, Copy)]
pub(crate) struct BlockModes<'a> {
    pub in_order: &'a [NearMode; 16],

    ghost each: { All IsMode in_order.now } by { Prim.hlevel (IsMode-prop) },
}

/// The mode of a block of an I_NxN macroblock.
pub(crate) fn mode4x4(mode: NearMode) -> Mode4x4
    requires { IsMode mode }
    ensures { result ≡ mode4x4_of (mode_number mode) }
{
    match mode {
        NearMode::Absent | NearMode::Inter => Mode4x4::Dc,
        NearMode::Mode(number) => MODES_4X4[usize::from(number)],
    }
}

/// The mode with this number, 0 to 3.
pub(crate) fn mode16x16(number: u8) -> Mode16x16
    requires { number ≤ 3 }
    ensures { result ≡ mode16x16_of number }
{
    MODES_16X16[usize::from(number)]
}

/// The mode with this number, 0 to 3.
pub(crate) fn mode_chroma(number: u8) -> ModeChroma
    requires { number ≤ 3 }
    ensures { result ≡ mode_chroma_of number }
{
    MODES_CHROMA[usize::from(number)]
}
