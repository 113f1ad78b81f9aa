//! What is kept of a macroblock for its neighbours.

ghost use Rattle.std.specs.Prelude.{◌≡◌};

use avc_types::Mv;

/// total_coeff of each block of a macroblock (9.2.1), in block order.
#[derive(Clone, Copy)]
pub struct TotalCoeffs {
    /// Of the luma blocks.
    pub luma: [u8; 16],

    /// Of the Cb blocks.
    pub cb: [u8; 4],

    /// Of the Cr blocks.
    pub cr: [u8; 4],
}

/// What a luma block is to the prediction of its neighbours' 4x4 intra modes (8.3.1.1).
#[derive(Clone, Copy)]
pub enum NearMode {
    /// Not available.
    Absent,

    /// In an inter macroblock.
    Inter,

    /// In an intra macroblock: Intra4x4PredMode, which counts as 2 (DC) where the macroblock is not
    /// I_NxN.
    Mode(u8),
}

/// What a luma block has for inter prediction (8.4.1.3.2).
#[derive(Clone, Copy)]
pub enum Motion {
    /// Not available.
    Absent,

    /// In an intra macroblock.
    Intra,

    /// The reference index and the vector.
    // the index in sixteen bits: a motion has eight bytes then, of which a vector holds whole ones
    Inter { ref_idx: u16, mv: Mv },
}

/// What later macroblocks ask of a decoded one.
#[derive(Clone, Copy)]
pub struct NeighbourInfo {
    /// The number of its slice in the picture, from 0.
    pub slice: u32,

    pub total_coeffs: TotalCoeffs,

    /// Of the luma blocks, in block order.
    pub modes: [NearMode; 16],

    /// Of the luma blocks, in block order.
    pub motion: [Motion; 16],
}

impl NeighbourInfo {
    ghost use Rattle.avc_neigh.specs.Around.{is_intra_info};

    /// Takes over what another one says: field by field, each of which is copied in place.
    #[inline]
    pub(crate) fn copy_from(&mut self, other: &NeighbourInfo)
        ensures { self.new ≡ other.now }
    {
        self.slice = other.slice;
        self.total_coeffs = other.total_coeffs;
        self.modes = other.modes;
        self.motion = other.motion;
    }

    /// Whether the macroblock is intra.
    #[inline]
    pub fn is_intra(&self) -> bool
        ensures { result ≡ is_intra_info self.now }
    {
        match self.motion[0] {
            Motion::Intra => true,
            _ => false,
        }
    }
}
