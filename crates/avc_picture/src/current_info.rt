//! What neighbours are told of the macroblock that is decoded, which is written once for all that
//! stand still one after another.

ghost use Rattle.std.specs.Prelude.{◌≡◌, true, OnOk};
ghost use Rattle.avc_types.specs.Macroblock.{p_skip};
ghost use Rattle.avc_types.specs.References.{result_map};
ghost use Rattle.avc_neigh.specs.Around.{info_of};
ghost use Rattle.avc_motion.specs.Motion.{AreOfOneMotion, HasMotion, has_one_motion};
ghost use Rattle.avc_motion.specs.Motion.{still_blocks};
ghost use Rattle.avc_picture.specs.MacroblockInfo.{HasRems, IsNeighbourInfo, still_info};

use crate::info_for_neighbours::set_neighbour_info;
use avc_motion::stands_still;
use avc_neigh::{Motion, NearMode, NeighbourInfo, Neighbours, TotalCoeffs};
use avc_types::{Fault, Mb, Mv, Syntax};
use std::marker::Model;

/// What is told of a skipped macroblock of slice 0 that stands still.
const STILL: NeighbourInfo = NeighbourInfo {
    slice: 0,
    total_coeffs: TotalCoeffs {
        luma: [0; 16],
        cb: [0; 4],
        cr: [0; 4],
    },
    modes: [NearMode::Inter; 16],
    motion: [Motion::Inter {
        ref_idx: 0,
        mv: Mv { x: 0, y: 0 },
    }; 16],
};

/// What neighbours are told of the macroblock that is decoded. A contract sees the info alone.
#[derive(Drop)]
pub(crate) struct CurrentInfo {
    info: NeighbourInfo,

    /// Whether it is that of a skipped macroblock that stands still.
    is_still: bool,
}

impl Model for CurrentInfo {
    ghost use Rattle.std.specs.Prelude.{◌≡◌, true};
    ghost use Rattle.avc_neigh.specs.declared.neighbour_info.NeighbourInfo.{NeighbourInfo};
    ghost use Rattle.avc_picture.specs.MacroblockInfo.{still_info};

    ghost Value = { NeighbourInfo };

    ghost view = { λ c. c.info };

    ghost invariant = { λ c. c.is_still ≡ true → c.info ≡ still_info c.info.slice };
}

/// Whether a macroblock is skipped.
pub(crate) fn is_skipped(mb: &Mb) -> bool
    ensures { result ≡ true → mb.now.syntax ≡ p_skip }
{
    match &mb.syntax {
        Syntax::PSkip => true,
        Syntax::IPcm { .. } | Syntax::INxN { .. } | Syntax::I16x16 { .. } | Syntax::PInter { .. } =>
            false,
    }
}

impl CurrentInfo {
    /// Of no macroblock yet.
    pub(crate) fn new() -> Self {
        CurrentInfo {
            info: STILL,
            is_still: true,
        }
    }

    /// The info.
    pub(crate) fn info(&self) -> &NeighbourInfo
        ensures { result.now ≡ self.now }
    {
        &self.info
    }

    /// Whether it is that of a skipped macroblock that stands still.
    pub(crate) fn is_still(&self) -> bool
        ensures { result ≡ true → self.now ≡ still_info self.now.slice }
    {
        self.is_still
    }

    /// Whether this macroblock, of which it is, is skipped and is known to stand still.
    pub(crate) fn stands_still(&self, mb: &Mb) -> bool
        ensures skipped { result ≡ true → mb.now.syntax ≡ p_skip }
        ensures still { result ≡ true → self.now.motion ≡ still_blocks }
    {
        self.is_still && is_skipped(mb)
    }

    /// That of a skipped macroblock of this slice that stands still. Where it is that already
    /// nothing is written: who reads it next need not wait until it is.
    fn set_still(&mut self, slice: u32)
        ensures { self.new ≡ still_info slice }
    {
        if !self.is_still || self.info.slice != slice {
            self.info = NeighbourInfo { slice, ..STILL };
            self.is_still = true;
        }
    }

    /// Writes what is told of a macroblock of this slice with these neighbours. `VectorRange` where
    /// a component of one of its vectors is no 16-bit number; the info is then any.
    pub(crate) fn set(
        &mut self,
        mb: &Mb,
        slice: u32,
        neighbours: &Neighbours<'_>,
        constrained_intra_pred: bool,
    ) -> Result<(), Fault>
        requires { HasRems mb.now.syntax }
        ensures motion { HasMotion (info_of neighbours.now) mb.now.syntax
            (result_map (λ _. self.new.motion) result) }
        ensures one { has_one_motion mb.now.syntax ≡ true →
            OnOk result (AreOfOneMotion self.new.motion) }
        ensures told { OnOk result
            (IsNeighbourInfo slice (info_of neighbours.now) constrained_intra_pred mb.now
            self.new) }
    {
        if is_skipped(mb) && stands_still(neighbours) {
            self.set_still(slice);
            return Ok(());
        }
        self.is_still = false;
        set_neighbour_info(
            &mut self.info,
            mb,
            slice,
            neighbours,
            constrained_intra_pred,
        )
    }
}
