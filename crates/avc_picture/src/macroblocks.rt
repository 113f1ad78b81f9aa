//! The macroblocks of a picture, decoded one after another (8.3 to 8.7).

ghost use Rattle.std.specs.Prelude.{◌≡◌, ℕ, suc, ◌*◌, ◌+◌, ◌^◌, ◌<◌, ◌≤◌, length, take, Some, None};
ghost use Rattle.std.specs.Prelude.{slice_get, IfOk, IsOk, OnOk};
ghost use Rattle.std.specs.Option.{option_copied, option_map};
ghost use Rattle.avc_types.specs.Pictures.{Coded};
ghost use Rattle.avc_params.specs.Limits.{height_in_mbs, width_in_mbs};
ghost use Rattle.avc_params.specs.Within.{IsPps, IsSps};
ghost use Rattle.avc_mbsyntax.specs.SliceData.{SliceStart, left_total_coeffs, up_total_coeffs};
ghost use Rattle.avc_plane.specs.Frames.{planes_of};
ghost use Rattle.avc_plane.specs.Plane.{HasSamples};
ghost use Rattle.avc_plane.specs.Planes.{component as plane_at, empty_planes, samples_of};
ghost use Rattle.avc_picture_core.specs.Built.{size_of};
ghost use Rattle.avc_deblock.specs.FilterInfo.{Names};
ghost use Rattle.avc_picture_core.specs.References.{AreUsable};
ghost use Rattle.avc_picture.specs.Decoded.{deblocked};
ghost use Rattle.avc_picture.specs.FilterRows.{kept_info};
ghost use Rattle.avc_picture.specs.FirstMbs.{HasSameSize, HasSets, HoldsFirst, IsDecoded, IsSlice};
ghost use Rattle.avc_picture.specs.MacroblockInfo.{IsRead};
ghost use Rattle.avc_picture.specs.Memory.{with_info, HasMemoryFor, LeavesAll, TakesMemory};
ghost use Rattle.avc_picture.specs.RowLate.{covering_address, row_late};
ghost use Rattle.avc_picture.specs.StillRuns.{AreCopiedFrom, GoesOnStill};

use crate::current_info::CurrentInfo;
use crate::filter_rows::FilterRows;
use crate::memory::{FactRows, PictureMemory};
use crate::next_place::NextPlace;
use crate::slice_context::SliceContext;
use crate::still_run::StillRun;
use avc_deblock::MbInfo;
use avc_neigh::{NeighbourInfo, Row, TotalCoeffs};
use avc_params::{Pps, Sps};
use avc_picture_core::Canvas;
use avc_plane::Planes;
use avc_types::{Fault, Mb, OutOfMemory};
use std::alloc::Global;
use std::marker::Model;

/// The macroblocks of a picture so far, with all that later ones and the deblocking filter ask of
/// them.
#[derive(Drop)]
pub(crate) struct Macroblocks<const PAD: usize> {
    canvas: Canvas,

    /// Their samples, filtered one row late.
    planes: Planes<PAD>,
    row: Row,
    filter_rows: FilterRows,

    /// The address of the macroblock that comes next.
    next: usize,

    /// Something of the rows that were read ahead, so that they are read.
    mixture: u8,
}

impl<const PAD: usize> Model for Macroblocks<PAD> {
    ghost use Rattle.avc_picture.specs.FirstMbs.{MbsState};

    ghost Value = { MbsState };

    ghost use Rattle.avc_picture.specs.MacroblocksState.{state_of, AgreesWithCanvas};

    ghost view = { state_of };

    ghost invariant = { AgreesWithCanvas };
}

/// total_coeff of a neighbouring macroblock, where it is available.
fn total_coeffs_of(info: Option<&NeighbourInfo>) -> Option<&TotalCoeffs>
    ensures { option_copied result ≡ option_map (λ f. f.total_coeffs) (option_copied info.entry) }
{
    match info {
        Some(info) => Some(&info.total_coeffs),
        None => None,
    }
}

/// The sample in column `x` and row `y` of a component: 0 is luma, 1 Cb, 2 Cr.
fn sample_of<const PAD: usize>(planes: &Planes<PAD>, component: usize, x: usize, y: usize) -> u8
    requires column { x < (plane_at (planes_of planes.now) component).width }
    requires row { y < (plane_at (planes_of planes.now) component).height }
    ensures { result ≡ samples_of (planes_of planes.now) component x y }
{
    match component {
        0 => planes.luma.get(x, y),
        1 => planes.cb.get(x, y),
        _ => planes.cr.get(x, y),
    }
}

impl<const PAD: usize> Macroblocks<PAD> {
    /// Before the first macroblock of a picture of these sets. Only this call takes memory, where
    /// there is none of this size. What is left over of this size beside that stays left over.
    pub(crate) fn new(
        alloc: Global,
        sps: &Sps,
        pps: &Pps,
        memory: &mut PictureMemory<PAD>,
    ) -> Result<Self, OutOfMemory>
        requires padding { PAD < 2 ^ 29 }
        requires sps { IsSps sps.now }
        requires pps { IsPps pps.now }
        ensures holds { IfOk result (λ m. (c : Coded) (names : Names) → HasSets sps.now pps.now c →
            HoldsFirst c names m) }
        ensures next { IfOk result (λ m. m.next ≡ 0) }
        ensures width { IfOk result (λ m. m.canvas.width ≡ width_in_mbs sps.now) }
        ensures height { IfOk result (λ m. m.canvas.height ≡ height_in_mbs sps.now) }
        ensures memory { HasMemoryFor (width_in_mbs sps.now) (height_in_mbs sps.now) memory.old →
            IsOk result }
        ensures kept { TakesMemory (width_in_mbs sps.now) (height_in_mbs sps.now) memory.old result
            memory.new }
    {
        let columns = sps.width_in_mbs();
        let width = columns as usize;
        let height = sps.height_in_mbs() as usize;
        let info = memory.info(alloc, columns)?;
        let planes = match memory.planes(alloc, width, height) {
            Ok(planes) => planes,
            Err(refusal) => {
                memory.keep_info(info);
                return Err(refusal);
            }
        };
        planes.luma.holds_bytes();
        planes.cb.holds_bytes();
        planes.cr.holds_bytes();
        Ok(Macroblocks {
            canvas: Canvas {
                width,
                height,
                chroma_qp_index_offset: pps.chroma_qp_index_offset as i8,
                constrained_intra_pred: pps.constrained_intra_pred_flag,
            },
            planes,
            row: info.row,
            filter_rows: info.filter_rows,
            next: 0,
            mixture: 0,
        })
    }

    /// total_coeff of the blocks of the macroblocks to the left of the next one and above it, where
    /// these are available to this slice (9.2.1).
    pub(crate) fn left_and_above(&self, slice: u32) -> (Option<&TotalCoeffs>, Option<&TotalCoeffs>)
        ensures left { (c : Coded) (names : Names) (s : SliceStart) → HoldsFirst c names self.now →
            s.width ≡ c.width → s.slice ≡ slice
            → option_copied result.0 ≡ left_total_coeffs s (take self.now.next c.mbs) }
        ensures up { (c : Coded) (names : Names) (s : SliceStart) → HoldsFirst c names self.now →
            s.width ≡ c.width → s.slice ≡ slice
            → option_copied result.1 ≡ up_total_coeffs s (take self.now.next c.mbs) }
    {
        let around = self.row.around(slice);
        (total_coeffs_of(around.a), total_coeffs_of(around.b))
    }

    /// Decodes the macroblock that comes next, and filters the row above where it is the last of
    /// its own (8.7). `VectorRange` where a component of one of its vectors is no 16-bit number,
    /// `RefMissing` where a block has no reference picture, `IntraUnavailable` where an intra
    /// prediction has not the samples that it needs: the first of these. After a fault nothing more
    /// is to be asked of the macroblocks. What neighbours are told is written into `info`, where
    /// anything may stand unless `run` has macroblocks that were copied ahead: then it is what was
    /// told of the one to the left, which stood still.
    #[tactic(auto, using(crate::proofs::Slices::asked))]
    pub(crate) fn decode(
        &mut self,
        mb: &Mb,
        slice: &SliceContext<'_, PAD>,
        info: &mut CurrentInfo,
        run: &mut StillRun,
    ) -> Result<(), Fault>
        requires room { self.old.next < self.old.canvas.width * self.old.canvas.height }
        requires mb { IsRead mb.now }
        requires references { AreUsable self.old.canvas.width self.old.canvas.height
            slice.now.references }
        requires copied { AreCopiedFrom slice.now.references self.old.canvas.width self.old.next
            run.old.copied self.old.canvas.planes }
        requires still { GoesOnStill run.old.copied slice.now.number self.old.row info.old }
        ensures size { HasSameSize self.old self.new }
        ensures next { OnOk result (self.new.next ≡ suc self.old.next) }
        ensures copied { OnOk result
            (AreCopiedFrom slice.now.references self.new.canvas.width self.new.next run.new.copied
            self.new.canvas.planes) }
        ensures still { OnOk result
            (GoesOnStill run.new.copied slice.now.number self.new.row info.new) }
        ensures decoded { (c : Coded) (names : Names) → HoldsFirst c names self.old
            → slice_get c.mbs self.old.next
            ≡ Some (record { slice = slice.now.number; mb = mb.now })
            → IsSlice c names slice.now → IsDecoded c names self.old.next result self.new }
    {
        NextPlace {
            canvas: &self.canvas,
            row: &self.row,
            place: self.filter_rows.place(),
        }
        .build(&mut self.planes, mb, slice, info, run, &mut self.mixture)?;
        let stands_still = info.stands_still(mb);
        let info = info.info();
        self.filter_rows
            .filter_late(&mut self.planes, self.canvas.chroma_qp_index_offset);
        self.filter_rows.put(mb, info, slice, stands_still);
        self.row.put(info);
        self.next += 1;
        Ok(())
    }

    /// The sample in column `x` and row `y` of a component, which is of a macroblock so far: 0 is
    /// luma, 1 Cb, 2 Cr.
    pub(crate) fn sample(&self, component: usize, x: usize, y: usize) -> u8
        requires column { x < size_of component * self.now.canvas.width }
        requires row { y < size_of component * self.now.canvas.height }
        requires built { covering_address self.now.canvas.width component x y < self.now.next }
        ensures { (c : Coded) (names : Names) → HoldsFirst c names self.now
            → result ≡ samples_of (row_late c (empty_planes c.width c.height) self.now.next)
            component x y }
    {
        sample_of(&self.planes, component, x, y)
    }

    /// What the filter is told of the macroblock with this address, where that is kept: of those so
    /// far in the row of the macroblock that comes next, and in the two rows above that.
    pub(crate) fn filter_info(&self, address: usize) -> Option<&MbInfo>
        ensures info { option_copied result
            ≡ kept_info self.now.canvas.width self.now.filter_info address }
        ensures count { length self.now.filter_info ≡ self.now.next }
    {
        self.filter_rows.info(address)
    }

    /// The samples of the picture after deblocking (8.7).
    pub(crate) fn deblocked(self, memory: &mut PictureMemory<PAD>) -> Planes<PAD>
        ensures luma { HasSamples result.luma }
        ensures cb { HasSamples result.cb }
        ensures cr { HasSamples result.cr }
        ensures samples { (c : Coded) (names : Names) → HoldsFirst c names self.entry →
            self.entry.next ≡ length c.mbs
            → length c.mbs ≡ c.width * c.height → planes_of result ≡ deblocked c }
        ensures memory { memory.new ≡ with_info self.entry.canvas.width memory.old }
    {
        let mut planes = self.planes;
        self.filter_rows
            .filter_last_row(&mut planes, self.canvas.chroma_qp_index_offset);
        memory.keep_info(FactRows {
            row: self.row,
            filter_rows: self.filter_rows,
        });
        planes
    }

    /// Gives the memory of a picture back that is refused.
    pub(crate) fn discard(self, memory: &mut PictureMemory<PAD>)
        ensures { LeavesAll self.entry.canvas.width self.entry.canvas.height memory.old memory.new }
    {
        memory.keep_open(self.planes);
        memory.keep_info(FactRows {
            row: self.row,
            filter_rows: self.filter_rows,
        });
    }
}
