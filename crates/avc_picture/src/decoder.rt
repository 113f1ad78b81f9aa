//! The decoder of one picture: its slices, one after another, and its end.

ghost use Rattle.std.specs.Prelude.{◌≡◌, ◌==◌, ◌^◌, ◌<◌, ◌≤◌, ◌*◌, is_some, IfOk, IfSome, IsOk};
ghost use Rattle.avc_params.specs.Limits.{height_in_mbs, size_in_mbs, width_in_mbs};
ghost use Rattle.avc_params.specs.Within.{IsPps, IsSps};
ghost use Rattle.avc_slice.specs.Within.{IsHeader};
ghost use Rattle.avc_plane.specs.Frames.{padded_planes_of, AreSized};
ghost use Rattle.avc_picture_core.specs.Built.{size_of};
ghost use Rattle.avc_picture.specs.Decoding.{no_slice_yet, AreFramesOf, HasNoFault, HasRead};
ghost use Rattle.avc_picture.specs.Decoding.{IsFinishAnswer, IsFull, IsSliceAnswer};
ghost use Rattle.avc_picture.specs.DecoderState.{number_after};
ghost use Rattle.avc_picture.specs.Memory.{HasMemoryFor, LeavesMemory, LeavesAll, TakesMemory};
ghost use Rattle.avc_picture.specs.OpenPicture.{HasFiltered, HasFilterInfo, HasSample, IsCovered};
ghost use Rattle.avc_picture.specs.OpenPicture.{IsKept, NamesPlaces};

use crate::macroblocks::Macroblocks;
use crate::memory::PictureMemory;
use crate::slice_decoding::decode_slice;
use avc_deblock::MbInfo;
use avc_params::{Pps, Sps};
use avc_plane::{Frame, PaddedPlanes};
use avc_slice::Slice;
use avc_types::{Fault, History, OutOfMemory};
use std::alloc::Global;
use std::marker::Model;

/// Decodes the slices of one picture.
#[derive(Drop)]
pub struct PictureDecoder<const PAD: usize> {
    sps: Sps,
    pps: Pps,
    macroblocks: Macroblocks<PAD>,

    // how many macroblocks have been read, a faulty one included
    read: u32,

    // how many slices have macroblocks, which is the number of the next one
    slice_count: u32,
    fault: Option<Fault>,
    slices: History<Slice>,
    frames: History<Frame<PAD>>,
}

// All memory of a picture is taken where it begins, so that it is not refused later.
impl<const PAD: usize> Model for PictureDecoder<PAD> {
    ghost use Rattle.avc_picture.specs.Decoding.{Decoding};
    ghost use Rattle.avc_picture.specs.DecoderState.{IsDecoderState};

    ghost Value = { Decoding PAD };

    ghost view = { λ d. record {
      sps = d.sps;
      pps = d.pps;
      frames = d.frames.items;
      slices = d.slices.items;
    } };

    ghost invariant = { λ d. IsDecoderState d.sps d.pps d.frames.items d.slices.items d.slice_count d.read d.fault
        d.macroblocks };
}

/// The number of the slice behind one with this number, in which the picture went from `before`
/// macroblocks to `after`.
fn number_after(number: u32, before: u32, after: u32) -> u32
    requires few { number ≤ before }
    requires small { before < 2 ^ 31 }
    ensures { result ≡ number_after number before after }
{
    if before == after { number } else { number + 1 }
}

impl<const PAD: usize> PictureDecoder<PAD> {
    /// A picture with these parameter sets, and no slice yet. `frames` are those of the buffer in
    /// decoding order. It asks for no memory where all that a picture of this size is decoded in is
    /// left over, and what it doesn't use of that size stays left over.
    pub fn begin(
        alloc: Global,
        sps: &Sps,
        pps: &Pps,
        frames: &[Frame<PAD>],
        memory: &mut PictureMemory<PAD>,
    ) -> Result<Self, OutOfMemory>
        requires padding { PAD < 2 ^ 29 }
        requires sps { IsSps sps.now }
        requires pps { IsPps pps.now }
        requires frames { AreFramesOf sps.now frames.now }
        ensures begun { IfOk result (λ d. d ≡ no_slice_yet sps.now pps.now frames.now) }
        ensures memory { HasMemoryFor (width_in_mbs sps.now) (height_in_mbs sps.now) memory.old →
            IsOk result }
        ensures kept { TakesMemory (width_in_mbs sps.now) (height_in_mbs sps.now) memory.old result
            memory.new }
    {
        let macroblocks = Macroblocks::new(alloc, sps, pps, memory)?;
        Ok(PictureDecoder {
            sps: sps.copied(),
            pps: *pps,
            macroblocks,
            read: 0,
            slice_count: 0,
            fault: None,
            slices: History::new(),
            frames: History::new().with_all(frames),
        })
    }

    /// Decodes one slice more, or answers the first fault in the slices so far, and the same from
    /// then on. It takes no memory. `frames` are those that the picture began with.
    pub fn slice(&mut self, slice: &Slice, frames: &[Frame<PAD>]) -> Result<(), Fault>
        requires within { IsHeader self.old.sps self.old.pps slice.now.rbsp slice.now.header }
        requires frames { frames.now ≡ self.old.frames }
        ensures { IsSliceAnswer self.old slice.now result self.new }
    {
        if let Some(fault) = self.fault {
            self.slices = self.slices.with_newest(slice);
            return Err(fault);
        }
        let before = self.read;
        let decoded = decode_slice(
            &self.sps,
            &self.pps,
            slice,
            frames,
            self.slice_count,
            &mut self.macroblocks,
            &mut self.read,
        );
        self.slices = self.slices.with_newest(slice);
        match decoded {
            Ok(()) => {
                self.slice_count = number_after(self.slice_count, before, self.read);
                Ok(())
            }
            Err(fault) => {
                self.fault = Some(fault);
                Err(fault)
            }
        }
    }

    /// The sequence parameter set of the picture.
    pub fn sps(&self) -> &Sps
        ensures { result.now ≡ self.now.sps }
    {
        &self.sps
    }

    /// How many macroblocks have been read so far: up to the first fault, the faulty one included.
    pub fn read(&self) -> u32
        ensures { HasRead result self.now }
    {
        self.read
    }

    /// Whether the slices so far hold all macroblocks of the picture.
    pub fn full(&self) -> bool
        requires { HasNoFault self.now }
        ensures { IsFull result self.now }
    {
        self.read == self.sps.size_in_mbs()
    }

    /// How many rows of macroblocks are deblocked so far, from the top: all whole rows but the last
    /// (8.7).
    pub fn filtered(&self) -> u32
        requires { HasNoFault self.now }
        ensures { HasFiltered result self.now }
    {
        (self.read / self.sps.width_in_mbs()).max(1) - 1
    }

    /// The sample in column `x` and row `y` of a component of the picture so far: 0 is luma, 1 Cb,
    /// 2 Cr. It is of a macroblock that has been read, and deblocked as far as the lines of those
    /// rows do it.
    pub fn sample(&self, component: usize, x: usize, y: usize) -> u8
        requires fault { HasNoFault self.now }
        requires column { x < size_of component * width_in_mbs self.now.sps }
        requires row { y < size_of component * height_in_mbs self.now.sps }
        requires read { IsCovered component x y self.now }
        ensures { HasSample component x y result self.now }
    {
        self.macroblocks.sample(component, x, y)
    }

    /// What the deblocking filter is told of the macroblock with this address (8.7), where that is
    /// kept still: of the macroblocks that have been read those in the row of the one that comes
    /// next, and in the two rows above that. Its `pictures` are places among the frames that the
    /// picture began with.
    pub fn filter_info(&self, address: usize) -> Option<&MbInfo>
        requires { HasNoFault self.now }
        ensures kept { IsKept address (is_some result) self.now }
        ensures info { IfSome result (λ f. HasFilterInfo address f.now self.now) }
        ensures pictures { IfSome result (λ f. NamesPlaces f.now self.now) }
    {
        self.macroblocks.filter_info(address)
    }

    /// The samples of the picture after deblocking. Where the slices have a fault it answers the
    /// first, and else MissingMacroblocks where they do not hold all macroblocks. It takes no
    /// memory.
    pub fn finish(self, memory: &mut PictureMemory<PAD>) -> Result<PaddedPlanes<PAD>, Fault>
        ensures answer { IsFinishAnswer self.entry result }
        ensures sized { IfOk result
            (λ planes. AreSized (width_in_mbs self.entry.sps) (height_in_mbs self.entry.sps)
            (padded_planes_of planes)) }
        ensures memory { LeavesMemory (width_in_mbs self.entry.sps) (height_in_mbs self.entry.sps)
            memory.old result memory.new }
    {
        if let Some(fault) = self.fault {
            self.macroblocks.discard(memory);
            return Err(fault);
        }
        if self.read != self.sps.size_in_mbs() {
            self.macroblocks.discard(memory);
            return Err(Fault::MissingMacroblocks);
        }
        Ok(self.macroblocks.deblocked(memory).pad())
    }

    /// Gives the memory of a picture back that is refused.
    pub fn discard(self, memory: &mut PictureMemory<PAD>)
        ensures { LeavesAll (width_in_mbs self.entry.sps) (height_in_mbs self.entry.sps) memory.old
            memory.new }
    {
        self.macroblocks.discard(memory);
    }
}
