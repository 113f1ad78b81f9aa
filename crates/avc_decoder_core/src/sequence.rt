//! The pictures of a coded video sequence, opened and closed one after another.

ghost use Rattle.std.specs.Prelude.{◌≡◌, ◌≤◌, true, false, IfOk, IfErr, OnErr, None, Some, is_some};
ghost use Rattle.std.specs.Prelude.{length};
ghost use Rattle.avc_decoder_core.specs.History.{history_after_closing, history_at_opening};
ghost use Rattle.avc_decoder_core.specs.Opening.{set_with, Finds};
ghost use Rattle.avc_decoder_core.specs.SequenceState.{empty_sequence, current_history, Fails};
ghost use Rattle.avc_decoder_core.specs.SequenceState.{AreFramesIn};
ghost use Rattle.avc_decoder_core.specs.SequenceState.{AreSizedAs, AreStoredIn, HoldsPictures};
ghost use Rattle.avc_decoder_core.specs.SequenceState.{IsCleared, IsClosed};
ghost use Rattle.avc_decoder_core.specs.SequenceState.{IsOpened, OpenPictureStart, WantsMemory};
ghost use Rattle.avc_params.specs.Within.{IsSps};
ghost use Rattle.avc_slice.specs.Header.{has_idr_marking, is_idr, is_reference};

use crate::frame_buffer::{FrameBuffer, joined};
use crate::history_entry::HistoryEntry;
use crate::missing_frames::store_missing;
use crate::opening::{OpenPicture, Opening, after_missing, missing_frame_nums};
use avc_dpb::Output;
use avc_marking::MissingFrameNums;
use avc_params::Sps;
use avc_plane::{EmptiedPlanes, Frame, PADDING, SharedPicture, SharedPlanes};
use avc_poc::Poc;
use avc_slice::Header;
use avc_types::{Fault, History, OutOfMemory, PictureError, WantOfMemory};
use std::alloc::Global;
use std::marker::Model;

/// The closed pictures of a coded video sequence, as far as later pictures and output need them.
/// After want of memory it answers so from then on.
#[derive(Drop)]
pub struct Sequence {
    alloc: Global,

    /// The closed pictures, and the missing numbers before the open one.
    buffer: FrameBuffer,

    /// Order counts, those of the open picture included.
    poc: Poc,

    /// The parameter set of the last IDR picture.
    sps: Option<Sps>,

    open_picture: Option<OpenPicture>,

    failed: WantOfMemory,

    /// The history without the missing numbers before the open picture.
    closed: History<HistoryEntry>,
}

impl Model for Sequence {
    ghost use Rattle.avc_decoder_core.specs.SequenceState.{SequenceState};

    ghost Value = { SequenceState };

    ghost use Rattle.avc_decoder_core.specs.SequenceFields.{sequence_state, IsSequenceState};

    ghost view = { sequence_state };

    ghost invariant = { IsSequenceState };
}

/// The parameter set of the sequence once this picture is closed: that of an IDR picture.
fn set_after(before: Option<Sps>, picture: OpenPicture) -> Option<Sps>
    ensures { result ≡ set_with picture.sps picture.header before }
{
    if picture.header.is_idr() {
        Some(picture.sps)
    } else {
        before
    }
}

impl Sequence {
    /// With no history.
    pub fn new(alloc: Global, output: Output) -> Sequence
        ensures { result ≡ empty_sequence output }
    {
        Sequence {
            alloc,
            buffer: FrameBuffer::new(alloc, output),
            poc: Poc::new(),
            sps: None,
            open_picture: None,
            failed: WantOfMemory::none(),
            closed: History::new(),
        }
    }

    /// Opens a picture whose first slice has this header and came with this unit: checks its
    /// parameter set, its frame number and its order count, and takes in the frame numbers that are
    /// missing before it. Answers the pictures that go out.
    pub fn open(
        &mut self,
        header: &Header,
        unit: u64,
        sps: &Sps,
    ) -> Result<Vec<SharedPicture>, PictureError>
        requires rest { self.old.open_picture ≡ None }
        requires marking { is_idr header.now ≡ true → has_idr_marking header.now ≡ true }
        requires reference { is_some header.now.marking ≡ is_reference header.now }
        requires sps { IsSps sps.now }
        ensures ok { IfOk result
            (λ out. IsOpened self.old (record { sps = sps.now; header = header.now; unit = unit })
            out.items self.new) }
        ensures err { IfErr result
            (λ error. Fails self.old (history_at_opening sps.now header.now self.old.history) error
            self.new) }
    {
        self.failed.check()?;
        let opening = self.opening(header, sps)?;
        let stored = store_missing(self.alloc, &mut self.buffer, opening.missing, sps);
        let out = self.failed.keep(stored)?;
        self.poc = opening.poc;
        self.open_picture = Some(OpenPicture {
            sps: sps.copied(),
            header: header.copied(),
            unit,
            pic_order_cnt: opening.pic_order_cnt,
        });
        Ok(out)
    }

    /// What opening a picture finds, or its first fault. Nothing changes.
    fn opening(&self, header: &Header, sps: &Sps) -> Result<Opening, Fault>
        requires going { self.now.failed ≡ false }
        requires rest { self.now.open_picture ≡ None }
        requires sps { IsSps sps.now }
        ensures { Finds sps.now header.now self.now.history result }
    {
        if header.is_idr() {
            let none = MissingFrameNums::none(sps.max_frame_num());
            return Opening::of_next(none, Poc::new(), header, sps);
        }
        let missing = missing_frame_nums(&self.buffer, &self.sps, header, sps)?;
        let poc = after_missing(&self.buffer, self.poc.copied(), missing.copied(), sps)?;
        Opening::of_next(missing, poc, header, sps)
    }

    /// Closes the open picture, whose samples are these: marks it, and lets pictures go out.
    /// Answers these. With an IDR picture the history begins anew. After want of memory it answers
    /// so, whether a picture is open or not, and nothing changes.
    pub fn close(
        &mut self,
        planes: SharedPlanes<PADDING>,
    ) -> Result<Vec<SharedPicture>, PictureError>
        requires picture { self.old.failed ≡ false → is_some self.old.open_picture ≡ true }
        requires sized { (o : OpenPictureStart) → self.old.open_picture ≡ Some o →
            AreSizedAs o planes }
        ensures ok { IfOk result (λ out.
            (o : OpenPictureStart) → self.old.open_picture ≡ Some o →
            IsClosed self.old o planes out.items self.new) }
        ensures err { IfErr result (λ error.
            (o : OpenPictureStart) → self.old.open_picture ≡ Some o →
            Fails self.old
            (history_after_closing o.sps o.header o.unit planes (current_history self.old)) error
            self.new) }
        ensures memory { self.old.failed ≡ true → WantsMemory result }
        ensures stays { self.old.failed ≡ true → self.new ≡ self.old }
    {
        self.failed.check()?;
        let Some(open_picture) = self.open_picture.take() else {
            unreachable!()
        };
        let begun = self.buffer.begin_sequence(&open_picture.header);
        let prior = self.failed.keep(begun)?;
        match self.buffer.store_picture(
            &open_picture.sps,
            &open_picture.header,
            open_picture.info(),
            planes,
            &mut self.closed,
        ) {
            Ok(more) => {
                let out = self.failed.keep(joined(prior, more))?;
                self.sps = set_after(self.sps.take(), open_picture);
                Ok(out)
            }
            Err(PictureError::Fault(fault)) => {
                self.open_picture = Some(open_picture);
                Err(PictureError::Fault(fault))
            }
            Err(PictureError::OutOfMemory(refusal)) => Ok(self.failed.keep(Err(refusal))?),
        }
    }

    /// Hands out all pictures needed for output and forgets the history, with the open picture, if
    /// there is one. When pictures go out stays as it was. Where no picture is needed for output no
    /// memory is wanted.
    pub fn clear(&mut self) -> Result<Vec<SharedPicture>, OutOfMemory>
        ensures ok { IfOk result (λ out. IsCleared self.old out.items self.new) }
        ensures err { OnErr result (self.new.failed ≡ true) }
        ensures memory { self.old.failed ≡ false → OnErr result (HoldsPictures self.old) }
    {
        self.failed.check()?;
        let out = self.failed.keep(self.buffer.empty())?;
        self.poc = Poc::new();
        self.sps = None;
        self.open_picture = None;
        self.closed = History::new();
        Ok(out)
    }

    /// The stored frames with their marks, in decoding order: at most 16. After want of memory they
    /// are any.
    pub fn frames(&self) -> &[Frame<PADDING>]
        ensures value { result.now ≡ self.now.frames }
        ensures stored { self.now.failed ≡ false →
            AreStoredIn (current_history self.now) result.now }
        ensures sized { self.now.failed ≡ false →
            AreFramesIn (current_history self.now) result.now }
        ensures few { self.now.failed ≡ false → length result.now ≤ 16 }
    {
        self.buffer.frames()
    }

    /// Takes the planes of a frame that has left the buffer, if there is one, so that their memory
    /// is used again once no picture shares them: until no more come there are at most 17.
    pub fn emptied_planes(&mut self) -> Option<EmptiedPlanes<PADDING>>
        ensures { self.new ≡ self.old }
    {
        self.buffer.emptied_planes()
    }
}
