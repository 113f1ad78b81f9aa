//! The decoded picture buffer with the marks of its frames (8.2.5, C.4).

ghost use Rattle.std.specs.Prelude.{◌≡◌, ◌≢◌, [], ◌∷◌, ◌++◌, ◌≤◌, false, true, if◌then◌else◌};
ghost use Rattle.std.specs.Prelude.{is_some, length, map, Some};
ghost use Rattle.std.specs.Prelude.{IfErr, IfOk, OnErr, OnOk};
ghost use Rattle.std.specs.Result.{is_ok};
ghost use Rattle.avc_types.specs.References.{result_map};
ghost use Rattle.avc_decoder_core.specs.FrameBufferFields.{entry_of, frame_num_of, history_of};
ghost use Rattle.avc_decoder_core.specs.FrameBufferFields.{with_all_marks, OutputsPrior};
ghost use Rattle.avc_decoder_core.specs.FrameBufferState.{empty_frame_buffer, BeginsSequence};
ghost use Rattle.avc_decoder_core.specs.FrameBufferState.{CanFollow, IsEmptied, Refuses, Stores};
ghost use Rattle.avc_decoder_core.specs.Frames.{coded_frame, frame_of};
ghost use Rattle.avc_decoder_core.specs.History.{current_in, decoded_picture, is_same_sps};
ghost use Rattle.avc_decoder_core.specs.History.{marking_entries};
ghost use Rattle.avc_decoder_core.specs.History.{marks_of, missing_frame, order_or_0, pasts};
ghost use Rattle.avc_decoder_core.specs.History.{picture_entry};
ghost use Rattle.avc_decoder_core.specs.History.{prior_pictures_of, sequence_sps};
ghost use Rattle.avc_decoder_core.specs.Pictures.{held_pictures, no_output_of_prior_pics};
ghost use Rattle.avc_decoder_core.specs.SequenceState.{AreFramesIn, AreStoredIn};
ghost use Rattle.avc_marking.specs.Marks.{missing_frame_nums, prev_ref_frame_num};
ghost use Rattle.avc_decoder_core.specs.Gaps.{IsLongGap, KeepsTheSame, with_history};
ghost use Rattle.avc_decoder_core.specs.Opening.{with_all_missing};
ghost use Rattle.avc_params.specs.Limits.{height_in_mbs, reference_limit, width_in_mbs};
ghost use Rattle.avc_params.specs.Within.{IsSps};
ghost use Rattle.avc_plane.specs.Frames.{marked_frame, AreSized};
ghost use Rattle.avc_poc.specs.OrderCounts.{order_counts};
ghost use Rattle.avc_slice.specs.Header.{is_idr};

use crate::cropping::crop_of;
use crate::history_entry::HistoryEntry;
use crate::long_gaps::{all_settle, short_term_count};
use arrayvec::ArrayVec;
use avc_dpb::{ArrivingFrame, Dpb, Output};
use avc_marking::{
    MissingFrameNums, NewFrame, frame_num_after_marking, mark, missing_frame_nums, reference_count,
    sliding_window,
};
use avc_params::Sps;
use avc_plane::{EmptiedPlanes, Frame, PADDING, SharedPicture, SharedPlanes};
use avc_slice::Header;
use avc_types::{
    CurrentFrameNum, Fault, History, Mark, MarkedFrame, Marking, OutOfMemory, PictureError,
    PictureInfo, WantOfMemory,
};
use std::alloc::Global;
use std::marker::Model;

/// The decoded picture buffer (C.4) with the marks of its frames (8.2.5). It stands for the history
/// of closed pictures and missing frame numbers. After want of memory it answers so from then on.
#[derive(Drop)]
pub struct FrameBuffer {
    alloc: Global,

    dpb: Dpb,

    // MaxLongTermFrameIdx; none where there may be no long-term frames
    max_long_term_frame_idx: Option<u32>,

    // PrevRefFrameNum (7.4.3)
    prev_ref_frame_num: u32,

    failed: WantOfMemory,

    history: History<HistoryEntry>,
}

impl Model for FrameBuffer {
    ghost use Rattle.avc_decoder_core.specs.FrameBufferState.{FrameBufferState};

    ghost Value = { FrameBufferState };

    ghost use Rattle.avc_decoder_core.specs.FrameBufferFields.{frame_buffer_state};
    ghost use Rattle.avc_decoder_core.specs.FrameBufferFields.{IsFrameBufferState};

    ghost view = { frame_buffer_state };

    ghost invariant = { IsFrameBufferState };
}

/// What marking asks of a frame with this number.
fn new_frame(sps: &Sps, frame_num: u32, existing: bool) -> NewFrame
    requires { IsSps sps.now }
    ensures { result ≡ record {
      current = current_in sps.now frame_num;
      existing = existing;
      max_num_ref_frames = sps.now.max_num_ref_frames;
    } }
{
    NewFrame {
        current: CurrentFrameNum {
            frame_num,
            max_frame_num: sps.max_frame_num(),
        },
        existing,
        max_num_ref_frames: u32::from(sps.max_num_ref_frames),
    }
}

/// What marking knows of these frames.
fn marked_frames(frames: &[Frame<PADDING>]) -> ArrayVec<MarkedFrame, 17>
    requires { length frames.now ≤ 16 }
    ensures { result.items ≡ map marked_frame frames.now }
{
    let mut marked = ArrayVec::new();
    for frame in frames {
        marked.push(frame.marked());
    }
    marked
}

/// How many reference frames there may be (8.2.5.3).
fn reference_limit(sps: &Sps) -> usize
    ensures { result ≡ reference_limit sps.now }
{
    usize::from(sps.max_num_ref_frames.max(1))
}

/// PrevRefFrameNum after a picture: its own number where it is a reference picture (7.4.3).
fn prev_ref_frame_num_after(previous: u32, frame_num: u32, header: &Header) -> u32
    ensures { result ≡ (if is_some header.now.marking then frame_num else previous) }
{
    if header.marking.is_some() {
        frame_num
    } else {
        previous
    }
}

/// Each stored frame gets its new mark.
fn set_marks(dpb: &mut Dpb, marked: &[MarkedFrame])
    requires { length dpb.old.frames ≤ length marked.now }
    ensures { dpb.new ≡ with_all_marks dpb.old marked.now }
{
    let count = dpb.frames().len();
    for place in 0..count {
        dpb.mark(place, marked[place].mark);
    }
}

/// A frame with the cropping that its parameter set gives.
fn coded_frame(
    sps: Sps,
    info: PictureInfo,
    planes: Option<SharedPlanes<PADDING>>,
    frame_num: u32,
    mark: Option<Mark>,
) -> Frame<PADDING>
    ensures { result ≡ coded_frame sps info planes frame_num mark }
{
    Frame {
        planes,
        frame_num,
        mark,
        crop: crop_of(sps.frame_cropping),
        info,
    }
}

/// The frame of an entry of the history, with its number once it is marked, and its mark.
fn entry_frame(entry: HistoryEntry, frame_num: u32, mark: Option<Mark>) -> Frame<PADDING>
    requires { frame_num ≡ frame_num_of (entry_of entry) }
    ensures { result ≡ frame_of (Some (entry_of entry)) mark }
{
    match entry {
        HistoryEntry::Picture {
            sps,
            info,
            planes,
            ..
        } => coded_frame(sps, info, Some(planes), frame_num, mark),
        HistoryEntry::MissingFrame { sps, .. } | HistoryEntry::MissingFrames { sps, .. } => {
            coded_frame(sps, PictureInfo::none(), None, frame_num, mark)
        }
    }
}

/// no_output_of_prior_pics_flag (7.4.3.3).
fn no_output_of_prior_pics(header: &Header) -> bool
    ensures { result ≡ no_output_of_prior_pics header.now.marking }
{
    matches!(
        header.marking,
        Some(Marking::Idr {
            no_output_of_prior_pics_flag: true,
            ..
        },)
    )
}

/// What becomes of the pictures needed for output of the sequence before this one is stored
/// (C.4.4). Answers those that go out.
fn output_prior_pictures(
    alloc: Global,
    dpb: &mut Dpb,
    header: &Header,
) -> Result<Vec<SharedPicture>, OutOfMemory>
    ensures ok { IfOk result
        (λ out. OutputsPrior (prior_pictures_of header.now) dpb.old out.items dpb.new) }
    ensures kept { dpb.new.output ≡ dpb.old.output }
{
    if !header.has_operation_5() {
        return Ok(Vec::new(alloc));
    }
    let out = dpb.empty()?;
    Ok(out)
}

/// These pictures and then those.
pub fn joined(
    mut pictures: Vec<SharedPicture>,
    mut more: Vec<SharedPicture>,
) -> Result<Vec<SharedPicture>, OutOfMemory>
    ensures { IfOk result (λ all. all.items ≡ pictures.items ++ more.items) }
{
    if pictures.is_empty() {
        return Ok(more);
    }
    pictures.append(&mut more)?;
    Ok(pictures)
}

impl FrameBuffer {
    /// With no history.
    pub fn new(alloc: Global, output: Output) -> FrameBuffer
        ensures { result ≡ empty_frame_buffer output }
    {
        FrameBuffer {
            alloc,
            dpb: Dpb::new(alloc, output),
            max_long_term_frame_idx: None,
            prev_ref_frame_num: 0,
            failed: WantOfMemory::none(),
            history: History::new(),
        }
    }

    /// The stored frames with their marks, in decoding order: at most 16. After want of memory they
    /// are any.
    pub fn frames(&self) -> &[Frame<PADDING>]
        ensures value { result.now ≡ self.now.frames }
        ensures stored { self.now.failed ≡ false → AreStoredIn self.now.history result.now }
        ensures sized { self.now.failed ≡ false → AreFramesIn self.now.history result.now }
        ensures few { self.now.failed ≡ false → length result.now ≤ 16 }
    {
        self.dpb.frames()
    }

    /// The frame numbers that are missing before a picture that is no IDR picture, or
    /// FrameNumRepeated or FrameNumGap (7.4.3).
    pub fn missing_frame_nums(&self, sps: &Sps, header: &Header) -> Result<MissingFrameNums, Fault>
        requires going { self.now.failed ≡ false }
        requires sps { IsSps sps.now }
        ensures { result
            ≡ missing_frame_nums (prev_ref_frame_num (marking_entries self.now.history))
            sps.now.gaps_in_frame_num_value_allowed_flag (picture_entry sps.now header.now) }
    {
        missing_frame_nums(
            self.prev_ref_frame_num,
            sps.gaps_in_frame_num_value_allowed_flag,
            new_frame(sps, header.frame_num, true),
            &header.marking,
        )
    }

    /// Whether a frame can be marked that stands for a missing number, or TooManyReferences
    /// (8.2.5.3).
    #[tactic(auto, using(crate::proofs::Sequences::few_needed))]
    pub fn can_store_missing(&self, sps: &Sps, frame_num: u32) -> Result<(), Fault>
        requires going { self.now.failed ≡ false }
        requires sps { IsSps sps.now }
        ensures { result
            ≡ result_map (λ _. tt) (marks_of (missing_frame sps.now frame_num ∷ self.now.history)) }
    {
        let mut marked = marked_frames(self.dpb.frames());
        sliding_window(&mut marked, new_frame(sps, frame_num, false))
    }

    /// Stores a frame that stands for a missing number (8.2.5.2), which can be marked. Answers the
    /// pictures that go out.
    #[tactic(auto, using(crate::proofs::Sequences::few_needed))]
    pub fn store_missing(
        &mut self,
        sps: &Sps,
        frame_num: u32,
    ) -> Result<Vec<SharedPicture>, OutOfMemory>
        requires going { self.old.failed ≡ false }
        requires sps { IsSps sps.now }
        requires same { is_same_sps (sequence_sps self.old.history) sps.now ≡ true }
        requires marked { is_ok (marks_of (missing_frame sps.now frame_num ∷ self.old.history))
            ≡ true }
        ensures ok { IfOk result
            (λ out. Stores self.old (missing_frame sps.now frame_num) out.items self.new) }
        ensures err { OnErr result (self.new.failed ≡ true) }
    {
        let mut marked = marked_frames(self.dpb.frames());
        let Ok(()) = sliding_window(&mut marked, new_frame(sps, frame_num, false)) else {
            unreachable!()
        };
        set_marks(&mut self.dpb, marked.as_slice());
        let entry = HistoryEntry::MissingFrame {
            sps: sps.copied(),
            frame_num,
        };
        let history = self.history.with_newest(&entry);
        let frame = entry_frame(entry, frame_num, marked[marked.len() - 1].mark);
        let arriving = ArrivingFrame {
            pic_order_cnt: 0,
            existing: false,
            is_reference: true,
            capacity: sps.dpb_size() as usize,
            max_num_reorder_frames: None,
        };
        let out = self.failed.keep(self.dpb.store(frame, &arriving))?;
        self.history = history;
        self.prev_ref_frame_num = frame_num;
        Ok(out)
    }

    /// Whether only the last of these missing numbers matter: the sliding window is full, and takes
    /// only frames that are not needed for output. A window is so after at most twice as many
    /// missing numbers as it has frames.
    #[tactic(auto, using(crate::proofs::Sequences::few_needed))]
    pub fn is_settled(&self, sps: &Sps, numbers: &MissingFrameNums) -> bool
        requires going { self.now.failed ≡ false }
        requires sps { IsSps sps.now }
        ensures { result ≡ true → IsLongGap self.now.output sps.now self.now.history numbers.now }
    {
        let Some(number) = numbers.first(sps.max_frame_num()) else {
            return false;
        };
        let max = u64::from(sps.max_frame_num());
        let frames = self.dpb.frames();
        let shorts = short_term_count(frames);
        let marked = marked_frames(frames);
        if shorts == 0
            || reference_count(marked.as_slice()) != reference_limit(sps)
            || (sps.dpb_size() as usize) < frames.len()
            || max < u64::from(numbers.len()) + shorts as u64
        {
            return false;
        }
        let low = u64::from(number) + max - shorts as u64;
        all_settle(&self.dpb, frames.len() - shorts, low, max)
    }

    /// The history with these missing numbers.
    pub fn history_with(&self, sps: &Sps, numbers: &MissingFrameNums) -> History<HistoryEntry>
        ensures { history_of result.items ≡ with_all_missing sps.now numbers.now self.now.history }
    {
        let entries = HistoryEntry::MissingFrames {
            sps: sps.copied(),
            numbers: numbers.copied(),
        };
        self.history.with_newest(&entries)
    }

    /// What is kept is kept after this history too, and stands for it from now on.
    pub fn stand_for(&mut self, history: History<HistoryEntry>)
        requires going { self.old.failed ≡ false }
        requires same { KeepsTheSame self.old.output self.old.history (history_of history.items) }
        ensures { self.new ≡ with_history (history_of history.items) self.old }
    {
        self.history = history;
    }

    /// Before an IDR picture, which begins a sequence, hands out all pictures needed for output, or
    /// drops them by no_output_of_prior_pics_flag, and forgets the history (C.4.4). Before another
    /// picture it does nothing.
    pub fn begin_sequence(&mut self, header: &Header) -> Result<Vec<SharedPicture>, OutOfMemory>
        requires { self.old.failed ≡ false }
        ensures ok { IfOk result (λ out. BeginsSequence self.old header.now out.items self.new) }
        ensures err { OnErr result (self.new.failed ≡ true) }
    {
        if !header.is_idr() {
            return Ok(Vec::new(self.alloc));
        }
        if no_output_of_prior_pics(header) {
            self.drop_all();
            return Ok(Vec::new(self.alloc));
        }
        let out = self.empty()?;
        Ok(out)
    }

    /// Drops all frames, and forgets the history.
    fn drop_all(&mut self)
        requires { self.old.failed ≡ false }
        ensures { self.new ≡ empty_frame_buffer self.old.output }
    {
        self.dpb.drop_all();
        self.max_long_term_frame_idx = None;
        self.prev_ref_frame_num = 0;
        self.history = History::new();
    }

    /// Marks a decoded picture (8.2.5.1), of which this is known, and stores it. `closed` becomes
    /// the history with it. Answers the pictures that go out.
    #[tactic(auto, using(crate::proofs::Sequences::few_needed))]
    pub fn store_picture(
        &mut self,
        sps: &Sps,
        header: &Header,
        info: PictureInfo,
        planes: SharedPlanes<PADDING>,
        closed: &mut History<HistoryEntry>,
    ) -> Result<Vec<SharedPicture>, PictureError>
        requires going { self.old.failed ≡ false }
        requires sps { IsSps sps.now }
        requires follows { CanFollow self.old.history sps.now header.now }
        requires first { is_idr header.now ≡ true → self.old.history ≡ [] }
        requires pic_order_cnt { info.pic_order_cnt
            ≡ order_or_0 (order_counts sps.now header.now (pasts self.old.history)) }
        requires sized { AreSized (width_in_mbs sps.now) (height_in_mbs sps.now) planes }
        ensures ok { IfOk result
            (λ out. Stores self.old (decoded_picture sps.now header.now info planes) out.items
            self.new) }
        ensures err { IfErr result (λ error.
            Refuses self.old
            (marks_of (decoded_picture sps.now header.now info planes ∷ self.old.history)) error
            self.new) }
        ensures closed { OnOk result (history_of closed.new.items ≡ self.new.history) }
        ensures kept { OnErr result (closed.new.items ≡ closed.old.items) }
    {
        let mut marked = marked_frames(self.dpb.frames());
        let mut max_long_term_frame_idx = self.max_long_term_frame_idx;
        let new = new_frame(sps, header.frame_num, true);
        mark(
            &mut marked,
            &mut max_long_term_frame_idx,
            new,
            &header.marking,
        )?;
        set_marks(&mut self.dpb, marked.as_slice());
        let prior = self
            .failed
            .keep(output_prior_pictures(self.alloc, &mut self.dpb, header))?;
        let frame_num = frame_num_after_marking(new, &header.marking);
        let entry = HistoryEntry::Picture {
            sps: sps.copied(),
            header: header.copied(),
            info,
            planes,
        };
        let history = self.history.with_newest(&entry);
        let with_picture = self.history.with_newest(&entry);
        let frame = entry_frame(entry, frame_num, marked[marked.len() - 1].mark);
        let arriving = ArrivingFrame {
            pic_order_cnt: info.pic_order_cnt,
            existing: true,
            is_reference: header.is_reference(),
            capacity: sps.dpb_size() as usize,
            max_num_reorder_frames: sps.max_num_reorder_frames(),
        };
        let more = self.failed.keep(self.dpb.store(frame, &arriving))?;
        let out = self.failed.keep(joined(prior, more))?;
        self.history = history;
        *closed = with_picture;
        self.prev_ref_frame_num = prev_ref_frame_num_after(
            self.prev_ref_frame_num,
            frame_num,
            header,
        );
        self.max_long_term_frame_idx = max_long_term_frame_idx;
        Ok(out)
    }

    /// Hands out all pictures needed for output, and forgets the history. Where none is needed for
    /// output no memory is wanted.
    pub fn empty(&mut self) -> Result<Vec<SharedPicture>, OutOfMemory>
        ensures ok { IfOk result (λ out. IsEmptied self.old out.items self.new) }
        ensures err { OnErr result (self.new.failed ≡ true) }
        ensures memory { self.old.failed ≡ false →
            OnErr result (held_pictures self.old.output self.old.history ≢ []) }
    {
        self.failed.check()?;
        let out = self.failed.keep(self.dpb.empty())?;
        self.max_long_term_frame_idx = None;
        self.prev_ref_frame_num = 0;
        self.history = History::new();
        Ok(out)
    }

    /// Takes the planes of a frame that has left the buffer, if there is one, so that their memory
    /// is used again once no picture shares them.
    pub fn emptied_planes(&mut self) -> Option<EmptiedPlanes<PADDING>>
        ensures { self.new ≡ self.old }
    {
        Some(EmptiedPlanes::new(self.dpb.emptied_frame()?.planes?))
    }
}
