//! The decoded picture buffer: frames that are stored, marked and put out (C.4).

ghost use Rattle.avc_plane.specs.declared.frame.Frame.{Frame as StoredFrame};
ghost use Rattle.std.specs.Prelude.{◌≡◌, ◌+◌, ◌<◌, ◌≤◌, ℕ, [], true, false, length, IfOk, OnErr};
ghost use Rattle.std.specs.Prelude.{OnOk, IsErr};
ghost use Rattle.avc_dpb.specs.Bumping.{empty_buffer};
ghost use Rattle.avc_dpb.specs.Contents.{IsBuffer, OutputsAll, OutputsSome, Stores};
ghost use Rattle.avc_dpb.specs.Contents.{is_needed_for_output_at, with_mark};
ghost use Rattle.avc_dpb.specs.Steps.{PlacesFrame};

use crate::arriving_frame::ArrivingFrame;
use crate::bumping::{bump_while, remove_needless};
use crate::emptied_frames::EmptiedFrames;
use crate::output::Output;
use crate::stored_frame::push_picture;
use crate::waiting::{Bumping, Slot, is_full};
use arrayvec::ArrayVec;
use avc_plane::{Frame, PADDING, SharedPicture};
use avc_types::{Mark, OutOfMemory, WantOfMemory};
use std::alloc::Global;
use std::marker::Model;

/// The decoded picture buffer (C.4): at most 16 frames, in decoding order. After want of memory it
/// answers so from then on.
#[derive(Drop)]
pub struct Dpb {
    alloc: Global,
    slots: ArrayVec<Slot, 16>,
    frames: Vec<Frame<PADDING>>,
    output: Output,
    failed: WantOfMemory,
    // those that have left it
    emptied: EmptiedFrames,
}

impl Model for Dpb {
    ghost use Rattle.avc_dpb.specs.Contents.{Contents};

    ghost Value = { Contents };

    ghost use Rattle.std.specs.Prelude.{◌≡◌, false, length};

    ghost view = { λ d. record {
      slots = d.slots.items;
      frames = d.frames.items;
      output = d.output;
      failed = d.failed;
    } };

    ghost invariant = { λ d. d.failed ≡ false → length d.frames.items ≡ length d.slots.items };
}

impl Dpb {
    /// With no frame.
    pub fn new(alloc: Global, output: Output) -> Dpb
        ensures value { result ≡ record {
          slots = [];
          frames = [];
          output = output;
          failed = false;
        } }
        ensures buffer { (frame_of : ℕ → StoredFrame 16) → IsBuffer result empty_buffer 0 frame_of }
    {
        Dpb {
            alloc,
            slots: ArrayVec::new(),
            frames: Vec::new(alloc),
            output,
            failed: WantOfMemory::none(),
            emptied: EmptiedFrames::new(),
        }
    }

    /// The stored frames, in decoding order.
    pub fn frames(&self) -> &[Frame<PADDING>]
        ensures { result.now ≡ self.now.frames }
    {
        self.frames.as_slice()
    }

    /// Whether the stored frame at this place is needed for output: it has not gone out yet.
    pub fn is_needed_for_output(&self, place: usize) -> bool
        ensures { result ≡ is_needed_for_output_at self.now.slots place }
    {
        match self.slots.get(place) {
            Some(slot) => slot.needed_for_output,
            None => false,
        }
    }

    /// Changes the mark of the stored frame at this place; with None it is unused for reference.
    pub fn mark(&mut self, place: usize, mark: Option<Mark>)
        requires { place < length self.old.frames }
        ensures { self.new ≡ with_mark self.old place mark }
    {
        self.frames[place].mark = mark;
    }

    /// Makes room for a frame and stores it, or hands its picture out where there is no room
    /// (C.4.5.1, C.4.5.2, C.4.2), and then hands out what is needed for output too many (E.2.1).
    /// The stored frames have the marks that they have once this frame is marked. Answers the
    /// pictures that go out, in order.
    pub fn store(
        &mut self,
        frame: Frame<PADDING>,
        arriving: &ArrivingFrame,
    ) -> Result<Vec<SharedPicture>, OutOfMemory>
        requires capacity { arriving.now.capacity ≤ 16 }
        ensures ok { IfOk result (λ out. Stores self.old frame arriving.now out.items self.new) }
        ensures err { OnErr result (self.new.failed ≡ true) }
        ensures failed { self.old.failed ≡ true → IsErr result }
        ensures kept { self.new.output ≡ self.old.output }
    {
        self.failed.check()?;
        let mut out = Vec::new(self.alloc);
        remove_needless(&mut self.slots, &mut self.frames, &mut self.emptied);
        self.failed.keep(bump_while(
            &mut self.slots,
            &mut self.frames,
            &mut self.emptied,
            Bumping::ForRoom(*arriving),
            &mut out,
        ))?;
        self.failed.keep(place(
            &mut self.slots,
            &mut self.frames,
            &mut self.emptied,
            frame,
            arriving,
            &mut out,
        ))?;
        self.failed.keep(bump_while(
            &mut self.slots,
            &mut self.frames,
            &mut self.emptied,
            Bumping::ForFew(self.output, *arriving),
            &mut out,
        ))?;
        Ok(out)
    }

    /// Hands out all pictures needed for output, by bumping, and is then empty (C.4.4). Where none
    /// is needed for output no memory is wanted.
    pub fn empty(&mut self) -> Result<Vec<SharedPicture>, OutOfMemory>
        ensures ok { IfOk result (λ out. OutputsAll self.old out.items self.new) }
        ensures err { OnErr result (self.new.failed ≡ true) }
        ensures failed { self.old.failed ≡ true → IsErr result }
        ensures memory { self.old.failed ≡ false → OnErr result (OutputsSome self.old) }
        ensures kept { self.new.output ≡ self.old.output }
    {
        self.failed.check()?;
        let mut out = Vec::new(self.alloc);
        self.failed.keep(bump_while(
            &mut self.slots,
            &mut self.frames,
            &mut self.emptied,
            Bumping::ForNone,
            &mut out,
        ))?;
        self.drop_all();
        Ok(out)
    }

    /// Drops all frames; no picture goes out (C.4.4, no_output_of_prior_pics_flag 1).
    pub fn drop_all(&mut self)
        ensures value { self.new ≡ record {
          slots = [];
          frames = [];
          output = self.old.output;
          failed = self.old.failed;
        } }
    {
        self.slots.clear();
        empty_all(&mut self.frames, &mut self.emptied);
    }

    /// Takes a frame that has left the buffer, if there is one, so that its memory is used again
    /// once no picture shares it. At most 17 wait to be taken; what else leaves is dropped, and so
    /// is what stands for a missing frame number. Contracts say nothing of which these are.
    pub fn emptied_frame(&mut self) -> Option<Frame<PADDING>>
        ensures { self.new ≡ self.old }
    {
        self.emptied.take()
    }
}

// All frames leave.
fn empty_all(frames: &mut Vec<Frame<PADDING>>, emptied: &mut EmptiedFrames)
    ensures { frames.new.items ≡ [] }
{
    while let Some(frame) = frames.pop() {
        emptied.put(frame);
    }
}

// The arriving frame is stored, or where there is no room its picture goes out at once; a
// non-existing frame never does.
fn place(
    slots: &mut ArrayVec<Slot, 16>,
    frames: &mut Vec<Frame<PADDING>>,
    emptied: &mut EmptiedFrames,
    frame: Frame<PADDING>,
    arriving: &ArrivingFrame,
    out: &mut Vec<SharedPicture>,
) -> Result<(), OutOfMemory>
    requires beside { length frames.old.items ≡ length slots.old.items }
    requires capacity { arriving.now.capacity ≤ 16 }
    ensures ok { OnOk result
        (PlacesFrame slots.old.items frames.old.items out.old.items frame arriving.now
        slots.new.items frames.new.items out.new.items) }
    ensures beside { OnOk result (length frames.new.items ≡ length slots.new.items) }
{
    if is_full(slots.as_slice(), arriving.capacity) {
        if arriving.existing {
            push_picture(&frame, out)?;
        }
        emptied.put(frame);
        return Ok(());
    }
    frames.push(frame)?;
    slots.push(Slot {
        pic_order_cnt: arriving.pic_order_cnt,
        needed_for_output: arriving.existing,
    });
    Ok(())
}
