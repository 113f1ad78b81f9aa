//! Frames that have left the buffer, with their memory.

use arrayvec::ArrayVec;
use avc_plane::{Frame, PADDING};

/// So many frames there are at most: those that the buffer has room for, and the one that arrives.
const MOST_FRAMES: usize = 17;

/// Frames that have left the buffer, with the memory of their samples, which pictures that went out
/// may share. No contract says which they are.
#[derive(Drop)]
pub struct EmptiedFrames {
    frames: ArrayVec<Option<Frame<PADDING>>, MOST_FRAMES>,
}

impl EmptiedFrames {
    /// None yet.
    pub fn new() -> EmptiedFrames {
        EmptiedFrames {
            frames: ArrayVec::new(),
        }
    }

    /// Adds a frame. One that stands for a missing frame number has no memory to use again, and is
    /// dropped, as is one that finds no room.
    pub fn put(&mut self, frame: Frame<PADDING>) {
        if frame.planes.is_some() && !self.frames.is_full() {
            self.frames.push(Some(frame));
        }
    }

    /// Takes the one that was added last, if there is one.
    pub fn take(&mut self) -> Option<Frame<PADDING>> {
        self.frames.pop()?
    }
}
