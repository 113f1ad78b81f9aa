//! Whether a gap in frame_num leaves only the frames of its last numbers (8.2.5.2).

ghost use Rattle.std.specs.Prelude.{◌≡◌, ◌+◌, ◌^◌, ◌<◌, ◌≤◌, ℕ, true, length};
ghost use Rattle.avc_decoder_core.specs.Gaps.{has_its_place, is_leaving, is_staying, settles_at};

use avc_dpb::Dpb;
use avc_plane::{Frame, PADDING};
use avc_types::Mark;

/// A frame that stays through a gap: it is needed for output or long-term.
fn is_staying(needed_for_output: bool, mark: Option<Mark>) -> bool
    ensures { result ≡ is_staying needed_for_output mark }
{
    match mark {
        None => needed_for_output,
        Some(Mark::Short) => false,
        Some(Mark::Long(_)) => true,
    }
}

/// A short-term frame that is not needed for output.
fn is_leaving(needed_for_output: bool, mark: Option<Mark>) -> bool
    ensures { result ≡ is_leaving needed_for_output mark }
{
    match mark {
        Some(Mark::Short) => !needed_for_output,
        _ => false,
    }
}

/// The frame at a place of the buffer stays if that is before `first`; from there on it leaves, and
/// numbers go on from `low`.
fn has_its_place(
    first: usize,
    low: u64,
    max: u64,
    place: usize,
    needed_for_output: bool,
    frame: &Frame<PADDING>,
) -> bool
    requires max { 0 < max }
    requires small { low < 2 ^ 33 }
    requires few { place < 2 ^ 33 }
    ensures { result ≡ has_its_place first low max place needed_for_output frame.now }
{
    if place < first {
        return is_staying(needed_for_output, frame.mark);
    }
    is_leaving(needed_for_output, frame.mark)
        && u64::from(frame.frame_num) == (low + (place - first) as u64) % max
}

fn settles_at(dpb: &Dpb, first: usize, low: u64, max: u64, place: usize) -> bool
    requires max { 0 < max }
    requires small { low < 2 ^ 33 }
    requires few { place < 2 ^ 33 }
    ensures { result ≡ settles_at dpb.now first low max place }
{
    match dpb.frames().get(place) {
        Some(frame) => has_its_place(
            first,
            low,
            max,
            place,
            dpb.is_needed_for_output(place),
            frame,
        ),
        None => false,
    }
}

/// The buffer's frames before `first` stay, and the others leave, with numbers from `low` on.
pub fn all_settle(dpb: &Dpb, first: usize, low: u64, max: u64) -> bool
    requires max { 0 < max }
    requires small { low < 2 ^ 33 }
    requires few { length dpb.now.frames ≤ 16 }
    ensures { result ≡ true → (p : ℕ) → p < length dpb.now.frames →
        settles_at dpb.now first low max p ≡ true }
{
    let count = dpb.frames().len();
    for place in 0..count {
        if !settles_at(dpb, first, low, max, place) {
            return false;
        }
    }
    true
}

/// How many frames are short-term ones.
pub fn short_term_count(frames: &[Frame<PADDING>]) -> usize
    ensures { result ≤ length frames.now }
{
    frames
        .iter()
        .filter(|frame| matches!(frame.mark, Some(Mark::Short)))
        .count()
}
