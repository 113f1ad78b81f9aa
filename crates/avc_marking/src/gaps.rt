//! Missing frame numbers (7.4.3, 8.2.5.2).

ghost use Rattle.std.specs.Prelude.{◌≡◌, ℕ, ◌+◌, ◌%◌, [], ◌<◌, ◌≤◌, true, drop, length, slice_get};
ghost use Rattle.std.specs.Prelude.{IfSome, Some};
ghost use Rattle.avc_marking.specs.Marks.{frame_nums_from, missing_frame_nums, AreCountedFrom};
ghost use Rattle.avc_marking.specs.Frames.{marking_entry};

use crate::frame::NewFrame;
use avc_types::{Fault, Marking};
use std::marker::Model;

/// The frame number after another, modulo MaxFrameNum.
fn next_frame_num(number: u32, max_frame_num: u32) -> u32
    requires { number < max_frame_num }
    ensures value { result ≡ (number + 1) % max_frame_num }
    ensures below { result < max_frame_num }
{
    if number + 1 == max_frame_num {
        0
    } else {
        number + 1
    }
}

/// Whether so many numbers from `first` on are the same modulo both.
#[tactic(auto, using(crate::proofs::KeptFrames::numbers_low, crate::proofs::KeptFrames::alike))]
fn are_alike(first: u32, count: u32, max_frame_num: u32, other: u32) -> bool
    requires { first < max_frame_num }
    ensures same { result ≡ true → frame_nums_from max_frame_num first count
        ≡ frame_nums_from other first count }
    ensures found { (number : ℕ) → number < other → 0 < count →
        frame_nums_from max_frame_num first count ≡ frame_nums_from other number count →
        result ≡ true }
{
    if max_frame_num == other {
        return true;
    }
    u64::from(first) + u64::from(count) <= u64::from(max_frame_num.min(other))
}

/// Missing frame numbers, in order. A contract sees them as their list.
#[derive(Drop)]
pub struct MissingFrameNums {
    next: u32,
    left: u32,
    max_frame_num: u32,
}

impl Model for MissingFrameNums {
    ghost use Rattle.std.specs.Prelude.{ℕ, List, ◌<◌};
    ghost use Rattle.avc_marking.specs.Marks.{frame_nums_from};

    ghost Value = { List ℕ };

    ghost view = { λ m. frame_nums_from m.max_frame_num m.next m.left };

    ghost invariant = { λ m. m.next < m.max_frame_num };
}

impl MissingFrameNums {
    /// None, where they are counted modulo this MaxFrameNum.
    pub fn none(max_frame_num: u32) -> MissingFrameNums
        requires { 0 < max_frame_num }
        ensures { result ≡ [] }
    {
        MissingFrameNums {
            next: 0,
            left: 0,
            max_frame_num,
        }
    }

    /// The same numbers once more.
    pub fn copied(&self) -> MissingFrameNums
        ensures { result ≡ self.now }
    {
        MissingFrameNums {
            next: self.next,
            left: self.left,
            max_frame_num: self.max_frame_num,
        }
    }

    /// How many they are.
    #[tactic(auto, using(crate::proofs::KeptFrames::length_numbers))]
    pub fn len(&self) -> u32
        ensures { result ≡ length self.now }
    {
        self.left
    }

    /// The first of them, if there is one, where they are counted modulo this MaxFrameNum.
    #[tactic(auto, using(crate::proofs::KeptFrames::length_numbers, crate::proofs::KeptFrames::numbers_begin))]
    pub fn first(&self, max_frame_num: u32) -> Option<u32>
        ensures numbers { IfSome result (λ number. self.now
            ≡ frame_nums_from max_frame_num number (length self.now)) }
        ensures found { (number : ℕ) → AreCountedFrom max_frame_num number self.now →
            result ≡ Some number }
    {
        if self.left == 0 || !are_alike(self.next, self.left, self.max_frame_num, max_frame_num) {
            return None;
        }
        Some(self.next)
    }

    /// All but so many of the first.
    #[tactic(auto, using(crate::proofs::KeptFrames::gap_numbers))]
    pub fn skip(&self, count: u32) -> MissingFrameNums
        requires { count ≤ length self.now }
        ensures { result ≡ drop count self.now }
    {
        let next = (u64::from(self.next) + u64::from(count)) % u64::from(self.max_frame_num);
        MissingFrameNums {
            next: next as u32,
            left: self.left - count,
            max_frame_num: self.max_frame_num,
        }
    }

    /// The next one.
    #[tactic(auto, using(crate::proofs::KeptFrames::numbers_next))]
    pub fn next(&mut self) -> Option<u32>
        ensures first { result ≡ slice_get self.old 0 }
        ensures rest { self.new ≡ drop 1 self.old }
    {
        if self.left == 0 {
            return None;
        }
        let number = self.next;
        self.left -= 1;
        self.next = next_frame_num(number, self.max_frame_num);
        Some(number)
    }
}

/// The frame numbers that are missing before a picture that is no IDR picture (7.4.3, 8.2.5.2),
/// where `previous` is PrevRefFrameNum. FrameNumRepeated where a reference picture has
/// PrevRefFrameNum itself, FrameNumGap where numbers are missing and may not be.
#[tactic(auto, using(crate::proofs::KeptFrames::gap_numbers))]
pub fn missing_frame_nums(
    previous: u32,
    gaps_allowed: bool,
    new: NewFrame,
    marking: &Option<Marking>,
) -> Result<MissingFrameNums, Fault>
    requires { 0 < new.current.max_frame_num }
    ensures { result ≡ missing_frame_nums previous gaps_allowed (marking_entry new marking.now) }
{
    let max = u64::from(new.current.max_frame_num);
    if new.current.frame_num == previous {
        if marking.is_some() {
            return Err(Fault::FrameNumRepeated);
        }
        return Ok(MissingFrameNums::none(new.current.max_frame_num));
    }
    let first = (u64::from(previous) + 1) % max;
    if u64::from(new.current.frame_num) == first {
        return Ok(MissingFrameNums::none(new.current.max_frame_num));
    }
    if !gaps_allowed {
        return Err(Fault::FrameNumGap);
    }
    let left = (u64::from(new.current.frame_num) + max).saturating_sub(u64::from(previous) + 1)
        % max;
    Ok(MissingFrameNums {
        next: first as u32,
        left: left as u32,
        max_frame_num: new.current.max_frame_num,
    })
}
