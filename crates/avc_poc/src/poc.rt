//! Picture order counts of pictures in decoding order (8.2.1).

ghost use Rattle.std.specs.Prelude.{◌≡◌, ◌≤◌, ◌<◌, ◌^◌, List, [], ◌∷◌, true};
ghost use Rattle.std.specs.Result.{OnErr, OnOk, is_ok};
ghost use Rattle.avc_params.specs.Limits.{max_frame_num};
ghost use Rattle.avc_params.specs.Within.{IsOrderCount, IsSps};
ghost use Rattle.avc_poc.specs.OrderCountState.{IsCounted, IsPrevious, after_picture, count_pair};
ghost use Rattle.avc_poc.specs.OrderCountState.{counts_after, order_count_state, picture_offset};
ghost use Rattle.avc_poc.specs.OrderCountState.{previous_after, with_missing_from};
ghost use Rattle.avc_poc.specs.OrderCounts.{Past, missing, order_counts, picture, previous_for};

use crate::counting::counts_from;
use crate::frame_number::{next_offset, offset_at};
use crate::laws::gaps_count_at_once;
use crate::most_significant::Previous;
use crate::type_0::previous_from;
use avc_params::Sps;
use avc_slice::Header;
use avc_types::Fault;
use std::marker::Model;

/// Picture order counts (8.2.1) of pictures in decoding order. It stands for what the earlier
/// pictures and missing frame numbers leave to the next: prevPicOrderCntMsb, prevPicOrderCntLsb,
/// prevFrameNumOffset and prevFrameNum.
#[derive(Drop)]
pub struct Poc {
    previous: Previous,
    // prevFrameNumOffset, held at 2^31, and prevFrameNum
    offset: u32,
    frame_num: u32,
}

impl Model for Poc {
    ghost use Rattle.avc_poc.specs.OrderCountState.{OrderCountState, IsPrevious};
    ghost use Rattle.std.specs.Prelude.{◌≤◌, ◌^◌};

    ghost Value = { OrderCountState };

    ghost view = { λ p. record {
      previous = p.previous;
      offset = p.offset;
      frame_num = p.frame_num;
    } };

    ghost invariant = { λ p. IsPrevious p.previous × (p.offset ≤ 2 ^ 31) };
}

// prevPicOrderCntMsb and prevPicOrderCntLsb as the picture takes them.
fn previous_for(header: &Header, previous: Previous) -> Previous
    requires { IsPrevious previous }
    ensures value { result ≡ previous_for header.now previous }
    ensures small { IsPrevious result }
{
    if header.is_idr() {
        Previous { msb: 0, lsb: 0 }
    } else {
        previous
    }
}

// prevPicOrderCntMsb and prevPicOrderCntLsb after the picture.
fn previous_after(header: &Header, sps: &Sps, previous: Previous) -> Previous
    requires order { IsOrderCount sps.now.order_count }
    requires previous { IsPrevious previous }
    requires counted { IsCounted sps.now header.now (previous_for header.now previous) }
    ensures value { result ≡ previous_after sps.now header.now previous }
    ensures small { IsPrevious result }
{
    if header.is_reference() {
        previous_from(header, sps, previous_for(header, previous))
    } else {
        previous
    }
}

impl Poc {
    /// Before the first picture.
    pub fn new() -> Poc
        ensures { result ≡ order_count_state [] }
    {
        Poc {
            previous: Previous { msb: 0, lsb: 0 },
            offset: 0,
            frame_num: 0,
        }
    }

    /// The same counts once more. This takes no memory.
    pub fn copied(&self) -> Poc
        ensures { result ≡ self.now }
    {
        Poc {
            previous: self.previous,
            offset: self.offset,
            frame_num: self.frame_num,
        }
    }

    // FrameNumOffset of the picture.
    fn offset_of(&self, header: &Header, sps: &Sps) -> u32
        requires { sps.now.log2_max_frame_num_minus4 ≤ 12 }
        ensures value { result ≡ picture_offset sps.now header.now self.now }
        ensures small { result ≤ 2 ^ 31 }
    {
        if header.is_idr() {
            0
        } else {
            next_offset(
                self.offset,
                self.frame_num,
                header.frame_num,
                sps.max_frame_num(),
            )
        }
    }

    // The counts of the picture.
    fn counts(&self, header: &Header, sps: &Sps) -> Result<(i32, i32), Fault>
        requires { IsSps sps.now }
        ensures { result ≡ count_pair (counts_after sps.now header.now self.now) }
    {
        let number = u64::from(self.offset_of(header, sps)) + u64::from(header.frame_num);
        counts_from(header, sps, previous_for(header, self.previous), number)
    }

    // The picture has had its counts.
    fn record(&mut self, header: &Header, sps: &Sps)
        requires sps { IsSps sps.now }
        requires counted { is_ok (counts_after sps.now header.now self.old) ≡ true }
        ensures { self.new ≡ after_picture sps.now header.now self.old }
    {
        let offset = self.offset_of(header, sps);
        self.previous = previous_after(header, sps, self.previous);
        if header.has_operation_5() {
            self.offset = 0;
            self.frame_num = 0;
        } else {
            self.offset = offset;
            self.frame_num = header.frame_num;
        }
    }

    /// TopFieldOrderCnt and BottomFieldOrderCnt of the next picture (8.2.1), or PocRange, and then
    /// nothing has changed.
    pub fn next(&mut self, header: &Header, sps: &Sps) -> Result<(i32, i32), Fault>
        requires { IsSps sps.now }
        ensures counts { (older : List Past) → self.old ≡ order_count_state older →
            result ≡ count_pair (order_counts sps.now header.now older) }
        ensures after { OnOk result ((older : List Past) → self.old ≡ order_count_state older →
            self.new ≡ order_count_state (picture sps.now header.now ∷ older)) }
        ensures unchanged { OnErr result (self.new ≡ self.old) }
    {
        let counts = self.counts(header, sps)?;
        self.record(header, sps);
        Ok(counts)
    }

    /// A frame number is missing before the next picture, and a non-existing frame has it
    /// (8.2.5.2).
    pub fn missing(&mut self, frame_num: u32, sps: &Sps)
        requires { IsSps sps.now }
        ensures { (older : List Past) → self.old ≡ order_count_state older →
            self.new ≡ order_count_state (missing sps.now frame_num ∷ older) }
    {
        self.offset = next_offset(self.offset, self.frame_num, frame_num, sps.max_frame_num());
        self.frame_num = frame_num;
    }

    /// So many frame numbers are missing before the next picture, from `first` on, modulo
    /// MaxFrameNum. This takes as long for many as for one.
    pub fn missing_from(&mut self, first: u32, count: u32, sps: &Sps)
        requires sps { IsSps sps.now }
        requires first { first < max_frame_num sps.now }
        ensures { (older : List Past) → self.old ≡ order_count_state older →
            self.new ≡ order_count_state (with_missing_from sps.now first count older) }
    {
        if count == 0 {
            return;
        }
        gaps_count_at_once();
        let max = sps.max_frame_num();
        let offset = next_offset(self.offset, self.frame_num, first, max);
        let last = u64::from(first) + u64::from(count - 1);
        self.offset = offset_at(offset, last, max);
        self.frame_num = (last % u64::from(max)) as u32;
    }
}
