//! The frames that stand for the missing numbers of a gap in frame_num (8.2.5.2).

ghost use Rattle.std.specs.Prelude.{◌≡◌, ◌++◌, ◌<◌, ◌≤◌, true, false, length, IfOk, OnOk};
ghost use Rattle.std.specs.Result.{is_ok};
ghost use Rattle.avc_decoder_core.specs.Gaps.{IsLongGap};
ghost use Rattle.avc_decoder_core.specs.History.{is_same_sps, sequence_sps, with_missing};
ghost use Rattle.avc_decoder_core.specs.Opening.{StoresAll};
ghost use Rattle.avc_params.specs.Within.{IsSps};

use crate::frame_buffer::FrameBuffer;
use avc_marking::MissingFrameNums;
use avc_params::Sps;
use avc_plane::SharedPicture;
use avc_types::OutOfMemory;
use std::alloc::Global;

/// Of a long gap so many of the last numbers are stored: no sliding window has more frames.
const STORED: u32 = 16;

/// More pictures go out.
fn output_more(
    out: &mut Vec<SharedPicture>,
    mut more: Vec<SharedPicture>,
) -> Result<(), OutOfMemory>
    ensures { OnOk result (out.new.items ≡ out.old.items ++ more.items) }
{
    out.append(&mut more)?;
    Ok(())
}

/// Stores a frame for each of these missing numbers, which can be marked. Answers the pictures that
/// go out.
fn store_each(
    alloc: Global,
    buffer: &mut FrameBuffer,
    mut numbers: MissingFrameNums,
    sps: &Sps,
) -> Result<Vec<SharedPicture>, OutOfMemory>
    requires going { buffer.old.failed ≡ false }
    requires sps { IsSps sps.now }
    requires same { is_same_sps (sequence_sps buffer.old.history) sps.now ≡ true }
    requires marked { is_ok (with_missing sps.now numbers buffer.old.history) ≡ true }
    ensures { IfOk result
        (λ out. StoresAll buffer.old (with_missing sps.now numbers buffer.old.history) out.items
        buffer.new) }
{
    let mut out = Vec::new(alloc);
    while let Some(frame_num) = numbers.next() {
        let more = buffer.store_missing(sps, frame_num)?;
        output_more(&mut out, more)?;
    }
    Ok(out)
}

/// Only the last of these missing numbers matter.
fn leaves_its_end(buffer: &FrameBuffer, numbers: &MissingFrameNums, sps: &Sps) -> bool
    requires going { buffer.now.failed ≡ false }
    requires sps { IsSps sps.now }
    ensures gap { result ≡ true →
        IsLongGap buffer.now.output sps.now buffer.now.history numbers.now }
    ensures long { result ≡ true → 16 ≤ length numbers.now }
{
    if numbers.len() < STORED {
        return false;
    }
    buffer.is_settled(sps, numbers)
}

/// Stores frames for the last of these missing numbers, where only they matter. Answers the
/// pictures that go out.
fn store_last(
    alloc: Global,
    buffer: &mut FrameBuffer,
    numbers: MissingFrameNums,
    sps: &Sps,
) -> Result<Vec<SharedPicture>, OutOfMemory>
    requires going { buffer.old.failed ≡ false }
    requires sps { IsSps sps.now }
    requires same { is_same_sps (sequence_sps buffer.old.history) sps.now ≡ true }
    requires marked { is_ok (with_missing sps.now numbers buffer.old.history) ≡ true }
    requires gap { IsLongGap buffer.old.output sps.now buffer.old.history numbers }
    requires long { 16 ≤ length numbers }
    ensures { IfOk result
        (λ out. StoresAll buffer.old (with_missing sps.now numbers buffer.old.history) out.items
        buffer.new) }
{
    let history = buffer.history_with(sps, &numbers);
    let skipped = numbers.len() - STORED;
    let out = store_each(alloc, buffer, numbers.skip(skipped), sps)?;
    buffer.stand_for(history);
    Ok(out)
}

/// Stores a frame for each of these missing numbers, which can be marked, but not for those of a
/// long gap that leave none. Answers the pictures that go out.
pub fn store_missing(
    alloc: Global,
    buffer: &mut FrameBuffer,
    mut numbers: MissingFrameNums,
    sps: &Sps,
) -> Result<Vec<SharedPicture>, OutOfMemory>
    requires going { buffer.old.failed ≡ false }
    requires sps { IsSps sps.now }
    requires same { 0 < length numbers → is_same_sps (sequence_sps buffer.old.history) sps.now
        ≡ true }
    requires marked { is_ok (with_missing sps.now numbers buffer.old.history) ≡ true }
    ensures { IfOk result
        (λ out. StoresAll buffer.old (with_missing sps.now numbers buffer.old.history) out.items
        buffer.new) }
{
    let mut out = Vec::new(alloc);
    while let Some(frame_num) = numbers.next() {
        let shown = buffer.store_missing(sps, frame_num)?;
        output_more(&mut out, shown)?;
        if leaves_its_end(buffer, &numbers, sps) {
            let last = store_last(alloc, buffer, numbers, sps)?;
            output_more(&mut out, last)?;
            return Ok(out);
        }
    }
    Ok(out)
}
