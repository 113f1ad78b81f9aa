//! FrameNumOffset (8.2.1.2, 8.2.1.3).

ghost use Rattle.std.specs.Prelude.{◌≡◌, ◌≤◌, ◌<◌, ◌^◌, ◌+◌, ◌*◌, ◌/◌};
ghost use Rattle.avc_poc.specs.OrderCountState.{saturated, next_offset};

/// From here on FrameNumOffset is held, since each count of types 1 and 2 is out of range.
const GREATEST: u32 = 1 << 31;

/// FrameNumOffset (8.2.1.2, 8.2.1.3) of an entry that is no IDR picture, after one with this offset
/// and frame_num: one MaxFrameNum more where frame_num has come round.
pub(crate) fn next_offset(offset: u32, before: u32, frame_num: u32, max_frame_num: u32) -> u32
    requires offset_small { offset ≤ 2 ^ 31 }
    requires max_small { max_frame_num ≤ 2 ^ 16 }
    ensures value { result ≡ next_offset offset before frame_num max_frame_num }
    ensures small { result ≤ 2 ^ 31 }
{
    if frame_num < before {
        (offset + max_frame_num).min(GREATEST)
    } else {
        offset
    }
}

/// FrameNumOffset once frame numbers have gone on to `last`, counted from the 0 before the first of
/// them: one MaxFrameNum more each time that they have come round.
pub(crate) fn offset_at(offset: u32, last: u64, max_frame_num: u32) -> u32
    requires offset_small { offset ≤ 2 ^ 31 }
    requires some { 0 < max_frame_num }
    requires max_small { max_frame_num ≤ 2 ^ 16 }
    requires last_small { last < 2 ^ 33 }
    ensures value { result ≡ saturated (offset + last / max_frame_num * max_frame_num) }
    ensures small { result ≤ 2 ^ 31 }
{
    let max = u64::from(max_frame_num);
    let rounds = last / max;
    (u64::from(offset) + rounds * max).min(u64::from(GREATEST)) as u32
}
