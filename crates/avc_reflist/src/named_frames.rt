//! The frames that modifications name (8.2.4.3.1, 8.2.4.3.2).

ghost use Rattle.std.specs.Prelude.{◌≡◌, ◌<◌, ◌≤◌, ◌++◌, ◌∷◌, [], length, take, All, IfSome, IfOk};
ghost use Rattle.std.specs.Option.{option_map};
ghost use Rattle.avc_types.specs.References.{IsPlaceIn, NamesFrames, result_map};
ghost use Rattle.avc_reflist.specs.Lists.{each_frame, existing_modification_frame};
ghost use Rattle.avc_reflist.specs.Lists.{first_modification_frames, modification_frame};
ghost use Rattle.avc_reflist.specs.Lists.{pic_num_no_wrap};

use arrayvec::ArrayVec;
use avc_types::{
    CurrentFrameNum, Fault, MarkedFrame, Modification, long_term_place, short_term_place,
};

/// picNumLXNoWrap after one more step from the predictor (8.2.4.3.1); a long-term name takes none.
fn pic_num_no_wrap(max_frame_num: u32, predictor: u32, modification: Modification) -> u32
    requires { 0 < max_frame_num }
    ensures { result ≡ pic_num_no_wrap max_frame_num predictor modification }
{
    let max = u64::from(max_frame_num);
    match modification {
        Modification::Subtract(n) => ((u64::from(predictor) + max).saturating_sub(u64::from(n) + 1)
            % max) as u32,
        Modification::Add(n) => ((u64::from(predictor) + (u64::from(n) + 1)) % max) as u32,
        Modification::LongTerm(_) => predictor,
    }
}

/// The place of the frame that a modification names, where the predictor has come to `number`.
fn modification_place(
    frames: &[MarkedFrame],
    current: CurrentFrameNum,
    number: u32,
    modification: Modification,
) -> Option<usize>
    ensures within { IfSome result (IsPlaceIn frames.now) }
    ensures named { NamesFrames frames.now option_map
        (modification_frame current number modification) result }
{
    match modification {
        Modification::LongTerm(index) => long_term_place(frames, index),
        _ => short_term_place(frames, current, current.pic_num(number)),
    }
}

/// The place of the same frame, which has to be a picture; BadRefList otherwise.
fn existing_modification_place(
    frames: &[MarkedFrame],
    current: CurrentFrameNum,
    number: u32,
    modification: Modification,
) -> Result<usize, Fault>
    ensures within { IfOk result (IsPlaceIn frames.now) }
    ensures named { NamesFrames frames.now result_map
        (existing_modification_frame current number modification) result }
{
    match modification_place(frames, current, number, modification) {
        Some(place) if frames[place].existing => Ok(place),
        _ => Err(Fault::BadRefList),
    }
}

/// One place more, unless there are `count`.
pub fn add(list: &mut ArrayVec<usize, 16>, count: usize, place: usize)
    requires count { count ≤ 16 }
    requires few { length list.old.items ≤ count }
    ensures { list.new.items ≡ take count (list.old.items ++ place ∷ []) }
{
    if list.len() < count {
        list.push(place);
    }
}

/// The places of the frames that the modifications name, the first `count` of them.
pub fn modification_places(
    frames: &[MarkedFrame],
    current: CurrentFrameNum,
    count: usize,
    modifications: &[Modification],
) -> Result<ArrayVec<usize, 16>, Fault>
    requires count { count ≤ 16 }
    requires max_frame_num { 0 < current.max_frame_num }
    ensures few { IfOk result (λ list. length list.items ≤ count) }
    ensures within { IfOk result (λ list. All (IsPlaceIn frames.now) list.items) }
    ensures named { NamesFrames frames.now each_frame
        (first_modification_frames current count modifications.now)
        (result_map (λ list. list.items) result) }
{
    let mut list = ArrayVec::new();
    let mut number = current.frame_num;
    for modification in modifications {
        number = pic_num_no_wrap(current.max_frame_num, number, *modification);
        let place = existing_modification_place(frames, current, number, *modification)?;
        add(&mut list, count, place);
    }
    Ok(list)
}
