//! The modification of a list (8.2.4.3).

ghost use Rattle.std.specs.Prelude.{◌≡◌, ◌<◌, ◌≤◌, ◌++◌, ◌∷◌, [], length, take, IfOk};
ghost use Rattle.std.specs.List.{filter};
ghost use Rattle.avc_types.specs.References.{NamesFrames};
ghost use Rattle.avc_reflist.specs.Lists.{AreEntriesIn, each_entry, reference_list};
ghost use Rattle.avc_reflist.specs.Order.{is_not_in_list};

use crate::initialisation::initial_list;
use crate::list::ReferenceList;
use crate::named_frames::{add, modification_places};
use arrayvec::ArrayVec;
use avc_types::{CurrentFrameNum, Fault, MarkedFrame, Modification};

/// One place more, unless it is among the first `names` or there are `count`.
fn add_unnamed(list: &mut ArrayVec<usize, 16>, names: usize, count: usize, place: usize)
    requires count { count ≤ 16 }
    requires few { length list.old.items ≤ count }
    requires names { names ≤ length list.old.items }
    ensures { list.new.items
        ≡ take count (list.old.items
        ++ filter (is_not_in_list (take names list.old.items)) (place ∷ [])) }
{
    if !list[..names].contains(&place) {
        add(list, count, place);
    }
}

/// The named places, and then those of the initial list that are not named: the first `count`.
fn with_initial_list(
    named: ArrayVec<usize, 16>,
    others: &[usize],
    count: usize,
) -> ArrayVec<usize, 16>
    requires count { count ≤ 16 }
    requires few { length named.items ≤ count }
    ensures { result.items
        ≡ take count (named.items ++ filter (is_not_in_list named.items) others.now) }
{
    let mut list = named;
    let names = list.len();
    for place in others {
        add_unnamed(&mut list, names, count, *place);
    }
    list
}

/// RefPicList0 of a P slice (8.2.4) as places among at most 16 frames in decoding order: the first
/// `count` of the frames that the modifications name, in their order and with repeats, and then of
/// the initial list without those that are named. BadRefList where a name names no frame, or one
/// that stands for a missing frame number. `count` is the active count, 1 to 16.
pub fn reference_list(
    frames: &[MarkedFrame],
    current: CurrentFrameNum,
    count: usize,
    modifications: &[Modification],
) -> Result<ReferenceList, Fault>
    requires frames { length frames.now ≤ 16 }
    requires count { count ≤ 16 }
    requires max_frame_num { 0 < current.max_frame_num }
    ensures within { IfOk result (AreEntriesIn frames.now) }
    ensures list { NamesFrames frames.now each_entry
        (reference_list current count modifications.now) result }
{
    let named = modification_places(frames, current, count, modifications)?;
    let others = initial_list(frames, current);
    Ok(ReferenceList::new(with_initial_list(named, &others, count), count))
}
