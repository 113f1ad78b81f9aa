//! RefPicList0 of a slice by the places of its frames in the buffer (8.2.4).

ghost use Rattle.std.specs.Prelude.{◌≡◌, ℕ, ◌<◌, ◌≤◌, List, length, map, None, All, IfSome, IfOk};
ghost use Rattle.std.specs.Prelude.{slice_get, slice_index_or, unwrap_or};
ghost use Rattle.avc_types.specs.References.{NamesFrames};
ghost use Rattle.avc_params.specs.Limits.{max_frame_num};
ghost use Rattle.avc_params.specs.Within.{IsSps};
ghost use Rattle.avc_plane.specs.Frames.{marked_frame};
ghost use Rattle.avc_reflist.specs.Lists.{AreEntriesIn, each_entry};
ghost use Rattle.avc_reflist.specs.Lists as lists;
ghost use Rattle.avc_slice.specs.Header.{is_p};
ghost use Rattle.avc_picture.specs.Context.{ArePlacesIn, HasList};
ghost use Rattle.avc_picture.specs.Slices.{or_empty};

use arrayvec::ArrayVec;
use avc_params::Sps;
use avc_plane::Frame;
use avc_reflist::{ReferenceList, reference_list};
use avc_slice::Header;
use avc_types::{CurrentFrameNum, Fault, MarkedFrame, Modification};

/// The most entries of RefPicList0.
pub(crate) const MAX_ENTRIES: usize = 16;

/// RefPicList0 by reference index: the place of each frame among the frames of the buffer, nothing
/// where an entry is empty.
pub(crate) type Places = [Option<usize>; MAX_ENTRIES];

/// What reference lists know of the frames.
fn marked_frames<const PAD: usize>(frames: &[Frame<PAD>]) -> ArrayVec<MarkedFrame, 16>
    requires { length frames.now ≤ 16 }
    ensures { result.items ≡ map marked_frame frames.now }
{
    let mut marked = ArrayVec::new();
    for frame in frames {
        marked.push(frame.marked());
    }
    marked
}

/// The entries of ref_pic_list_modification, none where it is not coded.
fn modifications(header: &Header) -> &[Modification]
    ensures { result.now ≡ or_empty header.now.modifications }
{
    match &header.modifications {
        Some(modifications) => modifications.as_slice(),
        None => &[],
    }
}

/// The list of a P slice.
fn p_list<const PAD: usize>(
    sps: &Sps,
    header: &Header,
    frames: &[Frame<PAD>],
) -> Result<ReferenceList, Fault>
    requires sps { IsSps sps.now }
    requires count { header.now.num_ref_idx_active ≤ 16 }
    requires frames { length frames.now ≤ 16 }
    ensures within { IfOk result (AreEntriesIn (map marked_frame frames.now)) }
    ensures list { NamesFrames (map marked_frame frames.now) each_entry
        (lists.reference_list (record {
          frame_num = header.now.frame_num;
          max_frame_num = max_frame_num sps.now;
        }) header.now.num_ref_idx_active
        (or_empty header.now.modifications)) result }
{
    let marked = marked_frames(frames);
    let current = CurrentFrameNum {
        frame_num: header.frame_num,
        max_frame_num: sps.max_frame_num(),
    };
    let count = header.num_ref_idx_active as usize;
    reference_list(marked.as_slice(), current, count, modifications(header))
}

/// The entries of a list, and empty ones behind them.
fn places_of(list: &ReferenceList) -> Places
    ensures long { length result ≡ 16 }
    ensures each { (r : ℕ) → r < 16 → slice_index_or result r None
        ≡ unwrap_or (slice_get list.now r) None }
{
    let mut places = [None; MAX_ENTRIES];
    for r in 0..MAX_ENTRIES {
        places[r] = list.get(r);
    }
    places
}

/// The list of a slice, which is empty in an I slice. BadRefList where its header names a frame
/// that there is not.
pub(crate) fn reference_places<const PAD: usize>(
    sps: &Sps,
    header: &Header,
    frames: &[Frame<PAD>],
) -> Result<Places, Fault>
    requires sps { IsSps sps.now }
    requires count { header.now.num_ref_idx_active ≤ 16 }
    requires frames { length frames.now ≤ 16 }
    ensures long { IfOk result (λ places. length places ≡ 16) }
    ensures within { IfOk result (ArePlacesIn frames.now) }
    ensures list { HasList sps.now frames.now header.now result }
{
    if !header.is_p() {
        return Ok([None; MAX_ENTRIES]);
    }
    let list = p_list(sps, header, frames)?;
    Ok(places_of(&list))
}
