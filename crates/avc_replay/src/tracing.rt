//! The samples of a macroblock before deblocking, and what the filter is told of it.

ghost use Rattle.std.specs.Prelude.{◌≡◌, ◌<◌, ◌≤◌, ◌^◌, IfOk, IfSome};
ghost use Rattle.avc_picture.specs.Decoding.{HasNoFault};
ghost use Rattle.avc_picture.specs.OpenPicture.{HasFilterInfo, HasSample};
ghost use Rattle.avc_picture_core.specs.Built.{size_of};
ghost use Rattle.avc_replay.specs.Tracing.{number_of, AreOrderCounts, AreTraced, HasOrderCount};
ghost use Rattle.avc_replay.specs.Tracing.{IsBeside, IsExplained, IsTold, IsTraced};

use avc_difference::SamplePair;
use avc_picture::{MbInfo, PictureDecoder};
use avc_plane::{Component, Frame, PADDING};
use avc_stages::{Explained, TracedSample, counts_of, edges_of, motion_of};
use avc_types::OutOfMemory;
use std::alloc::Global;

/// What is told of the macroblock with this address, where it is the last that came of an open
/// picture. These are its samples as they are shown, with the other's, and the frames that it is
/// predicted from.
pub fn explain(
    alloc: Global,
    picture: &PictureDecoder<PADDING>,
    frames: &[Frame<PADDING>],
    address: usize,
    pairs: &[SamplePair],
) -> Result<Option<Explained>, OutOfMemory>
    requires fault { HasNoFault picture.now }
    requires small { address < 2 ^ 32 }
    ensures { IfOk result
        (λ explained.
        IfSome explained (λ e. IsExplained address pairs.now picture.now frames.now e)) }
{
    if picture.read() as usize != address + 1 {
        return Ok(None);
    }
    let Some(told) = told_at(picture, address) else {
        return Ok(None);
    };
    let Some(order_counts) = order_counts(frames, &told.info) else {
        return Ok(None);
    };
    let Some(samples) = trace(alloc, picture, pairs)? else {
        return Ok(None);
    };
    Ok(Some(Explained {
        address,
        counts: counts_of(&samples),
        motion: motion_of(&told.info, order_counts),
        edges: edges_of(told.left.as_ref(), told.above.as_ref(), &told.info),
    }))
}

// What the filter is told of a macroblock and of those beside it.
#[derive(Clone, Copy)]
struct Told {
    info: MbInfo,

    // of the one on the left, where the picture has it
    left: Option<MbInfo>,

    // of the one above, where the picture has it
    above: Option<MbInfo>,
}

// What it is told of this macroblock, where that is kept.
fn told_at(picture: &PictureDecoder<PADDING>, address: usize) -> Option<Told>
    requires { HasNoFault picture.now }
    ensures { IfSome result (λ told. IsTold address told picture.now) }
{
    let width = picture.sps().width_in_mbs() as usize;
    let info = info_at(picture, address)?;
    let left = neighbour_at(picture, address % width > 0, address.saturating_sub(1))?;
    let above = neighbour_at(picture, width <= address, address.saturating_sub(width))?;
    Some(Told {
        info,
        left: left.info,
        above: above.info,
    })
}

// What it is told of one that may be beside it.
#[derive(Clone, Copy)]
struct Neighbour {
    info: Option<MbInfo>,
}

// What the filter is told of one beside it, where the picture has it, if that is kept.
fn neighbour_at(picture: &PictureDecoder<PADDING>, has: bool, address: usize) -> Option<Neighbour>
    requires { HasNoFault picture.now }
    ensures { IfSome result (λ b. IsBeside has address picture.now b.info) }
{
    if !has {
        return Some(Neighbour { info: None });
    }
    Some(Neighbour {
        info: Some(info_at(picture, address)?),
    })
}

// What the filter is told of a macroblock, if that is kept.
fn info_at(picture: &PictureDecoder<PADDING>, address: usize) -> Option<MbInfo>
    requires { HasNoFault picture.now }
    ensures { IfSome result (λ info. HasFilterInfo address info picture.now) }
{
    match picture.filter_info(address) {
        Some(info) => Some(*info),
        None => None,
    }
}

// PicOrderCnt of the reference pictures of its quarters; of an intra macroblock zeros.
fn order_counts(frames: &[Frame<PADDING>], info: &MbInfo) -> Option<[i32; 4]>
    ensures { IfSome result (λ counts. AreOrderCounts frames.now info.now counts) }
{
    if info.is_intra {
        return Some([0; 4]);
    }
    let [first, second, third, fourth] = info.pictures;
    Some([
        order_count(frames, first)?,
        order_count(frames, second)?,
        order_count(frames, third)?,
        order_count(frames, fourth)?,
    ])
}

// PicOrderCnt of the frame in this place.
fn order_count(frames: &[Frame<PADDING>], place: u8) -> Option<i32>
    ensures { IfSome result (λ count. HasOrderCount frames.now place count) }
{
    match frames.get(usize::from(place)) {
        Some(frame) => Some(frame.info.pic_order_cnt),
        None => None,
    }
}

// The samples of the open picture in the places of these, if it has them.
fn trace(
    alloc: Global,
    picture: &PictureDecoder<PADDING>,
    pairs: &[SamplePair],
) -> Result<Option<Vec<TracedSample>>, OutOfMemory>
    requires { HasNoFault picture.now }
    ensures { IfOk result
        (λ samples. IfSome samples (λ s. AreTraced picture.now pairs.now s.items)) }
{
    let mut samples = Vec::with_capacity(alloc, pairs.len())?;
    'pairs: for pair in pairs {
        let Some(sample) = trace_one(picture, *pair) else {
            return Ok(None);
        };
        samples.push(sample)?;
    }
    Ok(Some(samples))
}

// The sample of the open picture in the place of this one, if it has it.
fn trace_one(picture: &PictureDecoder<PADDING>, pair: SamplePair) -> Option<TracedSample>
    requires { HasNoFault picture.now }
    ensures { IfSome result (λ sample. IsTraced picture.now pair sample) }
{
    let place = pair.place;
    let component = number_of(place.component);
    let before = sample_before(picture, component, place.coded_column, place.coded_row)?;
    Some(TracedSample {
        ours: pair.ours,
        before,
        theirs: pair.theirs,
    })
}

// A sample of the open picture, if it has it.
fn sample_before(
    picture: &PictureDecoder<PADDING>,
    component: usize,
    x: usize,
    y: usize,
) -> Option<u8>
    requires { HasNoFault picture.now }
    ensures { IfSome result (λ value. HasSample component x y value picture.now) }
{
    let width = picture.sps().width_in_mbs() as usize;
    let height = picture.sps().height_in_mbs() as usize;
    let size = size_of(component);
    if x >= size * width || y >= size * height {
        return None;
    }
    let address = (y / size) * width + x / size;
    if address < picture.read() as usize {
        Some(picture.sample(component, x, y))
    } else {
        None
    }
}

// How many columns and rows of a component a macroblock has (6.4.1).
fn size_of(component: usize) -> usize
    ensures is { result ≡ size_of component }
    ensures some { 8 ≤ result }
    ensures few { result ≤ 16 }
{
    match component {
        0 => 16,
        _ => 8,
    }
}

// The number of a component.
fn number_of(component: Component) -> usize
    ensures { result ≡ number_of component }
{
    match component {
        Component::Luma => 0,
        Component::Cb => 1,
        Component::Cr => 2,
    }
}
