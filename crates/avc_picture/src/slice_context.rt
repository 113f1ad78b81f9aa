//! What is the same for all macroblocks of a slice.

ghost use Rattle.std.specs.Prelude.{◌≡◌, ℕ, ◌<◌, ◌≤◌, pos, negsuc, ◌≤ℤ◌, ◌+ℤ◌, None, All, IfSome};
ghost use Rattle.std.specs.Prelude.{length, slice_get, slice_index_or, unwrap_or};
ghost use Rattle.avc_slice.specs.Within.{IsDeblocking, IsPredWeightTable};
ghost use Rattle.avc_picture.specs.Context.{ArePicturesAt, ArePlacesIn, IsContextAt, IsPictureAt};
ghost use Rattle.avc_picture.specs.Slices.{deblocking_of};

use crate::reference_places::Places;
use avc_picture_core::ReferencePicture;
use avc_plane::Frame;
use avc_slice::{Deblocking, Header};
use avc_types::FilteredEdges;

/// What the macroblocks of one slice are decoded with (7.4.3).
#[derive(Clone, Copy)]
pub(crate) struct SliceContext<'a, const PAD: usize> {
    /// The slice's number in the picture, from 0.
    pub(crate) number: u32,

    /// RefPicList0 by reference index; nothing where an index names no picture.
    pub(crate) references: [Option<ReferencePicture<'a, PAD>>; 16],

    /// For each reference index a number of the frame that it names, for the deblocking filter:
    /// equal numbers are one frame.
    pub(crate) frame_numbers: [u8; 16],

    /// disable_deblocking_filter_idc.
    pub(crate) filtered_edges: FilteredEdges,

    /// FilterOffsetA: -12 to 12.
    pub(crate) offset_a: i8,

    /// FilterOffsetB: -12 to 12.
    pub(crate) offset_b: i8,
}

/// The picture at a place, weighted as this reference index is.
fn picture_at<'a, const PAD: usize>(
    header: &Header,
    frames: &'a [Frame<PAD>],
    reference_index: usize,
    place: Option<usize>,
) -> Option<ReferencePicture<'a, PAD>>
    requires within { IfSome place (λ k. k < length frames.now) }
    requires weights { IfSome header.now.pred_weight_table
        (IsPredWeightTable header.now.num_ref_idx_active) }
    ensures { IsPictureAt frames.now header.now reference_index place result }
{
    let place = place?;
    match &frames[place].planes {
        Some(planes) => Some(ReferencePicture {
            planes: planes.padded(),
            weights: header.weights(reference_index),
        }),
        None => None,
    }
}

/// The pictures of a list.
fn pictures<'a, const PAD: usize>(
    header: &Header,
    frames: &'a [Frame<PAD>],
    places: &Places,
) -> [Option<ReferencePicture<'a, PAD>>; 16]
    requires within { ArePlacesIn frames.now places.now }
    requires weights { IfSome header.now.pred_weight_table
        (IsPredWeightTable header.now.num_ref_idx_active) }
    ensures long { length result ≡ 16 }
    ensures each { ArePicturesAt frames.now header.now 16 places.now result }
{
    let mut pictures = [None; 16];
    for r in 0..16 {
        pictures[r] = picture_at(header, frames, r, places[r]);
    }
    pictures
}

/// The place of a frame as a number; 0 without a place.
fn number_of(place: Option<usize>) -> u8
    requires { IfSome place (λ k. k < 16) }
    ensures { result ≡ unwrap_or place 0 }
{
    match place {
        Some(place) => place as u8,
        None => 0,
    }
}

/// The places of a list as numbers of frames.
fn numbers(places: &Places) -> [u8; 16]
    requires { All (λ entry. IfSome entry (λ k. k < 16)) places.now }
    ensures { (r : ℕ) → r < 16 → slice_index_or result r 0
        ≡ unwrap_or (slice_index_or places.now r None) 0 }
{
    let mut numbers = [0; 16];
    for r in 0..16 {
        numbers[r] = number_of(places[r]);
    }
    numbers
}

/// The deblocking fields, with what is inferred where they are not coded (7.4.3).
fn deblocking(header: &Header) -> Deblocking
    requires { IfSome header.now.deblocking IsDeblocking }
    ensures value { result ≡ deblocking_of header.now.deblocking }
    ensures alpha_low { negsuc 5 ≤ℤ result.slice_alpha_c0_offset_div2 }
    ensures alpha_high { result.slice_alpha_c0_offset_div2 ≤ℤ pos 6 }
    ensures beta_low { negsuc 5 ≤ℤ result.slice_beta_offset_div2 }
    ensures beta_high { result.slice_beta_offset_div2 ≤ℤ pos 6 }
{
    match header.deblocking {
        Some(deblocking) => deblocking,
        None => Deblocking {
            disable_deblocking_filter_idc: FilteredEdges::All,
            slice_alpha_c0_offset_div2: 0,
            slice_beta_offset_div2: 0,
        },
    }
}

/// FilterOffsetA or FilterOffsetB from its coded half.
fn doubled(offset_div2: i32) -> i8
    requires low { negsuc 5 ≤ℤ offset_div2 }
    requires high { offset_div2 ≤ℤ pos 6 }
    ensures { result ≡ offset_div2 +ℤ offset_div2 }
{
    (offset_div2 + offset_div2) as i8
}

impl<'a, const PAD: usize> SliceContext<'a, PAD> {
    /// Of slice `number` of a picture, whose RefPicList0 has the frames at these places.
    pub(crate) fn new(
        number: u32,
        header: &Header,
        frames: &'a [Frame<PAD>],
        places: &Places,
    ) -> Self
        requires few { length frames.now ≤ 16 }
        requires within { ArePlacesIn frames.now places.now }
        requires deblocking { IfSome header.now.deblocking IsDeblocking }
        requires weights { IfSome header.now.pred_weight_table
            (IsPredWeightTable header.now.num_ref_idx_active) }
        ensures { IsContextAt number frames.now header.now places.now result }
    {
        let deblocking = deblocking(header);
        SliceContext {
            number,
            references: pictures(header, frames, places),
            frame_numbers: numbers(places),
            filtered_edges: deblocking.disable_deblocking_filter_idc,
            offset_a: doubled(deblocking.slice_alpha_c0_offset_div2),
            offset_b: doubled(deblocking.slice_beta_offset_div2),
        }
    }
}
