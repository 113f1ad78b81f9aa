//! A decoded picture, and what is not shown of it.

use crate::bytes::Bytes;
use crate::picture_info::PictureInfo;

/// What is not shown of a coded picture (7.4.2.1.1), in luma samples from each side.
#[derive(Clone, Copy, Debug, PartialEq, Eq)]
pub struct Crop {
    pub left: u32,
    pub right: u32,
    pub top: u32,
    pub bottom: u32,
}

/// A decoded picture at 4:2:0 with samples of eight bits. All coded samples are there; `crop` says
/// which are shown.
#[derive(Drop)]
pub struct Picture {
    /// Of the coded picture, in luma samples. A chroma plane is half as wide and half as high.
    pub width: u32,

    pub height: u32,

    pub crop: Crop,

    pub info: PictureInfo,

    /// The luma samples, row by row.
    pub luma: Bytes,

    pub cb: Bytes,

    pub cr: Bytes,
}
