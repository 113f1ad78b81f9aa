//! The open picture, as it is lent.

use avc_picture::PictureDecoder;
use avc_plane::{Frame, PADDING};

/// The open picture of a stream.
#[derive(Clone, Copy)]
pub struct OpenPicture<'a> {
    /// Its decoder, with its slices so far.
    pub decoder: &'a PictureDecoder<PADDING>,

    /// The frames of the buffer in decoding order. The picture is decoded with these, but an IDR
    /// picture without any.
    pub frames: &'a [Frame<PADDING>],
}
