//! What comes to the history at once: a picture, or missing frame numbers.

use avc_marking::MissingFrameNums;
use avc_params::Sps;
use avc_plane::{PADDING, SharedPlanes};
use avc_slice::Header;
use avc_types::PictureInfo;

/// What came to the history at once: an entry, or several.
#[derive(Drop)]
pub enum HistoryEntry {
    /// A closed picture with its first slice's header and what is known of it.
    Picture {
        sps: Sps,
        header: Header,
        info: PictureInfo,
        planes: SharedPlanes<PADDING>,
    },

    /// A frame number that is missing (8.2.5.2).
    MissingFrame {
        sps: Sps,
        frame_num: u32,
    },

    /// Frame numbers that are missing one after another.
    MissingFrames {
        sps: Sps,
        numbers: MissingFrameNums,
    },
}
