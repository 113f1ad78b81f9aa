//! A picture is written as I420, to a writer that takes little at a time, or not all.

use crate::limited_writer::{LimitedWriter, Refusal};
use avc_types::{Bytes, Crop, Picture, PictureInfo};
use avc_yuv::{WriteFault, write_i420};
use std::alloc::{AllocError, Global};
use std::test::Fail;

// A square with this side and so many luma samples, of which so many columns and rows are not
// shown.
fn grey(
    alloc: Global,
    side: u32,
    samples: usize,
    right: u32,
    bottom: u32,
) -> Result<Picture, AllocError> {
    Ok(Picture {
        width: side,
        height: side,
        crop: Crop {
            left: 0,
            right,
            top: 0,
            bottom,
        },
        info: PictureInfo::none(),
        luma: Bytes::from_vec(vec![in alloc; 128; samples]?),
        cb: Bytes::from_vec(vec![in alloc; 128; samples / 4]?),
        cr: Bytes::from_vec(vec![in alloc; 128; samples / 4]?),
    })
}

// How many grey bytes were written, by how many calls, and how many a fault told of.
fn written(
    picture: &Picture,
    piece: usize,
    room: usize,
    refusal: Refusal,
) -> (usize, usize, Option<u64>) {
    let mut writer = LimitedWriter {
        piece,
        room,
        refusal,
        grey: 0,
        calls: 0,
    };
    let fault = match write_i420(picture, &mut writer) {
        Ok(()) => None,
        Err(WriteFault { written }) => Some(written),
    };
    (writer.grey, writer.calls, fault)
}

// 10x10 are shown.
#[test]
fn writes_what_is_shown(rt: HostRuntime) -> Result<(), Fail> {
    let picture = grey(rt.alloc(), 16, 256, 6, 6)?;
    for piece in [1, 7, 1000] {
        let (bytes, _, fault) = written(&picture, piece, 1000, Refusal::Error);
        assert_eq!(rt; (piece, bytes, fault), (piece, 150, None));
    }
    Ok(())
}

#[test]
fn tells_how_far_it_came(rt: HostRuntime) -> Result<(), Fail> {
    let picture = grey(rt.alloc(), 16, 256, 6, 6)?;
    for room in [0, 1, 100, 149] {
        for refusal in [Refusal::Error, Refusal::Zero] {
            for piece in [1, 1000] {
                let (bytes, _, fault) = written(&picture, piece, room, refusal);
                assert_eq!(rt; (bytes, fault), (room, Some(room as u64)));
            }
        }
    }
    Ok(())
}

#[test]
fn writes_many_rows_at_once(rt: HostRuntime) -> Result<(), Fail> {
    for (hidden, bytes, calls) in [(200, 120_000, 1), (0, 240_000, 2)] {
        let picture = grey(rt.alloc(), 400, 160_000, 0, hidden)?;
        assert_eq!(rt;
            written(&picture, 1_000_000, 1_000_000, Refusal::Error),
            (bytes, calls, None)
        );
    }
    Ok(())
}
