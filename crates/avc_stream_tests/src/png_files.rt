//! Tests of PNG files, and of their checksums: that the definitions are those of the formats.

use avc_plane::PictureRows;
use avc_png::{adler_32, crc_32, has_png_size, to_png};
use avc_types::{Bytes, Crop, OutOfMemory, Picture, PictureInfo};
use std::alloc::Global;
use std::test::Fail;

// CRC-32 of the type of the last chunk is in every PNG file, and that of nine digits in every
// catalogue of CRCs.
#[test]
fn crc_of_known_bytes(rt: HostRuntime) {
    assert_eq!(rt;
        [crc_32(b"IEND", &[], &[]), crc_32(b"123", b"456", b"789")],
        [0xAE42_6082, 0xCBF4_3926]
    );
}

#[test]
fn adler_of_known_bytes(rt: HostRuntime) {
    assert_eq!(rt; adler_32(b"Wikipedia"), 0x11E6_0398);
}

const LUMA: [u8; 16] = [
    5, 21, 37, 53, 69, 85, 101, 117, 133, 149, 165, 181, 197, 213, 229, 245,
];

// Of 4x4 samples, with what is not shown at the right and below.
fn small_picture(alloc: Global, right: u32, bottom: u32) -> Result<Picture, OutOfMemory> {
    Ok(Picture {
        width: 4,
        height: 4,
        crop: Crop {
            left: 2,
            right,
            top: 0,
            bottom,
        },
        info: PictureInfo::none(),
        luma: Bytes::from_vec(LUMA.to_vec(alloc)?),
        cb: Bytes::from_vec([90, 100, 140, 250].to_vec(alloc)?),
        cr: Bytes::from_vec([240, 110, 20, 130].to_vec(alloc)?),
    })
}

// The bytes are what python makes of the same samples with its own zlib.crc32 and zlib.adler32, and
// ffmpeg reads the six bytes of each row from them.
const FILE: [u8; 106] = [
    137, 80, 78, 71, 13, 10, 26, 10, 0, 0, 0, 13, 73, 72, 68, 82, 0, 0, 0, 2, 0, 0, 0, 2, 8, 2, 0,
    0, 0, 253, 212, 154, 115, 0, 0, 0, 2, 73, 68, 65, 84, 120, 1, 236, 26, 126, 210, 0, 0, 0, 19,
    73, 68, 65, 84, 1, 14, 0, 241, 255, 0, 0, 50, 0, 14, 69, 0, 0, 70, 125, 42, 89, 143, 61, 151,
    196, 63, 252, 0, 0, 0, 4, 73, 68, 65, 84, 12, 130, 2, 152, 142, 166, 238, 165, 0, 0, 0, 0, 73,
    69, 78, 68, 174, 66, 96, 130,
];

// The file of a picture that is whole and has the size of one, and else no byte.
fn file_of(alloc: Global, picture: &Picture) -> Result<Vec<u8>, OutOfMemory> {
    if picture.is_whole() && has_png_size(picture) {
        return to_png(alloc, picture);
    }
    Ok(Vec::new(alloc))
}

fn small_file(alloc: Global) -> Result<Vec<u8>, OutOfMemory> {
    let picture = small_picture(alloc, 0, 2)?;
    file_of(alloc, &picture)
}

#[test]
fn file_of_a_small_picture(rt: HostRuntime) -> Result<(), Fail> {
    assert_eq!(rt; small_file(rt.alloc())?.as_slice(), FILE.as_slice());
    Ok(())
}

// Whether it has the size of a file; nothing where it is not whole.
fn has_size(alloc: Global, right: u32, bottom: u32) -> Result<Option<bool>, OutOfMemory> {
    let picture = small_picture(alloc, right, bottom)?;
    if picture.is_whole() {
        Ok(Some(has_png_size(&picture)))
    } else {
        Ok(None)
    }
}

// Where some is shown, where no column is, and where no row is.
#[test]
fn nothing_shown_has_no_size(rt: HostRuntime) -> Result<(), Fail> {
    let shown = has_size(rt.alloc(), 0, 0)?;
    let no_column = has_size(rt.alloc(), 2, 0)?;
    let no_row = has_size(rt.alloc(), 0, 4)?;
    assert_eq!(rt;
        [shown, no_column, no_row],
        [Some(true), Some(false), Some(false)]
    );
    Ok(())
}
