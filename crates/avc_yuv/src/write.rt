//! Pictures written as I420.

ghost use Rattle.std.specs.Prelude.{◌≡◌, ◌<◌, ◌^◌, length, take, IfErr, OnOk};
ghost use Rattle.std.specs.Io.KnownBytes.{Appends, Keeps};
ghost use Rattle.avc_types.specs.Whole.{IsWhole};
ghost use Rattle.avc_yuv.specs.I420.{i420};

use crate::bytes::write_bytes;
use crate::gather::{Gathered, gather_component};
use avc_plane::{Component, PictureRows};
use std::io::Write;
use thiserror::Error;

/// A `write` answered an error, or took no byte.
#[derive(Debug, Drop, Error)]
#[error("write fault after {written} bytes")]
pub struct WriteFault {
    /// How many bytes the writer took before that.
    pub written: u64,
}

/// How many bytes of rows are gathered before they are written.
pub const ROOM: usize = 131_072;

/// Writes what is shown of a picture as I420: the samples of its crop window, luma, Cb and Cr, each
/// row by row, one byte a sample. As many rows as 128 KiB hold go out at once, of luma, Cb and Cr
/// together, so that a picture that is no larger goes out by one `write`. It stops at the first
/// `write` that answers an error, also one that tells of an interruption, or that takes no byte. Of
/// a picture whose planes or crop do not fit its size nothing is written.
pub fn write_i420<P: PictureRows, W: Write>(picture: &P, writer: &mut W) -> Result<(), WriteFault>
    ensures ok { IsWhole (P.picture picture.now) →
        OnOk result (Appends (W.contents writer.old) (W.contents writer.new)
        (i420 (P.picture picture.now))) }
    ensures before_all { IsWhole (P.picture picture.now) →
        IfErr result (λ fault. fault.written < length (i420 (P.picture picture.now))) }
    ensures err { IsWhole (P.picture picture.now) →
        IfErr result (λ fault. Appends (W.contents writer.old) (W.contents writer.new)
        (take fault.written (i420 (P.picture picture.now)))) }
    ensures unfit { (IsWhole (P.picture picture.now) → ⊥) →
        Keeps (W.contents writer.old) (W.contents writer.new) }
{
    if picture.is_whole() {
        return write_gathered(picture, writer);
    }
    Ok(())
}

/// Writes what is shown of a picture by as many rows at once as this room holds, for who writes one
/// picture after another: `ROOM` bytes are as good as more. What stands in it then is any.
pub fn write_i420_through<P: PictureRows, W: Write>(
    picture: &P,
    room: &mut [u8],
    writer: &mut W,
) -> Result<(), WriteFault>
    ensures same_length { length room.new ≡ length room.old }
    ensures ok { IsWhole (P.picture picture.now) →
        OnOk result (Appends (W.contents writer.old) (W.contents writer.new)
        (i420 (P.picture picture.now))) }
    ensures before_all { IsWhole (P.picture picture.now) →
        IfErr result (λ fault. fault.written < length (i420 (P.picture picture.now))) }
    ensures err { IsWhole (P.picture picture.now) →
        IfErr result (λ fault. Appends (W.contents writer.old) (W.contents writer.new)
        (take fault.written (i420 (P.picture picture.now)))) }
    ensures unfit { (IsWhole (P.picture picture.now) → ⊥) →
        Keeps (W.contents writer.old) (W.contents writer.new) }
{
    if picture.is_whole() {
        return write_rows(picture, room, writer);
    }
    Ok(())
}

// The rows are gathered in a call of its own, since their room is cleared at entry.
#[inline(never)]
fn write_gathered<P: PictureRows, W: Write>(picture: &P, writer: &mut W) -> Result<(), WriteFault>
    requires whole { IsWhole (P.picture picture.now) }
    requires addressable { length (P.picture picture.now).luma < 2 ^ 63 }
    ensures ok { OnOk result
        (Appends (W.contents writer.old) (W.contents writer.new) (i420 (P.picture picture.now))) }
    ensures before_all { IfErr result
        (λ fault. fault.written < length (i420 (P.picture picture.now))) }
    ensures err { IfErr result (λ fault. Appends (W.contents writer.old) (W.contents writer.new)
        (take fault.written (i420 (P.picture picture.now)))) }
{
    let mut room = [0; ROOM];
    write_rows(picture, &mut room, writer)
}

// Gathers the rows in this room.
fn write_rows<P: PictureRows, W: Write>(
    picture: &P,
    room: &mut [u8],
    writer: &mut W,
) -> Result<(), WriteFault>
    requires whole { IsWhole (P.picture picture.now) }
    requires addressable { length (P.picture picture.now).luma < 2 ^ 63 }
    ensures same_length { length room.new ≡ length room.old }
    ensures ok { OnOk result
        (Appends (W.contents writer.old) (W.contents writer.new) (i420 (P.picture picture.now))) }
    ensures before_all { IfErr result
        (λ fault. fault.written < length (i420 (P.picture picture.now))) }
    ensures err { IfErr result (λ fault. Appends (W.contents writer.old) (W.contents writer.new)
        (take fault.written (i420 (P.picture picture.now)))) }
{
    let none = Gathered {
        written: 0,
        waiting: 0,
    };
    let luma = gather_component(picture, Component::Luma, room, none, writer)?;
    let cb = gather_component(picture, Component::Cb, room, luma, writer)?;
    let cr = gather_component(picture, Component::Cr, room, cb, writer)?;
    write_bytes(&room[..cr.waiting], cr.written, writer)?;
    Ok(())
}
