//! Bytes that are written, and counted.

ghost use Rattle.std.specs.Prelude.{◌≡◌, ◌+◌, ◌<◌, ◌≤◌, ◌^◌, length, take};
ghost use Rattle.std.specs.Io.KnownBytes.{Appends};
ghost use Rattle.avc_yuv.specs.Writing.{done_after, Writes};

use crate::write::WriteFault;
use std::io::Write;

/// Writes all bytes, where `before` bytes went out already, and answers how many are out then. It
/// stops at the first `write` that answers an error, also one that tells of an interruption, or
/// that takes no byte.
pub fn write_bytes<W: Write>(bytes: &[u8], before: u64, writer: &mut W) -> Result<u64, WriteFault>
    requires room { before + length bytes.now < 2 ^ 64 }
    ensures { Writes before bytes.now (W.contents writer.old) (W.contents writer.new) result }
{
    let mut done = 0;
    while done < bytes.len() {
        let taken = write_once(&bytes[done..], writer);
        done = done_after(before, done, taken)?;
    }
    Ok(before + done as u64)
}

// How many bytes are done after a `write` that took so many more. To take none is a fault, and to
// take a few is not.
fn done_after(before: u64, done: usize, taken: usize) -> Result<usize, WriteFault>
    requires room { before + done + taken < 2 ^ 64 }
    ensures { result ≡ done_after before done taken }
{
    if taken == 0 {
        Err(WriteFault {
            written: before + done as u64,
        })
    } else {
        Ok(done + taken)
    }
}

// How many bytes one `write` took: none where it answered an error.
fn write_once<W: Write>(bytes: &[u8], writer: &mut W) -> usize
    ensures within { result ≤ length bytes.now }
    ensures bytes { Appends (W.contents writer.old) (W.contents writer.new)
        (take result bytes.now) }
{
    match writer.write(bytes) {
        Ok(taken) => taken,
        Err(_) => 0,
    }
}
