//! Rows that are gathered into large writes.

ghost use Rattle.std.specs.Prelude.{◌≡◌, ◌+◌, ◌*◌, ◌++◌, ◌<◌, ◌≤◌, ◌^◌, length, take};
ghost use Rattle.avc_types.specs.Whole.{IsWhole};
ghost use Rattle.avc_plane.specs.Shown.{columns_of, samples_of};
ghost use Rattle.avc_yuv.specs.Copying.{shown_of, window_of, IsInside};
ghost use Rattle.avc_yuv.specs.I420.{window};
ghost use Rattle.avc_yuv.specs.Gathering.{nothing_waits, Gathers};

use crate::bytes::write_bytes;
use crate::shown::{Window, shown_row, window_of};
use crate::write::WriteFault;
use avc_plane::{Component, PictureRows};
use std::io::Write;

/// How many bytes went out, and how many wait at the front of the room.
#[derive(Clone, Copy)]
pub struct Gathered {
    pub written: u64,
    pub waiting: usize,
}

// Gathers the rows of a component that are shown: again and again one, and then all that have room
// behind it, which need no test each.
pub(crate) fn gather_component<P: PictureRows, W: Write>(
    picture: &P,
    component: Component,
    room: &mut [u8],
    before: Gathered,
    writer: &mut W,
) -> Result<Gathered, WriteFault>
    requires whole { IsWhole (P.picture picture.now) }
    requires within { before.waiting ≤ length room.old }
    requires counted { before.written + before.waiting
        + length (shown_of (P.picture picture.now) component) < 2 ^ 64 }
    ensures same_length { length room.new ≡ length room.old }
    ensures rows { Gathers before (shown_of (P.picture picture.now) component) room.old room.new
        (W.contents writer.old) (W.contents writer.new) result }
{
    let of = window_of(picture, component);
    let mut gathered = before;
    let mut number = 0;
    'rows: while number < of.height {
        let row = shown_row(picture, component, of, number);
        let one = gather(row, room, gathered, writer)?;
        let next = number + 1;
        let count = rows_that_fit(of.height - next, of.width, room.len() - one.waiting);
        put_rows(picture, component, of, next, count, room, one.waiting);
        gathered = Gathered {
            written: one.written,
            waiting: one.waiting + count * of.width,
        };
        number = next + count;
    }
    Ok(gathered)
}

// How many of so many rows have room together.
fn rows_that_fit(rows: usize, width: usize, room: usize) -> usize
    ensures few { result ≤ rows }
    ensures fit { result * width ≤ room }
{
    if width == 0 {
        return rows;
    }
    rows.min(room / width)
}

// Puts so many rows of a component into the room, one behind another, from this place on. In a call
// of its own it is small enough that the component is chosen once for all rows.
#[inline(never)]
fn put_rows<P: PictureRows>(
    picture: &P,
    component: Component,
    of: Window,
    first: usize,
    count: usize,
    room: &mut [u8],
    at: usize,
)
    requires whole { IsWhole (P.picture picture.now) }
    requires window { of ≡ window_of (P.picture picture.now) component }
    requires inside { IsInside (P.picture picture.now) component of }
    requires shown { first + count ≤ of.height }
    requires room { at + count * of.width ≤ length room.old }
    ensures same_length { length room.new ≡ length room.old }
    ensures rows { take (at + count * of.width) room.new ≡ take at room.old
        ++ window (columns_of (P.picture picture.now) component)
        (samples_of (P.picture picture.now) component)
        of.left (of.top + first) of.width count }
{
    'rows: for number in 0..count {
        let row = shown_row(picture, component, of, first + number);
        put(room, at + number * of.width, row);
    }
}

// Puts a row behind those that wait. Where it has no room there, they go out first.
fn gather<W: Write>(
    row: &[u8],
    room: &mut [u8],
    before: Gathered,
    writer: &mut W,
) -> Result<Gathered, WriteFault>
    requires within { before.waiting ≤ length room.old }
    requires counted { before.written + before.waiting + length row.now < 2 ^ 64 }
    ensures same_length { length room.new ≡ length room.old }
    ensures rows { Gathers before row.now room.old room.new (W.contents writer.old)
        (W.contents writer.new) result }
{
    if row.len() <= room.len() - before.waiting {
        put(room, before.waiting, row);
        return Ok(Gathered {
            written: before.written,
            waiting: before.waiting + row.len(),
        });
    }
    let written = write_bytes(&room[..before.waiting], before.written, writer)?;
    gather_first(row, room, written, writer)
}

// Where no row waits. One that is longer than the room goes out by itself.
fn gather_first<W: Write>(
    row: &[u8],
    room: &mut [u8],
    written: u64,
    writer: &mut W,
) -> Result<Gathered, WriteFault>
    requires counted { written + length row.now < 2 ^ 64 }
    ensures same_length { length room.new ≡ length room.old }
    ensures rows { Gathers (nothing_waits written) row.now room.old room.new (W.contents writer.old)
        (W.contents writer.new) result }
{
    if room.len() < row.len() {
        let written = write_bytes(row, written, writer)?;
        return Ok(Gathered {
            written,
            waiting: 0,
        });
    }
    put(room, 0, row);
    Ok(Gathered {
        written,
        waiting: row.len(),
    })
}

// Copies bytes into the room, from this place on.
fn put(room: &mut [u8], at: usize, bytes: &[u8])
    requires { at + length bytes.now ≤ length room.old }
    ensures length { length room.new ≡ length room.old }
    ensures front { take (at + length bytes.now) room.new ≡ take at room.old ++ bytes.now }
{
    copy_bytes(&mut room[at..at + bytes.len()], bytes);
}

// In a call of its own, since the code for slices that overlap, which comes with each copy, would
// crowd the loop over rows.
#[inline(never)]
fn copy_bytes(target: &mut [u8], bytes: &[u8])
    requires { length target.old ≡ length bytes.now }
    ensures { target.new ≡ bytes.now }
{
    target.copy_from_slice(bytes);
}
