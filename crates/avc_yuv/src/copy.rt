//! What is shown of a picture, copied.

ghost use Rattle.std.specs.Prelude.{◌≡◌, ◌+◌, ◌-◌, ◌*◌, ◌<◌, ◌≤◌, ◌^◌, ◌++◌, length, drop};
ghost use Rattle.avc_types.specs.Whole.{IsWhole};
ghost use Rattle.avc_yuv.specs.I420.{i420};
ghost use Rattle.avc_yuv.specs.Copying.{laid, laid_at, plane_room, shown_of, shown_rows, window_of};
ghost use Rattle.avc_yuv.specs.Copying.{IsInside};

use crate::shown::{Window, shown_row, window_of};
use avc_plane::{Component, PictureRows};

/// How many bytes `copy_i420` fills.
pub fn i420_len<P: PictureRows>(picture: &P) -> u128
    requires { IsWhole (P.picture picture.now) }
    ensures { result ≡ length (i420 (P.picture picture.now)) }
{
    let luma = window_of(picture, Component::Luma);
    let chroma = window_of(picture, Component::Cb);
    area(luma) + area(chroma) + area(chroma)
}

// How many samples a window has.
fn area(of: Window) -> u128
    requires width { of.width < 2 ^ 32 }
    requires height { of.height < 2 ^ 32 }
    ensures is { result ≡ of.height * of.width }
    ensures bounded { result < 2 ^ 64 }
{
    of.height as u128 * of.width as u128
}

/// Copies what is shown of a picture to the front of `out`, as I420: luma, Cb and Cr, each row by
/// row. What stands behind stays.
pub fn copy_i420<P: PictureRows>(picture: &P, out: &mut [u8])
    requires whole { IsWhole (P.picture picture.now) }
    requires room { length (i420 (P.picture picture.now)) ≤ length out.old }
    ensures { out.new ≡ i420 (P.picture picture.now)
        ++ drop (length (i420 (P.picture picture.now))) out.old }
{
    let luma = window_of(picture, Component::Luma);
    let chroma = window_of(picture, Component::Cb);
    let cb = copy_dense(picture, Component::Luma, luma, out, 0);
    let cr = copy_dense(picture, Component::Cb, chroma, out, cb);
    copy_dense(picture, Component::Cr, chroma, out, cr);
}

// From place `at` on, without gaps. Answers the place behind it.
fn copy_dense<P: PictureRows>(
    picture: &P,
    component: Component,
    of: Window,
    out: &mut [u8],
    at: usize,
) -> usize
    requires whole { IsWhole (P.picture picture.now) }
    requires window { of ≡ window_of (P.picture picture.now) component }
    requires inside { IsInside (P.picture picture.now) component of }
    requires room { at + of.height * of.width ≤ length out.old }
    ensures place { result ≡ at + of.height * of.width }
    ensures same_length { length out.new ≡ length out.old }
    ensures samples { out.new ≡ laid_at at (shown_of (P.picture picture.now) component) out.old }
{
    copy_window(picture, component, of, &mut out[at..], of.width);
    at + of.height * of.width
}

/// How many samples a row of a component has.
pub fn plane_columns<P: PictureRows>(picture: &P, component: Component) -> usize
    requires { IsWhole (P.picture picture.now) }
    ensures { result ≡ (window_of (P.picture picture.now) component).width }
{
    window_of(picture, component).width
}

/// How many bytes `copy_plane` asks for, with this many from row to row.
pub fn plane_len<P: PictureRows>(picture: &P, component: Component, stride: usize) -> u128
    requires { IsWhole (P.picture picture.now) }
    ensures { result ≡ plane_room (P.picture picture.now) component stride }
{
    let of = window_of(picture, component);
    of.height.saturating_sub(1) as u128 * stride as u128 + of.width as u128
}

/// Copies what is shown of one component, a row every `stride` bytes. What stands between the rows
/// and behind them stays.
pub fn copy_plane<P: PictureRows>(picture: &P, component: Component, out: &mut [u8], stride: usize)
    requires whole { IsWhole (P.picture picture.now) }
    requires stride { (window_of (P.picture picture.now) component).width ≤ stride }
    requires room { plane_room (P.picture picture.now) component stride ≤ length out.old }
    ensures { out.new ≡ laid stride (shown_rows (P.picture picture.now) component) out.old }
{
    let of = window_of(picture, component);
    copy_window(picture, component, of, out, stride);
}

fn copy_window<P: PictureRows>(
    picture: &P,
    component: Component,
    of: Window,
    out: &mut [u8],
    stride: usize,
)
    requires whole { IsWhole (P.picture picture.now) }
    requires window { of ≡ window_of (P.picture picture.now) component }
    requires inside { IsInside (P.picture picture.now) component of }
    requires stride { of.width ≤ stride }
    requires room { 0 < of.height → (of.height - 1) * stride + of.width ≤ length out.old }
    ensures same_length { length out.new ≡ length out.old }
    ensures rows { out.new ≡ laid stride (shown_rows (P.picture picture.now) component) out.old }
{
    'rows: for number in 0..of.height {
        copy_row(
            shown_row(picture, component, of, number),
            out,
            number * stride,
        );
    }
}

fn copy_row(row: &[u8], out: &mut [u8], at: usize)
    requires { at + length row.now ≤ length out.old }
    ensures same_length { length out.new ≡ length out.old }
    ensures row { out.new ≡ laid_at at row.now out.old }
{
    out[at..at + row.len()].copy_from_slice(row);
}
