//! The other's bytes, read as long as they are what is shown of a picture.

ghost use Rattle.std.specs.Prelude.{◌≡◌, ◌<◌, ◌≤◌, [], length, take, IfErr, IfOk, OnErr, OnOk};
ghost use Rattle.std.specs.Io.KnownBytes.{IsAtEnd, Keeps};
ghost use Rattle.avc_types.specs.Whole.{IsWhole};
ghost use Rattle.avc_yuv.specs.Copying.{shown_of};
ghost use Rattle.avc_yuv.specs.I420.{i420};
ghost use Rattle.avc_compare.specs.Meeting.{Meets};
ghost use Rattle.avc_compare.specs.Reading.{Fills, ReadsSome};
ghost use Rattle.avc_compare.specs.declared.verdict.CompareFault.TheVariants as ends;

use crate::ahead::Ahead;
use crate::verdict::CompareFault;
use avc_plane::{Component, SharedPicture};
use avc_yuv::{shown_row, window_of};
use std::io::Read;

/// Reads the other's next bytes as long as they are what is shown of a picture, which has `left`
/// bytes as I420, and in any case no more than so many. Answers how many of the first are; those
/// that were read behind them wait, if the other has not ended there.
pub(crate) fn meet_picture<O: Read>(
    picture: &SharedPicture,
    left: u128,
    ahead: &mut Ahead,
    other: &mut O,
) -> Result<u128, CompareFault>
    requires whole { IsWhole picture.now }
    requires left { left ≡ length (i420 picture.now) }
    requires few { length ahead.old.bytes ≤ left }
    ensures ok { IfOk result (λ met. Meets (i420 picture.now) left met ahead.old.bytes
        ahead.new.bytes (O.remaining other.old) (O.remaining other.new)) }
    ensures over { IfOk result (λ met. met < length (i420 picture.now) → ahead.new.bytes ≡ []
        → IsAtEnd (O.remaining other.new)) }
    ensures fault { IfErr result (λ fault. fault ≡ ends.Theirs) }
    ensures err { OnErr result (ReadsSome (O.remaining other.old) (O.remaining other.new)) }
{
    let chroma = samples_of(picture, Component::Cb);
    let luma = meet_component(picture, Component::Luma, left, ahead, other)?;
    if luma < samples_of(picture, Component::Luma) {
        return Ok(luma);
    }
    let cb = meet_component(picture, Component::Cb, left - luma, ahead, other)?;
    if cb < chroma {
        return Ok(luma + cb);
    }
    let cr = meet_component(picture, Component::Cr, left - luma - cb, ahead, other)?;
    Ok(luma + cb + cr)
}

// How many samples of a component are shown.
fn samples_of(picture: &SharedPicture, component: Component) -> u128
    requires { IsWhole picture.now }
    ensures { result ≡ length (shown_of picture.now component) }
{
    let of = window_of(picture, component);
    of.height as u128 * of.width as u128
}

// Reads the other's next bytes as long as they are a component's; `left` are left from its first.
fn meet_component<O: Read>(
    picture: &SharedPicture,
    component: Component,
    left: u128,
    ahead: &mut Ahead,
    other: &mut O,
) -> Result<u128, CompareFault>
    requires whole { IsWhole picture.now }
    requires within { length (shown_of picture.now component) ≤ left }
    requires few { length ahead.old.bytes ≤ left }
    ensures ok { IfOk result (λ met. Meets (shown_of picture.now component) left met ahead.old.bytes
        ahead.new.bytes (O.remaining other.old) (O.remaining other.new)) }
    ensures over { IfOk result (λ met. met < length (shown_of picture.now component)
        → ahead.new.bytes ≡ [] → IsAtEnd (O.remaining other.new)) }
    ensures fault { IfErr result (λ fault. fault ≡ ends.Theirs) }
    ensures err { OnErr result (ReadsSome (O.remaining other.old) (O.remaining other.new)) }
{
    let of = window_of(picture, component);
    let mut met = 0;
    'rows: for number in 0..of.height {
        let row = shown_row(picture, component, of, number);
        let more = meet_row(row, left - met, ahead, other)?;
        met += more as u128;
        if more < row.len() {
            return Ok(met);
        }
    }
    Ok(met)
}

// Reads the other's next bytes as long as they are a row's.
fn meet_row<O: Read>(
    row: &[u8],
    left: u128,
    ahead: &mut Ahead,
    other: &mut O,
) -> Result<usize, CompareFault>
    requires within { length row.now ≤ left }
    requires few { length ahead.old.bytes ≤ left }
    ensures ok { IfOk result (λ met. Meets row.now left met ahead.old.bytes ahead.new.bytes
        (O.remaining other.old) (O.remaining other.new)) }
    ensures over { IfOk result
        (λ met. met < length row.now → ahead.new.bytes ≡ [] → IsAtEnd (O.remaining other.new)) }
    ensures fault { IfErr result (λ fault. fault ≡ ends.Theirs) }
    ensures err { OnErr result (ReadsSome (O.remaining other.old) (O.remaining other.new)) }
{
    let mut met = 0;
    'parts: while met < row.len() {
        fill(left - met as u128, ahead, other)?;
        let part = same_part(&row[met..], ahead.as_slice());
        if part == 0 {
            return Ok(met);
        }
        ahead.drop_first(part);
        met += part;
    }
    Ok(met)
}

// Reads on where no byte waits, at most so many.
fn fill<O: Read>(left: u128, ahead: &mut Ahead, other: &mut O) -> Result<(), CompareFault>
    requires some { 0 < left }
    requires few { length ahead.old.bytes ≤ left }
    ensures ok { OnOk result
        (Fills (O.remaining other.old) (O.remaining other.new) ahead.old ahead.new) }
    ensures few { OnOk result (length ahead.new.bytes ≤ left) }
    ensures fault { IfErr result (λ fault. fault ≡ ends.Theirs) }
    ensures err { OnErr result (Keeps (O.remaining other.old) (O.remaining other.new)) }
{
    if !ahead.as_slice().is_empty() {
        return Ok(());
    }
    match ahead.read_on(left, other) {
        Ok(()) => Ok(()),
        Err(_) => Err(CompareFault::Theirs),
    }
}

// How many of the first bytes of a row are the first that wait: as many as both have, or none.
fn same_part(row: &[u8], waiting: &[u8]) -> usize
    ensures row { result ≤ length row.now }
    ensures waiting { result ≤ length waiting.now }
    ensures same { take result row.now ≡ take result waiting.now }
{
    let len = row.len().min(waiting.len());
    if &row[..len] == &waiting[..len] {
        len
    } else {
        0
    }
}
