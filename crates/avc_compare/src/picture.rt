//! One picture beside the other's.

ghost use Rattle.std.specs.Prelude.{◌≡◌, false, true, length, IfErr, IfOk};
ghost use Rattle.avc_types.specs.Whole.{IsWhole};
ghost use Rattle.avc_yuv.specs.I420.{i420};
ghost use Rattle.avc_difference.specs.Places.{sample_count};
ghost use Rattle.avc_console.specs.declared.fault.RunFault.TheVariants as faults;
ghost use Rattle.avc_compare.specs.Comparing.{compared_picture, other_size, size_of};
ghost use Rattle.avc_compare.specs.Running.{ComparesPicture, FindsIn, LooksAt, TellsLine};

use crate::comparison::{Comparison, Setting};
use crate::digests::{Digests, digest_of};
use crate::samples::Samples;
use crate::verdict::{CompareFault, ComparedPicture, Differing, PictureSize, Sizes, Verdict};
use avc_console::{RunFault, write_text};
use avc_difference::{Shape, find_difference};
use avc_plane::{PictureRows, SharedPicture};
use avc_report::{add_psnr, measure};
use avc_yuv::i420_len;
use std::alloc::Global;
use std::io::{Read, Write};

/// Compares a picture with the other's next bytes, as many as it has as I420. Answers None where it
/// is the same, and else how the comparison ends. Writes the line on it, if that is wanted.
pub(crate) fn compare_picture<O: Read, W: Write>(
    setting: Setting,
    number: u64,
    picture: &SharedPicture,
    samples: &mut Samples,
    other: &mut O,
    writer: &mut W,
) -> Result<Option<Verdict>, CompareFault>
    requires { IsWhole picture.now }
    ensures { ComparesPicture setting.how number picture.now (O.remaining other.old)
        (O.remaining other.new) (W.contents writer.old) (W.contents writer.new) result }
{
    let Setting { alloc, how } = setting;
    if let Some(sizes) = other_size(how.size, picture) {
        return Ok(Some(Verdict::OtherSize(sizes)));
    }
    let met = samples.meet(picture, other)?;
    if is_passed(how, picture, met) {
        return Ok(None);
    }
    if !samples.complete(alloc, picture, met, other)? {
        return Ok(Some(Verdict::Fewer(number)));
    }
    let compared = compared_picture(number, picture);
    let ours = samples.ours();
    let theirs = samples.theirs();
    let found = judge(alloc, how.most, compared, ours, theirs)?;
    tell_line(alloc, how.has_psnr, compared, ours, theirs, writer)?;
    Ok(found)
}

// Whether nothing is to be told of a picture of which so many bytes are the other's: all are, and
// no line is wanted. Where not all are, they may be near enough all the same.
fn is_passed(how: Comparison, picture: &SharedPicture, met: u128) -> bool
    requires whole { IsWhole picture.now }
    ensures all { result ≡ true → met ≡ length (i420 picture.now) }
    ensures lineless { result ≡ true → how.has_psnr ≡ false }
{
    !how.has_psnr && met == i420_len(picture)
}

/// Looks at a picture behind the first that differs, beside the other's next bytes, as many as it
/// has as I420: adds the MD5s of both, and writes the line on it, if that is wanted. Answers
/// whether the other has so many.
pub(crate) fn look_at_picture<O: Read, W: Write>(
    setting: Setting,
    number: u64,
    picture: &SharedPicture,
    samples: &mut Samples,
    digests: &mut Digests,
    other: &mut O,
    writer: &mut W,
) -> Result<bool, CompareFault>
    requires { IsWhole picture.now }
    ensures { LooksAt setting.how number picture.now (O.remaining other.old) (O.remaining other.new)
        (W.contents writer.old) (W.contents writer.new) digests.old digests.new result }
{
    let Setting { alloc, how } = setting;
    samples.copy(alloc, picture)?;
    digests.add_ours(digest_of(samples.ours()))?;
    if let Some(_sizes) = other_size(how.size, picture) {
        return Ok(false);
    }
    if !samples.read(alloc, picture, other)? {
        return Ok(false);
    }
    let ours = samples.ours();
    let theirs = samples.theirs();
    digests.add_theirs(digest_of(theirs))?;
    let about = compared_picture(number, picture);
    tell_line(alloc, how.has_psnr, about, ours, theirs, writer)?;
    Ok(true)
}

// Writes the line on these samples, if such lines are told.
fn tell_line<W: Write>(
    alloc: Global,
    is_told: bool,
    picture: ComparedPicture,
    ours: &[u8],
    theirs: &[u8],
    writer: &mut W,
) -> Result<(), RunFault>
    requires same { length theirs.now ≡ length ours.now }
    requires whole { length ours.now ≡ sample_count picture.shape }
    ensures { TellsLine is_told picture ours.now theirs.now (W.contents writer.old)
        (W.contents writer.new) result }
{
    if !is_told {
        return Ok(());
    }
    let psnr = measure(alloc, picture.shape, ours, theirs)?;
    let mut text = String::new(alloc);
    add_psnr(&mut text, picture.number, psnr)?;
    write_text(&text, writer)
}

// The size of the other's pictures and that of this one, where they are not the same.
fn other_size(size: Option<PictureSize>, picture: &SharedPicture) -> Option<Sizes>
    ensures { result ≡ other_size size picture.now }
{
    let ours = size_of(picture);
    match size {
        Some(theirs) if theirs.width != ours.width || theirs.height != ours.height => {
            Some(Sizes { ours, theirs })
        }
        Some(_) | None => None,
    }
}

// The size of what is shown of a picture.
fn size_of(picture: &SharedPicture) -> PictureSize
    ensures { result ≡ size_of picture.now }
{
    let crop = picture.crop();
    let columns = u64::from(crop.left) + u64::from(crop.right);
    let rows = u64::from(crop.top) + u64::from(crop.bottom);
    PictureSize {
        width: u64::from(picture.width()).saturating_sub(columns),
        height: u64::from(picture.height()).saturating_sub(rows),
    }
}

fn compared_picture(number: u64, picture: &SharedPicture) -> ComparedPicture
    ensures { result ≡ compared_picture number picture.now }
{
    ComparedPicture {
        number,
        info: picture.info(),
        shape: Shape {
            width: picture.width(),
            height: picture.height(),
            crop: picture.crop(),
        },
    }
}

// Where the samples of two pictures differ.
fn judge(
    alloc: Global,
    most: u8,
    picture: ComparedPicture,
    ours: &[u8],
    theirs: &[u8],
) -> Result<Option<Verdict>, RunFault>
    requires same { length theirs.now ≡ length ours.now }
    requires whole { length ours.now ≡ sample_count picture.shape }
    ensures ok { IfOk result (λ found. FindsIn most picture ours.now theirs.now found) }
    ensures err { IfErr result (λ fault. fault ≡ faults.Memory) }
{
    match find_difference(alloc, picture.shape, most, ours, theirs)? {
        Some(difference) => Ok(Some(Verdict::Differs(Differing {
            picture,
            difference,
            our_digest: digest_of(ours),
            their_digest: digest_of(theirs),
        }))),
        None => Ok(None),
    }
}
