//! Stored frames as pictures that go out.

ghost use Rattle.std.specs.Prelude.{◌≡◌, ◌≢◌, [], ◌∷◌, ◌++◌, true, is_some, IfOk, OnErr, OnOk};
ghost use Rattle.std.specs.List.{filter_map};
ghost use Rattle.avc_dpb.specs.StoredFrame.{shown_frame};

use avc_plane::{Frame, PADDING, SharedPicture};
use avc_types::OutOfMemory;

/// The picture of a frame, which shares its planes. One that stands for a missing frame number
/// shows nothing, and wants no memory.
fn shown_frame(frame: &Frame<PADDING>) -> Result<Option<SharedPicture>, OutOfMemory>
    ensures picture { IfOk result (λ picture. picture ≡ shown_frame frame.now) }
    ensures memory { OnErr result (is_some (shown_frame frame.now) ≡ true) }
{
    match &frame.planes {
        Some(planes) => {
            let planes = planes.share()?;
            Ok(Some(SharedPicture::new(planes, frame.crop, frame.info)))
        }
        None => Ok(None),
    }
}

/// Adds the picture of a frame that has one.
pub fn push_picture(frame: &Frame<PADDING>, out: &mut Vec<SharedPicture>) -> Result<(), OutOfMemory>
    ensures pictures { OnOk result (out.new.items ≡ out.old.items
        ++ filter_map shown_frame (frame.now ∷ [])) }
    ensures memory { OnErr result (filter_map shown_frame (frame.now ∷ []) ≢ []) }
{
    match shown_frame(frame)? {
        Some(picture) => {
            out.push(picture)?;
            Ok(())
        }
        None => Ok(()),
    }
}
