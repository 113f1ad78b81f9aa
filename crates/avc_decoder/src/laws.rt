//! Laws of whole streams that callers of the decoder rest on, over the definitions alone.

ghost use Rattle.avc_decoder.specs.Laws.{EventsOnlyGrow, FramesAreBounded, PicturesAreWhole};

use avc_annexb::laws::units_stay;
use avc_params::laws::sps_in_force_keeps_limits;
use avc_picture::laws::pictures_are_sized;

/// What has been handed out stays, whatever bytes follow, and whether the stream ends or not.
pub fn events_only_grow()
    ensures { EventsOnlyGrow }
{
    units_stay();
}

/// Each picture that is handed out has planes and a crop that fit its size.
pub fn pictures_are_whole()
    ensures { PicturesAreWhole }
{
    pictures_are_sized();
    sps_in_force_keeps_limits();
}

/// Whatever is fed, a decoder has memory of few frames: at most 16 that are stored, the open
/// picture, and 18 of pictures that are over. The state of which this is said is that which each
/// call of a decoder keeps.
///
/// It says nothing of frames that have left the buffer since a picture began last (at most 17 wait
/// there, by their type), nor of those that pictures hold which went out.
pub fn frames_are_bounded()
    ensures { FramesAreBounded }
{}
