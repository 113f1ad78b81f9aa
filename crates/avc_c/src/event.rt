//! What `avcdec_take` tells of an event, as the record of the header.

ghost use Rattle.std.specs.Prelude.{◌≡◌};
ghost use Rattle.avc_c.specs.EventRecords.{picture_record, record_of};

use crate::marks::Marks;
use avc_decoder::{DecodeError, Event};
use avc_plane::{PictureRows, SharedPicture};

/// What C is told of an event: nothing (0), a picture (1) or a refusal (2). What does not belong to
/// its kind is 0.
#[repr(C)]
#[derive(Clone, Copy)]
pub struct EventRecord {
    pub kind: u32,
    /// Number of the fault of a refusal.
    pub fault: u32,
    /// The unit of a refusal, or that of the first slice of a picture, counted from 0.
    pub unit: u64,
    /// The coded size of a picture, in luma samples.
    pub width: u32,
    pub height: u32,
    /// What is not shown of a picture, in luma samples from each side.
    pub crop_left: u32,
    pub crop_right: u32,
    pub crop_top: u32,
    pub crop_bottom: u32,
    /// The value that the caller gave to the unit.
    pub value: u64,
}

const NOTHING: EventRecord = EventRecord {
    kind: 0,
    fault: 0,
    unit: 0,
    width: 0,
    height: 0,
    crop_left: 0,
    crop_right: 0,
    crop_top: 0,
    crop_bottom: 0,
    value: 0,
};

impl EventRecord {
    fn of_picture(picture: &SharedPicture, marks: &Marks) -> EventRecord
        ensures { result ≡ picture_record marks.now picture.now }
    {
        let unit = picture.info().unit;
        let crop = picture.crop();
        EventRecord {
            kind: 1,
            unit,
            width: picture.width(),
            height: picture.height(),
            crop_left: crop.left,
            crop_right: crop.right,
            crop_top: crop.top,
            crop_bottom: crop.bottom,
            value: marks.value_of(unit),
            ..NOTHING
        }
    }

    /// The event of an answer of `take`, in a stream of these marks.
    pub(crate) fn of(
        answer: &Result<Option<Event<SharedPicture>>, DecodeError>,
        marks: &Marks,
    ) -> EventRecord
        ensures { result ≡ record_of marks.now answer.now }
    {
        match answer {
            Ok(Some(Event::Picture(picture))) => EventRecord::of_picture(picture, marks),
            Ok(Some(Event::Refused { unit, fault })) => EventRecord {
                kind: 2,
                fault: u32::from(fault.number()),
                unit: *unit,
                value: marks.value_of(*unit),
                ..NOTHING
            },
            Ok(None) => NOTHING,
            Err(_) => NOTHING,
        }
    }
}
