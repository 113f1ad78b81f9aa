//! The picture that was taken last: its samples copied, or lent.

ghost use Rattle.std.specs.Prelude.{◌≡◌, IfSome, Option, None};
ghost use Rattle.avc_types.specs.Whole.{IsWhole};
ghost use Rattle.avc_c_picture.specs.Answers.{picture_of};
ghost use Rattle.avc_c_picture.specs.Statuses.{number_of};
ghost use Rattle.avc_c_picture.specs.Copies.{IsI420Copied, IsPlaneCopied, component_of};
ghost use Rattle.avc_c_picture.specs.InfoRecords.{IsInfoTold};
ghost use Rattle.avc_c_picture.specs.Loans.{IsPlaneLent};

use crate::info::InfoRecord;
use crate::rows::LentRows;
use crate::status::Status;
use avc_decoder::{DecodeError, Event};
use avc_plane::{PictureRows, SharedPicture};
use avc_yuv::{Component, copy_i420, copy_plane, i420_len, plane_columns, plane_len};
use std::marker::Model;

/// The picture that was taken last, where the last event is one; it holds the picture's planes.
/// They and its crop fit its size.
#[derive(Drop)]
pub struct LastPicture {
    picture: Option<SharedPicture>,
}

impl Model for LastPicture {
    ghost use Rattle.std.specs.Prelude.{IfSome, Option};
    ghost use Rattle.avc_types.specs.Whole.{IsWhole};
    ghost use Rattle.avc_types.specs.declared.picture.Picture.{Picture};

    ghost Value = { Option Picture };

    ghost view = { λ p. p.picture };

    ghost invariant = { λ p. IfSome p.picture IsWhole };
}

impl LastPicture {
    pub fn none() -> LastPicture
        ensures { result ≡ None }
    {
        LastPicture { picture: None }
    }

    // The picture of an answer of `take`.
    fn of(answer: Result<Option<Event<SharedPicture>>, DecodeError>) -> LastPicture
        requires { IfSome (picture_of answer) IsWhole }
        ensures { result ≡ picture_of answer }
    {
        match answer {
            Ok(Some(Event::Picture(picture))) => LastPicture {
                picture: Some(picture),
            },
            Ok(Some(Event::Refused { .. })) => LastPicture::none(),
            Ok(None) => LastPicture::none(),
            Err(_) => LastPicture::none(),
        }
    }

    /// The picture of an answer of `take` takes this one's place.
    pub fn replace(&mut self, answer: Result<Option<Event<SharedPicture>>, DecodeError>)
        requires { IfSome (picture_of answer) IsWhole }
        ensures { self.new ≡ picture_of answer }
    {
        *self = LastPicture::of(answer);
    }

    /// Tells what is known of it beside its samples.
    pub fn tell_info(&self, info: &mut InfoRecord) -> Status
        ensures { IsInfoTold self.now info.old (number_of result) info.new }
    {
        let Some(picture) = &self.picture else {
            return Status::NoPicture;
        };
        *info = InfoRecord::of(&picture.info());
        Status::Ok
    }

    /// Copies what is shown, as I420.
    pub fn copy_i420(&self, out: &mut [u8]) -> Status
        ensures { IsI420Copied self.now out.old (number_of result) out.new }
    {
        let Some(picture) = &self.picture else {
            return Status::NoPicture;
        };
        if (out.len() as u128) < i420_len(picture) {
            return Status::NoRoom;
        }
        copy_i420(picture, out);
        Status::Ok
    }

    /// Copies what is shown of one plane, a row every `stride` bytes.
    pub fn copy_plane(&self, plane: u32, out: &mut [u8], stride: usize) -> Status
        ensures { IsPlaneCopied self.now plane out.old stride (number_of result) out.new }
    {
        let Some(picture) = &self.picture else {
            return Status::NoPicture;
        };
        let Some(component) = component_of(plane) else {
            return Status::NoPlane;
        };
        if stride < plane_columns(picture, component) {
            return Status::NoRoom;
        }
        if (out.len() as u128) < plane_len(picture, component, stride) {
            return Status::NoRoom;
        }
        copy_plane(picture, component, out, stride);
        Status::Ok
    }

    /// Tells where what is shown of one plane lies.
    pub fn lend_plane(&self, plane: u32, rows: &mut LentRows) -> Status
        ensures { IsPlaneLent self.now plane rows.old (number_of result) rows.new }
    {
        let Some(picture) = &self.picture else {
            return Status::NoPicture;
        };
        let Some(component) = component_of(plane) else {
            return Status::NoPlane;
        };
        *rows = LentRows::of(picture, component);
        Status::Ok
    }
}

// The component with this number.
fn component_of(plane: u32) -> Option<Component>
    ensures { result ≡ component_of plane }
{
    [Component::Luma, Component::Cb, Component::Cr]
        .get(plane as usize)
        .copied()
}
