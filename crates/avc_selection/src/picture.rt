//! A picture whose slices come.

ghost use Rattle.std.specs.Prelude.{◌≡◌, ℕ, Option, IfOk};
ghost use Rattle.avc_params.specs.Within.{IsSps};
ghost use Rattle.avc_selection.specs.Pictures.{OpenPicture, new_picture, picture_of};
ghost use Rattle.avc_selection.specs.Followed.{IsFollowed, IsOpen, IsPicture};

use crate::choice::Choice;
use crate::selection::Selection;
use avc_neigh::Row;
use avc_params::Sps;
use avc_slice::{Header, PictureFields, begins_picture};
use avc_types::OutOfMemory;
use std::alloc::Global;

/// What is kept of a picture whose slices come.
#[derive(Drop)]
pub struct Picture {
    /// What the next slice's header is compared with.
    pub last: PictureFields,

    /// The unit of its first slice.
    pub unit: u64,

    /// Its macroblocks so far, as far as the next ones ask for them.
    pub row: Row,

    /// In macroblocks.
    pub size: u32,

    /// How many of its slices so far have macroblocks.
    pub slices: u32,

    /// The address of the macroblock that comes next.
    pub next: u32,

    /// From this picture on. Of one that is not listed nothing but `last` is kept
    /// up.
    pub choice: Choice,
}

// At its first slice, which this unit brings, and which has this header.
fn new_picture(
    alloc: Global,
    choice: Choice,
    unit: u64,
    sps: &Sps,
    header: &Header,
) -> Result<Picture, OutOfMemory>
    requires { IsSps sps.now }
    ensures read { IfOk result (λ c. (number : ℕ) →
        IsPicture (new_picture number unit sps.now header.now) c) }
    ensures unit { IfOk result (λ c. c.unit ≡ unit) }
    ensures choice { IfOk result (λ c. c.choice ≡ choice) }
{
    Ok(Picture {
        last: header.picture_fields(),
        unit,
        row: Row::new(alloc, sps.width_in_mbs())?,
        size: sps.size_in_mbs(),
        slices: 0,
        next: 0,
        choice,
    })
}

/// The picture of a slice of this unit with this header: a new one, where it begins one
/// (7.4.1.2.4).
pub fn picture_of(
    alloc: Global,
    selection: Selection,
    kept: Option<Picture>,
    unit: u64,
    sps: &Sps,
    header: &Header,
) -> Result<Picture, OutOfMemory>
    requires { IsSps sps.now }
    ensures { IfOk result (λ c. (p : Option OpenPicture) → IsOpen selection p kept →
        IsFollowed selection (picture_of p unit sps.now header.now) c) }
{
    match kept {
        Some(picture) => {
            if begins_picture(&picture.last, header) {
                new_picture(
                    alloc,
                    picture.choice.next(selection, unit),
                    unit,
                    sps,
                    header,
                )
            } else {
                Ok(Picture {
                    last: header.picture_fields(),
                    ..picture
                })
            }
        }
        None => new_picture(alloc, Choice::first(selection, unit), unit, sps, header),
    }
}
