//! The caller's values that no event had yet, and those that none will have.

ghost use Rattle.std.specs.Prelude.{◌≡◌, ◌==◌, ◌++◌, ◌∷◌, [], position};
ghost use Rattle.avc_c.specs.Awaited.{awaited_behind, behind_mark, none_awaited, oldest_dropped};
ghost use Rattle.avc_c.specs.Awaited.{with_awaited, with_room, without, without_oldest};
ghost use Rattle.avc_c.specs.Awaited.{IsDroppedTold};
ghost use Rattle.avc_c_picture.specs.Statuses.{number_of};

use crate::marks::{MOST, Mark, Marks};
use arrayvec::ArrayVec;
use avc_c_picture::Status;
use avc_decoder::{DecodeError, Event};
use avc_plane::{PictureRows, SharedPicture};
use std::marker::Model;

/// The marks of which no event was taken, as many of the newest as there is room for.
#[derive(Drop)]
pub struct Awaited {
    // the oldest is the first
    marks: ArrayVec<Mark, MOST>,
    // where the mark of the newest IDR picture stands that was taken
    first: u64,
}

impl Model for Awaited {
    ghost use Rattle.avc_c.specs.Awaited.{AwaitedMarks};

    ghost Value = { AwaitedMarks };

    ghost view = { λ a. record { marks = a.marks.items; first = a.first } };
}

impl Awaited {
    pub(crate) fn none() -> Awaited
        ensures { result ≡ none_awaited }
    {
        Awaited {
            marks: ArrayVec::new(),
            first: 0,
        }
    }

    /// A mark is made.
    pub(crate) fn add(&mut self, mark: Mark)
        ensures { self.new ≡ with_awaited mark self.old }
    {
        remove_unit(&mut self.marks, mark.unit);
        if self.marks.is_full() {
            self.marks.remove(0);
        }
        self.marks.push(mark);
    }

    /// An answer of `take` was told, in a stream of these marks.
    pub(crate) fn note(
        &mut self,
        answer: &Result<Option<Event<SharedPicture>>, DecodeError>,
        marks: &Marks,
    )
        ensures { self.new ≡ awaited_behind marks.now answer.now self.old }
    {
        match answer {
            Ok(Some(Event::Picture(picture))) => {
                let info = picture.info();
                self.note_mark(info.is_idr, marks.mark_of(info.unit));
            }
            Ok(Some(Event::Refused { unit, .. })) => {
                self.note_mark(false, marks.mark_of(*unit));
            }
            Ok(None) => {}
            Err(_) => {}
        }
    }

    // An event had the value of this mark.
    fn note_mark(&mut self, is_idr: bool, mark: Option<Mark>)
        ensures { self.new ≡ behind_mark is_idr mark self.old }
    {
        if let Some(mark) = mark {
            remove_unit(&mut self.marks, mark.unit);
            if is_idr {
                self.first = mark.unit;
            }
        }
    }

    /// Tells the oldest value that never comes, which goes.
    pub(crate) fn tell_dropped(&mut self, value: &mut u64) -> Status
        ensures { IsDroppedTold self.old value.old (number_of result) value.new self.new }
    {
        match self.marks.as_slice() {
            [oldest, ..] if oldest.unit < self.first => {
                *value = oldest.value;
                self.marks.remove(0);
                Status::Ok
            }
            _ => Status::NoValue,
        }
    }
}

// Lets the mark of this unit go.
fn remove_unit(marks: &mut ArrayVec<Mark, MOST>, unit: u64)
    ensures { marks.new.items ≡ without unit marks.old.items }
{
    if let Some(at) = place_of(marks.as_slice(), unit) {
        marks.remove(at);
    }
}

fn place_of(marks: &[Mark], unit: u64) -> Option<usize>
    ensures { result ≡ position (λ m. m.unit == unit) marks.now }
{
    marks.iter().position(|mark| mark.unit == unit)
}
