//! Where the units stand that refusals name, followed beside decoding.

ghost use Rattle.std.specs.Prelude.{◌≡◌, is_some, IfSome, OnOk};
ghost use Rattle.avc_annexb.specs.SplitterState.{after_feed, after_finish, next_unit_of};
ghost use Rattle.avc_console.specs.Reading.{max_unit};
ghost use Rattle.avc_shell.specs.UnitPlaces.{behind, new_places, place_at, place_in};

use crate::unit_place::{UnitPlace, begun_with, is_of_picture};
use avc_annexb::Splitter;
use avc_console::MAX_UNIT;
use avc_types::OutOfMemory;
use std::alloc::Global;
use std::marker::Model;

/// Follows a byte stream (Annex B) beside its decoding, and knows where the unit stands that was
/// taken last, and the last slice: a refusal names either the unit that is decoded or, once a
/// picture turns out faulty when it is closed, its last slice. After want of memory it is of no
/// more use.
#[derive(Drop)]
pub struct UnitPlaces {
    splitter: Splitter<MAX_UNIT>,
    begun: u64,
    last: Option<UnitPlace>,
    last_slice: Option<UnitPlace>,
}

impl Model for UnitPlaces {
    ghost use Rattle.avc_shell.specs.UnitPlaces.{Places};

    ghost Value = { Places };

    ghost view = { λ p. record {
      units = p.splitter;
      begun = p.begun;
      last = p.last;
      last_slice = p.last_slice;
    } };
}

impl UnitPlaces {
    /// At the start of a stream.
    pub fn new(alloc: Global) -> UnitPlaces
        ensures { result ≡ new_places }
    {
        UnitPlaces {
            splitter: Splitter::new(alloc),
            begun: 0,
            last: None,
            last_slice: None,
        }
    }

    /// Takes the next bytes of the stream.
    pub fn feed(&mut self, piece: &[u8]) -> Result<(), OutOfMemory>
        ensures { OnOk result (self.new
            ≡ record self.old { units = after_feed self.old.units piece.now }) }
    {
        self.splitter.feed(piece)
    }

    /// Takes the end of the stream.
    pub fn finish(&mut self) -> Result<(), OutOfMemory>
        ensures { OnOk result (self.new ≡ record self.old { units = after_finish self.old.units }) }
    {
        self.splitter.finish()
    }

    /// Takes the units up to the one at this place, as far as their ends have been seen.
    pub fn take_to(&mut self, unit: u64) {
        'units: for _unit in 0..u64::MAX {
            if !self.is_before(unit) || !self.take_next() {
                break;
            }
        }
    }

    /// Takes all units whose end has been seen.
    pub fn take_all(&mut self) {
        'units: for _unit in 0..u64::MAX {
            if !self.take_next() {
                break;
            }
        }
    }

    /// Where the unit of this place among the stream's units stands, if it is the last that was
    /// taken, or the last slice of a picture.
    pub fn find(&self, unit: u64) -> Option<UnitPlace>
        ensures place { result ≡ place_in self.now unit }
        ensures same { IfSome result (λ place. place.unit ≡ unit) }
    {
        match place_at(self.last, unit) {
            Some(place) => Some(place),
            None => place_at(self.last_slice, unit),
        }
    }

    // Whether the unit that was taken last stands before the one at this place.
    fn is_before(&self, unit: u64) -> bool {
        match self.last {
            Some(place) => place.unit < unit,
            None => true,
        }
    }

    // Takes the next unit. Answers whether there was one.
    fn take_next(&mut self) -> bool
        ensures places { self.new ≡ behind self.old (next_unit_of max_unit self.old.units) }
        ensures taken { result ≡ is_some (next_unit_of max_unit self.old.units) }
    {
        match self.splitter.next_unit() {
            Some(unit) => {
                self.begun = begun_with(self.begun, &unit);
                let place = UnitPlace::of(self.begun, &unit);
                self.last = Some(place);
                if is_of_picture(&unit) {
                    self.last_slice = Some(place);
                }
                self.splitter.take_back(unit);
                true
            }
            None => false,
        }
    }
}

// The place, where it is that of this unit.
fn place_at(place: Option<UnitPlace>, unit: u64) -> Option<UnitPlace>
    ensures place { result ≡ place_at place unit }
    ensures same { IfSome result (λ found. found.unit ≡ unit) }
{
    match place {
        Some(place) if place.unit == unit => Some(place),
        _ => None,
    }
}
