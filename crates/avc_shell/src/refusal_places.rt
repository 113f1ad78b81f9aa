//! Where refused units stand, told as decoding goes on.

ghost use Rattle.std.specs.Prelude.{◌≡◌, false, if◌then◌else◌, is_some, None, Some};
ghost use Rattle.avc_shell.specs.UnitPlaces.{new_places, places_with_bytes, places_with_end};
ghost use Rattle.avc_shell.specs.UnitPlaces.{FollowsOn};

use crate::place_line::place_text;
use crate::told::tell;
use crate::unit_places::UnitPlaces;
use avc_types::{Fault, WantOfMemory};

/// Tells behind what a refusal means where its unit stands: the byte, the coded picture, and where
/// its profile or level is refused, which it is.
#[derive(Drop)]
pub struct RefusalPlaces<'a> {
    rt: &'a HostRuntime,
    // none where they are not told, and once memory was wanting
    places: Option<UnitPlaces>,
    failed: WantOfMemory,
}

impl RefusalPlaces<'_> {
    /// Of a stream of which nothing was read.
    pub fn new(rt: &HostRuntime, are_told: bool) -> RefusalPlaces<'_>
        ensures places { result.places ≡ (if are_told then Some new_places else None) }
        ensures failed { result.failed ≡ false }
    {
        let places = if are_told {
            Some(UnitPlaces::new(rt.alloc()))
        } else {
            None
        };
        RefusalPlaces {
            rt,
            places,
            failed: WantOfMemory::none(),
        }
    }

    /// The next bytes of the stream.
    pub fn note_bytes(&mut self, piece: &[u8])
        ensures { self.new.failed ≡ false →
            FollowsOn (places_with_bytes piece.now) self.old.places self.new.places }
    {
        if let Some(places) = &mut self.places {
            if self.failed.keep(places.feed(piece)).is_err() {
                self.places = None;
            }
        }
    }

    /// The end of the stream.
    pub fn note_end(&mut self)
        ensures { self.new.failed ≡ false →
            FollowsOn places_with_end self.old.places self.new.places }
    {
        if let Some(places) = &mut self.places {
            if self.failed.keep(places.finish()).is_err() {
                self.places = None;
            }
        }
    }

    /// A refusal, behind which it is told where its unit stands, if that is known.
    pub fn note_refusal(&mut self, unit: u64, fault: Fault)
        ensures { is_some self.new.places ≡ is_some self.old.places }
    {
        if let Some(places) = &mut self.places {
            places.take_to(unit);
            if let Ok(text) = place_text(self.rt.alloc(), places.find(unit), fault) {
                tell(self.rt, &text);
            }
        }
    }

    /// All refusals by the bytes so far were noted.
    pub fn note_units(&mut self)
        ensures { is_some self.new.places ≡ is_some self.old.places }
    {
        if let Some(places) = &mut self.places {
            places.take_all();
        }
    }
}
