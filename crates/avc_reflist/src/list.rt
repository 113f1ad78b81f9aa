//! RefPicList0, as places of frames.

ghost use Rattle.std.specs.Prelude.{◌≡◌, ◌≤◌, length, slice_get, unwrap_or, None};
ghost use Rattle.avc_reflist.specs.Lists.{entries};

use arrayvec::ArrayVec;
use std::marker::Model;

/// RefPicList0 of a P slice: at most 16 entries, each the place of a frame among the stored frames
/// in decoding order, or empty. A contract sees it as the list of its entries.
#[derive(Drop)]
pub struct ReferenceList {
    places: ArrayVec<usize, 16>,
    count: usize,
}

impl Model for ReferenceList {
    ghost use Rattle.std.specs.Prelude.{ℕ, List, Option, length, ◌≤◌};
    ghost use Rattle.avc_reflist.specs.Lists.{entries};

    ghost Value = { List (Option ℕ) };

    ghost view = { λ l. entries l.count l.places.items };

    ghost invariant = { λ l. length l.places.items ≤ l.count };
}

impl ReferenceList {
    /// The places, and then empty entries.
    pub(crate) fn new(places: ArrayVec<usize, 16>, count: usize) -> ReferenceList
        requires { length places.items ≤ count }
        ensures { result ≡ entries count places.items }
    {
        ReferenceList { places, count }
    }

    /// The entry at a reference index, none where it is empty or past the end.
    pub fn get(&self, index: usize) -> Option<usize>
        ensures { result ≡ unwrap_or (slice_get self.now index) None }
    {
        self.places.as_slice().get(index).copied()
    }
}
