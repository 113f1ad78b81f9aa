//! The search for a stream's frame rate.

ghost use Rattle.std.specs.Prelude.{◌≡◌, ◌⊎◌, ◌++◌, [], length, None, Some, false};
ghost use Rattle.avc_progress.specs.Rates.{given_up, looked, new_search, rate_of, IsGoingOn, Looks};

use avc_sequence::{SequenceFacts, SequenceFinder, frame_rate};
use avc_types::WantOfMemory;
use std::alloc::Global;
use std::marker::Model;

/// How many bytes of a stream are looked at: what has no slice in so many is looked at no further.
const MOST: usize = 1_048_576;

/// Finds a stream's frame rate at its beginning: that of the sequence parameter set of its first
/// slice, where it says one. A contract sees the bytes that have come, as long as it searches, what
/// was found, and whether memory was wanting.
#[derive(Drop)]
pub struct RateSearch {
    // until the search is over
    finder: Option<SequenceFinder>,
    seen: usize,
    found: Option<u64>,
    failed: WantOfMemory,
}

impl Model for RateSearch {
    ghost use Rattle.avc_progress.specs.Rates.{bytes_of, IsSearching, Search};

    ghost Value = { Search };

    ghost view = { λ r. record {
      searched = bytes_of r.finder;
      found = r.found;
      failed = r.failed;
    } };

    ghost invariant = { λ r. IsSearching r.finder r.seen };
}

impl RateSearch {
    /// At the start of a stream.
    pub fn new(alloc: Global) -> RateSearch
        ensures { result ≡ new_search }
    {
        RateSearch {
            finder: Some(SequenceFinder::new(alloc)),
            seen: 0,
            found: None,
            failed: WantOfMemory::none(),
        }
    }

    /// Takes the next bytes of the stream. Where memory is wanting the search is over.
    pub fn look(&mut self, piece: &[u8])
        ensures { Looks self.old.searched piece.now self.old self.new }
    {
        if let Some(finder) = self.finder.take() {
            *self = searched(finder, self.seen, piece, self.found);
        }
    }

    /// Frames in a thousand seconds, once they are known.
    pub fn found(&self) -> Option<u64>
        ensures { result ≡ self.now.found }
    {
        self.found
    }
}

// The search after further bytes.
fn searched(finder: SequenceFinder, seen: usize, piece: &[u8], found: Option<u64>) -> RateSearch
    requires { IsGoingOn finder seen }
    ensures { (result ≡ looked (finder.bytes ++ piece.now)) ⊎ (result ≡ given_up found) }
{
    let seen = seen + piece.len();
    let mut finder = finder;
    let mut failed = WantOfMemory::none();
    match failed.keep(finder.feed(piece)) {
        Ok(_) => after(finder, seen),
        Err(_) => RateSearch {
            finder: None,
            seen,
            found,
            failed,
        },
    }
}

// The search after these bytes, of which there are so many.
fn after(finder: SequenceFinder, seen: usize) -> RateSearch
    requires going { finder.failed ≡ false }
    requires open_end { finder.ended ≡ false }
    requires seen_is { seen ≡ length finder.bytes }
    ensures { result ≡ looked finder.bytes }
{
    let found = rate_of(finder.sequence());
    if finder.sequence().is_some() || seen >= MOST {
        return RateSearch {
            finder: None,
            seen,
            found,
            failed: WantOfMemory::none(),
        };
    }
    RateSearch {
        finder: Some(finder),
        seen,
        found,
        failed: WantOfMemory::none(),
    }
}

// The frame rate that a set says.
fn rate_of(sequence: &Option<SequenceFacts>) -> Option<u64>
    ensures { result ≡ rate_of sequence.now }
{
    match sequence {
        Some(sequence) => frame_rate(sequence.timing),
        None => None,
    }
}
