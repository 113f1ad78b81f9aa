//! Where two pictures differ.

ghost use Rattle.std.specs.Prelude.{◌≡◌, length, IfOk, MatchOption};
ghost use Rattle.avc_difference.specs.Places.{sample_count};
ghost use Rattle.avc_difference.specs.Differences.{count_below, differs_at, AreSame, IsDifference};
ghost use Rattle.avc_difference.specs.Differences.{IsFirst};

use crate::marks::{Mark, differs, marked, marks_of, one_more};
use crate::origin::{SamplePair, origin_pairs};
use crate::place::{Place, Shape, place_of};
use avc_types::OutOfMemory;
use std::alloc::Global;

/// What is told of two pictures that differ.
#[derive(Drop)]
pub struct Difference {
    /// Where the first sample stands that differs: luma comes first, then Cb, then Cr, each row by
    /// row.
    pub place: Place,

    /// This sample.
    pub ours: u8,

    /// The other's.
    pub theirs: u8,

    /// How many samples differ.
    pub samples: usize,

    /// How many there are.
    pub all_samples: usize,

    /// In how many macroblocks samples differ.
    pub macroblocks: usize,

    /// Whether some differ in each macroblock, by its address.
    pub marks: Vec<Mark>,

    /// The samples that are shown of the macroblock at which the difference may begin: the first
    /// that differs where no edge of a later macroblock reaches (8.7), or else the first that
    /// differs.
    pub origin: Vec<SamplePair>,
}

/// Compares the samples of two pictures of this shape, both as I420. Those that are at most `most`
/// apart do not differ. Answers None where none differ.
pub fn find_difference(
    alloc: Global,
    shape: Shape,
    most: u8,
    ours: &[u8],
    theirs: &[u8],
) -> Result<Option<Difference>, OutOfMemory>
    requires same { length theirs.now ≡ length ours.now }
    requires whole { length ours.now ≡ sample_count shape }
    ensures { IfOk result (λ found. MatchOption found (AreSame most ours.now theirs.now)
        (λ d. IsDifference shape most ours.now theirs.now d)) }
{
    match first_difference(most, ours, theirs) {
        Some(place) => {
            let marks = marks_of(alloc, shape, most, ours, theirs)?;
            let origin = origin_pairs(alloc, shape, most, ours, theirs)?;
            Ok(Some(Difference {
                place: place_of(shape, place),
                ours: ours[place],
                theirs: theirs[place],
                samples: count_differences(most, ours, theirs),
                all_samples: ours.len(),
                macroblocks: marked(&marks),
                marks,
                origin,
            }))
        }
        None => Ok(None),
    }
}

// The place of the first sample that differs.
fn first_difference(most: u8, ours: &[u8], theirs: &[u8]) -> Option<usize>
    requires { length theirs.now ≡ length ours.now }
    ensures { MatchOption result (AreSame most ours.now theirs.now)
        (λ place. IsFirst most ours.now theirs.now place) }
{
    'samples: for place in 0..ours.len() {
        if differs(most, ours[place], theirs[place]) {
            return Some(place);
        }
    }
    None
}

// How many samples differ.
fn count_differences(most: u8, ours: &[u8], theirs: &[u8]) -> usize
    requires { length theirs.now ≡ length ours.now }
    ensures { result ≡ count_below (length ours.now) (differs_at most ours.now theirs.now) }
{
    let mut count = 0;
    'samples: for place in 0..ours.len() {
        count = one_more(count, differs(most, ours[place], theirs[place]));
    }
    count
}
