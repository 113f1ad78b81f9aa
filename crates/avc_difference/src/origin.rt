//! The macroblock at which the difference of two pictures may begin, and its samples.

ghost use Rattle.std.specs.Prelude.{◌≡◌, ◌+◌, ◌<◌, ◌==◌, ◌&&◌, ◌++◌, ◌∷◌, [], None, Some};
ghost use Rattle.std.specs.Prelude.{if◌then◌else◌, length};
ghost use Rattle.std.specs.Prelude.{IfOk, OnOk};
ghost use Rattle.avc_difference.specs.Differences.{differs_at};
ghost use Rattle.avc_difference.specs.Origin.{address_at, differs_apart, filter_reach, is_apart};
ghost use Rattle.avc_difference.specs.Origin.{least_below, lesser, or_other, origin_address};
ghost use Rattle.avc_difference.specs.Origin.{origin_pairs, pair_at, pairs_below, pairs_of};
ghost use Rattle.avc_difference.specs.Places.{sample_count};

use crate::marks::differs;
use crate::place::{Place, Shape, macroblock_side, place_of};
use avc_plane::Component;
use avc_types::OutOfMemory;
use std::alloc::Global;

/// One sample of two pictures.
#[derive(Clone, Copy)]
pub struct SamplePair {
    pub place: Place,

    /// The sample.
    pub ours: u8,

    /// The other's.
    pub theirs: u8,
}

/// The samples that are shown of the macroblock at which the difference of two pictures may begin,
/// where they differ: the first that differs where no edge of a later macroblock reaches, or else
/// the first that differs.
pub(crate) fn origin_pairs(
    alloc: Global,
    shape: Shape,
    most: u8,
    ours: &[u8],
    theirs: &[u8],
) -> Result<Vec<SamplePair>, OutOfMemory>
    requires same { length theirs.now ≡ length ours.now }
    requires whole { length ours.now ≡ sample_count shape }
    ensures { IfOk result (λ pairs. pairs.items
        ≡ origin_pairs shape (differs_at most ours.now theirs.now) ours.now theirs.now) }
{
    match origin_address(shape, most, ours, theirs) {
        Some(address) => pairs_of(alloc, shape, ours, theirs, address),
        None => Ok(Vec::new(alloc)),
    }
}

// The address of that macroblock.
fn origin_address(shape: Shape, most: u8, ours: &[u8], theirs: &[u8]) -> Option<usize>
    requires same { length theirs.now ≡ length ours.now }
    requires whole { length ours.now ≡ sample_count shape }
    ensures { result
        ≡ origin_address shape (length ours.now) (differs_at most ours.now theirs.now) }
{
    match first_apart(shape, most, ours, theirs) {
        Some(address) => Some(address),
        None => first_differing(shape, most, ours, theirs),
    }
}

// The address of the first macroblock that differs where no edge of a later one reaches.
fn first_apart(shape: Shape, most: u8, ours: &[u8], theirs: &[u8]) -> Option<usize>
    requires same { length theirs.now ≡ length ours.now }
    requires whole { length ours.now ≡ sample_count shape }
    ensures { result
        ≡ least_below (length ours.now) (differs_apart shape (differs_at most ours.now theirs.now))
        (address_at shape) }
{
    let mut least = None;
    'samples: for place in 0..ours.len() {
        let stands = place_of(shape, place);
        let is_there = both(differs(most, ours[place], theirs[place]), is_apart(stands));
        least = lesser(least, is_there, stands.address);
    }
    least
}

// The address of the first macroblock that differs.
fn first_differing(shape: Shape, most: u8, ours: &[u8], theirs: &[u8]) -> Option<usize>
    requires same { length theirs.now ≡ length ours.now }
    requires whole { length ours.now ≡ sample_count shape }
    ensures { result
        ≡ least_below (length ours.now) (differs_at most ours.now theirs.now) (address_at shape) }
{
    let mut least = None;
    'samples: for place in 0..ours.len() {
        let stands = place_of(shape, place);
        let is_there = differs(most, ours[place], theirs[place]);
        least = lesser(least, is_there, stands.address);
    }
    least
}

fn both(a: bool, b: bool) -> bool
    ensures { result ≡ (a && b) }
{
    a && b
}

// The lesser of two addresses, where there are two: the second is there where this says so.
fn lesser(least: Option<usize>, is_there: bool, address: usize) -> Option<usize>
    ensures { result ≡ lesser least (if is_there then Some address else None) }
{
    if !is_there {
        return least;
    }
    match least {
        Some(least) => Some(least.min(address)),
        None => Some(address),
    }
}

// Whether no edge of a later macroblock reaches a sample.
fn is_apart(place: Place) -> bool
    ensures { result ≡ is_apart place }
{
    let size = macroblock_side(place.component);
    let apart = size - filter_reach(place.component);
    place.coded_column % size < apart && place.coded_row % size < apart
}

// How many samples beside an edge its filter changes at most.
fn filter_reach(component: Component) -> usize
    ensures is { result ≡ filter_reach component }
    ensures few { result < 8 }
{
    match component {
        Component::Luma => 3,
        Component::Cb | Component::Cr => 1,
    }
}

// The samples that are shown of a macroblock.
fn pairs_of(
    alloc: Global,
    shape: Shape,
    ours: &[u8],
    theirs: &[u8],
    address: usize,
) -> Result<Vec<SamplePair>, OutOfMemory>
    requires same { length theirs.now ≡ length ours.now }
    requires whole { length ours.now ≡ sample_count shape }
    ensures { IfOk result (λ pairs. pairs.items
        ≡ pairs_of shape ours.now theirs.now (Some address)) }
{
    let mut pairs = Vec::new(alloc);
    'samples: for place in 0..ours.len() {
        add_pair(&mut pairs, shape, ours, theirs, address, place)?;
    }
    Ok(pairs)
}

// Adds the samples at a place, where they are of this macroblock.
fn add_pair(
    pairs: &mut Vec<SamplePair>,
    shape: Shape,
    ours: &[u8],
    theirs: &[u8],
    address: usize,
    place: usize,
) -> Result<(), OutOfMemory>
    requires same { length theirs.now ≡ length ours.now }
    requires whole { length ours.now ≡ sample_count shape }
    requires inside { place < length ours.now }
    ensures { OnOk result (pairs.new.items ≡ pairs.old.items
        ++ (if address_at shape place == address then pair_at shape ours.now theirs.now place ∷ []
        else [])) }
{
    let stands = place_of(shape, place);
    if stands.address == address {
        pairs.push(SamplePair {
            place: stands,
            ours: ours[place],
            theirs: theirs[place],
        })?;
    }
    Ok(())
}
