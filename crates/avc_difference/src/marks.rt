//! In which macroblocks two pictures differ.

ghost use Rattle.std.specs.Prelude.{◌≡◌, ◌+◌, ◌<◌, ◌^◌, ℕ, count_by, if◌then◌else◌, length};
ghost use Rattle.std.specs.Prelude.{replicate, slice_index_or};
ghost use Rattle.std.specs.Prelude.{IfOk};
ghost use Rattle.avc_difference.specs.Places.{macroblocks, sample_count};
ghost use Rattle.avc_difference.specs.Differences.{differs, is_marked, mark_after, no_mark};
ghost use Rattle.avc_difference.specs.Differences.{AreMarks};

use crate::place::{Place, Shape, macroblocks, place_of};
use avc_plane::Component;
use avc_types::OutOfMemory;
use std::alloc::Global;

/// Whether something differs in a macroblock: some luma samples, and some chroma samples.
#[derive(Clone, Copy)]
pub struct Mark {
    pub luma: bool,
    pub chroma: bool,
}

/// The mark of each macroblock of two pictures of this shape, by its address.
pub(crate) fn marks_of(
    alloc: Global,
    shape: Shape,
    most: u8,
    ours: &[u8],
    theirs: &[u8],
) -> Result<Vec<Mark>, OutOfMemory>
    requires same { length theirs.now ≡ length ours.now }
    requires whole { length ours.now ≡ sample_count shape }
    ensures all { IfOk result (λ marks. length marks.items ≡ macroblocks shape) }
    ensures marks { IfOk result
        (λ marks. AreMarks shape most ours.now theirs.now (length ours.now) marks.items) }
{
    let none = Mark {
        luma: false,
        chroma: false,
    };
    let mut marks = vec![in alloc; none; macroblocks(shape)]?;
    mark_all(&mut marks, shape, most, ours, theirs);
    Ok(marks)
}

// Marks all macroblocks in which something differs.
fn mark_all(marks: &mut [Mark], shape: Shape, most: u8, ours: &[u8], theirs: &[u8])
    requires same { length theirs.now ≡ length ours.now }
    requires whole { length ours.now ≡ sample_count shape }
    requires none { marks.old ≡ replicate (length marks.old) no_mark }
    ensures { AreMarks shape most ours.now theirs.now (length ours.now) marks.new }
{
    'samples: for place in 0..ours.len() {
        mark_sample(marks, shape, most, ours, theirs, place);
    }
}

// Marks the macroblock of one sample, where it differs.
fn mark_sample(marks: &mut [Mark], shape: Shape, most: u8, ours: &[u8], theirs: &[u8], place: usize)
    requires same { length theirs.now ≡ length ours.now }
    requires whole { length ours.now ≡ sample_count shape }
    requires inside { place < length ours.now }
    ensures { AreMarks shape most ours.now theirs.now place marks.old →
        AreMarks shape most ours.now theirs.now (place + 1) marks.new }
{
    if !differs(most, ours[place], theirs[place]) {
        return;
    }
    mark_place(marks, place_of(shape, place));
}

// Marks the macroblock of a sample.
fn mark_place(marks: &mut [Mark], place: Place)
    ensures length { length marks.new ≡ length marks.old }
    ensures marks { (address : ℕ) → address < length marks.old
        → slice_index_or marks.new address no_mark
        ≡ mark_after place address (slice_index_or marks.old address no_mark) }
{
    if place.address < marks.len() {
        let mark = &mut marks[place.address];
        match place.component {
            Component::Luma => mark.luma = true,
            Component::Cb | Component::Cr => mark.chroma = true,
        }
    }
}

/// Whether two samples are further apart than `most`.
#[inline(always)]
pub(crate) fn differs(most: u8, ours: u8, theirs: u8) -> bool
    ensures { result ≡ differs most ours theirs }
{
    most < ours.max(theirs) - ours.min(theirs)
}

/// In how many macroblocks something differs.
pub(crate) fn marked(marks: &[Mark]) -> usize
    ensures { result ≡ count_by is_marked marks.now }
{
    let mut count = 0;
    'marks: for mark in marks {
        count = one_more(count, is_marked(*mark));
    }
    count
}

// Whether something differs in a macroblock.
fn is_marked(mark: Mark) -> bool
    ensures { result ≡ is_marked mark }
{
    mark.luma || mark.chroma
}

/// One more, where there is one.
pub(crate) fn one_more(count: usize, is_there: bool) -> usize
    requires { count < 2 ^ 63 }
    ensures { result ≡ count + (if is_there then 1 else 0) }
{
    if is_there { count + 1 } else { count }
}
