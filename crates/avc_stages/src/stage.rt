//! What the samples of a macroblock say of the stage at which two decoders part.

ghost use Rattle.std.specs.Prelude.{◌≡◌};
ghost use Rattle.avc_stages.specs.Stages.{counts_of, stage_of};

use crate::traced::TracedSample;

/// The stages of decoding that are told apart (clause 8).
#[derive(Clone, Copy)]
pub enum Stage {
    /// All of the other's samples are ours before deblocking: its filter changes none of them.
    Unfiltered,

    /// A sample that differs is one that deblocking leaves as it is in ours.
    BeforeDeblocking,

    /// All samples that differ are ones that deblocking changes in ours.
    Deblocking,
}

/// How many samples of a macroblock are of some kind.
#[derive(Clone, Copy)]
pub struct Counts {
    /// All that are shown.
    pub shown: usize,

    /// Those that differ.
    pub differing: usize,

    /// Those of which the other's is ours before deblocking.
    pub unfiltered: usize,

    /// Those that differ, and that deblocking leaves as they are in ours.
    pub unchanged: usize,
}

/// Counts the samples of a macroblock.
pub fn counts_of(samples: &[TracedSample]) -> Counts
    ensures { result ≡ counts_of samples.now }
{
    Counts {
        shown: samples.len(),
        differing: differing(samples),
        unfiltered: unfiltered(samples),
        unchanged: unchanged(samples),
    }
}

// How many differ.
fn differing(samples: &[TracedSample]) -> usize
    ensures { result ≡ (counts_of samples.now).differing }
{
    samples.iter().filter(|s| s.ours != s.theirs).count()
}

// How many of the other's are ours before deblocking.
fn unfiltered(samples: &[TracedSample]) -> usize
    ensures { result ≡ (counts_of samples.now).unfiltered }
{
    samples.iter().filter(|s| s.theirs == s.before).count()
}

// How many differ and are left as they are.
fn unchanged(samples: &[TracedSample]) -> usize
    ensures { result ≡ (counts_of samples.now).unchanged }
{
    samples
        .iter()
        .filter(|s| s.ours != s.theirs && s.ours == s.before)
        .count()
}

/// The stage at which a macroblock differs that has so many of such samples.
pub fn stage_of(counts: Counts) -> Stage
    ensures { result ≡ stage_of counts }
{
    if counts.unfiltered == counts.shown {
        Stage::Unfiltered
    } else if counts.unchanged > 0 {
        Stage::BeforeDeblocking
    } else {
        Stage::Deblocking
    }
}
