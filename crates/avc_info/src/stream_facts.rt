//! What the units of a stream say of it, together.

ghost use Rattle.std.specs.Prelude.{◌≡◌};
ghost use Rattle.std.specs.Option.{option_map};
ghost use Rattle.avc_params.specs.Tables.{sets_after};
ghost use Rattle.avc_units.specs.Bringing.{sps_under};
ghost use Rattle.avc_info.specs.Facts.{after_refusal, after_slice, no_facts, with_set};
ghost use Rattle.avc_info.specs.Sizes.{shown_size};
ghost use Rattle.avc_info.specs.Text.{sequence_of};
ghost use Rattle.avc_sequence.specs.Sequences.{said_by};

use crate::refusals::{Refusal, Refusals};
use crate::sizes::Sizes;
use crate::slice_counts::SliceCounts;
use avc_sequence::{SequenceFacts, Size};
use avc_slice::Header;
use avc_tools::{shown_height, shown_width};
use avc_types::Fault;
use avc_units::HeaderReader;

/// What a sequence parameter set begins with (7.3.2.1.1), also one of a profile that is not taken.
#[derive(Clone, Copy)]
pub struct SetHead {
    pub profile_idc: u8,

    /// Ten times the level's number.
    pub level_idc: u8,

    /// Before cropping, where the set can be read so far.
    pub coded: Option<Size>,
}

/// What a stream's parameter sets and slice headers say of it.
#[derive(Drop)]
pub struct StreamFacts {
    /// What the sequence parameter set of the first slice says.
    pub sequence: Option<SequenceFacts>,

    /// What the first sequence parameter set says that is not refused.
    pub first_set: Option<SequenceFacts>,

    /// Of all sequences with a slice.
    pub sizes: Sizes,

    pub counts: SliceCounts,

    /// How many units have a set or header that is refused.
    pub refused: u64,

    /// The first of them.
    pub first_refusal: Option<Refusal>,

    /// All of them, by their kinds.
    pub refusals: Refusals,

    /// What the first sequence parameter set begins with that is refused.
    pub refused_set: Option<SetHead>,
}

impl StreamFacts {
    /// Of no units.
    pub fn new() -> StreamFacts
        ensures { result ≡ no_facts }
    {
        StreamFacts {
            sequence: None,
            first_set: None,
            sizes: Sizes::new(),
            counts: SliceCounts::new(),
            refused: 0,
            first_refusal: None,
            refusals: Refusals::new(),
            refused_set: None,
        }
    }

    /// What the sequence parameter set of the first slice says; of a stream without a slice that is
    /// read, the first set.
    pub fn sequence(&self) -> &Option<SequenceFacts>
        ensures { result.now ≡ sequence_of self.now }
    {
        if self.sequence.is_some() {
            &self.sequence
        } else {
            &self.first_set
        }
    }

    /// Takes the slice header that was read last.
    pub(crate) fn add_slice(&mut self, reader: &HeaderReader, header: Header)
        ensures { self.new ≡ after_slice (sets_after reader.now) header self.old }
    {
        if self.sequence.is_none() {
            self.sequence = said_under(reader, &header);
        }
        self.sizes.add(size_under(reader, &header));
        self.counts.count(header);
    }

    /// Takes a unit that is refused.
    pub(crate) fn add_refusal(&mut self, unit: u64, fault: Fault)
        ensures { self.new ≡ after_refusal unit fault self.old }
    {
        let refusal = Refusal { unit, fault };
        self.refused = self.refused.saturating_add(1);
        if self.first_refusal.is_none() {
            self.first_refusal = Some(refusal);
        }
        self.refusals.add(refusal);
    }

    /// Takes what a sequence parameter set says, or what it begins with where it is refused.
    pub(crate) fn add_set(&mut self, said: Option<SequenceFacts>, refused: Option<SetHead>)
        ensures { self.new ≡ with_set said refused self.old }
    {
        if self.first_set.is_none() {
            self.first_set = said;
        }
        if self.refused_set.is_none() {
            self.refused_set = refused;
        }
    }
}

/// What the slice's sequence parameter set says.
fn said_under(reader: &HeaderReader, header: &Header) -> Option<SequenceFacts>
    ensures { result ≡ option_map said_by (sps_under (sets_after reader.now) header.now) }
{
    match reader.sps_under(header) {
        Some(sps) => Some(SequenceFacts::of(sps)),
        None => None,
    }
}

/// The size after cropping by the slice's sequence parameter set.
fn size_under(reader: &HeaderReader, header: &Header) -> Option<Size>
    ensures { result ≡ option_map shown_size (sps_under (sets_after reader.now) header.now) }
{
    match reader.sps_under(header) {
        Some(sps) => Some(Size {
            width: shown_width(sps),
            height: shown_height(sps),
        }),
        None => None,
    }
}
