//! What each unit says of its stream.

ghost use Rattle.std.specs.Prelude.{◌≡◌, ◌++◌, ◌∷◌, [], IfOk, OnOk};
ghost use Rattle.avc_params.specs.Tables.{sets_after};
ghost use Rattle.avc_units.specs.Grouping.{set_units};
ghost use Rattle.avc_info.specs.Noting.{after_brought, after_set, after_unit, refused_head};
ghost use Rattle.avc_info.specs.Noting.{said_in, set_head};

use crate::refused_set::size_in;
use crate::stream_facts::{SetHead, StreamFacts};
use avc_annexb::Unit;
use avc_sequence::SequenceFacts;
use avc_types::OutOfMemory;
use avc_units::{Brought, HeaderReader, ParameterSet, rbsp_of};
use std::alloc::Global;

/// Takes what a unit says.
pub(crate) fn note_unit(
    alloc: Global,
    facts: &mut StreamFacts,
    reader: &mut HeaderReader,
    unit: &Unit,
) -> Result<(), OutOfMemory>
    ensures facts { OnOk result
        (facts.new ≡ after_unit (sets_after reader.old) unit.now facts.old) }
    ensures sets { OnOk result (reader.new ≡ reader.old ++ set_units (unit.now ∷ [])) }
{
    let brought = reader.read(unit)?;
    let said = said_in(&brought);
    let refused = refused_head(alloc, unit, &brought)?;
    note_brought(facts, reader, unit.index, brought);
    facts.add_set(said, refused);
    Ok(())
}

fn note_brought(facts: &mut StreamFacts, reader: &HeaderReader, unit: u64, brought: Brought)
    ensures { facts.new ≡ after_brought (sets_after reader.now) unit brought facts.old }
{
    match brought {
        Brought::Nothing => {}
        Brought::Set(set) => note_set(facts, unit, &set),
        Brought::Slice(header) => facts.add_slice(reader, header),
        Brought::Refused(fault) => facts.add_refusal(unit, fault),
    }
}

fn note_set(facts: &mut StreamFacts, unit: u64, set: &ParameterSet)
    ensures { facts.new ≡ after_set unit set.now facts.old }
{
    match set {
        ParameterSet::OfSequence(Err(refused)) | ParameterSet::OfPicture(Err(refused)) =>
            facts.add_refusal(unit, refused.fault),
        _ => {}
    }
}

// What a sequence parameter set says that is not refused.
fn said_in(brought: &Brought) -> Option<SequenceFacts>
    ensures { result ≡ said_in brought.now }
{
    match brought {
        Brought::Set(ParameterSet::OfSequence(Ok(sps))) => Some(SequenceFacts::of(sps)),
        _ => None,
    }
}

// What a sequence parameter set begins with that is refused.
fn refused_head(
    alloc: Global,
    unit: &Unit,
    brought: &Brought,
) -> Result<Option<SetHead>, OutOfMemory>
    ensures { IfOk result (λ head. head ≡ refused_head unit.now brought.now) }
{
    match brought {
        Brought::Set(ParameterSet::OfSequence(Err(_))) => match rbsp_of(alloc, unit)? {
            Some(rbsp) => Ok(set_head(rbsp.as_slice())),
            None => Ok(None),
        },
        _ => Ok(None),
    }
}

fn set_head(rbsp: &[u8]) -> Option<SetHead>
    ensures { result ≡ set_head rbsp.now }
{
    if rbsp.len() < 3 {
        return None;
    }
    Some(SetHead {
        profile_idc: rbsp[0],
        level_idc: rbsp[2],
        coded: size_in(rbsp),
    })
}
