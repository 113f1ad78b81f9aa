//! The search for the sequence parameter set of a stream's first slice.

ghost use Rattle.std.specs.Prelude.{◌≡◌, ◌++◌, ◌∷◌, [], false, true, OnErr, OnOk};
ghost use Rattle.std.specs.Option.{option_map};
ghost use Rattle.avc_params.specs.Tables.{sets_after};
ghost use Rattle.avc_units.specs.Bringing.{brought, sps_under};
ghost use Rattle.avc_units.specs.Grouping.{set_units};
ghost use Rattle.avc_tools.specs.Streams.{after_piece, after_units_left, max_unit, units_left};
ghost use Rattle.avc_sequence.specs.Finding.{first_of, said_after, said_with};
ghost use Rattle.avc_sequence.specs.Sequences.{said_by};

use crate::sequence_facts::SequenceFacts;
use avc_annexb::laws::units_stay;
use avc_annexb::{Splitter, Unit};
use avc_slice::Header;
use avc_types::{OutOfMemory, WantOfMemory};
use avc_units::{Brought, HeaderReader};
use std::alloc::Global;
use std::marker::Model;

// No unit in memory has more bytes.
const MAX_UNIT: usize = usize::MAX;

/// What the sequence parameter set of a stream's first slice says, where the stream (Annex B) comes
/// in pieces. It keeps the unit that is not over and the parameter sets in force. A contract sees
/// what came of the stream.
#[derive(Drop)]
pub struct SequenceFinder {
    splitter: Splitter<MAX_UNIT>,
    reader: HeaderReader,
    said: Option<SequenceFacts>,
    failed: WantOfMemory,
}

impl Model for SequenceFinder {
    ghost use Rattle.std.specs.Prelude.{◌≡◌, false};
    ghost use Rattle.avc_tools.specs.Streams.{StreamSoFar, max_unit};
    ghost use Rattle.avc_sequence.specs.Finding.{AreTaken};

    ghost Value = { StreamSoFar };

    ghost view = { λ s. record {
      bytes = s.splitter.bytes;
      ended = s.splitter.ended;
      failed = s.failed;
    } };

    ghost invariant = { λ s. s.failed ≡ false → AreTaken max_unit s.splitter s.reader s.said };
}

impl SequenceFinder {
    ghost use Rattle.avc_tools.specs.Streams.{new_stream};
    ghost use Rattle.avc_sequence.specs.Finding.{first_sequence};

    /// At the start of a stream.
    pub fn new(alloc: Global) -> SequenceFinder
        ensures { result ≡ new_stream }
    {
        SequenceFinder {
            splitter: Splitter::new(alloc),
            reader: HeaderReader::new(alloc),
            said: None,
            failed: WantOfMemory::none(),
        }
    }

    /// Takes the next bytes of the stream. Once it answers an `Err`, for want of memory, it goes on
    /// to do so.
    pub fn feed(&mut self, piece: &[u8]) -> Result<(), OutOfMemory>
        ensures so_far { OnOk result (self.new ≡ after_piece self.old piece.now) }
        ensures going { OnOk result (self.old.failed ≡ false) }
        ensures err { OnErr result (self.new.failed ≡ true) }
    {
        units_stay();
        self.failed.check()?;
        self.failed.keep(self.splitter.feed(piece))?;
        let noted = note_units_left(&mut self.splitter, &mut self.reader, &mut self.said);
        self.failed.keep(noted)?;
        Ok(())
    }

    /// What the sequence parameter set of the first slice says, once the end of that slice has
    /// come.
    pub fn sequence(&self) -> &Option<SequenceFacts>
        ensures { self.now.failed ≡ false →
            result.now ≡ first_sequence self.now.bytes self.now.ended }
    {
        &self.said
    }
}

// Takes all units whose end has been seen.
fn note_units_left(
    splitter: &mut Splitter<MAX_UNIT>,
    reader: &mut HeaderReader,
    said: &mut Option<SequenceFacts>,
) -> Result<(), OutOfMemory>
    requires { splitter.old.failed ≡ false }
    ensures sets { OnOk result (reader.new ≡ reader.old
        ++ set_units (units_left max_unit splitter.old)) }
    ensures said { OnOk result (said.new
        ≡ said_after reader.old (units_left max_unit splitter.old) said.old) }
    ensures taken { OnOk result (splitter.new ≡ after_units_left max_unit splitter.old) }
{
    while let Some(unit) = splitter.next_unit() {
        note_unit(reader, said, &unit)?;
    }
    Ok(())
}

// Takes the next unit.
fn note_unit(
    reader: &mut HeaderReader,
    said: &mut Option<SequenceFacts>,
    unit: &Unit,
) -> Result<(), OutOfMemory>
    ensures said { OnOk result (said.new
        ≡ said_with (sets_after reader.old) (brought (sets_after reader.old) unit.now)
        said.old) }
    ensures sets { OnOk result (reader.new ≡ reader.old ++ set_units (unit.now ∷ [])) }
{
    match reader.read(unit)? {
        Brought::Slice(header) => {
            note_slice(reader, said, &header);
            Ok(())
        }
        Brought::Nothing | Brought::Set(_) | Brought::Refused(_) => Ok(()),
    }
}

// Takes the slice header that was read last.
fn note_slice(reader: &HeaderReader, said: &mut Option<SequenceFacts>, header: &Header)
    ensures { said.new
        ≡ first_of said.old (option_map said_by (sps_under (sets_after reader.now) header.now)) }
{
    if said.is_none() {
        *said = said_under(reader, header);
    }
}

// What the slice's sequence parameter set says.
fn said_under(reader: &HeaderReader, header: &Header) -> Option<SequenceFacts>
    ensures { result ≡ option_map said_by (sps_under (sets_after reader.now) header.now) }
{
    match reader.sps_under(header) {
        Some(sps) => Some(SequenceFacts::of(sps)),
        None => None,
    }
}
