//! A stream's facts, while the stream comes.

ghost use Rattle.std.specs.Prelude.{◌≡◌, ◌++◌, false, OnOk};
ghost use Rattle.avc_units.specs.Grouping.{set_units};
ghost use Rattle.avc_tools.specs.Streams.{after_units_left, max_unit, units_left};
ghost use Rattle.avc_info.specs.Noting.{facts_after};

use crate::form::InfoForm;
use crate::noting::note_unit;
use crate::stream_facts::StreamFacts;
use avc_annexb::Splitter;
use avc_annexb::laws::units_stay;
use avc_sequence::SequenceFacts;
use avc_tools::StreamText;
use avc_types::{OutOfMemory, WantOfMemory};
use avc_units::HeaderReader;
use std::alloc::Global;
use std::marker::Model;

// No unit in memory has more bytes.
const MAX_UNIT: usize = usize::MAX;

/// The facts of a stream (Annex B) that comes in pieces, told in a form at its end. It keeps the
/// unit that is not over and the parameter sets in force. A contract sees what came of the stream.
#[derive(Drop)]
pub struct InfoLines<F> {
    alloc: Global,
    form: F,
    splitter: Splitter<MAX_UNIT>,
    reader: HeaderReader,
    facts: StreamFacts,
    bytes: u64,
    ended: bool,
    failed: WantOfMemory,
}

impl<F> Model for InfoLines<F> {
    ghost use Rattle.std.specs.Prelude.{◌≡◌, false};
    ghost use Rattle.avc_tools.specs.Streams.{StreamSoFar, max_unit};
    ghost use Rattle.avc_info.specs.Info.{AreNoted};

    ghost Value = { StreamSoFar };

    ghost view = { λ l.
        record { bytes = l.splitter.bytes; ended = l.splitter.ended; failed = l.failed } };

    ghost invariant = { λ l. l.failed ≡ false
        → AreNoted max_unit l.splitter l.ended l.reader l.facts l.bytes };
}

impl<F> InfoLines<F> {
    ghost use Rattle.avc_tools.specs.Streams.{new_stream};
    ghost use Rattle.avc_info.specs.Info.{facts_so_far};

    /// At the start of a stream.
    pub fn new(alloc: Global, form: F) -> InfoLines<F>
        ensures { result ≡ new_stream }
    {
        InfoLines {
            alloc,
            form,
            splitter: Splitter::new(alloc),
            reader: HeaderReader::new(alloc),
            facts: StreamFacts::new(),
            bytes: 0,
            ended: false,
            failed: WantOfMemory::none(),
        }
    }

    /// What the sequence parameter set of the first slice says, once the end of that slice has
    /// come.
    pub fn sequence(&self) -> &Option<SequenceFacts>
        ensures { self.now.failed ≡ false
            → result.now ≡ (facts_so_far self.now.bytes self.now.ended).sequence }
    {
        &self.facts.sequence
    }
}

impl<F: InfoForm> StreamText for InfoLines<F> {
    ghost use Rattle.avc_info.specs.Info.{info_so_far};

    ghost so_far = { λ l. l };

    ghost number = { λ _. 0 };

    ghost text = { λ _. info_so_far F.text };

    // it is written at the end
    ghost over = { λ _ _ _. false };

    fn feed(&mut self, piece: &[u8]) -> Result<Vec<u8>, OutOfMemory> {
        units_stay();
        self.failed.check()?;
        if self.ended {
            return Ok(Vec::new(self.alloc));
        }
        self.failed.keep(self.splitter.feed(piece))?;
        let noted = note_units_left(
            self.alloc,
            &mut self.splitter,
            &mut self.reader,
            &mut self.facts,
        );
        self.failed.keep(noted)?;
        self.bytes = self.bytes.saturating_add(piece.len() as u64);
        Ok(Vec::new(self.alloc))
    }

    fn finish(&mut self) -> Result<Vec<u8>, OutOfMemory> {
        units_stay();
        self.failed.check()?;
        if self.ended {
            return Ok(Vec::new(self.alloc));
        }
        self.failed.keep(self.splitter.finish())?;
        let noted = note_units_left(
            self.alloc,
            &mut self.splitter,
            &mut self.reader,
            &mut self.facts,
        );
        self.failed.keep(noted)?;
        let text = self
            .failed
            .keep(self.form.tell(self.alloc, &self.facts, self.bytes))?;
        self.ended = true;
        Ok(text.into_bytes())
    }

    fn is_over(&self) -> bool {
        false
    }

    fn text_only_grows(&self) {}
}

// Takes all units whose end has been seen, and what they say.
fn note_units_left(
    alloc: Global,
    splitter: &mut Splitter<MAX_UNIT>,
    reader: &mut HeaderReader,
    facts: &mut StreamFacts,
) -> Result<(), OutOfMemory>
    requires { splitter.old.failed ≡ false }
    ensures sets { OnOk result
        (reader.new ≡ reader.old ++ set_units (units_left max_unit splitter.old)) }
    ensures facts { OnOk result
        (facts.new ≡ facts_after reader.old (units_left max_unit splitter.old) facts.old) }
    ensures taken { OnOk result (splitter.new ≡ after_units_left max_unit splitter.old) }
{
    while let Some(unit) = splitter.next_unit() {
        note_unit(alloc, facts, reader, &unit)?;
    }
    Ok(())
}
