//! The lines of a stream's macroblocks, while the stream comes.

ghost use Rattle.std.specs.Prelude.{◌≡◌, ◌++◌, [], false, IfOk, OnOk, is_some, string_bytes};
ghost use Rattle.avc_units.specs.Grouping.{set_units};
ghost use Rattle.avc_tools.specs.Streams.{after_units_left, max_unit, units_left};
ghost use Rattle.avc_reading.specs.Reading.{AreToldFrom, asked_in};

use crate::position::MacroblockPosition;
use crate::telling::Telling;
use crate::units::add_unit;
use avc_annexb::Splitter;
use avc_annexb::laws::units_stay;
use avc_params::ParamTable;
use avc_selection::{MacroblockForm, Picture, Selection};
use avc_tools::StreamText;
use avc_types::{OutOfMemory, WantOfMemory};
use std::alloc::Global;
use std::marker::Model;

// No unit in memory has more bytes.
const MAX_UNIT: usize = usize::MAX;

/// A line of a form for each macroblock of a stream (Annex B) that comes in pieces, or for some of
/// them, those of a slice once its unit has ended. It keeps the unit that is not over, the
/// parameter sets in force, and of the open picture what the next macroblocks ask for. A contract
/// sees which macroblocks are told, and what came of the stream.
#[derive(Drop)]
pub struct MacroblockLines<F> {
    telling: Telling<F>,
    splitter: Splitter<MAX_UNIT>,
    table: ParamTable,
    kept: Option<Picture>,
    found: Option<MacroblockPosition>,
    failed: WantOfMemory,
}

impl<F> Model for MacroblockLines<F> {
    ghost use Rattle.std.specs.Prelude.{◌≡◌, false, is_some};
    ghost use Rattle.avc_tools.specs.Streams.{max_unit};
    ghost use Rattle.avc_reading.specs.Listing.{ListedSoFar};
    ghost use Rattle.avc_reading.specs.Reading.{AreListed};

    ghost Value = { ListedSoFar };

    ghost view = { λ l. record {
      selection = l.telling.selection;
      stream = record { bytes = l.splitter.bytes; ended = l.splitter.ended; failed = l.failed };
    } };

    ghost invariant = { λ l. l.failed ≡ false →
        AreListed l.telling.selection max_unit l.splitter l.table l.kept (is_some l.found) };
}

impl<F> MacroblockLines<F> {
    ghost use Rattle.std.specs.Prelude.{◌^◌, ◌<◌, is_some, length};
    ghost use Rattle.avc_tools.specs.Streams.{new_stream};
    ghost use Rattle.avc_reading.specs.Listing.{has_met, has_picture};
    ghost use Rattle.avc_reading.specs.Reading.{IsInRange};

    /// At the start of a stream, for these of its macroblocks. Pictures are counted as the first
    /// slices of primary coded pictures come (7.4.1.2.4).
    pub fn new(alloc: Global, form: F, selection: Selection) -> MacroblockLines<F>
        ensures { result ≡ record { selection = selection; stream = new_stream } }
    {
        MacroblockLines {
            telling: Telling {
                alloc,
                form,
                selection,
            },
            splitter: Splitter::new(alloc),
            table: ParamTable::new(alloc),
            kept: None,
            found: None,
            failed: WantOfMemory::none(),
        }
    }

    /// Whether the picture that is asked for has begun, if one is; of a macroblock, whether it has
    /// come.
    pub fn has_begun(&self) -> bool
        ensures range { self.now.stream.failed ≡ false → IsInRange self.now.selection }
        ensures begun { self.now.stream.failed ≡ false → length self.now.stream.bytes < 2 ^ 64
            → result ≡ has_picture self.now.selection self.now.stream.bytes self.now.stream.ended }
    {
        match (&self.kept, self.telling.selection) {
            (_, Selection::Whole) => true,
            (_, Selection::Near(_)) => self.found.is_some(),
            (None, Selection::OfPicture(_)) => false,
            (Some(picture), Selection::OfPicture(_)) => picture.choice.has_come(),
        }
    }

    /// Where the macroblock that is asked for stands, if one is and it has come.
    pub fn position(&self) -> Option<MacroblockPosition>
        ensures range { self.now.stream.failed ≡ false → IsInRange self.now.selection }
        ensures met { self.now.stream.failed ≡ false → length self.now.stream.bytes < 2 ^ 64
            → is_some result
            ≡ has_met self.now.selection self.now.stream.bytes self.now.stream.ended }
    {
        self.found
    }
}

impl<F: MacroblockForm> StreamText for MacroblockLines<F> {
    ghost use Rattle.avc_reading.specs.Asked.{selection_of_text, text_number};
    ghost use Rattle.avc_reading.specs.Listing.{has_met, lines_so_far};
    ghost use Rattle.avc_reading.specs.Reading.{asked_in};

    ghost so_far = { λ l. l.stream };

    ghost number = { λ l. text_number l.selection };

    ghost text = { λ number. lines_so_far (asked_in F.form (selection_of_text number)) };

    // of a macroblock that has come; else a further unit may have lines
    ghost over = { λ number. has_met (selection_of_text number) };

    fn feed(&mut self, piece: &[u8]) -> Result<Vec<u8>, OutOfMemory> {
        units_stay();
        self.failed.check()?;
        self.failed.keep(self.splitter.feed(piece))?;
        let lines = lines_of_units_left(
            &self.telling,
            &mut self.splitter,
            &mut self.table,
            &mut self.kept,
            &mut self.found,
        );
        let lines = self.failed.keep(lines)?;
        Ok(lines.into_bytes())
    }

    fn finish(&mut self) -> Result<Vec<u8>, OutOfMemory> {
        units_stay();
        self.failed.check()?;
        self.failed.keep(self.splitter.finish())?;
        let lines = lines_of_units_left(
            &self.telling,
            &mut self.splitter,
            &mut self.table,
            &mut self.kept,
            &mut self.found,
        );
        let lines = self.failed.keep(lines)?;
        Ok(lines.into_bytes())
    }

    fn is_over(&self) -> bool {
        self.found.is_some()
    }

    fn text_only_grows(&self) {
        units_stay();
    }
}

// Takes all units whose end has been seen, and makes their lines.
fn lines_of_units_left<F: MacroblockForm>(
    telling: &Telling<F>,
    splitter: &mut Splitter<MAX_UNIT>,
    table: &mut ParamTable,
    kept: &mut Option<Picture>,
    found: &mut Option<MacroblockPosition>,
) -> Result<String, OutOfMemory>
    requires { splitter.old.failed ≡ false }
    ensures text { IfOk result
        (λ text. AreToldFrom (asked_in F.form telling.now.selection) table.old kept.old kept.new
        (units_left max_unit splitter.old) (is_some found.old) (is_some found.new) []
        (string_bytes text)) }
    ensures sets { OnOk result (table.new ≡ table.old
        ++ set_units (units_left max_unit splitter.old)) }
    ensures taken { OnOk result (splitter.new ≡ after_units_left max_unit splitter.old) }
{
    let mut text = String::new(telling.alloc);
    while let Some(unit) = splitter.next_unit() {
        add_unit(telling, &mut text, table, kept, found, &unit)?;
    }
    Ok(text)
}
