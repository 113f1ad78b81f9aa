//! Where the pieces of a stream begin, and how many pictures each has.

ghost use Rattle.std.specs.Prelude.{◌≡◌, ◌++◌, ◌^◌, ◌<◌, ◌||◌, false, length, IfOk, OnOk};
ghost use Rattle.std.specs.Prelude.{string_bytes};
ghost use Rattle.avc_tools.specs.CutPoints.{AreCounted, counted, counted_all, cut_point_line};
ghost use Rattle.avc_tools.specs.CutPoints.{cut_point_lines, cut_point_lines_so_far};
ghost use Rattle.avc_tools.specs.CutPoints.{line_of_piece, piece_over};
ghost use Rattle.avc_tools.specs.Streams.{after_more, after_units_left, max_unit, units_left};

use crate::listing_form::ListingForm;
use crate::piece_counts::PieceCounts;
use crate::piece_facts::PieceFacts;
use crate::stream_text::StreamText;
use crate::units::{MAX_UNIT, take_more};
use avc_annexb::laws::units_stay;
use avc_annexb::{Splitter, Unit};
use avc_types::{OutOfMemory, WantOfMemory};
use std::alloc::Global;
use std::marker::Model;

/// A line of a form for each piece of a byte stream (Annex B), once the piece is over: the unit has
/// ended with which the next one begins, or the stream. A contract sees what came of the stream.
#[derive(Drop)]
pub struct CutPointLines<F> {
    alloc: Global,
    form: F,
    splitter: Splitter<MAX_UNIT>,
    counts: PieceCounts,
    ended: bool,
    failed: WantOfMemory,
}

impl<F> Model for CutPointLines<F> {
    ghost use Rattle.std.specs.Prelude.{◌≡◌, false};
    ghost use Rattle.avc_tools.specs.CutPoints.{AreCounted};
    ghost use Rattle.avc_tools.specs.Streams.{StreamSoFar, max_unit};

    ghost Value = { StreamSoFar };

    ghost view = { λ l. record {
      bytes = l.splitter.bytes;
      ended = l.splitter.ended;
      failed = l.failed;
    } };

    ghost invariant = { λ l. l.failed ≡ false → AreCounted max_unit l.splitter l.ended l.counts };
}

impl<F> CutPointLines<F> {
    ghost use Rattle.avc_tools.specs.Streams.{new_stream};

    /// At the start of a stream.
    pub fn new(alloc: Global, form: F) -> CutPointLines<F>
        ensures { result ≡ new_stream }
    {
        CutPointLines {
            alloc,
            form,
            splitter: Splitter::new(alloc),
            counts: PieceCounts::new(alloc),
            ended: false,
            failed: WantOfMemory::none(),
        }
    }
}

impl<F: ListingForm> StreamText for CutPointLines<F> {
    ghost so_far = { λ l. l };

    ghost number = { λ _. 0 };

    ghost text = { λ _. cut_point_lines_so_far F.of_piece };

    // the next piece may have a line
    ghost over = { λ _ _ _. false };

    fn feed(&mut self, piece: &[u8]) -> Result<Vec<u8>, OutOfMemory> {
        self.failed.check()?;
        let lines = lines_of_more(
            self.alloc,
            &self.form,
            &mut self.splitter,
            &mut self.counts,
            self.ended,
            piece,
            false,
        );
        self.failed.keep(lines)
    }

    fn finish(&mut self) -> Result<Vec<u8>, OutOfMemory> {
        self.failed.check()?;
        let lines = lines_of_more(
            self.alloc,
            &self.form,
            &mut self.splitter,
            &mut self.counts,
            self.ended,
            &[],
            true,
        );
        self.ended = true;
        self.failed.keep(lines)
    }

    fn is_over(&self) -> bool {
        false
    }

    #[tactic(auto, using(crate::proofs::Taking::cut_point_lines_grow))]
    fn text_only_grows(&self) {
        units_stay();
    }
}

// Takes the next bytes of the stream, or its end, and makes the lines that come of it: past the end
// none.
fn lines_of_more<F: ListingForm>(
    alloc: Global,
    form: &F,
    splitter: &mut Splitter<MAX_UNIT>,
    counts: &mut PieceCounts,
    ended: bool,
    piece: &[u8],
    ends: bool,
) -> Result<Vec<u8>, OutOfMemory>
    requires { AreCounted max_unit splitter.old ended counts.old }
    ensures taken { OnOk result (splitter.new
        ≡ after_units_left max_unit (after_more splitter.old piece.now ends)) }
    ensures counted { OnOk result (AreCounted max_unit splitter.new (ends || ended) counts.new) }
    ensures added { IfOk result (λ added. length splitter.new.bytes < 2 ^ 64 →
        cut_point_lines_so_far F.of_piece splitter.new.bytes splitter.new.ended
        ≡ cut_point_lines_so_far F.of_piece splitter.old.bytes splitter.old.ended ++ added.items) }
{
    if ended {
        return Ok(Vec::new(alloc));
    }
    take_more(splitter, piece, ends)?;
    let mut lines = lines_of_units_left(alloc, form, splitter, counts)?;
    add_line(alloc, form, &mut lines, counts.last(ends))?;
    Ok(lines.into_bytes())
}

// Takes all units whose end has been seen, and makes the lines of the pieces that are over by them.
fn lines_of_units_left<F: ListingForm>(
    alloc: Global,
    form: &F,
    splitter: &mut Splitter<MAX_UNIT>,
    counts: &mut PieceCounts,
) -> Result<String, OutOfMemory>
    requires { splitter.old.failed ≡ false }
    ensures text { IfOk result (λ text. string_bytes text
        ≡ cut_point_lines F.of_piece counts.old (units_left max_unit splitter.old)) }
    ensures counts { OnOk result (counts.new
        ≡ counted_all counts.old (units_left max_unit splitter.old)) }
    ensures taken { OnOk result (splitter.new ≡ after_units_left max_unit splitter.old) }
{
    let mut text = String::new(alloc);
    while let Some(unit) = splitter.next_unit() {
        add_unit(alloc, form, &mut text, counts, &unit)?;
    }
    Ok(text)
}

// Takes the next unit, and makes the line of the piece that is over with it, if one is.
fn add_unit<F: ListingForm>(
    alloc: Global,
    form: &F,
    text: &mut String,
    counts: &mut PieceCounts,
    unit: &Unit,
) -> Result<(), OutOfMemory>
    ensures text { OnOk result (string_bytes text.new ≡ string_bytes text.old
        ++ line_of_piece F.of_piece (piece_over counts.old unit.now)) }
    ensures counts { OnOk result (counts.new ≡ counted counts.old unit.now) }
{
    let over = counts.count(alloc, unit)?;
    add_line(alloc, form, text, over)?;
    Ok(())
}

// Makes the line of a piece, if there is one.
fn add_line<F: ListingForm>(
    alloc: Global,
    form: &F,
    text: &mut String,
    piece: Option<PieceFacts>,
) -> Result<(), OutOfMemory>
    ensures { OnOk result (string_bytes text.new ≡ string_bytes text.old
        ++ line_of_piece F.of_piece piece) }
{
    if let Some(facts) = piece {
        form.add_piece(alloc, text, facts)?;
    }
    Ok(())
}

/// Adds the line of a piece for people.
pub(crate) fn add_cut_point_line(text: &mut String, facts: PieceFacts) -> Result<(), OutOfMemory>
    ensures { OnOk result (string_bytes text.new ≡ string_bytes text.old ++ cut_point_line facts) }
{
    let piece = facts.piece;
    let unit = facts.unit;
    let first_byte = facts.first_byte;
    let pictures = facts.pictures;
    writeln!(text, "{piece} {unit} {first_byte} pictures {pictures}")?;
    Ok(())
}
