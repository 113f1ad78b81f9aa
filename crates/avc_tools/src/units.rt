//! The lines of `units`.

ghost use Rattle.std.specs.Prelude.{◌≡◌, ◌++◌, [], false, true, length, IfOk, OnOk, string_bytes};
ghost use Rattle.std.specs.List.{flat_map};
ghost use Rattle.avc_annexb.specs.Units.{units};
ghost use Rattle.avc_tools.specs.Lines.{line_of_unit, unit_line, unit_lines, unit_lines_so_far};
ghost use Rattle.avc_tools.specs.Streams.{AreLeft, IsDrained, after_more, after_units_left};
ghost use Rattle.avc_tools.specs.Streams.{max_unit, units_left};

use crate::listing_form::{ForPeople, ListingForm};
use crate::stream_text::StreamText;
use crate::unit_facts::UnitFacts;
use avc_annexb::laws::units_stay;
use avc_annexb::{Splitter, Unit};
use avc_types::{OutOfMemory, WantOfMemory};
use std::alloc::Global;
use std::marker::Model;

/// The most bytes of a unit, of those that are kept: no unit in memory has more.
pub(crate) const MAX_UNIT: usize = usize::MAX;

/// A line for each unit of a whole byte stream (Annex B): its place among the units, the place of
/// its first byte, the number of its bytes, nal_unit_type and nal_ref_idc (7.3.1), in decimal, with
/// one space between two numbers.
pub fn list_units(alloc: Global, bytes: &[u8]) -> Result<String, OutOfMemory>
    ensures { IfOk result (λ text. string_bytes text ≡ unit_lines bytes.now) }
{
    let mut splitter = Splitter::<1>::new(alloc);
    splitter.feed(bytes)?;
    splitter.finish()?;
    let text = lines_of_units_left(alloc, &ForPeople, &mut splitter)?;
    Ok(text)
}

/// A line of a form for each unit of a stream that comes in pieces, each once its unit has ended. A
/// contract sees what came of the stream.
#[derive(Drop)]
pub struct UnitLines<F> {
    alloc: Global,
    form: F,
    // no line tells of a unit's body, so none is kept
    splitter: Splitter<1>,
    failed: WantOfMemory,
}

impl<F> Model for UnitLines<F> {
    ghost use Rattle.std.specs.Prelude.{◌≡◌, false};
    ghost use Rattle.avc_tools.specs.Streams.{IsDrained, StreamSoFar};

    ghost Value = { StreamSoFar };

    ghost view = { λ l. record {
      bytes = l.splitter.bytes;
      ended = l.splitter.ended;
      failed = l.failed;
    } };

    ghost invariant = { λ l. l.failed ≡ false → IsDrained 1 l.splitter };
}

impl<F> UnitLines<F> {
    ghost use Rattle.avc_tools.specs.Streams.{new_stream};

    /// At the start of a stream.
    pub fn new(alloc: Global, form: F) -> UnitLines<F>
        ensures { result ≡ new_stream }
    {
        UnitLines {
            alloc,
            form,
            splitter: Splitter::new(alloc),
            failed: WantOfMemory::none(),
        }
    }
}

impl<F: ListingForm> StreamText for UnitLines<F> {
    ghost so_far = { λ l. l };

    ghost number = { λ _. 0 };

    ghost text = { λ _. unit_lines_so_far F.of_unit };

    // a further unit may have a line
    ghost over = { λ _ _ _. false };

    fn feed(&mut self, piece: &[u8]) -> Result<Vec<u8>, OutOfMemory> {
        self.failed.check()?;
        let lines = lines_of_more(self.alloc, &self.form, &mut self.splitter, piece, false);
        self.failed.keep(lines)
    }

    fn finish(&mut self) -> Result<Vec<u8>, OutOfMemory> {
        self.failed.check()?;
        let lines = lines_of_more(self.alloc, &self.form, &mut self.splitter, &[], true);
        self.failed.keep(lines)
    }

    fn is_over(&self) -> bool {
        false
    }

    #[tactic(auto, using(crate::proofs::Taking::unit_lines_grow))]
    fn text_only_grows(&self) {
        units_stay();
    }
}

/// Takes the next bytes of a stream, or its end.
pub(crate) fn take_more<const MAX: usize>(
    splitter: &mut Splitter<MAX>,
    piece: &[u8],
    ends: bool,
) -> Result<(), OutOfMemory>
    requires { IsDrained MAX splitter.old }
    ensures came { OnOk result (splitter.new ≡ after_more splitter.old piece.now ends) }
    ensures left { OnOk result (AreLeft MAX splitter.old splitter.new) }
{
    units_stay();
    if ends {
        splitter.finish()
    } else {
        splitter.feed(piece)
    }
}

// Takes the next bytes of the stream, or its end, and makes the lines that come of it.
fn lines_of_more<F: ListingForm>(
    alloc: Global,
    form: &F,
    splitter: &mut Splitter<1>,
    piece: &[u8],
    ends: bool,
) -> Result<Vec<u8>, OutOfMemory>
    requires { IsDrained 1 splitter.old }
    ensures taken { OnOk result (splitter.new
        ≡ after_units_left 1 (after_more splitter.old piece.now ends)) }
    ensures drained { OnOk result (IsDrained 1 splitter.new) }
    ensures added { IfOk result
        (λ added. unit_lines_so_far F.of_unit splitter.new.bytes splitter.new.ended
        ≡ unit_lines_so_far F.of_unit splitter.old.bytes splitter.old.ended ++ added.items) }
{
    take_more(splitter, piece, ends)?;
    let lines = lines_of_units_left(alloc, form, splitter)?;
    Ok(lines.into_bytes())
}

// Takes all units whose end has been seen, and makes their lines.
fn lines_of_units_left<F: ListingForm>(
    alloc: Global,
    form: &F,
    splitter: &mut Splitter<1>,
) -> Result<String, OutOfMemory>
    requires { splitter.old.failed ≡ false }
    ensures text { IfOk result (λ text. string_bytes text
        ≡ flat_map (line_of_unit F.of_unit) (units_left 1 splitter.old)) }
    ensures taken { OnOk result (splitter.new ≡ after_units_left 1 splitter.old) }
{
    let mut text = String::new(alloc);
    while let Some(unit) = splitter.next_unit() {
        add_line(alloc, form, &mut text, &unit)?;
    }
    Ok(text)
}

fn add_line<F: ListingForm>(
    alloc: Global,
    form: &F,
    text: &mut String,
    unit: &Unit,
) -> Result<(), OutOfMemory>
    ensures { OnOk result (string_bytes text.new ≡ string_bytes text.old
        ++ line_of_unit F.of_unit unit.now) }
{
    form.add_unit(alloc, text, UnitFacts::of(unit))
}

/// Adds the line of a unit for people.
pub(crate) fn add_unit_line(text: &mut String, facts: UnitFacts) -> Result<(), OutOfMemory>
    ensures { OnOk result (string_bytes text.new ≡ string_bytes text.old ++ unit_line facts) }
{
    let unit = facts.unit;
    let first_byte = facts.first_byte;
    let bytes = facts.bytes;
    let unit_type = facts.nal_unit_type;
    let ref_idc = facts.nal_ref_idc;
    writeln!(text, "{unit} {first_byte} {bytes} {unit_type} {ref_idc}")?;
    Ok(())
}

/// All units of a whole byte stream, of which none is too long.
pub(crate) fn all_units(alloc: Global, bytes: &[u8]) -> Result<Vec<Unit>, OutOfMemory>
    ensures { IfOk result (λ all. all.items ≡ units (length bytes.now) bytes.now true) }
{
    let mut parts = Splitter::<MAX_UNIT>::new(alloc);
    parts.feed(bytes)?;
    parts.finish()?;
    let mut all = Vec::new(alloc);
    take_units_left(&mut parts, &mut all)?;
    Ok(all)
}

// Takes all units whose end has been seen.
fn take_units_left(parts: &mut Splitter<MAX_UNIT>, all: &mut Vec<Unit>) -> Result<(), OutOfMemory>
    requires going { parts.old.failed ≡ false }
    requires none { all.old.items ≡ [] }
    ensures { OnOk result (all.new.items ≡ units_left max_unit parts.old) }
{
    while let Some(unit) = parts.next_unit() {
        all.push(unit)?;
    }
    Ok(())
}
