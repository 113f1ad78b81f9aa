//! A stream from one of its cut points on.

ghost use Rattle.std.specs.Prelude.{◌≡◌, ◌∷◌, ◌++◌, ◌^◌, ◌<◌, [], ℕ, false, length, IfOk, OnOk};
ghost use Rattle.avc_tools.specs.Streams.{IsDrained, after_more, after_units_left, max_unit};
ghost use Rattle.avc_tools.specs.Streams.{units_left};
ghost use Rattle.avc_tools.specs.Tail.{IsInTail, IsTailFrom, tail_text};

use crate::cutter::{CutPhase, Cutter};
use crate::stream_text::StreamText;
use crate::units::{MAX_UNIT, take_more};
use crate::writing::write_unit;
use avc_annexb::laws::units_stay;
use avc_annexb::{Splitter, Unit};
use avc_types::{OutOfMemory, WantOfMemory};
use std::alloc::Global;
use std::marker::Model;

/// A stream (Annex B) from one of its cut points on, where it comes in pieces itself: the parameter
/// sets in force there and what leads its picture, each behind a start code, and then each unit
/// from it on as soon as that has ended. It keeps the unit that is not over, and before the cut
/// point the parameter sets in force and what leads the next picture. A contract sees the cut
/// point's number, and what came of the stream.
#[derive(Drop)]
pub struct TailText {
    alloc: Global,
    number: u32,
    splitter: Splitter<MAX_UNIT>,
    cutter: Cutter,
    failed: WantOfMemory,
}

impl Model for TailText {
    ghost use Rattle.std.specs.Prelude.{◌≡◌, false};
    ghost use Rattle.avc_tools.specs.PieceSoFar.{PieceSoFar};
    ghost use Rattle.avc_tools.specs.Streams.{max_unit};
    ghost use Rattle.avc_tools.specs.Tail.{IsInTail};

    ghost Value = { PieceSoFar };

    ghost view = { λ t. record {
      number = t.number;
      stream = record { bytes = t.splitter.bytes; ended = t.splitter.ended; failed = t.failed };
    } };

    ghost invariant = { λ t. t.failed ≡ false → IsInTail max_unit t.number t.splitter t.cutter };
}

impl TailText {
    ghost use Rattle.avc_tools.specs.Streams.{new_stream};

    /// At the start of a stream, from the cut point of this number on, counted from 0.
    pub fn new(alloc: Global, number: u32) -> Result<TailText, OutOfMemory>
        ensures { IfOk result (λ text. text ≡ record { number = number; stream = new_stream }) }
    {
        Ok(TailText {
            alloc,
            number,
            splitter: Splitter::new(alloc),
            cutter: Cutter::new(alloc, number)?,
            failed: WantOfMemory::none(),
        })
    }
}

impl StreamText for TailText {
    ghost so_far = { λ t. t.stream };

    ghost number = { λ t. t.number };

    ghost text = { tail_text };

    // it goes on as long as the stream does
    ghost over = { λ _ _ _. false };

    fn feed(&mut self, piece: &[u8]) -> Result<Vec<u8>, OutOfMemory> {
        self.failed.check()?;
        let added = tail_of_more(
            self.alloc,
            &mut self.splitter,
            &mut self.cutter,
            piece,
            false,
        );
        self.failed.keep(added)
    }

    fn finish(&mut self) -> Result<Vec<u8>, OutOfMemory> {
        self.failed.check()?;
        let added = tail_of_more(self.alloc, &mut self.splitter, &mut self.cutter, &[], true);
        self.failed.keep(added)
    }

    fn is_over(&self) -> bool {
        false
    }

    #[tactic(auto, using(crate::proofs::Tails::tail_text_grows))]
    fn text_only_grows(&self) {
        units_stay();
    }
}

// Takes the next bytes of the stream, or its end, and makes what this brings to the tail.
fn tail_of_more(
    alloc: Global,
    splitter: &mut Splitter<MAX_UNIT>,
    cutter: &mut Cutter,
    piece: &[u8],
    ends: bool,
) -> Result<Vec<u8>, OutOfMemory>
    requires { IsDrained max_unit splitter.old }
    ensures taken { OnOk result (splitter.new
        ≡ after_units_left max_unit (after_more splitter.old piece.now ends)) }
    ensures tail { OnOk result ((number : ℕ) → IsInTail max_unit number splitter.old cutter.old →
        IsInTail max_unit number splitter.new cutter.new) }
    ensures added { IfOk result (λ added. (number : ℕ) →
        IsInTail max_unit number splitter.old cutter.old → length splitter.new.bytes < 2 ^ 64
        → tail_text number splitter.new.bytes splitter.new.ended
        ≡ tail_text number splitter.old.bytes splitter.old.ended ++ added.items) }
{
    take_more(splitter, piece, ends)?;
    let added = tail_units_left(alloc, splitter, cutter)?;
    Ok(added)
}

// Takes all units whose end has been seen, and makes what they bring to the tail.
fn tail_units_left(
    alloc: Global,
    splitter: &mut Splitter<MAX_UNIT>,
    cutter: &mut Cutter,
) -> Result<Vec<u8>, OutOfMemory>
    requires { splitter.old.failed ≡ false }
    ensures tail { IfOk result
        (λ added. IsTailFrom cutter.old cutter.new [] added.items
        (units_left max_unit splitter.old)) }
    ensures taken { OnOk result (splitter.new ≡ after_units_left max_unit splitter.old) }
{
    let mut tail = Vec::new(alloc);
    while let Some(unit) = splitter.next_unit() {
        add_unit(alloc, cutter, &unit, &mut tail)?;
    }
    Ok(tail)
}

// Takes the next unit, and adds what it brings to the tail.
fn add_unit(
    alloc: Global,
    cutter: &mut Cutter,
    unit: &Unit,
    tail: &mut Vec<u8>,
) -> Result<(), OutOfMemory>
    ensures { OnOk result
        (IsTailFrom cutter.old cutter.new tail.old.items tail.new.items (unit.now ∷ [])) }
{
    match cutter.phase {
        CutPhase::Waiting => cutter.take_in(alloc, unit, tail),
        CutPhase::Writing | CutPhase::Over => write_unit(tail, unit),
    }
}
