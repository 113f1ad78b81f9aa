//! A piece of a stream that comes in pieces itself.

ghost use Rattle.std.specs.Prelude.{◌≡◌, ◌++◌, ◌^◌, ◌<◌, ◌||◌, [], ℕ, false, length, IfOk, OnOk};
ghost use Rattle.avc_tools.specs.PieceSoFar.{piece_text};
ghost use Rattle.avc_tools.specs.Stages.{IsCutOn, IsCutting, Stage, StandsAt, stage_after};
ghost use Rattle.avc_tools.specs.Streams.{IsDrained, after_more, after_units_left, max_unit};
ghost use Rattle.avc_tools.specs.Streams.{units_left};

use crate::cutter::{CutPhase, Cutter};
use crate::stream_text::StreamText;
use crate::units::{MAX_UNIT, take_more};
use avc_annexb::Splitter;
use avc_annexb::laws::units_stay;
use avc_types::{OutOfMemory, WantOfMemory};
use std::alloc::Global;
use std::marker::Model;

/// One of the pieces of a stream (Annex B) that comes in pieces itself, each part as soon as it
/// belongs to it whatever follows: its units up to a slice with this slice, and those behind its
/// last slice at its end. It keeps the unit that is not over, those behind the last slice, and the
/// parameter sets in force. A contract sees the piece's number, and what came of the stream.
#[derive(Drop)]
pub struct PieceText {
    alloc: Global,
    number: u32,
    splitter: Splitter<MAX_UNIT>,
    cutter: Cutter,
    ended: bool,
    failed: WantOfMemory,
}

impl Model for PieceText {
    ghost use Rattle.std.specs.Prelude.{◌≡◌, false};
    ghost use Rattle.avc_tools.specs.PieceSoFar.{PieceSoFar};
    ghost use Rattle.avc_tools.specs.Stages.{IsCutting};
    ghost use Rattle.avc_tools.specs.Streams.{max_unit};

    ghost Value = { PieceSoFar };

    ghost view = { λ p. record {
      number = p.number;
      stream = record { bytes = p.splitter.bytes; ended = p.splitter.ended; failed = p.failed };
    } };

    ghost invariant = { λ p. p.failed ≡ false → IsCutting max_unit p.number p.splitter p.ended p.cutter };
}

impl PieceText {
    ghost use Rattle.std.specs.Prelude.{is_some};
    ghost use Rattle.avc_tools.specs.PieceSoFar.{numbered_piece};
    ghost use Rattle.avc_tools.specs.Streams.{new_stream};

    /// At the start of a stream, for the piece of this number, counted from 0.
    pub fn new(alloc: Global, number: u32) -> Result<PieceText, OutOfMemory>
        ensures { IfOk result (λ text. text ≡ record { number = number; stream = new_stream }) }
    {
        Ok(PieceText {
            alloc,
            number,
            splitter: Splitter::new(alloc),
            cutter: Cutter::new(alloc, number)?,
            ended: false,
            failed: WantOfMemory::none(),
        })
    }

    /// Whether there is such a piece in what came of the stream.
    pub fn has_begun(&self) -> bool
        ensures { self.now.stream.failed ≡ false → length self.now.stream.bytes < 2 ^ 64
            → result ≡ is_some
            (numbered_piece self.now.number self.now.stream.bytes self.now.stream.ended) }
    {
        match self.cutter.phase {
            CutPhase::Waiting => false,
            CutPhase::Writing | CutPhase::Over => true,
        }
    }
}

impl StreamText for PieceText {
    ghost use Rattle.avc_tools.specs.PieceSoFar.{is_over};

    ghost so_far = { λ p. p.stream };

    ghost number = { λ p. p.number };

    ghost text = { piece_text };

    ghost over = { is_over };

    fn feed(&mut self, piece: &[u8]) -> Result<Vec<u8>, OutOfMemory> {
        self.failed.check()?;
        let added = piece_of_more(
            self.alloc,
            &mut self.splitter,
            &mut self.cutter,
            self.ended,
            piece,
            false,
        );
        self.failed.keep(added)
    }

    fn finish(&mut self) -> Result<Vec<u8>, OutOfMemory> {
        self.failed.check()?;
        let added = piece_of_more(
            self.alloc,
            &mut self.splitter,
            &mut self.cutter,
            self.ended,
            &[],
            true,
        );
        self.ended = true;
        self.failed.keep(added)
    }

    /// The next piece has begun.
    fn is_over(&self) -> bool {
        match self.cutter.phase {
            CutPhase::Waiting | CutPhase::Writing => false,
            CutPhase::Over => true,
        }
    }

    #[tactic(auto, using(crate::proofs::Taking::piece_text_grows))]
    fn text_only_grows(&self) {
        units_stay();
    }
}

// Takes the next bytes of the stream, or its end, and makes what this brings to the piece: past the
// end nothing.
fn piece_of_more(
    alloc: Global,
    splitter: &mut Splitter<MAX_UNIT>,
    cutter: &mut Cutter,
    ended: bool,
    piece: &[u8],
    ends: bool,
) -> Result<Vec<u8>, OutOfMemory>
    requires drained { IsDrained max_unit splitter.old }
    requires ended { ended ≡ splitter.old.ended }
    ensures taken { OnOk result (splitter.new
        ≡ after_units_left max_unit (after_more splitter.old piece.now ends)) }
    ensures cutting { OnOk result ((number : ℕ) →
        IsCutting max_unit number splitter.old ended cutter.old
        → IsCutting max_unit number splitter.new (ends || ended) cutter.new) }
    ensures added { IfOk result (λ added. (number : ℕ) →
        IsCutting max_unit number splitter.old ended cutter.old →
        length splitter.new.bytes < 2 ^ 64
        → piece_text number splitter.new.bytes splitter.new.ended
        ≡ piece_text number splitter.old.bytes splitter.old.ended ++ added.items) }
{
    if ended {
        return Ok(Vec::new(alloc));
    }
    take_more(splitter, piece, ends)?;
    let mut added = cut_units_left(alloc, splitter, cutter)?;
    cutter.write_held(&mut added, ends)?;
    Ok(added)
}

// Takes all units whose end has been seen, and makes what they bring to the piece.
fn cut_units_left(
    alloc: Global,
    splitter: &mut Splitter<MAX_UNIT>,
    cutter: &mut Cutter,
) -> Result<Vec<u8>, OutOfMemory>
    requires { splitter.old.failed ≡ false }
    ensures piece { IfOk result (λ added. (s : Stage) → StandsAt s cutter.old
        → IsCutOn s (stage_after s (units_left max_unit splitter.old)) cutter.new [] added.items) }
    ensures taken { OnOk result (splitter.new ≡ after_units_left max_unit splitter.old) }
{
    let mut piece = Vec::new(alloc);
    while let Some(unit) = splitter.next_unit() {
        cutter.take_in(alloc, &unit, &mut piece)?;
    }
    Ok(piece)
}
