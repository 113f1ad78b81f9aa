//! One piece of a stream, cut unit by unit.

ghost use Rattle.std.specs.Prelude.{◌≡◌, ◌++◌, ◌∷◌, [], IfOk, OnOk, List};
ghost use Rattle.avc_annexb.specs.Written.{written};
ghost use Rattle.avc_annexb.specs.declared.unit.Unit.{Unit as Piece};
ghost use Rattle.avc_params.specs.Tables.{is_pps, is_sps, pps_record, sps_record};
ghost use Rattle.avc_units.specs.Grouping.{set_unit};
ghost use Rattle.avc_tools.specs.Cutting.{AreReplaced};
ghost use Rattle.avc_tools.specs.Stages.{IsCutOff, IsCutOn, Stage, StandsAt, leading, made, next};
ghost use Rattle.avc_tools.specs.Stages.{waiting};
ghost use Rattle.avc_tools.specs.declared.cutter.CutPhase.TheVariants as phases;

use crate::sets_in_force::SetsInForce;
use crate::writing::{is_left_out, is_slice, leads, write_if, write_kept, write_unit};
use avc_annexb::Unit;
use avc_types::OutOfMemory;
use avc_units::is_start;
use std::alloc::Global;

/// What came of a piece.
#[derive(Clone, Copy)]
pub(crate) enum CutPhase {
    /// It has not begun.
    Waiting,

    /// It has begun.
    Writing,

    /// The next has begun.
    Over,
}

/// Cuts one piece out of a stream, unit by unit. It keeps what the piece may yet need: the
/// parameter sets in force, and the units behind the last slice, each written behind a start code.
#[derive(Drop)]
pub(crate) struct Cutter {
    pub phase: CutPhase,

    /// How many cut points are to be passed over before the piece begins.
    pub left: u32,

    pub sets: SetsInForce,

    /// Before the piece the units that lead the next picture, and in it all behind its last slice.
    pub held: Vec<u8>,

    /// Those of them that stay where the next piece begins.
    pub staying: Vec<u8>,
}

impl Cutter {
    /// Before a stream, for the piece of this number, counted from 0.
    pub(crate) fn new(alloc: Global, number: u32) -> Result<Cutter, OutOfMemory>
        ensures { IfOk result (λ cutter. StandsAt (waiting number []) cutter) }
    {
        Ok(Cutter {
            phase: CutPhase::Waiting,
            left: number,
            sets: SetsInForce::new(alloc)?,
            held: Vec::new(alloc),
            staying: Vec::new(alloc),
        })
    }

    /// Takes the next unit, and adds what it brings to the piece.
    pub(crate) fn take_in(
        &mut self,
        alloc: Global,
        unit: &Unit,
        piece: &mut Vec<u8>,
    ) -> Result<(), OutOfMemory>
        ensures { OnOk result ((s : Stage) → StandsAt s self.old →
            IsCutOn s (next s unit.now) self.new piece.old.items piece.new.items) }
    {
        match self.phase {
            CutPhase::Waiting => self.wait_on(alloc, unit, piece),
            CutPhase::Writing => self.write_on(alloc, unit, piece),
            CutPhase::Over => Ok(()),
        }
    }

    // Takes a unit in while the piece has not begun.
    fn wait_on(
        &mut self,
        alloc: Global,
        unit: &Unit,
        piece: &mut Vec<u8>,
    ) -> Result<(), OutOfMemory>
        requires { self.old.phase ≡ phases.Waiting }
        ensures { OnOk result ((s : Stage) → StandsAt s self.old →
            IsCutOn s (next s unit.now) self.new piece.old.items piece.new.items) }
    {
        if is_start(alloc, unit)? {
            if self.left == 0 {
                self.begin(unit, piece)?;
                return Ok(());
            }
            self.left -= 1;
            self.pass_over(alloc, unit)?;
            return Ok(());
        }
        self.pass_over(alloc, unit)?;
        Ok(())
    }

    // Keeps what the piece may yet need of a unit before it.
    fn pass_over(&mut self, alloc: Global, unit: &Unit) -> Result<(), OutOfMemory>
        ensures phase { self.new.phase ≡ self.old.phase }
        ensures left { self.new.left ≡ self.old.left }
        ensures sps { OnOk result
            (AreReplaced is_sps sps_record (set_unit unit.now) (written unit.now)
            self.old.sets.sps.items self.new.sets.sps.items) }
        ensures pps { OnOk result
            (AreReplaced is_pps pps_record (set_unit unit.now) (written unit.now)
            self.old.sets.pps.items self.new.sets.pps.items) }
        ensures held { OnOk result ((before : List Piece) → self.old.held.items ≡ leading before →
            self.new.held.items ≡ leading (before ++ unit.now ∷ [])) }
    {
        self.sets.take_in(alloc, unit)?;
        hold_leading(&mut self.held, unit)?;
        Ok(())
    }

    // The piece begins with this unit.
    fn begin(&mut self, unit: &Unit, piece: &mut Vec<u8>) -> Result<(), OutOfMemory>
        ensures phase { OnOk result (self.new.phase ≡ phases.Writing) }
        ensures held { OnOk result (self.new.held.items ≡ []) }
        ensures staying { OnOk result (self.new.staying.items ≡ []) }
        ensures piece { OnOk result ((before : List Piece) → StandsAt (waiting 0 before) self.old
            → piece.new.items ≡ piece.old.items ++ made before unit.now []) }
    {
        write_kept(piece, &self.sets.sps)?;
        write_kept(piece, &self.sets.pps)?;
        piece.extend_from_slice(&self.held)?;
        write_unit(piece, unit)?;
        self.held.clear();
        self.staying.clear();
        self.phase = CutPhase::Writing;
        Ok(())
    }

    // Takes a unit in once the piece has begun.
    fn write_on(
        &mut self,
        alloc: Global,
        unit: &Unit,
        piece: &mut Vec<u8>,
    ) -> Result<(), OutOfMemory>
        requires { self.old.phase ≡ phases.Writing }
        ensures { OnOk result ((s : Stage) → StandsAt s self.old →
            IsCutOn s (next s unit.now) self.new piece.old.items piece.new.items) }
    {
        if is_start(alloc, unit)? {
            piece.extend_from_slice(&self.staying)?;
            self.phase = CutPhase::Over;
            return Ok(());
        }
        if is_slice(unit) {
            piece.extend_from_slice(&self.held)?;
            write_unit(piece, unit)?;
            self.held.clear();
            self.staying.clear();
        } else {
            write_unit(&mut self.held, unit)?;
            write_if(&mut self.staying, unit, !is_left_out(unit))?;
        }
        Ok(())
    }

    /// Where the stream ends, adds what was held.
    pub(crate) fn write_held(&self, piece: &mut Vec<u8>, ends: bool) -> Result<(), OutOfMemory>
        ensures { OnOk result ((s : Stage) → StandsAt s self.now →
            IsCutOff s ends piece.old.items piece.new.items) }
    {
        if !ends {
            return Ok(());
        }
        match self.phase {
            CutPhase::Waiting | CutPhase::Over => Ok(()),
            CutPhase::Writing => {
                piece.extend_from_slice(&self.held)?;
                Ok(())
            }
        }
    }
}

// What leads the next picture, once this unit has come.
fn hold_leading(held: &mut Vec<u8>, unit: &Unit) -> Result<(), OutOfMemory>
    ensures { OnOk result ((before : List Piece) → held.old.items ≡ leading before →
        held.new.items ≡ leading (before ++ unit.now ∷ [])) }
{
    if is_slice(unit) {
        held.clear();
        return Ok(());
    }
    write_if(held, unit, leads(unit))?;
    Ok(())
}
