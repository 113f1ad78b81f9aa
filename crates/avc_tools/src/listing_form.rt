//! Forms in which units, headers and pieces are listed.

ghost use Rattle.std.specs.Prelude.{◌≡◌, ◌++◌, ◌∷◌, [], ℕ, List, OnOk, string_bytes};
ghost use Rattle.avc_annexb.specs.declared.unit.Unit.{Unit};
ghost use Rattle.avc_params.specs.Tables.{Sets, sets_after};
ghost use Rattle.avc_units.specs.Grouping.{set_units};
ghost use Rattle.avc_tools.specs.CutPoints.{cut_point_line};
ghost use Rattle.avc_tools.specs.Lines.{header_line, unit_line};
ghost use Rattle.avc_tools.specs.declared.piece_facts.PieceFacts.{PieceFacts};
ghost use Rattle.avc_tools.specs.declared.unit_facts.UnitFacts.{UnitFacts};

use crate::cut_points::add_cut_point_line;
use crate::headers::add_header_line;
use crate::piece_facts::PieceFacts;
use crate::unit_facts::UnitFacts;
use crate::units::add_unit_line;
use avc_annexb::Unit;
use avc_types::OutOfMemory;
use avc_units::HeaderReader;
use std::alloc::Global;

/// A form in which units, headers and pieces are listed, a line for each.
pub trait ListingForm {
    /// The line of a unit.
    ghost of_unit: { UnitFacts → List ℕ };

    /// The line of a unit that brings a parameter set or a slice, under the parameter sets in force
    /// before it; of any other nothing.
    ghost of_header: { Sets → Unit → List ℕ };

    /// The line of a piece.
    ghost of_piece: { PieceFacts → List ℕ };

    /// Adds the line of a unit.
    fn add_unit(
        &self,
        alloc: Global,
        text: &mut String,
        facts: UnitFacts,
    ) -> Result<(), OutOfMemory>
        ensures { OnOk result (string_bytes text.new ≡ string_bytes text.old ++ of_unit facts) };

    /// Takes the next unit, and adds its line, where it brings a parameter set or a slice.
    fn add_header(
        &self,
        alloc: Global,
        text: &mut String,
        reader: &mut HeaderReader,
        unit: &Unit,
    ) -> Result<(), OutOfMemory>
        ensures text { OnOk result (string_bytes text.new ≡ string_bytes text.old
            ++ of_header (sets_after reader.old) unit.now) }
        ensures sets { OnOk result (reader.new ≡ reader.old ++ set_units (unit.now ∷ [])) };

    /// Adds the line of a piece.
    fn add_piece(
        &self,
        alloc: Global,
        text: &mut String,
        facts: PieceFacts,
    ) -> Result<(), OutOfMemory>
        ensures { OnOk result (string_bytes text.new ≡ string_bytes text.old ++ of_piece facts) };
}

/// Words and numbers in decimal, with spaces between them.
#[derive(Clone, Copy)]
pub struct ForPeople;

impl ListingForm for ForPeople {
    ghost of_unit = { unit_line };

    ghost of_header = { header_line };

    ghost of_piece = { cut_point_line };

    fn add_unit(
        &self,
        _alloc: Global,
        text: &mut String,
        facts: UnitFacts,
    ) -> Result<(), OutOfMemory> {
        add_unit_line(text, facts)
    }

    fn add_header(
        &self,
        _alloc: Global,
        text: &mut String,
        reader: &mut HeaderReader,
        unit: &Unit,
    ) -> Result<(), OutOfMemory> {
        add_header_line(text, reader, unit)
    }

    fn add_piece(
        &self,
        _alloc: Global,
        text: &mut String,
        facts: PieceFacts,
    ) -> Result<(), OutOfMemory> {
        add_cut_point_line(text, facts)
    }
}
