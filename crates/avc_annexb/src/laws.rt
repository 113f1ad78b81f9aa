//! Laws of the units of a byte stream (Annex B): as it grows, and as it is written anew.

ghost use Rattle.avc_annexb.specs.Laws.{UnitsStay, WrittenUnitsStand, WrittenUnitsStandAlone};
ghost use Rattle.avc_annexb.specs.Laws.{UnitsAreWithin, LimitsCutUnits, UnitsAreWhole};
ghost use Rattle.avc_annexb.specs.Laws.{UnitsAreNumbered, UnitsAreFew};

/// The units whose end has been seen stay the first units, whatever bytes follow, and whether the
/// stream ends or not.
#[tactic(auto, using(crate::proofs::Written::units_stay_first))]
pub fn units_stay()
    ensures { UnitsStay }
{}

/// A stream that is written of units of a stream, and then goes on with that stream from one of its
/// units, has these units, and then those from that one on. The offset of that one is below the
/// greatest u64.
#[tactic(auto, using(crate::proofs::Written::written_units_stand_so))]
pub fn written_units_stand()
    ensures { WrittenUnitsStand }
{}

/// A stream that is written of units of a stream alone, each whole, has these units, but for the
/// bodies of those that are too long.
pub fn written_units_stand_alone()
    ensures { WrittenUnitsStandAlone }
{}

/// The same bytes have the same units, whatever the most bytes of one are, but for the bodies of
/// longer ones.
#[tactic(auto, using(crate::proofs::Written::units_are_within_so))]
pub fn units_are_within()
    ensures { UnitsAreWithin }
{}

/// Whatever the most bytes of a unit are, units say the same, but for the bodies of longer ones.
#[tactic(auto, using(crate::proofs::Written::limits_cut_units_so))]
pub fn limits_cut_units()
    ensures { LimitsCutUnits }
{}

/// A unit of a stream that has no more bytes than one may have is not too long.
#[tactic(auto, using(crate::proofs::Written::units_are_whole_so))]
pub fn units_are_whole()
    ensures { UnitsAreWhole }
{}

/// The number of a unit is its place among the units.
#[tactic(auto, using(crate::proofs::Written::units_are_numbered_so))]
pub fn units_are_numbered()
    ensures { UnitsAreNumbered }
{}

/// A stream has no more units than bytes.
#[tactic(auto, using(crate::proofs::Written::units_are_few_so))]
pub fn units_are_few()
    ensures { UnitsAreFew }
{}
