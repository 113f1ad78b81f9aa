//! Laws of parameter sets: their definitions alone.

ghost use Rattle.avc_params.specs.Within.{PpsInForceKeepsLimits, PpsKeepsLimits};
ghost use Rattle.avc_params.specs.Within.{SpsInForceKeepsLimits, SpsKeepsLimits};

/// An accepted sequence parameter set is within its limits.
pub fn sps_keeps_limits()
    ensures { SpsKeepsLimits }
{}

/// An accepted picture parameter set is within its limits.
pub fn pps_keeps_limits()
    ensures { PpsKeepsLimits }
{}

/// A sequence parameter set in force is within its limits, and has the id under which it is in
/// force.
pub fn sps_in_force_keeps_limits()
    ensures { SpsInForceKeepsLimits }
{}

/// A picture parameter set in force is within its limits, and has the id under which it is in
/// force.
pub fn pps_in_force_keeps_limits()
    ensures { PpsInForceKeepsLimits }
{}
