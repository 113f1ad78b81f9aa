//! Laws of parameter sets that are sent again, over the definitions alone.

ghost use Rattle.avc_units.specs.Laws.{SetsAreInForceAgain, SetsComeAlike, SetsInForceAreFew};
ghost use Rattle.avc_units.specs.Laws.{SetsInForceAreUnits};

use avc_params::laws::{pps_in_force_keeps_limits, sps_in_force_keeps_limits};

/// The units that brought the parameter sets in force bring them into force again, without the
/// other units.
pub fn sets_are_in_force_again()
    ensures { SetsAreInForceAgain }
{
    sps_in_force_keeps_limits();
    pps_in_force_keeps_limits();
}

/// They are units of the stream, none is too long, and each is taken without a fault where decoding
/// waits.
pub fn sets_in_force_are_units()
    ensures { SetsInForceAreUnits }
{}

/// They are no more than the units of the stream.
pub fn sets_in_force_are_few()
    ensures { SetsInForceAreFew }
{}

/// What more units bring into force does not depend on how the sets before came into force.
pub fn sets_come_alike()
    ensures { SetsComeAlike }
{}
