//! What follows from a stream's clock: its frame rate, its bit rate and how long it lasts.

ghost use Rattle.std.specs.Prelude.{◌≡◌, ◌<◌};
ghost use Rattle.avc_annexb.specs.Units.{saturated};
ghost use Rattle.avc_sequence.specs.Rates.{bit_rate, bit_rate_by, duration, duration_by};
ghost use Rattle.avc_sequence.specs.Rates.{frame_rate};
ghost use Rattle.avc_sequence.specs.Rates.{lowest, rate_by, rate_of, rate_ratio, stands_still};

use avc_params::Timing;
use avc_presentation::{Ratio, lowest_terms};

/// Frames in a second, in lowest terms, where there is a clock.
pub fn rate_ratio(timing: Option<Timing>) -> Option<Ratio>
    ensures { result ≡ rate_ratio timing }
{
    match timing {
        Some(timing) => rate_by(timing),
        None => None,
    }
}

// A frame takes two ticks (E.2.1).
fn rate_by(timing: Timing) -> Option<Ratio>
    ensures { result ≡ rate_by timing }
{
    if timing.num_units_in_tick == 0 {
        return None;
    }
    let numerator = u64::from(timing.time_scale);
    let denominator = 2 * u64::from(timing.num_units_in_tick);
    Some(lowest(numerator, denominator))
}

fn lowest(numerator: u64, denominator: u64) -> Ratio
    requires { 0 < denominator }
    ensures { result ≡ lowest numerator denominator }
{
    lowest_terms(numerator, denominator)
}

/// Frames in a thousand seconds, where it is given, rounded down.
pub fn frame_rate(timing: Option<Timing>) -> Option<u64>
    ensures { result ≡ frame_rate timing }
{
    match timing {
        Some(timing) => rate_of(timing),
        None => None,
    }
}

// A frame takes two ticks (E.2.1).
fn rate_of(timing: Timing) -> Option<u64>
    ensures { result ≡ rate_of timing }
{
    if timing.num_units_in_tick == 0 {
        return None;
    }
    Some(1000 * u64::from(timing.time_scale) / (2 * u64::from(timing.num_units_in_tick)))
}

/// Thousandths of a second that so many pictures take, rounded down, where there is a frame rate.
/// It stays at the greatest number.
pub fn duration(timing: Option<Timing>, pictures: u64) -> Option<u64>
    ensures { result ≡ duration timing pictures }
{
    match timing {
        Some(timing) => duration_by(pictures, timing),
        None => None,
    }
}

fn duration_by(pictures: u64, timing: Timing) -> Option<u64>
    ensures { result ≡ duration_by pictures timing }
{
    if stands_still(timing) {
        return None;
    }
    let units = 2 * u128::from(timing.num_units_in_tick) * u128::from(pictures);
    Some(narrowed(1000 * units / u128::from(timing.time_scale)))
}

/// Bits in a second, rounded down, where so many pictures take so many bytes, and there are a frame
/// rate and pictures. It stays at the greatest number.
pub fn bit_rate(timing: Option<Timing>, bytes: u64, pictures: u64) -> Option<u64>
    ensures { result ≡ bit_rate timing bytes pictures }
{
    match timing {
        Some(timing) => bit_rate_by(bytes, pictures, timing),
        None => None,
    }
}

fn bit_rate_by(bytes: u64, pictures: u64, timing: Timing) -> Option<u64>
    ensures { result ≡ bit_rate_by bytes pictures timing }
{
    if stands_still(timing) || pictures == 0 {
        return None;
    }
    let units = 2 * u128::from(timing.num_units_in_tick) * u128::from(pictures);
    let bits = 8 * u128::from(bytes) * u128::from(timing.time_scale);
    Some(narrowed(bits / units))
}

// Neither number of a clock that goes on is 0.
fn stands_still(timing: Timing) -> bool
    ensures { result ≡ stands_still timing }
{
    timing.num_units_in_tick == 0 || timing.time_scale == 0
}

fn narrowed(number: u128) -> u64
    ensures { result ≡ saturated number }
{
    number.min(u128::from(u64::MAX)) as u64
}
