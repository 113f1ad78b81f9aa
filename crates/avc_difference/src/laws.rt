//! What the places of samples are. A law takes nothing and does nothing.

ghost use Rattle.avc_difference.specs.Laws.{PlacesNameSamples};

/// The sample at a place of a picture as I420 is that of its component in the coded column and row
/// of the place (6.2, 7.4.2.1.1).
pub fn places_name_samples()
    ensures { PlacesNameSamples }
{}
