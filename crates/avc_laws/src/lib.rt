//! Laws of whole streams, over the definitions alone: calls, early output, and beginning anew.
#![tactic(auto)]

ghost use Rattle.avc_laws.specs.EarlyOutput.{EarlyOutputKeepsPictures};
ghost use Rattle.avc_laws.specs.Headline.{TakesAll, TakesThem};
ghost use Rattle.avc_laws.specs.Laws.{EventsKeepButNumbers, StartsAnew, StartUnitsBeginAnew};

use avc_annexb::laws::{units_are_numbered, units_stay, written_units_stand};
use avc_decoder::laws::events_only_grow;
use avc_decoder_core::laws::early_output_keeps_histories;
use avc_slice::laws::headers_keep_idr_rules;
use avc_units::laws::{
    sets_are_in_force_again, sets_come_alike, sets_in_force_are_few, sets_in_force_are_units,
};

/// However a decoder is called, the n-th event taken since the last reset is the n-th that is
/// defined on the bytes since then, and None says that no further event follows from them. Want of
/// memory alone keeps an event back.
pub fn runs_give_the_events()
    ensures in_order { TakesThem }
    ensures all { TakesAll }
{
    events_only_grow();
}

/// From a unit with which decoding starts, the events are those of a new decoder that is given the
/// units whose parameter sets are in force there and then the bytes from that unit on, but for the
/// unit numbers, which are shifted. Decoding waits before such a unit; or the unit closes the open
/// picture, and that is a fault, of which the events come first. The numbers of the stream's units
/// and the offset of that unit are below the greatest u64, so that none is cut off; then those of
/// the new decoder's units are too.
///
/// It says nothing of the events before that unit, nor of an IDR picture that comes while decoding
/// runs: pictures from before it may still be held there, and a picture may be open.
pub fn resumed_streams_decode_alike()
    ensures { StartsAnew }
{
    units_stay();
    written_units_stand();
    units_are_numbered();
    sets_are_in_force_again();
    sets_in_force_are_units();
    sets_in_force_are_few();
    sets_come_alike();
}

/// But for the numbers that they name, the events do not depend on the numbers of units, nor on how
/// the parameter sets came into force.
pub fn events_keep_but_numbers()
    ensures { EventsKeepButNumbers }
{
    sets_come_alike();
}

/// At a unit with which decoding could start, whose IDR picture lets the pictures before go out,
/// and with no refusal from there on, first comes what the end of the stream would let out there,
/// and then what a new start gives.
pub fn start_units_begin_anew()
    ensures { StartUnitsBeginAnew }
{
    headers_keep_idr_rules();
}

/// Where a stream has ended, early output hands out the pictures of full output in their order, and
/// the refusals in theirs: if no picture has more than max_num_reorder_frames pictures of its
/// sequence that are decoded before it and handed out after it (E.2.1), where its parameter set
/// gives that number, and no IDR picture but the first since decoding started lets pictures be
/// dropped by no_output_of_prior_pics_flag.
///
/// It says nothing of a stream that has not ended, where early output may be further; nor of where
/// a refusal stands among the pictures.
pub fn early_output_keeps_pictures()
    ensures { EarlyOutputKeepsPictures }
{
    headers_keep_idr_rules();
    early_output_keeps_histories();
}
