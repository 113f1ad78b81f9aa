//! A law of a stream's facts, over the definitions alone.

ghost use Rattle.avc_info.specs.Laws.{SequenceIsFirst};

/// What the facts of a stream say of its sequence is what the search for it finds, however much of
/// the stream has come.
pub fn sequence_is_first()
    ensures { SequenceIsFirst }
{}
