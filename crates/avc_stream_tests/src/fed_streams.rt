//! What a decoder gives of a stream that it is fed.

use avc_decoder::{DecodeError, Decoder, Event, Output};
use avc_types::Picture;
use std::alloc::{AllocError, Global};

/// Events that were taken: pictures, those of 384 samples of one value among them, and all that are
/// not such pictures.
#[derive(Clone, Copy)]
pub(crate) struct Taken {
    pub pictures: usize,
    pub flat: usize,
    pub others: usize,
}

/// What comes of a stream, up to its end and behind it.
#[derive(Clone, Copy)]
pub(crate) struct Seen {
    /// The samples of flat pictures.
    pub value: u8,

    /// How many events are asked for behind each piece.
    pub takes: u32,

    pub before: Taken,
    pub after: Taken,
}

/// Nothing was taken yet.
pub(crate) fn unseen(value: u8, takes: u32) -> Seen {
    let none = Taken {
        pictures: 0,
        flat: 0,
        others: 0,
    };
    Seen {
        value,
        takes,
        before: none,
        after: none,
    }
}

pub(crate) fn joined(alloc: Global, parts: &[&[u8]]) -> Result<Vec<u8>, AllocError> {
    let mut bytes = Vec::new(alloc);
    for part in parts {
        bytes.extend_from_slice(part)?;
    }
    Ok(bytes)
}

/// Whether a picture has 384 samples, which are all this one.
pub(crate) fn is_flat(picture: &Picture, value: u8) -> bool {
    let mut count = 0usize;
    for component in [&picture.luma, &picture.cb, &picture.cr] {
        for sample in component.as_slice() {
            if *sample != value {
                return false;
            }
            count = count.saturating_add(1);
        }
    }
    count == 384
}

fn add_event(taken: &mut Taken, event: &Event, value: u8) {
    let (is_picture, has_value) = match event {
        Event::Picture(picture) => (true, is_flat(picture, value)),
        _ => (false, false),
    };
    taken.pictures = taken.pictures.saturating_add(usize::from(is_picture));
    taken.flat = taken.flat.saturating_add(usize::from(has_value));
    taken.others = taken.others.saturating_add(usize::from(!has_value));
}

// So many calls.
fn take_events(
    decoder: &mut Decoder<1000>,
    takes: u32,
    value: u8,
    taken: &mut Taken,
) -> Result<(), DecodeError> {
    for _ in 0..takes {
        if let Some(event) = decoder.take()? {
            add_event(taken, &event, value);
        }
    }
    Ok(())
}

/// Feeds a stream in pieces of this size.
pub(crate) fn feed_pieces(
    decoder: &mut Decoder<1000>,
    bytes: &[u8],
    piece: usize,
    seen: &mut Seen,
) -> Result<(), DecodeError> {
    for part in bytes.chunks(piece.max(1)) {
        decoder.feed(part)?;
        take_events(decoder, seen.takes, seen.value, &mut seen.before)?;
    }
    Ok(())
}

/// Ends the stream.
pub(crate) fn finish(decoder: &mut Decoder<1000>, seen: &mut Seen) -> Result<(), DecodeError> {
    decoder.flush()?;
    take_events(decoder, seen.takes, seen.value, &mut seen.after)
}

/// Feeds a stream in pieces of this size, and ends it.
pub(crate) fn feed_stream(
    decoder: &mut Decoder<1000>,
    bytes: &[u8],
    piece: usize,
    seen: &mut Seen,
) -> Result<(), DecodeError> {
    feed_pieces(decoder, bytes, piece, seen)?;
    finish(decoder, seen)
}

/// Feeds a new decoder a stream in pieces of this size, ends it, and says how many macroblocks are
/// counted.
pub(crate) fn decode_stream(
    alloc: Global,
    output: Output,
    bytes: &[u8],
    piece: usize,
    seen: &mut Seen,
) -> Result<u64, DecodeError> {
    let mut decoder = Decoder::<1000>::new(alloc, output);
    match feed_stream(&mut decoder, bytes, piece, seen) {
        Ok(()) => Ok(decoder.turns()),
        Err(error) => Err(error),
    }
}

// Whether it answers that memory was refused, whatever is asked.
fn is_stopped(decoder: &mut Decoder<1000>, bytes: &[u8]) -> bool {
    let answers = [decoder.feed(bytes), decoder.flush()];
    answers == [Err(DecodeError::OutOfMemory); 2] && decoder.take().is_err()
}

// Feeds a stream that wanted memory once more, after a reset, and says so; before that each call
// must answer that memory was refused.
fn feed_anew(
    decoder: &mut Decoder<1000>,
    bytes: &[u8],
    seen: &mut Seen,
) -> Result<bool, DecodeError> {
    if !is_stopped(decoder, bytes) {
        return Ok(false);
    }
    decoder.reset();
    *seen = unseen(seen.value, seen.takes);
    feed_stream(decoder, bytes, 1000, seen)?;
    Ok(true)
}

fn feed_again(
    decoder: &mut Decoder<1000>,
    bytes: &[u8],
    seen: &mut Seen,
) -> Result<bool, DecodeError> {
    match feed_stream(decoder, bytes, 1000, seen) {
        Ok(()) => Ok(true),
        Err(DecodeError::OutOfMemory) => feed_anew(decoder, bytes, seen),
        Err(error) => Err(error),
    }
}

/// What comes of a stream of at most 1000 bytes; where a growth is refused, after a reset, and
/// nothing where a call before that does not answer so.
pub(crate) fn seen_again(alloc: Global, bytes: &[u8], takes: u32) -> Result<Seen, DecodeError> {
    let mut decoder = Decoder::<1000>::new(alloc, Output::Full);
    let mut seen = unseen(128, takes);
    match feed_again(&mut decoder, bytes, &mut seen) {
        Ok(true) => Ok(seen),
        Ok(false) => Ok(unseen(128, takes)),
        Err(error) => Err(error),
    }
}
