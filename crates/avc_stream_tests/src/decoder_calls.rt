//! Tests of the decoder's calls: before, at and behind the end of a stream.

// What no contract says of the decoder's calls: that memory is found where there is some, and where
// a fault comes from. What whole streams come to, and each status and line, stands in vectors/.
// Where an allocation is refused (`rt try --test --fail-alloc N`), a test ends in that error, and
// not at an assertion.
use crate::fed_streams::{Seen, decode_stream, feed_pieces, finish, joined, seen_again, unseen};
use crate::limited_writer::{LimitedWriter, Refusal};
use avc_decoder::{DecodeError, Decoder, Output};
use avc_run::{RunFault, run};
use std::alloc::Global;
use std::test::Fail;

// A sequence parameter set of a 16x16 picture.
const SMALL: &[u8] = &[0, 0, 0, 1, 0x67, 0x42, 0xC0, 0x0A, 0xDA, 0x71];

// Of a 32x16 picture.
const WIDE: &[u8] = &[0, 0, 0, 1, 0x67, 0x42, 0xC0, 0x0A, 0xDA, 0x2C, 0x40];

// A picture parameter set.
const PLAIN: &[u8] = &[0, 0, 0, 1, 0x68, 0xCE, 0x38, 0x80];

// A picture of one macroblock, and the same with idr_pic_id 1.
const PLAIN_IDR: &[u8] = &[0, 0, 1, 0x65, 0x88, 0x84, 0x93, 0xC0];

const NEXT_IDR: &[u8] = &[0, 0, 1, 0x65, 0x88, 0x82, 0x24, 0xF0];

// Up to its 384 samples: a picture of one I_PCM macroblock.
const FIRST: &[u8] = &[0, 0, 1, 0x65, 0x88, 0x84, 0x86, 0x80];

// 384 samples of 128, and the byte that ends a slice.
const GREY: &[u8] = &[0x80; 385];

// An access unit delimiter, and the next start code, by which its end is seen.
const DELIMITER: &[u8] = &[0, 0, 1, 9, 0, 0, 1];

// What ended a run on a writer of so much room, where it is not want of memory, and how much room
// is left.
fn run_into(
    alloc: Global,
    bytes: &[u8],
    room: usize,
    piece: usize,
    refusal: Refusal,
) -> Result<(Option<RunFault>, usize), RunFault> {
    let mut writer = LimitedWriter {
        piece,
        room,
        refusal,
        grey: 0,
        calls: 0,
    };
    let mut reader = bytes;
    match run(alloc, Output::Full, &mut reader, &mut writer) {
        Ok(_) => Ok((None, writer.room)),
        Err(RunFault::Memory) => Err(RunFault::Memory),
        Err(fault) => Ok((Some(fault), writer.room)),
    }
}

// The least room, up to that of the picture, that is not filled before a write fails.
fn first_unfilled(
    alloc: Global,
    bytes: &[u8],
    piece: usize,
    refusal: Refusal,
) -> Result<usize, RunFault> {
    for room in 0..384usize {
        if run_into(alloc, bytes, room, piece, refusal)? != (Some(RunFault::Write), 0) {
            return Ok(room);
        }
    }
    Ok(384)
}

#[test]
fn ends_where_a_write_fails(rt: HostRuntime) -> Result<(), Fail> {
    let alloc = rt.alloc();
    let bytes = joined(alloc, &[SMALL, PLAIN, FIRST, GREY])?;
    for (piece, refusal) in [(1, Refusal::Error), (65_536, Refusal::Zero)] {
        let unfilled = first_unfilled(alloc, &bytes, piece, refusal)?;
        let ended = run_into(alloc, &bytes, 384, piece, refusal)?;
        assert_eq!(rt; (unfilled, ended), (384, (None, 0)));
    }
    Ok(())
}

// Whether nothing comes from a decoder that has ended, and it takes nothing.
fn is_over(decoder: &mut Decoder<1000>) -> Result<bool, DecodeError> {
    let has_event = decoder.take()?.is_some();
    let answers = [decoder.feed(SMALL), decoder.flush()];
    Ok(!has_event && answers == [Err(DecodeError::Ended); 2])
}

fn stays_over(decoder: &mut Decoder<1000>) -> Result<bool, DecodeError> {
    decoder.flush()?;
    let once = is_over(decoder)?;
    let again = is_over(decoder)?;
    Ok(once && again)
}

fn stays_over_from_a_flush(alloc: Global) -> Result<bool, DecodeError> {
    let mut decoder = Decoder::<1000>::new(alloc, Output::Full);
    stays_over(&mut decoder)
}

// Nothing is fed after a flush, and nothing more comes.
#[test]
fn stays_ended(rt: HostRuntime) -> Result<(), Fail> {
    assert!(rt; stays_over_from_a_flush(rt.alloc())?);
    let numbers = (
        DecodeError::OutOfMemory.number(),
        DecodeError::Ended.number(),
    );
    assert_eq!(rt; numbers, (1, 2));
    Ok(())
}

// A sequence parameter set by which no picture goes out after one that is decoded later.
const NO_REORDERING: &[u8] = &[
    0, 0, 0, 1, 0x67, 0x42, 0xC0, 0x0A, 0xDA, 0x72, 0x01, 0xFD, 0x40,
];

// With order counts of type 0, and no such number; and three pictures.
const ORDER_TYPE_0: &[u8] = &[0, 0, 0, 1, 0x67, 0x42, 0xC0, 0x0A, 0xF4, 0xE2];

const THREE_PICTURES: &[u8] = &[
    0, 0, 1, 0x65, 0x88, 0x84, 0x09, 0x3C, 0, 0, 1, 0x41, 0x88, 0x8A, 0x24, 0xD6, 0, 0, 1, 1, 0x88,
    0x91, 0x49, 0xE0,
];

// How many pictures a stream gives before its end, and after it.
fn pictures_by(alloc: Global, output: Output, bytes: &[u8]) -> Result<(usize, usize), DecodeError> {
    let mut seen = unseen(128, 10);
    decode_stream(alloc, output, bytes, 1000, &mut seen)?;
    Ok((seen.before.pictures, seen.after.pictures))
}

// How many pictures these parts give before the end of the stream, and after it: with full output,
// and with early output.
fn pictures_by_both(alloc: Global, parts: &[&[u8]]) -> Result<[(usize, usize); 2], Fail> {
    let bytes = joined(alloc, parts)?;
    let full = pictures_by(alloc, Output::Full, &bytes)?;
    let early = pictures_by(alloc, Output::Early, &bytes)?;
    Ok([full, early])
}

#[test]
fn early_pictures_do_not_wait(rt: HostRuntime) -> Result<(), Fail> {
    let alloc = rt.alloc();
    let one = pictures_by_both(alloc, &[NO_REORDERING, PLAIN, PLAIN_IDR, DELIMITER])?;
    assert_eq!(rt; one, [(0, 1), (1, 0)]);
    let [full, early] = pictures_by_both(alloc, &[ORDER_TYPE_0, PLAIN, THREE_PICTURES])?;
    assert_eq!(rt; (full.0.saturating_add(full.1), early), (3, full));
    Ok(())
}

// A sequence parameter set by which frame numbers may be missing, and a P picture before which
// numbers are missing, and which is predicted from one of these.
const GAPS_ALLOWED: &[u8] = &[0, 0, 0, 1, 0x67, 0x42, 0xC0, 0x0A, 0xDA, 0xF1];

const AFTER_GAP: &[u8] = &[0, 0, 1, 0x41, 0x9A, 0x42, 0xA0];

// An IDR picture and two P pictures, with long-term frames, of which one loses its mark by its own
// operations.
const LONG_TERM: &[u8] = &[
    0, 0, 1, 0x67, 0x42, 0xC0, 0x0A, 0xED, 0x3D, 0, 0xF0, 0x88, 0x46, 0xA0, 0, 0, 1, 0x68, 0xCE,
    0x38, 0x80, 0, 0, 1, 0x25, 0xB8, 0x40, 0x24, 0xC5, 0, 2, 0x58, 0, 0, 1, 0x21, 0xB8, 0xA1, 0x2A,
    0x3D, 0xF2, 0x62, 0x80, 0, 0x80, 0x36, 0, 0, 1, 1, 0xB9, 0x11, 0x26, 0x28, 0, 8, 0x0D, 0x60,
];

// How many pictures these parts give; where an allocation is refused, after a reset, and none where
// it has gone on without one.
fn pictures_in(alloc: Global, parts: &[&[u8]]) -> Result<usize, Fail> {
    let bytes = joined(alloc, parts)?;
    let seen = seen_again(alloc, &bytes, 10)?;
    Ok(seen.before.pictures.saturating_add(seen.after.pictures))
}

#[test]
fn decodes_again_after_want_of_memory(rt: HostRuntime) -> Result<(), Fail> {
    let alloc = rt.alloc();
    let idr = pictures_in(alloc, &[SMALL, PLAIN, FIRST, GREY])?;
    let gap = pictures_in(
        alloc,
        &[GAPS_ALLOWED, PLAIN, PLAIN_IDR, AFTER_GAP, NEXT_IDR],
    )?;
    let long_term = pictures_in(alloc, &[LONG_TERM])?;
    assert_eq!(rt; [idr, gap, long_term], [1, 2, 3]);
    Ok(())
}

// An IDR slice of one Intra 16x16 macroblock, which is the second of the picture.
const SECOND_PLAIN: &[u8] = &[0, 0, 1, 0x65, 0x42, 0x21, 0x24, 0xF0];

// How many macroblocks are counted before the end of a stream, and after it.
fn turns_of(decoder: &mut Decoder<1000>, bytes: &[u8]) -> Result<(u64, u64), DecodeError> {
    decoder.feed(bytes)?;
    let before = decoder.turns();
    decoder.flush()?;
    Ok((before, decoder.turns()))
}

fn turns_after_reset(decoder: &mut Decoder<1000>, bytes: &[u8]) -> Result<(u64, u64), DecodeError> {
    decoder.reset();
    turns_of(decoder, bytes)
}

// How many macroblocks are counted of one stream, and after a reset of another.
fn turns_of_both(
    decoder: &mut Decoder<1000>,
    one: &[u8],
    other: &[u8],
) -> Result<[(u64, u64); 2], DecodeError> {
    let first = turns_of(decoder, one)?;
    let second = turns_after_reset(decoder, other)?;
    Ok([first, second])
}

fn turns_in(alloc: Global, one: &[u8], other: &[u8]) -> Result<[(u64, u64); 2], DecodeError> {
    let mut decoder = Decoder::<1000>::new(alloc, Output::Full);
    turns_of_both(&mut decoder, one, other)
}

// Where the last unit has ended, its macroblocks are counted.
#[test]
fn counts_macroblocks(rt: HostRuntime) -> Result<(), Fail> {
    let alloc = rt.alloc();
    let one = joined(alloc, &[SMALL, PLAIN, PLAIN_IDR])?;
    let two = joined(alloc, &[WIDE, PLAIN, PLAIN_IDR, SECOND_PLAIN])?;
    assert_eq!(rt; turns_in(alloc, &one, &two)?, [(0, 1), (1, 2)]);
    Ok(())
}

fn feed_two_hundred(decoder: &mut Decoder<1000>, seen: &mut Seen) -> Result<(), DecodeError> {
    feed_pieces(decoder, SMALL, 1, seen)?;
    feed_pieces(decoder, PLAIN, 1, seen)?;
    for _ in 0..100 {
        feed_pieces(decoder, PLAIN_IDR, 1, seen)?;
        feed_pieces(decoder, NEXT_IDR, 1, seen)?;
    }
    finish(decoder, seen)
}

// How many pictures of grey and how many macroblocks there are.
fn pictures_and_turns(alloc: Global) -> Result<(usize, u64), DecodeError> {
    let mut decoder = Decoder::<1000>::new(alloc, Output::Full);
    let mut seen = unseen(128, 3);
    match feed_two_hundred(&mut decoder, &mut seen) {
        Ok(()) => Ok((
            seen.before.flat.saturating_add(seen.after.flat),
            decoder.turns(),
        )),
        Err(error) => Err(error),
    }
}

// Each byte is decoded once: a body that began anew at each byte would take more memory than
// vectors/growths.sh leaves it.
#[test]
fn two_hundred_pictures_byte_by_byte(rt: HostRuntime) -> Result<(), Fail> {
    assert_eq!(rt; pictures_and_turns(rt.alloc())?, (200, 200));
    Ok(())
}
