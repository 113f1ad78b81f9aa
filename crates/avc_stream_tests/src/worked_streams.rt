//! Streams of a few bytes whose events can be worked out by hand, with memory that is there: a call
//! that always wanted some would keep its contract. Each is decoded to its samples, its refusals
//! and its count of macroblocks.

use crate::fed_streams::{decode_stream, is_flat, joined, seen_again, unseen};
use crate::limited_writer::{LimitedWriter, Refusal};
use avc_annexb::Splitter;
use avc_decoder::{Call, DecodeError, Decoder, Event, Output, Reply, run_calls};
use avc_run::{RunFault, run};
use avc_types::{Bytes, OutOfMemory, Picture};
use avc_units::{Grouper, Next};
use std::alloc::{AllocError, Global};
use std::io;
use std::io::{ErrorKind, Read};
use std::test::Fail;

// A sequence parameter set of a 16x16 picture, a picture parameter set, and an IDR picture of one
// Intra 16x16 macroblock.
const FIRST: &[u8] = &[
    0, 0, 0, 1, 0x67, 0x42, 0xC0, 0x0A, 0xDA, 0x71, 0, 0, 0, 1, 0x68, 0xCE, 0x38, 0x80, 0, 0, 1,
    0x65, 0x88, 0x84, 0x93, 0xC0,
];

// The sets alone, and the slice of an I_PCM macroblock up to its samples.
const SETS: &[u8] = &[
    0, 0, 0, 1, 0x67, 0x42, 0xC0, 0x0A, 0xDA, 0x71, 0, 0, 0, 1, 0x68, 0xCE, 0x38, 0x80,
];

const PCM: &[u8] = &[0, 0, 1, 0x65, 0x88, 0x84, 0x86, 0x80];

// A second IDR slice of an I_PCM macroblock, of another idr_pic_id and with
// no_output_of_prior_pics_flag 1, up to its samples.
const SECOND_PCM: &[u8] = &[0, 0, 1, 0x65, 0x88, 0x82, 0xA1, 0xA0];

// The byte that ends a slice behind its samples.
const STOP: &[u8] = &[0x80];

// Two pictures, of a set by which one frame is held and none is reordered, and what shows the end
// of the second.
pub(crate) const ONE_HELD: &[u8] = &[
    0, 0, 0, 1, 0x67, 0x42, 0xC0, 0x0A, 0xDA, 0x72, 0x01, 0xFD, 0x40, 0, 0, 0, 1, 0x68, 0xCE, 0x38,
    0x80, 0, 0, 1, 0x65, 0x88, 0x84, 0x93, 0xC0, 0, 0, 1, 0x41, 0x9A, 0x22, 0xA0, 0, 0, 1, 9, 0, 0,
    1,
];

// A picture of 16x32 samples in two slices.
const TWO_SLICES: &[u8] = &[
    0, 0, 0, 1, 0x67, 0x42, 0xC0, 0x0A, 0xDA, 0x54, 0x40, 0, 0, 0, 1, 0x68, 0xCE, 0x38, 0x80, 0, 0,
    1, 0x65, 0x88, 0x84, 0x93, 0xC0, 0, 0, 1, 0x65, 0x42, 0x21, 0x24, 0xC5, 0x00, 0x02, 0x58,
];

// How many of the events before the end of these bytes, which are fed in such pieces, are flat
// pictures of this value and how many are others, the same behind it, and how many macroblocks are
// counted.
fn events_of(
    alloc: Global,
    output: Output,
    bytes: &[u8],
    piece: usize,
    value: u8,
) -> Result<([(usize, usize); 2], u64), DecodeError> {
    let mut seen = unseen(value, 5);
    let turns = decode_stream(alloc, output, bytes, piece, &mut seen)?;
    let before = (seen.before.flat, seen.before.others);
    let after = (seen.after.flat, seen.after.others);
    Ok(([before, after], turns))
}

// The picture comes at the end alone, however the bytes come, and with two zeros behind them.
#[test]
fn one_picture_comes_at_the_end(rt: HostRuntime) -> Result<(), Fail> {
    let alloc = rt.alloc();
    let with_zeros = joined(alloc, &[FIRST, &[0, 0]])?;
    for piece in [1, 7, 1000] {
        let plain = events_of(alloc, Output::Full, FIRST, piece, 128)?;
        let longer = events_of(alloc, Output::Full, &with_zeros, piece, 128)?;
        assert_eq!(rt; [plain, longer], [([(0, 0), (1, 0)], 1); 2]);
    }
    Ok(())
}

// A decoder that has one frame hands out the first picture once the second has ended, and the
// second at the end; early, both at once.
#[test]
fn one_frame_is_held(rt: HostRuntime) -> Result<(), Fail> {
    let alloc = rt.alloc();
    for piece in [1, 1000] {
        let full = events_of(alloc, Output::Full, ONE_HELD, piece, 128)?;
        let early = events_of(alloc, Output::Early, ONE_HELD, piece, 128)?;
        assert_eq!(rt;
            [full, early],
            [([(1, 0), (1, 0)], 2), ([(2, 0), (0, 0)], 2)]
        );
    }
    Ok(())
}

// The rising picture, and a second whose samples are all 0x50.
fn both_pcm(alloc: Global) -> Result<Vec<u8>, AllocError> {
    let rising = rising(alloc)?;
    joined(alloc, &[rising.as_slice(), SECOND_PCM, &[0x50; 384], STOP])
}

// The first picture is dropped by the flag of the second.
#[test]
fn the_second_drops_the_first(rt: HostRuntime) -> Result<(), Fail> {
    let alloc = rt.alloc();
    let bytes = both_pcm(alloc)?;
    assert_eq!(rt;
        events_of(alloc, Output::Full, &bytes, 1000, 0x50)?,
        ([(0, 0), (1, 0)], 2)
    );
    Ok(())
}

// A luma column of it: 15 times 128, the edge between the slices as it is deblocked, and 15 times
// 136.
const COLUMN: [u8; 32] = [
    128, 128, 128, 128, 128, 128, 128, 128, 128, 128, 128, 128, 128, 128, 128, 130, 134, 136, 136,
    136, 136, 136, 136, 136, 136, 136, 136, 136, 136, 136, 136, 136,
];

// Whether each of its 16 luma columns is that, and each of its 256 chroma samples 128.
fn has_columns(picture: &Picture) -> bool {
    let mut place = 0usize;
    for sample in picture.luma.as_slice() {
        match COLUMN.get(place / 16) {
            Some(value) if *value == *sample => {}
            _ => return false,
        }
        place = place.saturating_add(1);
    }
    for component in [&picture.cb, &picture.cr] {
        for sample in component.as_slice() {
            if *sample != 128 {
                return false;
            }
            place = place.saturating_add(1);
        }
    }
    picture.width == 16 && place == 768
}

// Whether it comes so, and how many macroblocks were counted.
fn picture_of_two_slices(decoder: &mut Decoder<1000>) -> Result<(bool, u64), DecodeError> {
    decoder.feed(TWO_SLICES)?;
    decoder.flush()?;
    let turns = decoder.turns();
    match decoder.take()? {
        Some(Event::Picture(picture)) => Ok((has_columns(&picture), turns)),
        _ => Ok((false, turns)),
    }
}

fn two_slices_in(alloc: Global) -> Result<(bool, u64), DecodeError> {
    let mut decoder = Decoder::<1000>::new(alloc, Output::Full);
    picture_of_two_slices(&mut decoder)
}

#[test]
fn two_slices_are_two_macroblocks(rt: HostRuntime) -> Result<(), Fail> {
    assert_eq!(rt; two_slices_in(rt.alloc())?, (true, 2));
    Ok(())
}

// How many answers say that the call was carried out, how many are a picture of 128, and how many
// that there is no event.
fn told(replies: &[Reply]) -> (usize, usize, usize) {
    let mut done = 0usize;
    let mut pictures = 0usize;
    let mut nothing = 0usize;
    for reply in replies {
        match reply {
            Reply::Fed(Ok(())) | Reply::Flushed(Ok(())) => done = done.saturating_add(1),
            Reply::Taken(Ok(Some(Event::Picture(picture)))) if is_flat(picture, 128) => {
                pictures = pictures.saturating_add(1)
            }
            Reply::Taken(Ok(None)) => nothing = nothing.saturating_add(1),
            _ => {}
        }
    }
    (done, pictures, nothing)
}

fn run_of_the_first(alloc: Global) -> Result<(usize, usize, usize), OutOfMemory> {
    let mut bytes = Vec::new(alloc);
    bytes.extend_from_slice(FIRST)?;
    let calls = [
        Call::Take,
        Call::Feed(Bytes::from_vec(bytes)),
        Call::Take,
        Call::Flush,
        Call::Take,
        Call::Take,
    ];
    let replies = run_calls::<1000>(alloc, Output::Full, &calls)?;
    Ok(told(replies.as_slice()))
}

#[test]
fn a_list_of_calls_is_answered(rt: HostRuntime) -> Result<(), Fail> {
    assert_eq!(rt; run_of_the_first(rt.alloc())?, (2, 1, 3));
    Ok(())
}

// What a step does next, as a number.
fn number_of(next: &Next) -> u8 {
    match next {
        Next::Nothing => 0,
        Next::Refusal(_) => 1,
        Next::FaultOfOpen(_) => 2,
        Next::FaultOfOwn(_) => 3,
        Next::Begins(_) => 4,
        Next::Continues(_) => 5,
    }
}

// What the units of the stream do, each with whether it closes the open picture; 9 where there is
// no unit.
fn steps_of(
    splitter: &mut Splitter<1000>,
    grouper: &mut Grouper,
) -> Result<[(bool, u8); 4], OutOfMemory> {
    splitter.feed(FIRST)?;
    splitter.feed(&[0, 0, 1, 9, 0x10])?;
    splitter.finish()?;
    let mut steps = [(false, 9); 4];
    for k in 0..4 {
        if let Some(unit) = splitter.next_unit() {
            let step = grouper.unit(&unit, true)?;
            steps[k] = (step.closes, number_of(&step.next));
        }
    }
    Ok(steps)
}

fn steps_in(alloc: Global) -> Result<[(bool, u8); 4], OutOfMemory> {
    let mut splitter = Splitter::<1000>::new(alloc);
    let mut grouper = Grouper::new(alloc);
    steps_of(&mut splitter, &mut grouper)
}

// Both sets do nothing more than to come into force, the slice begins a picture, and the delimiter
// closes it.
#[test]
fn units_are_grouped(rt: HostRuntime) -> Result<(), Fail> {
    let [sps, pps, slice, delimiter] = steps_in(rt.alloc())?;
    assert_eq!(rt;
        (sps.1, pps.1, slice, delimiter),
        (0, 0, (false, 4), (true, 0))
    );
    Ok(())
}

// Gives these bytes, and then fails.
#[derive(Drop)]
struct FailingReader<'a> {
    bytes: &'a [u8],
}

impl Read for FailingReader<'_> {
    fn read(&mut self, buf: &mut [u8]) -> io::Result<usize> {
        if self.bytes.is_empty() {
            return Err(ErrorKind::BrokenPipe.into());
        }
        let count = self.bytes.len().min(buf.len());
        buf[..count].copy_from_slice(&self.bytes[..count]);
        self.bytes = &self.bytes[count..];
        Ok(count)
    }
}

// What ended the run, where it is not want of memory, how much of the writer's room is left, and
// how many bytes 128 it took.
fn run_from<R: Read>(
    alloc: Global,
    reader: &mut R,
    room: usize,
) -> Result<(Option<RunFault>, usize, usize), RunFault> {
    let mut writer = LimitedWriter {
        piece: 65_536,
        room,
        refusal: Refusal::Zero,
        grey: 0,
        calls: 0,
    };
    match run(alloc, Output::Full, reader, &mut writer) {
        Ok(_) => Ok((None, writer.room, writer.grey)),
        Err(RunFault::Memory) => Err(RunFault::Memory),
        Err(fault) => Ok((Some(fault), writer.room, writer.grey)),
    }
}

// A picture of one I_PCM macroblock: luma 0 to 255, Cb 0x40, Cr 0xC0.
fn rising(alloc: Global) -> Result<Vec<u8>, AllocError> {
    let mut bytes = joined(alloc, &[SETS, PCM])?;
    let mut value = 0u8;
    for _ in 0..256u32 {
        bytes.push(value)?;
        value = value.wrapping_add(1);
    }
    bytes.extend_from_slice(&[0x40; 64])?;
    bytes.extend_from_slice(&[0xC0; 64])?;
    bytes.extend_from_slice(STOP)?;
    Ok(bytes)
}

// The ends of three runs: reading fails behind all bytes; nothing fails; and of the first stream
// the writer takes 100 bytes and then answers 0.
fn ends_of_runs(
    alloc: Global,
    bytes: &[u8],
) -> Result<[(Option<RunFault>, usize, usize); 3], RunFault> {
    let mut failing = FailingReader { bytes };
    let read = run_from(alloc, &mut failing, 1000)?;
    let mut whole = bytes;
    let none = run_from(alloc, &mut whole, 1000)?;
    let mut first = FIRST;
    let written = run_from(alloc, &mut first, 100)?;
    Ok([read, none, written])
}

// Where reading fails behind all bytes nothing is written, since the end of the last unit is not
// seen; where the writer takes 100 bytes of 128 and then answers 0, these are written.
#[test]
fn a_run_ends_at_a_fault(rt: HostRuntime) -> Result<(), Fail> {
    let bytes = rising(rt.alloc())?;
    assert_eq!(rt;
        ends_of_runs(rt.alloc(), &bytes)?,
        [
            (Some(RunFault::Read), 1000, 0),
            (None, 616, 1),
            (Some(RunFault::Write), 0, 100)
        ]
    );
    Ok(())
}

// How many pictures the first stream gives; where a growth is refused, each call answers so until a
// reset, after which the stream gives them.
fn pictures_again(alloc: Global) -> Result<usize, DecodeError> {
    let seen = seen_again(alloc, FIRST, 5)?;
    Ok(seen.after.flat)
}

// vectors/growths.sh refuses each growth of it.
#[test]
fn the_first_again_after_want_of_memory(rt: HostRuntime) -> Result<(), Fail> {
    assert_eq!(rt; pictures_again(rt.alloc())?, 1);
    Ok(())
}
