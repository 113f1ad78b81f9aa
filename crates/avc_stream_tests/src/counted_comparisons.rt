//! How often a comparison reads and writes, and what it tells of a call that failed.

// No clause says this, since the history of a reader or a writer has its bytes alone.
use crate::counted_calls::{CountingReader, CountingWriter, console_of, reader_of, writer_failing};
use crate::limited_writer::Refusal;
use crate::worked_streams::ONE_HELD;
use avc_compare::{Comparison, compare};
use avc_run::Output;
use std::alloc::{AllocError, Global};
use std::test::Fail;

// Both pictures as I420: each has 384 samples of 128.
const SAME: [u8; 768] = [128; 768];

// `avcdec: read fault`, or `avcdec: write fault`, and the end of the line.
const READ_FAULT: usize = 19;

const WRITE_FAULT: usize = 20;

// How it ends, with how many bytes the standard error took, and how often it read the stream, read
// the other and wrote.
type Compared = ((u8, bool, usize), (usize, usize, usize));

fn compared(
    alloc: Global,
    mut reader: CountingReader<'_>,
    mut other: CountingReader<'_>,
    writer: &mut CountingWriter,
) -> Compared {
    compared_as(alloc, false, &mut reader, &mut other, writer)
}

// Compares with or without a line on how near each picture is.
fn compared_as(
    alloc: Global,
    has_psnr: bool,
    reader: &mut CountingReader<'_>,
    other: &mut CountingReader<'_>,
    writer: &mut CountingWriter,
) -> Compared {
    let how = Comparison {
        output: Output::Full,
        most: 0,
        has_psnr,
        size: None,
    };
    let mut console = console_of(writer_failing(None, Refusal::Error));
    let ending = compare(alloc, how, reader, other, None, writer, &mut console);
    (
        (ending.status, ending.told, console.errors.taken),
        (reader.calls, other.calls, writer.calls),
    )
}

// The first picture goes out with the last of 43 bytes, and is compared before the read behind it.
#[test]
fn a_read_of_the_stream_that_fails_is_the_last(rt: HostRuntime) -> Result<(), Fail> {
    for (failing, calls, others) in [(0, 1, 0), (1, 2, 0), (43, 44, 1)] {
        let reader = reader_of(ONE_HELD, 1, Some(failing));
        let other = reader_of(&SAME, 384, None);
        let mut writer = writer_failing(None, Refusal::Error);
        assert_eq!(rt;
            compared(rt.alloc(), reader, other, &mut writer),
            ((3, true, READ_FAULT), (calls, others, 0)),
            "{failing}"
        );
    }
    Ok(())
}

// Of the other four reads of 100 bytes at most fill a picture; behind both its end is asked for.
#[test]
fn a_read_of_the_other_that_fails_is_the_last(rt: HostRuntime) -> Result<(), Fail> {
    for (failing, reads, calls) in [(0, 1, 1), (3, 1, 4), (5, 2, 6), (8, 2, 9)] {
        let reader = reader_of(ONE_HELD, 65_536, None);
        let other = reader_of(&SAME, 100, Some(failing));
        let mut writer = writer_failing(None, Refusal::Error);
        assert_eq!(rt;
            compared(rt.alloc(), reader, other, &mut writer),
            ((3, true, READ_FAULT), (reads, calls, 0)),
            "{failing}"
        );
    }
    Ok(())
}

// The other's first picture differs in its first sample.
fn differing() -> [u8; 768] {
    let mut samples = SAME;
    samples[0] = 127;
    samples
}

// A comparison with that one, where one of the calls may fail.
fn compared_with_differing(
    alloc: Global,
    has_psnr: bool,
    ours: Option<usize>,
    theirs: Option<usize>,
    write: Option<usize>,
) -> Compared {
    let first = differing();
    let mut reader = reader_of(ONE_HELD, 65_536, ours);
    let mut other = reader_of(&first, 384, theirs);
    let mut writer = writer_failing(write, Refusal::Error);
    compared_as(alloc, has_psnr, &mut reader, &mut other, &mut writer)
}

// Behind the first picture that differs the second is read of both; then the stream ends. What
// differs is told by one write.
#[test]
fn a_comparison_reads_on_behind_a_difference(rt: HostRuntime) -> Result<(), Fail> {
    assert_eq!(rt;
        compared_with_differing(rt.alloc(), false, None, None, None),
        ((1, true, 0), (2, 2, 1))
    );
    Ok(())
}

// The first picture is told all the same, and then the fault.
#[test]
fn a_read_behind_a_difference_that_fails_is_the_last(rt: HostRuntime) -> Result<(), Fail> {
    for (ours, theirs, reads, calls) in [(Some(1), None, 2, 1), (None, Some(1), 2, 2)] {
        assert_eq!(rt;
            compared_with_differing(rt.alloc(), false, ours, theirs, None),
            ((3, true, READ_FAULT), (reads, calls, 1))
        );
    }
    Ok(())
}

// With lines on how near they are the second of these can't be written, and nothing is told behind
// it.
#[test]
fn a_write_behind_a_difference_that_fails_is_the_last(rt: HostRuntime) -> Result<(), Fail> {
    assert_eq!(rt;
        compared_with_differing(rt.alloc(), true, None, None, Some(1)),
        ((3, true, WRITE_FAULT), (2, 2, 2))
    );
    Ok(())
}

// Ten streams of two pictures, and the other's pictures, of which the first differs.
fn add_twenty_pictures(stream: &mut Vec<u8>, pictures: &mut Vec<u8>) -> Result<(), AllocError> {
    pictures.extend_from_slice(&differing())?;
    stream.extend_from_slice(ONE_HELD)?;
    for _ in 1..10 {
        stream.extend_from_slice(ONE_HELD)?;
        pictures.extend_from_slice(&SAME)?;
    }
    Ok(())
}

// The comparison of these, of which each read gives two pictures.
fn compared_in_pairs(alloc: Global, has_psnr: bool, stream: &[u8], pictures: &[u8]) -> Compared {
    let mut reader = reader_of(stream, ONE_HELD.len(), None);
    let mut other = reader_of(pictures, 384, None);
    let mut writer = writer_failing(None, Refusal::Error);
    compared_as(alloc, has_psnr, &mut reader, &mut other, &mut writer)
}

// Of twenty pictures the first differs: it and 16 behind it are read, or all where a line is told
// on each. Each read gives two pictures, of which the second goes out with the read behind it.
#[test]
fn a_comparison_reads_seventeen_pictures(rt: HostRuntime) -> Result<(), Fail> {
    let alloc = rt.alloc();
    let mut stream = Vec::new(alloc);
    let mut pictures = Vec::new(alloc);
    add_twenty_pictures(&mut stream, &mut pictures)?;
    for (has_psnr, reads, calls, writes) in [(false, 9, 17, 1), (true, 11, 20, 21)] {
        assert_eq!(rt;
            compared_in_pairs(alloc, has_psnr, &stream, &pictures),
            ((1, true, 0), (reads, calls, writes)),
            "{has_psnr}"
        );
    }
    Ok(())
}

// The other has no picture, which is told by one write.
#[test]
fn a_write_of_a_verdict_that_fails_is_the_last(rt: HostRuntime) -> Result<(), Fail> {
    for refusal in [Refusal::Error, Refusal::Zero] {
        let reader = reader_of(ONE_HELD, 65_536, None);
        let mut writer = writer_failing(Some(0), refusal);
        let (ending, calls) = compared(rt.alloc(), reader, reader_of(&[], 100, None), &mut writer);
        let (_, others, writes) = calls;
        assert_eq!(rt;
            (ending, others, writes, writer.taken),
            ((3, true, WRITE_FAULT), 1, 1, 0)
        );
    }
    Ok(())
}

// So many that a count of a million, or of 2 to the power of 20, is passed.
const MANY: usize = 1_048_577;

// A stream of which each read gives a byte goes on to its end.
#[test]
fn a_million_reads_of_a_comparison_are_no_fault(rt: HostRuntime) -> Result<(), Fail> {
    let alloc = rt.alloc();
    let zeros = vec![in alloc; 0; MANY]?;
    let reader = reader_of(&zeros, 1, None);
    let mut writer = writer_failing(None, Refusal::Error);
    let (ending, calls) = compared(alloc, reader, reader_of(&[], 1, None), &mut writer);
    let (status, _, told) = ending;
    assert_eq!(rt; (status, told, calls), (0, 0, (MANY + 1, 1, 0)));
    Ok(())
}
