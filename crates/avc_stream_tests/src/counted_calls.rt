//! How often a run reads and writes, and what it tells of a call that failed.

// No clause says this, since the history of a reader or a writer has its bytes alone.
use crate::limited_writer::Refusal;
use crate::worked_streams::ONE_HELD;
use avc_formats::{HeadedFormat, I420, Selected};
use avc_run::{
    Console, Names, Output, RunFault, Unwatched, decode, decode_as, decode_headed, run, run_units,
};
use avc_shell::FromPiece;
use avc_tools::ForPeople;
use avc_types::OutOfMemory;
use std::alloc::{AllocError, Global};
use std::io;
use std::io::{ErrorKind, Read, Write};
use std::test::Fail;

// Gives these bytes, at most so many a call, and then the end. The call of one number, from 0,
// fails, and those after it would not.
#[derive(Drop)]
pub(crate) struct CountingReader<'a> {
    bytes: &'a [u8],
    piece: usize,
    failing: Option<usize>,
    pub(crate) calls: usize,
}

impl Read for CountingReader<'_> {
    fn read(&mut self, buf: &mut [u8]) -> io::Result<usize> {
        let number = self.calls;
        self.calls = number.saturating_add(1);
        if self.failing == Some(number) {
            return Err(ErrorKind::BrokenPipe.into());
        }
        let count = self.bytes.len().min(buf.len()).min(self.piece);
        buf[..count].copy_from_slice(&self.bytes[..count]);
        self.bytes = &self.bytes[count..];
        Ok(count)
    }
}

pub(crate) fn reader_of(bytes: &[u8], piece: usize, failing: Option<usize>) -> CountingReader<'_> {
    CountingReader {
        bytes,
        piece,
        failing,
        calls: 0,
    }
}

// Takes all bytes of each call, but of the one of this number, from 0.
#[derive(Drop)]
pub(crate) struct CountingWriter {
    failing: Option<usize>,
    refusal: Refusal,
    pub(crate) calls: usize,
    pub(crate) taken: usize,
}

impl Write for CountingWriter {
    fn write(&mut self, buf: &[u8]) -> io::Result<usize> {
        let number = self.calls;
        self.calls = number.saturating_add(1);
        if self.failing == Some(number) {
            return match self.refusal {
                Refusal::Error => Err(ErrorKind::BrokenPipe.into()),
                Refusal::Zero => Ok(0),
            };
        }
        self.taken = self.taken.saturating_add(buf.len());
        Ok(buf.len())
    }

    fn flush(&mut self) -> io::Result<()> {
        Ok(())
    }
}

pub(crate) fn writer_failing(failing: Option<usize>, refusal: Refusal) -> CountingWriter {
    CountingWriter {
        failing,
        refusal,
        calls: 0,
        taken: 0,
    }
}

pub(crate) fn console_of(errors: CountingWriter) -> Console<'static, CountingWriter, Unwatched> {
    Console {
        names: Names {
            input: None,
            output: None,
        },
        is_explained: false,
        errors,
        watch: Unwatched,
    }
}

// What ended a run, where a fault did.
fn fault_of(
    alloc: Global,
    reader: &mut CountingReader<'_>,
    writer: &mut CountingWriter,
) -> Option<RunFault> {
    match run(alloc, Output::Full, reader, writer) {
        Ok(_) => None,
        Err(fault) => Some(fault),
    }
}

// Each of the two pictures has 384 bytes, which go out by one write.
#[test]
fn a_write_that_fails_is_the_last(rt: HostRuntime) -> Result<(), Fail> {
    for refusal in [Refusal::Error, Refusal::Zero] {
        for (failing, calls, taken) in [(0, 1, 0), (1, 2, 384)] {
            let mut reader = reader_of(ONE_HELD, 7, None);
            let mut writer = writer_failing(Some(failing), refusal);
            let fault = fault_of(rt.alloc(), &mut reader, &mut writer);
            assert_eq!(rt;
                (fault, writer.calls, writer.taken),
                (Some(RunFault::Write), calls, taken),
                "{failing}"
            );
        }
    }
    Ok(())
}

#[test]
fn a_read_that_fails_is_the_last(rt: HostRuntime) -> Result<(), Fail> {
    for (failing, calls) in [(0, 1), (1, 2), (43, 44)] {
        let mut reader = reader_of(ONE_HELD, 1, Some(failing));
        let mut writer = writer_failing(None, Refusal::Error);
        let fault = fault_of(rt.alloc(), &mut reader, &mut writer);
        assert_eq!(rt;
            (fault, reader.calls),
            (Some(RunFault::Read), calls),
            "{failing}"
        );
    }
    Ok(())
}

// How a run in a headed format ends, how many bytes the standard error took, and how often the
// writer was called.
fn framed(alloc: Global, reader: &mut CountingReader<'_>) -> (u8, bool, usize, usize) {
    let mut writer = writer_failing(None, Refusal::Error);
    let mut console = console_of(writer_failing(None, Refusal::Error));
    let asked = Selected {
        format: HeadedFormat::FrameMd5,
        skip: 0,
        limit: u64::MAX,
    };
    let ending = decode_headed(
        alloc,
        Output::Full,
        asked,
        reader,
        &mut writer,
        &mut console,
    );
    (
        ending.status,
        ending.told,
        console.errors.taken,
        writer.calls,
    )
}

// `avcdec: read fault` and the end of the line are 19 bytes, written in two parts.
#[test]
fn a_read_that_fails_in_the_front_is_told(rt: HostRuntime) -> Result<(), Fail> {
    for (failing, calls) in [(0, 1), (1, 2)] {
        let mut reader = reader_of(ONE_HELD, 1, Some(failing));
        let ended = framed(rt.alloc(), &mut reader);
        assert_eq!(rt;
            (ended, reader.calls),
            ((3, true, 19, 0), calls),
            "{failing}"
        );
    }
    Ok(())
}

// So many that a count of a million, or of 2 to the power of 20, is passed.
const MANY: usize = 1_048_577;

// What ended a run of which each read gives a byte, and how often it read and wrote.
fn run_by_bytes(alloc: Global, bytes: &[u8]) -> (Option<RunFault>, usize, usize) {
    let mut reader = reader_of(bytes, 1, None);
    let mut writer = writer_failing(None, Refusal::Error);
    let fault = fault_of(alloc, &mut reader, &mut writer);
    (fault, reader.calls, writer.calls)
}

// Whether the list of the units is told, and how often the reader and the writer were called.
fn listed(
    alloc: Global,
    mut reader: CountingReader<'_>,
    writer: &mut CountingWriter,
) -> (bool, usize, usize) {
    let is_told = run_units(alloc, ForPeople, &mut reader, writer).is_ok();
    (is_told, reader.calls, writer.calls)
}

// A stream of which each read gives a byte goes on, and what reads it asks for its end once.
#[test]
fn a_million_reads_are_no_fault(rt: HostRuntime) -> Result<(), Fail> {
    let alloc = rt.alloc();
    let zeros = vec![in alloc; 0; MANY]?;
    assert_eq!(rt; run_by_bytes(alloc, &zeros), (None, MANY + 1, 0));
    let mut writer = writer_failing(None, Refusal::Error);
    let reader = reader_of(&zeros, 1, None);
    assert_eq!(rt; listed(alloc, reader, &mut writer), (true, MANY + 1, 0));
    let (status, told, _, _) = framed(alloc, &mut reader_of(&zeros, 1, None));
    assert_eq!(rt; (status, told), (0, true));
    Ok(())
}

// How many bytes the first read from the first piece on gives, where it doesn't fail, whether the
// stream turns out to have no piece, and how often it is read.
fn first_read(
    alloc: Global,
    mut reader: CountingReader<'_>,
) -> Result<(Option<usize>, bool, usize), OutOfMemory> {
    let (read, is_missing) = first_read_of(alloc, &mut reader)?;
    Ok((read, is_missing, reader.calls))
}

fn first_read_of(
    alloc: Global,
    reader: &mut CountingReader<'_>,
) -> Result<(Option<usize>, bool), OutOfMemory> {
    let mut from = FromPiece::new(alloc, 0, reader)?;
    let read = from.read(&mut [0; 16]).ok();
    Ok((read, from.is_missing()))
}

// A piece that never begins is looked for up to the end of the stream.
#[test]
fn a_million_reads_before_a_piece_are_no_fault(rt: HostRuntime) -> Result<(), Fail> {
    let alloc = rt.alloc();
    let zeros = vec![in alloc; 0; MANY]?;
    assert_eq!(rt;
        first_read(alloc, reader_of(&zeros, 1, None))?,
        (Some(0), true, MANY + 1)
    );
    Ok(())
}

// Where a read fails before the piece has begun, that is told, and no piece is missing.
#[test]
fn a_read_that_fails_before_a_piece_is_the_last(rt: HostRuntime) -> Result<(), Fail> {
    for (failing, calls) in [(0, 1), (20, 21)] {
        let reader = reader_of(ONE_HELD, 1, Some(failing));
        assert_eq!(rt;
            first_read(rt.alloc(), reader)?,
            (None, false, calls),
            "{failing}"
        );
    }
    Ok(())
}

// So many units of one byte, whose forbidden_zero_bit is 1.
fn forbidden(alloc: Global, units: u32) -> Result<Vec<u8>, AllocError> {
    let mut bytes = Vec::new(alloc);
    for _ in 0..units {
        bytes.extend_from_slice(&[0, 0, 1, 0x80])?;
    }
    Ok(bytes)
}

// How a run ends, and how often the standard error was called and how many bytes it took, where one
// of these calls may fail.
fn refused(alloc: Global, bytes: &[u8], failing: Option<usize>) -> (u8, bool, usize, usize) {
    let mut reader = reader_of(bytes, 65_536, None);
    let mut writer = writer_failing(None, Refusal::Error);
    let mut console = console_of(writer_failing(failing, Refusal::Error));
    let ending = decode(alloc, Output::Full, &mut reader, &mut writer, &mut console);
    (
        ending.status,
        ending.told,
        console.errors.calls,
        console.errors.taken,
    )
}

// `refused unit N: 4 ForbiddenBit` and the end of the line are 30 bytes and the digits of N, told
// by one write: of 2,500 units 83,890 bytes. Where the standard error takes no more of the second
// line, it is not asked again.
#[test]
fn refusals_are_told_as_long_as_they_are_taken(rt: HostRuntime) -> Result<(), Fail> {
    let alloc = rt.alloc();
    let bytes = forbidden(alloc, 2_500)?;
    for (failing, told, calls, taken) in [(None, true, 2_500, 83_890), (Some(1), false, 2, 31)] {
        assert_eq!(rt;
            refused(alloc, &bytes, failing),
            (1, told, calls, taken),
            "{taken}"
        );
    }
    Ok(())
}

// The lines of 16,384 units of one byte are 281,025 bytes. Those that one read brings go out
// together, at most 65,536 bytes at once, and the last one at the end of the stream. No line goes
// out behind a write that failed.
#[test]
fn listed_lines_go_out_together(rt: HostRuntime) -> Result<(), Fail> {
    let alloc = rt.alloc();
    let bytes = forbidden(alloc, 16_384)?;
    for (failing, reads, writes, taken) in [
        (None, 2, 6, 281_025),
        (Some(0), 1, 1, 0),
        (Some(1), 1, 2, 65_524),
        (Some(5), 2, 6, 281_007),
    ] {
        let reader = reader_of(&bytes, 65_536, None);
        let mut writer = writer_failing(failing, Refusal::Error);
        assert_eq!(rt;
            (listed(alloc, reader, &mut writer), writer.taken),
            ((failing.is_none(), reads, writes), taken),
            "{taken}"
        );
    }
    Ok(())
}

// How a run ends that is to write so many pictures, how often it reads pieces of this size, and how
// many bytes it writes.
fn limited(alloc: Global, piece: usize, limit: u64) -> (u8, usize, usize) {
    let format = Selected {
        format: I420,
        skip: 0,
        limit,
    };
    let mut reader = reader_of(ONE_HELD, piece, None);
    let mut writer = writer_failing(None, Refusal::Error);
    let mut console = console_of(writer_failing(None, Refusal::Error));
    let ending = decode_as(
        alloc,
        Output::Full,
        &format,
        &mut reader,
        &mut writer,
        &mut console,
    );
    (ending.status, reader.calls, writer.taken)
}

// The first picture goes out with the last byte, the second at the end. The first read is made also
// where no picture is wanted.
#[test]
fn reads_as_long_as_pictures_are_wanted(rt: HostRuntime) -> Result<(), Fail> {
    for (piece, limit, reads, taken) in [
        (65_536, 0, 1, 0),
        (65_536, 1, 1, 384),
        (65_536, 2, 2, 768),
        (1, 0, 1, 0),
        (1, 1, 43, 384),
        (1, 2, 44, 768),
    ] {
        assert_eq!(rt;
            limited(rt.alloc(), piece, limit),
            (0, reads, taken),
            "{piece}, {limit}"
        );
    }
    Ok(())
}
