//! A run: a stream decoded, and its pictures written as they go out.

ghost use Rattle.std.specs.Prelude.{◌≡◌, ◌∷◌, [], false, take, Err, IfErr, IfOk, OnOk};
ghost use Rattle.std.specs.Io.KnownBytes.{prepend_known};
ghost use Rattle.avc_types.specs.Whole.{IsWhole};
ghost use Rattle.avc_console.specs.Reading.{max_unit};
ghost use Rattle.avc_console.specs.declared.fault.RunFault.TheVariants as faults;
ghost use Rattle.avc_console.specs.Reporting.{no_report};
ghost use Rattle.avc_events.specs.EventReports.{report_with, IfPicture};
ghost use Rattle.avc_run.specs.Decoding.{Decodes};
ghost use Rattle.avc_run.specs.Formats.{DecodesAs, IsWritten};
ghost use Rattle.avc_run.specs.Draining.{events_left, BreaksOffFrom, IsDrained, IsHandled};
ghost use Rattle.avc_run.specs.Reporting.{LendsTheSame, ReportsOn};
ghost use Rattle.avc_decoder.specs.Machine.{after_feed, after_flush, new_machine, IsUpToUnit};

use crate::reporting::Reporting;
use avc_console::{
    MAX_UNIT, PIECE, READS, Report, Reporter, RunFault, Unwatched, Watch, read_once,
};
use avc_decoder::laws::{events_only_grow, pictures_are_whole};
use avc_decoder::{Decoder, Event, Output};
use avc_events::{feed_unit, flush, next_event};
use avc_formats::{I420, PictureFormat};
use avc_plane::SharedPicture;
use avc_yuv::ROOM;
use std::alloc::Global;
use std::io;
use std::io::{Read, Write};

/// Decodes a byte stream (Annex B) and writes its pictures as I420, each as soon as it goes out in
/// this mode of output: before the next bytes are read, and before the next unit is decoded.
pub fn run<R: Read, W: Write>(
    alloc: Global,
    output: Output,
    reader: &mut R,
    writer: &mut W,
) -> Result<Report, RunFault>
    ensures { Decodes output (R.remaining reader.old) (R.remaining reader.new)
        (W.contents writer.old) (W.contents writer.new) result }
{
    let mut report = Report::new(alloc);
    let mut reporting = Reporting {
        report: &mut report,
        errors: &mut io::sink(),
        watch: &mut Unwatched,
    };
    let run = run_watched(alloc, output, &I420, &mut reporting, reader, writer);
    match run {
        Ok(()) => Ok(report),
        Err(fault) => Err(fault),
    }
}

/// Decodes a byte stream (Annex B) in this format. Once it wants no more pictures, no further read
/// is made; the first is made in any case. Each picture and each refusal is reported as it comes,
/// and `watch` is told how far the run is, after each read and at the end.
pub fn run_watched<F: PictureFormat, T: Reporter, E: Write, V: Watch, R: Read, W: Write>(
    alloc: Global,
    output: Output,
    format: &F,
    reporting: &mut Reporting<'_, '_, '_, T, E, V>,
    reader: &mut R,
    writer: &mut W,
) -> Result<(), RunFault>
    requires { (T.reported reporting.old.report.now).report ≡ no_report }
    ensures decodes { DecodesAs (F.format format.now) output [] (R.remaining reader.old)
        (R.remaining reader.new) (W.contents writer.old) (W.contents writer.new)
        (T.reported reporting.new.report.now).report result }
    ensures told { ReportsOn T.reported E.contents reporting.old reporting.new }
    ensures lent { LendsTheSame reporting.old reporting.new }
{
    run_behind(alloc, output, format, reporting, &[], reader, writer)
}

/// Decodes a byte stream of which the front was read before.
pub fn run_behind<F: PictureFormat, T: Reporter, E: Write, V: Watch, R: Read, W: Write>(
    alloc: Global,
    output: Output,
    format: &F,
    reporting: &mut Reporting<'_, '_, '_, T, E, V>,
    front: &[u8],
    reader: &mut R,
    writer: &mut W,
) -> Result<(), RunFault>
    requires { (T.reported reporting.old.report.now).report ≡ no_report }
    ensures decodes { DecodesAs (F.format format.now) output
        front.now (prepend_known front.now (R.remaining reader.old))
        (R.remaining reader.new) (W.contents writer.old) (W.contents writer.new)
        (T.reported reporting.new.report.now).report result }
    ensures told { ReportsOn T.reported E.contents reporting.old reporting.new }
    ensures lent { LendsTheSame reporting.old reporting.new }
{
    let mut decoder = Decoder::<MAX_UNIT, SharedPicture>::sharing(alloc, output);
    let run = decode_by(&mut decoder, format, reporting, front, reader, writer);
    reporting.watch.end(reporting.report.counts(), run);
    run
}

// Decodes a byte stream by a new decoder, without telling its end.
fn decode_by<F: PictureFormat, T: Reporter, E: Write, V: Watch, R: Read, W: Write>(
    decoder: &mut Decoder<MAX_UNIT, SharedPicture>,
    format: &F,
    reporting: &mut Reporting<'_, '_, '_, T, E, V>,
    front: &[u8],
    reader: &mut R,
    writer: &mut W,
) -> Result<(), RunFault>
    requires new { decoder.old ≡ new_machine decoder.old.output }
    requires none { (T.reported reporting.old.report.now).report ≡ no_report }
    ensures decodes { DecodesAs (F.format format.now) decoder.old.output
        front.now (prepend_known front.now (R.remaining reader.old))
        (R.remaining reader.new) (W.contents writer.old) (W.contents writer.new)
        (T.reported reporting.new.report.now).report result }
    ensures told { ReportsOn T.reported E.contents reporting.old reporting.new }
    ensures lent { LendsTheSame reporting.old reporting.new }
{
    events_only_grow();
    let mut room = [0; ROOM];
    reporting.watch.note_bytes(front);
    take_in(decoder, front, format, &mut room, writer, reporting)?;
    reporting.watch.look(front, reporting.report.counts());
    let mut piece = [0; PIECE];
    'pieces: for _read in 0..READS {
        let len = read_once(reader, &mut piece)?;
        if len == 0 {
            reporting.watch.note_end();
            return finish(decoder, format, &mut room, writer, reporting);
        }
        reporting.watch.note_bytes(&piece[..len]);
        take_in(decoder, &piece[..len], format, &mut room, writer, reporting)?;
        let counts = reporting.report.counts();
        reporting.watch.look(&piece[..len], counts);
        if format.is_enough(counts.pictures) {
            return Ok(());
        }
    }
    Err(RunFault::Endless)
}

// The next bytes of the stream, and all events that come by them. Those of one unit are taken
// before the next unit is fed, so that few pictures wait at a time.
fn take_in<F: PictureFormat, T: Reporter, E: Write, V: Watch, W: Write>(
    decoder: &mut Decoder<MAX_UNIT, SharedPicture>,
    piece: &[u8],
    format: &F,
    room: &mut [u8],
    writer: &mut W,
    reporting: &mut Reporting<'_, '_, '_, T, E, V>,
) -> Result<(), RunFault>
    requires { IsDrained decoder.old }
    ensures ok { OnOk result
        (IsHandled (F.format format.now) (after_feed piece.now decoder.old) decoder.new
        (T.reported reporting.old.report.now).report (T.reported reporting.new.report.now).report
        (W.contents writer.old) (W.contents writer.new)) }
    ensures err { IfErr result
        (λ fault. BreaksOffFrom (F.format format.now) (T.reported reporting.old.report.now).report
        (T.reported reporting.new.report.now).report fault (W.contents writer.old)
        (W.contents writer.new) (events_left (after_feed piece.now decoder.old))) }
    ensures told { ReportsOn T.reported E.contents reporting.old reporting.new }
    ensures lent { LendsTheSame reporting.old reporting.new }
{
    events_only_grow();
    let mut done = 0;
    'units: while done < piece.len() {
        let used = take_unit(decoder, &piece[done..], format, room, writer, reporting)?;
        done += used;
    }
    Ok(())
}

// Takes in bytes up to where a unit has ended. Answers how many they are.
fn take_unit<F: PictureFormat, T: Reporter, E: Write, V: Watch, W: Write>(
    decoder: &mut Decoder<MAX_UNIT, SharedPicture>,
    bytes: &[u8],
    format: &F,
    room: &mut [u8],
    writer: &mut W,
    reporting: &mut Reporting<'_, '_, '_, T, E, V>,
) -> Result<usize, RunFault>
    requires { IsDrained decoder.old }
    ensures unit { IfOk result (λ used. IsUpToUnit max_unit decoder.old.bytes bytes.now used) }
    ensures ok { IfOk result (λ used. IsHandled (F.format format.now)
        (after_feed (take used bytes.now) decoder.old) decoder.new
        (T.reported reporting.old.report.now).report (T.reported reporting.new.report.now).report
        (W.contents writer.old) (W.contents writer.new)) }
    ensures err { IfErr result
        (λ fault. BreaksOffFrom (F.format format.now) (T.reported reporting.old.report.now).report
        (T.reported reporting.new.report.now).report fault (W.contents writer.old)
        (W.contents writer.new) (events_left (after_feed bytes.now decoder.old))) }
    ensures told { ReportsOn T.reported E.contents reporting.old reporting.new }
    ensures lent { LendsTheSame reporting.old reporting.new }
{
    events_only_grow();
    let used = feed_unit(decoder, bytes)?;
    drain(decoder, format, room, writer, reporting)?;
    Ok(used)
}

// The end of the stream, and all events that come by it.
fn finish<F: PictureFormat, T: Reporter, E: Write, V: Watch, W: Write>(
    decoder: &mut Decoder<MAX_UNIT, SharedPicture>,
    format: &F,
    room: &mut [u8],
    writer: &mut W,
    reporting: &mut Reporting<'_, '_, '_, T, E, V>,
) -> Result<(), RunFault>
    ensures ok { OnOk result (IsHandled (F.format format.now) (after_flush decoder.old) decoder.new
        (T.reported reporting.old.report.now).report (T.reported reporting.new.report.now).report
        (W.contents writer.old) (W.contents writer.new)) }
    ensures err { IfErr result
        (λ fault. BreaksOffFrom (F.format format.now) (T.reported reporting.old.report.now).report
        (T.reported reporting.new.report.now).report fault (W.contents writer.old)
        (W.contents writer.new) (events_left (after_flush decoder.old))) }
    ensures told { ReportsOn T.reported E.contents reporting.old reporting.new }
    ensures lent { LendsTheSame reporting.old reporting.new }
{
    flush(decoder)?;
    drain(decoder, format, room, writer, reporting)?;
    Ok(())
}

// Takes all events that have come.
fn drain<F: PictureFormat, T: Reporter, E: Write, V: Watch, W: Write>(
    decoder: &mut Decoder<MAX_UNIT, SharedPicture>,
    format: &F,
    room: &mut [u8],
    writer: &mut W,
    reporting: &mut Reporting<'_, '_, '_, T, E, V>,
) -> Result<(), RunFault>
    ensures ok { OnOk result (IsHandled (F.format format.now) decoder.old decoder.new
        (T.reported reporting.old.report.now).report (T.reported reporting.new.report.now).report
        (W.contents writer.old) (W.contents writer.new)) }
    ensures err { IfErr result (λ fault. BreaksOffFrom (F.format format.now)
        (T.reported reporting.old.report.now).report (T.reported reporting.new.report.now).report
        fault (W.contents writer.old) (W.contents writer.new) (events_left decoder.old)) }
    ensures told { ReportsOn T.reported E.contents reporting.old reporting.new }
    ensures lent { LendsTheSame reporting.old reporting.new }
{
    pictures_are_whole();
    'events: while let Some(event) = next_event(decoder)? {
        handle(event, format, room, writer, reporting)?;
    }
    Ok(())
}

fn handle<F: PictureFormat, T: Reporter, E: Write, V: Watch, W: Write>(
    event: Event<SharedPicture>,
    format: &F,
    room: &mut [u8],
    writer: &mut W,
    reporting: &mut Reporting<'_, '_, '_, T, E, V>,
) -> Result<(), RunFault>
    requires { IfPicture event IsWhole }
    ensures report { OnOk result ((T.reported reporting.new.report.now).report
        ≡ report_with (T.reported reporting.old.report.now).report (event ∷ [])) }
    ensures written { OnOk result
        (IsWritten (F.format format.now) (T.reported reporting.old.report.now).report.pictures
        (W.contents writer.old) (W.contents writer.new) (event ∷ [])) }
    ensures err { IfErr result (λ fault. BreaksOffFrom (F.format format.now)
        (T.reported reporting.old.report.now).report (T.reported reporting.new.report.now).report
        fault (W.contents writer.old) (W.contents writer.new) (event ∷ [])) }
    ensures size { IfPicture event
        (λ p. (F.format format.now).fits (T.reported reporting.old.report.now).report.pictures p
        ≡ false → result ≡ Err faults.Size) }
    ensures told { ReportsOn T.reported E.contents reporting.old reporting.new }
    ensures lent { LendsTheSame reporting.old reporting.new }
{
    match event {
        Event::Picture(picture) => {
            format.write(reporting.report.counts().pictures, &picture, room, writer)?;
            reporting.report.count_picture();
            reporting.watch.note_picture();
            Ok(())
        }
        Event::Refused { unit, fault } => {
            reporting.report.refuse(unit, fault, reporting.errors)?;
            reporting.watch.note_refusal(unit, fault);
            Ok(())
        }
    }
}
