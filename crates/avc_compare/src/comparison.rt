//! A stream beside the other's pictures.

ghost use Rattle.std.specs.Prelude.{◌≡◌};
ghost use Rattle.avc_types.specs.Whole.{IsWhole};
ghost use Rattle.avc_console.specs.Reporting.{no_report, TellsOn};
ghost use Rattle.avc_events.specs.EventReports.{IfPicture};
ghost use Rattle.avc_compare.specs.Comparing.{Compares};
ghost use Rattle.avc_compare.specs.Reporting.{LendsTheSame, ReportsOn};
ghost use Rattle.avc_compare.specs.Running.{stand, ComparesEvent, EndsAll, FindsBehind};

use crate::ahead::Ahead;
use crate::displaced::DisplacedPictures;
use crate::looking::seek_displaced;
use crate::picture::compare_picture;
use crate::reporting::Reporting;
use crate::samples::{Samples, read_other};
use crate::stream::{Stream, next_of};
use crate::verdict::{CompareFault, PictureSize, Verdict};
use avc_console::{MAX_UNIT, PIECE, Reporter, RunFault};
use avc_decoder::laws::events_only_grow;
use avc_decoder::{Decoder, Event, Output};
use avc_plane::SharedPicture;
use std::alloc::Global;
use std::io::{Read, Write};

/// How a stream is compared.
#[derive(Clone, Copy)]
pub struct Comparison {
    /// When pictures go out.
    pub output: Output,

    /// Samples that are at most so far apart are the same.
    pub most: u8,

    /// Whether a line is written on how near each picture is that is compared.
    pub has_psnr: bool,

    /// The size of the other's pictures, where their file says it.
    pub size: Option<PictureSize>,
}

/// How a stream is compared, and where memory for that comes from.
#[derive(Clone, Copy)]
pub(crate) struct Setting {
    pub(crate) alloc: Global,
    pub(crate) how: Comparison,
}

/// What a comparison found.
#[derive(Drop)]
pub struct Findings {
    pub verdict: Verdict,

    /// Which of the other's pictures, from the first that differs on, are ours of another number;
    /// or the fault that came while they were sought.
    pub displaced: Result<DisplacedPictures, CompareFault>,
}

/// The most events of one comparison, and so many behind the first picture that differs.
pub(crate) const EVENTS: u64 = 4_294_967_296;

/// Compares the pictures of a byte stream (Annex B) with another decoder's, which are I420, one
/// behind another, to the first that differs. Of the other's pictures from that one on, and at most
/// 16 behind it, it then finds those that are ours of another number among as many. Each refusal is
/// reported as it comes, and the line on a picture is written once it was read of both, if that is
/// wanted: to the end of one of both. Neither is read further than that needs, and of each one
/// picture is held at a time.
pub fn run_comparison<T: Reporter, E: Write, R: Read, O: Read, W: Write>(
    alloc: Global,
    how: Comparison,
    report: &mut T,
    errors: &mut E,
    reader: &mut R,
    other: &mut O,
    writer: &mut W,
) -> Result<Findings, CompareFault>
    requires { (T.reported report.old).report ≡ no_report }
    ensures compares { Compares how (R.remaining reader.old) (R.remaining reader.new)
        (O.remaining other.old) (O.remaining other.new) (W.contents writer.old)
        (W.contents writer.new) (T.reported report.new).report result }
    ensures told { TellsOn (T.reported report.old) (T.reported report.new)
        (E.contents errors.old) (E.contents errors.new) }
{
    let setting = Setting { alloc, how };
    let mut reporting = Reporting { report, errors };
    compare_events(setting, &mut reporting, reader, other, writer)
}

// Compares event after event, and seeks behind the first picture that differs.
fn compare_events<T: Reporter, E: Write, R: Read, O: Read, W: Write>(
    setting: Setting,
    reporting: &mut Reporting<'_, '_, T, E>,
    reader: &mut R,
    other: &mut O,
    writer: &mut W,
) -> Result<Findings, CompareFault>
    requires { (T.reported reporting.old.report.now).report ≡ no_report }
    ensures compares { Compares setting.how (R.remaining reader.old) (R.remaining reader.new)
        (O.remaining other.old) (O.remaining other.new) (W.contents writer.old)
        (W.contents writer.new) (T.reported reporting.new.report.now).report result }
    ensures told { ReportsOn T.reported E.contents reporting.old reporting.new }
    ensures lent { LendsTheSame reporting.old reporting.new }
{
    events_only_grow();
    let alloc = setting.alloc;
    let decoder = Decoder::<MAX_UNIT, SharedPicture>::sharing(alloc, setting.how.output);
    let ahead = Ahead::new(alloc, PIECE)?;
    let mut stream = Stream { decoder, ahead };
    let mut samples = Samples::new(alloc)?;
    'events: for _event in 0..EVENTS {
        match next_of(&mut stream.decoder, &mut stream.ahead, reader)? {
            Some(event) => {
                let ended = compare_event(setting, event, &mut samples, reporting, other, writer)?;
                if let Some(verdict) = ended {
                    // looking on has its own
                    drop(samples);
                    return Ok(find_behind(
                        setting,
                        verdict,
                        &mut stream,
                        reporting,
                        reader,
                        other,
                        writer,
                    ));
                }
            }
            None => {
                let verdict = end(reporting.report.counts().pictures, other)?;
                return Ok(Findings {
                    verdict,
                    displaced: Ok(DisplacedPictures::new(alloc)),
                });
            }
        }
    }
    Err(CompareFault::Ours(RunFault::Endless))
}

// Seeks the other's pictures among ours, where a picture differs.
fn find_behind<T: Reporter, E: Write, R: Read, O: Read, W: Write>(
    setting: Setting,
    verdict: Verdict,
    stream: &mut Stream,
    reporting: &mut Reporting<'_, '_, T, E>,
    reader: &mut R,
    other: &mut O,
    writer: &mut W,
) -> Findings
    ensures same { result.verdict ≡ verdict }
    ensures finds { FindsBehind setting.how verdict
        (stand (R.remaining reader.old) (O.remaining other.old) (W.contents writer.old)
        stream.old.decoder stream.old.ahead (T.reported reporting.old.report.now).report)
        (stand (R.remaining reader.new) (O.remaining other.new) (W.contents writer.new)
        stream.new.decoder stream.new.ahead (T.reported reporting.new.report.now).report)
        result.displaced }
    ensures told { ReportsOn T.reported E.contents reporting.old reporting.new }
    ensures lent { LendsTheSame reporting.old reporting.new }
{
    let displaced = displaced_behind(setting, &verdict, stream, reporting, reader, other, writer);
    Findings { verdict, displaced }
}

fn displaced_behind<T: Reporter, E: Write, R: Read, O: Read, W: Write>(
    setting: Setting,
    verdict: &Verdict,
    stream: &mut Stream,
    reporting: &mut Reporting<'_, '_, T, E>,
    reader: &mut R,
    other: &mut O,
    writer: &mut W,
) -> Result<DisplacedPictures, CompareFault>
    ensures finds { FindsBehind setting.how verdict.now
        (stand (R.remaining reader.old) (O.remaining other.old) (W.contents writer.old)
        stream.old.decoder stream.old.ahead (T.reported reporting.old.report.now).report)
        (stand (R.remaining reader.new) (O.remaining other.new) (W.contents writer.new)
        stream.new.decoder stream.new.ahead (T.reported reporting.new.report.now).report) result }
    ensures told { ReportsOn T.reported E.contents reporting.old reporting.new }
    ensures lent { LendsTheSame reporting.old reporting.new }
{
    match verdict {
        Verdict::Differs(differing) => seek_displaced(
            setting, differing, stream, reporting, reader, other, writer,
        ),
        Verdict::Same | Verdict::Fewer(_) | Verdict::More(_) | Verdict::OtherSize(_) => {
            Ok(DisplacedPictures::new(setting.alloc))
        }
    }
}

// Compares a picture, or reports a refusal. Answers None where the comparison goes on.
fn compare_event<T: Reporter, E: Write, O: Read, W: Write>(
    setting: Setting,
    event: Event<SharedPicture>,
    samples: &mut Samples,
    reporting: &mut Reporting<'_, '_, T, E>,
    other: &mut O,
    writer: &mut W,
) -> Result<Option<Verdict>, CompareFault>
    requires { IfPicture event IsWhole }
    ensures compares { ComparesEvent setting.how event (O.remaining other.old)
        (O.remaining other.new) (W.contents writer.old)
        (W.contents writer.new) (T.reported reporting.old.report.now).report
        (T.reported reporting.new.report.now).report result }
    ensures told { ReportsOn T.reported E.contents reporting.old reporting.new }
    ensures lent { LendsTheSame reporting.old reporting.new }
{
    match event {
        Event::Picture(picture) => {
            let number = reporting.report.counts().pictures;
            match compare_picture(setting, number, &picture, samples, other, writer)? {
                Some(verdict) => Ok(Some(verdict)),
                None => {
                    reporting.report.count_picture();
                    Ok(None)
                }
            }
        }
        Event::Refused { unit, fault } => {
            reporting.report.refuse(unit, fault, reporting.errors)?;
            Ok(None)
        }
    }
}

// Behind all of so many pictures: whether the other has more bytes.
fn end<O: Read>(number: u64, other: &mut O) -> Result<Verdict, CompareFault>
    ensures { EndsAll number (O.remaining other.old) (O.remaining other.new) result }
{
    let mut next = [0];
    if read_other(&mut next, other)? == 0 {
        Ok(Verdict::Same)
    } else {
        Ok(Verdict::More(number))
    }
}
