//! A stream beside the other's pictures, behind the first picture that differs.

ghost use Rattle.std.specs.Prelude.{◌≡◌, IfErr, IfOk};
ghost use Rattle.avc_types.specs.Whole.{IsWhole};
ghost use Rattle.avc_events.specs.EventReports.{IfPicture};
ghost use Rattle.avc_compare.specs.Reporting.{LendsTheSame, ReportsOn};
ghost use Rattle.avc_compare.specs.Running.{is_enough, stand, LooksAtEvent, LooksOn, Seeks};

use crate::comparison::{Comparison, EVENTS, Setting};
use crate::digests::{Digests, MOST_SOUGHT};
use crate::displaced::{DisplacedPictures, find_displaced};
use crate::picture::look_at_picture;
use crate::reporting::Reporting;
use crate::samples::Samples;
use crate::stream::{Stream, next_of};
use crate::verdict::{CompareFault, Differing};
use avc_console::{Reporter, RunFault};
use avc_decoder::Event;
use avc_decoder::laws::events_only_grow;
use avc_plane::SharedPicture;
use std::io::{Read, Write};

/// Which of the other's pictures from the first that differs on, which is counted here, are ours of
/// another number.
pub(crate) fn seek_displaced<T: Reporter, E: Write, R: Read, O: Read, W: Write>(
    setting: Setting,
    differing: &Differing,
    stream: &mut Stream,
    reporting: &mut Reporting<'_, '_, T, E>,
    reader: &mut R,
    other: &mut O,
    writer: &mut W,
) -> Result<DisplacedPictures, CompareFault>
    ensures seeks { Seeks setting.how differing.now
        (stand (R.remaining reader.old) (O.remaining other.old) (W.contents writer.old)
        stream.old.decoder stream.old.ahead (T.reported reporting.old.report.now).report)
        (stand (R.remaining reader.new) (O.remaining other.new) (W.contents writer.new)
        stream.new.decoder stream.new.ahead (T.reported reporting.new.report.now).report) result }
    ensures told { ReportsOn T.reported E.contents reporting.old reporting.new }
    ensures lent { LendsTheSame reporting.old reporting.new }
{
    reporting.report.count_picture();
    let digests = look_on(setting, differing, stream, reporting, reader, other, writer)?;
    Ok(find_displaced(setting.alloc, differing.picture.number, &digests)?)
}

/// Looks at the pictures behind this one, the first that differs, beside the other's next bytes: at
/// 16, or where lines are told on each at all, to the end of one of both. Each refusal is reported
/// as it comes.
fn look_on<T: Reporter, E: Write, R: Read, O: Read, W: Write>(
    setting: Setting,
    differing: &Differing,
    stream: &mut Stream,
    reporting: &mut Reporting<'_, '_, T, E>,
    reader: &mut R,
    other: &mut O,
    writer: &mut W,
) -> Result<Digests, CompareFault>
    ensures looks { LooksOn setting.how differing.now.our_digest differing.now.their_digest
        (stand (R.remaining reader.old) (O.remaining other.old) (W.contents writer.old)
        stream.old.decoder stream.old.ahead (T.reported reporting.old.report.now).report)
        (stand (R.remaining reader.new) (O.remaining other.new) (W.contents writer.new)
        stream.new.decoder stream.new.ahead (T.reported reporting.new.report.now).report) result }
    ensures told { ReportsOn T.reported E.contents reporting.old reporting.new }
    ensures lent { LendsTheSame reporting.old reporting.new }
{
    events_only_grow();
    let alloc = setting.alloc;
    let mut digests = Digests::of_both(alloc, differing.our_digest, differing.their_digest)?;
    let mut samples = Samples::new(alloc)?;
    'events: for _event in 0..EVENTS {
        if is_enough(setting.how, digests.ours().len()) {
            return Ok(digests);
        }
        match next_of(&mut stream.decoder, &mut stream.ahead, reader)? {
            Some(event) => {
                let more = look_at_event(
                    setting,
                    event,
                    &mut samples,
                    &mut digests,
                    reporting,
                    other,
                    writer,
                )?;
                if !more {
                    return Ok(digests);
                }
            }
            None => return Ok(digests),
        }
    }
    Err(CompareFault::Ours(RunFault::Endless))
}

// Whether no more is looked at than so many pictures.
fn is_enough(how: Comparison, count: usize) -> bool
    ensures { result ≡ is_enough how count }
{
    !how.has_psnr && count >= MOST_SOUGHT
}

// Looks at a picture, or reports a refusal. Answers whether looking goes on.
fn look_at_event<T: Reporter, E: Write, O: Read, W: Write>(
    setting: Setting,
    event: Event<SharedPicture>,
    samples: &mut Samples,
    digests: &mut Digests,
    reporting: &mut Reporting<'_, '_, T, E>,
    other: &mut O,
    writer: &mut W,
) -> Result<bool, CompareFault>
    requires { IfPicture event IsWhole }
    ensures looks { LooksAtEvent setting.how event (O.remaining other.old) (O.remaining other.new)
        (W.contents writer.old) (W.contents writer.new) (T.reported reporting.old.report.now).report
        (T.reported reporting.new.report.now).report digests.old digests.new result }
    ensures told { ReportsOn T.reported E.contents reporting.old reporting.new }
    ensures lent { LendsTheSame reporting.old reporting.new }
{
    match event {
        Event::Picture(picture) => {
            let number = reporting.report.counts().pictures;
            if look_at_picture(setting, number, &picture, samples, digests, other, writer)? {
                reporting.report.count_picture();
                Ok(true)
            } else {
                Ok(false)
            }
        }
        Event::Refused { unit, fault } => {
            reporting.report.refuse(unit, fault, reporting.errors)?;
            Ok(true)
        }
    }
}
