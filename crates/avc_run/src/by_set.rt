//! The command `decode` in a format with a head, which the first sequence parameter set decides.

ghost use Rattle.std.specs.Prelude.{◌≡◌};
ghost use Rattle.avc_console.specs.Reporting.{no_report};
ghost use Rattle.avc_run.specs.BySet.{selected_by, Decodes, EndsDecodingBySet};
ghost use Rattle.avc_run.specs.Reporting.{LendsTheSame, ReportsOn};

use crate::decoding::run_behind;
use crate::reporting::Reporting;
use avc_console::{Console, Ending, Reporter, RunFault, Tally, Watch, tell};
use avc_decoder::Output;
use avc_formats::{Headed, HeadedFormat, Selected, read_front};
use std::alloc::Global;
use std::io::{Read, Write};

/// The command `decode --format y4m`, or `framemd5`: decodes a byte stream (Annex B) and writes all
/// but the first pictures, and of these so many at most, in a format with a head, and tells on the
/// console of each refusal when it comes, and of the fault that ended the run. The head says what
/// the sequence parameter set says of the first slice that is decoded.
pub fn decode_headed<R: Read, W: Write, E: Write, V: Watch>(
    alloc: Global,
    output: Output,
    asked: Selected<HeadedFormat>,
    reader: &mut R,
    writer: &mut W,
    console: &mut Console<'_, E, V>,
) -> Ending
    ensures { EndsDecodingBySet console.old.names console.old.is_explained
        (selected_by asked) output (R.remaining reader.old) (R.remaining reader.new)
        (W.contents writer.old) (W.contents writer.new) (E.contents console.old.errors)
        (E.contents console.new.errors) result }
{
    let mut tally = Tally::new(console.is_explained);
    let mut reporting = Reporting {
        report: &mut tally,
        errors: &mut console.errors,
        watch: &mut console.watch,
    };
    let run = run_headed(alloc, output, asked, &mut reporting, reader, writer);
    tell(run, &tally, &console.names, &mut console.errors)
}

fn run_headed<T: Reporter, E: Write, V: Watch, R: Read, W: Write>(
    alloc: Global,
    output: Output,
    asked: Selected<HeadedFormat>,
    reporting: &mut Reporting<'_, '_, '_, T, E, V>,
    reader: &mut R,
    writer: &mut W,
) -> Result<(), RunFault>
    requires { (T.reported reporting.old.report.now).report ≡ no_report }
    ensures decodes { Decodes (selected_by asked) output (R.remaining reader.old)
        (R.remaining reader.new) (W.contents writer.old) (W.contents writer.new)
        (T.reported reporting.new.report.now).report result }
    ensures told { ReportsOn T.reported E.contents reporting.old reporting.new }
    ensures lent { LendsTheSame reporting.old reporting.new }
{
    let front = read_front(alloc, reader)?;
    let selected = Selected {
        format: Headed {
            alloc,
            format: asked.format,
            said: front.said,
        },
        skip: asked.skip,
        limit: asked.limit,
    };
    run_behind(
        alloc,
        output,
        &selected,
        reporting,
        front.bytes.as_slice(),
        reader,
        writer,
    )
}
