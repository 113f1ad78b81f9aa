//! The commands `decode --format md5` and `decode --verify`.

ghost use Rattle.std.specs.Prelude.{◌≡◌, ◌==◌, if◌then◌else◌};
ghost use Rattle.avc_console.specs.Reporting.{no_report};
ghost use Rattle.avc_console.specs.Status.{other_status};
ghost use Rattle.avc_console.specs.Telling.{TellsMore};
ghost use Rattle.avc_run.specs.Digesting.{other_text, EndsDigesting, EndsVerifying, Sums};
ghost use Rattle.avc_run.specs.Digesting.{WritesDigest};
ghost use Rattle.avc_run.specs.Reporting.{LendsTheSame, ReportsOn};
ghost use Rattle.hex.specs.Hex.{encode_lower};

use crate::decoding::run_watched;
use crate::reporting::Reporting;
use avc_console::{Console, Ending, Reporter, RunFault, Tally, Watch, tell, tell_more};
use avc_decoder::Output;
use avc_formats::{Md5Writer, PictureFormat, write_digest};
use std::alloc::Global;
use std::io::{Read, Write};

/// The command `decode --format md5`: decodes a byte stream (Annex B), writes the MD5 of all that
/// `decode` would write in this format, as `md5sum` does, and tells on the console of each refusal
/// when it comes, and of the fault that ended the run. After a fault there is no MD5.
pub fn decode_md5<F: PictureFormat, R: Read, W: Write, E: Write, V: Watch>(
    alloc: Global,
    output: Output,
    format: &F,
    reader: &mut R,
    writer: &mut W,
    console: &mut Console<'_, E, V>,
) -> Ending
    ensures { EndsDigesting console.old.names console.old.is_explained
        (F.format format.now) output (R.remaining reader.old) (R.remaining reader.new)
        (W.contents writer.old) (W.contents writer.new) (E.contents console.old.errors)
        (E.contents console.new.errors) result }
{
    let mut tally = Tally::new(console.is_explained);
    let mut reporting = Reporting {
        report: &mut tally,
        errors: &mut console.errors,
        watch: &mut console.watch,
    };
    let run = run_md5(alloc, output, format, &mut reporting, reader, writer);
    tell(run, &tally, &console.names, &mut console.errors)
}

/// The command `decode --verify`: decodes a byte stream (Annex B), compares the MD5 of all that
/// `decode` would write in this format, and tells on the console of each refusal when it comes, and
/// of the fault that ended the run, or else, where it is another one, which MD5 it is. The status
/// is 1 then.
pub fn verify<F: PictureFormat, R: Read, E: Write, V: Watch>(
    alloc: Global,
    output: Output,
    format: &F,
    expected: [u8; 16],
    reader: &mut R,
    console: &mut Console<'_, E, V>,
) -> Ending
    ensures { EndsVerifying console.old.names console.old.is_explained (F.format format.now) output
        expected (R.remaining reader.old) (R.remaining reader.new) (E.contents console.old.errors)
        (E.contents console.new.errors) result }
{
    let mut tally = Tally::new(console.is_explained);
    let mut reporting = Reporting {
        report: &mut tally,
        errors: &mut console.errors,
        watch: &mut console.watch,
    };
    let (run, digest) = sum(alloc, output, format, &mut reporting, reader);
    let decoded = tell(run, &tally, &console.names, &mut console.errors);
    end_compared(run, digest, expected, decoded, &mut console.errors)
}

// How it ends after the digest was compared with the one that is expected, after a run that ended
// so.
fn end_compared<E: Write>(
    run: Result<(), RunFault>,
    digest: [u8; 16],
    expected: [u8; 16],
    decoded: Ending,
    errors: &mut E,
) -> Ending
    ensures same { digest ≡ expected → (result ≡ decoded)
        × (E.contents errors.new ≡ E.contents errors.old) }
    ensures status { (digest ≡ expected → ⊥) → result.status ≡ other_status decoded.status }
    ensures told { (digest ≡ expected → ⊥) → TellsMore decoded.told (E.contents errors.old)
        (E.contents errors.new) (other_text run digest) result.told }
{
    if digest == expected {
        decoded
    } else {
        end_other(run, digest, decoded, errors)
    }
}

// How it ends where the digest is another one, after a run that ended so.
fn end_other<E: Write>(
    run: Result<(), RunFault>,
    digest: [u8; 16],
    decoded: Ending,
    errors: &mut E,
) -> Ending
    ensures status { result.status ≡ other_status decoded.status }
    ensures told { TellsMore decoded.told (E.contents errors.old) (E.contents errors.new)
        (other_text run digest) result.told }
{
    Ending {
        status: other_status(decoded.status),
        told: tell_other(run, digest, decoded.told, errors),
    }
}

// The exit status where the digest is another one, by that of the run.
fn other_status(status: u8) -> u8
    ensures { result ≡ other_status status }
{
    if status == 0 { 1 } else { status }
}

// Tells of another digest, behind what was told before, where no fault ended the run.
fn tell_other<E: Write>(
    run: Result<(), RunFault>,
    digest: [u8; 16],
    is_told: bool,
    errors: &mut E,
) -> bool
    ensures { TellsMore is_told (E.contents errors.old) (E.contents errors.new)
        (other_text run digest) result }
{
    match run {
        Ok(()) => {
            let begun = tell_more(is_told, "avcdec: the MD5 is ".as_bytes(), errors);
            let named = tell_more(begun, &hex_digits(digest), errors);
            tell_more(named, "\n".as_bytes(), errors)
        }
        Err(_) => is_told,
    }
}

// In hex digits.
fn hex_digits(digest: [u8; 16]) -> [u8; 32]
    ensures { result ≡ encode_lower digest }
{
    let mut digits = [0; 32];
    let _ = hex::encode_to_slice(digest, &mut digits);
    digits
}

// Decodes, and writes the digest.
fn run_md5<F: PictureFormat, T: Reporter, E: Write, V: Watch, R: Read, W: Write>(
    alloc: Global,
    output: Output,
    format: &F,
    reporting: &mut Reporting<'_, '_, '_, T, E, V>,
    reader: &mut R,
    writer: &mut W,
) -> Result<(), RunFault>
    requires { (T.reported reporting.old.report.now).report ≡ no_report }
    ensures writes { WritesDigest (F.format format.now) output (R.remaining reader.old)
        (R.remaining reader.new) (W.contents writer.old) (W.contents writer.new)
        (T.reported reporting.new.report.now).report result }
    ensures told { ReportsOn T.reported E.contents reporting.old reporting.new }
    ensures lent { LendsTheSame reporting.old reporting.new }
{
    let (run, digest) = sum(alloc, output, format, reporting, reader);
    run?;
    write_digest(alloc, digest, writer)
}

// The run, and the digest of what it would have written.
fn sum<F: PictureFormat, T: Reporter, E: Write, V: Watch, R: Read>(
    alloc: Global,
    output: Output,
    format: &F,
    reporting: &mut Reporting<'_, '_, '_, T, E, V>,
    reader: &mut R,
) -> (Result<(), RunFault>, [u8; 16])
    requires { (T.reported reporting.old.report.now).report ≡ no_report }
    ensures sums { Sums (F.format format.now) output (R.remaining reader.old)
        (R.remaining reader.new) (T.reported reporting.new.report.now).report result.0 result.1 }
    ensures told { ReportsOn T.reported E.contents reporting.old reporting.new }
    ensures lent { LendsTheSame reporting.old reporting.new }
{
    let mut writer = Md5Writer::new();
    let run = run_watched(alloc, output, format, reporting, reader, &mut writer);
    (run, writer.digest())
}
