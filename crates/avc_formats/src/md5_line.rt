//! The line that `md5sum` writes of a digest.

ghost use Rattle.std.specs.Prelude.{◌≡◌, true, IfErr, IfOk, OnOk, string_bytes};
ghost use Rattle.std.specs.Io.KnownBytes.{Appends};
ghost use Rattle.avc_console.specs.declared.fault.RunFault.TheVariants as faults;
ghost use Rattle.avc_formats.specs.Formats.{StopsPicture};
ghost use Rattle.avc_formats.specs.Md5Line.{digest_line};

use avc_console::{RunFault, write_text};
use std::alloc::Global;
use std::io::Write;

/// Writes a digest as `md5sum` writes that of its standard input.
pub fn write_digest<W: Write>(
    alloc: Global,
    digest: [u8; 16],
    writer: &mut W,
) -> Result<(), RunFault>
    ensures ok { OnOk result
        (Appends (W.contents writer.old) (W.contents writer.new) (digest_line digest)) }
    ensures err { IfErr result
        (λ fault. StopsPicture fault true (W.contents writer.old) (W.contents writer.new)
        (digest_line digest)) }
{
    let line = line_of(alloc, digest)?;
    write_text(&line, writer)
}

fn line_of(alloc: Global, digest: [u8; 16]) -> Result<String, RunFault>
    ensures ok { IfOk result (λ line. string_bytes line ≡ digest_line digest) }
    ensures err { IfErr result (λ fault. fault ≡ faults.Memory) }
{
    let mut line = hex::encode(alloc, &digest)?;
    line.push_str("  -\n")?;
    Ok(line)
}
