//! The lines of standard error that tell of faults and refusals.

ghost use Rattle.std.specs.Prelude.{◌≡◌, IfErr, IfOk, OnErr, OnOk, string_bytes};
ghost use Rattle.std.specs.Io.KnownBytes.{Appends};
ghost use Rattle.avc_console.specs.Reading.{WritesFirst};
ghost use Rattle.avc_console.specs.Messages.{fault_line, fault_text, file_of, name_text};
ghost use Rattle.avc_console.specs.Messages.{no_piece_line, refusal_line};
ghost use Rattle.avc_console.specs.declared.fault.RunFault.TheVariants as faults;

use crate::console::Names;
use crate::fault::RunFault;
use arrayvec::ArrayString;
use avc_types::{Fault, OutOfMemory};
use avc_yuv::write_bytes;
use itoa::Buffer;
use std::alloc::Global;
use std::io::Write;

/// Writes the line of the standard error that tells of a fault, and of the file that it is about.
/// It asks for no memory.
pub(crate) fn write_fault<E: Write>(
    fault: RunFault,
    names: &Names<'_>,
    errors: &mut E,
) -> Result<(), RunFault>
    ensures ok { OnOk result
        (Appends (E.contents errors.old) (E.contents errors.new) (fault_line names.now fault)) }
    ensures err { OnErr result
        (WritesFirst (E.contents errors.old) (E.contents errors.new) (fault_line names.now fault)) }
{
    write_text(fault_text(fault), errors)?;
    write_name(file_of(names, fault), errors)?;
    write_text("\n", errors)
}

// What happened.
fn fault_text(fault: RunFault) -> &'static str
    ensures { result.now ≡ fault_text fault }
{
    match fault {
        RunFault::Read | RunFault::Endless => "avcdec: read fault",
        RunFault::Write => "avcdec: write fault",
        RunFault::Memory => "avcdec: out of memory",
        RunFault::Size => "avcdec: a picture of another size",
    }
}

// The name of the file to which it happened.
fn file_of<'a>(names: &Names<'a>, fault: RunFault) -> Option<&'a str>
    ensures { result ≡ file_of names.now fault }
{
    match fault {
        RunFault::Read | RunFault::Endless => names.input,
        RunFault::Write => names.output,
        RunFault::Memory | RunFault::Size => None,
    }
}

fn write_name<E: Write>(name: Option<&str>, errors: &mut E) -> Result<(), RunFault>
    ensures ok { OnOk result
        (Appends (E.contents errors.old) (E.contents errors.new) (name_text name.entry)) }
    ensures err { OnErr result
        (WritesFirst (E.contents errors.old) (E.contents errors.new) (name_text name.entry)) }
{
    match name {
        Some(name) => {
            write_text(": ", errors)?;
            write_text(name, errors)
        }
        None => Ok(()),
    }
}

/// The line of the standard error that tells of a refusal. It asks for no memory.
pub fn refusal_line(unit: u64, fault: Fault) -> ArrayString<80>
    ensures { result.bytes ≡ refusal_line (unit, fault) }
{
    let mut digits = Buffer::new();
    let mut line = ArrayString::new();
    line.push_str("refused unit ");
    line.push_str(digits.format(unit));
    line.push_str(": ");
    line.push_str(digits.format(fault.number()));
    line.push_str(" ");
    line.push_str(fault.name());
    line.push_str("\n");
    line
}

/// The line of the standard error that tells that there is no piece of this number.
pub fn no_piece_line(alloc: Global, number: u32) -> Result<String, OutOfMemory>
    ensures { IfOk result (λ text. string_bytes text ≡ no_piece_line number) }
{
    let mut text = String::new(alloc);
    writeln!(text, "avcdec: no piece {number}")?;
    Ok(text)
}

/// Writes a text.
pub fn write_text<W: Write>(text: &str, writer: &mut W) -> Result<(), RunFault>
    ensures ok { OnOk result (Appends (W.contents writer.old) (W.contents writer.new) text.now) }
    ensures err { IfErr result (λ fault. (fault ≡ faults.Write) ×
        WritesFirst (W.contents writer.old) (W.contents writer.new) text.now) }
{
    write_all(text.as_bytes(), writer)
}

/// Writes all bytes.
pub(crate) fn write_all<W: Write>(bytes: &[u8], writer: &mut W) -> Result<(), RunFault>
    ensures ok { OnOk result (Appends (W.contents writer.old) (W.contents writer.new) bytes.now) }
    ensures err { IfErr result (λ fault. (fault ≡ faults.Write) ×
        WritesFirst (W.contents writer.old) (W.contents writer.new) bytes.now) }
{
    write_bytes(bytes, 0, writer)?;
    Ok(())
}
