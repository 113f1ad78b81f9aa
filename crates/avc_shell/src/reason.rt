//! Why a file could not be read or written, in words.

ghost use Rattle.std.specs.Prelude.{◌≡◌, ◌++◌, ◌∷◌, [], codes, IfOk, OnOk, string_bytes};
ghost use Rattle.avc_shell.specs.Reasons.{reason_line, reason_of};

use std::alloc::{AllocError, Global};
use std::io::ErrorKind;

/// The line that says why the file of this name could not be read or written.
pub fn reason_line(alloc: Global, name: &str, kind: ErrorKind) -> Result<String, AllocError>
    ensures { IfOk result (λ line. string_bytes line ≡ reason_line name.now (reason_of kind)) }
{
    let mut line = String::from_str(alloc, "avcdec: ")?;
    add_reason(&mut line, name, reason_of(kind))?;
    Ok(line)
}

// The file's name and why, up to the line's end.
fn add_reason(line: &mut String, name: &str, reason: &str) -> Result<(), AllocError>
    ensures { OnOk result (string_bytes line.new
        ≡ string_bytes line.old ++ (name.now ++ (codes ": " ++ (reason.now ++ 10 ∷ [])))) }
{
    line.push_str(name)?;
    line.push_str(": ")?;
    line.push_str(reason)?;
    line.push_str("\n")
}

// In words, by what the system answered.
fn reason_of(kind: ErrorKind) -> &'static str
    ensures { result.now ≡ reason_of kind }
{
    match kind {
        ErrorKind::NotFound => "there is no such file",
        ErrorKind::PermissionDenied => "there is no permission",
        ErrorKind::IsADirectory => "it is a folder",
        ErrorKind::NotADirectory => "a part of its name is no folder",
        ErrorKind::StorageFull => "there is no space left",
        ErrorKind::QuotaExceeded => "no more space is allowed",
        ErrorKind::FileTooLarge => "it is too large",
        ErrorKind::ReadOnlyFilesystem => "nothing can be written there",
        ErrorKind::InvalidFilename => "its name is too long",
        ErrorKind::FilesystemLoop => "its links lead in a circle",
        ErrorKind::InvalidData =>
            "it is YUV4MPEG2 whose samples are not 4:2:0 with 8 bits, or which is not whole",
        _ => "the system refuses it",
    }
}
