//! What a file is, by the end of its name.

ghost use Rattle.avc_request.specs.FileKinds.{IsKind};

use std::alloc::{AllocError, Global};

/// What a file is, by its name.
#[derive(Clone, Copy)]
pub(crate) enum FileKind {
    /// YUV4MPEG2.
    Y4m,

    /// A picture as PNG.
    Png,

    /// A container, or a picture of another format, as no command writes.
    Container,

    Other,
}

/// By what stands behind the last point of its name, in capitals or small letters.
pub(crate) fn file_kind(alloc: Global, name: &str) -> Result<FileKind, AllocError> {
    let lower = name.to_ascii_lowercase(alloc)?;
    match lower.as_str().rsplit_once('.') {
        Some((_, extension)) => Ok(kind_named(extension)),
        None => Ok(FileKind::Other),
    }
}

// By that, in small letters.
fn kind_named(extension: &str) -> FileKind
    ensures { IsKind extension.now result }
{
    match extension {
        "y4m" => FileKind::Y4m,
        "png" => FileKind::Png,
        "mp4" | "m4v" | "mov" | "mkv" | "webm" | "ts" | "flv" | "avi" | "ivf" | "jpg" | "jpeg" =>
            FileKind::Container,
        _ => FileKind::Other,
    }
}
