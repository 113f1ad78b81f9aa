//! Containers and pictures, by their first bytes.

ghost use Rattle.std.specs.Prelude.{◌≡◌};
ghost use Rattle.avc_container.specs.Containers.{container_of, has_at, has_signature};

/// A file that holds video in a form of its own, or a picture.
#[derive(Clone, Copy)]
pub enum Container {
    Mp4,

    /// Or WebM.
    Matroska,

    /// An MPEG transport stream.
    MpegTs,

    Flv,

    Avi,

    Ivf,

    /// YUV4MPEG2: pictures that are decoded.
    Y4m,

    Jpeg,

    Png,
}

/// Which container or picture a file is that begins with these bytes; 189 of them are enough.
pub fn container_of(first: &[u8]) -> Option<Container>
    ensures { result ≡ container_of first.now }
{
    if has_signature(Container::Mp4, first) {
        return Some(Container::Mp4);
    }
    if has_signature(Container::Matroska, first) {
        return Some(Container::Matroska);
    }
    if has_signature(Container::MpegTs, first) {
        return Some(Container::MpegTs);
    }
    if has_signature(Container::Flv, first) {
        return Some(Container::Flv);
    }
    if has_signature(Container::Avi, first) {
        return Some(Container::Avi);
    }
    if has_signature(Container::Ivf, first) {
        return Some(Container::Ivf);
    }
    if has_signature(Container::Y4m, first) {
        return Some(Container::Y4m);
    }
    if has_signature(Container::Jpeg, first) {
        return Some(Container::Jpeg);
    }
    if has_signature(Container::Png, first) {
        return Some(Container::Png);
    }
    None
}

// Whether it begins as this one.
fn has_signature(container: Container, first: &[u8]) -> bool
    ensures { result ≡ has_signature container first.now }
{
    match container {
        Container::Mp4 => has_at(first, 4, b"ftyp"),
        Container::Matroska => has_at(first, 0, &[0x1A, 0x45, 0xDF, 0xA3]),
        Container::MpegTs => has_at(first, 0, &[0x47]) && has_at(first, 188, &[0x47]),
        Container::Flv => has_at(first, 0, b"FLV"),
        Container::Avi => has_at(first, 0, b"RIFF") && has_at(first, 8, b"AVI "),
        Container::Ivf => has_at(first, 0, b"DKIF"),
        Container::Y4m => has_at(first, 0, b"YUV4MPEG2"),
        Container::Jpeg => has_at(first, 0, &[0xFF, 0xD8, 0xFF]),
        Container::Png => has_at(first, 0, b"\x89PNG\r\n\x1A\n"),
    }
}

/// Whether these bytes stand at this place.
pub(crate) fn has_at(first: &[u8], place: usize, bytes: &[u8]) -> bool
    ensures { result ≡ has_at first.now place bytes.now }
{
    let rest: &[u8] = if place < first.len() {
        &first[place..]
    } else {
        &[]
    };
    rest.starts_with(bytes)
}
