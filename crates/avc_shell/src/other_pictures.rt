//! The pictures of another decoder: samples one behind another, or those of YUV4MPEG2, whose lines
//! are left out.

ghost use Rattle.std.specs.Prelude.{◌≡◌, ◌+◌, ◌-◌, ◌<◌, ◌≤◌, drop, length, take, false, true, IfOk};
ghost use Rattle.std.specs.Io.{ReadsAtMost};
ghost use Rattle.avc_shell.specs.declared.other_pictures.Place.TheVariants as places;

use crate::from_piece::copied;
use crate::y4m_header::{StatedSize, picture_len, stated_size};
use arrayvec::ArrayVec;
use avc_console::READS;
use std::io;
use std::io::{ErrorKind, Read};

/// The first bytes of YUV4MPEG2.
const SIGNATURE: &[u8] = b"YUV4MPEG2 ";

/// With which the line before a picture begins.
const PICTURE: &[u8] = b"FRAME";

/// The most bytes of a line.
const LINE: usize = 1_024;

/// Where reading is.
#[derive(Clone, Copy)]
enum Place {
    /// Before the first byte.
    Start,

    /// In samples alone: so many of those that were read first were given.
    Samples(usize),

    /// Before the line of a picture.
    Line,

    /// In a picture of which so many samples are left.
    Picture(u64),
}

/// Reads the samples of pictures, as I420, one behind another.
#[derive(Drop)]
pub struct OtherPictures<R> {
    reader: R,
    place: Place,
    // of the line that is read, or the first bytes of all
    line: ArrayVec<u8, LINE>,
    // that of the pictures, where the first line says it
    size: Option<StatedSize>,
    // how many samples a picture has
    picture_len: u64,
    is_invalid: bool,
}

impl<R> OtherPictures<R> {
    /// Of which nothing has been read.
    pub fn new(reader: R) -> OtherPictures<R>
        ensures place { result.place ≡ places.Start }
        ensures valid { result.is_invalid ≡ false }
    {
        OtherPictures {
            reader,
            place: Place::Start,
            line: ArrayVec::new(),
            size: None,
            picture_len: 0,
            is_invalid: false,
        }
    }

    /// What they are read from.
    pub fn reader(&self) -> &R {
        &self.reader
    }

    /// Whether they are YUV4MPEG2 that is not read: its samples are not 4:2:0 with 8 bits, or a
    /// line is missing.
    pub fn is_invalid(&self) -> bool
        ensures { result ≡ self.now.is_invalid }
    {
        self.is_invalid
    }

    fn refuse(&mut self) -> io::Error
        ensures { self.new.is_invalid ≡ true }
    {
        self.is_invalid = true;
        io::Error::from(ErrorKind::InvalidData)
    }
}

impl<R: Read> OtherPictures<R> {
    /// The size of the pictures, where they are YUV4MPEG2: what its first line says, which is read
    /// where nothing has been read.
    pub fn size(&mut self) -> io::Result<Option<StatedSize>>
        ensures { IfOk result (λ size. size ≡ self.new.size) }
    {
        match self.place {
            Place::Start => self.begin()?,
            Place::Samples(_) | Place::Line | Place::Picture(_) => {}
        }
        Ok(self.size)
    }

    // Reads so many bytes of a line at the most, up to its end. Answers whether it has one.
    fn read_line(&mut self, most: usize) -> io::Result<bool>
        ensures { self.new.picture_len ≡ self.old.picture_len }
    {
        let mut byte = [0];
        'bytes: for _byte in 0..most {
            if self.reader.read(&mut byte)? == 0 || byte[0] == b'\n' {
                break;
            }
            let _fits = self.line.try_push(byte[0]);
        }
        Ok(byte[0] == b'\n')
    }

    // Reads the first bytes, and where they are those of YUV4MPEG2 the line that they begin.
    fn begin(&mut self) -> io::Result<()> {
        let has_ended = self.read_line(SIGNATURE.len())?;
        if has_ended {
            let _fits = self.line.try_push(b'\n');
        }
        if self.line.as_slice() != SIGNATURE {
            self.place = Place::Samples(0);
            return Ok(());
        }
        let is_whole = self.read_line(LINE)?;
        match stated_size(self.line.as_slice()) {
            Some(size) if is_whole => {
                self.size = Some(size);
                self.picture_len = picture_len(size);
                self.place = Place::Line;
                Ok(())
            }
            _ => Err(self.refuse()),
        }
    }

    // Reads the line of the next picture. Without one all pictures were read.
    fn begin_picture(&mut self) -> io::Result<bool>
        ensures { IfOk result (λ is. is ≡ true →
            self.new.place ≡ places.Picture self.old.picture_len) }
    {
        self.line.clear();
        let is_whole = self.read_line(LINE)?;
        if self.line.is_empty() && !is_whole {
            return Ok(false);
        }
        if !is_whole || !self.line.as_slice().starts_with(PICTURE) {
            return Err(self.refuse());
        }
        self.place = Place::Picture(self.picture_len);
        Ok(true)
    }

    // Samples alone: first those that were read when it was seen what they are.
    fn read_samples(&mut self, given: usize, buf: &mut [u8]) -> io::Result<usize>
        ensures bound { ReadsAtMost result buf.new }
        ensures first { given < length self.old.line.items →
            IfOk result (λ len. take len buf.new ≡ take len (drop given self.old.line.items)) }
        ensures given { given < length self.old.line.items →
            IfOk result (λ len. self.new.place ≡ places.Samples (given + len)) }
    {
        if given >= self.line.len() {
            return self.reader.read(buf);
        }
        let len = copied(&self.line.as_slice()[given..], buf);
        self.place = Place::Samples(given + len);
        Ok(len)
    }

    // Samples of a picture of which so many are left.
    fn read_picture(&mut self, left: u64, buf: &mut [u8]) -> io::Result<usize>
        ensures bound { ReadsAtMost result buf.new }
        ensures few { IfOk result (λ len. len ≤ left) }
        ensures left { IfOk result (λ len. self.new.place ≡ places.Picture (left - len)) }
    {
        let most = buf.len().min(left as usize);
        let len = self.reader.read(&mut buf[..most])?;
        self.place = Place::Picture(left.saturating_sub(len as u64));
        Ok(len)
    }
}

impl<R: Read> Read for OtherPictures<R> {
    ghost use Rattle.std.specs.Prelude.{None};

    ghost remaining = { λ _. None };

    fn read(&mut self, buf: &mut [u8]) -> io::Result<usize> {
        'steps: for _step in 0..READS {
            match self.place {
                Place::Start => self.begin()?,
                Place::Samples(given) => return self.read_samples(given, buf),
                Place::Picture(left) if left > 0 => return self.read_picture(left, buf),
                Place::Line | Place::Picture(_) => {
                    if !self.begin_picture()? {
                        return Ok(0);
                    }
                }
            }
        }
        Err(io::Error::from(ErrorKind::Other))
    }
}
