//! A writer that keeps the MD5 of its bytes alone (RFC 1321).

ghost use Rattle.std.specs.Prelude.{◌≡◌, []};
ghost use Rattle.md5.specs.Md5.{md5};

use avc_types::History;
use md5::{Digest, Md5};
use std::io;
use std::io::Write;
use std::marker::Model;

/// A writer that keeps of its bytes the digest alone. A contract sees the bytes.
#[derive(Drop)]
pub struct Md5Writer {
    hasher: Md5,
    bytes: History<u8>,
}

impl Model for Md5Writer {
    ghost use Rattle.std.specs.Prelude.{List, ℕ};
    ghost use Rattle.md5.specs.Md5.{Holds};

    ghost Value = { List ℕ };

    ghost view = { λ w. w.bytes.items };

    ghost invariant = { λ w. Holds w.hasher w.bytes.items };
}

impl Md5Writer {
    /// Of no bytes yet.
    pub fn new() -> Md5Writer
        ensures { result ≡ [] }
    {
        Md5Writer {
            hasher: Md5::new(),
            bytes: History::new(),
        }
    }

    /// The digest (RFC 1321) of all bytes.
    pub fn digest(self) -> [u8; 16]
        ensures { result ≡ md5 self }
    {
        self.hasher.finalize()
    }
}

impl Write for Md5Writer {
    ghost use Rattle.std.specs.Prelude.{Some};

    ghost contents = { λ w. Some w };

    fn write(&mut self, buf: &[u8]) -> io::Result<usize> {
        self.hasher.update(buf);
        self.bytes = self.bytes.with_all(buf);
        Ok(buf.len())
    }

    fn flush(&mut self) -> io::Result<()> {
        Ok(())
    }
}
