//! A writer that takes few bytes at once, and not all.

use std::io;
use std::io::{ErrorKind, Write};

/// How a writer answers when it takes no more.
#[derive(Clone, Copy)]
pub(crate) enum Refusal {
    Error,
    Zero,
}

/// Takes at most `piece` bytes a call and `room` in all.
#[derive(Drop)]
pub(crate) struct LimitedWriter {
    pub piece: usize,
    pub room: usize,
    pub refusal: Refusal,

    /// How many of the bytes are 128.
    pub grey: usize,

    /// How many calls took bytes.
    pub calls: usize,
}

impl Write for LimitedWriter {
    fn write(&mut self, buf: &[u8]) -> io::Result<usize> {
        let taken = buf.len().min(self.piece).min(self.room);
        if taken == 0 {
            return match self.refusal {
                Refusal::Error => Err(ErrorKind::BrokenPipe.into()),
                Refusal::Zero => Ok(0),
            };
        }
        self.room -= taken;
        self.calls = self.calls.saturating_add(1);
        self.grey = self.grey.saturating_add(
            buf[..taken].iter().filter(|sample| **sample == 128).count(),
        );
        Ok(taken)
    }

    fn flush(&mut self) -> io::Result<()> {
        Ok(())
    }
}
