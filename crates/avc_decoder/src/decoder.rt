//! The decoder's public calls.

ghost use Rattle.std.specs.Prelude.{◌≡◌};
ghost use Rattle.avc_decoder.specs.Machine.{after_feed, after_flush, new_machine};
ghost use Rattle.avc_decoder.specs.Machine.{IsCount, IsFeedAnswer, IsFeedUnitAnswer, IsTakeAnswer};
ghost use Rattle.avc_decoder.specs.Machine.{IsUnitCount};
ghost use Rattle.avc_decoder.specs.OpenPictures.{IsOpenPictureAnswer};
ghost use Rattle.avc_decoder.specs.SeenEvents.{seen_answer};

use crate::error::DecodeError;
use crate::event::Event;
use crate::open_picture::OpenPicture;
use crate::parts::{
    Parts, check, feed, feed_unit, finish, lent_picture, stop_at_refusal, take_event, units_begun,
};
use avc_decoder_core::Output;
use avc_plane::{OutputPicture, SharedPicture};
use avc_types::{History, OutOfMemory, Picture};
use std::alloc::Global;
use std::marker::Model;

/// A decoder of one byte stream (Annex B), in whatever pieces its bytes come. `MAX` is the most
/// bytes of a unit. `P` is the kind of picture that it hands out: `Picture` in memory of its own,
/// or `SharedPicture`, which is shared with the decoder as long as it predicts from it.
#[derive(Drop)]
pub struct Decoder<const MAX: usize, P: OutputPicture = Picture> {
    alloc: Global,
    output: Output,
    // or what a call was refused
    running: Result<Parts<MAX, P>, OutOfMemory>,
    // how many macroblocks were read when a call was last carried out
    read: u64,
    ended: bool,
    bytes: History<u8>,
    taken: History<Event<P>>,
}

impl<const MAX: usize, P: OutputPicture> Model for Decoder<MAX, P> {
    ghost use Rattle.std.specs.Prelude.{is_err, length};
    ghost use Rattle.avc_decoder.specs.States.{IsDecoderState};
    ghost use Rattle.avc_decoder.specs.Machine.{Machine};

    ghost Value = { Machine };

    ghost view = { λ d. record {
      output = d.output;
      bytes = d.bytes.items;
      ended = d.ended;
      taken = length d.taken.items;
      failed = is_err d.running;
    } };

    ghost invariant = { λ d.
        let m : Machine = record { output = d.output; bytes = d.bytes.items; ended = d.ended; taken = length d.taken.items; failed = is_err d.running } in
        IsDecoderState MAX m d.running d.read };
}

impl<const MAX: usize> Decoder<MAX> {
    /// At the start of a stream. `output` says when pictures go out, also after a reset. A picture
    /// is handed out in memory of its own.
    pub fn new(alloc: Global, output: Output) -> Self
        ensures { result ≡ new_machine output }
    {
        Decoder::at_start(alloc, output)
    }

    /// The next event that the bytes so far define, if there is one.
    pub fn take(&mut self) -> Result<Option<Event>, DecodeError>
        ensures { IsTakeAnswer MAX self.old result self.new }
    {
        self.take_any()
    }
}

impl<const MAX: usize> Decoder<MAX, SharedPicture> {
    /// At the start of a stream. `output` says when pictures go out, also after a reset. A picture
    /// that is handed out is shared with the decoder, and not copied.
    pub fn sharing(alloc: Global, output: Output) -> Self
        ensures { result ≡ new_machine output }
    {
        Decoder::at_start(alloc, output)
    }

    /// The next event that the bytes so far define, if there is one.
    pub fn take(&mut self) -> Result<Option<Event<SharedPicture>>, DecodeError>
        ensures { IsTakeAnswer MAX self.old result self.new }
    {
        self.take_any()
    }
}

impl<const MAX: usize, P: OutputPicture> Decoder<MAX, P> {
    /// At the start of a stream.
    fn at_start(alloc: Global, output: Output) -> Self
        ensures { result ≡ new_machine output }
    {
        Decoder {
            alloc,
            output,
            running: Ok(Parts::new(alloc, output)),
            read: 0,
            ended: false,
            bytes: History::new(),
            taken: History::new(),
        }
    }

    /// Takes the next bytes of the stream. For no bytes no memory is wanted.
    pub fn feed(&mut self, piece: &[u8]) -> Result<(), DecodeError>
        ensures { IsFeedAnswer self.old (after_feed piece.now self.old) result self.new }
    {
        check(&self.running)?;
        if self.ended {
            return Err(DecodeError::Ended);
        }
        if piece.is_empty() {
            return Ok(());
        }
        self.bytes = self.bytes.with_all(piece);
        let fed = feed(&mut self.running, piece);
        self.read = stop_at_refusal(&mut self.running, fed)?;
        Ok(())
    }

    /// Takes the next bytes of the stream up to where a unit has ended, or all where none ends, and
    /// answers how many: so at most the pictures that one unit lets out wait, where all events are
    /// taken after each call. For no bytes no memory is wanted.
    pub fn feed_unit(&mut self, bytes: &[u8]) -> Result<usize, DecodeError>
        ensures { IsFeedUnitAnswer MAX self.old bytes.now result self.new }
    {
        check(&self.running)?;
        if self.ended {
            return Err(DecodeError::Ended);
        }
        if bytes.is_empty() {
            return Ok(0);
        }
        let fed = feed_unit(&mut self.running, bytes);
        match stop_at_refusal(&mut self.running, fed) {
            Ok(fed) => {
                self.bytes = self.bytes.with_all(&bytes[..fed.used]);
                self.read = fed.read;
                Ok(fed.used)
            }
            Err(refused) => {
                self.bytes = self.bytes.with_all(bytes);
                Err(refused.into())
            }
        }
    }

    /// The next event, in whichever kind of picture.
    fn take_any(&mut self) -> Result<Option<Event<P>>, DecodeError>
        ensures { IsTakeAnswer MAX self.old (seen_answer P.picture result) self.new }
    {
        check(&self.running)?;
        let Some(event) = take_event(&mut self.running) else {
            return Ok(None);
        };
        self.taken = self.taken.with(&event);
        Ok(Some(event))
    }

    /// Ends the stream: the bytes so far are all.
    pub fn flush(&mut self) -> Result<(), DecodeError>
        ensures { IsFeedAnswer self.old (after_flush self.old) result self.new }
    {
        check(&self.running)?;
        if self.ended {
            return Err(DecodeError::Ended);
        }
        self.ended = true;
        let finished = finish(&mut self.running);
        self.read = stop_at_refusal(&mut self.running, finished)?;
        Ok(())
    }

    /// Forgets everything, parameter sets too: a new stream begins. When pictures go out stays as
    /// it was.
    pub fn reset(&mut self)
        ensures { self.new ≡ new_machine self.old.output }
    {
        self.running = Ok(Parts::new(self.alloc, self.output));
        self.read = 0;
        self.ended = false;
        self.bytes = History::new();
        self.taken = History::new();
    }

    /// How many units have begun in the bytes so far: one that is under way counts once its first
    /// byte behind the start code has come. All units after them are of bytes that are yet to come.
    pub fn units_begun(&self) -> Result<u64, OutOfMemory>
        ensures { IsUnitCount MAX self.now result }
    {
        units_begun(&self.running)
    }

    /// The open picture, if there is one: that of the last slice that has ended, as long as no unit
    /// that ended behind it has closed it. After the end of the stream there is none, and after
    /// want of memory none is answered. It takes no memory.
    pub fn open_picture(&self) -> Option<OpenPicture<'_>>
        ensures { IsOpenPictureAnswer MAX self.now result }
    {
        if self.ended {
            return None;
        }
        lent_picture(&self.running)
    }

    /// How many macroblocks of slices have been read since the last reset, as far as a u64 counts.
    /// After want of memory they are at most those of the bytes given, the refused piece included.
    pub fn turns(&self) -> u64
        ensures { IsCount MAX self.now result }
    {
        self.read
    }
}
