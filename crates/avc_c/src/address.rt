//! The memory of a decoder that C holds by its address.

ghost use Rattle.std.specs.Prelude.{◌≡◌, Option, Some, None};
ghost use Rattle.avc_c.specs.declared.address.OpenDecoder.{OpenDecoder};
ghost use Rattle.avc_c.specs.OpenDecoders.{IsOpen};
ghost use Rattle.avc_c.specs.Awaited.{awaited_behind};
ghost use Rattle.avc_c.specs.Exports.{after_mark, mark_status};

use crate::awaited::Awaited;
use crate::marks::{Mark, Marks};
use crate::raw_box::RawBox;
use avc_c_picture::{LastPicture, Status};
use avc_decoder::{DecodeError, Decoder, Event};
use avc_plane::SharedPicture;
use std::alloc::Global;
use std::marker::Model;

/// A decoder, the picture that was taken last, the marks of its stream, and those whose values are
/// awaited.
#[derive(Drop)]
pub struct OpenDecoder {
    pub decoder: Decoder<134_217_728, SharedPicture>,
    pub picture: LastPicture,
    pub marks: Marks,
    pub awaited: Awaited,
}

impl OpenDecoder {
    /// Gives a value to the units that begin from here on.
    pub(crate) fn mark(&mut self, value: u64) -> Status
        ensures status { result ≡ mark_status self.old }
        ensures marked { self.new ≡ after_mark value self.old }
    {
        match self.decoder.units_begun() {
            Ok(unit) => {
                let mark = Mark { unit, value };
                self.marks.add(mark);
                self.awaited.add(mark);
                Status::Ok
            }
            Err(refusal) => Status::from(refusal),
        }
    }

    /// An answer of `take` is told, with the value of its event.
    pub(crate) fn note(&mut self, answer: &Result<Option<Event<SharedPicture>>, DecodeError>)
        ensures { self.new
            ≡ record self.old {
              awaited = awaited_behind self.old.marks answer.now
                  self.old.awaited;
            } }
    {
        self.awaited.note(answer, &self.marks);
    }
}

/// Where an open decoder lies, of which it is the owner; or nothing. It is not `Drop`, so that no
/// decoder is forgotten: one leaves it as its box, and only an address of nothing is let go.
#[repr(C)]
pub struct DecoderAddress {
    at: *mut u8,
    alloc: Global,
    pub ghost decoder: { Option OpenDecoder },
}

impl Model for DecoderAddress {
    ghost use Rattle.avc_c.specs.Owned.{owned};

    ghost also_owns = { λ a. owned a.alloc a.at a.decoder };
}

impl DecoderAddress {
    /// Nothing.
    pub fn none(alloc: Global) -> DecoderAddress
        ensures { result.decoder ≡ None }
    {
        DecoderAddress {
            at: std::ptr::null_mut(),
            alloc,
        }
    }

    /// That of a decoder, which it owns from now on.
    pub fn of(decoder: Box<OpenDecoder>) -> DecoderAddress
        ensures { result.decoder ≡ Some decoder.value }
    {
        DecoderAddress::of_raw(RawBox::from_box(decoder))
    }

    /// The decoder.
    pub fn into_box(self) -> Box<OpenDecoder>
        requires { IsOpen self.decoder }
        ensures { Some result.value ≡ self.decoder }
    {
        self.into_raw().into_box()
    }

    /// Lets an address of nothing go. Answers its heap.
    pub fn into_alloc(self) -> Global
        requires { self.decoder ≡ None }
    {
        let DecoderAddress { at: _, alloc } = self;
        alloc
    }

    fn of_raw(raw: RawBox<OpenDecoder, Global>) -> DecoderAddress
        ensures { result.decoder ≡ Some raw.value }
    {
        let RawBox { at, alloc } = raw;
        DecoderAddress {
            at: at as *mut u8,
            alloc,
        }
    }

    fn into_raw(self) -> RawBox<OpenDecoder, Global>
        requires { IsOpen self.decoder }
        ensures { Some result.value ≡ self.decoder }
    {
        let DecoderAddress { at, alloc } = self;
        RawBox {
            at: at as *mut OpenDecoder,
            alloc,
        }
    }
}
