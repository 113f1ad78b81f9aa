//! The struct `avcdec_decoder` of the header.

ghost use Rattle.std.specs.Prelude.{◌≡◌, true, Some, None};
ghost use Rattle.avc_c.specs.OpenDecoders.{IsMarked};

use crate::address::{DecoderAddress, OpenDecoder};
use std::alloc::Global;

/// What C holds of a decoder. All zero, it is closed. It is not `Drop`: an open decoder leaves it
/// by `remove` alone.
#[repr(C)]
pub struct DecoderHandle {
    pub is_open: bool,
    pub address: DecoderAddress,
    ghost marked: { IsMarked is_open address.decoder },
}

impl DecoderHandle {
    fn closed(alloc: Global) -> DecoderHandle
        ensures { result.address.decoder ≡ None }
    {
        DecoderHandle {
            is_open: false,
            address: DecoderAddress::none(alloc),
        }
    }

    /// Takes the decoder out, and is closed.
    pub(crate) fn remove(&mut self, alloc: Global) -> Box<OpenDecoder>
        requires { self.old.is_open ≡ true }
        ensures decoder { Some result.value ≡ self.old.address.decoder }
        ensures closed { self.new.address.decoder ≡ None }
    {
        let DecoderHandle {
            is_open: _,
            address,
        } = std::mem::replace(self, DecoderHandle::closed(alloc));
        address.into_box()
    }

    /// Puts a decoder in where there is none, and is open.
    pub(crate) fn insert(&mut self, decoder: Box<OpenDecoder>)
        requires { self.old.address.decoder ≡ None }
        ensures { self.new.address.decoder ≡ Some decoder.value }
    {
        let opened = DecoderHandle {
            is_open: true,
            address: DecoderAddress::of(decoder),
        };
        let DecoderHandle {
            is_open: _,
            address,
        } = std::mem::replace(self, opened);
        let _ = address.into_alloc();
    }
}
