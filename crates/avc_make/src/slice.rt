//! Slices that are to be written, with their macroblocks.

ghost use Rattle.std.specs.Prelude.{◌≡◌};

use avc_params::{Pps, Sps};
use avc_slice::Header;
use avc_types::Mb;
use std::marker::Model;

/// Macroblocks in decoding order. A contract sees them as their list.
#[derive(Drop)]
pub struct Macroblocks {
    list: Vec<Mb>,
}

impl Model for Macroblocks {
    ghost use Rattle.std.specs.Prelude.{List};
    ghost use Rattle.avc_types.specs.Macroblock.{Mb};

    ghost Value = { List Mb };

    ghost view = { λ m. m.list.items };
}

impl Macroblocks {
    pub fn from_vec(list: Vec<Mb>) -> Macroblocks
        ensures { result ≡ list.items }
    {
        Macroblocks { list }
    }

    pub fn as_slice(&self) -> &[Mb]
        ensures { result.now ≡ self.now }
    {
        self.list.as_slice()
    }
}

/// A coded slice (7.3.2.8): the parameter sets under which it is written, its header, and its
/// macroblocks from first_mb_in_slice on.
#[derive(Drop)]
pub struct CodedSlice {
    pub sps: Sps,
    pub pps: Pps,
    /// Its position is none of the syntax: it may have any value.
    pub header: Header,
    pub macroblocks: Macroblocks,
}
