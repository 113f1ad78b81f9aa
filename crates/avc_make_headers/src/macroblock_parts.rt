//! Parts of macroblocks (7.3.5.1, 7.3.5.2), which avc_make puts: an impl stands in the crate of its
//! trait or in that of its type.

ghost use Rattle.std.specs.Prelude.{◌≡◌, ◌≤◌};
ghost use Rattle.avc_rbsp.specs.Words.{ue_word};
ghost use Rattle.avc_make_headers.specs.MbParts.{IsCodedMode, IsMvd, mode_bits, mvd_bits};
ghost use Rattle.avc_make_headers.specs.MbParts.{sub_mb_number};

use crate::part::Part;
use avc_rbsp::BitMaker;
use avc_types::{Mvd, OutOfMemory, SubMbType};

// prev_intra4x4_pred_mode_flag and rem_intra4x4_pred_mode
impl Part for Option<u8> {
    ghost bits = { mode_bits };

    ghost fits = { IsCodedMode };

    fn put(&self, maker: &mut BitMaker) -> Result<(), OutOfMemory> {
        match *self {
            None => maker.flag(true),
            Some(rem) => {
                maker.flag(false)?;
                maker.put(3, u32::from(rem))
            }
        }
    }
}

// sub_mb_type
impl Part for SubMbType {
    ghost bits = { λ s. ue_word (sub_mb_number s) };

    ghost fits = { λ _. Unit {0} };

    fn put(&self, maker: &mut BitMaker) -> Result<(), OutOfMemory> {
        maker.ue(sub_mb_number(*self))
    }
}

// sub_mb_type (Table 7-17)
fn sub_mb_number(sub_mb_type: SubMbType) -> u32
    ensures value { result ≡ sub_mb_number sub_mb_type }
    ensures few { result ≤ 3 }
{
    match sub_mb_type {
        SubMbType::Sub8x8 => 0,
        SubMbType::Sub8x4 => 1,
        SubMbType::Sub4x8 => 2,
        SubMbType::Sub4x4 => 3,
    }
}

// mvd_l0
impl Part for Mvd {
    ghost bits = { mvd_bits };

    ghost fits = { IsMvd };

    fn put(&self, maker: &mut BitMaker) -> Result<(), OutOfMemory> {
        maker.se(self.x)?;
        maker.se(self.y)
    }
}
