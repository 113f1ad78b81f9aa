//! Syntax elements that stand so many times in a row.
ghost use Rattle.std.specs.Prelude.{◌≡◌, ◌≤◌, ◌<◌, ℕ, take};
ghost use Rattle.avc_bits.specs.Bits.{Read, times};
ghost use Rattle.avc_bits.specs.Codes.{te_to};
ghost use Rattle.avc_bits.specs.Reader.{Reads};
ghost use Rattle.avc_mbsyntax.specs.Reading.{block_mode, mvd_l0, sub_mb_type_code};
ghost use Rattle.avc_mbsyntax.specs.Steps.{ReadsInto};

use avc_bits::BitReader;
use avc_types::{Fault, Mvd, SubMbType};

/// A syntax element that stands so many times in a row.
pub(crate) trait Element: Copy {
    // By the greatest value, where that is limited.
    ghost part: { ℕ → Read Self };

    fn read(reader: &mut BitReader, most: u32) -> Result<Self, Fault>
        requires some { 1 ≤ most }
        requires byte { most < 256 }
        ensures read { Reads result (part most) reader.old reader.new };
}

/// Reads so many of them into the first places of the array.
pub(crate) fn read_elements<T: Element, const N: usize>(
    reader: &mut BitReader,
    count: usize,
    most: u32,
    elements: &mut [T; N],
) -> Result<(), Fault>
    requires room { count ≤ N }
    requires some { 1 ≤ most }
    requires byte { most < 256 }
    ensures read { ReadsInto result (take count elements.new) (times count (T.part most)) reader.old
        reader.new }
    ensures whole { count ≡ N →
        ReadsInto result elements.new (times N (T.part most)) reader.old reader.new }
{
    'elements: for k in 0..count {
        let element = T::read(reader, most)?;
        elements[k] = element;
    }
    Ok(())
}

/// prev_intra4x4_pred_mode_flag and rem_intra4x4_pred_mode (7.3.5.1).
impl Element for Option<u8> {
    ghost part = { λ _. block_mode };

    // One look at the flag and the three bits that may stand behind it.
    #[tactic(auto, using(crate::proofs::SliceDataReading::mode_none, crate::proofs::SliceDataReading::mode_some))]
    fn read(reader: &mut BitReader, most: u32) -> Result<Option<u8>, Fault> {
        let four = reader.peek(4);
        if four >= 8 {
            reader.skip(1)?;
            return Ok(None);
        }
        reader.skip(4)?;
        Ok(Some(four as u8))
    }
}

/// sub_mb_type (Table 7-17).
impl Element for SubMbType {
    ghost part = { λ _. sub_mb_type_code };

    fn read(reader: &mut BitReader, most: u32) -> Result<SubMbType, Fault> {
        let number = reader.ue_to(3)?;
        Ok(match number {
            0 => SubMbType::Sub8x8,
            1 => SubMbType::Sub8x4,
            2 => SubMbType::Sub4x8,
            _ => SubMbType::Sub4x4,
        })
    }
}

/// ref_idx_l0 (7.3.5.1).
impl Element for u8 {
    ghost part = { te_to };

    fn read(reader: &mut BitReader, most: u32) -> Result<u8, Fault> {
        let ref_idx = reader.te_to(most)?;
        Ok(ref_idx as u8)
    }
}

/// mvd_l0 (7.3.5.1).
impl Element for Mvd {
    ghost part = { λ _. mvd_l0 };

    fn read(reader: &mut BitReader, most: u32) -> Result<Mvd, Fault> {
        let x = reader.se()?;
        let y = reader.se()?;
        Ok(Mvd { x, y })
    }
}
