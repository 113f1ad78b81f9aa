//! coded_block_pattern (9.1.2, Table 9-4).
ghost use Rattle.std.specs.Prelude.{◌≡◌, ◌≤◌, ◌<◌, Some, IfOk, OnErr};
ghost use Rattle.avc_bits.specs.Reader.{Reads};
ghost use Rattle.avc_vlc.specs.Reading.{coded_block_pattern, pattern_at};

use avc_bits::BitReader;
use avc_types::Fault;

/// Reads CodedBlockPatternLuma + 16 * CodedBlockPatternChroma of a macroblock, below 48: me(v).
/// Answers what ue(v) answers, or `BadCode` where its number is above 47; the reader then stays.
pub fn read_cbp(reader: &mut BitReader, intra: bool) -> Result<u8, Fault>
    ensures read { Reads result (coded_block_pattern intra) reader.old reader.new }
    ensures below { IfOk result (λ pattern. pattern < 48) }
    ensures stays { OnErr result (reader.new ≡ reader.old) }
{
    let before = *reader;
    let number = reader.ue()?;
    if number > 47 {
        *reader = before;
        return Err(Fault::BadCode);
    }
    Ok(cbp_of(number, intra))
}

/// CodedBlockPatternLuma + 16 * CodedBlockPatternChroma of a codeNum of me(v), in an intra
/// macroblock or in another.
#[tactic(auto, using(crate::proofs::Entries::pattern_intra, crate::proofs::Entries::pattern_inter))]
pub fn cbp_of(number: u32, intra: bool) -> u8
    requires { number < 48 }
    ensures value { pattern_at intra number ≡ Some result }
    ensures below { result < 48 }
{
    if intra {
        INTRA[number as usize]
    } else {
        INTER[number as usize]
    }
}

static INTRA: [u8; 48] = [
    47, 31, 15, 0, 23, 27, 29, 30, 7, 11, 13, 14, 39, 43, 45, 46, 16, 3, 5, 10, 12, 19, 21, 26, 28,
    35, 37, 42, 44, 1, 2, 4, 8, 17, 18, 20, 24, 6, 9, 22, 25, 32, 33, 34, 36, 40, 38, 41,
];

static INTER: [u8; 48] = [
    0, 16, 1, 2, 4, 8, 32, 3, 5, 10, 12, 15, 47, 7, 11, 13, 14, 6, 9, 31, 35, 37, 42, 44, 33, 34,
    36, 40, 39, 43, 45, 46, 17, 18, 20, 24, 19, 21, 26, 28, 23, 27, 29, 30, 22, 25, 38, 41,
];
