//! Levels that are no trailing ones (9.2.2).
ghost use Rattle.std.specs.Prelude.{◌≡◌, ◌≤◌, nat_abs, nat_lt, false, drop, length, All};
ghost use Rattle.avc_rbsp.specs.Made.{Puts};
ghost use Rattle.avc_make.specs.BlockWriting.{HasCodes, IsCode, code_of_level, first_length};
ghost use Rattle.avc_make.specs.BlockWriting.{level_bits, levels_bits, ones_first, prefix_of};
ghost use Rattle.avc_make.specs.BlockWriting.{values_of};

use crate::coefficients::Coefficients;
use avc_cavlc::{level_code, next_suffix_length, suffix_size};
use avc_rbsp::BitMaker;
use avc_types::OutOfMemory;

/// The levels after so many trailing ones.
pub(crate) fn put_levels(
    maker: &mut BitMaker,
    found: &Coefficients,
    ones: usize,
) -> Result<(), OutOfMemory>
    requires going { maker.old.failed ≡ false }
    requires ones { ones ≡ ones_first 3 (values_of found.now) }
    requires within { ones ≤ length found.now }
    requires some { All (λ level. 1 ≤ nat_abs level) (values_of found.now) }
    requires codes { HasCodes found.now }
    ensures { Puts result (levels_bits (first_length (length found.now) ones) (nat_lt ones 3)
        (drop ones (values_of found.now))) maker.old maker.new }
{
    let few_ones = ones < 3;
    let mut suffix_length = if found.len() > 10 && few_ones { 1 } else { 0 };
    let mut above_one = few_ones;
    'levels: for k in ones..found.len() {
        let level = found.level(k);
        put_level(maker, suffix_length, code_of_level(above_one, level))?;
        suffix_length = next_suffix_length(suffix_length, level);
        above_one = false;
    }
    Ok(())
}

// level_prefix and level_suffix of a levelCode
fn put_level(maker: &mut BitMaker, suffix_length: u32, code: u32) -> Result<(), OutOfMemory>
    requires length { suffix_length ≤ 6 }
    requires code { IsCode suffix_length code }
    ensures { Puts result (level_bits suffix_length code) maker.old maker.new }
{
    let prefix = prefix_of(suffix_length, code);
    let suffix = code - level_code(prefix, suffix_length, 0, false);
    maker.put(prefix, 0)?;
    maker.flag(true)?;
    maker.put(suffix_size(prefix, suffix_length), suffix)?;
    Ok(())
}

fn prefix_of(suffix_length: u32, code: u32) -> u32
    requires { suffix_length ≤ 6 }
    ensures { result ≡ prefix_of suffix_length code }
{
    if suffix_length == 0 {
        if code < 14 {
            code
        } else if code < 30 {
            14
        } else {
            15
        }
    } else if code < 15 << suffix_length {
        code >> suffix_length
    } else {
        15
    }
}

// levelCode: 2 less where the level's size is known to be above 1
fn code_of_level(above_one: bool, level: i16) -> u32
    ensures { result ≡ code_of_level above_one level }
{
    let size = u32::from(level.unsigned_abs());
    let code = if level > 0 {
        (2 * size).saturating_sub(2)
    } else {
        (2 * size).saturating_sub(1)
    };
    if above_one {
        code.saturating_sub(2)
    } else {
        code
    }
}
