//! Residual blocks (7.3.5.3.2, 9.2).
ghost use Rattle.std.specs.Prelude.{◌≡◌, ◌≤◌, ◌<ℤ◌, pos, false, length};
ghost use Rattle.std.specs.Option.{IsSome, option_map};
ghost use Rattle.avc_bits.specs.Bits.{or_none};
ghost use Rattle.avc_vlc.specs.Reading.{token};
ghost use Rattle.avc_vlc.specs.Writing.{token_word, word_bits};
ghost use Rattle.avc_rbsp.specs.Made.{Puts};
ghost use Rattle.avc_make.specs.BlockWriting.{IsWritable, block_bits, sign_bits, values_of};

use crate::coefficients::Coefficients;
use crate::level_writing::put_levels;
use crate::run_writing::{put_runs, put_zeros};
use avc_rbsp::BitMaker;
use avc_types::{Levels, OutOfMemory};
use avc_vlc::{Codeword, Token, coeff_token_word};

/// Puts the MAXN levels of a block (residual_block_cavlc): 4 of chroma DC, where `nc` is -1, or 15
/// or 16, where it is nC. Nothing is chosen: each level and each run has one code. All that
/// `read_block` answers can be written, and gives the bits that were read; levels up to 2,063 in
/// size can be written in any block.
pub fn write_block<const MAXN: usize>(
    maker: &mut BitMaker,
    nc: i8,
    levels: &Levels<MAXN>,
) -> Result<(), OutOfMemory>
    requires most { MAXN ≤ 16 }
    requires chroma_dc { nc <ℤ pos 0 → MAXN ≤ 4 }
    requires levels { IsWritable levels.now }
    ensures { Puts result (block_bits MAXN nc levels.now) maker.old maker.new }
{
    let found = Coefficients::of(levels.as_array());
    let ones = found.trailing_ones();
    put_token(maker, nc, found.len(), ones)?;
    put_signs(maker, &found, ones)?;
    put_levels(maker, &found, ones)?;
    let zeros = found.zeros();
    put_zeros(maker, MAXN, found.len(), zeros)?;
    put_runs(maker, &found, zeros)?;
    Ok(())
}

fn put_token(maker: &mut BitMaker, nc: i8, total: usize, ones: usize) -> Result<(), OutOfMemory>
    requires most { total ≤ 16 }
    requires chroma_dc { nc <ℤ pos 0 → total ≤ 4 }
    requires ones { ones ≤ total }
    requires few_ones { ones ≤ 3 }
    ensures { Puts result (or_none (token_word nc (token total ones))) maker.old maker.new }
{
    let token = Token {
        total: total as u8,
        ones: ones as u8,
    };
    put_word(maker, coeff_token_word(nc, token))
}

// A codeword that there is.
pub(crate) fn put_word(maker: &mut BitMaker, word: Option<Codeword>) -> Result<(), OutOfMemory>
    requires { IsSome word }
    ensures { Puts result (or_none (option_map word_bits word)) maker.old maker.new }
{
    match word {
        Some(word) => maker.put(u32::from(word.length), word.number),
        None => Ok(()),
    }
}

// The signs of the trailing ones.
fn put_signs(maker: &mut BitMaker, found: &Coefficients, ones: usize) -> Result<(), OutOfMemory>
    requires going { maker.old.failed ≡ false }
    requires ones { ones ≤ length found.now }
    ensures { Puts result (sign_bits ones (values_of found.now)) maker.old maker.new }
{
    'ones: for k in 0..ones {
        maker.flag(found.level(k) < 0)?;
    }
    Ok(())
}
