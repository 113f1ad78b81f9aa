//! Residual blocks (7.3.5.3.2).
ghost use Rattle.std.specs.Prelude.{◌≡◌, ◌+◌, ◌-◌, ◌≤◌, ◌<◌, ℕ, ℤ, pos, slice_index_or, take, drop};
ghost use Rattle.std.specs.Prelude.{length, replicate, IfOk, OnErr};
ghost use Rattle.avc_types.specs.Macroblock.{total_coeff};
ghost use Rattle.avc_bits.specs.Bits.{passed};
ghost use Rattle.avc_bits.specs.Reader.{IsWindow, Reads, reader_bits, reader_bytes};
ghost use Rattle.avc_vlc.specs.Reading.{IsToken};
ghost use Rattle.avc_cavlc.specs.Block.{IsSmall, residual_block};
ghost use Rattle.avc_cavlc.specs.Steps.{ReadsFrom, ReadsInto, block_behind};

use crate::level::{read_levels, read_levels_ahead};
use crate::runs::read_placed;
use avc_bits::{BitReader, Window};
use avc_types::{Fault, Levels};
use avc_vlc::{Token, TokenCode, coeff_token_ahead, read_coeff_token};

/// Reads the MAXN levels of a block (residual_block_cavlc): 4 of chroma DC, where `nc` is -1, or 15
/// or 16, where it is nC. Answers `Truncated`, `BadCode`, or `TooManyCoefficients` where TotalCoeff
/// and total_zeros are more than MAXN; the reader then stays. Each level is from -2,528 to 2,528.
#[inline(always)]
pub fn read_block<const MAXN: usize>(reader: &mut BitReader, nc: i8) -> Result<Levels<MAXN>, Fault>
    requires { MAXN ≤ 16 }
    ensures read { Reads result (residual_block MAXN nc) reader.old reader.new }
    ensures small { IfOk result (λ levels. (i : ℕ) → IsSmall (slice_index_or levels i (pos 0))) }
    ensures stays { OnErr result (reader.new ≡ reader.old) }
{
    let mut after = *reader;
    let mut levels = Levels::zero();
    match read_block_in_place(&mut after, nc, &mut levels) {
        Ok(()) => {
            *reader = after;
            Ok(levels)
        }
        Err(fault) => Err(fault),
    }
}

/// Reads a block as `read_block` does, but into the place of its levels, where nothing is written
/// if all are 0 before and after. After a fault any levels may stand there, and the reader
/// anywhere.
#[inline(always)]
pub fn read_block_in_place<const MAXN: usize>(
    reader: &mut BitReader,
    nc: i8,
    levels: &mut Levels<MAXN>,
) -> Result<(), Fault>
    requires { MAXN ≤ 16 }
    ensures read { ReadsInto result levels.new (residual_block MAXN nc) reader.old reader.new }
    ensures small { IfOk result (λ _. (i : ℕ) → IsSmall (slice_index_or levels.new i (pos 0))) }
{
    if reader.has_many() {
        read_by_window(reader, nc, levels)
    } else {
        read_near_end(reader, nc, levels)
    }
}

// A block where the stop bit is not near: coeff_token and the levels by one window.
#[inline(always)]
fn read_by_window<const MAXN: usize>(
    reader: &mut BitReader,
    nc: i8,
    levels: &mut Levels<MAXN>,
) -> Result<(), Fault>
    requires few { MAXN ≤ 16 }
    requires ahead { 256 ≤ length (reader_bits reader.old).ahead }
    ensures read { ReadsInto result levels.new (residual_block MAXN nc) reader.old reader.new }
    ensures small { IfOk result (λ _. (i : ℕ) → IsSmall (slice_index_or levels.new i (pos 0))) }
{
    let window = reader.window();
    match coeff_token_ahead(window, nc) {
        Some(code) => read_into(reader, window, code, levels),
        None => Err(Fault::BadCode),
    }
}

// A block whose coeff_token is the codeword that the window begins with.
#[inline(always)]
fn read_into<const MAXN: usize>(
    reader: &mut BitReader,
    window: Window,
    code: TokenCode,
    levels: &mut Levels<MAXN>,
) -> Result<(), Fault>
    requires few { MAXN ≤ 16 }
    requires ahead { 256 ≤ length (reader_bits reader.old).ahead }
    requires window { IsWindow window (reader_bits reader.old) }
    requires token { IsToken code.token }
    requires short { code.length ≤ 16 }
    ensures read { ReadsFrom result levels.new (block_behind MAXN code.token)
        (passed (reader_bits reader.old) code.length) (reader_bits reader.new) }
    ensures bytes { IfOk result (λ _. reader_bytes reader.new ≡ reader_bytes reader.old) }
    ensures small { IfOk result (λ _. (i : ℕ) → IsSmall (slice_index_or levels.new i (pos 0))) }
{
    // a block without a level costs no call
    if code.token.total == 0 {
        reader.skip_ahead(u32::from(code.length));
        levels.clear();
        return Ok(());
    }
    let mut block = [0; 16];
    match read_behind(reader, window, code, MAXN as u8, &mut block) {
        Ok(total_coeff) => {
            put(&block, total_coeff, levels);
            Ok(())
        }
        Err(fault) => Err(fault),
    }
}

// Reads what stands behind the codeword of coeff_token that the window begins with, where it says
// that there are levels: the first `max` levels of a block of zeros, from the lowest frequency on.
// Answers how many of them are not 0 (total_coeff). What is behind them stays 0; after a fault the
// block has any value, and the reader may stand anywhere.
#[inline(never)]
fn read_behind(
    reader: &mut BitReader,
    window: Window,
    code: TokenCode,
    max: u8,
    block: &mut [i16; 16],
) -> Result<u8, Fault>
    requires token { IsToken code.token }
    requires some { 1 ≤ code.token.total }
    requires few { max ≤ 16 }
    requires zero { block.old ≡ replicate 16 (pos 0) }
    requires ahead { 256 ≤ length (reader_bits reader.old).ahead }
    requires window { IsWindow window (reader_bits reader.old) }
    requires short { code.length ≤ 16 }
    ensures read { ReadsFrom result (take max block.new) (block_behind max code.token)
        (passed (reader_bits reader.old) code.length) (reader_bits reader.new) }
    ensures bytes { IfOk result (λ _. reader_bytes reader.new ≡ reader_bytes reader.old) }
    ensures rest { IfOk result (λ _. drop max block.new ≡ replicate (16 - max) (pos 0)) }
    ensures count { IfOk result (λ total. total ≡ total_coeff (take max block.new)) }
    ensures small { IfOk result (λ _. (i : ℕ) → IsSmall (slice_index_or block.new i (pos 0))) }
{
    let total = code.token.total;
    if total > max {
        return Err(Fault::TooManyCoefficients);
    }
    let mut values = [0; 16];
    read_levels_ahead(reader, window, code, &mut values)?;
    read_placed(reader, &values, total, max, block)?;
    Ok(total)
}

// The first levels of a block of 16 become those of the place; `count` of them are not 0.
#[inline(always)]
fn put<const MAXN: usize>(block: &[i16; 16], count: u8, levels: &mut Levels<MAXN>)
    requires few { MAXN ≤ 16 }
    requires count { count ≡ total_coeff (take MAXN block.now) }
    ensures { levels.new ≡ take MAXN block.now }
{
    let mut values = [0; MAXN];
    values.copy_from_slice(&block[..MAXN]);
    *levels = Levels::new(values, count);
}

// A block where the stop bit may be near.
#[cold]
#[inline(never)]
fn read_near_end<const MAXN: usize>(
    reader: &mut BitReader,
    nc: i8,
    levels: &mut Levels<MAXN>,
) -> Result<(), Fault>
    requires { MAXN ≤ 16 }
    ensures read { ReadsInto result levels.new (residual_block MAXN nc) reader.old reader.new }
    ensures small { IfOk result (λ _. (i : ℕ) → IsSmall (slice_index_or levels.new i (pos 0))) }
{
    let token = read_coeff_token(reader, nc)?;
    if token.total == 0 {
        levels.clear();
        return Ok(());
    }
    let mut block = [0; 16];
    match read_behind_near_end(reader, token, MAXN as u8, &mut block) {
        Ok(total_coeff) => {
            put(&block, total_coeff, levels);
            Ok(())
        }
        Err(fault) => Err(fault),
    }
}

// What stands behind coeff_token, likewise.
#[inline(never)]
fn read_behind_near_end(
    reader: &mut BitReader,
    token: Token,
    max: u8,
    block: &mut [i16; 16],
) -> Result<u8, Fault>
    requires token { IsToken token }
    requires some { 1 ≤ token.total }
    requires few { max ≤ 16 }
    requires zero { block.old ≡ replicate 16 (pos 0) }
    ensures read { ReadsInto result (take max block.new) (block_behind max token) reader.old
        reader.new }
    ensures rest { IfOk result (λ _. drop max block.new ≡ replicate (16 - max) (pos 0)) }
    ensures count { IfOk result (λ total. total ≡ total_coeff (take max block.new)) }
    ensures small { IfOk result (λ _. (i : ℕ) → IsSmall (slice_index_or block.new i (pos 0))) }
{
    let total = token.total;
    if total > max {
        return Err(Fault::TooManyCoefficients);
    }
    let mut values = [0; 16];
    read_levels(reader, token, &mut values)?;
    read_placed(reader, &values, total, max, block)?;
    Ok(total)
}
