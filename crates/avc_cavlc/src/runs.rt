//! total_zeros, the runs, and the places of the levels (9.2.3).
ghost use Rattle.std.specs.Prelude.{◌≡◌, ◌+◌, ◌-◌, ◌≤◌, ◌<◌, ◌++◌, ℕ, ℤ, pos, List, drop, length};
ghost use Rattle.std.specs.Prelude.{replicate, reverse, slice_index_or, take, IfOk, All};
ghost use Rattle.std.specs.Prelude.{MatchResult, Ok, Err};
ghost use Rattle.avc_types.specs.Macroblock.{total_coeff};
ghost use Rattle.avc_cavlc.specs.Block.{IsLevel, IsSmall};
ghost use Rattle.avc_cavlc.specs.Steps.{ArePlaced, ReadsInto, placed_by_runs, placed_by_zeros};
ghost use Rattle.avc_cavlc.specs.Steps.{placed_others, zeros_within};
ghost use Rattle.avc_bits.specs.Bits.{Bits, passed};
ghost use Rattle.avc_bits.specs.Reader.{IsWindow, reader_bits, reader_bytes};

use avc_bits::{BitReader, Window};
use avc_types::Fault;
use avc_vlc::{read_run_before, read_total_zeros, short_run, total_zeros_ahead};

// How many values stand in their places, and how many zeros are left for the others.
#[derive(Clone, Copy)]
struct Placement {
    count: usize,
    zeros_left: u8,
}

/// Reads total_zeros and the run of zeros before each of the first `total` values, and puts the
/// values in their places in a block of zeros. Answers `TooManyCoefficients` where values and zeros
/// are more than `max`.
#[inline(always)]
pub(crate) fn read_placed(
    reader: &mut BitReader,
    values: &[i16; 16],
    total: u8,
    max: u8,
    block: &mut [i16; 16],
) -> Result<(), Fault>
    requires some { 1 ≤ total }
    requires room { total ≤ max }
    requires few { max ≤ 16 }
    requires size { All IsLevel (take total values.now) }
    requires zero { block.old ≡ replicate 16 (pos 0) }
    ensures read { ReadsInto result block.new (placed_by_zeros max (take total values.now) total)
        reader.old reader.new }
    ensures count { IfOk result (λ _. total_coeff block.new ≡ total) }
    ensures small { IfOk result (λ _. (i : ℕ) → IsSmall (slice_index_or block.new i (pos 0))) }
{
    let first = place_first(reader, values, total, max, block)?;
    place_runs(reader, values, total, first, block)
}

// Reads total_zeros, and places the first values: as many as have short codewords of run_before,
// where the stop bit is not near.
#[inline(always)]
fn place_first(
    reader: &mut BitReader,
    values: &[i16; 16],
    total: u8,
    max: u8,
    block: &mut [i16; 16],
) -> Result<Placement, Fault>
    requires some { 1 ≤ total }
    requires room { total ≤ max }
    requires few { max ≤ 16 }
    requires size { All IsLevel (take total values.now) }
    requires zero { block.old ≡ replicate 16 (pos 0) }
    ensures read { MatchResult result
        (λ p. placed_by_zeros max (take total values.now) total (reader_bits reader.old)
        ≡ placed_others (take total values.now) total p.count p.zeros_left block.new
        (reader_bits reader.new))
        (λ fault. placed_by_zeros max (take total values.now) total (reader_bits reader.old)
        ≡ Err fault) }
    ensures placed { IfOk result (λ p. ArePlaced total p.count p.zeros_left block.new) }
    ensures bytes { IfOk result (λ _. reader_bytes reader.new ≡ reader_bytes reader.old) }
{
    if total < max && reader.has_many() {
        place_short(reader, values, total, max, block)
    } else {
        place_none(reader, values, total, max, block)
    }
}

// Reads total_zeros and places the first values by one window, where the stop bit is not near.
#[inline(always)]
fn place_short(
    reader: &mut BitReader,
    values: &[i16; 16],
    total: u8,
    max: u8,
    block: &mut [i16; 16],
) -> Result<Placement, Fault>
    requires some { 1 ≤ total }
    requires room { total < max }
    requires few { max ≤ 16 }
    requires size { All IsLevel (take total values.now) }
    requires zero { block.old ≡ replicate 16 (pos 0) }
    requires ahead { 256 ≤ length (reader_bits reader.old).ahead }
    ensures read { MatchResult result
        (λ p. placed_by_zeros max (take total values.now) total (reader_bits reader.old)
        ≡ placed_others (take total values.now) total p.count p.zeros_left block.new
        (reader_bits reader.new))
        (λ fault. placed_by_zeros max (take total values.now) total (reader_bits reader.old)
        ≡ Err fault) }
    ensures placed { IfOk result (λ p. ArePlaced total p.count p.zeros_left block.new) }
    ensures bytes { IfOk result (λ _. reader_bytes reader.new ≡ reader_bytes reader.old) }
{
    let window = reader.window();
    match total_zeros_ahead(window, total, max == 4) {
        Some(run) if run.zeros <= max - total => {
            let placement = place_by_window(window, run.length, values, total, run.zeros, block);
            reader.skip_ahead(u32::from(placement.length));
            Ok(Placement {
                count: usize::from(placement.count),
                zeros_left: placement.zeros_left,
            })
        }
        Some(_) => Err(Fault::TooManyCoefficients),
        None => Err(Fault::BadCode),
    }
}

// total_zeros alone, and no value is placed.
#[inline(always)]
fn place_none(
    reader: &mut BitReader,
    values: &[i16; 16],
    total: u8,
    max: u8,
    block: &mut [i16; 16],
) -> Result<Placement, Fault>
    requires some { 1 ≤ total }
    requires room { total ≤ max }
    requires few { max ≤ 16 }
    requires zero { block.old ≡ replicate 16 (pos 0) }
    ensures read { MatchResult result
        (λ p. placed_by_zeros max (take total values.now) total (reader_bits reader.old)
        ≡ placed_others (take total values.now) total p.count p.zeros_left block.new
        (reader_bits reader.new))
        (λ fault. placed_by_zeros max (take total values.now) total (reader_bits reader.old)
        ≡ Err fault) }
    ensures placed { IfOk result (λ p. ArePlaced total p.count p.zeros_left block.new) }
    ensures bytes { IfOk result (λ _. reader_bytes reader.new ≡ reader_bytes reader.old) }
{
    let zeros = read_zeros(reader, total, max)?;
    Ok(Placement {
        count: 0,
        zeros_left: zeros,
    })
}

// How many zeros stand before the last level, in a block of `max` places.
#[inline(always)]
fn read_zeros(reader: &mut BitReader, total: u8, max: u8) -> Result<u8, Fault>
    requires some { 1 ≤ total }
    requires room { total ≤ max }
    ensures read { MatchResult result
        (λ zeros. zeros_within max total (reader_bits reader.old)
        ≡ Ok (zeros, reader_bits reader.new))
        (λ fault. zeros_within max total (reader_bits reader.old) ≡ Err fault) }
    ensures room { IfOk result (λ zeros. total + zeros ≤ max) }
    ensures bytes { IfOk result (λ _. reader_bytes reader.new ≡ reader_bytes reader.old) }
{
    if total == max {
        return Ok(0);
    }
    let zeros = read_total_zeros(reader, total, max == 4)?;
    if zeros > max - total {
        return Err(Fault::TooManyCoefficients);
    }
    Ok(zeros)
}

// The values placed by a window, and how many bits of it have been passed.
#[derive(Clone, Copy)]
struct WindowPlacement {
    count: u8,
    zeros_left: u8,
    length: u8,
}

// Places the first values by the codewords that stand in a window behind its first bits: three bits
// for each value.
#[inline(always)]
fn place_by_window(
    window: Window,
    front: u8,
    values: &[i16; 16],
    total: u8,
    zeros: u8,
    block: &mut [i16; 16],
) -> WindowPlacement
    requires some { 1 ≤ total }
    requires room { total + zeros ≤ 16 }
    requires front { front ≤ 9 }
    requires size { All IsLevel (take total values.now) }
    requires zero { block.old ≡ replicate 16 (pos 0) }
    ensures read { (b : Bits) → IsWindow window b →
        placed_by_runs 16 (take total values.now) total zeros (passed b front)
        ≡ placed_others (take total values.now) total result.count result.zeros_left block.new
        (passed b result.length) }
    ensures placed { ArePlaced total result.count result.zeros_left block.new }
    ensures few { result.length ≤ 57 }
{
    let mut length = front;
    let mut zeros_left = zeros;
    let mut place = total as usize + zeros as usize;
    let mut k = 0;
    'values: while zeros_left > 0 && k + 1 < total {
        let run = short_run(window, u32::from(length), zeros_left);
        if run.length == 0 {
            break;
        }
        place -= 1;
        block[place] = values[k as usize];
        length += run.length;
        zeros_left -= run.zeros;
        place -= run.zeros as usize;
        k += 1;
    }
    WindowPlacement {
        count: k,
        zeros_left,
        length,
    }
}

// Reads the runs that are left, and places the other values.
#[inline(always)]
fn place_runs(
    reader: &mut BitReader,
    values: &[i16; 16],
    total: u8,
    first: Placement,
    block: &mut [i16; 16],
) -> Result<(), Fault>
    requires few { total ≤ 16 }
    requires size { All IsLevel (take total values.now) }
    requires placed { ArePlaced total first.count first.zeros_left block.old }
    ensures read { ReadsInto result block.new
        (placed_others (take total values.now) total first.count first.zeros_left block.old)
        reader.old reader.new }
    ensures count { IfOk result (λ _. total_coeff block.new ≡ total) }
    ensures small { IfOk result (λ _. (i : ℕ) → IsSmall (slice_index_or block.new i (pos 0))) }
{
    let mut zeros_left = first.zeros_left;
    let mut k = first.count;
    let mut place = total as usize - k + zeros_left as usize;
    'values: while zeros_left > 0 && k + 1 < total as usize {
        place -= 1;
        block[place] = values[k];
        let zeros = read_run_before(reader, zeros_left)?;
        zeros_left -= zeros;
        place -= zeros as usize;
        k += 1;
    }
    place_others(values, k, total as usize, zeros_left as usize, block);
    Ok(())
}

// Puts the values from the first one on into the places behind so many zeros, the last one in
// front.
#[inline(always)]
fn place_others(values: &[i16; 16], first: usize, total: usize, zeros: usize, block: &mut [i16; 16])
    requires some { first ≤ total }
    requires room { total - first + zeros ≤ 16 }
    requires few { total ≤ 16 }
    requires size { All IsLevel (take total values.now) }
    requires small { (i : ℕ) → IsSmall (slice_index_or block.old i (pos 0)) }
    ensures front { take zeros block.new ≡ take zeros block.old }
    ensures behind { drop zeros block.new ≡ reverse (drop first (take total values.now))
        ++ drop (total - first + zeros) block.old }
    ensures count { total_coeff (drop zeros block.new)
        ≡ total_coeff (drop (total - first + zeros) block.old) + (total - first) }
    ensures small { (i : ℕ) → IsSmall (slice_index_or block.new i (pos 0)) }
{
    let mut place = total - first + zeros;
    'values: for k in first..total {
        place -= 1;
        block[place] = values[k];
    }
}
