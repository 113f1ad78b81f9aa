//! Levels that are not 0 (9.2.2).
ghost use Rattle.std.specs.Prelude.{◌≡◌, ◌+◌, ◌-◌, ◌*◌, ◌/◌, ◌%◌, ◌==◌, ◌^◌, ◌≤◌, ◌<◌, ℕ, ℤ, pos};
ghost use Rattle.std.specs.Prelude.{length, take, nat_abs, nat_lt, ◌&&◌, if◌then◌else◌, IfOk};
ghost use Rattle.std.specs.Prelude.{IsTrue, MatchOption, MatchResult, All, Err};
ghost use Rattle.avc_bits.specs.Bits.{passed, times};
ghost use Rattle.avc_bits.specs.Reader.{IsWindow, reader_bits, reader_bytes};
ghost use Rattle.avc_vlc.specs.Reading.{IsToken};
ghost use Rattle.avc_cavlc.specs.Block.{IsLevel, level, level_code, level_of_code};
ghost use Rattle.avc_cavlc.specs.Block.{next_suffix_length, suffix_size, token_levels};
ghost use Rattle.avc_cavlc.specs.Block.{trailing_one};
ghost use Rattle.avc_cavlc.specs.Steps.{AreRead, AreShortLevels, IsLongCode, ReadsCode, ReadsFrom};
ghost use Rattle.avc_cavlc.specs.Steps.{ReadsInto};
ghost use Rattle.avc_cavlc.specs.Steps.{ReadsLevel, left_from, one_of_sign, raised, short_level};
ghost use Rattle.avc_cavlc.specs.Steps.{stage_above, stage_length, three_ones};

use avc_bits::{BitReader, Window};
use avc_types::Fault;
use avc_vlc::{Token, TokenCode};

/// The greatest suffixLength.
const MOST_SUFFIX_BITS: u32 = 6;

// The stage of a level that comes after others is its suffixLength; that of the first one is
// greater by this, where its size is known to be above 1.
const ABOVE_ONE: u8 = 7;

// How many bits a table of short levels looks at, and the last place in a window of 57 bits at
// which so many stand.
const SHORT_BITS: u32 = 7;

const LAST_SHORT: u32 = 57 - SHORT_BITS;

// A level, how many bits its codeword has, which is 0 where it has more than seven, and the stage
// of the level after it.
#[derive(Clone, Copy)]
struct Level {
    value: i16,
    length: u8,
    next: u8,
}

// How many levels have been read, and the stage of the next one.
#[derive(Clone, Copy)]
struct Progress {
    count: usize,
    stage: u8,
}

/// Reads the levels of a block that are not 0, the highest frequency first, into the first of the
/// values.
#[inline(always)]
pub(crate) fn read_levels(
    reader: &mut BitReader,
    token: Token,
    values: &mut [i16; 16],
) -> Result<(), Fault>
    requires token { IsToken token }
    ensures read { ReadsInto result (take token.total values.new) (token_levels token) reader.old
        reader.new }
    ensures size { IfOk result (λ _. All IsLevel (take token.total values.new)) }
{
    let first = read_ones(reader, token, values)?;
    read_others(reader, values, first, token.total as usize)
}

/// The levels that are not 0 behind the codeword of coeff_token that a window begins with.
#[inline(always)]
pub(crate) fn read_levels_ahead(
    reader: &mut BitReader,
    window: Window,
    code: TokenCode,
    values: &mut [i16; 16],
) -> Result<(), Fault>
    requires token { IsToken code.token }
    requires short { code.length ≤ 16 }
    requires ahead { 256 ≤ length (reader_bits reader.old).ahead }
    requires window { IsWindow window (reader_bits reader.old) }
    ensures read { ReadsFrom result (take code.token.total values.new) (token_levels code.token)
        (passed (reader_bits reader.old) code.length) (reader_bits reader.new) }
    ensures bytes { IfOk result (λ _. reader_bytes reader.new ≡ reader_bytes reader.old) }
    ensures size { IfOk result (λ _. All IsLevel (take code.token.total values.new)) }
{
    let first = read_first(reader, window, code, values);
    read_others(reader, values, first, code.token.total as usize)
}

// The trailing ones, and the levels behind them whose codewords are short and stand in the same
// window.
#[inline(always)]
fn read_first(
    reader: &mut BitReader,
    window: Window,
    code: TokenCode,
    values: &mut [i16; 16],
) -> Progress
    requires token { IsToken code.token }
    requires short { code.length ≤ 16 }
    requires ahead { 256 ≤ length (reader_bits reader.old).ahead }
    requires window { IsWindow window (reader_bits reader.old) }
    ensures read { AreRead (token_levels code.token (passed (reader_bits reader.old) code.length))
        code.token.total
        result.count result.stage values.new (reader_bits reader.new) }
    ensures bytes { reader_bytes reader.new ≡ reader_bytes reader.old }
{
    let front = code.length as u32;
    put_ones(window.bits(front, 3), values);
    let ones = Progress {
        count: code.token.ones as usize,
        stage: first_stage(code.token),
    };
    let total = code.token.total as usize;
    read_short_levels(
        reader,
        window,
        front + code.token.ones as u32,
        values,
        ones,
        total,
    )
}

// The trailing ones alone.
#[inline(always)]
fn read_ones(
    reader: &mut BitReader,
    token: Token,
    values: &mut [i16; 16],
) -> Result<Progress, Fault>
    requires token { IsToken token }
    ensures read { MatchResult result
        (λ first. AreRead (token_levels token (reader_bits reader.old)) token.total first.count
        first.stage values.new (reader_bits reader.new))
        (λ fault. token_levels token (reader_bits reader.old) ≡ Err fault) }
    ensures bytes { IfOk result (λ _. reader_bytes reader.new ≡ reader_bytes reader.old) }
{
    read_trailing_ones(reader, token.ones, values)?;
    Ok(Progress {
        count: token.ones as usize,
        stage: first_stage(token),
    })
}

// the stage of the first level that is no trailing one
#[inline(always)]
fn first_stage(token: Token) -> u8
    requires { token.ones ≤ 3 }
    ensures below { result < 9 }
    ensures length { stage_length result
        ≡ (if nat_lt 10 token.total && nat_lt token.ones 3 then 1 else 0) }
    ensures above { stage_above result ≡ nat_lt token.ones 3 }
{
    if token.ones == 3 {
        0
    } else if token.total > 10 {
        ABOVE_ONE + 1
    } else {
        ABOVE_ONE
    }
}

// The trailing ones, by one look at their signs, into the first of the values.
#[inline(always)]
fn read_trailing_ones(reader: &mut BitReader, ones: u8, values: &mut [i16; 16]) -> Result<(), Fault>
    requires few { ones ≤ 3 }
    ensures read { ReadsInto result (take ones values.new) (times ones trailing_one) reader.old
        reader.new }
    ensures size { IfOk result (λ _. All IsLevel (take ones values.new)) }
{
    if ones == 0 {
        return Ok(());
    }
    let signs = reader.peek(3);
    reader.skip(u32::from(ones))?;
    put_ones(signs, values);
    Ok(())
}

// The ones of three sign bits become the first values, as many as stand for trailing ones and what
// is no value yet behind them.
#[inline(always)]
fn put_ones(signs: u32, values: &mut [i16; 16])
    requires { signs < 8 }
    ensures { (n : ℕ) → n ≤ 3 → take n values.new ≡ take n (three_ones signs) }
{
    values[0] = one_at(signs, 0);
    values[1] = one_at(signs, 1);
    values[2] = one_at(signs, 2);
}

// one of the ones of three sign bits
#[inline(always)]
fn one_at(signs: u32, k: usize) -> i16
    requires three { signs < 8 }
    requires within { k < 3 }
    ensures { result ≡ one_of_sign (signs / 2 ^ (2 - k) % 2 == 1) }
{
    ONES[signs as usize][k]
}

// the ones of three sign bits, the first one's sign the most significant bit
static ONES: [[i16; 3]; 8] = [
    [1, 1, 1],
    [1, 1, -1],
    [1, -1, 1],
    [1, -1, -1],
    [-1, 1, 1],
    [-1, 1, -1],
    [-1, -1, 1],
    [-1, -1, -1],
];

// The levels that are no trailing ones, put behind those that have been read.
#[inline(always)]
fn read_others(
    reader: &mut BitReader,
    values: &mut [i16; 16],
    first: Progress,
    total: usize,
) -> Result<(), Fault>
    requires some { first.count ≤ total }
    requires few { total ≤ 16 }
    requires size { All IsLevel (take first.count values.old) }
    requires stage { first.stage < 9 }
    ensures read { ReadsInto result (take total values.new)
        (left_from (take first.count values.old) (total - first.count) first.stage) reader.old
        reader.new }
    ensures size { IfOk result (λ _. All IsLevel (take total values.new)) }
{
    let mut stage = first.stage;
    let mut k = first.count;
    'levels: while k < total {
        let level = read_level(reader, stage)?;
        values[k] = level.value;
        let next = Progress {
            count: k + 1,
            stage: level.next,
        };
        let short = read_window(reader, values, next, total);
        k = short.count;
        stage = short.stage;
    }
    Ok(())
}

// The levels from the next one on whose codewords are short and stand in one window; none of them
// where the stop bit may be near.
#[inline(always)]
fn read_window(
    reader: &mut BitReader,
    values: &mut [i16; 16],
    next: Progress,
    total: usize,
) -> Progress
    requires some { next.count ≤ total }
    requires few { total ≤ 16 }
    requires size { All IsLevel (take next.count values.old) }
    requires stage { next.stage < 9 }
    ensures read { AreRead (left_from (take next.count values.old) (total - next.count) next.stage
        (reader_bits reader.old))
        total result.count result.stage values.new (reader_bits reader.new) }
    ensures least { next.count ≤ result.count }
    ensures bytes { reader_bytes reader.new ≡ reader_bytes reader.old }
{
    if next.count < total && reader.has_many() {
        let window = reader.window();
        return read_short_levels(reader, window, 0, values, next, total);
    }
    next
}

// The levels from the next one on whose codewords are short, behind the first bits of a window.
#[inline(always)]
fn read_short_levels(
    reader: &mut BitReader,
    window: Window,
    front: u32,
    values: &mut [i16; 16],
    first: Progress,
    total: usize,
) -> Progress
    requires some { first.count ≤ total }
    requires few { total ≤ 16 }
    requires size { All IsLevel (take first.count values.old) }
    requires stage { first.stage < 9 }
    requires window { IsWindow window (reader_bits reader.old) }
    requires front { front ≤ 19 }
    ensures read { AreRead (left_from (take first.count values.old) (total - first.count)
        first.stage (passed (reader_bits reader.old) front))
        total result.count result.stage values.new (reader_bits reader.new) }
    ensures least { first.count ≤ result.count }
    ensures bytes { reader_bytes reader.new ≡ reader_bytes reader.old }
{
    let mut passed = front;
    let mut next = first.stage;
    let mut k = first.count;
    'levels: while k < total && passed <= LAST_SHORT {
        let short = short_level(next, window.bits(passed, SHORT_BITS));
        if short.length == 0 {
            break;
        }
        values[k] = short.value;
        passed += u32::from(short.length);
        next = short.next;
        k += 1;
    }
    reader.skip_ahead(passed);
    Progress {
        count: k,
        stage: next,
    }
}

// One level that is no trailing one: by a table where its codeword is short.
#[inline(always)]
fn read_level(reader: &mut BitReader, stage: u8) -> Result<Level, Fault>
    requires stage { stage < 9 }
    ensures read { ReadsLevel result (level (stage_length stage) (stage_above stage)) reader.old
        reader.new }
    ensures size { IfOk result (λ l. IsLevel l.value) }
    ensures next { IfOk result (λ l. l.next ≡ next_suffix_length (stage_length stage) l.value) }
{
    if reader.has_many() {
        let short = short_level(stage, reader.peek(SHORT_BITS));
        if short.length > 0 {
            reader.skip_ahead(u32::from(short.length));
            return Ok(short);
        }
    }
    read_long_level(reader, stage)
}

// What the next seven bits say of a level.
#[tactic(auto, unfolding(crate::specs::Steps::short_level))]
#[inline(always)]
fn short_level(stage: u8, bits: u32) -> Level
    requires stage { stage < 9 }
    requires seven { bits < 128 }
    ensures { result ≡ short_level stage bits }
{
    short_level_in(&SHORT_LEVELS, usize::from(stage), bits as usize)
}

#[inline(always)]
fn short_level_in(tables: &[[Level; 128]; 9], stage: usize, bits: usize) -> Level
    requires stage { stage < 9 }
    requires seven { bits < 128 }
    ensures { AreShortLevels tables.now → result ≡ short_level stage bits }
{
    tables[stage][bits]
}

// Any level that is no trailing one.
#[inline(always)]
fn read_long_level(reader: &mut BitReader, stage: u8) -> Result<Level, Fault>
    requires stage { stage < 9 }
    ensures read { ReadsLevel result (level (stage_length stage) (stage_above stage)) reader.old
        reader.new }
    ensures size { IfOk result (λ l. IsLevel l.value) }
    ensures next { IfOk result (λ l. l.next ≡ next_suffix_length (stage_length stage) l.value) }
{
    let suffix_length = stage_length(stage);
    let code = read_level_code(reader, suffix_length, stage_above(stage))?;
    Ok(Level {
        value: level_of_code(code),
        length: 0,
        next: raised(suffix_length.max(1), size_of_code(code)) as u8,
    })
}

// the suffixLength of a stage
#[inline(always)]
fn stage_length(stage: u8) -> u32
    requires { stage < 9 }
    ensures value { result ≡ stage_length stage }
    ensures few { result ≤ 6 }
{
    if stage < ABOVE_ONE {
        u32::from(stage)
    } else {
        u32::from(stage - ABOVE_ONE)
    }
}

// whether the size of the level is known to be above 1
#[inline(always)]
fn stage_above(stage: u8) -> bool
    requires { stage < 9 }
    ensures value { result ≡ stage_above stage }
    ensures first { IsTrue result → stage_length stage ≤ 1 }
{
    stage >= ABOVE_ONE
}

// levelCode of one level that is no trailing one; above_one says that its size is known to be above
// 1.
#[inline(always)]
fn read_level_code(
    reader: &mut BitReader,
    suffix_length: u32,
    above_one: bool,
) -> Result<u32, Fault>
    requires length { suffix_length ≤ 6 }
    requires first { IsTrue above_one → suffix_length ≤ 1 }
    ensures read { ReadsCode result (level suffix_length above_one) reader.old reader.new }
    ensures most { IfOk result (λ code. code ≤ 5055) }
{
    match reader.zeros_and_bits(13, suffix_length) {
        Some((prefix, suffix)) => Ok(level_code(prefix, suffix_length, suffix, above_one)),
        None => read_long_code(reader, suffix_length, above_one),
    }
}

// A level's code with any prefix, and anywhere in the data.
#[inline(always)]
fn read_long_code(reader: &mut BitReader, suffix_length: u32, above_one: bool) -> Result<u32, Fault>
    requires length { suffix_length ≤ 6 }
    requires first { IsTrue above_one → suffix_length ≤ 1 }
    ensures read { ReadsCode result (level suffix_length above_one) reader.old reader.new }
    ensures most { IfOk result (λ code. code ≤ 5055) }
{
    let code = long_code(*reader, suffix_length, above_one)?;
    reader.skip(code.length)?;
    Ok(code.number)
}

// levelCode of a level ahead, and its length in bits
#[derive(Clone, Copy)]
struct LongCode {
    number: u32,
    length: u32,
}

// what stands ahead; the reader is a copy, so that the caller's may stay in registers
#[cold]
#[inline(never)]
fn long_code(reader: BitReader, suffix_length: u32, above_one: bool) -> Result<LongCode, Fault>
    requires length { suffix_length ≤ 6 }
    requires first { IsTrue above_one → suffix_length ≤ 1 }
    ensures read { IsLongCode result (level suffix_length above_one) (reader_bits reader.entry) }
    ensures most { IfOk result (λ code. code.number ≤ 5055) }
{
    let mut after = reader;
    let prefix = after.zeros_before_one(15, Fault::BadCode)?;
    let size = suffix_size(prefix, suffix_length);
    let suffix = after.u(size)?;
    Ok(LongCode {
        number: level_code(prefix, suffix_length, suffix, above_one),
        length: prefix + 1 + size,
    })
}

/// How many suffix bits follow a prefix (levelSuffixSize), where `suffix_length` (suffixLength) is
/// at most 6.
#[inline]
pub fn suffix_size(prefix: u32, suffix_length: u32) -> u32
    requires { suffix_length ≤ 6 }
    ensures value { result ≡ suffix_size prefix suffix_length }
    ensures most { result ≤ 12 }
{
    if prefix == 14 && suffix_length == 0 {
        4
    } else if prefix == 15 {
        12
    } else {
        suffix_length
    }
}

/// levelCode of a prefix up to 15 and its suffix; `above_one` says that the level's size is known
/// to be above 1.
#[inline]
pub fn level_code(prefix: u32, suffix_length: u32, suffix: u32, above_one: bool) -> u32
    requires prefix { prefix ≤ 15 }
    requires length { suffix_length ≤ 6 }
    requires suffix { suffix < 2 ^ suffix_size prefix suffix_length }
    ensures { result ≡ level_code prefix suffix_length suffix above_one }
{
    let mut code = (prefix << suffix_length) + suffix;
    if prefix == 15 && suffix_length == 0 {
        code += 15;
    }
    if above_one {
        code += 2;
    }
    code
}

// 1, -1, 2, -2, .. for 0, 1, 2, 3, ..
#[inline(always)]
fn level_of_code(code: u32) -> i16
    requires { code ≤ 5055 }
    ensures value { result ≡ level_of_code code }
    ensures size { IsLevel result }
{
    let size = size_of_code(code) as i16;
    if code % 2 == 0 { size } else { 0 - size }
}

// 1, 1, 2, 2, .. for 0, 1, 2, 3, ..
#[inline(always)]
fn size_of_code(code: u32) -> u32
    requires { code ≤ 5055 }
    ensures value { result ≡ nat_abs (level_of_code code) }
    ensures half { result ≡ code / 2 + 1 }
{
    code / 2 + 1
}

/// suffixLength for the level after this one, from 1 to 6.
#[inline]
pub fn next_suffix_length(suffix_length: u32, level: i16) -> u32
    requires few { suffix_length ≤ 6 }
    requires size { IsLevel level }
    ensures value { result ≡ next_suffix_length suffix_length level }
    ensures some { 1 ≤ result }
    ensures few { result ≤ 6 }
{
    raised(suffix_length.max(1), u32::from(level.unsigned_abs()))
}

// suffixLength for the level after one of this size, where it is at least 1
#[inline(always)]
fn raised(suffix_length: u32, size: u32) -> u32
    requires some { 1 ≤ suffix_length }
    requires few { suffix_length ≤ 6 }
    ensures value { result ≡ raised suffix_length size }
    ensures some { 1 ≤ result }
    ensures few { result ≤ 6 }
{
    if suffix_length < MOST_SUFFIX_BITS && size > 3 << (suffix_length - 1) {
        suffix_length + 1
    } else {
        suffix_length
    }
}

// What seven bits say that begin with so many zeros, at a suffixLength. levelCode is greater by
// `above`, and the suffixLength after it is `least`, or 1 more where the size is above `limit`.
macro_rules! short_level {
    ($suffix_length:literal, $least:literal, $limit:literal, $above:literal, $zeros:literal, $bits:expr) => {
        level_of!(
            ($zeros << $suffix_length) + (($bits << ($zeros + 1)) % 128 >> (7 - $suffix_length)) + $above,
            $zeros + 1 + $suffix_length,
            $least,
            $limit
        )
    };
}

macro_rules! level_of {
    ($code:expr, $length:expr, $least:literal, $limit:literal) => {
        Level {
            value: (($length <= 7) as i16) * ($code / 2 + 1) * (1 - 2 * ($code % 2)),
            length: (($length <= 7) as u8) * $length,
            next: (($length <= 7) as u8) * ($least + (($code / 2 >= $limit) as u8)),
        }
    };
}

macro_rules! levels {
    ($s:literal, $l:literal, $m:literal, $a:literal; $($zeros:literal $bits:literal),+) => {
        [$(short_level!($s, $l, $m, $a, $zeros, $bits)),+]
    };
}

// Those of a stage: each number of seven bits, and before it how many zeros it begins with.
macro_rules! stage {
    ($s:literal, $l:literal, $m:literal, $a:literal) => {
        levels!(
            $s, $l, $m, $a;
            7 0, 6 1, 5 2, 5 3, 4 4, 4 5, 4 6, 4 7, 3 8, 3 9, 3 10, 3 11, 3 12, 3 13, 3 14, 3 15,
            2 16, 2 17, 2 18, 2 19, 2 20, 2 21, 2 22, 2 23, 2 24, 2 25, 2 26, 2 27, 2 28, 2 29, 2 30, 2 31,
            1 32, 1 33, 1 34, 1 35, 1 36, 1 37, 1 38, 1 39, 1 40, 1 41, 1 42, 1 43, 1 44, 1 45, 1 46, 1 47,
            1 48, 1 49, 1 50, 1 51, 1 52, 1 53, 1 54, 1 55, 1 56, 1 57, 1 58, 1 59, 1 60, 1 61, 1 62, 1 63,
            0 64, 0 65, 0 66, 0 67, 0 68, 0 69, 0 70, 0 71, 0 72, 0 73, 0 74, 0 75, 0 76, 0 77, 0 78, 0 79,
            0 80, 0 81, 0 82, 0 83, 0 84, 0 85, 0 86, 0 87, 0 88, 0 89, 0 90, 0 91, 0 92, 0 93, 0 94, 0 95,
            0 96, 0 97, 0 98, 0 99, 0 100, 0 101, 0 102, 0 103, 0 104, 0 105, 0 106, 0 107, 0 108, 0 109, 0 110, 0 111,
            0 112, 0 113, 0 114, 0 115, 0 116, 0 117, 0 118, 0 119, 0 120, 0 121, 0 122, 0 123, 0 124, 0 125, 0 126, 0 127
        )
    };
}

// By the stage: suffixLength 0 to 6, and 0 and 1 where the size is known to be above 1.
static SHORT_LEVELS: [[Level; 128]; 9] = [
    stage!(0, 1, 3, 0),
    stage!(1, 1, 3, 0),
    stage!(2, 2, 6, 0),
    stage!(3, 3, 12, 0),
    stage!(4, 4, 24, 0),
    stage!(5, 5, 48, 0),
    stage!(6, 6, 100, 0),
    stage!(0, 1, 3, 2),
    stage!(1, 1, 3, 2),
];
