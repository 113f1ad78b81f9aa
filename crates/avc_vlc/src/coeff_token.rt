//! coeff_token (9.2.1, Table 9-5). A table has a row for each number of zeros in front of the first
//! 1, the last for all that are more, and a column for each value of the three bits behind that 1.
ghost use Rattle.std.specs.Prelude.{◌≡◌, ◌≤◌, ◌<◌, ◌<ℤ◌, ℕ, ℤ, pos, List, Bool, length, Ok, Err};
ghost use Rattle.std.specs.Prelude.{IfOk, IfSome, MatchOption, OnErr};
ghost use Rattle.avc_types.specs.declared.fault.Fault.TheVariants.{BadCode};
ghost use Rattle.avc_bits.specs.Bits.{Bits, passed};
ghost use Rattle.avc_bits.specs.Reader.{IsWindow, Reads, reader_bits};
ghost use Rattle.avc_vlc.specs.Reading.{IsToken, Table, coeff_token, token_table, tokens_8};
ghost use Rattle.avc_vlc.specs.Indexing.{AreIndexed, AreWithin, Decides, IsIndexed, IsWithin};
ghost use Rattle.avc_vlc.specs.Indexing.{Shows};
ghost use Rattle.avc_vlc.specs.Indexing.{class_table, six_bit_entry, six_bit_number};
ghost use Rattle.avc_vlc.specs.Writing.{is_token_same, token_word, word_bits, word_of};
ghost use Rattle.std.specs.Option.{option_map};

use crate::code::Code;
use crate::codeword::Codeword;
use crate::entry::{Entry, entry, row8};
use avc_bits::{BitReader, Window};
use avc_types::Fault;

/// What coeff_token says of a block (9.2.1).
#[derive(Clone, Copy)]
pub struct Token {
    /// TotalCoeff: how many levels are not 0, at most 16.
    pub total: u8,
    /// TrailingOnes: how many of the last ones are 1 or -1, at most 3.
    pub ones: u8,
}

/// A codeword of coeff_token.
#[derive(Clone, Copy)]
pub struct TokenCode {
    /// How many bits it has.
    pub length: u8,
    /// What it stands for.
    pub token: Token,
}

/// The codeword of coeff_token that a window begins with; `nc` is as that of `read_coeff_token`.
/// `None` where no codeword stands.
#[inline(always)]
pub fn coeff_token_ahead(window: Window, nc: i8) -> Option<TokenCode>
    ensures read { (b : Bits) → IsWindow window b → MatchOption result
        (coeff_token nc b ≡ Err BadCode)
        (λ code. coeff_token nc b ≡ Ok (code.token, passed b code.length)) }
    ensures range { (b : Bits) → IsWindow window b → IfSome result (λ code. IsToken code.token) }
    ensures short { IfSome result (λ code. code.length ≤ 16) }
{
    let entry = token_entry(Code::<16>::of(window), nc);
    match entry.value {
        Some(token) => Some(TokenCode {
            length: entry.length,
            token,
        }),
        None => None,
    }
}

/// Reads TotalCoeff and TrailingOnes of a block. `nc` is nC: how many levels the blocks beside it
/// have, -1 for chroma DC. Answers `Truncated`, or `BadCode` where no codeword stands; the reader
/// then stays.
#[inline]
pub fn read_coeff_token(reader: &mut BitReader, nc: i8) -> Result<Token, Fault>
    ensures read { Reads result (coeff_token nc) reader.old reader.new }
    ensures range { IfOk result IsToken }
    ensures stays { OnErr result (reader.new ≡ reader.old) }
{
    if reader.has_many() {
        let code = Code::<16>::look(reader);
        read_coded(reader, token_entry(code, nc), nc)
    } else {
        read_near_end(reader, nc)
    }
}

// coeff_token, where the stop bit may be near.
#[inline(always)]
fn read_near_end(reader: &mut BitReader, nc: i8) -> Result<Token, Fault>
    ensures read { Reads result (coeff_token nc) reader.old reader.new }
    ensures range { IfOk result IsToken }
    ensures stays { OnErr result (reader.new ≡ reader.old) }
{
    read_coded(reader, entry_near_end(*reader, nc), nc)
}

// what the bits decide, where the stop bit may be near
#[cold]
#[inline(never)]
fn entry_near_end(reader: BitReader, nc: i8) -> Entry<Token>
    ensures { Decides (token_table nc) (reader_bits reader.entry).ahead result }
{
    token_entry(Code::<16>::look(&reader), nc)
}

// Reads what the bits decide.
#[inline(always)]
fn read_coded(reader: &mut BitReader, entry: Entry<Token>, nc: i8) -> Result<Token, Fault>
    requires { Decides (token_table nc) (reader_bits reader.old).ahead entry }
    ensures read { Reads result (coeff_token nc) reader.old reader.new }
    ensures range { IfOk result IsToken }
    ensures stays { OnErr result (reader.new ≡ reader.old) }
{
    entry.read(reader)
}

/// The codeword of TotalCoeff and TrailingOnes, `None` where nC has none for them.
pub fn coeff_token_word(nc: i8, token: Token) -> Option<Codeword>
    ensures { option_map word_bits result ≡ token_word nc token }
{
    if nc < 8 {
        Codeword::in_table(&TOKENS, class_of(nc), 3, token)
    } else {
        six_bit_word(token)
    }
}

fn six_bit_word(token: Token) -> Option<Codeword>
    ensures { option_map word_bits result ≡ word_of (is_token_same token) tokens_8 }
{
    let number = six_bit_number(token);
    if number >= 64 {
        return None;
    }
    if six_bits(number).holds(token) {
        Some(Codeword { length: 6, number })
    } else {
        None
    }
}

// the number whose entry alone can be the token's
fn six_bit_number(token: Token) -> u32
    ensures { result ≡ six_bit_number token }
{
    if token.total == 0 {
        3
    } else {
        4 * (u32::from(token.total) - 1) + u32::from(token.ones)
    }
}

// what the bits decide
#[inline(always)]
fn token_entry(code: Code<16>, nc: i8) -> Entry<Token>
    ensures short { result.length ≤ 16 }
    ensures decides { (ahead : List Bool) → Shows code ahead →
        Decides (token_table nc) ahead result }
{
    if nc < 8 {
        token_in(code, &TOKENS, class_of(nc))
    } else {
        nc_8(code)
    }
}

// the place of the table for an nC below 8, by arithmetic, since it can't be foreseen
#[inline(always)]
fn class_of(nc: i8) -> usize
    requires { nc <ℤ pos 8 }
    ensures below { result < 4 }
    ensures table { class_table result ≡ token_table nc }
{
    if nc < 0 { 3 } else { (nc as usize / 2).min(2) }
}

// six bits: (TotalCoeff - 1) * 4 + TrailingOnes, and 3 for no coefficient
#[inline(always)]
fn nc_8(code: Code<16>) -> Entry<Token>
    ensures short { result.length ≤ 16 }
    ensures decides { (ahead : List Bool) → Shows code ahead → Decides tokens_8 ahead result }
{
    six_bits(code.front(6))
}

#[inline(always)]
fn six_bits(number: u32) -> Entry<Token>
    requires { number < 64 }
    ensures { result ≡ six_bit_entry number }
{
    let total = (number / 4) as u8 + 1;
    let ones = (number % 4) as u8;
    let value = if number == 3 {
        Some(Token { total: 0, ones: 0 })
    } else if ones > total {
        None
    } else {
        Some(Token { total, ones })
    };
    Entry { length: 6, value }
}

// what the bits decide by a table
#[inline(always)]
fn token_at(code: Code<16>, rows: &[[Entry<Token>; 8]]) -> Entry<Token>
    requires { length rows.now ≡ 16 }
    ensures short { (most : ℕ) → IsWithin most rows.now → result.length ≤ most }
    ensures decides { (table : Table Token) (ahead : List Bool) → IsIndexed table 3 rows.now →
        Shows code ahead → Decides table ahead result }
{
    let (row, column) = code.place(15, 3);
    rows[row][column]
}

// what the bits decide by one of several tables
#[inline(always)]
fn token_in(code: Code<16>, tables: &[[[Entry<Token>; 8]; 16]; 4], table: usize) -> Entry<Token>
    requires { table < 4 }
    ensures short { (most : ℕ) → AreWithin most tables.now → result.length ≤ most }
    ensures decides { (each : ℕ → Table Token) (ahead : List Bool) →
        AreIndexed each 3 16 tables.now → Shows code ahead → Decides (each table) ahead result }
{
    token_at(code, &tables[table])
}

// Sixteen rows, of which those behind the given ones are the last of them again.
macro_rules! rows16 {
    (8: $($row:expr),+; $last:expr) => {
        [$($row),+, $last, $last, $last, $last, $last, $last, $last, $last, $last]
    };
    (11: $($row:expr),+; $last:expr) => {
        [$($row),+, $last, $last, $last, $last, $last, $last]
    };
    (14: $($row:expr),+; $last:expr) => {
        [$($row),+, $last, $last, $last]
    };
}

// By the class of nC: 0 and 1, 2 and 3, 4 to 7, and chroma DC.
static TOKENS: [[[Entry<Token>; 8]; 16]; 4] = [
    [
        row8!((1, 0, 0)),
        row8!((2, 1, 1)),
        row8!((3, 2, 2)),
        row8!((6, 2, 1), (6, 1, 0), (5, 3, 3), (5, 3, 3)),
        row8!((7, 5, 3), (7, 3, 2), (6, 4, 3), (6, 4, 3)),
        row8!((8, 6, 3), (8, 4, 2), (8, 3, 1), (8, 2, 0)),
        row8!((9, 7, 3), (9, 5, 2), (9, 4, 1), (9, 3, 0)),
        row8!((10, 8, 3), (10, 6, 2), (10, 5, 1), (10, 4, 0)),
        row8!((11, 9, 3), (11, 7, 2), (11, 6, 1), (11, 5, 0)),
        row8!(13: 8 0, 9 2, 8 1, 7 0, 10 3, 8 2, 7 1, 6 0),
        row8!(14: 12 3, 11 2, 10 1, 10 0, 11 3, 10 2, 9 1, 9 0),
        row8!(15: 14 3, 13 2, 12 1, 12 0, 13 3, 12 2, 11 1, 11 0),
        row8!(16: 16 3, 15 2, 15 1, 14 0, 15 3, 14 2, 14 1, 13 0),
        row8!((16, 16, 0), (16, 16, 2), (16, 16, 1), (16, 15, 0)),
        row8!((15, 13, 1)),
        row8!((15)),
    ],
    rows16!(
        14:
        row8!((2, 1, 1), (2, 0, 0)),
        row8!((4, 4, 3), (4, 3, 3), (3, 2, 2), (3, 2, 2)),
        row8!(
            (6, 6, 3),
            (6, 3, 2),
            (6, 3, 1),
            (6, 1, 0),
            (5, 5, 3),
            (5, 5, 3),
            (5, 2, 1),
            (5, 2, 1)
        ),
        row8!((6, 7, 3), (6, 4, 2), (6, 4, 1), (6, 2, 0)),
        row8!((7, 8, 3), (7, 5, 2), (7, 5, 1), (7, 3, 0)),
        row8!((8, 5, 0), (8, 6, 2), (8, 6, 1), (8, 4, 0)),
        row8!((9, 9, 3), (9, 7, 2), (9, 7, 1), (9, 6, 0)),
        row8!(11: 11 3, 9 2, 9 1, 8 0, 10 3, 8 2, 8 1, 7 0),
        row8!(12: 11 0, 11 2, 11 1, 10 0, 12 3, 10 2, 10 1, 9 0),
        row8!(13: 14 3, 13 2, 13 1, 13 0, 13 3, 12 2, 12 1, 12 0),
        row8!(
            (14, 15, 1),
            (14, 15, 0),
            (14, 15, 2),
            (14, 14, 1),
            (13, 14, 2),
            (13, 14, 2),
            (13, 14, 0),
            (13, 14, 0)
        ),
        row8!((14, 16, 3), (14, 16, 2), (14, 16, 1), (14, 16, 0)),
        row8!((13, 15, 3));
        row8!((13))
    ),
    rows16!(
        11:
        row8!(4: 7 3, 6 3, 5 3, 4 3, 3 3, 2 2, 1 1, 0 0),
        row8!(5: 5 1, 5 2, 4 1, 4 2, 3 1, 8 3, 3 2, 2 1),
        row8!(6: 3 0, 7 2, 7 1, 2 0, 9 3, 6 2, 6 1, 1 0),
        row8!(7: 7 0, 6 0, 9 2, 5 0, 10 3, 8 2, 8 1, 4 0),
        row8!(8: 12 3, 11 2, 10 1, 9 0, 11 3, 10 2, 9 1, 8 0),
        row8!(9: 12 0, 13 2, 12 1, 11 0, 13 3, 12 2, 11 1, 10 0),
        row8!(
            (10, 15, 1),
            (10, 14, 0),
            (10, 14, 3),
            (10, 14, 2),
            (10, 14, 1),
            (10, 13, 0),
            (9, 13, 1),
            (9, 13, 1)
        ),
        row8!((10, 16, 1), (10, 15, 0), (10, 15, 3), (10, 15, 2)),
        row8!((10, 16, 3), (10, 16, 2)),
        row8!((10, 16, 0));
        row8!((10))
    ),
    rows16!(
        8:
        row8!((1, 1, 1)),
        row8!((2, 0, 0)),
        row8!((3, 2, 2)),
        row8!((6, 2, 0), (6, 3, 3), (6, 2, 1), (6, 1, 0)),
        row8!((6, 4, 0), (6, 3, 0)),
        row8!((7, 3, 2), (7, 3, 1)),
        row8!((8, 4, 2), (8, 4, 1));
        row8!((7, 4, 3))
    ),
];
