//! Entries of code tables.

ghost use Rattle.std.specs.Prelude.{◌≡◌, ◌≤◌, ℕ, List, Bool, true, false, length, slice_index_or};
ghost use Rattle.std.specs.Prelude.{◌<◌, MatchOption, OnErr, None, Err};
ghost use Rattle.std.specs.List.{list_any};
ghost use Rattle.avc_bits.specs.Reader.{Reads, reader_bits};
ghost use Rattle.avc_vlc.specs.Reading.{Table, table_code};
ghost use Rattle.avc_vlc.specs.Indexing.{AreIndexed, AreWithin, Decides, IsIndexed, IsWithin};
ghost use Rattle.avc_vlc.specs.Indexing.{Shows, holds};

use crate::code::Code;
use crate::coeff_token::Token;
use avc_bits::BitReader;
use avc_types::Fault;

/// What the front of some bits decides: it is a codeword, or no codeword begins with it.
#[derive(Clone, Copy)]
pub(crate) struct Entry<V> {
    /// The number of bits of the front.
    pub(crate) length: u8,
    /// The codeword's value.
    pub(crate) value: Option<V>,
}

/// What a table has codewords of.
pub(crate) trait Coded: Copy {
    ghost same: { Self → Self → Bool };

    /// Whether it is this one.
    fn is(self, other: Self) -> bool
        ensures { result ≡ same self other };

    ghost same_is: { (a b : Self) → same a b ≡ true → a ≡ b };
}

impl Coded for u8 {
    ghost use Rattle.avc_vlc.specs.Writing.{is_number_same, number_is_same};

    ghost same = { is_number_same };

    ghost same_is = { number_is_same };

    fn is(self, other: u8) -> bool {
        other == self
    }
}

impl Coded for Token {
    ghost use Rattle.avc_vlc.specs.Writing.{is_token_same, token_is_same};

    ghost same = { is_token_same };

    ghost same_is = { token_is_same };

    fn is(self, other: Token) -> bool {
        other.total == self.total && other.ones == self.ones
    }
}

impl<V: Coded> Entry<V> {
    ghost use Rattle.avc_vlc.specs.Indexing.{holds};

    // whether it is the codeword of this value
    pub(crate) fn holds(self, value: V) -> bool
        ensures { result ≡ holds V.same value self }
    {
        match self.value {
            Some(own) => value.is(own),
            None => false,
        }
    }
}

impl<V: Copy> Entry<V> {
    /// Reads the codeword, or answers `Truncated` where the bits end inside the front, else
    /// `BadCode`.
    #[inline(always)]
    pub(crate) fn read(self, reader: &mut BitReader) -> Result<V, Fault>
        ensures read { (table : Table V) → Decides table (reader_bits reader.old).ahead self →
            Reads result (table_code table) reader.old reader.new }
        ensures stays { OnErr result (reader.new ≡ reader.old) }
    {
        match self.value {
            Some(value) => match reader.skip(u32::from(self.length)) {
                Ok(()) => Ok(value),
                Err(fault) => Err(fault),
            },
            None => Err(self.refused(*reader)),
        }
    }

    // the fault where no codeword begins with the front
    #[cold]
    #[inline(never)]
    fn refused(self, reader: BitReader) -> Fault
        requires { self.value ≡ None }
        ensures { (table : Table V) → Decides table (reader_bits reader.entry).ahead self →
            table_code table (reader_bits reader.entry) ≡ Err result }
    {
        let mut after = reader;
        match after.skip(u32::from(self.length)) {
            Ok(()) => Fault::BadCode,
            Err(fault) => fault,
        }
    }
}

// the first place in a row whose entry is the codeword of the value
pub(crate) fn column_of<V: Coded, const N: usize>(row: &[Entry<V>; N], value: V) -> Option<usize>
    ensures { MatchOption result (list_any (holds V.same value) row.now ≡ false)
        (λ column. (column < N) ×
        ((e : Entry V) → holds V.same value (slice_index_or row.now column e) ≡ true)) }
{
    'columns: for column in 0..N {
        if row[column].holds(value) {
            return Some(column);
        }
    }
    None
}

// Reads a number by a table.
#[inline(always)]
pub(crate) fn number_by(reader: &mut BitReader, rows: &[[Entry<u8>; 4]]) -> Result<u8, Fault>
    requires some { 1 ≤ length rows.now }
    requires few { length rows.now ≤ 16 }
    ensures read { (table : Table ℕ) → IsIndexed table 2 rows.now →
        Reads result (table_code table) reader.old reader.new }
    ensures stays { OnErr result (reader.new ≡ reader.old) }
{
    if reader.has_many() {
        let code = Code::<16>::look(reader);
        number_at(code, rows).read(reader)
    } else {
        number_near_end(reader, rows)
    }
}

// A number by its rows of entries, where the stop bit may be near.
#[inline(always)]
fn number_near_end(reader: &mut BitReader, rows: &[[Entry<u8>; 4]]) -> Result<u8, Fault>
    requires some { 1 ≤ length rows.now }
    requires few { length rows.now ≤ 16 }
    ensures read { (table : Table ℕ) → IsIndexed table 2 rows.now →
        Reads result (table_code table) reader.old reader.new }
    ensures stays { OnErr result (reader.new ≡ reader.old) }
{
    entry_near_end(*reader, rows).read(reader)
}

// what the bits decide, where the stop bit may be near
#[cold]
#[inline(never)]
fn entry_near_end(reader: BitReader, rows: &[[Entry<u8>; 4]]) -> Entry<u8>
    requires some { 1 ≤ length rows.now }
    requires few { length rows.now ≤ 16 }
    ensures { (table : Table ℕ) → IsIndexed table 2 rows.now →
        Decides table (reader_bits reader.entry).ahead result }
{
    number_at(Code::<16>::look(&reader), rows)
}

// What the bits decide by a table of numbers.
#[inline(always)]
pub(crate) fn number_at(code: Code<16>, rows: &[[Entry<u8>; 4]]) -> Entry<u8>
    requires some { 1 ≤ length rows.now }
    requires few { length rows.now ≤ 16 }
    ensures decides { (table : Table ℕ) (ahead : List Bool) → IsIndexed table 2 rows.now →
        Shows code ahead → Decides table ahead result }
    ensures short { (most : ℕ) → IsWithin most rows.now → result.length ≤ most }
{
    let (row, column) = code.place(rows.len() - 1, 2);
    rows[row][column]
}

// What the bits decide by one of several tables of numbers.
#[inline(always)]
pub(crate) fn number_in<const ROWS: usize, const TABLES: usize>(
    code: Code<16>,
    tables: &[[[Entry<u8>; 4]; ROWS]; TABLES],
    table: usize,
) -> Entry<u8>
    requires some { 1 ≤ ROWS }
    requires few { ROWS ≤ 16 }
    requires there { table < TABLES }
    ensures short { (most : ℕ) → AreWithin most tables.now → result.length ≤ most }
    ensures decides { (each : ℕ → Table ℕ) (ahead : List Bool) → AreIndexed each 2 ROWS tables.now →
        Shows code ahead → Decides (each table) ahead result }
{
    number_at(code, &tables[table])
}

// An entry: (length) of a front with which no codeword begins, (length, value) of a codeword,
// (length, TotalCoeff, TrailingOnes) of a codeword of coeff_token.
macro_rules! entry {
    (($length:literal)) => {
        Entry { length: $length, value: None }
    };
    (($length:literal, $value:literal)) => {
        Entry { length: $length, value: Some($value) }
    };
    (($length:literal, $total:literal, $ones:literal)) => {
        Entry { length: $length, value: Some(Token { total: $total, ones: $ones }) }
    };
}

// A row of four places or of eight, where fewer entries stand for two or more places each; eight
// codewords of one length stand after it.
macro_rules! row4 {
    ($a:tt) => {
        [entry!($a); 4]
    };
    ($a:tt, $b:tt) => {
        [entry!($a), entry!($a), entry!($b), entry!($b)]
    };
    ($a:tt, $b:tt, $c:tt, $d:tt) => {
        [entry!($a), entry!($b), entry!($c), entry!($d)]
    };
}

macro_rules! row8 {
    ($a:tt) => {
        [entry!($a); 8]
    };
    ($length:literal: $($total:literal $ones:literal),+) => {
        [$(entry!(($length, $total, $ones))),+]
    };
    ($a:tt, $b:tt) => {
        row8!($a, $a, $b, $b)
    };
    ($a:tt, $b:tt, $c:tt, $d:tt) => {
        row8!($a, $a, $b, $b, $c, $c, $d, $d)
    };
    ($($all:tt),+) => {
        [$(entry!($all)),+]
    };
}

pub(crate) use entry;
pub(crate) use row4;
pub(crate) use row8;
