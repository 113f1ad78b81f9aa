//! run_before (9.2.3, Table 9-10). Where six zeros are left at most, the next three bits decide.
//! Else a table has a row for each number of zeros in front of the first 1, the last for all that
//! are more, and a column for each value of the two bits behind that 1.
ghost use Rattle.std.specs.Prelude.{◌≡◌, ◌+◌, ◌≤◌, ◌<◌, List, Bool, Ok, Err, IfOk, IfSome, OnErr};
ghost use Rattle.std.specs.Prelude.{length, take};
ghost use Rattle.avc_bits.specs.Bits.{Bits, number_of, passed};
ghost use Rattle.avc_bits.specs.Reader.{IsWindow, Reads, reader_bits, reader_bytes};
ghost use Rattle.avc_vlc.specs.Reading.{run_before, run_table};
ghost use Rattle.avc_vlc.specs.Indexing.{AreRuns, AreShortRuns, Decides, Shows, entry_of_run};
ghost use Rattle.avc_vlc.specs.Indexing.{few_table, short_run};
ghost use Rattle.avc_vlc.specs.Writing.{is_number_same, run_word, word_bits, word_of};
ghost use Rattle.std.specs.Option.{option_map};

use crate::code::Code;
use crate::codeword::Codeword;
use crate::entry::{Entry, entry, number_at, row4};
use avc_bits::{BitReader, Window};
use avc_types::Fault;

/// A codeword of run_before or of total_zeros.
#[derive(Clone, Copy)]
pub struct Run {
    /// How many bits it has.
    pub length: u8,
    /// How many zeros it stands for.
    pub zeros: u8,
}

/// Reads how many zeros stand right before a level, where `zeros_left` zeros are left for it and
/// those before it. Answers `Truncated`, or `BadCode` where no codeword stands or the run is
/// longer; the reader then stays.
#[inline]
pub fn read_run_before(reader: &mut BitReader, zeros_left: u8) -> Result<u8, Fault>
    ensures read { Reads result (run_before zeros_left) reader.old reader.new }
    ensures most { IfOk result (λ run. run ≤ zeros_left) }
    ensures stays { OnErr result (reader.new ≡ reader.old) }
{
    if !reader.has_many() {
        return read_near_end(reader, zeros_left);
    }
    if zeros_left > 0 && zeros_left <= 6 {
        return Ok(read_few(reader, zeros_left));
    }
    let code = Code::<16>::look(reader);
    read_coded(reader, run_entry(code, zeros_left), zeros_left)
}

// run_before where one to six zeros are left and the stop bit is not near: any three bits begin
// with a codeword.
#[inline(always)]
fn read_few(reader: &mut BitReader, zeros_left: u8) -> u8
    requires some { 1 ≤ zeros_left }
    requires few { zeros_left ≤ 6 }
    requires ahead { 256 ≤ length (reader_bits reader.old).ahead }
    ensures read { run_before zeros_left (reader_bits reader.old)
        ≡ Ok (result, reader_bits reader.new) }
    ensures bytes { reader_bytes reader.new ≡ reader_bytes reader.old }
    ensures most { result ≤ zeros_left }
{
    let run = few_run(Code::<16>::look(reader), zeros_left);
    reader.skip_ahead(u32::from(run.length));
    run.zeros
}

// run_before, where the stop bit may be near.
#[inline(always)]
fn read_near_end(reader: &mut BitReader, zeros_left: u8) -> Result<u8, Fault>
    ensures read { Reads result (run_before zeros_left) reader.old reader.new }
    ensures most { IfOk result (λ run. run ≤ zeros_left) }
    ensures stays { OnErr result (reader.new ≡ reader.old) }
{
    read_coded(reader, entry_near_end(*reader, zeros_left), zeros_left)
}

// what the bits decide, where the stop bit may be near
#[cold]
#[inline(never)]
fn entry_near_end(reader: BitReader, zeros_left: u8) -> Entry<u8>
    ensures { Decides (run_table zeros_left) (reader_bits reader.entry).ahead result }
{
    run_entry(Code::<16>::look(&reader), zeros_left)
}

// Reads what the bits decide.
#[inline(always)]
fn read_coded(reader: &mut BitReader, entry: Entry<u8>, zeros_left: u8) -> Result<u8, Fault>
    requires { Decides (run_table zeros_left) (reader_bits reader.old).ahead entry }
    ensures read { Reads result (run_before zeros_left) reader.old reader.new }
    ensures most { IfOk result (λ run. run ≤ zeros_left) }
    ensures stays { OnErr result (reader.new ≡ reader.old) }
{
    match entry.value {
        Some(run) if run <= zeros_left => match reader.skip(u32::from(entry.length)) {
            Ok(()) => Ok(run),
            Err(fault) => Err(fault),
        },
        _ => Err(refused(*reader, entry, zeros_left)),
    }
}

// the fault where no codeword stands or the run is longer
#[cold]
#[inline(never)]
fn refused(reader: BitReader, entry: Entry<u8>, zeros_left: u8) -> Fault
    requires decided { Decides (run_table zeros_left) (reader_bits reader).ahead entry }
    requires longer { IfSome entry.value (λ run. zeros_left < run) }
    ensures { run_before zeros_left (reader_bits reader.entry) ≡ Err result }
{
    let mut after = reader;
    match after.skip(u32::from(entry.length)) {
        Ok(()) => Fault::BadCode,
        Err(fault) => fault,
    }
}

// what the bits decide
#[inline(always)]
fn run_entry(code: Code<16>, zeros_left: u8) -> Entry<u8>
    ensures { (ahead : List Bool) → Shows code ahead → Decides (run_table zeros_left) ahead result }
{
    if zeros_left > 6 {
        many_entry(code, zeros_left)
    } else {
        few_entry(code, zeros_left)
    }
}

// what a code ahead says of run_before where more than six zeros are left
#[inline(always)]
fn many_entry(code: Code<16>, zeros_left: u8) -> Entry<u8>
    requires { 6 < zeros_left }
    ensures { (ahead : List Bool) → Shows code ahead → Decides (run_table zeros_left) ahead result }
{
    number_at(code, &RUNS_OF_MANY)
}

// what a code ahead says of run_before where six zeros are left at most
#[inline(always)]
fn few_entry(code: Code<16>, zeros_left: u8) -> Entry<u8>
    requires { zeros_left ≤ 6 }
    ensures { (ahead : List Bool) → Shows code ahead → Decides (run_table zeros_left) ahead result }
{
    let run = run_of_three(
        code,
        &RUNS_BY_FRONT,
        usize::from(zeros_left.saturating_sub(1)),
    );
    Entry {
        length: run.length,
        value: Some(run.zeros),
    }
}

// run_before of a code ahead where one to six zeros are left
#[inline(always)]
fn few_run(code: Code<16>, zeros_left: u8) -> Run
    requires some { 1 ≤ zeros_left }
    requires few { zeros_left ≤ 6 }
    ensures decides { (ahead : List Bool) → Shows code ahead →
        Decides (run_table zeros_left) ahead (entry_of_run result) }
    ensures most { result.zeros ≤ zeros_left }
    ensures short { result.length ≤ 3 }
{
    run_of_three(code, &RUNS_BY_FRONT, usize::from(zeros_left - 1))
}

// What the first three bits decide by one of the tables, each of which has an entry for each value
// of them.
#[inline(always)]
fn run_of_three(code: Code<16>, tables: &[[Run; 8]], table: usize) -> Run
    requires there { table < length tables.now }
    requires few { table < 6 }
    ensures decides { (ahead : List Bool) → AreRuns tables.now → Shows code ahead →
        Decides (few_table table) ahead (entry_of_run result) }
    ensures most { AreRuns tables.now → result.zeros ≤ table + 1 }
    ensures short { AreRuns tables.now → result.length ≤ 3 }
{
    let front = code.front(3) as usize;
    tables[table][front]
}

/// The codeword that stands behind the first `first` bits of a window; its length is 0 where it has
/// more than three bits. `zeros_left`, at most 15, is as that of `read_run_before`.
#[inline(always)]
pub fn short_run(window: Window, first: u32, zeros_left: u8) -> Run
    requires few { zeros_left < 16 }
    requires within { first + 3 ≤ 57 }
    ensures read { (b : Bits) → IsWindow window b → 1 ≤ result.length
        → run_before zeros_left (passed b first)
        ≡ Ok (result.zeros, passed b (first + result.length)) }
    ensures exact { (b : Bits) → IsWindow window b →
        result ≡ short_run zeros_left (number_of (take 3 (passed b first).ahead)) }
    ensures most { result.zeros ≤ zeros_left }
    ensures short { result.length ≤ 3 }
{
    short_run_in(
        &SHORT_RUNS,
        usize::from(zeros_left),
        window.bits(first, 3) as usize,
    )
}

#[inline(always)]
fn short_run_in(tables: &[[Run; 8]; 16], zeros_left: usize, bits: usize) -> Run
    requires few { zeros_left < 16 }
    requires three { bits < 8 }
    ensures { AreShortRuns tables.now → result ≡ short_run zeros_left bits }
{
    tables[zeros_left][bits]
}

/// The codeword of so many zeros right before a level, where `zeros_left` zeros are left for it and
/// those before it; `None` where there is none or the run is longer.
pub fn run_before_word(zeros_left: u8, run: u8) -> Option<Codeword>
    ensures { option_map word_bits result ≡ run_word zeros_left run }
{
    if zeros_left < run {
        None
    } else {
        word_of_run(zeros_left, run)
    }
}

fn word_of_run(zeros_left: u8, run: u8) -> Option<Codeword>
    ensures { option_map word_bits result ≡ word_of (is_number_same run) (run_table zeros_left) }
{
    match zeros_left {
        0..=1 => Codeword::of(&RUNS_OF_FEW[0], 2, run),
        2 => Codeword::of(&RUNS_OF_FEW[1], 2, run),
        3 => Codeword::of(&RUNS_OF_FEW[2], 2, run),
        4 => Codeword::of(&RUNS_OF_FEW[3], 2, run),
        5 => Codeword::of(&RUNS_OF_FEW[4], 2, run),
        6 => Codeword::of(&RUNS_OF_FEW[5], 2, run),
        _ => Codeword::of(&RUNS_OF_MANY, 2, run),
    }
}

// For each value of the next three bits the codeword that they begin with, for zerosLeft 1 to 6,
// where no codeword is longer, with rows before and behind these.
macro_rules! few_runs {
    ($table:ident) => {
        few_runs!($table;;)
    };
    ($table:ident; $($fewer:expr),*; $($more:expr),*) => {
        [
            $($fewer,)*
            $table!((1, 1), (1, 1), (1, 1), (1, 1), (1, 0), (1, 0), (1, 0), (1, 0)),
            $table!((2, 2), (2, 2), (2, 1), (2, 1), (1, 0), (1, 0), (1, 0), (1, 0)),
            $table!((2, 3), (2, 3), (2, 2), (2, 2), (2, 1), (2, 1), (2, 0), (2, 0)),
            $table!((3, 4), (3, 3), (2, 2), (2, 2), (2, 1), (2, 1), (2, 0), (2, 0)),
            $table!((3, 5), (3, 4), (3, 3), (3, 2), (2, 1), (2, 1), (2, 0), (2, 0)),
            $table!((3, 1), (3, 2), (3, 4), (3, 3), (3, 6), (3, 5), (2, 0), (2, 0)),
            $($more),*
        ]
    };
}

// Eight codewords as four rows of entries, by the zeros in front.
macro_rules! by_zeros {
    ($a:tt, $b:tt, $c:tt, $d:tt, $e:tt, $f:tt, $g:tt, $h:tt) => {
        [
            row4!($e, $f, $g, $h),
            row4!($c, $d),
            row4!($b),
            row4!($a),
        ]
    };
}

// Eight codewords as runs.
macro_rules! runs8 {
    ($(($length:literal, $zeros:literal)),+) => {
        [$(Run { length: $length, zeros: $zeros }),+]
    };
}

// Runs where no zero is left, as if one were coded then, and where more than six are left.
macro_rules! no_runs {
    () => {
        runs8!((0, 0), (0, 0), (0, 0), (0, 0), (1, 0), (1, 0), (1, 0), (1, 0))
    };
}

macro_rules! many_runs {
    () => {
        runs8!((0, 0), (3, 6), (3, 5), (3, 4), (3, 3), (3, 2), (3, 1), (3, 0))
    };
}

// By zerosLeft, 0 to 15.
static SHORT_RUNS: [[Run; 8]; 16] = few_runs!(
    runs8;
    no_runs!();
    many_runs!(), many_runs!(), many_runs!(), many_runs!(), many_runs!(), many_runs!(), many_runs!(), many_runs!(), many_runs!()
);

// By zerosLeft, 1 to 6.
static RUNS_BY_FRONT: [[Run; 8]; 6] = few_runs!(runs8);

static RUNS_OF_FEW: [[[Entry<u8>; 4]; 4]; 6] = few_runs!(by_zeros);

// Of a greater zerosLeft.
static RUNS_OF_MANY: [[Entry<u8>; 4]; 12] = [
    row4!((3, 3), (3, 2), (3, 1), (3, 0)),
    row4!((3, 5), (3, 4)),
    row4!((3, 6)),
    row4!((4, 7)),
    row4!((5, 8)),
    row4!((6, 9)),
    row4!((7, 10)),
    row4!((8, 11)),
    row4!((9, 12)),
    row4!((10, 13)),
    row4!((11, 14)),
    row4!((11)),
];
