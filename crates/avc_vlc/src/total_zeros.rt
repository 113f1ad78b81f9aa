//! total_zeros (9.2.3, Tables 9-7 to 9-9). A table has a row for each number of zeros in front of
//! the first 1, the last for all that are more, and a column for each value of the two bits behind
//! that 1.
ghost use Rattle.std.specs.Prelude.{◌≡◌, ◌≤◌, List, Bool, true, false, Ok, Err, OnErr, IsTrue};
ghost use Rattle.std.specs.Prelude.{IfSome};
ghost use Rattle.std.specs.Prelude.{MatchOption};
ghost use Rattle.avc_types.specs.declared.fault.Fault.TheVariants.{BadCode};
ghost use Rattle.avc_bits.specs.Bits.{Bits, passed};
ghost use Rattle.avc_bits.specs.Reader.{IsWindow, Reads, reader_bits};
ghost use Rattle.avc_vlc.specs.Reading.{total_zeros, zeros_table};
ghost use Rattle.avc_vlc.specs.Indexing.{Decides, Shows};
ghost use Rattle.avc_vlc.specs.Writing.{word_bits, zeros_word};
ghost use Rattle.std.specs.Option.{option_map};

use crate::code::Code;
use crate::codeword::Codeword;
use crate::entry::{Entry, entry, number_at, number_by, number_in, row4};
use crate::run_before::Run;
use avc_bits::{BitReader, Window};
use avc_types::Fault;

/// Reads how many zeros stand before the last level of a block with `total` levels (TotalCoeff).
/// Answers `Truncated`, or `BadCode` where no codeword stands; the reader then stays.
#[inline]
pub fn read_total_zeros(reader: &mut BitReader, total: u8, chroma_dc: bool) -> Result<u8, Fault>
    ensures read { Reads result (total_zeros total chroma_dc) reader.old reader.new }
    ensures stays { OnErr result (reader.new ≡ reader.old) }
{
    if chroma_dc {
        read_chroma_dc(reader, total)
    } else {
        read_4x4(reader, total)
    }
}

/// The codeword of total_zeros that a window begins with, where a block has `total` levels: at most
/// 15, or 3 where it is chroma DC. `None` where no codeword stands.
#[inline(always)]
pub fn total_zeros_ahead(window: Window, total: u8, chroma_dc: bool) -> Option<Run>
    requires most { total ≤ 15 }
    requires few { IsTrue chroma_dc → total ≤ 3 }
    ensures read { (b : Bits) → IsWindow window b → MatchOption result
        (total_zeros total chroma_dc b ≡ Err BadCode)
        (λ run. total_zeros total chroma_dc b ≡ Ok (run.zeros, passed b run.length)) }
    ensures short { IfSome result (λ run. run.length ≤ 9) }
{
    let entry = entry_of_code(Code::<16>::of(window), total, chroma_dc);
    match entry.value {
        Some(zeros) => Some(Run {
            length: entry.length,
            zeros,
        }),
        None => None,
    }
}

// what the bits decide
#[inline(always)]
fn entry_of_code(code: Code<16>, total: u8, chroma_dc: bool) -> Entry<u8>
    requires most { total ≤ 15 }
    requires few { IsTrue chroma_dc → total ≤ 3 }
    ensures decides { (ahead : List Bool) → Shows code ahead →
        Decides (zeros_table total chroma_dc) ahead result }
    ensures short { result.length ≤ 9 }
{
    if chroma_dc {
        chroma_dc_entry(code, total)
    } else {
        zeros_entry(code, total)
    }
}

// what a code ahead says of total_zeros of chroma DC
#[inline(always)]
fn chroma_dc_entry(code: Code<16>, total: u8) -> Entry<u8>
    requires { total ≤ 3 }
    ensures decides { (ahead : List Bool) → Shows code ahead →
        Decides (zeros_table total true) ahead result }
    ensures short { result.length ≤ 9 }
{
    match total {
        0..=1 => number_at(code, &CHROMA_DC_1),
        2 => number_at(code, &CHROMA_DC_2),
        _ => number_at(code, &CHROMA_DC_3),
    }
}

#[inline(always)]
fn read_4x4(reader: &mut BitReader, total: u8) -> Result<u8, Fault>
    ensures read { Reads result (total_zeros total false) reader.old reader.new }
    ensures stays { OnErr result (reader.new ≡ reader.old) }
{
    if total > 15 {
        return Err(Fault::BadCode);
    }
    if reader.has_many() {
        let code = Code::<16>::look(reader);
        zeros_entry(code, total).read(reader)
    } else {
        read_near_end(reader, total)
    }
}

// total_zeros, where the stop bit may be near.
#[inline(always)]
fn read_near_end(reader: &mut BitReader, total: u8) -> Result<u8, Fault>
    requires { total ≤ 15 }
    ensures read { Reads result (total_zeros total false) reader.old reader.new }
    ensures stays { OnErr result (reader.new ≡ reader.old) }
{
    entry_near_end(*reader, total).read(reader)
}

// what the bits decide, where the stop bit may be near
#[cold]
#[inline(never)]
fn entry_near_end(reader: BitReader, total: u8) -> Entry<u8>
    requires { total ≤ 15 }
    ensures { Decides (zeros_table total false) (reader_bits reader.entry).ahead result }
{
    zeros_entry(Code::<16>::look(&reader), total)
}

// what a code ahead says of total_zeros of a 4x4 block
#[inline(always)]
fn zeros_entry(code: Code<16>, total: u8) -> Entry<u8>
    requires { total ≤ 15 }
    ensures decides { (ahead : List Bool) → Shows code ahead →
        Decides (zeros_table total false) ahead result }
    ensures short { result.length ≤ 9 }
{
    number_in(code, &TOTAL_ZEROS, usize::from(total.saturating_sub(1)))
}

#[inline(always)]
fn read_chroma_dc(reader: &mut BitReader, total: u8) -> Result<u8, Fault>
    ensures read { Reads result (total_zeros total true) reader.old reader.new }
    ensures stays { OnErr result (reader.new ≡ reader.old) }
{
    match total {
        0..=1 => number_by(reader, &CHROMA_DC_1),
        2 => number_by(reader, &CHROMA_DC_2),
        3 => number_by(reader, &CHROMA_DC_3),
        _ => Err(Fault::BadCode),
    }
}

/// The codeword of so many zeros before the last of `total` levels, `None` where there is none.
pub fn total_zeros_word(total: u8, chroma_dc: bool, zeros: u8) -> Option<Codeword>
    ensures { option_map word_bits result ≡ zeros_word total chroma_dc zeros }
{
    if chroma_dc {
        chroma_dc_word(total, zeros)
    } else {
        word_4x4(total, zeros)
    }
}

fn word_4x4(total: u8, zeros: u8) -> Option<Codeword>
    ensures { option_map word_bits result ≡ zeros_word total false zeros }
{
    let table = usize::from(total.saturating_sub(1));
    if table < TOTAL_ZEROS.len() {
        Codeword::in_table(&TOTAL_ZEROS, table, 2, zeros)
    } else {
        None
    }
}

fn chroma_dc_word(total: u8, zeros: u8) -> Option<Codeword>
    ensures { option_map word_bits result ≡ zeros_word total true zeros }
{
    match total {
        0..=1 => Codeword::of(&CHROMA_DC_1, 2, zeros),
        2 => Codeword::of(&CHROMA_DC_2, 2, zeros),
        3 => Codeword::of(&CHROMA_DC_3, 2, zeros),
        _ => None,
    }
}

// Ten rows, of which those behind the given ones are the last of them again.
macro_rules! rows10 {
    ($a:expr, $last:expr) => {
        rows10!($a, $last, $last)
    };
    ($a:expr, $b:expr, $last:expr) => {
        rows10!($a, $b, $last, $last)
    };
    ($a:expr, $b:expr, $c:expr, $last:expr) => {
        rows10!($a, $b, $c, $last, $last)
    };
    ($a:expr, $b:expr, $c:expr, $d:expr, $last:expr) => {
        rows10!($a, $b, $c, $d, $last, $last)
    };
    ($a:expr, $b:expr, $c:expr, $d:expr, $e:expr, $last:expr) => {
        rows10!($a, $b, $c, $d, $e, $last, $last)
    };
    ($a:expr, $b:expr, $c:expr, $d:expr, $e:expr, $f:expr, $last:expr) => {
        [$a, $b, $c, $d, $e, $f, $last, $last, $last, $last]
    };
}

// By TotalCoeff, 1 to 15.
static TOTAL_ZEROS: [[[Entry<u8>; 4]; 10]; 15] = [
    [
        row4!((1, 0)),
        row4!((3, 2), (3, 1)),
        row4!((4, 4), (4, 3)),
        row4!((5, 6), (5, 5)),
        row4!((6, 8), (6, 7)),
        row4!((7, 10), (7, 9)),
        row4!((8, 12), (8, 11)),
        row4!((9, 14), (9, 13)),
        row4!((9, 15)),
        row4!((9)),
    ],
    rows10!(
        row4!((3, 3), (3, 2), (3, 1), (3, 0)),
        row4!((4, 6), (4, 5), (3, 4), (3, 4)),
        row4!((4, 8), (4, 7)),
        row4!((5, 10), (5, 9)),
        row4!((6, 12), (6, 11)),
        row4!((6, 13)),
        row4!((6, 14))
    ),
    rows10!(
        row4!((3, 6), (3, 3), (3, 2), (3, 1)),
        row4!((4, 4), (4, 0), (3, 7), (3, 7)),
        row4!((4, 8), (4, 5)),
        row4!((5, 10), (5, 9)),
        row4!((5, 12)),
        row4!((6, 11)),
        row4!((6, 13))
    ),
    rows10!(
        row4!((3, 6), (3, 5), (3, 4), (3, 1)),
        row4!((4, 3), (4, 2), (3, 8), (3, 8)),
        row4!((4, 9), (4, 7)),
        row4!((5, 10), (5, 0)),
        row4!((5, 11)),
        row4!((5, 12))
    ),
    rows10!(
        row4!((3, 6), (3, 5), (3, 4), (3, 3)),
        row4!((4, 1), (4, 0), (3, 7), (3, 7)),
        row4!((4, 8), (4, 2)),
        row4!((4, 10)),
        row4!((5, 9)),
        row4!((5, 11))
    ),
    rows10!(
        row4!((3, 5), (3, 4), (3, 3), (3, 2)),
        row4!((3, 7), (3, 6)),
        row4!((3, 9)),
        row4!((4, 8)),
        row4!((5, 1)),
        row4!((6, 0)),
        row4!((6, 10))
    ),
    rows10!(
        row4!((3, 3), (3, 2), (2, 5), (2, 5)),
        row4!((3, 6), (3, 4)),
        row4!((3, 8)),
        row4!((4, 7)),
        row4!((5, 1)),
        row4!((6, 0)),
        row4!((6, 9))
    ),
    rows10!(
        row4!((2, 5), (2, 4)),
        row4!((3, 6), (3, 3)),
        row4!((3, 7)),
        row4!((4, 1)),
        row4!((5, 2)),
        row4!((6, 0)),
        row4!((6, 8))
    ),
    rows10!(
        row4!((2, 4), (2, 3)),
        row4!((2, 6)),
        row4!((3, 5)),
        row4!((4, 2)),
        row4!((5, 7)),
        row4!((6, 0)),
        row4!((6, 1))
    ),
    rows10!(
        row4!((2, 4), (2, 3)),
        row4!((2, 5)),
        row4!((3, 2)),
        row4!((4, 6)),
        row4!((5, 0)),
        row4!((5, 1))
    ),
    rows10!(
        row4!((1, 4)),
        row4!((3, 3), (3, 5)),
        row4!((3, 2)),
        row4!((4, 1)),
        row4!((4, 0))
    ),
    rows10!(
        row4!((1, 3)),
        row4!((2, 2)),
        row4!((3, 4)),
        row4!((4, 1)),
        row4!((4, 0))
    ),
    rows10!(row4!((1, 2)), row4!((2, 3)), row4!((3, 1)), row4!((3, 0))),
    rows10!(row4!((1, 2)), row4!((2, 1)), row4!((2, 0))),
    rows10!(row4!((1, 1)), row4!((1, 0))),
];

static CHROMA_DC_1: [[Entry<u8>; 4]; 4] = [
    row4!((1, 0)),
    row4!((2, 1)),
    row4!((3, 2)),
    row4!((3, 3)),
];

static CHROMA_DC_2: [[Entry<u8>; 4]; 3] = [row4!((1, 0)), row4!((2, 1)), row4!((2, 2))];

static CHROMA_DC_3: [[Entry<u8>; 4]; 2] = [row4!((1, 0)), row4!((1, 1))];
