//! Codewords as they are written: those of the tables that are read (9.2.1, 9.2.3).
ghost use Rattle.std.specs.Prelude.{◌≡◌, ◌≤◌, ◌<◌, ◌^◌, ℕ, length};

use crate::entry::{Coded, Entry, column_of};

/// A codeword: its bits as a number, the most significant first.
#[derive(Clone, Copy)]
pub struct Codeword {
    /// How many bits.
    pub length: u8,
    /// Their number.
    pub number: u32,
    ghost few: { length ≤ 16 },
}

impl Codeword {
    ghost use Rattle.std.specs.Option.{option_map};
    ghost use Rattle.avc_vlc.specs.Reading.{Table};
    ghost use Rattle.avc_vlc.specs.Indexing.{AreShort, AreWithin, AreWritten, IsWritten, word_at};
    ghost use Rattle.avc_vlc.specs.Writing.{word_bits, word_of};

    // the word of a place in a table whose columns have so many bits
    pub(crate) fn at(row: usize, column: usize, tail: u32, length: u8) -> Codeword
        requires row { row ≤ 15 }
        requires tail { tail ≤ 3 }
        requires column { column < 2 ^ tail }
        requires short { length ≤ 16 }
        ensures { word_bits result ≡ word_at tail row column length }
    {
        let bits = row as u32 + 1 + tail;
        Codeword {
            length,
            number: ((1 << tail) + column as u32) >> bits.saturating_sub(u32::from(length)),
        }
    }

    // the codeword of a value, where the table has one
    pub(crate) fn of<V: Coded, const N: usize>(
        rows: &[[Entry<V>; N]],
        tail: u32,
        value: V,
    ) -> Option<Codeword>
        requires rows { length rows.now ≤ 16 }
        requires tail { tail ≤ 3 }
        requires columns { N ≡ 2 ^ tail }
        requires short { AreShort rows.now }
        ensures { (table : Table V) → IsWritten V.same table tail rows.now →
            option_map word_bits result ≡ word_of (V.same value) table }
    {
        'rows: for row in 0..rows.len() {
            let places = &rows[row];
            if let Some(column) = column_of(places, value) {
                let entry = places[column];
                return Some(Codeword::at(row, column, tail, entry.length));
            }
        }
        None
    }
    // the codeword of a value, where one of several tables has it
    pub(crate) fn in_table<V: Coded, const N: usize, const ROWS: usize>(
        tables: &[[[Entry<V>; N]; ROWS]],
        table: usize,
        tail: u32,
        value: V,
    ) -> Option<Codeword>
        requires there { table < length tables.now }
        requires rows { ROWS ≤ 16 }
        requires tail { tail ≤ 3 }
        requires columns { N ≡ 2 ^ tail }
        requires short { AreWithin 16 tables.now }
        ensures { (each : ℕ → Table V) → AreWritten V.same each tail tables.now →
            option_map word_bits result ≡ word_of (V.same value) (each table) }
    {
        Codeword::of(&tables[table], tail, value)
    }
}
