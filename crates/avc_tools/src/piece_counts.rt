//! The pieces of a stream, whose pictures are counted unit by unit.

ghost use Rattle.std.specs.Prelude.{◌≡◌, ◌+◌, if◌then◌else◌, IfOk, OnOk, Some, None};
ghost use Rattle.avc_annexb.specs.Units.{saturated};
ghost use Rattle.avc_tools.specs.CutPoints.{begins_behind, counted, last_behind, new_piece};
ghost use Rattle.avc_tools.specs.CutPoints.{none_counted, piece_over, with_picture};

use crate::piece_facts::PieceFacts;
use avc_annexb::Unit;
use avc_slice::{PictureFields, begins_picture};
use avc_types::OutOfMemory;
use avc_units::{Brought, HeaderReader, is_start};
use std::alloc::Global;
use std::marker::Model;

/// Counts the pieces of a stream, and the pictures of each, unit by unit. After want of memory it
/// is of no more use.
#[derive(Drop)]
pub(crate) struct PieceCounts {
    reader: HeaderReader,
    // of the last slice header
    last: Option<PictureFields>,
    // of the next piece
    number: u64,
    // the one that goes on
    piece: Option<PieceFacts>,
}

impl Model for PieceCounts {
    ghost use Rattle.avc_tools.specs.CutPoints.{CountedPieces};

    ghost Value = { CountedPieces };

    ghost view = { λ c. record {
      sets = c.reader;
      last = c.last;
      number = c.number;
      piece = c.piece;
    } };
}

impl PieceCounts {
    /// At the start of a stream.
    pub fn new(alloc: Global) -> PieceCounts
        ensures { result ≡ none_counted }
    {
        PieceCounts {
            reader: HeaderReader::new(alloc),
            last: None,
            number: 0,
            piece: None,
        }
    }

    /// Takes the next unit, and answers the piece that is over with it, if one is.
    pub fn count(&mut self, alloc: Global, unit: &Unit) -> Result<Option<PieceFacts>, OutOfMemory>
        ensures over { IfOk result (λ over. over ≡ piece_over self.old unit.now) }
        ensures state { OnOk result (self.new ≡ counted self.old unit.now) }
    {
        let starts = is_start(alloc, unit)?;
        let brought = self.reader.read(unit)?;
        let begins = begins_behind(self.last, &brought);
        let over = over_if(starts, self.piece);
        let piece = piece_with(starts, self.number, unit, self.piece);
        self.last = last_behind(self.last, &brought);
        self.number = number_behind(starts, self.number);
        self.piece = with_picture(begins, piece);
        Ok(over)
    }

    /// The piece that is over with the end of the stream, where that has come and one has begun.
    pub fn last(&self, ends: bool) -> Option<PieceFacts>
        ensures { result ≡ (if ends then self.now.piece else None) }
    {
        over_if(ends, self.piece)
    }
}

// Whether a unit that brings this begins a picture (7.4.1.2.4), behind the last slice header.
fn begins_behind(last: Option<PictureFields>, brought: &Brought) -> bool
    ensures { result ≡ begins_behind last brought.now }
{
    match brought {
        Brought::Slice(header) => match last {
            Some(last) => begins_picture(&last, header),
            None => true,
        },
        Brought::Nothing | Brought::Set(_) | Brought::Refused(_) => false,
    }
}

// The last slice header, behind a unit that brings this.
fn last_behind(last: Option<PictureFields>, brought: &Brought) -> Option<PictureFields>
    ensures { result ≡ last_behind last brought.now }
{
    match brought {
        Brought::Slice(header) => Some(header.picture_fields()),
        Brought::Nothing | Brought::Set(_) | Brought::Refused(_) => last,
    }
}

// The piece that is over, where the next one starts or the stream ends.
fn over_if(ends: bool, piece: Option<PieceFacts>) -> Option<PieceFacts>
    ensures { result ≡ (if ends then piece else None) }
{
    if ends { piece } else { None }
}

// The piece in which a unit lies, by whether one starts with it.
fn piece_with(
    starts: bool,
    number: u64,
    unit: &Unit,
    piece: Option<PieceFacts>,
) -> Option<PieceFacts>
    ensures { result ≡ (if starts then Some (new_piece number unit.now) else piece) }
{
    if starts {
        Some(PieceFacts::new(number, unit))
    } else {
        piece
    }
}

// The number of the next piece, which stays at the greatest one, once there.
fn number_behind(starts: bool, number: u64) -> u64
    ensures { result ≡ (if starts then saturated (number + 1) else number) }
{
    if starts {
        number.saturating_add(1)
    } else {
        number
    }
}

// One picture more, where one begins.
fn with_picture(begins: bool, piece: Option<PieceFacts>) -> Option<PieceFacts>
    ensures { result ≡ with_picture begins piece }
{
    match piece {
        Some(piece) => Some(if begins { piece.with_picture() } else { piece }),
        None => None,
    }
}
