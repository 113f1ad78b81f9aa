//! What a line tells of a piece.

ghost use Rattle.std.specs.Prelude.{◌≡◌};
ghost use Rattle.avc_tools.specs.CutPoints.{new_piece, one_more_picture};

use avc_annexb::Unit;

/// What a line tells of a piece.
#[derive(Clone, Copy)]
pub struct PieceFacts {
    /// Its place among the stream's pieces, from 0.
    pub piece: u64,

    /// The place among the stream's units of the one with which it begins, from 0.
    pub unit: u64,

    /// The place of that unit's first byte in the stream, in bytes from 0.
    pub first_byte: u64,

    /// The number of the pictures whose first slice lies in it (7.4.1.2.4), slices without a
    /// readable header left out.
    pub pictures: u64,
}

impl PieceFacts {
    /// Of the piece of this number, which begins with this unit, and of whose pictures none has
    /// come.
    pub(crate) fn new(number: u64, unit: &Unit) -> PieceFacts
        ensures { result ≡ new_piece number unit.now }
    {
        PieceFacts {
            piece: number,
            unit: unit.index,
            first_byte: unit.offset,
            pictures: 0,
        }
    }

    /// With one picture more. The number of pictures stays at the greatest one, once there.
    pub(crate) fn with_picture(self) -> PieceFacts
        ensures { result ≡ one_more_picture self }
    {
        PieceFacts {
            pictures: self.pictures.saturating_add(1),
            ..self
        }
    }
}
