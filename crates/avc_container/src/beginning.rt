//! The first bytes of a file that is read in pieces.

ghost use Rattle.std.specs.Prelude.{◌≡◌, ◌-◌, ◌++◌, [], length, take};
ghost use Rattle.avc_container.specs.Containers.{first_count};

use arrayvec::ArrayVec;
use std::marker::Model;

/// How many first bytes tell what a file is: one more than a packet of a transport stream has.
pub const FIRST: usize = 189;

const _: () = prove!(FIRST == 189);

/// The first bytes of a stream that comes in pieces. A contract sees their list.
#[derive(Drop)]
pub struct Beginning {
    first: ArrayVec<u8, FIRST>,
}

impl Model for Beginning {
    ghost use Rattle.std.specs.Prelude.{List, ℕ};

    ghost Value = { List ℕ };

    ghost view = { λ b. b.first.items };
}

impl Beginning {
    /// Of a stream of which no bytes have come.
    pub fn new() -> Beginning
        ensures { result ≡ [] }
    {
        Beginning {
            first: ArrayVec::new(),
        }
    }

    /// Takes the next bytes of the stream, as many as are wanted still.
    pub fn note(&mut self, piece: &[u8])
        ensures { self.new ≡ self.old ++ take (first_count - length self.old) piece.now }
    {
        let room = self.first.remaining_capacity();
        let taken = room.min(piece.len());
        // so many fit
        let _ = self.first.try_extend_from_slice(&piece[..taken]);
    }

    pub fn as_slice(&self) -> &[u8]
        ensures { result.now ≡ self.now }
    {
        self.first.as_slice()
    }
}
