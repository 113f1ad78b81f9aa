//! Where the parts of a read end that are taken in one by one.

ghost use Rattle.std.specs.Prelude.{◌≡◌, ◌+◌, ◌-◌, ◌<◌, ◌≤◌, ℕ, false, length, true};
ghost use Rattle.avc_console.specs.Parts.{may_end_start_code};

use memchr::memchr;

/// Where the part of a read ends that begins at `begin`: behind the first start code (00 00 01)
/// that ends behind `begin`, or with the read. The zeros of a start code may stand in the read
/// before.
pub fn part_end(piece: &[u8], begin: usize) -> usize
    requires { begin ≤ length piece.now }
    ensures within { result ≤ length piece.now }
    ensures behind { begin < length piece.now → begin < result }
    ensures first { (place : ℕ) → begin ≤ place → place + 1 < result →
        may_end_start_code piece.now place ≡ false }
    ensures last { result < length piece.now → may_end_start_code piece.now (result - 1) ≡ true }
{
    let mut place = begin;
    while let Some(len) = memchr(1, &piece[place..]) {
        let one = place + len;
        if may_end_start_code(piece, one) {
            return one + 1;
        }
        place = one + 1;
    }
    piece.len()
}

// Whether the byte at a place may be the last one of a start code.
fn may_end_start_code(piece: &[u8], place: usize) -> bool
    requires { place < length piece.now }
    ensures { result ≡ may_end_start_code piece.now place }
{
    piece[place] == 1
        && (place < 1 || piece[place - 1] == 0)
        && (place < 2 || piece[place - 2] == 0)
}
