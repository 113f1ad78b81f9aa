//! The macroblocks of a picture so far, as far as they can be neighbours still.

ghost use Rattle.std.specs.Prelude.{◌≡◌, ◌<◌, IfOk, Some};
ghost use Rattle.std.specs.Option.{option_copied};
ghost use Rattle.avc_neigh.specs.Around.{mb_a, mb_b, mb_c, mb_d, no_info, of_slice, with_info};
ghost use Rattle.avc_neigh.specs.RowEntries.{place_after};

use crate::neighbour_info::NeighbourInfo;
use crate::neighbours::Neighbours;
use avc_types::{History, OutOfMemory};
use std::alloc::Global;
use std::marker::Model;

/// Where the macroblock stands that comes next.
#[derive(Clone, Copy)]
struct Place {
    column: usize,

    /// Where the entries of its row begin.
    first: usize,

    /// Where those of the row above begin.
    first_above: usize,
}

/// What is known of a picture's macroblocks so far, for the neighbours of the one that comes next.
/// A contract sees the info of all of them, in decoding order; the row itself keeps those that can
/// still be asked for: those of the row of the macroblock that comes next, and those of the row
/// above.
#[derive(Drop)]
pub struct Row {
    /// One for each column and each of two rows; nothing where no macroblock was yet.
    entries: Vec<Option<NeighbourInfo>>,

    /// In macroblocks.
    width: usize,

    next: Place,

    /// Whether a row of this picture has ended: else what stands in the row above is of none of its
    /// macroblocks.
    has_above: bool,

    info: History<NeighbourInfo>,
}

impl Model for Row {
    ghost use Rattle.avc_neigh.specs.Around.{PictureInfo};
    ghost use Rattle.avc_neigh.specs.RowEntries.{AreRowEntries};

    ghost Value = { PictureInfo };

    ghost view = { λ r. record { width = r.width; info = r.info.items } };

    ghost invariant = { λ r. AreRowEntries r.info.items r.width r.next r.has_above r.entries.items };
}

/// What is known of a macroblock, where it is of this slice (6.4.8).
fn in_slice<'a>(info: Option<&'a NeighbourInfo>, slice: u32) -> Option<&'a NeighbourInfo>
    ensures { option_copied result ≡ of_slice slice (option_copied info.entry) }
{
    match info {
        Some(f) if f.slice == slice => Some(f),
        _ => None,
    }
}

/// The place after one, in rows of this width: behind the end of a row its entries are those of the
/// row above.
fn place_after(place: Place, width: usize) -> Place
    requires { place.column < width }
    ensures { result ≡ place_after place width }
{
    if place.column + 1 < width {
        Place {
            column: place.column + 1,
            ..place
        }
    } else {
        Place {
            column: 0,
            first: place.first_above,
            first_above: place.first,
        }
    }
}

/// Writes info into an entry: over what is there, which makes no entry first.
fn write(entry: &mut Option<NeighbourInfo>, info: &NeighbourInfo)
    ensures { entry.new ≡ Some info.now }
{
    match entry {
        Some(known) => known.copy_from(info),
        None => *entry = Some(*info),
    }
}

impl Row {
    ghost use Rattle.avc_neigh.specs.Around.{around, info_of};

    /// A row for a picture of this width in macroblocks, at least 1, before its first macroblock.
    /// Only this call takes memory.
    pub fn new(alloc: Global, width: u32) -> Result<Row, OutOfMemory>
        requires { 0 < width }
        ensures { IfOk result (λ row. row ≡ no_info width) }
    {
        let width = width as usize;
        Ok(Row {
            entries: vec![in alloc; None; 2 * width]?,
            width,
            next: Place {
                column: 0,
                first: 0,
                first_above: width,
            },
            has_above: false,
            info: History::new(),
        })
    }

    /// In macroblocks.
    pub fn width(&self) -> usize
        ensures { result ≡ self.now.width }
    {
        self.width
    }

    /// Forgets all macroblocks, for a picture of the same width. What is kept of them is not
    /// cleared, since it is asked for only where this picture has a macroblock.
    pub fn restart(&mut self)
        ensures { self.new ≡ no_info self.old.width }
    {
        self.next.column = 0;
        self.has_above = false;
        self.info = History::new();
    }

    /// mbAddrA of the macroblock that comes next.
    #[tactic(auto, using(crate::proofs::Found::left_is))]
    fn left(&self, slice: u32) -> Option<&NeighbourInfo>
        ensures { option_copied result ≡ mb_a self.now slice }
    {
        if self.next.column == 0 {
            return None;
        }
        in_slice(
            self.entries[self.next.first + (self.next.column - 1)].as_ref(),
            slice,
        )
    }

    /// mbAddrB of the macroblock that comes next.
    #[tactic(auto, using(crate::proofs::Found::above_is))]
    fn above(&self, slice: u32) -> Option<&NeighbourInfo>
        ensures { option_copied result ≡ mb_b self.now slice }
    {
        if !self.has_above {
            return None;
        }
        in_slice(
            self.entries[self.next.first_above + self.next.column].as_ref(),
            slice,
        )
    }

    /// mbAddrC of the macroblock that comes next.
    #[tactic(auto, using(crate::proofs::Found::above_right_is))]
    fn above_right(&self, slice: u32) -> Option<&NeighbourInfo>
        ensures { option_copied result ≡ mb_c self.now slice }
    {
        if !self.has_above {
            return None;
        }
        if self.next.column + 1 == self.width {
            return None;
        }
        in_slice(
            self.entries[self.next.first_above + (self.next.column + 1)].as_ref(),
            slice,
        )
    }

    /// mbAddrD of the macroblock that comes next.
    #[tactic(auto, using(crate::proofs::Found::above_left_is))]
    fn above_left(&self, slice: u32) -> Option<&NeighbourInfo>
        ensures { option_copied result ≡ mb_d self.now slice }
    {
        if !self.has_above {
            return None;
        }
        if self.next.column == 0 {
            return None;
        }
        in_slice(
            self.entries[self.next.first_above + (self.next.column - 1)].as_ref(),
            slice,
        )
    }

    /// The neighbours of the macroblock that comes next, which is of this slice of the picture.
    pub fn around(&self, slice: u32) -> Neighbours<'_>
        ensures { info_of result ≡ around self.now slice }
    {
        Neighbours {
            a: self.left(slice),
            b: self.above(slice),
            c: self.above_right(slice),
            d: self.above_left(slice),
        }
    }

    /// Takes what is known of the macroblock that came next, now that it is decoded.
    pub fn put(&mut self, info: &NeighbourInfo)
        ensures { self.new ≡ with_info self.old info.now }
    {
        write(&mut self.entries[self.next.first + self.next.column], info);
        self.info = self.info.with(info);
        self.next = place_after(self.next, self.width);
        self.has_above = (self.next.column == 0) | self.has_above;
    }
}
