//! Where a macroblock stands in the RBSP of its slice.

ghost use Rattle.std.specs.Prelude.{◌≡◌, ◌<◌, ◌≤◌, ◌≤ℤ◌, pos, OnOk, is_some, ◌||◌};
ghost use Rattle.avc_params.specs.Within.{IsPps};
ghost use Rattle.avc_slice.specs.Header.{slice_qp};
ghost use Rattle.avc_selection.specs.Followed.{IsFollowed};
ghost use Rattle.avc_selection.specs.Pictures.{OpenPicture};
ghost use Rattle.avc_reading.specs.Listing.{is_met};
ghost use Rattle.avc_reading.specs.Reading.{has_come_to};

use crate::neighbour_counts::info_of;
use crate::slices::{next_macroblock, slice_quantiser};
use crate::telling::Telling;
use avc_bits::BitReader;
use avc_mbsyntax::SliceData;
use avc_neigh::{Motion, NearMode, Row};
use avc_params::Pps;
use avc_selection::{AtMacroblock, Derived, Picture, Selection};
use avc_slice::Slice;
use avc_types::{Mb, OutOfMemory, Syntax};
use std::alloc::Global;

/// Where a macroblock stands in its stream, so that its slice can be ended behind it.
#[derive(Clone, Copy, Debug, PartialEq, Eq)]
pub struct MacroblockPosition {
    /// The place of its slice's unit among the stream's units, from 0.
    pub unit: u64,

    /// How many bits of the unit's RBSP, from the first behind the NAL unit header, have the slice
    /// up to the macroblock; of a skipped one, up to where its mb_skip_run begins.
    pub kept_bits: u128,

    /// Of a skipped macroblock, which one of its mb_skip_run it is, from 1: an mb_skip_run of so
    /// many then ends the slice behind it.
    pub run: Option<u32>,
}

/// A slice of a picture, for the search of where its macroblocks end.
#[derive(Clone, Copy)]
struct SearchedSlice<'a> {
    pps: &'a Pps,
    slice: &'a Slice,

    /// Its number in its picture.
    number: u32,

    /// The width of its picture, in macroblocks.
    width: u32,

    /// The address of its first macroblock.
    first: u32,

    /// How many macroblocks of the picture there can be from there on.
    remaining: u32,

    ghost wide: { 0 < width },
    ghost pps_is: { IsPps pps.now },
    ghost low: { pos 0 ≤ℤ slice_qp pps.now slice.now.header.slice_qp_delta },
    ghost high: { slice_qp pps.now slice.now.header.slice_qp_delta ≤ℤ pos 51 },
    ghost active: { slice.now.header.num_ref_idx_active ≤ 16 },
}

/// What was read of a slice.
#[derive(Clone, Copy)]
struct FirstMacroblocks {
    /// How many macroblocks.
    count: u32,

    /// How many of the last of them are skipped.
    skipped: u32,
}

impl SearchedSlice<'_> {
    // Its data, where its RBSP is this one.
    fn data<'r>(&self, rbsp: &'r [u8]) -> SliceData<'r> {
        let header = &self.slice.header;
        SliceData::new(
            BitReader::at(rbsp, header.position),
            header.is_p(),
            header.num_ref_idx_active as u8,
            slice_quantiser(self.pps, header),
            self.remaining,
        )
    }

    // Reads its first macroblocks, at most so many, where its RBSP is this one.
    fn read_first(
        &self,
        alloc: Global,
        rbsp: &[u8],
        most: u32,
    ) -> Result<FirstMacroblocks, OutOfMemory> {
        let mut row = row_behind_others(alloc, self.width, self.first, self.number)?;
        let mut unread = self.data(rbsp);
        let mut mb = Mb {
            syntax: Syntax::PSkip,
            qp: 0,
        };
        let mut skipped = 0;
        'macroblocks: for turn in 0..most {
            match next_macroblock(&mut unread, &row, self.number, &mut mb) {
                Ok(true) => {
                    skipped = skipped_behind(skipped, &mb.syntax);
                    row.put(&info_of(&mb, self.number, &UNKNOWN));
                }
                _ => {
                    return Ok(FirstMacroblocks {
                        count: turn,
                        skipped,
                    });
                }
            }
        }
        Ok(FirstMacroblocks {
            count: most,
            skipped,
        })
    }

    // The least number of bits of its RBSP behind which it can be cut so that so many macroblocks
    // can be read still, at least one; all of its bytes have them.
    fn least_bits(&self, alloc: Global, count: u32) -> Result<u128, OutOfMemory> {
        let rbsp = self.slice.rbsp.as_slice();
        let mut few = self.slice.header.position;
        let mut enough = (8 * rbsp.len() as u128).max(few.saturating_add(1));
        'halves: while enough - few > 1 {
            let middle = few + (enough - few) / 2;
            let cut = cut_rbsp(alloc, rbsp, middle)?;
            if self.read_first(alloc, &cut, count)?.count < count {
                few = middle;
            } else {
                enough = middle;
            }
        }
        Ok(enough)
    }

    // Where the macroblock stands behind so many of the slice.
    fn position(&self, alloc: Global, index: u32) -> Result<MacroblockPosition, OutOfMemory> {
        let rbsp = self.slice.rbsp.as_slice();
        let read = self.read_first(alloc, rbsp, index.saturating_add(1))?;
        let coded = read.count.saturating_sub(read.skipped);
        Ok(MacroblockPosition {
            unit: self.slice.unit,
            kept_bits: if coded == 0 {
                self.slice.header.position
            } else {
                self.least_bits(alloc, coded)?
            },
            run: if read.skipped == 0 {
                None
            } else {
                Some(read.skipped)
            },
        })
    }
}

const ALL_BITS: u8 = 0xFF;

const FIRST_BIT: u8 = 0x80;

// What follows for a macroblock from its neighbours, where nothing is asked of it but its levels.
const UNKNOWN: Derived = Derived {
    modes: [NearMode::Absent; 16],
    motion: [Motion::Absent; 16],
};

// How many macroblocks are skipped at the end, where so many were before this one.
fn skipped_behind(before: u32, syntax: &Syntax) -> u32 {
    match syntax {
        Syntax::PSkip => before.saturating_add(1),
        _ => 0,
    }
}

// Behind so many macroblocks of another slice than the one of this number, of which its macroblocks
// ask for nothing (6.4.8).
fn row_behind_others(alloc: Global, width: u32, count: u32, number: u32) -> Result<Row, OutOfMemory>
    requires { 0 < width }
{
    let mut row = Row::new(alloc, width)?;
    let mb = Mb {
        syntax: Syntax::PSkip,
        qp: 0,
    };
    let other = if number == 0 { 1 } else { 0 };
    'others: for _ in 0..count {
        row.put(&info_of(&mb, other, &UNKNOWN));
    }
    Ok(row)
}

// An RBSP cut behind so many of its bits: these, the stop bit, and zeros to the end of the byte;
// all of it where it has no more.
fn cut_rbsp(alloc: Global, rbsp: &[u8], bits: u128) -> Result<Vec<u8>, OutOfMemory> {
    let mut cut = Vec::new(alloc);
    if bits >= 8 * rbsp.len() as u128 {
        cut.extend_from_slice(rbsp)?;
        return Ok(cut);
    }
    let whole = (bits / 8) as usize;
    cut.extend_from_slice(&rbsp[..whole])?;
    cut.push(cut_byte(rbsp[whole], (bits % 8) as u32))?;
    Ok(cut)
}

// A byte cut behind so many of its bits, fewer than 8.
fn cut_byte(byte: u8, bits: u32) -> u8
    requires { bits < 8 }
{
    (byte & !(ALL_BITS >> bits)) | (FIRST_BIT >> bits)
}

/// Finds where the macroblock that is asked for stands, if it came with this slice of this picture,
/// before which so many of its macroblocks came.
#[tactic(auto, using(crate::proofs::Read::whether_met))]
pub(crate) fn find<F>(
    telling: &Telling<F>,
    found: &mut Option<MacroblockPosition>,
    picture: &Picture,
    first: u32,
    pps: &Pps,
    slice: &Slice,
) -> Result<(), OutOfMemory>
    requires pps { IsPps pps.now }
    requires low { pos 0 ≤ℤ slice_qp pps.now slice.now.header.slice_qp_delta }
    requires high { slice_qp pps.now slice.now.header.slice_qp_delta ≤ℤ pos 51 }
    requires active { slice.now.header.num_ref_idx_active ≤ 16 }
    ensures { OnOk result ((p : OpenPicture) → IsFollowed telling.now.selection p picture.now
        → is_some found.new ≡ is_some found.old || is_met telling.now.selection p) }
{
    match telling.selection {
        Selection::Near(macroblock) => {
            if !has_come(picture, macroblock) {
                return Ok(());
            }
            if found.is_some() {
                return Ok(());
            }
            let searched = SearchedSlice {
                pps,
                slice,
                number: picture.slices,
                width: picture.row.width().clamp(1, u32::MAX as usize) as u32,
                first,
                remaining: picture.size.saturating_sub(first),
            };
            let index = macroblock.address.saturating_sub(first);
            *found = Some(searched.position(telling.alloc, index)?);
            Ok(())
        }
        Selection::Whole | Selection::OfPicture(_) => Ok(()),
    }
}

// Whether the picture has come as far as this macroblock.
fn has_come(picture: &Picture, macroblock: AtMacroblock) -> bool
    ensures { result ≡ has_come_to macroblock picture.now }
{
    macroblock.unit == picture.unit && macroblock.address < picture.next
}
