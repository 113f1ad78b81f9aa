//! The macroblocks of a slice, read one after another (7.3.4).

ghost use Rattle.std.specs.Prelude.{◌≡◌, ◌+◌, ◌-◌, ◌≤◌, ◌<◌, ◌^◌, pos, ◌≤ℤ◌, nat_abs, length, List};
ghost use Rattle.std.specs.Prelude.{Some, None};
ghost use Rattle.std.specs.Prelude.{IfOk, OnOk, MatchResult};
ghost use Rattle.std.specs.Prelude.{string_bytes};
ghost use Rattle.avc_types.specs.Pictures.{PicMb};
ghost use Rattle.avc_params.specs.Within.{IsPps};
ghost use Rattle.avc_slice.specs.Header.{slice_qp};
ghost use Rattle.avc_mbsyntax.specs.Rest.{Follows, IsHandedOut, handed_out, rest_of};
ghost use Rattle.avc_mbsyntax.specs.SliceData.{SliceStart};
ghost use Rattle.avc_reading.specs.Asked.{form_in};
ghost use Rattle.avc_reading.specs.Listing.{macroblocks};
ghost use Rattle.avc_selection.specs.Followed.{IsFollowed, IsPicture};
ghost use Rattle.avc_selection.specs.Pictures.{OpenPicture};
ghost use Rattle.avc_reading.specs.Slices.{macroblocks_of};
ghost use Rattle.avc_reading.specs.Derived.{derived_of};
ghost use Rattle.avc_reading.specs.Neighbours.{HasRems};
ghost use Rattle.avc_reading.specs.Reading.{AreRead, IsBehind, IsDataIn};
ghost use Rattle.avc_reading.specs.Reading.{IsSliceListed, IsSliceTold};
ghost use Rattle.avc_reading.specs.Reading.{address_fault, asked_in};

use crate::derived::derived_of;
use crate::neighbour_counts::{info_of, total_coeffs_in};
use crate::telling::Telling;
use avc_bits::BitReader;
use avc_mbsyntax::SliceData;
use avc_neigh::Row;
use avc_neigh::laws::{blocks_are_found, total_coeffs_are_found};
use avc_params::Pps;
use avc_selection::{Derived, MacroblockForm, MacroblockPlace, Picture};
use avc_slice::{Header, Slice};
use avc_types::{Fault, Mb, OutOfMemory, Syntax};

/// Pic_init_qp without its offset (7.4.2.2).
const FIRST_QP: i32 = 26;

/// SliceQP_Y (7.4.3).
pub(crate) fn slice_quantiser(pps: &Pps, header: &Header) -> u8
    requires low { pos 0 ≤ℤ slice_qp pps.now header.now.slice_qp_delta }
    requires high { slice_qp pps.now header.now.slice_qp_delta ≤ℤ pos 51 }
    requires pps { IsPps pps.now }
    ensures { result ≡ nat_abs (slice_qp pps.now header.now.slice_qp_delta) }
{
    ((FIRST_QP + pps.pic_init_qp_minus26) + header.slice_qp_delta) as u8
}

/// The data of a slice, before which so many macroblocks of its picture remain.
fn slice_data<'a>(pps: &Pps, slice: &'a Slice, remaining: u32) -> SliceData<'a>
    requires pps { IsPps pps.now }
    requires low { pos 0 ≤ℤ slice_qp pps.now slice.now.header.slice_qp_delta }
    requires high { slice_qp pps.now slice.now.header.slice_qp_delta ≤ℤ pos 51 }
    requires active { slice.now.header.num_ref_idx_active ≤ 16 }
    ensures { (p : OpenPicture) → p.size ≡ length p.mbs + remaining →
        IsDataIn p pps.now slice.now result }
{
    SliceData::new(
        BitReader::at(slice.rbsp.as_slice(), slice.header.position),
        slice.header.is_p(),
        slice.header.num_ref_idx_active as u8,
        slice_quantiser(pps, &slice.header),
        remaining,
    )
}

/// Reads the next macroblock of the data of slice `number` into `mb`, as its neighbours in the
/// picture have it read. Answers whether there was one.
pub(crate) fn next_macroblock(
    unread: &mut SliceData<'_>,
    row: &Row,
    number: u32,
    mb: &mut Mb,
) -> Result<bool, Fault>
    ensures { (s : SliceStart) (before : List PicMb) (known : List Derived) →
        IsBehind s before known number row.now → Follows s before unread.old
        → IsHandedOut s before (handed_out result mb.new) unread.old unread.new }
{
    if unread.next_skipped(mb) {
        return Ok(true);
    }
    total_coeffs_are_found();
    let around = row.around(number);
    unread.next(total_coeffs_in(around.a), total_coeffs_in(around.b), mb)
}

/// What follows for a macroblock of slice `number` that was read, from its neighbours in the
/// picture.
fn derived_next(mb: &Mb, row: &Row, number: u32, constrained_intra_pred: bool) -> Derived
    ensures { (s : SliceStart) (before : List PicMb) (known : List Derived) →
        IsBehind s before known number row.now → HasRems mb.now.syntax
        → result ≡ derived_of constrained_intra_pred s before known mb.now }
{
    blocks_are_found();
    derived_of(mb, &row.around(number), constrained_intra_pred)
}

/// Reads the macroblocks of a slice's data, the first of which stands at this place, and of which
/// there can be so many. Adds a line for each, and one for the fault that comes then. Answers how
/// many there are.
fn add_macroblocks<F: MacroblockForm>(
    telling: &Telling<F>,
    text: &mut String,
    row: &mut Row,
    place: MacroblockPlace,
    constrained_intra_pred: bool,
    unread: SliceData<'_>,
    remaining: u32,
) -> Result<u32, OutOfMemory>
    requires { place.address < 2 ^ 32 }
    ensures few { IfOk result (λ count. count ≤ remaining) }
    ensures read { IfOk result
        (λ count. (s : SliceStart) (before : List PicMb) (known : List Derived) →
        s.size ≡ length before + remaining
        → IsBehind s before known place.slice row.old → Follows s before unread.entry
        → AreRead (form_in (asked_in F.form telling.now.selection) row.old.width) place
        constrained_intra_pred s before known
        (rest_of s before unread.entry) count row.new (string_bytes text.old)
        (string_bytes text.new)) }
{
    let mut unread = unread;
    let mut mb = Mb {
        syntax: Syntax::PSkip,
        qp: 0,
    };
    let width = row.width();
    let turns = u64::from(remaining) + 1;
    'macroblocks: for turn in 0..turns {
        let here = place.behind(turn);
        match next_macroblock(&mut unread, row, place.slice, &mut mb) {
            Ok(true) => {
                let derived = derived_next(&mb, row, place.slice, constrained_intra_pred);
                telling.add_macroblock(text, width, here, &mb, &derived)?;
                row.put(&info_of(&mb, place.slice, &derived));
            }
            Ok(false) => return Ok(turn as u32),
            Err(fault) => {
                telling.add_fault(text, width, here, fault)?;
                return Ok(turn as u32);
            }
        }
    }
    // each turn but the last reads one of those that remain
    Ok(remaining)
}

/// first_mb_in_slice is to be the address of the macroblock that comes next (7.4.3).
fn check_address(next: u32, header: &Header) -> Result<(), Fault>
    ensures { MatchResult result
        (λ _. address_fault next header.now.first_mb_in_slice ≡ None)
        (λ fault. address_fault next header.now.first_mb_in_slice ≡ Some fault) }
{
    let first = header.first_mb_in_slice.get();
    if next < first {
        return Err(Fault::MissingMacroblocks);
    }
    if first < next {
        return Err(Fault::ArbitrarySliceOrder);
    }
    Ok(())
}

/// One slice more, where it has macroblocks.
fn one_more(slices: u32, count: u32) -> u32
    ensures none { count ≡ 0 → result ≡ slices }
    ensures some { 0 < count → slices < 2 ^ 32 - 1 → result ≡ slices + 1 }
{
    if count == 0 {
        slices
    } else {
        slices.saturating_add(1)
    }
}

/// Reads the macroblocks of a slice of this picture, and adds a line for each, and for the fault
/// that comes then.
fn add_slice<F: MacroblockForm>(
    telling: &Telling<F>,
    text: &mut String,
    picture: &mut Picture,
    pps: &Pps,
    slice: &Slice,
) -> Result<(), OutOfMemory>
    requires pps { IsPps pps.now }
    requires low { pos 0 ≤ℤ slice_qp pps.now slice.now.header.slice_qp_delta }
    requires high { slice_qp pps.now slice.now.header.slice_qp_delta ≤ℤ pos 51 }
    requires active { slice.now.header.num_ref_idx_active ≤ 16 }
    ensures told { OnOk result ((p : OpenPicture) → IsPicture p picture.old
        → IsSliceTold (form_in (asked_in F.form telling.now.selection) p.width) p pps.now slice.now
        picture.new
        (string_bytes text.old) (string_bytes text.new)) }
    ensures choice { OnOk result (picture.new.choice ≡ picture.old.choice) }
    ensures unit { OnOk result (picture.new.unit ≡ picture.old.unit) }
{
    let place = MacroblockPlace {
        unit: slice.unit,
        slice: picture.slices,
        address: u64::from(picture.next),
    };
    match check_address(picture.next, &slice.header) {
        Ok(()) => {
            let remaining = picture.size.saturating_sub(picture.next);
            let unread = slice_data(pps, slice, remaining);
            let count = add_macroblocks(
                telling,
                text,
                &mut picture.row,
                place,
                pps.constrained_intra_pred_flag,
                unread,
                remaining,
            )?;
            picture.next = picture.next.saturating_add(count);
            picture.slices = one_more(picture.slices, count);
            Ok(())
        }
        Err(fault) => telling.add_fault(text, picture.row.width(), place, fault),
    }
}

/// Adds the macroblocks of a slice where its picture is listed; else nothing.
pub(crate) fn add_slice_if_listed<F: MacroblockForm>(
    telling: &Telling<F>,
    text: &mut String,
    picture: &mut Picture,
    pps: &Pps,
    slice: &Slice,
) -> Result<(), OutOfMemory>
    requires pps { IsPps pps.now }
    requires low { pos 0 ≤ℤ slice_qp pps.now slice.now.header.slice_qp_delta }
    requires high { slice_qp pps.now slice.now.header.slice_qp_delta ≤ℤ pos 51 }
    requires active { slice.now.header.num_ref_idx_active ≤ 16 }
    ensures { OnOk result ((p : OpenPicture) → IsFollowed telling.now.selection p picture.old
        → IsSliceListed (asked_in F.form telling.now.selection) p pps.now slice.now picture.new
        (string_bytes text.old) (string_bytes text.new)) }
{
    if picture.choice.is_listed() {
        return add_slice(telling, text, picture, pps, slice);
    }
    Ok(())
}
