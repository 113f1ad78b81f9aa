//! Tests of a picture that is open.

// One macroblock above another, in two slices: 128 above 136.
ghost use Rattle.std.specs.Prelude.{◌≡◌, [], Some, IfOk, OnOk};
ghost use Rattle.avc_params.specs.Within.{IsPps, IsSps};
ghost use Rattle.avc_params.specs.Tables.{pps_in_force, sps_in_force};
ghost use Rattle.avc_picture.specs.Decoding.{HasNoFault};
ghost use Rattle.avc_picture.specs.OpenPicture.{HasSample};
ghost use Rattle.avc_slice.specs.Within.{IsHeader};

use avc_params::{ParamTable, Pps, Sps};
use avc_picture::{PictureDecoder, PictureMemory};
use avc_slice::{Slice, read_header};
use avc_types::Bytes;
use std::alloc::Global;
use std::test::Fail;

// 16x32 luma samples
const SPS: [u8; 6] = [0x42, 0xC0, 0x0A, 0xDA, 0x54, 0x40];

const PPS: [u8; 3] = [0xCE, 0x38, 0x80];

const UNIT_HEADER: u8 = 0x65;

const UPPER: [u8; 4] = [0x88, 0x84, 0x93, 0xC0];

const LOWER: [u8; 7] = [0x42, 0x21, 0x24, 0xC5, 0x00, 0x02, 0x58];

// The slice with this RBSP, which is one of a picture of these sets.
fn slice_of(
    alloc: Global,
    table: &ParamTable,
    sps: &Sps,
    pps: &Pps,
    rbsp: &[u8],
) -> Result<Slice, Fail>
    requires sps { sps_in_force table.now 0 ≡ Some sps.now }
    requires pps { pps_in_force table.now 0 ≡ Some pps.now }
    ensures { IfOk result (λ slice. IsHeader sps.now pps.now slice.rbsp slice.header) }
{
    let header = read_header(UNIT_HEADER, rbsp, table)?;
    if header.pic_parameter_set_id != 0 || pps.seq_parameter_set_id != 0 {
        return Err(Fail::new("a slice of other sets"));
    }
    let mut bytes = Vec::new(alloc);
    bytes.extend_from_slice(rbsp)?;
    Ok(Slice {
        unit: 2,
        header,
        rbsp: Bytes::from_vec(bytes),
    })
}

// One slice more of a picture without references.
fn decode(picture: &mut PictureDecoder<32>, slice: &Slice) -> Result<(), Fail>
    requires within { IsHeader picture.old.sps picture.old.pps slice.now.rbsp slice.now.header }
    requires frames { picture.old.frames ≡ [] }
    ensures fault { OnOk result (HasNoFault picture.new) }
    ensures sps { picture.new.sps ≡ picture.old.sps }
    ensures pps { picture.new.pps ≡ picture.old.pps }
    ensures frames { picture.new.frames ≡ [] }
{
    match picture.slice(slice, &[]) {
        Ok(()) => Ok(()),
        Err(_) => Err(Fail::new("a slice is refused")),
    }
}

// The luma sample in row `y` of the first column of a picture of 16x32 samples, of a macroblock
// that has been read.
fn luma_at(picture: &PictureDecoder<32>, sps: &Sps, y: usize) -> Result<u8, Fail>
    requires fault { HasNoFault picture.now }
    requires sps { picture.now.sps ≡ sps.now }
    ensures { IfOk result (λ value. HasSample 0 0 y value picture.now) }
{
    if sps.width_in_mbs() != 1 || sps.height_in_mbs() != 2 || y >= 32 {
        return Err(Fail::new("a picture of another size"));
    }
    if y / 16 >= picture.read() as usize {
        return Err(Fail::new("a sample that is not read yet"));
    }
    Ok(picture.sample(0, 0, y))
}

// How many rows are filtered after the upper slice, and the luma sample in row 15 of the first
// column; then the same after the lower slice, and the sample in row 16.
fn two_slices(
    picture: &mut PictureDecoder<32>,
    sps: &Sps,
    upper: &Slice,
    lower: &Slice,
) -> Result<[u32; 5], Fail>
    requires sps { picture.old.sps ≡ sps.now }
    requires frames { picture.old.frames ≡ [] }
    requires upper { IsHeader picture.old.sps picture.old.pps upper.now.rbsp upper.now.header }
    requires lower { IsHeader picture.old.sps picture.old.pps lower.now.rbsp lower.now.header }
{
    decode(picture, upper)?;
    let before = picture.filtered();
    let unfiltered = luma_at(picture, sps, 15)?;
    decode(picture, lower)?;
    let after = picture.filtered();
    let above = luma_at(picture, sps, 15)?;
    let below = luma_at(picture, sps, 16)?;
    Ok([
        before,
        u32::from(unfiltered),
        after,
        u32::from(above),
        u32::from(below),
    ])
}

// What is read and filtered of a new picture while two slices of it are decoded.
fn decoded(
    alloc: Global,
    sps: &Sps,
    pps: &Pps,
    upper: &Slice,
    lower: &Slice,
) -> Result<[u32; 5], Fail>
    requires sps { IsSps sps.now }
    requires pps { IsPps pps.now }
    requires upper { IsHeader sps.now pps.now upper.now.rbsp upper.now.header }
    requires lower { IsHeader sps.now pps.now lower.now.rbsp lower.now.header }
{
    let mut memory = PictureMemory::new();
    let mut picture = PictureDecoder::<32>::begin(alloc, sps, pps, &[], &mut memory)?;
    two_slices(&mut picture, sps, upper, lower)
}

// What is read and filtered of a new picture under the sets of a table, while the upper and the
// lower slice are decoded.
fn decoded_under(alloc: Global, table: &ParamTable) -> Result<[u32; 5], Fail> {
    let Some(sps) = table.sps(0) else {
        return Err(Fail::new("no sequence parameter set"));
    };
    let Some(pps) = table.pps(0) else {
        return Err(Fail::new("no picture parameter set"));
    };
    let upper = slice_of(alloc, table, sps, pps, &UPPER)?;
    let lower = slice_of(alloc, table, sps, pps, &LOWER)?;
    decoded(alloc, sps, pps, &upper, &lower)
}

#[test]
fn a_row_is_filtered_when_the_next_is_built(rt: HostRuntime) -> Result<(), Fail> {
    let mut table = ParamTable::new(rt.alloc());
    table.put_sps(&SPS)?;
    table.put_pps(&PPS)?;
    assert_eq!(rt; decoded_under(rt.alloc(), &table)?, [0, 128, 1, 128, 136]);
    Ok(())
}
