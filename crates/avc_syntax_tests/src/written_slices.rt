//! Slices with a macroblock of each type, written and read back.

ghost use Rattle.std.specs.Prelude.{◌≡◌, ◌≤◌, ℕ, length, true, false};
ghost use Rattle.avc_make.specs.SliceMbs.{IsCodedSlice};
ghost use Rattle.avc_syntax_tests.specs.Following.{FollowOn};

use crate::macroblock_types::{add_i_types, add_p_types, add_skipped};
use crate::same_macroblocks::is_same;
use crate::written_syntax::{PPS, SPS};
use avc_annexb::unescape;
use avc_bits::BitReader;
use avc_make::{CodedSlice, Macroblocks, total_coeffs_of, write_pps, write_slice, write_sps};
use avc_mbsyntax::SliceData;
use avc_neigh::{Motion, NearMode, NeighbourInfo, Row, TotalCoeffs};
use avc_params::ParamTable;
use avc_slice::{CodedOrder, Header, SliceType, read_header};
use avc_types::{Marking, Mb, MbAddr, Syntax};
use std::alloc::Global;
use std::test::Fail;

// of the picture, in macroblocks
const WIDTH: u16 = 5;

const HEIGHT: u16 = 8;

// SliceQP_Y under a set and a header that add nothing
const SLICE_QP: u8 = 26;

// macroblocks before the slices, of an earlier slice
const FIRST: u32 = 2;

// A slice of an IDR picture.
fn i_slice(macroblocks: Macroblocks) -> CodedSlice
    requires some { 1 ≤ length macroblocks }
    requires few { length macroblocks ≤ 38 }
    requires follow { (last : ℕ) × FollowOn false 0 26 last macroblocks }
    ensures { IsCodedSlice result }
{
    let mut sps = SPS;
    sps.pic_width_in_mbs_minus1 = WIDTH - 1;
    sps.pic_height_in_map_units_minus1 = HEIGHT - 1;
    CodedSlice {
        sps,
        pps: PPS,
        header: Header {
            nal_ref_idc: 3,
            first_mb_in_slice: MbAddr::new(FIRST),
            slice_type: SliceType::I,
            pic_parameter_set_id: 0,
            frame_num: 0,
            idr_pic_id: Some(0),
            order: CodedOrder::Type2,
            redundant_pic_cnt: None,
            active_override: None,
            num_ref_idx_active: 0,
            modifications: None,
            pred_weight_table: None,
            marking: Some(Marking::Idr {
                no_output_of_prior_pics_flag: false,
                long_term_reference_flag: false,
            }),
            slice_qp_delta: 0,
            deblocking: None,
            position: 0,
        },
        macroblocks,
    }
}

// A P slice with two entries in RefPicList0.
pub(crate) fn p_slice(macroblocks: Macroblocks) -> CodedSlice
    requires few { length macroblocks ≤ 38 }
    requires follow { (last : ℕ) × FollowOn true 2 26 last macroblocks }
    ensures { IsCodedSlice result }
{
    let mut sps = SPS;
    sps.pic_width_in_mbs_minus1 = WIDTH - 1;
    sps.pic_height_in_map_units_minus1 = HEIGHT - 1;
    CodedSlice {
        sps,
        pps: PPS,
        header: Header {
            nal_ref_idc: 2,
            first_mb_in_slice: MbAddr::new(FIRST),
            slice_type: SliceType::P,
            pic_parameter_set_id: 0,
            frame_num: 1,
            idr_pic_id: None,
            order: CodedOrder::Type2,
            redundant_pic_cnt: None,
            active_override: Some(1),
            num_ref_idx_active: 2,
            modifications: None,
            pred_weight_table: None,
            marking: Some(Marking::SlidingWindow),
            slice_qp_delta: 0,
            deblocking: None,
            position: 0,
        },
        macroblocks,
    }
}

// A macroblock's info, as far as reading others asks for them.
pub(crate) fn info(slice: u32, total_coeffs: TotalCoeffs) -> NeighbourInfo {
    NeighbourInfo {
        slice,
        total_coeffs,
        modes: [NearMode::Absent; 16],
        motion: [Motion::Absent; 16],
    }
}

pub(crate) fn total_coeffs_in(info: Option<&NeighbourInfo>) -> Option<&TotalCoeffs> {
    match info {
        Some(info) => Some(&info.total_coeffs),
        None => None,
    }
}

// Puts the parameter sets of the slices into force.
fn put_sets(alloc: Global, table: &mut ParamTable) -> Result<(), Fail> {
    put_sps(alloc, table)?;
    put_pps(alloc, table)
}

fn put_sps(alloc: Global, table: &mut ParamTable) -> Result<(), Fail> {
    let mut sps = SPS;
    sps.pic_width_in_mbs_minus1 = WIDTH - 1;
    sps.pic_height_in_map_units_minus1 = HEIGHT - 1;
    let unit = write_sps(alloc, &sps)?;
    let rbsp = unescape(alloc, &unit.as_slice()[1..])?;
    table.put_sps(&rbsp)?;
    Ok(())
}

fn put_pps(alloc: Global, table: &mut ParamTable) -> Result<(), Fail> {
    let unit = write_pps(alloc, &PPS)?;
    let rbsp = unescape(alloc, &unit.as_slice()[1..])?;
    table.put_pps(&rbsp)?;
    Ok(())
}

// Whether the unit is read as a slice of these macroblocks, and of no more.
fn is_read_back(alloc: Global, unit: &[u8], macroblocks: &[Mb]) -> Result<bool, Fail> {
    let mut table = ParamTable::new(alloc);
    put_sets(alloc, &mut table)?;
    match unit.split_first() {
        Some((first, body)) => is_read_under(alloc, &table, *first, body, macroblocks),
        None => Ok(false),
    }
}

fn is_read_under(
    alloc: Global,
    table: &ParamTable,
    unit_header: u8,
    body: &[u8],
    macroblocks: &[Mb],
) -> Result<bool, Fail> {
    let rbsp = unescape(alloc, body)?;
    match read_header(unit_header, &rbsp, table) {
        Ok(header) => has_macroblocks(alloc, &header, &rbsp, macroblocks),
        Err(_) => Ok(false),
    }
}

// Whether the bits after the header are read as these macroblocks, and as no more.
fn has_macroblocks(
    alloc: Global,
    header: &Header,
    rbsp: &[u8],
    macroblocks: &[Mb],
) -> Result<bool, Fail> {
    let mut row = Row::new(alloc, u32::from(WIDTH))?;
    put_earlier(&mut row, header);
    let num_ref_idx_active = header.num_ref_idx_active.min(16) as u8;
    let remaining = u32::from(WIDTH) * u32::from(HEIGHT) - FIRST;
    let mut data = SliceData::new(
        BitReader::at(rbsp, header.position),
        header.is_p(),
        num_ref_idx_active,
        SLICE_QP,
        remaining,
    );
    Ok(gives(&mut data, &mut row, macroblocks))
}

// Puts the macroblocks of the earlier slice.
fn put_earlier(row: &mut Row, header: &Header) {
    let earlier = TotalCoeffs {
        luma: [9; 16],
        cb: [9; 4],
        cr: [9; 4],
    };
    for _ in 0..header.first_mb_in_slice.get() {
        row.put(&info(0, earlier));
    }
}

// Whether the data has these macroblocks and no more.
fn gives(data: &mut SliceData<'_>, row: &mut Row, macroblocks: &[Mb]) -> bool {
    let mut mb = Mb {
        syntax: Syntax::PSkip,
        qp: 0,
    };
    'each: for written in macroblocks {
        if !gives_next(data, row, &mut mb, written) {
            return false;
        }
    }
    match data.next(None, None, &mut mb) {
        Ok(is_more) => !is_more,
        Err(_) => false,
    }
}

fn gives_next(data: &mut SliceData<'_>, row: &mut Row, mb: &mut Mb, written: &Mb) -> bool {
    let around = row.around(1);
    let next = data.next(total_coeffs_in(around.a), total_coeffs_in(around.b), mb);
    if next != Ok(true) || !is_same(mb, written) {
        return false;
    }
    row.put(&info(1, total_coeffs_of(&mb.syntax)));
    true
}

#[test]
fn each_type_of_i_slices(rt: HostRuntime) -> Result<(), Fail> {
    let mut list = Vec::new(rt.alloc());
    add_i_types(&mut list, SLICE_QP)?;
    let slice = i_slice(Macroblocks::from_vec(list));
    let unit = write_slice(rt.alloc(), &slice)?;
    assert!(rt; is_read_back(rt.alloc(), &unit, slice.macroblocks.as_slice())?);
    Ok(())
}

#[test]
fn each_type_of_p_slices(rt: HostRuntime) -> Result<(), Fail> {
    let mut list = Vec::new(rt.alloc());
    let qp = add_p_types(&mut list, SLICE_QP)?;
    let qp = add_i_types(&mut list, qp)?;
    add_skipped(&mut list, qp)?;
    let slice = p_slice(Macroblocks::from_vec(list));
    let unit = write_slice(rt.alloc(), &slice)?;
    assert!(rt; is_read_back(rt.alloc(), &unit, slice.macroblocks.as_slice())?);
    Ok(())
}

#[test]
fn no_macroblock_of_a_p_slice(rt: HostRuntime) -> Result<(), Fail> {
    let slice = p_slice(Macroblocks::from_vec(Vec::new(rt.alloc())));
    let unit = write_slice(rt.alloc(), &slice)?;
    assert!(rt; is_read_back(rt.alloc(), &unit, &[])?);
    Ok(())
}
