//! A slice header, read (7.3.3).

ghost use Rattle.std.specs.Prelude.{◌≡◌, ◌≤◌, ◌==◌, ◌%◌, true, not, IfOk, IfSome, None};
ghost use Rattle.avc_bits.specs.Bits.{where_set};
ghost use Rattle.avc_bits.specs.Reader.{Reads};
ghost use Rattle.avc_params.specs.Limits.{max_frame_num};
ghost use Rattle.avc_params.specs.Tables.{sets_after};
ghost use Rattle.avc_params.specs.Within.{IsPps, IsSps};
ghost use Rattle.avc_slice.specs.Filling.{Fills, FillsList, filled};
ghost use Rattle.avc_slice.specs.Header.{is_idr, slice_qp};
ghost use Rattle.avc_slice.specs.Reading.{num_ref_idx_active, active_override, back, deblocking};
ghost use Rattle.avc_slice.specs.Reading.{idr_pic_id, is_qp};
ghost use Rattle.avc_slice.specs.Reading.{marking, redundant_pic_cnt, filtering, front};
ghost use Rattle.avc_slice.specs.Reading.{header_in_rbsp};
ghost use Rattle.avc_slice.specs.Reading.{list_part, modification_list, modifications, numbers};
ghost use Rattle.avc_slice.specs.Reading.{p_list, slice_type_of};
ghost use Rattle.avc_slice.specs.WeightsReading.{pred_weight_table};
ghost use Rattle.avc_slice.specs.Within.{IsReadUnder};

use crate::deblocking::read_deblocking;
use crate::header::{Deblocking, Header, SliceType};
use crate::marking::put_marking;
use crate::modification::read_modifications;
use crate::order::read_order;
use crate::parts::{ActiveCount, Filtering, Front, Numbers};
use crate::weights::PredWeightTable;
use crate::weights_reading::read_pred_weight_table;
use avc_bits::BitReader;
use avc_params::{ParamTable, Pps, Sps};
use avc_types::{Fault, Marking, MbAddr, Modification, UpTo};

/// The slice_type with this number, of an I or P slice (Table 7-6).
fn slice_type(number: u32) -> Option<SliceType>
    ensures { result ≡ slice_type_of number }
{
    match number {
        0 => Some(SliceType::P),
        2 => Some(SliceType::I),
        5 => Some(SliceType::AllP),
        7 => Some(SliceType::AllI),
        _ => None,
    }
}

/// The header up to the picture parameter set's id.
fn read_front(reader: &mut BitReader, nal_ref_idc: u8, idr: bool) -> Result<Front, Fault>
    ensures { Reads result (front nal_ref_idc idr) reader.old reader.new }
{
    let first_mb_in_slice = reader.ue()?;
    let number = reader.ue_to(9)?;
    let Some(slice_type) = slice_type(number) else {
        return Err(Fault::SliceType);
    };
    if idr & ((nal_ref_idc == 0) | slice_type.is_p()) {
        return Err(Fault::BadIdr);
    }
    let pic_parameter_set_id = reader.ue_to(255)? as u8;
    Ok(Front {
        first_mb_in_slice,
        slice_type,
        pic_parameter_set_id,
    })
}

/// idr_pic_id, in a unit of type 5.
fn read_idr_pic_id(reader: &mut BitReader, idr: bool) -> Result<Option<u32>, Fault>
    ensures { Reads result (idr_pic_id idr) reader.old reader.new }
{
    if idr {
        Ok(Some(reader.ue_to(65535)?))
    } else {
        Ok(None)
    }
}

/// redundant_pic_cnt, where it is `present`: only 0 is taken.
fn read_redundant_pic_cnt(reader: &mut BitReader, present: bool) -> Result<Option<u32>, Fault>
    ensures { Reads result (redundant_pic_cnt present) reader.old reader.new }
{
    if !present {
        return Ok(None);
    }
    let redundant_pic_cnt = reader.ue_to(127)?;
    if redundant_pic_cnt != 0 {
        return Err(Fault::RedundantSlice);
    }
    Ok(Some(redundant_pic_cnt))
}

/// What tells the slice's picture from others.
fn read_numbers(reader: &mut BitReader, idr: bool, pps: &Pps, sps: &Sps) -> Result<Numbers, Fault>
    requires { IsSps sps.now }
    ensures { Reads result (numbers idr pps.now sps.now) reader.old reader.new }
{
    let frame_num = reader.u(u32::from(sps.log2_max_frame_num_minus4) + 4)?;
    if idr & (frame_num != 0) {
        return Err(Fault::BadIdr);
    }
    let idr_pic_id = read_idr_pic_id(reader, idr)?;
    let order = read_order(
        reader,
        &sps.order_count,
        pps.bottom_field_pic_order_in_frame_present_flag,
    )?;
    let redundant_pic_cnt = read_redundant_pic_cnt(reader, pps.redundant_pic_cnt_present_flag)?;
    Ok(Numbers {
        frame_num,
        idr_pic_id,
        order,
        redundant_pic_cnt,
    })
}

/// num_ref_idx_l0_active_minus1 where the override flag is 1; a default count that is used is at
/// most 16.
fn read_active_override(reader: &mut BitReader, pps: &Pps) -> Result<Option<u32>, Fault>
    ensures read { Reads result (active_override pps.now) reader.old reader.new }
    ensures count { IfOk result (λ active_override. num_ref_idx_active pps.now active_override
        ≤ 16) }
    ensures small { IfOk result
        (λ active_override. IfSome active_override (λ count_minus1. count_minus1 ≤ 15)) }
{
    let num_ref_idx_active_override_flag = reader.flag()?;
    if num_ref_idx_active_override_flag {
        Ok(Some(reader.ue_to(15)?))
    } else if pps.num_ref_idx_l0_default_active_minus1 < 16 {
        Ok(None)
    } else {
        Err(Fault::OutOfRange)
    }
}

/// The entries are put into the header where they stay, since they are large.
#[inline(never)]
fn put_modifications(
    reader: &mut BitReader,
    max_frame_num: u32,
    num_ref_idx_active: u32,
    place: &mut Option<UpTo<Modification, 16>>,
) -> Result<(), Fault>
    requires numbers { 1 ≤ max_frame_num }
    requires room { num_ref_idx_active ≤ 16 }
    ensures { Fills result place.new
        (where_set true (modifications max_frame_num num_ref_idx_active)) reader.old reader.new }
{
    *place = Some(read_modifications(reader, max_frame_num, num_ref_idx_active)?);
    Ok(())
}

/// Nothing, in a place that is large: where nothing stands there already, nothing is written.
fn clear<T: Drop>(place: &mut Option<T>)
    ensures { place.new ≡ None }
{
    if place.is_some() {
        *place = None;
    }
}

/// The entries of the list modification, where its flag is 1.
fn put_modification_list(
    reader: &mut BitReader,
    max_frame_num: u32,
    num_ref_idx_active: u32,
    place: &mut Option<UpTo<Modification, 16>>,
) -> Result<(), Fault>
    requires numbers { 1 ≤ max_frame_num }
    requires room { num_ref_idx_active ≤ 16 }
    ensures { Fills result place.new (modification_list max_frame_num num_ref_idx_active) reader.old
        reader.new }
{
    let ref_pic_list_modification_flag_l0 = reader.flag()?;
    if ref_pic_list_modification_flag_l0 {
        put_modifications(reader, max_frame_num, num_ref_idx_active, place)
    } else {
        clear(place);
        Ok(())
    }
}

/// RefPicList0's length in a P slice: the overriding count or the default one.
fn num_ref_idx_active_of(pps: &Pps, active_override: Option<u32>) -> u32
    requires { IfSome active_override (λ count_minus1. count_minus1 ≤ 15) }
    ensures { result ≡ num_ref_idx_active pps.now active_override }
{
    match active_override {
        Some(count_minus1) => count_minus1 + 1,
        None => u32::from(pps.num_ref_idx_l0_default_active_minus1) + 1,
    }
}

/// The table is put into the header where it stays, since it is large.
#[inline(never)]
fn put_pred_weight_table(
    reader: &mut BitReader,
    num_ref_idx_active: u32,
    place: &mut Option<PredWeightTable>,
) -> Result<(), Fault>
    requires { num_ref_idx_active ≤ 16 }
    ensures { Fills result place.new (where_set true (pred_weight_table num_ref_idx_active))
        reader.old reader.new }
{
    *place = Some(read_pred_weight_table(reader, num_ref_idx_active)?);
    Ok(())
}

/// pred_weight_table, where it is `present`.
fn put_optional_weights(
    reader: &mut BitReader,
    present: bool,
    num_ref_idx_active: u32,
    place: &mut Option<PredWeightTable>,
) -> Result<(), Fault>
    requires room { num_ref_idx_active ≤ 16 }
    ensures { Fills result place.new (where_set present (pred_weight_table num_ref_idx_active))
        reader.old reader.new }
{
    if present {
        put_pred_weight_table(reader, num_ref_idx_active, place)
    } else {
        clear(place);
        Ok(())
    }
}

/// What RefPicList0 of a P slice is made by, and by what its predictions are weighted.
fn put_p_list(
    reader: &mut BitReader,
    pps: &Pps,
    sps: &Sps,
    modifications: &mut Option<UpTo<Modification, 16>>,
    table: &mut Option<PredWeightTable>,
) -> Result<ActiveCount, Fault>
    requires { IsSps sps.now }
    ensures { FillsList result modifications.new table.new (p_list pps.now sps.now) reader.old
        reader.new }
{
    let active_override = read_active_override(reader, pps)?;
    let num_ref_idx_active = num_ref_idx_active_of(pps, active_override);
    put_modification_list(
        reader,
        sps.max_frame_num(),
        num_ref_idx_active,
        modifications,
    )?;
    put_optional_weights(reader, pps.weighted_pred_flag, num_ref_idx_active, table)?;
    Ok(ActiveCount {
        active_override,
        num_ref_idx_active,
    })
}

/// The part of P slices; an I slice has none.
fn put_list_part(
    reader: &mut BitReader,
    p: bool,
    pps: &Pps,
    sps: &Sps,
    modifications: &mut Option<UpTo<Modification, 16>>,
    table: &mut Option<PredWeightTable>,
) -> Result<ActiveCount, Fault>
    requires { IsSps sps.now }
    ensures { FillsList result modifications.new table.new (list_part p pps.now sps.now) reader.old
        reader.new }
{
    if p {
        put_p_list(reader, pps, sps, modifications, table)
    } else {
        clear(modifications);
        clear(table);
        Ok(ActiveCount {
            active_override: None,
            num_ref_idx_active: 0,
        })
    }
}

/// SliceQPY (7.4.3), which may be no luma quantiser.
fn slice_qp_of(pps: &Pps, slice_qp_delta: i32) -> i64
    requires { IsPps pps.now }
    ensures { result ≡ slice_qp pps.now slice_qp_delta }
{
    26 + i64::from(pps.pic_init_qp_minus26) + i64::from(slice_qp_delta)
}

/// Whether it is a luma quantiser, 0 to 51.
fn is_quantiser(qp: i64) -> bool
    ensures { result ≡ is_qp qp }
{
    (0 <= qp) & (qp <= 51)
}

/// The deblocking fields, where they are `present`.
fn read_optional_deblocking(
    reader: &mut BitReader,
    present: bool,
) -> Result<Option<Deblocking>, Fault>
    ensures { Reads result (where_set present deblocking) reader.old reader.new }
{
    if present {
        Ok(Some(read_deblocking(reader)?))
    } else {
        Ok(None)
    }
}

/// The quantiser and the deblocking fields.
fn read_filtering(reader: &mut BitReader, pps: &Pps) -> Result<Filtering, Fault>
    requires { IsPps pps.now }
    ensures { Reads result (filtering pps.now) reader.old reader.new }
{
    let slice_qp_delta = reader.se()?;
    if !is_quantiser(slice_qp_of(pps, slice_qp_delta)) {
        return Err(Fault::OutOfRange);
    }
    let deblocking = read_optional_deblocking(reader, pps.deblocking_filter_control_present_flag)?;
    Ok(Filtering {
        slice_qp_delta,
        deblocking,
    })
}

/// dec_ref_pic_marking, where nal_ref_idc is not 0.
fn put_reference_marking(
    reader: &mut BitReader,
    nal_ref_idc: u8,
    idr: bool,
    place: &mut Option<Marking>,
) -> Result<(), Fault>
    ensures { Fills result place.new (where_set (not (nal_ref_idc == 0)) (marking idr)) reader.old
        reader.new }
{
    if nal_ref_idc == 0 {
        clear(place);
        Ok(())
    } else {
        put_marking(reader, idr, place)
    }
}

/// What stands after the front, under its parameter sets, put into a header.
fn put_back(
    reader: &mut BitReader,
    nal_ref_idc: u8,
    idr: bool,
    front: Front,
    pps: &Pps,
    sps: &Sps,
    place: &mut Header,
) -> Result<(), Fault>
    requires sps { IsSps sps.now }
    requires pps { IsPps pps.now }
    ensures { Fills result place.new (back nal_ref_idc idr front pps.now sps.now) reader.old
        reader.new }
{
    if front.first_mb_in_slice >= sps.size_in_mbs() {
        return Err(Fault::OutOfRange);
    }
    let numbers = read_numbers(reader, idr, pps, sps)?;
    let list = put_list_part(
        reader,
        front.slice_type.is_p(),
        pps,
        sps,
        &mut place.modifications,
        &mut place.pred_weight_table,
    )?;
    put_reference_marking(reader, nal_ref_idc, idr, &mut place.marking)?;
    let filtering = read_filtering(reader, pps)?;
    place.nal_ref_idc = nal_ref_idc;
    place.first_mb_in_slice = MbAddr::new(front.first_mb_in_slice);
    place.slice_type = front.slice_type;
    place.pic_parameter_set_id = front.pic_parameter_set_id;
    place.frame_num = numbers.frame_num;
    place.idr_pic_id = numbers.idr_pic_id;
    place.order = numbers.order;
    place.redundant_pic_cnt = numbers.redundant_pic_cnt;
    place.active_override = list.active_override;
    place.num_ref_idx_active = list.num_ref_idx_active;
    place.slice_qp_delta = filtering.slice_qp_delta;
    place.deblocking = filtering.deblocking;
    place.position = reader.position();
    Ok(())
}

// The header, or the first fault in it.
fn put_fields(header: u8, rbsp: &[u8], table: &ParamTable, place: &mut Header) -> Result<(), Fault>
    ensures { filled result place.new ≡ header_in_rbsp header (sets_after table.now) rbsp.now }
{
    let nal_ref_idc = header / 32 % 4;
    let idr = header % 32 == 5;
    let mut reader = BitReader::new(rbsp);
    let front = read_front(&mut reader, nal_ref_idc, idr)?;
    let Some(pps) = table.pps(front.pic_parameter_set_id) else {
        return Err(Fault::NoParameterSet);
    };
    let Some(sps) = table.sps(pps.seq_parameter_set_id) else {
        return Err(Fault::NoParameterSet);
    };
    put_back(&mut reader, nal_ref_idc, idr, front, pps, sps, place)
}

/// The slice header of a unit of type 1 or 5 (7.3.3), by the unit's first byte and its RBSP, under
/// the parameter sets in force; or the first fault in it. Beside those of the codes these are
/// SliceType, BadIdr, NoParameterSet, OutOfRange, RedundantSlice, BadRefList and BadMarking.
pub fn read_header(header: u8, rbsp: &[u8], table: &ParamTable) -> Result<Header, Fault>
    ensures header { result ≡ header_in_rbsp header (sets_after table.now) rbsp.now }
    ensures kept { IfOk result (λ h. IsReadUnder (sets_after table.now) rbsp.now h) }
    ensures idr { IfOk result (λ h. is_idr h ≡ (header % 32 == 5)) }
{
    let mut read = Header::empty();
    put_header(header, rbsp, table, &mut read)?;
    Ok(read)
}

/// Reads a slice header into one in which anything may stand: a header is large, and so it is not
/// handed on.
pub fn put_header(
    header: u8,
    rbsp: &[u8],
    table: &ParamTable,
    place: &mut Header,
) -> Result<(), Fault>
    ensures header { filled result place.new
        ≡ header_in_rbsp header (sets_after table.now) rbsp.now }
    ensures kept { IfOk result (λ _. IsReadUnder (sets_after table.now) rbsp.now place.new) }
    ensures idr { IfOk result (λ _. is_idr place.new ≡ (header % 32 == 5)) }
{
    put_fields(header, rbsp, table, place)
}
