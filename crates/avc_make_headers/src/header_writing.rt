//! Slice headers, written (7.3.3).

ghost use Rattle.std.specs.Prelude.{◌≡◌, ◌+◌, ◌<◌, ◌≤◌, ◌++◌, false, IfSome};
ghost use Rattle.avc_bits.specs.Bits.{bits_of};
ghost use Rattle.avc_rbsp.specs.Made.{Puts};
ghost use Rattle.avc_rbsp.specs.Words.{se_word, ue_word};
ghost use Rattle.avc_make_headers.specs.HeaderWriting.{IsDeblocking, IsHeader, IsModification};
ghost use Rattle.avc_make_headers.specs.HeaderWriting.{IsOffset, IsOrderOf, IsSeWhere};
ghost use Rattle.avc_make_headers.specs.HeaderWriting.{coded_order_bits, deblocking_bits};
ghost use Rattle.avc_make_headers.specs.HeaderWriting.{filtering_bits, front_bits, header_bits};
ghost use Rattle.avc_make_headers.specs.HeaderWriting.{list_bits_where, numbers_bits, se_where};
ghost use Rattle.avc_make_headers.specs.HeaderWriting.{slice_type_number, slice_unit_header};
ghost use Rattle.avc_make_headers.specs.SpsWriting.{IsSeValue};
ghost use Rattle.avc_make_headers.specs.VuiWriting.{Each, IsUeValue};
ghost use Rattle.avc_params.specs.Within.{IsOrderCount};
ghost use Rattle.avc_slice.specs.Header.{is_p};
ghost use Rattle.avc_slice.specs.Within.{IsPredWeightTable};

use crate::part::{Part, put_optional, put_where};
use avc_params::{OrderCount, Pps, Sps};
use avc_rbsp::BitMaker;
use avc_slice::{CodedOrder, Deblocking, Header, SliceType};
use avc_types::{FilteredEdges, OutOfMemory};

/// Puts a slice header (7.3.3).
pub fn put_header(
    maker: &mut BitMaker,
    sps: &Sps,
    pps: &Pps,
    header: &Header,
) -> Result<(), OutOfMemory>
    requires { IsHeader sps.now pps.now header.now }
    ensures { Puts result (header_bits sps.now pps.now header.now) maker.old maker.new }
{
    put_front(maker, header)?;
    put_numbers(maker, sps, pps, header)?;
    put_list(maker, header)?;
    put_where(maker, &header.marking)?;
    put_filtering(maker, header)?;
    Ok(())
}

/// A unit's first byte (7.3.1): nal_ref_idc, and nal_unit_type 5 or 1.
pub fn header_byte(header: &Header) -> u8
    requires { header.now.nal_ref_idc < 4 }
    ensures { result ≡ slice_unit_header header.now }
{
    let unit_type = match header.idr_pic_id {
        Some(_) => 5,
        None => 1,
    };
    32 * header.nal_ref_idc + unit_type
}

// slice_type (Table 7-6)
fn number_of(slice_type: SliceType) -> u32
    ensures { result ≡ slice_type_number slice_type }
{
    match slice_type {
        SliceType::P => 0,
        SliceType::I => 2,
        SliceType::AllP => 5,
        SliceType::AllI => 7,
    }
}

fn put_front(maker: &mut BitMaker, header: &Header) -> Result<(), OutOfMemory>
    requires { header.now.first_mb_in_slice < 4294967295 }
    ensures { Puts result (front_bits header.now) maker.old maker.new }
{
    maker.ue(header.first_mb_in_slice.get())?;
    maker.ue(number_of(header.slice_type))?;
    maker.ue(header.pic_parameter_set_id as u32)?;
    Ok(())
}

// what tells the slice's picture from others
fn put_numbers(
    maker: &mut BitMaker,
    sps: &Sps,
    pps: &Pps,
    header: &Header,
) -> Result<(), OutOfMemory>
    requires { IsHeader sps.now pps.now header.now }
    ensures { Puts result (numbers_bits sps.now pps.now header.now) maker.old maker.new }
{
    maker.put(sps.log2_max_frame_num_minus4 as u32 + 4, header.frame_num)?;
    put_where(maker, &header.idr_pic_id)?;
    put_order(
        maker,
        &sps.order_count,
        pps.bottom_field_pic_order_in_frame_present_flag,
        header.order,
    )?;
    put_where(maker, &header.redundant_pic_cnt)?;
    Ok(())
}

fn put_order(
    maker: &mut BitMaker,
    order_count: &OrderCount,
    bottom_present: bool,
    order: CodedOrder,
) -> Result<(), OutOfMemory>
    requires going { maker.old.failed ≡ false }
    requires within { IsOrderCount order_count.now }
    requires fits { IsOrderOf order_count.now bottom_present order }
    ensures { Puts result (coded_order_bits order_count.now bottom_present order) maker.old
        maker.new }
{
    match (order_count, order) {
        (
            OrderCount::Type0 {
                log2_max_pic_order_cnt_lsb_minus4,
            },
            CodedOrder::Type0 {
                pic_order_cnt_lsb,
                delta_pic_order_cnt_bottom,
            },
        ) => put_lsb(
            maker,
            *log2_max_pic_order_cnt_lsb_minus4,
            pic_order_cnt_lsb,
            bottom_present,
            delta_pic_order_cnt_bottom,
        ),
        (
            OrderCount::Type1 {
                delta_pic_order_always_zero_flag,
                ..
            },
            CodedOrder::Type1 { delta_0, delta_1 },
        ) => {
            let coded = !*delta_pic_order_always_zero_flag;
            put_deltas(maker, coded, delta_0, coded & bottom_present, delta_1)
        }
        _ => Ok(()),
    }
}

// pic_order_cnt_lsb, and the bottom field's difference where it is coded
fn put_lsb(
    maker: &mut BitMaker,
    log2_minus4: u8,
    lsb: u32,
    bottom_present: bool,
    bottom: i32,
) -> Result<(), OutOfMemory>
    requires log2 { log2_minus4 ≤ 12 }
    requires fits { IsSeWhere bottom_present bottom }
    ensures { Puts result (bits_of (log2_minus4 + 4) lsb ++ se_where bottom_present bottom)
        maker.old maker.new }
{
    maker.put(log2_minus4 as u32 + 4, lsb)?;
    put_se_where(maker, bottom_present, bottom)?;
    Ok(())
}

// delta_pic_order_cnt, each where it is coded
fn put_deltas(
    maker: &mut BitMaker,
    coded: bool,
    delta_0: i32,
    bottom_coded: bool,
    delta_1: i32,
) -> Result<(), OutOfMemory>
    requires going { maker.old.failed ≡ false }
    requires first { IsSeWhere coded delta_0 }
    requires second { IsSeWhere bottom_coded delta_1 }
    ensures { Puts result (se_where coded delta_0 ++ se_where bottom_coded delta_1) maker.old
        maker.new }
{
    put_se_where(maker, coded, delta_0)?;
    put_se_where(maker, bottom_coded, delta_1)?;
    Ok(())
}

// se(v), where it is coded
fn put_se_where(maker: &mut BitMaker, coded: bool, value: i32) -> Result<(), OutOfMemory>
    requires going { maker.old.failed ≡ false }
    requires fits { IsSeWhere coded value }
    ensures { Puts result (se_where coded value) maker.old maker.new }
{
    if coded {
        maker.se(value)?;
    }
    Ok(())
}

// what RefPicList0 is made by, and by what its predictions are weighted, in P slices
fn put_list(maker: &mut BitMaker, header: &Header) -> Result<(), OutOfMemory>
    requires going { maker.old.failed ≡ false }
    requires count { IfSome header.now.active_override IsUeValue }
    requires list { IfSome header.now.modifications (Each (IsModification 65536)) }
    requires weights { IfSome header.now.pred_weight_table
        (IsPredWeightTable header.now.num_ref_idx_active) }
    ensures { Puts result (list_bits_where (is_p header.now) header.now) maker.old maker.new }
{
    if header.is_p() {
        put_optional(maker, &header.active_override)?;
        put_optional(maker, &header.modifications)?;
        put_where(maker, &header.pred_weight_table)?;
    }
    Ok(())
}

fn put_filtering(maker: &mut BitMaker, header: &Header) -> Result<(), OutOfMemory>
    requires delta { IsSeValue header.now.slice_qp_delta }
    requires filtered { IfSome header.now.deblocking IsDeblocking }
    ensures { Puts result (filtering_bits header.now) maker.old maker.new }
{
    maker.se(header.slice_qp_delta)?;
    put_where(maker, &header.deblocking)?;
    Ok(())
}

impl Part for Deblocking {
    ghost bits = { deblocking_bits };

    ghost fits = { IsDeblocking };

    fn put(&self, maker: &mut BitMaker) -> Result<(), OutOfMemory> {
        match self.disable_deblocking_filter_idc {
            FilteredEdges::All => put_offsets(maker, 0, self),
            FilteredEdges::NoEdges => {
                maker.ue(1)?;
                Ok(())
            }
            FilteredEdges::WithinSlice => put_offsets(maker, 2, self),
        }
    }
}

// disable_deblocking_filter_idc and the two offsets
fn put_offsets(maker: &mut BitMaker, idc: u32, deblocking: &Deblocking) -> Result<(), OutOfMemory>
    requires idc { idc ≤ 2 }
    requires alpha { IsOffset deblocking.now.slice_alpha_c0_offset_div2 }
    requires beta { IsOffset deblocking.now.slice_beta_offset_div2 }
    ensures { Puts result
        (ue_word idc ++ (se_word deblocking.now.slice_alpha_c0_offset_div2
        ++ se_word deblocking.now.slice_beta_offset_div2)) maker.old maker.new }
{
    maker.ue(idc)?;
    maker.se(deblocking.slice_alpha_c0_offset_div2)?;
    maker.se(deblocking.slice_beta_offset_div2)?;
    Ok(())
}
