//! Tests of parameter sets and slice data that are written and read back.

// No clause says that memory is found. Where an allocation is refused (`rt try --test --fail-alloc
// N`), the test ends in that error, and not at an assertion.
ghost use Rattle.std.specs.Prelude.{true, ◌≤◌, ℕ, length, false};
ghost use Rattle.avc_make.specs.SliceMbs.{IsCodedSlice};
ghost use Rattle.avc_syntax_tests.specs.Following.{FollowOn};

use crate::macroblock_types::{add, i_pcm};
use avc_make::{BitMaker, CodedSlice, Macroblocks, write_block, write_pps, write_slice, write_sps};
use avc_params::{ConstraintFlags, OrderCount, Pps, Sps, read_sps};
use avc_slice::{CodedOrder, Header, SliceType};
use avc_types::{Fault, Levels, Marking, MbAddr, OutOfMemory, Syntax};
use std::alloc::Global;
use std::test::Fail;

// 16x16 luma samples, order count type 2, one reference frame
pub(crate) const SPS: Sps = Sps {
    profile_idc: 66,
    constraint_flags: ConstraintFlags {
        constraint_set0_flag: true,
        constraint_set1_flag: true,
        constraint_set2_flag: false,
        constraint_set3_flag: false,
        constraint_set4_flag: false,
        constraint_set5_flag: false,
    },
    reserved_zero_2bits: 0,
    level_idc: 10,
    seq_parameter_set_id: 0,
    log2_max_frame_num_minus4: 0,
    order_count: OrderCount::Type2,
    max_num_ref_frames: 1,
    gaps_in_frame_num_value_allowed_flag: false,
    pic_width_in_mbs_minus1: 0,
    pic_height_in_map_units_minus1: 0,
    direct_8x8_inference_flag: false,
    frame_cropping: None,
    vui: None,
};

// no deblocking fields in slices
pub(crate) const PPS: Pps = Pps {
    pic_parameter_set_id: 0,
    seq_parameter_set_id: 0,
    bottom_field_pic_order_in_frame_present_flag: false,
    num_ref_idx_l0_default_active_minus1: 0,
    num_ref_idx_l1_default_active_minus1: 0,
    weighted_pred_flag: false,
    weighted_bipred_idc: 0,
    pic_init_qp_minus26: 0,
    pic_init_qs_minus26: 0,
    chroma_qp_index_offset: 0,
    deblocking_filter_control_present_flag: false,
    constrained_intra_pred_flag: false,
    redundant_pic_cnt_present_flag: false,
};

pub(crate) fn written_sps(alloc: Global) -> Result<Vec<u8>, OutOfMemory> {
    write_sps(alloc, &SPS)
}

pub(crate) fn written_pps(alloc: Global) -> Result<Vec<u8>, OutOfMemory> {
    write_pps(alloc, &PPS)
}

#[test]
fn writes_parameter_sets(rt: HostRuntime) -> Result<(), Fail> {
    assert_eq!(rt;
        written_sps(rt.alloc())?.as_slice(),
        [0x67, 0x42, 0xC0, 0x0A, 0xDA, 0x71].as_slice()
    );
    assert_eq!(rt;
        written_pps(rt.alloc())?.as_slice(),
        [0x68, 0xCE, 0x38, 0x80].as_slice()
    );
    Ok(())
}

// Why the set that was written with so many macroblocks is refused, if it is.
fn fault_of_size(alloc: Global, width: u16, height: u16) -> Result<Option<Fault>, Fail>
    requires width { width ≤ 4096 }
    requires height { height ≤ 4096 }
    requires some { 1 ≤ width }
    requires any { 1 ≤ height }
{
    let mut sps = SPS;
    sps.pic_width_in_mbs_minus1 = width - 1;
    sps.pic_height_in_map_units_minus1 = height - 1;
    let unit = write_sps(alloc, &sps)?;
    match read_sps(&unit.as_slice()[1..]) {
        Ok(_) => Ok(None),
        Err(refused) => Ok(Some(refused.fault)),
    }
}

// Of three sizes that are taken, and three that are not.
fn faults_of_sizes(alloc: Global) -> Result<[Option<Fault>; 6], Fail> {
    Ok([
        fault_of_size(alloc, 1055, 132)?,
        fault_of_size(alloc, 544, 1)?,
        fault_of_size(alloc, 1, 1055)?,
        fault_of_size(alloc, 1055, 133)?,
        fault_of_size(alloc, 1056, 1)?,
        fault_of_size(alloc, 4096, 4096)?,
    ])
}

#[test]
fn writes_sizes_that_are_not_taken(rt: HostRuntime) -> Result<(), Fail> {
    let refused = Some(Fault::PictureSize);
    assert_eq!(rt;
        faults_of_sizes(rt.alloc())?,
        [None, None, None, refused, refused, refused]
    );
    Ok(())
}

// The only slice of an IDR picture.
fn only_slice(macroblocks: Macroblocks) -> CodedSlice
    requires some { 1 ≤ length macroblocks }
    requires few { length macroblocks ≤ 38 }
    requires follow { (last : ℕ) × FollowOn false 0 26 last macroblocks }
    ensures { IsCodedSlice result }
{
    CodedSlice {
        sps: SPS,
        pps: PPS,
        header: Header {
            nal_ref_idc: 3,
            first_mb_in_slice: MbAddr::new(0),
            slice_type: SliceType::AllI,
            pic_parameter_set_id: 0,
            frame_num: 0,
            idr_pic_id: Some(0),
            order: CodedOrder::Type2,
            redundant_pic_cnt: None,
            active_override: None,
            num_ref_idx_active: 0,
            modifications: None,
            pred_weight_table: None,
            marking: Some(Marking::Idr {
                no_output_of_prior_pics_flag: false,
                long_term_reference_flag: false,
            }),
            slice_qp_delta: 0,
            deblocking: None,
            position: 0,
        },
        macroblocks,
    }
}

// Whether there are the header, 256, 64 and 64 samples, and the stop bit.
fn is_pcm_slice(unit: &[u8]) -> bool {
    unit.len() == 390
        && &unit[..5] == [0x65, 0x88, 0x84, 0x86, 0x80].as_slice()
        && &unit[5..261] == [0x11; 256].as_slice()
        && &unit[261..325] == [0x40; 64].as_slice()
        && &unit[325..389] == [0xC0; 64].as_slice()
        && unit[389] == 0x80
}

#[test]
fn writes_a_slice(rt: HostRuntime) -> Result<(), Fail> {
    let mut list = Vec::new(rt.alloc());
    add(&mut list, 26, i_pcm())?;
    let slice = only_slice(Macroblocks::from_vec(list));
    let unit = write_slice(rt.alloc(), &slice)?;
    assert!(rt; is_pcm_slice(&unit));
    Ok(())
}

// The only slice of a P picture behind it.
fn only_p_slice(macroblocks: Macroblocks) -> CodedSlice
    requires few { length macroblocks ≤ 38 }
    requires follow { (last : ℕ) × FollowOn true 1 26 last macroblocks }
    ensures { IsCodedSlice result }
{
    CodedSlice {
        sps: SPS,
        pps: PPS,
        header: Header {
            nal_ref_idc: 2,
            first_mb_in_slice: MbAddr::new(0),
            slice_type: SliceType::AllP,
            pic_parameter_set_id: 0,
            frame_num: 1,
            idr_pic_id: None,
            order: CodedOrder::Type2,
            redundant_pic_cnt: None,
            active_override: None,
            num_ref_idx_active: 1,
            modifications: None,
            pred_weight_table: None,
            marking: Some(Marking::SlidingWindow),
            slice_qp_delta: 0,
            deblocking: None,
            position: 0,
        },
        macroblocks,
    }
}

#[test]
fn writes_a_run_of_one(rt: HostRuntime) -> Result<(), Fail> {
    let mut list = Vec::new(rt.alloc());
    add(&mut list, 26, Syntax::PSkip)?;
    let slice = only_p_slice(Macroblocks::from_vec(list));
    let unit = write_slice(rt.alloc(), &slice)?;
    assert_eq!(rt; unit.as_slice(), [0x41, 0x9A, 0x22, 0xA0].as_slice());
    Ok(())
}

// mb_skip_run 0 and nothing more, where the other has the word of 1
#[test]
fn writes_a_run_of_none(rt: HostRuntime) -> Result<(), Fail> {
    let slice = only_p_slice(Macroblocks::from_vec(Vec::new(rt.alloc())));
    let unit = write_slice(rt.alloc(), &slice)?;
    assert_eq!(rt; unit.as_slice(), [0x41, 0x9A, 0x23, 0x80].as_slice());
    Ok(())
}

#[test]
fn writes_a_block(rt: HostRuntime) -> Result<(), Fail> {
    let levels = Levels::from_array([0, 3, 0, 1, -1, -1, 0, 1, 0, 0, 0, 0, 0, 0, 0, 0]);
    let mut maker = BitMaker::new(rt.alloc());
    write_block::<16>(&mut maker, 0, &levels)?;
    assert_eq!(rt; maker.len(), 24);
    assert_eq!(rt; maker.bytes(), [0x08, 0xE5, 0xED].as_slice());
    Ok(())
}
