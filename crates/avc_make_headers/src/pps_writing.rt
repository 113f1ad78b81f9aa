//! Picture parameter sets, written (7.3.2.2).

ghost use Rattle.std.specs.Prelude.{◌≡◌, Ok, IfOk, drop};
ghost use Rattle.avc_annexb.specs.Escapes.{rbsp};
ghost use Rattle.avc_rbsp.specs.Made.{Puts, nothing};
ghost use Rattle.avc_rbsp.specs.Rbsps.{IsUnit};
ghost use Rattle.avc_make_headers.specs.PpsWriting.{default_counts_bits, pps_bits};
ghost use Rattle.avc_make_headers.specs.PpsWriting.{quantisation_bits, switches_bits};
ghost use Rattle.avc_make_headers.specs.Units.{pps_header};
ghost use Rattle.avc_params.specs.Reading.{pps_of};
ghost use Rattle.avc_params.specs.Within.{IsPps};

use crate::part::put_two;
use crate::units::unit_of;
use avc_params::Pps;
use avc_rbsp::BitMaker;
use avc_types::OutOfMemory;
use std::alloc::Global;

// nal_ref_idc 3 and nal_unit_type 8
const PPS_HEADER: u8 = 0x68;

/// The unit of a picture parameter set (7.3.2.2), from its header byte on.
pub fn write_pps(alloc: Global, pps: &Pps) -> Result<Vec<u8>, OutOfMemory>
    requires { IsPps pps.now }
    ensures unit { IfOk result (λ unit. IsUnit pps_header (pps_bits pps.now) unit.items) }
    ensures read { IfOk result (λ unit. pps_of (rbsp (drop 1 unit.items)) ≡ Ok pps.now) }
{
    let mut maker = BitMaker::new(alloc);
    pps_unit(alloc, &mut maker, pps)
}

// By a maker that has no bits yet.
fn pps_unit(alloc: Global, maker: &mut BitMaker, pps: &Pps) -> Result<Vec<u8>, OutOfMemory>
    requires none { maker.old ≡ nothing }
    requires pps { IsPps pps.now }
    ensures unit { IfOk result (λ unit. IsUnit pps_header (pps_bits pps.now) unit.items) }
    ensures read { IfOk result (λ unit. pps_of (rbsp (drop 1 unit.items)) ≡ Ok pps.now) }
{
    put_pps(maker, pps)?;
    let unit = unit_of(alloc, PPS_HEADER, maker)?;
    Ok(unit)
}

fn put_pps(maker: &mut BitMaker, pps: &Pps) -> Result<(), OutOfMemory>
    requires { IsPps pps.now }
    ensures { Puts result (pps_bits pps.now) maker.old maker.new }
{
    maker.ue(pps.pic_parameter_set_id as u32)?;
    maker.ue(pps.seq_parameter_set_id as u32)?;
    // entropy_coding_mode_flag
    maker.flag(false)?;
    maker.flag(pps.bottom_field_pic_order_in_frame_present_flag)?;
    // num_slice_groups_minus1
    maker.ue(0)?;
    put_default_counts(maker, pps)?;
    put_quantisation(maker, pps)?;
    put_switches(maker, pps)?;
    Ok(())
}

fn put_default_counts(maker: &mut BitMaker, pps: &Pps) -> Result<(), OutOfMemory>
    ensures { Puts result (default_counts_bits pps.now) maker.old maker.new }
{
    put_two(
        maker,
        pps.num_ref_idx_l0_default_active_minus1 as u32,
        pps.num_ref_idx_l1_default_active_minus1 as u32,
    )
}

fn put_quantisation(maker: &mut BitMaker, pps: &Pps) -> Result<(), OutOfMemory>
    requires { IsPps pps.now }
    ensures { Puts result (quantisation_bits pps.now) maker.old maker.new }
{
    maker.flag(pps.weighted_pred_flag)?;
    maker.put(2, pps.weighted_bipred_idc as u32)?;
    maker.se(pps.pic_init_qp_minus26)?;
    maker.se(pps.pic_init_qs_minus26)?;
    maker.se(pps.chroma_qp_index_offset)?;
    Ok(())
}

fn put_switches(maker: &mut BitMaker, pps: &Pps) -> Result<(), OutOfMemory>
    ensures { Puts result (switches_bits pps.now) maker.old maker.new }
{
    maker.flag(pps.deblocking_filter_control_present_flag)?;
    maker.flag(pps.constrained_intra_pred_flag)?;
    maker.flag(pps.redundant_pic_cnt_present_flag)?;
    Ok(())
}
