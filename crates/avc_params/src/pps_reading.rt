//! A picture parameter set, read (7.3.2.2).

ghost use Rattle.std.specs.Prelude.{◌≡◌};
ghost use Rattle.avc_bits.specs.Reader.{Reads};
ghost use Rattle.avc_params.specs.PpsReading.{default_counts, pps_after, quantisation, switches};
ghost use Rattle.avc_params.specs.Reading.{pps_of};

use crate::pps::Pps;
use crate::set_unit::SetFault;
use crate::syntax::Syntax;
use avc_bits::BitReader;
use avc_types::Fault;

/// The default numbers of reference frames, less one.
#[derive(Clone, Copy)]
pub(crate) struct DefaultCounts {
    pub num_ref_idx_l0_default_active_minus1: u8,
    pub num_ref_idx_l1_default_active_minus1: u8,
}

/// How predictions are weighted, and the quantiser's numbers.
#[derive(Clone, Copy)]
pub(crate) struct Quantisation {
    pub weighted_pred_flag: bool,
    pub weighted_bipred_idc: u8,
    pub pic_init_qp_minus26: i32,
    pub pic_init_qs_minus26: i32,
    pub chroma_qp_index_offset: i32,
}

/// The last flags of a picture parameter set.
#[derive(Clone, Copy)]
pub(crate) struct Switches {
    pub deblocking_filter_control_present_flag: bool,
    pub constrained_intra_pred_flag: bool,
    pub redundant_pic_cnt_present_flag: bool,
}

/// The picture parameter set that an RBSP holds (7.3.2.2), or the first fault in it: Truncated,
/// CodeTooLong, OutOfRange, Cabac, SliceGroups or PpsExtension.
pub fn read_pps(rbsp: &[u8]) -> Result<Pps, SetFault>
    ensures { result ≡ pps_of rbsp.now }
{
    let mut reader = BitReader::new(rbsp);
    match reader.ue_to(255) {
        Err(fault) => Err(SetFault { id: None, fault }),
        Ok(id) => match read_after(&mut reader, id as u8) {
            Err(fault) => Err(SetFault {
                id: Some(id as u8),
                fault,
            }),
            Ok(pps) => Ok(pps),
        },
    }
}

impl Syntax for DefaultCounts {
    ghost syntax = { default_counts };

    fn read(reader: &mut BitReader) -> Result<DefaultCounts, Fault> {
        Ok(DefaultCounts {
            num_ref_idx_l0_default_active_minus1: reader.ue_to(31)? as u8,
            num_ref_idx_l1_default_active_minus1: reader.ue_to(31)? as u8,
        })
    }
}

impl Syntax for Quantisation {
    ghost syntax = { quantisation };

    fn read(reader: &mut BitReader) -> Result<Quantisation, Fault> {
        Ok(Quantisation {
            weighted_pred_flag: reader.flag()?,
            weighted_bipred_idc: reader.u_to(2, 2)? as u8,
            pic_init_qp_minus26: reader.se_within(-26, 25)?,
            pic_init_qs_minus26: reader.se_within(-26, 25)?,
            chroma_qp_index_offset: reader.se_within(-12, 12)?,
        })
    }
}

impl Syntax for Switches {
    ghost syntax = { switches };

    fn read(reader: &mut BitReader) -> Result<Switches, Fault> {
        Ok(Switches {
            deblocking_filter_control_present_flag: reader.flag()?,
            constrained_intra_pred_flag: reader.flag()?,
            redundant_pic_cnt_present_flag: reader.flag()?,
        })
    }
}

/// What follows the id.
fn read_after(reader: &mut BitReader, pic_parameter_set_id: u8) -> Result<Pps, Fault>
    ensures read { Reads result (pps_after pic_parameter_set_id) reader.old reader.new }
{
    let seq_parameter_set_id = reader.ue_to(31)? as u8;
    if reader.flag()? {
        return Err(Fault::Cabac);
    }
    let bottom_field_pic_order_in_frame_present_flag = reader.flag()?;
    if reader.ue()? > 0 {
        return Err(Fault::SliceGroups);
    }
    let counts = DefaultCounts::read(reader)?;
    let numbers = Quantisation::read(reader)?;
    let switches = Switches::read(reader)?;
    if reader.more_data() {
        return Err(Fault::PpsExtension);
    }
    Ok(Pps {
        pic_parameter_set_id,
        seq_parameter_set_id,
        bottom_field_pic_order_in_frame_present_flag,
        num_ref_idx_l0_default_active_minus1: counts.num_ref_idx_l0_default_active_minus1,
        num_ref_idx_l1_default_active_minus1: counts.num_ref_idx_l1_default_active_minus1,
        weighted_pred_flag: numbers.weighted_pred_flag,
        weighted_bipred_idc: numbers.weighted_bipred_idc,
        pic_init_qp_minus26: numbers.pic_init_qp_minus26,
        pic_init_qs_minus26: numbers.pic_init_qs_minus26,
        chroma_qp_index_offset: numbers.chroma_qp_index_offset,
        deblocking_filter_control_present_flag: switches.deblocking_filter_control_present_flag,
        constrained_intra_pred_flag: switches.constrained_intra_pred_flag,
        redundant_pic_cnt_present_flag: switches.redundant_pic_cnt_present_flag,
    })
}
