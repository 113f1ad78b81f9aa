//! Copies of slice headers.

ghost use Rattle.std.specs.Prelude.{◌≡◌};

use crate::header::Header;
use crate::weights::PredWeightTable;
use avc_types::{Marking, Modification, UpTo};

fn copied_modifications(
    modifications: &Option<UpTo<Modification, 16>>,
) -> Option<UpTo<Modification, 16>>
    ensures { result ≡ modifications.now }
{
    match modifications {
        Some(modifications) => Some(modifications.copied()),
        None => None,
    }
}

fn copied_weights(table: &Option<PredWeightTable>) -> Option<PredWeightTable>
    ensures { result ≡ table.now }
{
    match table {
        Some(table) => Some(PredWeightTable {
            luma_log2_weight_denom: table.luma_log2_weight_denom,
            chroma_log2_weight_denom: table.chroma_log2_weight_denom,
            entries: table.entries.copied(),
        }),
        None => None,
    }
}

fn copied_marking(marking: &Option<Marking>) -> Option<Marking>
    ensures { result ≡ marking.now }
{
    match marking {
        Some(
            Marking::Idr {
                no_output_of_prior_pics_flag,
                long_term_reference_flag,
            },
        ) => Some(Marking::Idr {
            no_output_of_prior_pics_flag: *no_output_of_prior_pics_flag,
            long_term_reference_flag: *long_term_reference_flag,
        }),
        Some(Marking::SlidingWindow) => Some(Marking::SlidingWindow),
        Some(Marking::Adaptive(operations)) => Some(Marking::Adaptive(operations.copied())),
        None => None,
    }
}

impl Header {
    /// The same header once more. This takes no memory.
    pub fn copied(&self) -> Header
        ensures { result ≡ self.now }
    {
        Header {
            nal_ref_idc: self.nal_ref_idc,
            first_mb_in_slice: self.first_mb_in_slice,
            slice_type: self.slice_type,
            pic_parameter_set_id: self.pic_parameter_set_id,
            frame_num: self.frame_num,
            idr_pic_id: self.idr_pic_id,
            order: self.order,
            redundant_pic_cnt: self.redundant_pic_cnt,
            active_override: self.active_override,
            num_ref_idx_active: self.num_ref_idx_active,
            modifications: copied_modifications(&self.modifications),
            pred_weight_table: copied_weights(&self.pred_weight_table),
            marking: copied_marking(&self.marking),
            slice_qp_delta: self.slice_qp_delta,
            deblocking: self.deblocking,
            position: self.position,
        }
    }
}
