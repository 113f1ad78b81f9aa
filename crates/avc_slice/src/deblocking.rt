//! The deblocking fields of a slice header (7.3.3).

ghost use Rattle.avc_bits.specs.Reader.{Reads};
ghost use Rattle.avc_slice.specs.Reading.{deblocking};

use crate::header::Deblocking;
use avc_bits::BitReader;
use avc_types::{Fault, FilteredEdges};

/// disable_deblocking_filter_idc and, unless it is 1, the two offsets (7.3.3).
pub(crate) fn read_deblocking(reader: &mut BitReader) -> Result<Deblocking, Fault>
    ensures { Reads result deblocking reader.old reader.new }
{
    let idc = reader.ue_to(2)?;
    if idc == 1 {
        return Ok(Deblocking {
            disable_deblocking_filter_idc: FilteredEdges::NoEdges,
            slice_alpha_c0_offset_div2: 0,
            slice_beta_offset_div2: 0,
        });
    }
    let slice_alpha_c0_offset_div2 = reader.se_within(-6, 6)?;
    let slice_beta_offset_div2 = reader.se_within(-6, 6)?;
    Ok(Deblocking {
        disable_deblocking_filter_idc: if idc == 0 {
            FilteredEdges::All
        } else {
            FilteredEdges::WithinSlice
        },
        slice_alpha_c0_offset_div2,
        slice_beta_offset_div2,
    })
}
