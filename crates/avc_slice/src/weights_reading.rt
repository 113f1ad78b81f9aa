//! pred_weight_table, read (7.3.3.2).

ghost use Rattle.std.specs.Prelude.{◌≡◌, ◌≤◌};
ghost use Rattle.avc_bits.specs.Reader.{Reads};
ghost use Rattle.avc_slice.specs.WeightsReading.{chroma_weights, coded_weight, entry_weights};
ghost use Rattle.avc_slice.specs.WeightsReading.{pred_weight_table};

use crate::weights::{ChromaWeights, CodedWeight, EntryWeights, PredWeightTable};
use avc_bits::BitReader;
use avc_params::{Syntax, read_optional, read_times};
use avc_types::Fault;

impl Syntax for CodedWeight {
    ghost syntax = { coded_weight };

    fn read(reader: &mut BitReader) -> Result<CodedWeight, Fault> {
        Ok(CodedWeight {
            weight: reader.se_within(-128, 127)?,
            offset: reader.se_within(-128, 127)?,
        })
    }
}

impl Syntax for ChromaWeights {
    ghost syntax = { chroma_weights };

    fn read(reader: &mut BitReader) -> Result<ChromaWeights, Fault> {
        Ok(ChromaWeights {
            cb: CodedWeight::read(reader)?,
            cr: CodedWeight::read(reader)?,
        })
    }
}

impl Syntax for EntryWeights {
    ghost syntax = { entry_weights };

    fn read(reader: &mut BitReader) -> Result<EntryWeights, Fault> {
        Ok(EntryWeights {
            luma: read_optional(reader)?,
            chroma: read_optional(reader)?,
        })
    }
}

/// pred_weight_table (7.3.3.2) for so many reference indices.
pub(crate) fn read_pred_weight_table(
    reader: &mut BitReader,
    num_ref_idx_active: u32,
) -> Result<PredWeightTable, Fault>
    requires { num_ref_idx_active ≤ 16 }
    ensures { Reads result (pred_weight_table num_ref_idx_active) reader.old reader.new }
{
    Ok(PredWeightTable {
        luma_log2_weight_denom: reader.ue_to(7)? as u8,
        chroma_log2_weight_denom: reader.ue_to(7)? as u8,
        entries: read_times(reader, num_ref_idx_active)?,
    })
}
