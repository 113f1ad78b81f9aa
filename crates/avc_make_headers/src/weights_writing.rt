//! The table of explicit weights (7.3.3.2).

ghost use Rattle.std.specs.Prelude.{ℕ};
ghost use Rattle.avc_make_headers.specs.WeightsWriting.{chroma_weights_bits, coded_weight_bits};
ghost use Rattle.avc_make_headers.specs.WeightsWriting.{entry_weights_bits, pred_weight_table_bits};
ghost use Rattle.avc_slice.specs.Within.{IsChromaWeights, IsCodedWeight, IsEntryWeights};
ghost use Rattle.avc_slice.specs.Within.{IsPredWeightTable};

use crate::part::{Part, put_each, put_optional};
use avc_rbsp::BitMaker;
use avc_slice::{ChromaWeights, CodedWeight, EntryWeights, PredWeightTable};
use avc_types::OutOfMemory;

impl Part for CodedWeight {
    ghost bits = { coded_weight_bits };

    ghost fits = { IsCodedWeight };

    fn put(&self, maker: &mut BitMaker) -> Result<(), OutOfMemory> {
        maker.se(self.weight)?;
        maker.se(self.offset)?;
        Ok(())
    }
}

impl Part for ChromaWeights {
    ghost bits = { chroma_weights_bits };

    ghost fits = { IsChromaWeights };

    fn put(&self, maker: &mut BitMaker) -> Result<(), OutOfMemory> {
        self.cb.put(maker)?;
        self.cr.put(maker)?;
        Ok(())
    }
}

// of one reference index
impl Part for EntryWeights {
    ghost bits = { entry_weights_bits };

    ghost fits = { IsEntryWeights };

    fn put(&self, maker: &mut BitMaker) -> Result<(), OutOfMemory> {
        put_optional(maker, &self.luma)?;
        put_optional(maker, &self.chroma)?;
        Ok(())
    }
}

impl Part for PredWeightTable {
    ghost bits = { pred_weight_table_bits };

    ghost fits = { λ table. (num_ref_idx_active : ℕ) × IsPredWeightTable num_ref_idx_active table };

    fn put(&self, maker: &mut BitMaker) -> Result<(), OutOfMemory> {
        maker.ue(self.luma_log2_weight_denom as u32)?;
        maker.ue(self.chroma_log2_weight_denom as u32)?;
        put_each(maker, self.entries.as_slice())?;
        Ok(())
    }
}
