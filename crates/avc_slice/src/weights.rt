//! Weights of prediction (7.4.3.2).

ghost use Rattle.std.specs.Prelude.{◌≡◌, ◌≤◌, map, slice_get};
ghost use Rattle.avc_slice.specs.Weights.{weight_of, weights_of};

use avc_types::{UpTo, Weight, Weights};

/// A weight and an offset as they are coded (7.4.3.2), each -128 to 127.
#[derive(Clone, Copy, Default)]
pub struct CodedWeight {
    /// In parts of two to the power of the component's denominator.
    pub weight: i32,

    /// In sample values.
    pub offset: i32,
}

/// Those of Cb and of Cr.
#[derive(Clone, Copy, Default)]
pub struct ChromaWeights {
    pub cb: CodedWeight,
    pub cr: CodedWeight,
}

/// What is coded for one reference index.
#[derive(Clone, Copy, Default)]
pub struct EntryWeights {
    /// Where luma_weight_l0_flag is 1.
    pub luma: Option<CodedWeight>,

    /// Where chroma_weight_l0_flag is 1.
    pub chroma: Option<ChromaWeights>,
}

/// pred_weight_table (7.3.3.2) of a P slice.
#[derive(Drop)]
pub struct PredWeightTable {
    /// 0 to 7.
    pub luma_log2_weight_denom: u8,

    /// 0 to 7.
    pub chroma_log2_weight_denom: u8,

    /// By reference index, as many as RefPicList0 has entries.
    pub entries: UpTo<EntryWeights, 16>,
}

impl PredWeightTable {
    /// By what predictions from a reference index are weighted (8.4.2.3).
    pub(crate) fn weights(&self, reference_index: usize) -> Option<Weights>
        requires luma { self.now.luma_log2_weight_denom ≤ 7 }
        requires chroma { self.now.chroma_log2_weight_denom ≤ 7 }
        ensures { result ≡ slice_get (map (weights_of self.now) self.now.entries) reference_index }
    {
        match self.entries.as_slice().get(reference_index) {
            Some(entry) => Some(self.weights_of(*entry)),
            None => None,
        }
    }

    fn weights_of(&self, entry: EntryWeights) -> Weights
        requires luma { self.now.luma_log2_weight_denom ≤ 7 }
        requires chroma { self.now.chroma_log2_weight_denom ≤ 7 }
        ensures { result ≡ weights_of self.now entry }
    {
        let (cb, cr) = match entry.chroma {
            Some(chroma) => (Some(chroma.cb), Some(chroma.cr)),
            None => (None, None),
        };
        Weights {
            luma: weight_of(self.luma_log2_weight_denom, entry.luma),
            cb: weight_of(self.chroma_log2_weight_denom, cb),
            cr: weight_of(self.chroma_log2_weight_denom, cr),
        }
    }
}

/// Where it is not coded, the weight is 1 and the offset 0.
fn weight_of(log2_denom: u8, coded: Option<CodedWeight>) -> Weight
    requires { log2_denom ≤ 7 }
    ensures { result ≡ weight_of log2_denom coded }
{
    match coded {
        Some(coded) => Weight {
            log2_denom,
            weight: coded.weight,
            offset: coded.offset,
        },
        None => Weight {
            log2_denom,
            weight: 1 << log2_denom,
            offset: 0,
        },
    }
}
