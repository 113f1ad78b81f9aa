//! What is asked of a listing of macroblocks.

/// Which macroblocks are listed, and how.
#[derive(Clone, Copy)]
pub struct MacroblockListing {
    /// As objects of JSON, and not as lines for people.
    pub is_json: bool,

    /// With the levels of each block.
    pub has_coefficients: bool,

    /// Those of the picture of this number alone, from 0, as `info` counts pictures; else all.
    pub picture: Option<u64>,
}
