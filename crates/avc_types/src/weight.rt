//! Weights of prediction samples (8.4.2.3.2).

/// By what the prediction samples of one component are weighted (8.4.2.3.2): w0 over two to the
/// power of logWD, and an offset.
#[derive(Clone, Copy)]
pub struct Weight {
    /// logWD, 0 to 7.
    pub log2_denom: u8,

    /// w0, -128 to 128.
    pub weight: i32,

    /// o0, in sample values, -128 to 127.
    pub offset: i32,
}

/// By what the predictions from one reference index are weighted.
#[derive(Clone, Copy)]
pub struct Weights {
    pub luma: Weight,
    pub cb: Weight,
    pub cr: Weight,
}
