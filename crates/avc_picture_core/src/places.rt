//! Places of macroblocks and of blocks in them (6.1, 6.4.1).

ghost use Rattle.std.specs.Prelude.{◌≡◌, ◌+◌, ◌*◌, ◌%◌, ◌≤◌};

/// The size of a picture in macroblocks (6.1).
#[derive(Clone, Copy)]
pub(crate) struct PictureSize {
    pub width: usize,

    pub height: usize,
}

/// Where a macroblock stands in its picture, in macroblocks.
#[derive(Clone, Copy)]
pub struct MbPlace {
    pub column: usize,

    pub row: usize,
}

/// The upper left sample of a rectangle of samples, counted from that of its macroblock.
#[derive(Clone, Copy)]
pub(crate) struct Corner {
    pub x: usize,

    pub y: usize,
}

/// A rectangle of a macroblock that has W columns and H rows of luma, and CW and CH of each chroma
/// component, half as many: its upper left sample of luma, counted from that of the macroblock.
#[derive(Clone, Copy)]
pub(crate) struct Part<const W: usize, const H: usize, const CW: usize, const CH: usize> {
    pub x: usize,

    pub y: usize,

    ghost some_columns: { 1 ≤ CW },
    ghost some_rows: { 1 ≤ CH },
    ghost wide: { W ≡ 2 * CW },
    ghost high: { H ≡ 2 * CH },
    ghost even_rows: { CH % 2 ≡ 0 },
    ghost columns: { x + W ≤ 16 },
    ghost rows: { y + H ≤ 16 },
    ghost even_x: { x % 2 ≡ 0 },
    ghost even_y: { y % 2 ≡ 0 },
}
