//! Samples that are read where they lie.

ghost use Rattle.std.specs.Prelude.{◌^◌, ◌<◌};
ghost use Rattle.avc_inter.specs.SixRows.{AreLanes, HasRoom};
ghost use Rattle.avc_inter.specs.Laid.{HasRows};

use avc_plane::RowsPlace;

/// Samples in rows that begin a stride apart, which are read sixteen at a time, as rows of L
/// columns.
#[derive(Clone, Copy)]
pub struct Source<'a, const L: usize> {
    pub samples: &'a [u8],
    pub stride: usize,

    ghost lanes: { AreLanes L },
    ghost narrow: { stride < 2 ^ 32 },
}

/// A block in rows of L columns, with the samples around it that the six taps ask for. It has
/// `count` times sixteen samples. The place `from` is two rows above its first one and two columns
/// left of it.
#[derive(Clone, Copy)]
pub struct Surrounded<'a, const L: usize> {
    pub samples: &'a [u8],
    pub from: RowsPlace,
    pub count: usize,

    ghost room: { HasRoom L from.stride count from.first samples.now },
}

/// W columns and H rows of samples, from a place on.
#[derive(Clone, Copy)]
pub struct Lines<'a, const W: usize, const H: usize> {
    pub samples: &'a [u8],
    pub from: RowsPlace,

    ghost there: { HasRows W H from samples.now },
}
