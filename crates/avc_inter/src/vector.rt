//! The place and the fraction of samples that a motion vector leads to.

ghost use Rattle.std.specs.Prelude.{◌≡◌, ◌^◌, ◌<◌, pos, ◌+ℤ◌};
ghost use Rattle.avc_types.specs.Arithmetic.{◌>>ℤ◌, low_bits};
ghost use Rattle.avc_plane.specs.Plane.{HasSample};
ghost use Rattle.avc_inter.specs.Bounds.{IsMoved};

use avc_plane::PaddedPlane;
use avc_types::Mv;

/// A column and a row of whole samples that a vector leads to.
#[derive(Clone, Copy)]
pub struct MovedPlace {
    pub left: i64,
    pub top: i64,

    ghost column: { IsMoved left },
    ghost row: { IsMoved top },
}

/// Quarters of luma samples to the right and down: xFracL and yFracL (8.4.2.2).
#[derive(Clone, Copy)]
pub struct Quarters {
    pub right: u8,
    pub down: u8,

    ghost narrow: { right < 4 },
    ghost low: { down < 4 },
}

/// Eighths of chroma samples to the right and down: xFracC and yFracC (8.4.2.2).
#[derive(Clone, Copy)]
pub struct Eighths {
    pub right: u16,
    pub down: u16,

    ghost narrow: { right < 8 },
    ghost low: { down < 8 },
}

fn whole_luma(place: usize, component: i16) -> i64
    requires { place < 2 ^ 31 }
    ensures value { result ≡ pos place +ℤ (component >>ℤ 2) }
    ensures small { IsMoved result }
{
    place as i64 + i64::from(component >> 2)
}

/// The place that the vector of a luma sample leads to.
#[inline(always)]
pub fn luma_place<const PAD: usize>(
    plane: &PaddedPlane<PAD>,
    x: usize,
    y: usize,
    mv: Mv,
) -> MovedPlace
    requires { HasSample x y plane.now }
    ensures left { result.left ≡ pos x +ℤ (mv.x >>ℤ 2) }
    ensures top { result.top ≡ pos y +ℤ (mv.y >>ℤ 2) }
{
    let (width, height) = (plane.width(), plane.height());
    prove!(x < width);
    prove!(y < height);
    MovedPlace {
        left: whole_luma(x, mv.x),
        top: whole_luma(y, mv.y),
    }
}

fn quarters_of(component: i16) -> u8
    ensures value { result ≡ low_bits component 2 }
    ensures small { result < 4 }
{
    component.rem_euclid(4) as u8
}

/// How far beyond it.
#[inline(always)]
pub fn luma_fraction(mv: Mv) -> Quarters
    ensures right { result.right ≡ low_bits mv.x 2 }
    ensures down { result.down ≡ low_bits mv.y 2 }
{
    Quarters {
        right: quarters_of(mv.x),
        down: quarters_of(mv.y),
    }
}

fn whole_chroma(place: usize, component: i16) -> i64
    requires { place < 2 ^ 31 }
    ensures value { result ≡ pos place +ℤ (component >>ℤ 3) }
    ensures small { IsMoved result }
{
    place as i64 + i64::from(component >> 3)
}

/// The place that the luma vector of a chroma sample leads to.
#[inline(always)]
pub fn chroma_place<const PAD: usize>(
    plane: &PaddedPlane<PAD>,
    x: usize,
    y: usize,
    mv: Mv,
) -> MovedPlace
    requires { HasSample x y plane.now }
    ensures left { result.left ≡ pos x +ℤ (mv.x >>ℤ 3) }
    ensures top { result.top ≡ pos y +ℤ (mv.y >>ℤ 3) }
{
    let (width, height) = (plane.width(), plane.height());
    prove!(x < width);
    prove!(y < height);
    MovedPlace {
        left: whole_chroma(x, mv.x),
        top: whole_chroma(y, mv.y),
    }
}

fn eighths_of(component: i16) -> u16
    ensures value { result ≡ low_bits component 3 }
    ensures small { result < 8 }
{
    component.rem_euclid(8) as u16
}

/// How far beyond it.
#[inline(always)]
pub fn chroma_fraction(mv: Mv) -> Eighths
    ensures right { result.right ≡ low_bits mv.x 3 }
    ensures down { result.down ≡ low_bits mv.y 3 }
{
    Eighths {
        right: eighths_of(mv.x),
        down: eighths_of(mv.y),
    }
}
