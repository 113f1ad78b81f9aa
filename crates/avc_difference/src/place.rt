//! Where a sample stands of a picture that is written as I420.

ghost use Rattle.std.specs.Prelude.{◌≡◌, ◌*◌, ◌<◌, ◌≤◌, ◌^◌};
ghost use Rattle.avc_plane.specs.Shown.{scaled};
ghost use Rattle.avc_difference.specs.Places.{macroblock_columns, macroblock_rows, macroblocks};
ghost use Rattle.avc_difference.specs.Places.{place_at, place_in, place_of};
ghost use Rattle.avc_difference.specs.Places.{sample_count, shown_columns, shown_rows};
ghost use Rattle.avc_difference.specs.Places.{shown_samples};

use avc_plane::Component;
use avc_types::Crop;

/// The size of a coded picture in luma samples, and what is not shown of it.
#[derive(Clone, Copy)]
pub struct Shape {
    pub width: u32,
    pub height: u32,
    pub crop: Crop,
}

/// Where a sample stands: in what is shown of its component, in the coded component, and in which
/// macroblock (6.4.1). Everything is counted from 0, columns and rows in samples of the component.
#[derive(Clone, Copy)]
pub struct Place {
    pub component: Component,

    pub column: usize,
    pub row: usize,

    pub coded_column: usize,
    pub coded_row: usize,

    pub macroblock_column: usize,
    pub macroblock_row: usize,

    /// The address of the macroblock (mbAddr).
    pub address: usize,
}

/// How many samples of a component are shown.
pub fn shown_samples(shape: Shape, component: Component) -> usize
    ensures is { result ≡ shown_samples shape component }
{
    shown_rows(shape, component) * shown_columns(shape, component)
}

// How many columns of a component are shown.
fn shown_columns(shape: Shape, component: Component) -> usize
    ensures is { result ≡ shown_columns shape component }
    ensures narrow { result < 2 ^ 32 }
{
    let hidden = u64::from(shape.crop.left) + u64::from(shape.crop.right);
    scaled(
        component,
        u64::from(shape.width).saturating_sub(hidden) as usize,
    )
}

// How many rows of a component are shown.
fn shown_rows(shape: Shape, component: Component) -> usize
    ensures is { result ≡ shown_rows shape component }
    ensures low { result < 2 ^ 32 }
{
    let hidden = u64::from(shape.crop.top) + u64::from(shape.crop.bottom);
    scaled(
        component,
        u64::from(shape.height).saturating_sub(hidden) as usize,
    )
}

// A number of luma samples as one of a component's.
fn scaled(component: Component, samples: usize) -> usize
    ensures is { result ≡ scaled component samples }
    ensures fewer { result ≤ samples }
{
    match component {
        Component::Luma => samples,
        Component::Cb => samples / 2,
        Component::Cr => samples / 2,
    }
}

/// Where the sample at a place stands of a picture of this shape that is written as I420.
pub(crate) fn place_of(shape: Shape, place: usize) -> Place
    requires { place < sample_count shape }
    ensures { result ≡ place_of shape place }
{
    let luma = shown_samples(shape, Component::Luma);
    let chroma = shown_samples(shape, Component::Cb);
    if place < luma {
        place_in(shape, Component::Luma, place)
    } else if place - luma < chroma {
        place_in(shape, Component::Cb, place - luma)
    } else {
        place_in(shape, Component::Cr, place - luma - chroma)
    }
}

// The sample of this number of a component.
fn place_in(shape: Shape, component: Component, number: usize) -> Place
    requires { number < shown_samples shape component }
    ensures { result ≡ place_in shape component number }
{
    let columns = shown_columns(shape, component);
    let rows = shown_rows(shape, component);
    place_at(shape, component, number % columns, number / columns)
}

// The sample in this column and row of what is shown of a component.
fn place_at(shape: Shape, component: Component, column: usize, row: usize) -> Place
    requires narrow { column < 2 ^ 32 }
    requires low { row < 2 ^ 32 }
    ensures { result ≡ place_at shape component column row }
{
    let coded_column = scaled(component, shape.crop.left as usize) + column;
    let coded_row = scaled(component, shape.crop.top as usize) + row;
    let side = macroblock_side(component);
    let macroblock_column = coded_column / side;
    let macroblock_row = coded_row / side;
    Place {
        component,
        column,
        row,
        coded_column,
        coded_row,
        macroblock_column,
        macroblock_row,
        address: macroblock_row * macroblock_columns(shape) + macroblock_column,
    }
}

/// How many columns and rows of a component a macroblock has.
pub(crate) fn macroblock_side(component: Component) -> usize
    ensures is { result ≡ scaled component 16 }
    ensures some { 8 ≤ result }
{
    scaled(component, 16)
}

/// How many macroblocks a row of the picture has.
pub fn macroblock_columns(shape: Shape) -> usize
    ensures is { result ≡ macroblock_columns shape }
    ensures narrow { result < 2 ^ 28 }
{
    shape.width as usize / 16
}

/// How many rows of macroblocks the picture has.
pub fn macroblock_rows(shape: Shape) -> usize
    ensures is { result ≡ macroblock_rows shape }
    ensures low { result < 2 ^ 28 }
{
    shape.height as usize / 16
}

/// How many macroblocks the picture has.
pub fn macroblocks(shape: Shape) -> usize
    ensures { result ≡ macroblocks shape }
{
    macroblock_rows(shape) * macroblock_columns(shape)
}
