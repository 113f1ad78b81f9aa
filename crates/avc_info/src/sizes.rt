//! The sizes of a stream's pictures, after cropping.

ghost use Rattle.std.specs.Prelude.{◌≡◌, OnOk};
ghost use Rattle.std.specs.List.{flat_map};
ghost use Rattle.avc_info.specs.Adding.{AddsText};
ghost use Rattle.avc_info.specs.Sizes.{no_sizes, others_text, size_word, sizes_line, with_size};
ghost use Rattle.avc_info.specs.Sizes.{with_size_if};

use crate::text::end_line;
use avc_sequence::Size;
use avc_types::{OutOfMemory, UpTo};

/// How many sizes are told, at most.
const MOST_SIZES: usize = 8;

/// The sizes of a stream's pictures.
#[derive(Drop)]
pub struct Sizes {
    /// Each once, in the order of their first coming.
    pub first: UpTo<Size, MOST_SIZES>,

    /// Whether others came behind them.
    pub others: bool,
}

impl Sizes {
    /// Of no picture.
    pub fn new() -> Sizes
        ensures { result ≡ no_sizes }
    {
        Sizes {
            first: UpTo::new(),
            others: false,
        }
    }

    /// Takes the size of one picture more, where it is known.
    pub(crate) fn add(&mut self, size: Option<Size>)
        ensures { self.new ≡ with_size_if self.old size }
    {
        if let Some(size) = size {
            self.add_size(size);
        }
    }

    fn add_size(&mut self, size: Size)
        ensures { self.new ≡ with_size self.old size }
    {
        if self.first.as_slice().contains(&size) {
            return;
        }
        if self.first.as_slice().len() < MOST_SIZES {
            self.first.push(size);
        } else {
            self.others = true;
        }
    }
}

/// Adds them in a line, where there are more than one.
pub(crate) fn add_sizes(text: &mut String, sizes: &Sizes) -> Result<(), OutOfMemory>
    ensures { OnOk result (AddsText text.old text.new (sizes_line sizes.now)) }
{
    let first = sizes.first.as_slice();
    if first.len() < 2 {
        return Ok(());
    }
    text.push_str("sizes")?;
    add_words(text, first)?;
    text.push_str(others_text(sizes.others))?;
    end_line(text)
}

fn add_words(text: &mut String, sizes: &[Size]) -> Result<(), OutOfMemory>
    ensures { OnOk result (AddsText text.old text.new (flat_map size_word sizes.now)) }
{
    for size in sizes {
        add_word(text, *size)?;
    }
    Ok(())
}

fn add_word(text: &mut String, size: Size) -> Result<(), OutOfMemory>
    ensures { OnOk result (AddsText text.old text.new (size_word size)) }
{
    let width = size.width;
    let height = size.height;
    write!(text, " {width}x{height}")?;
    Ok(())
}

fn others_text(others: bool) -> &'static str
    ensures { result.now ≡ others_text others }
{
    if others { " and others" } else { "" }
}
