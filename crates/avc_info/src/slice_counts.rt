//! Pictures, sequences and slices, counted by slice headers (7.4.1.2.4).

ghost use Rattle.std.specs.Prelude.{◌≡◌, Some};
ghost use Rattle.avc_info.specs.Facts.{begins_after, no_slices, one_more_if, slices_with};
ghost use Rattle.avc_info.specs.Facts.{with_slice};

use avc_slice::{Header, begins_picture};

/// How many pictures there are, and how many slices in each. A number stays at the greatest one,
/// once there.
#[derive(Drop)]
pub struct SliceCounts {
    /// Of the slice that came last.
    pub last: Option<Header>,

    /// Coded pictures.
    pub pictures: u64,

    /// Coded video sequences, which are as many as IDR pictures.
    pub sequences: u64,

    /// Of the picture that came last.
    pub slices: u64,

    /// Of the picture with the most slices.
    pub most_slices: u64,
}

impl SliceCounts {
    /// Of no slices.
    pub fn new() -> SliceCounts
        ensures { result ≡ no_slices }
    {
        SliceCounts {
            last: None,
            pictures: 0,
            sequences: 0,
            slices: 0,
            most_slices: 0,
        }
    }

    /// Counts the next slice.
    pub fn count(&mut self, header: Header)
        ensures { self.new ≡ with_slice self.old header }
    {
        let is_first = begins_after(&self.last, &header);
        self.pictures = one_more_if(is_first, self.pictures);
        self.sequences = one_more_if(is_first && header.is_idr(), self.sequences);
        self.slices = slices_with(is_first, self.slices);
        self.most_slices = self.most_slices.max(self.slices);
        self.last = Some(header);
    }
}

/// Whether the slice begins a picture (7.4.1.2.4), behind the slice before it.
fn begins_after(last: &Option<Header>, header: &Header) -> bool
    ensures { result ≡ begins_after last.now header.now }
{
    match last {
        Some(last) => begins_picture(&last.picture_fields(), header),
        None => true,
    }
}

fn one_more_if(more: bool, count: u64) -> u64
    ensures { result ≡ one_more_if more count }
{
    if more { count.saturating_add(1) } else { count }
}

/// How many slices its picture has up to this one.
fn slices_with(is_first: bool, before: u64) -> u64
    ensures { result ≡ slices_with is_first before }
{
    if is_first {
        1
    } else {
        before.saturating_add(1)
    }
}
