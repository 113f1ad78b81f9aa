//! What a picture is decoded in, kept from one picture to the next.

ghost use Rattle.std.specs.Prelude.{◌≡◌, ◌+◌, ◌*◌, ◌^◌, ◌<◌, [], None, Some, IfOk, IsOk, IsOkAnd};
ghost use Rattle.std.specs.Prelude.{◌≤◌, length, OnErr};
ghost use Rattle.avc_neigh.specs.Around.{no_info};
ghost use Rattle.avc_plane.specs.Frames.{planes_of, AreSized};
ghost use Rattle.avc_plane.specs.Spare.{left_over, most_closed, AreHad, HasOpen};
ghost use Rattle.avc_picture.specs.Memory.{no_memory, with_closed_planes, with_info};
ghost use Rattle.avc_picture.specs.Memory.{with_open_planes, without_info};

use crate::filter_rows::FilterRows;
use avc_neigh::Row;
use avc_plane::{EmptiedPlanes, Planes, SparePlanes};
use avc_types::OutOfMemory;
use std::alloc::Global;
use std::marker::Model;

/// What is known of a picture's macroblocks so far: for the neighbours of the next one, and for the
/// deblocking filter.
#[derive(Drop)]
pub(crate) struct FactRows {
    pub(crate) row: Row,
    pub(crate) filter_rows: FilterRows,
    ghost same: { row.width ≡ filter_rows.width },
}

impl FactRows {
    /// For a picture of this width in macroblocks, before its first macroblock.
    fn new(alloc: Global, width: u32) -> Result<Self, OutOfMemory>
        requires { 0 < width }
        ensures row { IfOk result (λ info. info.row ≡ no_info width) }
        ensures filter_rows { IfOk result (λ info. info.filter_rows ≡ record {
          width = width;
          info = [];
        }) }
    {
        Ok(FactRows {
            row: Row::new(alloc, width)?,
            filter_rows: FilterRows::new(alloc, width as usize)?,
        })
    }

    /// For a picture of the same width, before its first macroblock. This takes no memory.
    fn restarted(mut self) -> Self
        ensures row { result.row ≡ no_info self.row.width }
        ensures filter_rows { result.filter_rows ≡ record { width = self.row.width; info = [] } }
    {
        self.row.restart();
        self.filter_rows.restart();
        self
    }
}

/// The memory of pictures that are over: planes and info, in which later pictures are decoded. A
/// picture takes memory only where there is none of its size. A contract sees the planes, and how
/// wide the info is; what else stands in it counts for nothing.
#[derive(Drop)]
pub struct PictureMemory<const PAD: usize> {
    planes: SparePlanes<PAD>,
    info: Option<FactRows>,
}

impl<const PAD: usize> Model for PictureMemory<PAD> {
    ghost use Rattle.std.specs.Option.{option_map};
    ghost use Rattle.avc_picture.specs.Memory.{MemoryState};

    ghost Value = { MemoryState };

    ghost view = { λ m. record {
      planes = m.planes;
      info_width = option_map (λ f. f.row.width) m.info;
    } };
}

impl<const PAD: usize> PictureMemory<PAD> {
    /// None yet. This takes no memory.
    pub fn new() -> Self
        ensures { result ≡ no_memory }
    {
        PictureMemory {
            planes: SparePlanes::new(),
            info: None,
        }
    }

    /// Keeps the planes of a frame that has left the buffer. They are used again once nobody else
    /// holds them.
    pub fn keep(&mut self, planes: EmptiedPlanes<PAD>)
        ensures { self.new ≡ with_closed_planes planes.entry self.old }
    {
        self.planes.put(planes);
    }

    /// No more closed planes than these are ever left over. This does nothing: it says what is true
    /// of every value.
    #[inline(always)]
    pub fn are_few(&self)
        ensures { length (self.now.planes).closed ≤ most_closed }
    {
        self.planes.are_few();
    }

    /// Keeps the planes of a picture that is refused.
    pub(crate) fn keep_open(&mut self, planes: Planes<PAD>)
        ensures { self.new ≡ with_open_planes (planes_of planes.entry) self.old }
    {
        self.planes.put_open(planes);
    }

    /// Keeps the info of a picture that is over.
    pub(crate) fn keep_info(&mut self, info: FactRows)
        ensures { self.new ≡ with_info info.row.width self.old }
    {
        self.info = Some(info);
    }

    /// The planes of a picture of this size in macroblocks, with any samples.
    pub(crate) fn planes(
        &mut self,
        alloc: Global,
        width: usize,
        height: usize,
    ) -> Result<Planes<PAD>, OutOfMemory>
        requires narrow { 16 * width + 2 * PAD < 2 ^ 31 }
        requires low { 16 * height + 2 * PAD < 2 ^ 31 }
        ensures sized { IfOk result (λ planes. AreSized width height (planes_of planes)) }
        ensures open_ones { HasOpen width height self.old.planes →
            IsOkAnd result (λ planes. Some (planes_of planes) ≡ self.old.planes.open_planes) }
        ensures had { IfOk result
            (λ planes. AreHad width height self.old.planes self.new.planes (planes_of planes)) }
        ensures stay { OnErr result (left_over width height self.new.planes
            ≡ left_over width height self.old.planes) }
        ensures info { self.new.info_width ≡ self.old.info_width }
    {
        Planes::of_size(alloc, width, height, &mut self.planes)
    }

    /// The info of a picture of this width in macroblocks, before its first macroblock.
    pub(crate) fn info(&mut self, alloc: Global, width: u32) -> Result<FactRows, OutOfMemory>
        requires { 0 < width }
        ensures row { IfOk result (λ info. info.row ≡ no_info width) }
        ensures filter_rows { IfOk result (λ info. info.filter_rows ≡ record {
          width = width;
          info = [];
        }) }
        ensures memory { self.old.info_width ≡ Some width → IsOk result }
        ensures taken { self.new ≡ without_info self.old }
    {
        match self.info.take() {
            Some(info) if info.row.width() == width as usize => Ok(info.restarted()),
            _ => FactRows::new(alloc, width),
        }
    }
}
