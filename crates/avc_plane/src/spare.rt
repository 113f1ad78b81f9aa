//! Planes of pictures that are over, for later ones.

ghost use Rattle.std.specs.Prelude.{◌≡◌, ℕ, ◌+◌, ◌*◌, ◌^◌, ◌<◌, ◌≤◌, ◌∷◌, [], if◌then◌else◌, None};
ghost use Rattle.std.specs.Prelude.{Some, is_some, length};
ghost use Rattle.std.specs.Prelude.{IfErr, IfOk, IfSome, IsOkAnd, IsSomeAnd, OnErr, OnSome};
ghost use Rattle.std.specs.Option.{option_map};
ghost use Rattle.avc_plane.specs.Closed.{planes_of};
ghost use Rattle.avc_plane.specs.Frames.{AreSized};
ghost use Rattle.avc_plane.specs.Spare.{count_sized, is_sized, left_over, most_closed, no_spare};
ghost use Rattle.avc_plane.specs.Spare.{one_if_sized, with_closed, with_open, AreHad, HasOpen};

use crate::frame::Planes;
use crate::shared::{EmptiedPlanes, SharedPlanes};
use arrayvec::ArrayVec;
use avc_types::OutOfMemory;
use std::alloc::Global;
use std::marker::Model;

/// As many as a decoder has at once: 16 stored frames, and the picture that is decoded. Of planes
/// that are held still beyond that number no part is kept: they are not used again, but given back
/// by who holds them last.
const MOST: usize = 17;

/// Closed planes, each in its place.
type Places<const PAD: usize> = ArrayVec<Option<SharedPlanes<PAD>>, MOST>;

/// Planes of pictures that are over, in which later ones are decoded. Some may be held still by who
/// shows them: those are used once he has let go. A contract sees the planes.
#[derive(Drop)]
pub struct SparePlanes<const PAD: usize> {
    closed: Places<PAD>,

    /// Those of a picture that became no frame.
    open_planes: Option<Planes<PAD>>,
}

impl<const PAD: usize> Model for SparePlanes<PAD> {
    ghost use Rattle.std.specs.Prelude.{◌≤◌, length};
    ghost use Rattle.std.specs.Option.{option_map};
    ghost use Rattle.avc_plane.specs.Closed.{planes_of};
    ghost use Rattle.avc_plane.specs.Spare.{most_closed, Spare};

    ghost Value = { Spare };

    ghost view = { λ s. record {
      closed = s.closed.items;
      open_planes = option_map planes_of s.open_planes;
    } };

    ghost invariant = { λ s. length s.closed.items ≤ most_closed };
}

impl<const PAD: usize> SparePlanes<PAD> {
    /// None yet. This takes no memory.
    pub fn new() -> Self
        ensures { result ≡ no_spare }
    {
        SparePlanes {
            closed: ArrayVec::new(),
            open_planes: None,
        }
    }

    /// Keeps the planes of a frame, also where others hold them still. Those that find no room are
    /// let go.
    pub fn put(&mut self, planes: EmptiedPlanes<PAD>)
        ensures kept { self.new ≡ with_closed planes.entry self.old }
        ensures few { length self.new.closed ≤ most_closed }
    {
        let _full = self.closed.try_push(Some(planes.into_shared())).is_err();
    }

    /// No more than these are ever kept. This does nothing: it says what is true of every value.
    #[inline(always)]
    pub fn are_few(&self)
        ensures { length self.now.closed ≤ most_closed }
    {
        let _ = &self.closed;
    }

    /// Keeps the planes of a picture that became no frame. Those that were kept so before are
    /// dropped.
    pub fn put_open(&mut self, planes: Planes<PAD>)
        ensures { self.new ≡ with_open (planes_of planes.entry) self.old }
    {
        self.open_planes = Some(planes);
    }

    /// Planes of a picture of this size in macroblocks that nobody else holds: the open ones, or
    /// else the closed ones that were put last. Those of another size that are met on the way are
    /// let go.
    fn take(&mut self, width: usize, height: usize) -> Option<Planes<PAD>>
        requires narrow { 16 * width + 2 * PAD < 2 ^ 31 }
        requires low { 16 * height + 2 * PAD < 2 ^ 31 }
        ensures sized { IfSome result (λ planes. AreSized width height (planes_of planes)) }
        ensures open_ones { HasOpen width height self.old →
            IsSomeAnd result (λ planes. Some (planes_of planes) ≡ self.old.open_planes) }
        ensures count { left_over width height self.old
            ≡ left_over width height self.new + (if is_some result then 1 else 0) }
    {
        match take_open(&mut self.open_planes, width, height) {
            Some(planes) => Some(planes),
            None => take_closed(&mut self.closed, width, height),
        }
    }
}

/// The open planes, where they are of a picture of this size in macroblocks. Others are let go.
fn take_open<const PAD: usize>(
    open_planes: &mut Option<Planes<PAD>>,
    width: usize,
    height: usize,
) -> Option<Planes<PAD>>
    requires narrow { 16 * width + 2 * PAD < 2 ^ 31 }
    requires low { 16 * height + 2 * PAD < 2 ^ 31 }
    ensures sized { IfSome result (λ planes. AreSized width height (planes_of planes)) }
    ensures same { IfSome result (λ planes. Some (planes_of planes)
        ≡ option_map planes_of open_planes.old) }
    ensures found { one_if_sized width height (option_map planes_of open_planes.old)
        ≡ (if is_some result then 1 else 0) }
    ensures none { open_planes.new ≡ None }
{
    match open_planes.take() {
        Some(planes) => planes.if_sized(width, height),
        None => None,
    }
}

/// Takes the planes in this place, if there are such. The last place comes to where it was.
fn take_place<const PAD: usize>(closed: &mut Places<PAD>, place: usize) -> Option<SharedPlanes<PAD>>
    ensures count { (width height : ℕ) →
        count_sized width height closed.old.items ≡ count_sized width height closed.new.items
        + one_if_sized width height result }
    ensures few { length closed.new.items ≤ length closed.old.items }
    ensures room { OnSome result (length closed.new.items + 1 ≡ length closed.old.items) }
{
    closed.swap_pop(place)?
}

/// The last of these planes that are of a picture of this size in macroblocks and that nobody else
/// holds. Those of another size that are met on the way are let go.
fn take_closed<const PAD: usize>(
    closed: &mut Places<PAD>,
    width: usize,
    height: usize,
) -> Option<Planes<PAD>>
    requires narrow { 16 * width + 2 * PAD < 2 ^ 31 }
    requires low { 16 * height + 2 * PAD < 2 ^ 31 }
    requires few { length closed.old.items ≤ most_closed }
    ensures sized { IfSome result (λ planes. AreSized width height (planes_of planes)) }
    ensures count { count_sized width height closed.old.items
        ≡ count_sized width height closed.new.items + (if is_some result then 1 else 0) }
    ensures few { length closed.new.items ≤ most_closed }
{
    'places: for place in (0..closed.len()).rev() {
        if let Some(shared) = take_place(closed, place) {
            match sole_of_size(shared, width, height) {
                Ok(Some(planes)) => return Some(planes),
                Ok(None) => {}
                Err(held) => closed.push(Some(held)),
            }
        }
    }
    None
}

/// The planes, to be changed again, where they are of a picture of this size in macroblocks. Err
/// where others hold them still.
fn sole_of_size<const PAD: usize>(
    shared: SharedPlanes<PAD>,
    width: usize,
    height: usize,
) -> Result<Option<Planes<PAD>>, SharedPlanes<PAD>>
    requires narrow { 16 * width + 2 * PAD < 2 ^ 31 }
    requires low { 16 * height + 2 * PAD < 2 ^ 31 }
    ensures sized { IfOk result
        (λ found. IfSome found (λ planes. AreSized width height (planes_of planes))) }
    ensures found { IfOk result (λ found. is_some found ≡ is_sized width height shared.entry) }
    ensures held { IfErr result (λ held. held ≡ shared.entry) }
{
    Ok(shared.into_sole()?.into_planes().if_sized(width, height))
}

impl<const PAD: usize> Planes<PAD> {
    /// These, where they are of a picture of this size in macroblocks.
    fn if_sized(self, width: usize, height: usize) -> Option<Self>
        requires narrow { 16 * width + 2 * PAD < 2 ^ 31 }
        requires low { 16 * height + 2 * PAD < 2 ^ 31 }
        ensures sized { IfSome result (λ planes. AreSized width height (planes_of planes)) }
        ensures same { IfSome result (λ planes. planes ≡ self.entry) }
        ensures found { is_some result ≡ is_sized width height (planes_of self.entry) }
    {
        if self.has_size(width, height) {
            Some(self)
        } else {
            None
        }
    }

    /// The planes of a picture of this size in macroblocks, with any samples: some that are spare,
    /// and new ones only where there are none of this size that nobody else holds.
    pub fn of_size(
        alloc: Global,
        width: usize,
        height: usize,
        spare: &mut SparePlanes<PAD>,
    ) -> Result<Self, OutOfMemory>
        requires narrow { 16 * width + 2 * PAD < 2 ^ 31 }
        requires low { 16 * height + 2 * PAD < 2 ^ 31 }
        ensures sized { IfOk result (λ planes. AreSized width height (planes_of planes)) }
        ensures open_ones { HasOpen width height spare.old →
            IsOkAnd result (λ planes. Some (planes_of planes) ≡ spare.old.open_planes) }
        ensures had { IfOk result
            (λ planes. AreHad width height spare.old spare.new (planes_of planes)) }
        ensures stay { OnErr result (left_over width height spare.new
            ≡ left_over width height spare.old) }
    {
        match spare.take(width, height) {
            Some(planes) => Ok(planes),
            None => Planes::new(alloc, width, height),
        }
    }
}
