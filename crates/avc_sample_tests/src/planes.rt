//! Tests of planes, and of memory that is used again.

// No clause says that memory is found.
use avc_plane::{EmptiedPlanes, Planes, SharedPlanes, SparePlanes};
use avc_types::OutOfMemory;
use std::alloc::Global;
use std::test::Fail;

// A sample that is set in new planes, the one beside it, and how long a row of Cr is.
fn set_in_new(alloc: Global) -> Result<(u8, u8, usize), OutOfMemory> {
    let mut planes = Planes::<0>::new(alloc, 2, 1)?;
    planes.luma.set(31, 15, 7);
    Ok((
        planes.luma.get(31, 15),
        planes.luma.get(30, 15),
        planes.cr.row(7).len(),
    ))
}

#[test]
fn keeps_what_is_set(rt: HostRuntime) -> Result<(), Fail> {
    assert_eq!(rt; set_in_new(rt.alloc())?, (7, 0, 16));
    Ok(())
}

// Leaves planes of 2x1 macroblocks in which one sample is set.
fn leave_open(alloc: Global, spare: &mut SparePlanes<4>) -> Result<(), OutOfMemory> {
    let mut planes = Planes::of_size(alloc, 2, 1, spare)?;
    planes.luma.set(31, 15, 7);
    spare.put_open(planes);
    Ok(())
}

// Leaves shared planes of 2x1 macroblocks in which one sample is set, and gives what still holds
// them.
fn leave_held(alloc: Global, spare: &mut SparePlanes<4>) -> Result<SharedPlanes<4>, OutOfMemory> {
    let mut planes = Planes::of_size(alloc, 2, 1, spare)?;
    planes.luma.set(31, 15, 7);
    let shared = SharedPlanes::new(alloc, planes.pad())?;
    let held = shared.share()?;
    spare.put(EmptiedPlanes::new(shared));
    Ok(held)
}

// That sample of planes of this size, which are then left again.
fn taken_and_left(alloc: Global, spare: &mut SparePlanes<4>) -> Result<u8, OutOfMemory> {
    let planes = Planes::of_size(alloc, 2, 1, spare)?;
    let sample = planes.luma.get(31, 15);
    spare.put(EmptiedPlanes::new(SharedPlanes::new(alloc, planes.pad())?));
    Ok(sample)
}

// That sample of planes of this size, which are let go and not left.
fn taken(alloc: Global, spare: &mut SparePlanes<4>) -> Result<u8, OutOfMemory> {
    let planes = Planes::of_size(alloc, 2, 1, spare)?;
    Ok(planes.luma.get(31, 15))
}

// The last sample of planes of 1x2 macroblocks.
fn taken_of_another_size(alloc: Global, spare: &mut SparePlanes<4>) -> Result<u8, OutOfMemory> {
    let planes = Planes::of_size(alloc, 1, 2, spare)?;
    Ok(planes.luma.get(15, 31))
}

// The samples of planes that are left over, of others, and of planes for which none are left.
fn left_and_new(alloc: Global, spare: &mut SparePlanes<4>) -> Result<[u8; 3], OutOfMemory> {
    leave_open(alloc, spare)?;
    let left = taken_and_left(alloc, spare)?;
    let other = taken_of_another_size(alloc, spare)?;
    let new = taken(alloc, spare)?;
    Ok([left, other, new])
}

fn left_and_new_of_none(alloc: Global) -> Result<[u8; 3], OutOfMemory> {
    let mut spare = SparePlanes::<4>::new();
    left_and_new(alloc, &mut spare)
}

// Planes that are left over are taken where they have the size, and as they are.
#[test]
fn takes_spare_planes(rt: HostRuntime) -> Result<(), Fail> {
    assert_eq!(rt; left_and_new_of_none(rt.alloc())?, [7, 0, 0]);
    Ok(())
}

// The samples of planes that are taken while others are held, and behind that.
fn new_and_held(alloc: Global, spare: &mut SparePlanes<4>) -> Result<[u8; 2], OutOfMemory> {
    let held = leave_held(alloc, spare)?;
    let new = taken(alloc, spare)?;
    drop(held);
    let left = taken(alloc, spare)?;
    Ok([new, left])
}

fn new_and_held_of_none(alloc: Global) -> Result<[u8; 2], OutOfMemory> {
    let mut spare = SparePlanes::<4>::new();
    new_and_held(alloc, &mut spare)
}

// Planes that another holds wait until that one has let go.
#[test]
fn leaves_planes_that_are_held(rt: HostRuntime) -> Result<(), Fail> {
    assert_eq!(rt; new_and_held_of_none(rt.alloc())?, [0, 7]);
    Ok(())
}
