//! A block of a plane that is lent: what it is given stands there, and nothing beside it.

use avc_plane::Plane;
use std::test::Fail;

// Four columns and two rows, behind eight columns and six rows.
fn write_block(plane: &mut Plane<4>) {
    if plane.width() < 12 || plane.height() < 8 {
        return;
    }
    let mut block = plane.block_mut::<4, 2>(8, 6);
    block.set(0, 0, 5);
    block.set(3, 0, 4);
    block.set_row(1, &[6, 7, 8, 9]);
}

// The sum of all samples of a plane of 16x16, and four of those in the block.
fn seen(plane: &Plane<4>) -> Option<(u32, [u8; 4])> {
    if plane.width() != 16 || plane.height() != 16 {
        return None;
    }
    let mut sum = 0u32;
    for place in 0..256usize {
        sum = sum.saturating_add(u32::from(plane.get(place % 16, place / 16)));
    }
    let corners = [
        plane.get(8, 6),
        plane.get(11, 6),
        plane.get(8, 7),
        plane.get(11, 7),
    ];
    Some((sum, corners))
}

#[test]
fn lends_its_own_samples(rt: HostRuntime) -> Result<(), Fail> {
    let mut plane = Plane::<4>::new(rt.alloc(), 16, 16)?;
    write_block(&mut plane);
    assert_eq!(rt; seen(&plane), Some((39, [5, 4, 6, 9])));
    Ok(())
}
