//! Inter prediction against its formulas sample by sample, and worked rows.

ghost use Rattle.std.specs.Prelude.{◌<◌, ◌≤◌, ◌+◌, ◌≡◌, length};

use avc_inter::{chroma, luma, six_tap_row, weight};
use avc_plane::{PaddedPlane, Plane};
use avc_types::{Block, Bytes, Mv, OutOfMemory};
use std::alloc::Global;
use std::test::Fail;

/// What a plane of a test shows.
#[derive(Clone, Copy)]
enum Picture {
    /// Rough samples.
    Rough,
    /// 128 in the sixteen columns on the left, else 136.
    Step,
    /// 16 times the row plus the column.
    Ramp,
    /// 128 everywhere.
    Level,
}

impl Picture {
    fn sample(self, x: usize, y: usize) -> u8 {
        match self {
            Picture::Rough => {
                let seed = (x as u64)
                    .wrapping_mul(0x9E37_79B9)
                    .wrapping_add((y as u64).wrapping_mul(0x85EB_CA6B_27D4));
                (seed.wrapping_mul(6364136223846793005) >> 56) as u8
            }
            Picture::Step => if x < 16 { 128 } else { 136 },
            Picture::Ramp => (y % 16 * 16 + x % 16) as u8,
            Picture::Level => 128,
        }
    }
}

/// A plane of this size.
fn plane_of(
    alloc: Global,
    width: usize,
    height: usize,
    picture: Picture,
) -> Result<PaddedPlane<32>, OutOfMemory>
    requires some { 0 < width }
    requires narrow { width ≤ 1000 }
    requires rows { 0 < height }
    requires low { height ≤ 1000 }
{
    let mut plane = Plane::<32>::new(alloc, width, height)?;
    for y in 0..height {
        for x in 0..width {
            if x < plane.width() && y < plane.height() {
                plane.set(x, y, picture.sample(x, y));
            }
        }
    }
    Ok(plane.pad())
}

/// The sample at a place, each coordinate held inside the plane.
fn at(plane: &PaddedPlane<32>, x: i32, y: i32) -> i32 {
    let column = (x.max(0) as usize).min(plane.width() - 1);
    let row = (y.max(0) as usize).min(plane.height() - 1);
    i32::from(plane.get(column, row))
}

fn six(e: i32, f: i32, g: i32, h: i32, i: i32, j: i32) -> i32 {
    let inner = g.wrapping_add(h).wrapping_mul(20);
    let middle = f.wrapping_add(i).wrapping_mul(5);
    e.wrapping_add(j).wrapping_add(inner).wrapping_sub(middle)
}

fn clip(v: i32) -> i32 {
    v.max(0).min(255)
}

fn mean(a: i32, b: i32) -> i32 {
    a.wrapping_add(b).wrapping_add(1) >> 1
}

fn b1(p: &PaddedPlane<32>, x: i32, y: i32) -> i32 {
    let from = x.wrapping_sub(2);
    six(
        at(p, from, y),
        at(p, from.wrapping_add(1), y),
        at(p, x, y),
        at(p, x.wrapping_add(1), y),
        at(p, x.wrapping_add(2), y),
        at(p, x.wrapping_add(3), y),
    )
}

fn h1(p: &PaddedPlane<32>, x: i32, y: i32) -> i32 {
    let from = y.wrapping_sub(2);
    six(
        at(p, x, from),
        at(p, x, from.wrapping_add(1)),
        at(p, x, y),
        at(p, x, y.wrapping_add(1)),
        at(p, x, y.wrapping_add(2)),
        at(p, x, y.wrapping_add(3)),
    )
}

fn b(p: &PaddedPlane<32>, x: i32, y: i32) -> i32 {
    clip(b1(p, x, y).wrapping_add(16) >> 5)
}

fn h(p: &PaddedPlane<32>, x: i32, y: i32) -> i32 {
    clip(h1(p, x, y).wrapping_add(16) >> 5)
}

// over six h1 of the row
fn j(p: &PaddedPlane<32>, x: i32, y: i32) -> i32 {
    let from = x.wrapping_sub(2);
    let j1 = six(
        h1(p, from, y),
        h1(p, from.wrapping_add(1), y),
        h1(p, x, y),
        h1(p, x.wrapping_add(1), y),
        h1(p, x.wrapping_add(2), y),
        h1(p, x.wrapping_add(3), y),
    );
    clip(j1.wrapping_add(512) >> 10)
}

/// Table 8-12.
fn luma_sample(p: &PaddedPlane<32>, x: i32, y: i32, fx: i16, fy: i16) -> i32 {
    let right = x.wrapping_add(1);
    let below = y.wrapping_add(1);
    match (fx, fy) {
        (0, 0) => at(p, x, y),
        (1, 0) => mean(at(p, x, y), b(p, x, y)),
        (2, 0) => b(p, x, y),
        (3, 0) => mean(at(p, right, y), b(p, x, y)),
        (0, 1) => mean(at(p, x, y), h(p, x, y)),
        (1, 1) => mean(b(p, x, y), h(p, x, y)),
        (2, 1) => mean(b(p, x, y), j(p, x, y)),
        (3, 1) => mean(b(p, x, y), h(p, right, y)),
        (0, 2) => h(p, x, y),
        (1, 2) => mean(h(p, x, y), j(p, x, y)),
        (2, 2) => j(p, x, y),
        (3, 2) => mean(j(p, x, y), h(p, right, y)),
        (0, _) => mean(at(p, x, below), h(p, x, y)),
        (1, _) => mean(h(p, x, y), b(p, x, below)),
        (2, _) => mean(j(p, x, y), b(p, x, below)),
        _ => mean(h(p, right, y), b(p, x, below)),
    }
}

fn chroma_sample(p: &PaddedPlane<32>, x: i32, y: i32, fx: i32, fy: i32) -> i32 {
    let right = x.wrapping_add(1);
    let below = y.wrapping_add(1);
    let upper = 8i32
        .wrapping_sub(fx)
        .wrapping_mul(at(p, x, y))
        .wrapping_add(fx.wrapping_mul(at(p, right, y)));
    let lower = 8i32
        .wrapping_sub(fx)
        .wrapping_mul(at(p, x, below))
        .wrapping_add(fx.wrapping_mul(at(p, right, below)));
    8i32.wrapping_sub(fy)
        .wrapping_mul(upper)
        .wrapping_add(fy.wrapping_mul(lower))
        .wrapping_add(32)
        >> 6
}

// The block at (x, y) of the plane; zeros where that is not in the plane.
fn luma_block<const W: usize, const H: usize>(
    plane: &PaddedPlane<32>,
    x: usize,
    y: usize,
    mv: Mv,
) -> Block<W, H>
    requires columns { (1 ≤ W) × (W ≤ 16) }
    requires rows { (1 ≤ H) × (H ≤ 16) }
    requires column { x < 100 }
    requires row { y < 100 }
{
    let mut block = Block::<W, H>::new(0);
    if x < plane.width() && y < plane.height() {
        luma(plane, x, y, mv, &mut block);
    }
    block
}

fn is_luma<const W: usize, const H: usize>(
    plane: &PaddedPlane<32>,
    x: usize,
    y: usize,
    mv: Mv,
) -> bool
    requires columns { (1 ≤ W) × (W ≤ 16) }
    requires rows { (1 ≤ H) × (H ≤ 16) }
    requires column { x < 100 }
    requires row { y < 100 }
{
    let block = luma_block::<W, H>(plane, x, y, mv);
    let left = (x as i32).wrapping_add(i32::from(mv.x >> 2));
    let top = (y as i32).wrapping_add(i32::from(mv.y >> 2));
    let mut same = true;
    for v in 0..H {
        for u in 0..W {
            let plain = luma_sample(
                plane,
                left.wrapping_add(u as i32),
                top.wrapping_add(v as i32),
                mv.x & 3,
                mv.y & 3,
            );
            same = same && i32::from(block.get(u, v)) == plain;
        }
    }
    same
}

fn is_chroma<const W: usize, const H: usize>(
    plane: &PaddedPlane<32>,
    x: usize,
    y: usize,
    mv: Mv,
) -> bool
    requires columns { (1 ≤ W) × (W ≤ 8) }
    requires rows { (1 ≤ H) × (H ≤ 8) }
    requires column { x < 100 }
    requires row { y < 100 }
{
    if x >= plane.width() || y >= plane.height() {
        return false;
    }
    let mut block = Block::<W, H>::new(0);
    chroma(plane, x, y, mv, &mut block);
    let left = (x as i32).wrapping_add(i32::from(mv.x >> 3));
    let top = (y as i32).wrapping_add(i32::from(mv.y >> 3));
    let mut same = true;
    for v in 0..H {
        for u in 0..W {
            let plain = chroma_sample(
                plane,
                left.wrapping_add(u as i32),
                top.wrapping_add(v as i32),
                i32::from(mv.x & 7),
                i32::from(mv.y & 7),
            );
            same = same && i32::from(block.get(u, v)) == plain;
        }
    }
    same
}

fn all_luma(plane: &PaddedPlane<32>, mv: Mv) -> bool {
    is_luma::<16, 16>(plane, 8, 16, mv)
        & is_luma::<16, 8>(plane, 8, 16, mv)
        & is_luma::<8, 16>(plane, 8, 16, mv)
        & is_luma::<8, 8>(plane, 8, 16, mv)
        & is_luma::<8, 4>(plane, 8, 16, mv)
        & is_luma::<4, 8>(plane, 8, 16, mv)
        & is_luma::<4, 4>(plane, 8, 16, mv)
}

fn all_chroma(plane: &PaddedPlane<32>, mv: Mv) -> bool {
    is_chroma::<8, 8>(plane, 8, 16, mv)
        & is_chroma::<8, 4>(plane, 8, 16, mv)
        & is_chroma::<4, 8>(plane, 8, 16, mv)
        & is_chroma::<4, 4>(plane, 8, 16, mv)
        & is_chroma::<4, 2>(plane, 8, 16, mv)
        & is_chroma::<2, 4>(plane, 8, 16, mv)
        & is_chroma::<2, 2>(plane, 8, 16, mv)
}

// inside the plane; over each edge inside the padding; past the padding
const WHOLE: [i16; 7] = [0, -20, -60, -2000, 20, 60, 2000];

// The first vector by which a luma block differs: how far to the right and down, and its fraction.
fn differing_luma(plane: &PaddedPlane<32>) -> Option<(i16, i16, i16)> {
    for right in WHOLE {
        for down in WHOLE {
            for fraction in 0..16i16 {
                let mv = Mv {
                    x: right.wrapping_mul(4).wrapping_add(fraction & 3),
                    y: down.wrapping_mul(4).wrapping_add(fraction >> 2),
                };
                if !all_luma(plane, mv) {
                    return Some((right, down, fraction));
                }
            }
        }
    }
    None
}

#[test]
fn luma_is_its_table(rt: HostRuntime) -> Result<(), Fail> {
    let plane = plane_of(rt.alloc(), 32, 48, Picture::Rough)?;
    assert_eq!(rt; differing_luma(&plane), None);
    Ok(())
}

// The first vector by which a chroma block differs: how far to the right and down, and its
// fraction.
fn differing_chroma(plane: &PaddedPlane<32>) -> Option<(i16, i16, i16)> {
    for right in WHOLE {
        for down in WHOLE {
            for fraction in 0..64i16 {
                let mv = Mv {
                    x: right.wrapping_mul(8).wrapping_add(fraction & 7),
                    y: down.wrapping_mul(8).wrapping_add(fraction >> 3),
                };
                if !all_chroma(plane, mv) {
                    return Some((right, down, fraction));
                }
            }
        }
    }
    None
}

#[test]
fn chroma_is_its_formula(rt: HostRuntime) -> Result<(), Fail> {
    let plane = plane_of(rt.alloc(), 32, 48, Picture::Rough)?;
    assert_eq!(rt; differing_chroma(&plane), None);
    Ok(())
}

#[test]
fn far_vector_gives_the_lower_left_sample(rt: HostRuntime) -> Result<(), Fail> {
    const FAR: Mv = Mv {
        x: -32768,
        y: 32767,
    };
    let plane = plane_of(rt.alloc(), 16, 16, Picture::Ramp)?;
    let block = luma_block::<16, 16>(&plane, 0, 0, FAR);
    assert_eq!(rt; block.as_slice(), [240; 256].as_slice());
    Ok(())
}

// Each row between two samples of the step.
const OVER_A_STEP: [u8; 16] = [
    128, 128, 128, 128, 128, 128, 128, 128, 128, 128, 128, 128, 128, 128, 127, 132,
];

fn is_over_a_step(block: &Block<16, 16>) -> bool {
    for y in 0..16 {
        for x in 0..16 {
            if block.get(x, y) != OVER_A_STEP[x] {
                return false;
            }
        }
    }
    true
}

#[test]
fn half_a_sample_to_the_right_over_a_step(rt: HostRuntime) -> Result<(), Fail> {
    let plane = plane_of(rt.alloc(), 32, 16, Picture::Step)?;
    let block = luma_block::<16, 16>(&plane, 0, 0, Mv { x: 2, y: 0 });
    assert!(rt; is_over_a_step(&block));
    Ok(())
}

// The sums over a step, which is between the eighth and the ninth sample.
fn sums_over_a_step() -> [i32; 11] {
    const STEP: [u8; 16] = [
        128, 128, 128, 128, 128, 128, 128, 128, 136, 136, 136, 136, 136, 136, 136, 136,
    ];
    let mut sums = [0; 11];
    six_tap_row(&STEP, &mut sums);
    sums
}

fn sum_over(samples: &[u8; 6]) -> i32 {
    let mut sums = [0; 1];
    six_tap_row(samples, &mut sums);
    sums[0]
}

#[test]
fn six_taps_over_worked_rows(rt: HostRuntime) -> Result<(), Fail> {
    assert_eq!(rt;
        sums_over_a_step(),
        [
            4096, 4096, 4096, 4104, 4064, 4224, 4384, 4344, 4352, 4352, 4352
        ]
    );
    assert_eq!(rt;
        [
            sum_over(&[0, 255, 0, 0, 255, 0]),
            sum_over(&[255, 0, 255, 255, 0, 255])
        ],
        [-2550, 10710]
    );
    let mut none = [0i32; 0];
    six_tap_row(&[1, 2, 3, 4, 5], &mut none);
    Ok(())
}

// Whether so many sums are those of the samples, and what is behind them stays.
fn are_sums(samples: &[u8; 45], count: usize) -> bool
    requires { count ≤ 40 }
{
    let mut sums = [7i32; 40];
    six_tap_row(&samples[..count + 5], &mut sums[..count]);
    for x in 0..40 {
        let plain = six(
            i32::from(samples[x]),
            i32::from(samples[x + 1]),
            i32::from(samples[x + 2]),
            i32::from(samples[x + 3]),
            i32::from(samples[x + 4]),
            i32::from(samples[x + 5]),
        );
        if sums[x] != if x < count { plain } else { 7 } {
            return false;
        }
    }
    true
}

#[test]
fn six_taps_of_every_length(rt: HostRuntime) -> Result<(), Fail> {
    let mut samples = [0u8; 45];
    for x in 0..45 {
        samples[x] = Picture::Rough.sample(x, 3);
    }
    for count in 0..41 {
        assert!(rt; are_sums(&samples, count), "{count}");
    }
    Ok(())
}

#[test]
fn weights_of_worked_samples(rt: HostRuntime) -> Result<(), Fail> {
    let grey = Block::<4, 4>::new(128);
    let white = Block::<16, 8>::new(255);
    let weighted = [weight(&grey, 1, 3, -4), weight(&grey, 0, -1, 5)];
    assert_eq!(rt;
        (
            weighted[0].as_slice(),
            weighted[1].as_slice(),
            weight(&white, 7, 127, 127).as_slice()
        ),
        (
            [188; 16].as_slice(),
            [0; 16].as_slice(),
            [255; 128].as_slice()
        )
    );
    Ok(())
}

// How many samples are each the number of their place, up to the first that is not.
fn in_order(samples: &[u8]) -> usize {
    for (k, sample) in samples.iter().enumerate() {
        if usize::from(*sample) != k {
            return k;
        }
    }
    samples.len()
}

fn bytes_of_a_ramp(alloc: Global) -> Result<Bytes, OutOfMemory> {
    plane_of(alloc, 16, 16, Picture::Ramp)?.to_bytes(alloc)
}

#[test]
fn a_padded_plane_keeps_its_samples(rt: HostRuntime) -> Result<(), Fail> {
    let bytes = bytes_of_a_ramp(rt.alloc())?;
    let samples = bytes.as_slice();
    assert_eq!(rt; (in_order(samples), samples.len()), (256, 256));
    Ok(())
}
