//! Which pictures go out of the decoded picture buffer at each step, by worked rows (C.4).

ghost use Rattle.std.specs.Prelude.{◌≤◌};

use avc_dpb::{ArrivingFrame, Dpb, Output};
use avc_plane::{Frame, PADDING, PictureRows, Planes, SharedPicture, SharedPlanes};
use avc_types::{Crop, Mark, OutOfMemory, PictureInfo};
use std::alloc::{AllocError, Global};
use std::test::Fail;

/// What arrives in the buffer.
#[derive(Clone, Copy)]
enum Arriving {
    /// A reference picture of this order count, where there is room for so many frames.
    Reference(i32, usize),

    /// A picture that is none.
    Other(i32, usize),

    /// A frame that stands for a missing frame number.
    Missing(usize),

    /// A reference picture, one of four for which there is room; one picture may stay needed for
    /// output.
    OneOfFour(i32),
}

/// What happens to the buffer.
#[derive(Clone, Copy)]
enum Step {
    /// A frame of this number is stored, with this mark.
    Store(u32, Option<Mark>, Arriving),

    /// The stored frame at this index is unused for reference from now on.
    Unmark(usize),

    /// All pictures go out.
    Empty,

    /// All frames leave, and no picture goes out.
    DropAll,

    /// A frame that has left is taken, to be used again.
    TakeEmptied,
}

/// What stands behind the numbers that a step gives.
const END: u32 = u32::MAX;

const SHORT: Option<Mark> = Some(Mark::Short);

// Room for 16 frames at most.
fn frame_of(arriving: Arriving) -> ArrivingFrame
    ensures { result.capacity ≤ 16 }
{
    let (pic_order_cnt, existing, is_reference, capacity, max_num_reorder_frames) = match arriving {
        Arriving::Reference(order, capacity) => (order, true, true, capacity, None),
        Arriving::Other(order, capacity) => (order, true, false, capacity, None),
        Arriving::Missing(capacity) => (0, false, true, capacity, None),
        Arriving::OneOfFour(order) => (order, true, true, 4, Some(1)),
    };
    ArrivingFrame {
        pic_order_cnt,
        existing,
        is_reference,
        capacity: capacity.min(16),
        max_num_reorder_frames,
    }
}

// A frame of one macroblock, of which as many columns are not shown on the left as its number says.
fn frame(alloc: Global, number: u32, mark: Option<Mark>) -> Result<Frame<PADDING>, OutOfMemory> {
    Ok(Frame {
        planes: Some(SharedPlanes::new(alloc, Planes::new(alloc, 1, 1)?.pad())?),
        frame_num: 0,
        mark,
        crop: Crop {
            left: number,
            right: 2,
            top: 0,
            bottom: 4,
        },
        info: PictureInfo {
            unit: u64::from(number),
            ..PictureInfo::none()
        },
    })
}

fn add_numbers(given: &mut Vec<u32>, pictures: &[SharedPicture]) -> Result<(), AllocError> {
    for picture in pictures {
        given.push(picture.crop().left)?;
    }
    Ok(())
}

fn store(
    alloc: Global,
    dpb: &mut Dpb,
    number: u32,
    mark: Option<Mark>,
    arriving: &ArrivingFrame,
    given: &mut Vec<u32>,
) -> Result<(), OutOfMemory>
    requires { arriving.now.capacity ≤ 16 }
{
    let stored = frame(alloc, number, mark)?;
    let pictures = dpb.store(stored, arriving)?;
    add_numbers(given, &pictures)?;
    Ok(())
}

fn empty(dpb: &mut Dpb, given: &mut Vec<u32>) -> Result<(), OutOfMemory> {
    let pictures = dpb.empty()?;
    add_numbers(given, &pictures)?;
    Ok(())
}

fn take_emptied(dpb: &mut Dpb, given: &mut Vec<u32>) -> Result<(), OutOfMemory> {
    if let Some(emptied) = dpb.emptied_frame() {
        given.push(emptied.crop.left)?;
    }
    Ok(())
}

fn unmark(dpb: &mut Dpb, index: usize) {
    if index < dpb.frames().len() {
        dpb.mark(index, None);
    }
}

// Adds the numbers of the frames that this step gives.
fn take_step(
    alloc: Global,
    dpb: &mut Dpb,
    step: Step,
    given: &mut Vec<u32>,
) -> Result<(), OutOfMemory> {
    match step {
        Step::Store(number, mark, arriving) => {
            store(alloc, dpb, number, mark, &frame_of(arriving), given)
        }
        Step::Unmark(index) => {
            unmark(dpb, index);
            Ok(())
        }
        Step::Empty => empty(dpb, given),
        Step::DropAll => {
            dpb.drop_all();
            Ok(())
        }
        Step::TakeEmptied => take_emptied(dpb, given),
    }
}

fn take_steps(
    alloc: Global,
    dpb: &mut Dpb,
    steps: &[Step],
    given: &mut Vec<u32>,
) -> Result<(), OutOfMemory> {
    for step in steps {
        take_step(alloc, dpb, *step, given)?;
        given.push(END)?;
    }
    Ok(())
}

// Whether these steps give these numbers, END behind those of each, and so many frames are stored
// then.
fn gives(
    alloc: Global,
    output: Output,
    steps: &[Step],
    numbers: &[u32],
    stored: usize,
) -> Result<bool, OutOfMemory> {
    let mut given = Vec::new(alloc);
    let mut dpb = Dpb::new(alloc, output);
    take_steps(alloc, &mut dpb, steps, &mut given)?;
    Ok(given.as_slice() == numbers && dpb.frames().len() == stored)
}

// By name: what happens to a buffer with this output, the numbers that go out, and how many frames
// are stored then.
const ROWS: &[(&str, Output, &[Step], &[u32], usize)] = &[
    // Room for two frames, none of which is a reference: order counts 0, 4, 2, 2.
    (
        "by order count",
        Output::Full,
        &[
            Step::Store(0, None, Arriving::Other(0, 2)),
            Step::Store(1, None, Arriving::Other(4, 2)),
            Step::Store(2, None, Arriving::Other(2, 2)),
            Step::Store(3, None, Arriving::Other(2, 2)),
            Step::Empty,
        ],
        &[END, END, 0, END, 2, END, 3, 1, END],
        0,
    ),
    // Room for one frame: the reference picture goes out and stays, and a picture that is none
    // finds no room until it is unmarked.
    (
        "references stay",
        Output::Full,
        &[
            Step::Store(0, SHORT, Arriving::Reference(0, 1)),
            Step::Store(1, None, Arriving::Other(2, 1)),
            Step::Unmark(0),
            Step::Store(2, None, Arriving::Other(4, 1)),
        ],
        &[END, 0, 1, END, END, END],
        1,
    ),
    // A frame that stands for a missing number makes room and never goes out; what is dropped
    // doesn't either.
    (
        "never goes out",
        Output::Full,
        &[
            Step::Store(0, None, Arriving::Reference(0, 1)),
            Step::Store(1, SHORT, Arriving::Missing(1)),
            Step::Empty,
            Step::Store(2, None, Arriving::Reference(0, 1)),
            Step::DropAll,
            Step::Empty,
        ],
        &[END, 0, END, END, END, END, END],
        0,
    ),
    // Frames that have left are handed out once each: one that goes out for another, and all where
    // the buffer is emptied.
    (
        "hands out emptied frames",
        Output::Full,
        &[
            Step::TakeEmptied,
            Step::Store(0, None, Arriving::Other(0, 2)),
            Step::Store(1, None, Arriving::Other(4, 2)),
            Step::Store(2, None, Arriving::Other(2, 2)),
            Step::TakeEmptied,
            Step::TakeEmptied,
            Step::DropAll,
            Step::TakeEmptied,
            Step::TakeEmptied,
            Step::TakeEmptied,
            Step::Store(3, None, Arriving::Reference(0, 1)),
            Step::Empty,
            Step::TakeEmptied,
        ],
        &[
            END, END, END, 0, END, 0, END, END, END, 1, END, 2, END, END, END, 3, END, 3, END,
        ],
        0,
    ),
    // Order counts 0, 4, 2: no room is needed.
    (
        "only where room is needed",
        Output::Full,
        &[
            Step::Store(0, SHORT, Arriving::OneOfFour(0)),
            Step::Store(1, SHORT, Arriving::OneOfFour(4)),
            Step::Store(2, SHORT, Arriving::OneOfFour(2)),
            Step::Empty,
        ],
        &[END, END, END, 0, 2, 1, END],
        0,
    ),
    // With early output the second of two that are needed for output goes out later. The frames
    // stay for reference.
    (
        "no more than may stay needed",
        Output::Early,
        &[
            Step::Store(0, SHORT, Arriving::OneOfFour(0)),
            Step::Store(1, SHORT, Arriving::OneOfFour(4)),
            Step::Store(2, SHORT, Arriving::OneOfFour(2)),
        ],
        &[END, 0, END, 2, END],
        3,
    ),
    // Early too, where no number is given.
    (
        "no limit",
        Output::Early,
        &[
            Step::Store(0, SHORT, Arriving::Reference(0, 4)),
            Step::Store(1, SHORT, Arriving::Reference(4, 4)),
        ],
        &[END, END],
        2,
    ),
];

#[test]
fn goes_out_at_its_step(rt: HostRuntime) -> Result<(), Fail> {
    for row in ROWS {
        let (name, output, steps, numbers, stored) = *row;
        assert!(rt;
            gives(rt.alloc(), output, steps, numbers, stored)?,
            "{name}"
        );
    }
    Ok(())
}

// A frame that stands for a missing frame number.
fn frame_without_planes(alloc: Global) -> Result<Frame<PADDING>, OutOfMemory> {
    Ok(Frame {
        planes: None,
        ..frame(alloc, 16, None)?
    })
}

// Stores a picture and a frame that stands for a missing frame number, and hands out all.
fn shown(alloc: Global, dpb: &mut Dpb) -> Result<Vec<SharedPicture>, OutOfMemory> {
    let picture = frame(alloc, 16, None)?;
    dpb.store(picture, &frame_of(Arriving::Other(0, 2)))?;
    let none = frame_without_planes(alloc)?;
    dpb.store(none, &frame_of(Arriving::Other(2, 2)))?;
    dpb.empty()
}

fn shown_by_a_new_buffer(alloc: Global) -> Result<Vec<SharedPicture>, OutOfMemory> {
    let mut dpb = Dpb::new(alloc, Output::Full);
    shown(alloc, &mut dpb)
}

// The width and the cropping below, the unit that is told of the picture before and after it is
// copied, and how many samples of luma and of Cr it has.
type Shown = ((u32, u32), (u64, u64), (usize, usize));

fn copied(alloc: Global, shared: &SharedPicture) -> Result<Shown, OutOfMemory> {
    let picture = shared.to_picture(alloc)?;
    Ok((
        (picture.width, picture.crop.bottom),
        (picture.info.unit, shared.info().unit),
        (picture.luma.as_slice().len(), picture.cr.as_slice().len()),
    ))
}

// A picture goes out with the samples and the cropping of its frame; a frame that stands for a
// missing frame number has none.
#[test]
fn shows_its_picture(rt: HostRuntime) -> Result<(), Fail> {
    let out = shown_by_a_new_buffer(rt.alloc())?;
    assert_eq!(rt; out.len(), 1);
    for shared in out.as_slice() {
        assert_eq!(rt; copied(rt.alloc(), shared)?, ((16, 4), (16, 16), (256, 64)));
    }
    Ok(())
}
