//! Tests of byte streams that come in pieces.

// No clause says that memory is found. Where an allocation is refused (`rt try --test --fail-alloc
// N`), a test ends in that error, and not at an assertion.
use avc_annexb::{Splitter, unescape};
use avc_types::OutOfMemory;
use std::alloc::Global;
use std::test::Fail;

const STREAM: [u8; 26] = [
    0, 0, 0, 1, 0x67, 0x42, 0xC0, 0x0A, 0xDA, 0x71, 0, 0, 0, 1, 0x68, 0xCE, 0x38, 0x80, 0, 0, 1,
    0x65, 0x88, 0x84, 0x93, 0xC0,
];

// The index, the offset, the length and the header of a unit, where there is one.
type Line = Option<(u64, u64, u64, u8)>;

// The next four units.
fn next_lines(splitter: &mut Splitter<134_217_728>) -> [Line; 4] {
    let mut lines = [None; 4];
    for k in 0..4 {
        if let Some(unit) = splitter.next_unit() {
            lines[k] = Some((unit.index, unit.offset, unit.length, unit.header));
        }
    }
    lines
}

// Whether a byte more is refused, and nothing is given.
fn is_stopped(splitter: &mut Splitter<134_217_728>, byte: u8) -> bool {
    splitter.feed(&[byte]).is_err() && splitter.next_unit().is_none()
}

// The units of the stream. Where a byte is refused, so must be what follows, and nothing be given:
// else there are none.
fn lines_of(splitter: &mut Splitter<134_217_728>) -> Result<[Line; 4], OutOfMemory> {
    for byte in STREAM {
        match splitter.feed(&[byte]) {
            Err(refused) if is_stopped(splitter, byte) => return Err(refused),
            Err(_) => return Ok([None; 4]),
            Ok(()) => {}
        }
    }
    splitter.finish()?;
    Ok(next_lines(splitter))
}

fn lines_in(alloc: Global) -> Result<[Line; 4], OutOfMemory> {
    let mut splitter = Splitter::<134_217_728>::new(alloc);
    lines_of(&mut splitter)
}

#[test]
fn splits_byte_by_byte(rt: HostRuntime) -> Result<(), Fail> {
    assert_eq!(rt;
        lines_in(rt.alloc())?,
        [
            Some((0, 4, 6, 0x67)),
            Some((1, 14, 4, 0x68)),
            Some((2, 21, 5, 0x65)),
            None
        ]
    );
    Ok(())
}

#[test]
fn unescapes(rt: HostRuntime) -> Result<(), Fail> {
    let raw = unescape(rt.alloc(), &[0x65, 0, 0, 3, 0])?;
    assert_eq!(rt; raw.as_slice(), [0x65, 0, 0, 0].as_slice());
    Ok(())
}
