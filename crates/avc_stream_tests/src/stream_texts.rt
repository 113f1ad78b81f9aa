//! Tests of listings and pieces of a stream.

// What is told of a stream, and its pieces. Each call is tried once and, where a growth of it was
// refused, once more: with one growth refused, whichever it is, the second gives what is wanted.
// With none refused the first does.
use avc_tools::{cut, list_units, show_headers};
use avc_types::OutOfMemory;
use std::alloc::Global;
use std::test::Fail;

// A sequence parameter set of a 16x16 picture, a picture parameter set, and an IDR picture of one
// Intra 16x16 macroblock.
const STREAM: [u8; 27] = [
    0, 0, 0, 1, 0x67, 0x42, 0xC0, 0x0A, 0xDA, 0x71, 0, 0, 0, 1, 0x68, 0xCE, 0x38, 0x80, 0, 0, 1,
    0x65, 0x88, 0x84, 0x93, 0xC0, 0,
];

const UNITS: &str = "0 4 6 7 3\n1 14 4 8 3\n2 21 5 5 3\n";

const HEADERS: &str = "0 sps 0 profile 66 level 10 size 16x16 refs 1 poc 2 dpb 16\n\
    1 pps 0 sps 0 qp 26 refs 1 control 0 constrained 0\n\
    2 slice 0 type I pps 0 frame 0 qp 26 idr 1\n";

// What a call gives; where it wants memory, what it gives when it is made again.
macro_rules! given {
    ($call:expr) => {
        match $call {
            Ok(value) => Ok(value),
            Err(_) => $call,
        }
    };
}

fn units(alloc: Global) -> Result<String, OutOfMemory> {
    given!(list_units(alloc, &STREAM))
}

fn headers(alloc: Global) -> Result<String, OutOfMemory> {
    given!(show_headers(alloc, &STREAM))
}

fn piece_count(alloc: Global) -> Result<usize, OutOfMemory> {
    let pieces = given!(cut(alloc, &STREAM))?;
    Ok(pieces.len())
}

#[test]
fn texts_and_pieces(rt: HostRuntime) -> Result<(), Fail> {
    let alloc = rt.alloc();
    assert_eq!(rt; units(alloc)?.as_str(), UNITS);
    assert_eq!(rt; headers(alloc)?.as_str(), HEADERS);
    assert_eq!(rt; piece_count(alloc)?, 1);
    Ok(())
}
