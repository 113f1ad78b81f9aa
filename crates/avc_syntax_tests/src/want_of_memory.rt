//! Tests of what follows want of memory.

// What stands after want of memory. Each call is tried once and, where a growth of it was refused,
// once more: with one growth refused, whichever it is, the second gives what is wanted. With none
// refused the first does.
ghost use Rattle.avc_params.specs.Within.{IsPps, IsSps};

use crate::written_slices::p_slice;
use crate::written_syntax::{written_pps, written_sps};
use avc_annexb::{Splitter, unescape};
use avc_make::{BitMaker, Macroblocks, cut_bits, write_slice};
use avc_neigh::Row;
use avc_params::{ParamTable, Pps, Sps};
use avc_picture::{PictureDecoder, PictureMemory};
use avc_plane::Plane;
use avc_types::OutOfMemory;
use std::alloc::Global;
use std::test::Fail;

// A sequence parameter set of a 16x16 picture, a picture parameter set, and an IDR picture of one
// Intra 16x16 macroblock.
const STREAM: [u8; 27] = [
    0, 0, 0, 1, 0x67, 0x42, 0xC0, 0x0A, 0xDA, 0x71, 0, 0, 0, 1, 0x68, 0xCE, 0x38, 0x80, 0, 0, 1,
    0x65, 0x88, 0x84, 0x93, 0xC0, 0,
];

// What a call gives; where it wants memory, what it gives when it is made again.
macro_rules! given {
    ($call:expr) => {
        match $call {
            Ok(value) => Ok(value),
            Err(_) => $call,
        }
    };
}

fn unescaped(alloc: Global) -> Result<Vec<u8>, OutOfMemory> {
    given!(unescape(alloc, &[0x65, 0, 0, 3, 0]))
}

fn cut_to_twelve(alloc: Global) -> Result<Vec<u8>, OutOfMemory> {
    given!(cut_bits(alloc, &[0x88, 0x84, 0x93, 0xC0], 12))
}

// Whether a row of two begins with no macroblock on the left.
fn row_begins(alloc: Global) -> Result<bool, OutOfMemory> {
    let row = given!(Row::new(alloc, 2))?;
    Ok(row.around(0).a.is_none())
}

fn plane_width(alloc: Global) -> Result<usize, OutOfMemory> {
    let plane = given!(Plane::<32>::new(alloc, 16, 16))?;
    Ok(plane.width())
}

#[test]
fn calls_that_begin_anew(rt: HostRuntime) -> Result<(), Fail> {
    let alloc = rt.alloc();
    assert_eq!(rt; unescaped(alloc)?.as_slice(), [0x65, 0, 0, 0].as_slice());
    assert_eq!(rt;
        given!(written_sps(alloc))?.as_slice(),
        [0x67, 0x42, 0xC0, 0x0A, 0xDA, 0x71].as_slice()
    );
    assert_eq!(rt;
        given!(written_pps(alloc))?.as_slice(),
        [0x68, 0xCE, 0x38, 0x80].as_slice()
    );
    assert_eq!(rt; cut_to_twelve(alloc)?.as_slice(), [0x88, 0x88].as_slice());
    assert!(rt; row_begins(alloc)?);
    assert_eq!(rt; plane_width(alloc)?, 16);
    Ok(())
}

// A P slice of no macroblock behind two of another slice: first_mb_in_slice 2, frame_num 1, two
// entries in RefPicList0, mb_skip_run 0.
const NO_MACROBLOCK: [u8; 4] = [0x41, 0x78, 0xD1, 0xC0];

#[test]
fn slices_begin_anew(rt: HostRuntime) -> Result<(), Fail> {
    let alloc = rt.alloc();
    let slice = p_slice(Macroblocks::from_vec(Vec::new(alloc)));
    let unit = given!(write_slice(alloc, &slice))?;
    assert_eq!(rt; unit.as_slice(), NO_MACROBLOCK.as_slice());
    Ok(())
}

// Puts a sequence parameter set of a 16x16 picture and a picture parameter set.
fn put_sets(table: &mut ParamTable) -> Result<(), OutOfMemory> {
    given!(table.put_sps(&[0x42, 0xC0, 0x0A, 0xDA, 0x71]))?;
    given!(table.put_pps(&[0xCE, 0x38, 0x80]))?;
    Ok(())
}

// Whether a picture of these sets begins.
fn begins_in(
    alloc: Global,
    sps: &Sps,
    pps: &Pps,
    memory: &mut PictureMemory<32>,
) -> Result<bool, OutOfMemory>
    requires sps { IsSps sps.now }
    requires pps { IsPps pps.now }
{
    let picture = PictureDecoder::<32>::begin(alloc, sps, pps, &[], memory)?;
    Ok(picture.read() == 0)
}

fn begins(alloc: Global, sps: &Sps, pps: &Pps) -> Result<bool, OutOfMemory>
    requires sps { IsSps sps.now }
    requires pps { IsPps pps.now }
{
    let mut memory = PictureMemory::new();
    given!(begins_in(alloc, sps, pps, &mut memory))
}

// Puts the sets into a table, and says whether a picture of these begins.
fn begins_under(alloc: Global, table: &mut ParamTable) -> Result<bool, OutOfMemory> {
    put_sets(table)?;
    match (table.sps(0), table.pps(0)) {
        (Some(sps), Some(pps)) => begins(alloc, sps, pps),
        _ => Ok(false),
    }
}

fn begins_under_new(alloc: Global) -> Result<bool, OutOfMemory> {
    let mut table = ParamTable::new(alloc);
    begins_under(alloc, &mut table)
}

#[test]
fn pictures_begin_anew(rt: HostRuntime) -> Result<(), Fail> {
    assert!(rt; begins_under_new(rt.alloc())?);
    Ok(())
}

// Which of the first four units the stream has.
fn units_of(splitter: &mut Splitter<1000>) -> Result<[bool; 4], OutOfMemory> {
    splitter.feed(&STREAM)?;
    splitter.finish()?;
    let first = splitter.next_unit().is_some();
    let second = splitter.next_unit().is_some();
    let third = splitter.next_unit().is_some();
    let fourth = splitter.next_unit().is_some();
    Ok([first, second, third, fourth])
}

// Whether a splitter that wanted memory wants it whatever is asked.
fn is_stopped(splitter: &mut Splitter<1000>) -> bool {
    splitter.feed(&[]).is_err() && splitter.finish().is_err() && splitter.next_unit().is_none()
}

// The units, or where memory is wanted, whether it is so from then on.
fn units_or_stop(splitter: &mut Splitter<1000>) -> Result<[bool; 4], bool> {
    match units_of(splitter) {
        Ok(units) => Ok(units),
        Err(_) => Err(is_stopped(splitter)),
    }
}

fn units_in(alloc: Global) -> Result<[bool; 4], bool> {
    let mut splitter = Splitter::<1000>::new(alloc);
    units_or_stop(&mut splitter)
}

#[test]
fn splitters_want_memory_from_then_on(rt: HostRuntime) -> Result<(), Fail> {
    let units = match units_in(rt.alloc()) {
        Err(true) => units_in(rt.alloc()),
        first => first,
    };
    assert_eq!(rt; units, Ok([true, true, true, false]));
    Ok(())
}

// Puts a set, if need be twice, and says whether none was in force between.
fn put_sps_anew(table: &mut ParamTable) -> Result<bool, OutOfMemory> {
    let sps = [0x42, 0xC0, 0x0A, 0xDA, 0x71];
    if table.put_sps(&sps).is_ok() {
        return Ok(true);
    }
    let is_none = table.sps(0).is_none();
    table.put_sps(&sps)?;
    Ok(is_none)
}

fn put_pps_anew(table: &mut ParamTable) -> Result<bool, OutOfMemory> {
    let pps = [0xCE, 0x38, 0x80];
    if table.put_pps(&pps).is_ok() {
        return Ok(true);
    }
    let is_none = table.pps(0).is_none();
    table.put_pps(&pps)?;
    Ok(is_none)
}

// Whether each was so, and whether both are in force then.
fn put_anew(table: &mut ParamTable) -> Result<[bool; 4], OutOfMemory> {
    let is_sps_none = put_sps_anew(table)?;
    let is_pps_none = put_pps_anew(table)?;
    let has_sps = table.sps(0).is_some();
    let has_pps = table.pps(0).is_some();
    Ok([is_sps_none, is_pps_none, has_sps, has_pps])
}

fn put_in_new(alloc: Global) -> Result<[bool; 4], OutOfMemory> {
    let mut table = ParamTable::new(alloc);
    put_anew(&mut table)
}

#[test]
fn tables_stay_as_they_are(rt: HostRuntime) -> Result<(), Fail> {
    assert_eq!(rt; put_in_new(rt.alloc())?, [true; 4]);
    Ok(())
}

// Writes more bits than the first growth has room for, and says whether memory was found for all.
fn writes(maker: &mut BitMaker) -> bool {
    for _ in 0..100 {
        if maker.put(32, 5).is_err() {
            return false;
        }
    }
    true
}

// Whether it writes them, or where memory is wanted, whether it is so from then on.
fn writes_or_stops(maker: &mut BitMaker) -> Result<(), bool> {
    if writes(maker) {
        return Ok(());
    }
    Err(maker.flag(true).is_err() && maker.put(0, 0).is_err())
}

fn writes_in(alloc: Global) -> Result<(), bool> {
    let mut maker = BitMaker::new(alloc);
    writes_or_stops(&mut maker)
}

#[test]
fn bit_makers_want_memory_from_then_on(rt: HostRuntime) -> Result<(), Fail> {
    let written = match writes_in(rt.alloc()) {
        Err(true) => writes_in(rt.alloc()),
        first => first,
    };
    assert_eq!(rt; written, Ok(()));
    Ok(())
}
