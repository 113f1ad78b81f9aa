//! A slice of two macroblocks, cut to each number of its bits.

use crate::written_slices::{info, total_coeffs_in};
use avc_bits::BitReader;
use avc_make::{cut_bits, total_coeffs_of};
use avc_mbsyntax::SliceData;
use avc_neigh::Row;
use avc_params::ParamTable;
use avc_slice::read_header;
use avc_types::{Fault, Mb, OutOfMemory, Syntax};
use std::alloc::Global;
use std::test::Fail;

// 32x16 luma samples, and a picture parameter set with no deblocking fields in slices
const SPS: [u8; 6] = [0x42, 0xC0, 0x0A, 0xDA, 0x2C, 0x40];

const PPS: [u8; 3] = [0xCE, 0x38, 0x80];

// an I slice of two Intra 16x16 macroblocks, with 58 bits before its stop bit
const UNIT_HEADER: u8 = 0x65;

const SLICE: [u8; 8] = [0x88, 0x84, 0x93, 0x93, 0x14, 0x00, 0x09, 0x60];

const BITS: usize = 58;

// the bits of the header and of the first macroblock
const FIRST_BITS: usize = 25;

// How many macroblocks the slice has, and the fault that comes then.
fn read(alloc: Global, rbsp: &[u8], table: &ParamTable) -> Result<(u32, Option<Fault>), Fail> {
    let header = match read_header(UNIT_HEADER, rbsp, table) {
        Ok(header) => header,
        Err(fault) => return Ok((0, Some(fault))),
    };
    let mut row = Row::new(alloc, 2)?;
    let mut data = SliceData::new(BitReader::at(rbsp, header.position), false, 0, 26, 2);
    Ok(macroblocks_of(&mut data, &mut row))
}

fn macroblocks_of(data: &mut SliceData<'_>, row: &mut Row) -> (u32, Option<Fault>) {
    let mut mb = Mb {
        syntax: Syntax::PSkip,
        qp: 0,
    };
    for count in 0..3 {
        let around = row.around(0);
        match data.next(
            total_coeffs_in(around.a),
            total_coeffs_in(around.b),
            &mut mb,
        ) {
            Ok(true) => row.put(&info(0, total_coeffs_of(&mb.syntax))),
            Ok(false) => return (count, None),
            Err(fault) => return (count, Some(fault)),
        }
    }
    (3, None)
}

fn cut(alloc: Global, n: usize) -> Result<Vec<u8>, OutOfMemory> {
    cut_bits(alloc, &SLICE, n)
}

fn read_cut(alloc: Global, n: usize, table: &ParamTable) -> Result<(u32, Option<Fault>), Fail> {
    let rbsp = cut(alloc, n)?;
    read(alloc, &rbsp, table)
}

fn put_sets(table: &mut ParamTable) -> Result<(), OutOfMemory> {
    table.put_sps(&SPS)?;
    table.put_pps(&PPS)?;
    Ok(())
}

// How many macroblocks there are in so many bits, and what ends them.
fn wanted(n: usize) -> (u32, Option<Fault>) {
    let count = if n < FIRST_BITS { 0 } else { 1 };
    if n == FIRST_BITS {
        (count, None)
    } else {
        (count, Some(Fault::Truncated))
    }
}

// The first number of bits at which it is not so.
fn first_differing(alloc: Global, table: &ParamTable) -> Result<Option<usize>, Fail> {
    for n in 0..BITS {
        if read_cut(alloc, n, table)? != wanted(n) {
            return Ok(Some(n));
        }
    }
    Ok(None)
}

// Puts the sets into a table, and gives the first number of bits that is not read as it should be,
// and what the whole slice is read as.
fn read_in(
    alloc: Global,
    table: &mut ParamTable,
) -> Result<(Option<usize>, (u32, Option<Fault>)), Fail> {
    put_sets(table)?;
    let differing = first_differing(alloc, table)?;
    let whole = read(alloc, &SLICE, table)?;
    Ok((differing, whole))
}

fn read_in_new(alloc: Global) -> Result<(Option<usize>, (u32, Option<Fault>)), Fail> {
    let mut table = ParamTable::new(alloc);
    read_in(alloc, &mut table)
}

#[test]
fn each_cut_ends_as_it_should(rt: HostRuntime) -> Result<(), Fail> {
    assert_eq!(rt; read_in_new(rt.alloc())?, (None, (2, None)));
    Ok(())
}

// What stands in so many bits, and the stop bit.
const CUTS: &[(usize, &[u8])] = &[
    (FIRST_BITS, &[0x88, 0x84, 0x93, 0xC0]),
    (BITS, &SLICE),
    (1000, &SLICE),
    (0, &[0x80]),
];

#[test]
fn cuts_to_bits(rt: HostRuntime) -> Result<(), Fail> {
    for row in CUTS {
        let (n, bytes) = *row;
        assert_eq!(rt; cut(rt.alloc(), n)?.as_slice(), bytes);
    }
    Ok(())
}
