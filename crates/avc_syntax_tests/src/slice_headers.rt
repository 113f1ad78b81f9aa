//! Tests of slice headers under parameter sets.

// No clause says that memory is found. Where an allocation is refused (`rt try --test --fail-alloc
// N`), the test ends in that error, and not at an assertion.
use avc_params::ParamTable;
use avc_slice::{SliceType, read_header};
use avc_types::{Fault, OutOfMemory};
use std::alloc::Global;
use std::test::Fail;

// 16x16 luma samples, order count type 2, one reference frame
const SPS: [u8; 5] = [0x42, 0xC0, 0x0A, 0xDA, 0x71];

// no deblocking fields in slices
const PPS: [u8; 3] = [0xCE, 0x38, 0x80];

// The fields of a header that the tests ask for: the slice's type, frame_num, how many entries of
// RefPicList0 are active, slice_qp_delta, and where the slice's data begins.
type Fields = (SliceType, u32, u32, i32, u128);

fn read(rbsp: &[u8], table: &ParamTable) -> Result<Fields, Fault> {
    match read_header(0x41, rbsp, table) {
        Ok(header) => Ok((
            header.slice_type,
            header.frame_num,
            header.num_ref_idx_active,
            header.slice_qp_delta,
            header.position,
        )),
        Err(fault) => Err(fault),
    }
}

// Whether both sets are taken, and three headers: without the sequence parameter set, and two under
// both sets.
type Read = ((bool, bool), [Result<Fields, Fault>; 3]);

// A P slice without the sequence parameter set and with it, and two modifications of one entry.
fn read_under_both(table: &mut ParamTable) -> Result<Read, OutOfMemory> {
    let is_pps_taken = table.put_pps(&PPS)?.is_none();
    let without = read(&[0x9A, 0x22, 0xA0], table);
    let is_sps_taken = table.put_sps(&SPS)?.is_none();
    let plain = read(&[0x9A, 0x22, 0xA0], table);
    let modified = read(&[0x9A, 0x2F, 0x91, 0x80], table);
    Ok(((is_pps_taken, is_sps_taken), [without, plain, modified]))
}

fn read_in(alloc: Global) -> Result<Read, OutOfMemory> {
    let mut table = ParamTable::new(alloc);
    read_under_both(&mut table)
}

#[test]
fn reads_under_the_sets_that_were_put(rt: HostRuntime) -> Result<(), Fail> {
    assert_eq!(rt;
        read_in(rt.alloc())?,
        (
            (true, true),
            [
                Err(Fault::NoParameterSet),
                Ok((SliceType::AllP, 1, 1, 0, 15)),
                Err(Fault::BadRefList)
            ]
        )
    );
    Ok(())
}
