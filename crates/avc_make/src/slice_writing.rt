//! Slices (7.3.2.8, 7.3.4).
ghost use Rattle.std.specs.Prelude.{◌≡◌, ◌+◌, ◌<◌, ◌≤◌, false, length, IfOk};
ghost use Rattle.avc_types.specs.MacroblockFields.{syntax_of};
ghost use Rattle.avc_rbsp.specs.Made.{Puts, nothing};
ghost use Rattle.avc_rbsp.specs.Rbsps.{IsUnit};
ghost use Rattle.avc_make.specs.DataWriting.{CanStand, data_bits, is_skip};
ghost use Rattle.avc_make_headers.specs.HeaderWriting.{slice_unit_header};
ghost use Rattle.avc_make.specs.SliceMbs.{IsCodedSlice, IsReadBack, coded_slice_bits, earlier_mbs};
ghost use Rattle.avc_make.specs.SliceMbs.{own_start};
ghost use Rattle.avc_make.specs.SliceSteps.{AreInfoOf, coded_bits, last_run_bits_where, own_bits};
ghost use Rattle.avc_make.specs.SliceSteps.{run_after, run_bits, some_bits};

use crate::macroblock_writing::write_macroblock;
use crate::slice::CodedSlice;
use crate::slice_context::{context_beside, first_context, put_info, row_before};
use avc_make_headers::{header_byte, put_header, unit_of};
use avc_mbsyntax::Context;
use avc_neigh::Row;
use avc_rbsp::BitMaker;
use avc_types::{OutOfMemory, Syntax};
use std::alloc::Global;

/// The unit of a slice, from its header byte on: type 5 where the header has an idr_pic_id, else
/// type 1. It is read as the slice.
pub fn write_slice(alloc: Global, slice: &CodedSlice) -> Result<Vec<u8>, OutOfMemory>
    requires { IsCodedSlice slice.now }
    ensures unit { IfOk result
        (λ unit. IsUnit (slice_unit_header slice.now.header) (coded_slice_bits slice.now)
        unit.items) }
    ensures read { IfOk result (λ unit. IsReadBack slice.now unit.items) }
{
    let mut maker = BitMaker::new(alloc);
    slice_unit(alloc, &mut maker, slice)
}

// By a maker that has no bits yet.
fn slice_unit(
    alloc: Global,
    maker: &mut BitMaker,
    slice: &CodedSlice,
) -> Result<Vec<u8>, OutOfMemory>
    requires none { maker.old ≡ nothing }
    requires slice { IsCodedSlice slice.now }
    ensures unit { IfOk result
        (λ unit. IsUnit (slice_unit_header slice.now.header) (coded_slice_bits slice.now)
        unit.items) }
    ensures read { IfOk result (λ unit. IsReadBack slice.now unit.items) }
{
    put_header(maker, &slice.sps, &slice.pps, &slice.header)?;
    let mut row = row_before(alloc, slice)?;
    put_data(maker, &mut row, slice)?;
    let unit = unit_of(alloc, header_byte(&slice.header), maker)?;
    Ok(unit)
}

// slice_data
fn put_data(maker: &mut BitMaker, row: &mut Row, slice: &CodedSlice) -> Result<(), OutOfMemory>
    requires going { maker.old.failed ≡ false }
    requires slice { IsCodedSlice slice.now }
    requires row { AreInfoOf (own_start slice.now).width (earlier_mbs slice.now) row.old }
    ensures { Puts result
        (data_bits (own_start slice.now) (earlier_mbs slice.now) (length maker.old.bits)
        slice.now.macroblocks) maker.old maker.new }
{
    if slice.macroblocks.as_slice().is_empty() {
        put_run(maker, slice.header.is_p(), 0)
    } else {
        put_macroblocks(maker, row, slice)
    }
}

// the data of a slice with a macroblock
fn put_macroblocks(
    maker: &mut BitMaker,
    row: &mut Row,
    slice: &CodedSlice,
) -> Result<(), OutOfMemory>
    requires going { maker.old.failed ≡ false }
    requires slice { IsCodedSlice slice.now }
    requires row { AreInfoOf (own_start slice.now).width (earlier_mbs slice.now) row.old }
    ensures { Puts result
        (some_bits (own_start slice.now) (earlier_mbs slice.now) (length maker.old.bits)
        slice.now.macroblocks) maker.old maker.new }
{
    let first = first_context(slice);
    let mut qp = first.qp;
    let mut run = 0;
    'each: for mb in slice.macroblocks.as_slice() {
        let context = context_beside(&first, qp, row);
        put_macroblock(maker, &context, run, &mb.syntax)?;
        put_info(row, &mb.syntax);
        run = run_after(run, &mb.syntax);
        qp = mb.qp;
    }
    put_last_run(maker, first.is_p, run)?;
    Ok(())
}

// a macroblock, after so many skipped ones in a P slice; nothing yet of one that is itself skipped
fn put_macroblock(
    maker: &mut BitMaker,
    context: &Context,
    run: u32,
    syntax: &Syntax,
) -> Result<(), OutOfMemory>
    requires going { maker.old.failed ≡ false }
    requires run { run < 4294967295 }
    requires stands { CanStand context.now (syntax_of syntax.now) }
    ensures { Puts result (own_bits context.now (length maker.old.bits) run (syntax_of syntax.now))
        maker.old maker.new }
{
    if is_skip(syntax) {
        Ok(())
    } else {
        put_coded(maker, context, run, syntax)
    }
}

fn put_coded(
    maker: &mut BitMaker,
    context: &Context,
    run: u32,
    syntax: &Syntax,
) -> Result<(), OutOfMemory>
    requires going { maker.old.failed ≡ false }
    requires run { run < 4294967295 }
    requires stands { CanStand context.now (syntax_of syntax.now) }
    requires coded { is_skip (syntax_of syntax.now) ≡ false }
    ensures { Puts result
        (coded_bits context.now (length maker.old.bits) run (syntax_of syntax.now)) maker.old
        maker.new }
{
    put_run(maker, context.is_p, run)?;
    write_macroblock(maker, context, syntax)?;
    Ok(())
}

fn is_skip(syntax: &Syntax) -> bool
    ensures { result ≡ is_skip (syntax_of syntax.now) }
{
    match syntax {
        Syntax::PSkip => true,
        _ => false,
    }
}

// how many macroblocks are skipped up to this one
fn run_after(run: u32, syntax: &Syntax) -> u32
    requires { run < 4294967295 }
    ensures value { result ≡ run_after run (syntax_of syntax.now) }
    ensures few { result ≤ run + 1 }
{
    if is_skip(syntax) { run + 1 } else { 0 }
}

// mb_skip_run, in a P slice
fn put_run(maker: &mut BitMaker, p: bool, run: u32) -> Result<(), OutOfMemory>
    requires going { maker.old.failed ≡ false }
    requires run { run < 4294967295 }
    ensures { Puts result (run_bits p run) maker.old maker.new }
{
    if p {
        maker.ue(run)?;
    }
    Ok(())
}

// mb_skip_run of skipped macroblocks that end the data
fn put_last_run(maker: &mut BitMaker, p: bool, run: u32) -> Result<(), OutOfMemory>
    requires going { maker.old.failed ≡ false }
    requires run { run < 4294967295 }
    ensures { Puts result (last_run_bits_where p run) maker.old maker.new }
{
    put_run(maker, p && run > 0, run)?;
    Ok(())
}
