//! What a slice header says of reference pictures: how its list is modified, and how pictures are
//! marked.

ghost use Rattle.std.specs.Prelude.{Bool};
ghost use Rattle.avc_make_headers.specs.HeaderWriting.{IsMarkingOf, IsModification, IsOperation};
ghost use Rattle.avc_make_headers.specs.HeaderWriting.{marking_bits, modification_bits};
ghost use Rattle.avc_make_headers.specs.HeaderWriting.{modifications_bits, operation_bits};
ghost use Rattle.avc_make_headers.specs.VuiWriting.{Each, IsUeValue};
ghost use Rattle.avc_rbsp.specs.Made.{Puts};
ghost use Rattle.avc_types.specs.declared.references.Marking.TheVariants.{Adaptive, Idr};
ghost use Rattle.avc_types.specs.declared.references.Operation.TheVariants.{AssignLongTerm};

use crate::part::{Part, put_each, put_two};
use avc_rbsp::BitMaker;
use avc_types::{Marking, Modification, Operation, OutOfMemory, UpTo};

// one entry (7.3.3.1)
impl Part for Modification {
    ghost bits = { modification_bits };

    ghost fits = { IsModification 65536 };

    fn put(&self, maker: &mut BitMaker) -> Result<(), OutOfMemory> {
        match *self {
            Modification::Subtract(number) => put_two(maker, 0, number),
            Modification::Add(number) => put_two(maker, 1, number),
            Modification::LongTerm(number) => put_two(maker, 2, number),
        }
    }
}

// the entries, up to modification_of_pic_nums_idc 3
impl Part for UpTo<Modification, 16> {
    ghost bits = { modifications_bits };

    ghost fits = { Each (IsModification 65536) };

    fn put(&self, maker: &mut BitMaker) -> Result<(), OutOfMemory> {
        put_each(maker, self.as_slice())?;
        maker.ue(3)?;
        Ok(())
    }
}

// one operation (7.3.3.3)
impl Part for Operation {
    ghost bits = { operation_bits };

    ghost fits = { IsOperation };

    fn put(&self, maker: &mut BitMaker) -> Result<(), OutOfMemory> {
        match *self {
            Operation::UnmarkShortTerm(number) => put_two(maker, 1, number),
            Operation::UnmarkLongTerm(number) => put_two(maker, 2, number),
            Operation::AssignLongTerm(number, index) => put_assignment(maker, number, index),
            Operation::MaxLongTermFrameIdx(number) => put_two(maker, 4, number),
            Operation::UnmarkAll => maker.ue(5),
            Operation::CurrentToLongTerm(index) => put_two(maker, 6, index),
        }
    }
}

// the operation that gives a picture a long-term frame index
fn put_assignment(maker: &mut BitMaker, number: u32, index: u32) -> Result<(), OutOfMemory>
    requires number { IsUeValue number }
    requires index { IsUeValue index }
    ensures { Puts result (operation_bits (AssignLongTerm number index)) maker.old maker.new }
{
    maker.ue(3)?;
    maker.ue(number)?;
    maker.ue(index)?;
    Ok(())
}

// dec_ref_pic_marking (7.3.3.3)
impl Part for Marking {
    ghost bits = { marking_bits };

    ghost fits = { λ marking. (idr : Bool) × IsMarkingOf idr marking };

    fn put(&self, maker: &mut BitMaker) -> Result<(), OutOfMemory> {
        match self {
            Marking::Idr {
                no_output_of_prior_pics_flag,
                long_term_reference_flag,
            } => put_idr(
                maker,
                *no_output_of_prior_pics_flag,
                *long_term_reference_flag,
            ),
            Marking::SlidingWindow => maker.flag(false),
            Marking::Adaptive(operations) => put_operations(maker, operations),
        }
    }
}

// the two flags of an IDR picture
fn put_idr(maker: &mut BitMaker, no_output: bool, long_term: bool) -> Result<(), OutOfMemory>
    ensures { Puts result (marking_bits (Idr no_output long_term)) maker.old maker.new }
{
    maker.flag(no_output)?;
    maker.flag(long_term)?;
    Ok(())
}

// the flag that they are there, and the operations
fn put_operations(maker: &mut BitMaker, operations: &UpTo<Operation, 64>) -> Result<(), OutOfMemory>
    requires { Each IsOperation operations.now }
    ensures { Puts result (marking_bits (Adaptive operations.now)) maker.old maker.new }
{
    maker.flag(true)?;
    put_each(maker, operations.as_slice())?;
    // the operation that ends the list
    maker.ue(0)?;
    Ok(())
}
