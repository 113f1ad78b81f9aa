//! A slice on the heap, and the memory of one that is over.

ghost use Rattle.std.specs.Prelude.{◌≡◌, ◌==◌, ◌%◌, IfOk};
ghost use Rattle.avc_params.specs.Tables.{sets_after};
ghost use Rattle.avc_slice.specs.Filling.{filled};
ghost use Rattle.avc_slice.specs.Header.{is_idr};
ghost use Rattle.avc_slice.specs.Reading.{header_in_rbsp};
ghost use Rattle.avc_slice.specs.Within.{IsReadUnder};

use avc_params::ParamTable;
use avc_slice::{Header, Slice, put_header};
use avc_types::{Bytes, Fault, OutOfMemory};
use std::alloc::Global;
use std::marker::Model;
use std::mem;

/// A slice on the heap, so that a step is small. A contract sees the slice.
#[derive(Drop)]
pub struct HeapSlice {
    slice: Box<Slice>,
}

impl Model for HeapSlice {
    ghost use Rattle.avc_slice.specs.declared.slice.Slice.{Slice as StreamSlice};

    ghost Value = { StreamSlice };

    ghost view = { λ h. h.slice.value };
}

impl HeapSlice {
    /// A slice of this unit and RBSP, in the place of one that is over, where there is such a one.
    /// Its header is any.
    pub(crate) fn new(
        alloc: Global,
        place: Option<HeapSlice>,
        unit: u64,
        rbsp: Bytes,
    ) -> Result<HeapSlice, OutOfMemory>
        ensures unit { IfOk result (λ h. h.unit ≡ unit) }
        ensures rbsp { IfOk result (λ h. h.rbsp ≡ rbsp) }
    {
        match place {
            Some(mut place) => {
                place.begin(unit, rbsp);
                Ok(place)
            }
            None => {
                let slice = Slice {
                    unit,
                    header: Header::empty(),
                    rbsp,
                };
                let slice = Box::new(alloc, slice)?;
                Ok(HeapSlice { slice })
            }
        }
    }

    /// Takes the bytes of its RBSP, which is over.
    pub(crate) fn take_rbsp(&mut self, alloc: Global) -> Vec<u8> {
        let slice = self.slice.as_mut();
        mem::replace(&mut slice.rbsp, Bytes::from_vec(Vec::new(alloc))).into_vec()
    }

    /// Gives it the bytes of an RBSP that is over, for another one.
    pub(crate) fn take_back(&mut self, rbsp: Bytes) {
        self.slice.as_mut().rbsp = rbsp;
    }

    // another slice in its place
    fn begin(&mut self, unit: u64, rbsp: Bytes)
        ensures unit { self.new.unit ≡ unit }
        ensures rbsp { self.new.rbsp ≡ rbsp }
    {
        let slice = self.slice.as_mut();
        slice.unit = unit;
        slice.rbsp = rbsp;
    }

    /// Reads the header, by the unit's first byte and under the parameter sets in force.
    pub(crate) fn read_header(&mut self, header: u8, table: &ParamTable) -> Result<(), Fault>
        ensures unit { self.new.unit ≡ self.old.unit }
        ensures rbsp { self.new.rbsp ≡ self.old.rbsp }
        ensures header { filled result self.new.header
            ≡ header_in_rbsp header (sets_after table.now) self.old.rbsp }
        ensures kept { IfOk result
            (λ _. IsReadUnder (sets_after table.now) self.old.rbsp self.new.header) }
        ensures idr { IfOk result (λ _. is_idr self.new.header ≡ (header % 32 == 5)) }
    {
        let slice = self.slice.as_mut();
        put_header(header, slice.rbsp.as_slice(), table, &mut slice.header)
    }

    /// The slice itself.
    pub fn get(&self) -> &Slice
        ensures { result.now ≡ self.now }
    {
        self.slice.as_ref()
    }
}
