//! Units, and what each does to the open picture.

ghost use Rattle.std.specs.Prelude.{◌≡◌, false, true, IfOk, OnErr, OnOk};
ghost use Rattle.avc_params.specs.Tables.{sets_after};
ghost use Rattle.avc_units.specs.GrouperState.{after_fault, begins_a_picture, after_step};
ghost use Rattle.avc_units.specs.GrouperState.{last_header_after};
ghost use Rattle.avc_units.specs.GrouperState.{open_picture_of, new_grouper, IfSlice, IsSliceUnder};
ghost use Rattle.avc_units.specs.Grouping.{step, MayWantMemory};

use crate::heap_slice::HeapSlice;
use crate::last_header::LastHeader;
use crate::step::{Next, Step};
use crate::step_cases::UnitContext;
use crate::units::step_of;
use avc_annexb::Unit;
use avc_params::ParamTable;
use avc_types::{OutOfMemory, WantOfMemory};
use std::alloc::Global;
use std::marker::Model;

/// Says of each unit of a stream what it does to the open picture, and keeps the parameter sets.
#[derive(Drop)]
pub struct Grouper {
    alloc: Global,
    table: ParamTable,
    running: bool,
    // the header of the open picture's last slice
    last: Option<LastHeader>,
    // whether the last unit begins a picture also where closing was a fault
    restarts: bool,
    failed: WantOfMemory,
    // a slice that is over, in whose place the next one is read
    over: Option<HeapSlice>,
}

impl Model for Grouper {
    ghost use Rattle.avc_units.specs.GrouperState.{GrouperState};

    ghost Value = { GrouperState };

    ghost view = { λ g. record {
      sets = g.table;
      running = g.running;
      last = g.last;
      restarts = g.restarts;
      failed = g.failed;
    } };
}

fn begins_a_picture(next: &Next) -> bool
    ensures { result ≡ begins_a_picture next.now }
{
    match next {
        Next::Begins(_) => true,
        _ => false,
    }
}

/// Keeps the header of the open picture's last slice after a step.
fn keep_last_header(last: &mut Option<LastHeader>, closes: bool, next: &Next)
    ensures { last.new ≡ last_header_after closes next.now last.old }
{
    match next {
        Next::Begins(slice) | Next::Continues(slice) => *last = Some(LastHeader::new(
            &slice.get().header,
        )),
        _ if closes => *last = None,
        _ => {}
    }
}

impl Grouper {
    /// At the start of a stream: it waits, with no parameter set.
    pub fn new(alloc: Global) -> Grouper
        ensures { result ≡ new_grouper }
    {
        Grouper {
            alloc,
            table: ParamTable::new(alloc),
            running: false,
            last: None,
            restarts: false,
            failed: WantOfMemory::none(),
            over: None,
        }
    }

    /// What the next unit does, where `full` says whether the open picture, if there is one, is
    /// full. The answer is carried out, or `fault` is called. After want of memory it answers so
    /// from then on.
    pub fn unit(&mut self, unit: &Unit, full: bool) -> Result<Step, OutOfMemory>
        ensures step { IfOk result (λ s. s
            ≡ step (sets_after self.old.sets) self.old.running
            (open_picture_of full self.old.last) unit.now) }
        ensures state { IfOk result (λ s. self.new ≡ after_step self.old unit.now s) }
        ensures slice { IfOk result
            (λ s. IfSlice s.next (IsSliceUnder (sets_after self.new.sets))) }
        ensures sets { IfOk result (λ s. IfSlice s.next (λ _. self.new.sets ≡ self.old.sets)) }
        ensures going { OnOk result (self.old.failed ≡ false) }
        ensures err { OnErr result (self.new.failed ≡ true) }
        ensures memory { self.old.failed ≡ false → OnErr result (MayWantMemory unit.now) }
    {
        self.failed.check()?;
        let context = UnitContext {
            running: self.running,
            last: self.last.as_ref(),
            full,
        };
        let step = step_of(self.alloc, &mut self.table, &mut self.over, context, unit);
        let step = self.failed.keep(step)?;
        keep_last_header(&mut self.last, step.closes, &step.next);
        self.running = self.running | begins_a_picture(&step.next);
        self.restarts = step.even_after_fault & begins_a_picture(&step.next);
        Ok(step)
    }

    /// A picture had a fault. `closing` says that it was found at the closing that the last step
    /// asked for.
    pub fn fault(&mut self, closing: bool)
        ensures { self.new ≡ after_fault closing self.old }
    {
        if self.restarts & closing {
            return;
        }
        self.running = false;
        self.last = None;
        self.restarts = false;
    }

    /// A slice that a step handed out is over: the next one is read in its place, so that for most
    /// slices no memory is taken.
    pub fn take_back(&mut self, slice: HeapSlice)
        ensures { self.new ≡ self.old }
    {
        self.over = Some(slice);
    }

    /// The parameter sets in force.
    pub fn table(&self) -> &ParamTable
        ensures { result.now ≡ self.now.sets }
    {
        &self.table
    }
}
