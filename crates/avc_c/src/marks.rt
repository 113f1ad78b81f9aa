//! The caller's own values of units, as times of packets.

ghost use Rattle.std.specs.Prelude.{◌≡◌, []};
ghost use Rattle.avc_c.specs.Marks.{mark_of, value_of, with_mark, without_newest_of};

use arrayvec::ArrayVec;
use std::marker::Model;

/// A value of all units from one on, up to that of the next mark.
#[derive(Clone, Copy, Default)]
pub struct Mark {
    /// The first unit that has it, counted from 0.
    pub unit: u64,
    pub value: u64,
}

pub(crate) const MOST: usize = 1_024;

/// The marks of a stream, as many of the newest as there is room for. The newest is the first.
#[derive(Drop)]
pub struct Marks {
    marks: ArrayVec<Mark, MOST>,
}

impl Model for Marks {
    ghost use Rattle.std.specs.Prelude.{List};
    ghost use Rattle.avc_c.specs.declared.marks.Mark.{Mark};

    ghost Value = { List Mark };

    ghost view = { λ m. m.marks.items };
}

impl Marks {
    pub(crate) fn none() -> Marks
        ensures { result ≡ [] }
    {
        Marks {
            marks: ArrayVec::new(),
        }
    }

    /// Makes a mark. That of the same unit goes, and where there are too many the oldest.
    pub(crate) fn add(&mut self, mark: Mark)
        ensures { self.new ≡ with_mark mark self.old }
    {
        self.let_newest_go(mark.unit);
        self.marks.truncate(MOST - 1);
        self.marks.insert(0, mark);
    }

    // where it is that of this unit
    fn let_newest_go(&mut self, unit: u64)
        ensures { self.new ≡ without_newest_of unit self.old }
    {
        match self.marks.as_slice() {
            [newest, ..] if newest.unit == unit => {
                self.marks.remove(0);
            }
            _ => {}
        }
    }

    /// The newest mark at a unit or before it.
    pub(crate) fn mark_of(&self, unit: u64) -> Option<Mark>
        ensures { result ≡ mark_of self.now unit }
    {
        for mark in self.marks.as_slice() {
            if mark.unit <= unit {
                return Some(*mark);
            }
        }
        None
    }

    /// The value of a unit; 0 where no mark was made before it.
    pub(crate) fn value_of(&self, unit: u64) -> u64
        ensures { result ≡ value_of self.now unit }
    {
        match self.mark_of(unit) {
            Some(mark) => mark.value,
            None => 0,
        }
    }
}
