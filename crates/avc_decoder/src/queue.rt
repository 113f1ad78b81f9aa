//! Events that come of a unit, before they are handed on.

ghost use Rattle.std.specs.Prelude.{◌≡◌, [], ◌∷◌, ◌++◌, map, OnOk, slice_get};
ghost use Rattle.avc_decoder.specs.Events.{pictures};
ghost use Rattle.avc_decoder.specs.QueueState.{after_queue_take, with_events};
ghost use Rattle.avc_decoder.specs.declared.event.Event.TheVariants.{Refused};

use crate::event::Event;
use avc_plane::SharedPicture;
use avc_types::{Fault, History, OutOfMemory};
use std::alloc::Global;
use std::collections::VecDeque;
use std::marker::Model;

/// The events that were not passed on. A contract sees all events so far, and how many of them
/// were.
#[derive(Drop)]
pub struct Queue {
    waiting: VecDeque<Event<SharedPicture>>,
    given: History<Event<SharedPicture>>,
}

impl Model for Queue {
    ghost use Rattle.std.specs.Prelude.{◌++◌, length};
    ghost use Rattle.avc_decoder.specs.QueueState.{QueueState};

    ghost Value = { QueueState };

    ghost view = { λ q. record {
      events = q.given.items ++ q.waiting.items;
      taken = length q.given.items;
    } };
}

impl Queue {
    /// With no event.
    pub fn new(alloc: Global) -> Queue
        ensures { result ≡ record { events = []; taken = 0 } }
    {
        Queue {
            waiting: VecDeque::new(alloc),
            given: History::new(),
        }
    }

    /// Adds pictures, in this order.
    pub fn show(&mut self, out: Vec<SharedPicture>) -> Result<(), OutOfMemory>
        ensures { OnOk result (self.new ≡ with_events (pictures out.items) self.old) }
    {
        push_all(&mut self.waiting, out)
    }

    /// Adds a refusal.
    pub fn refuse(&mut self, unit: u64, fault: Fault) -> Result<(), OutOfMemory>
        ensures { OnOk result (self.new ≡ with_events (Refused unit fault ∷ []) self.old) }
    {
        self.waiting.push_back(Event::Refused { unit, fault })?;
        Ok(())
    }

    /// Takes the first event, if there is one.
    pub fn take(&mut self) -> Option<Event<SharedPicture>>
        ensures event { result ≡ slice_get self.old.events self.old.taken }
        ensures taken { self.new ≡ after_queue_take result self.old }
    {
        let event = self.waiting.pop_front()?;
        self.given = self.given.with(&event);
        Some(event)
    }
}

fn push_all(
    waiting: &mut VecDeque<Event<SharedPicture>>,
    out: Vec<SharedPicture>,
) -> Result<(), OutOfMemory>
    ensures { OnOk result (waiting.new.items ≡ waiting.old.items ++ pictures out.items) }
{
    let mut out = VecDeque::from_vec(out);
    while let Some(picture) = out.pop_front() {
        waiting.push_back(Event::Picture(picture))?;
    }
    Ok(())
}
