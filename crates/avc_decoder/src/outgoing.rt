//! Events that wait for the caller, in the kind of picture that is handed out.

ghost use Rattle.std.specs.Prelude.{◌≡◌, [], ◌∷◌, OnOk, slice_get};
ghost use Rattle.avc_decoder.specs.QueueState.{after_queue_take, passed_on, with_events, IsBehind};
ghost use Rattle.avc_decoder.specs.SeenEvents.{seen_if_any};

use crate::event::Event;
use crate::queue::Queue;
use avc_plane::{OutputPicture, SharedPicture};
use avc_types::{History, OutOfMemory};
use std::alloc::Global;
use std::collections::VecDeque;
use std::marker::Model;

/// The events that the caller has not taken, with the kind of picture that is handed out, so that
/// taking one wants no memory. A contract sees all events so far, and how many of them were taken.
#[derive(Drop)]
pub struct Outgoing<P: OutputPicture> {
    waiting: VecDeque<Event<P>>,
    given: History<Event<P>>,
}

impl<P: OutputPicture> Model for Outgoing<P> {
    ghost use Rattle.std.specs.Prelude.{◌++◌, length, map};
    ghost use Rattle.avc_decoder.specs.QueueState.{QueueState};
    ghost use Rattle.avc_decoder.specs.SeenEvents.{seen_event};

    ghost Value = { QueueState };

    ghost view = { λ q. record {
      events = map (seen_event P.picture) (q.given.items ++ q.waiting.items);
      taken = length q.given.items;
    } };
}

impl<P: OutputPicture> Outgoing<P> {
    /// With no event.
    pub fn new(alloc: Global) -> Self
        ensures { result ≡ record { events = []; taken = 0 } }
    {
        Outgoing {
            waiting: VecDeque::new(alloc),
            given: History::new(),
        }
    }

    /// Adds an event. Its picture becomes one of the kind that is handed out.
    fn put(&mut self, alloc: Global, event: Event<SharedPicture>) -> Result<(), OutOfMemory>
        ensures { OnOk result (self.new ≡ with_events (event ∷ []) self.old) }
    {
        let event = match event {
            Event::Picture(shared) => Event::Picture(P::of_shared(alloc, shared)?),
            Event::Refused { unit, fault } => Event::Refused { unit, fault },
        };
        self.waiting.push_back(event)?;
        Ok(())
    }

    /// Adds the events of this queue that were not passed on.
    pub fn put_all(&mut self, alloc: Global, queue: &mut Queue) -> Result<(), OutOfMemory>
        requires { IsBehind self.old queue.old }
        ensures events { OnOk result (self.new ≡ record self.old { events = queue.old.events }) }
        ensures queue { OnOk result (queue.new ≡ passed_on queue.old) }
    {
        while let Some(event) = queue.take() {
            self.put(alloc, event)?;
        }
        Ok(())
    }

    /// Takes the first event, if there is one.
    pub fn take(&mut self) -> Option<Event<P>>
        ensures event { seen_if_any P.picture result ≡ slice_get self.old.events self.old.taken }
        ensures taken { self.new ≡ after_queue_take (seen_if_any P.picture result) self.old }
    {
        let event = self.waiting.pop_front()?;
        self.given = self.given.with(&event);
        Some(event)
    }
}
