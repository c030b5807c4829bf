// The events of a pass, in room that is taken once.
ghost use Rattle.std.specs.Prelude.{◌≡◌, ◌≤◌, ◌++◌, ◌∷◌, [], IfOk, length, take};
ghost use Rattle.std.specs.Option.{option_to_list};
ghost use Rattle.trace_watch.specs.declared.event.Event.{Event};

use crate::event::Event;
use std::alloc::{AllocError, Global};
use std::marker::Model;

// The most events that are kept.
const MOST_EVENTS: usize = 1_000_000;

/// The first 1,000,000 events of a pass, in order.
#[derive(Drop)]
pub struct EventList {
    items: Vec<Event>,
}

impl Model for EventList {
    ghost use Rattle.std.specs.Prelude.{List, vec_capacity, vec_len, ◌≤◌};
    ghost use Rattle.trace_watch.specs.declared.event.Event.{Event};

    ghost Value = { List Event };

    ghost view = { λ list. list.items.items };

    ghost invariant = { λ list. (vec_len list.items ≤ 1000000) × (1000000 ≤ vec_capacity list.items) };
}

impl EventList {
    /// No event, and room for all.
    pub(crate) fn with_room(alloc: Global) -> Result<EventList, AllocError>
        ensures { IfOk result (λ list. list ≡ []) }
    {
        Ok(EventList {
            items: Vec::with_capacity(alloc, MOST_EVENTS)?,
        })
    }

    /// Takes all events away.
    pub(crate) fn clear(&mut self)
        ensures { self.new ≡ [] }
    {
        self.items.clear();
    }

    // Puts an event at the end, while there is room.
    #[tactic(auto, using(crate::proofs::MoreListed::with_room, crate::proofs::MoreListed::without_room))]
    fn push(&mut self, event: Event)
        ensures { self.new ≡ take 1000000 (self.old ++ event ∷ []) }
    {
        if self.items.len() < MOST_EVENTS {
            let pushed = self.items.push(event);
            prove!(pushed.is_ok());
        }
    }

    // There are no more than that. This is only said.
    fn has_few(&self)
        ensures { length self.now ≤ 1000000 }
    {
        let _events = self.items.len();
    }

    /// Puts an event at the end, if there is one, while there is room.
    #[tactic(auto, using(crate::proofs::MoreListed::none_more))]
    pub(crate) fn put(&mut self, event: Option<Event>)
        ensures { self.new ≡ take 1000000 (self.old ++ option_to_list event) }
    {
        self.has_few();
        match event {
            Some(event) => self.push(event),
            None => {}
        }
    }

    /// The events.
    pub(crate) fn as_slice(&self) -> &[Event]
        ensures { result.now ≡ self.now }
    {
        self.items.as_slice()
    }
}
