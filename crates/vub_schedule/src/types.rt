ghost use Rattle.std.specs.Prelude.{◌≡◌, IfOk};

use std::marker::Model;
use vub_base::{Ask, Header1, Memory, Shape};

/// One step of a schedule, a line of its text. The first number of an event is that of its queue,
/// from 0.
#[derive(Clone, Debug, Drop, PartialEq, Eq)]
pub enum Event {
    /// `ask`: gives the driver a request, whose descriptors are placed by the shape.
    Ask(u16, Shape, Ask),
    /// `guest`: the driver's next stores, as many as the second number says, or all that are left.
    Guest(u16, u16),
    /// `collect`: the driver takes the next element that the device has shown it in the used ring
    /// (VIRTIO 1.2, 2.7.8).
    Collect(u16),
    /// `boot`: a life of the device begins, and with it the front end's script of messages.
    Boot,
    /// `join`: hands on all messages of the script.
    Join,
    /// `start`: a step of the queue's start.
    Start(u16),
    /// `fetch`: a step of a fetch, which accepts the request that waits longest.
    Fetch(u16),
    /// `work`: the next step of the request in that place among the accepted ones that aren't
    /// completed, from 0.
    Work(u16, u16),
    /// `publish`: a step of a publication, of at most so many of the completed requests if it begins
    /// one.
    Publish(u16, u16),
    /// `turn`: up to so many steps, each the first that is ready of start, the phase under way, fetch,
    /// work on the oldest request and publication of all.
    Turn(u16, u16),
    /// `drain`: the device serves the queue until nothing waits there.
    Drain(u16),
    /// `kill`: the life of the device ends at once, whatever it is doing.
    Kill,
}

impl Event {
    /// The same event once more.
    pub fn copy(&self) -> Result<Event, Memory>
        ensures { IfOk result (λ e. e ≡ self.now) }
    {
        self.clone().map_err(|_| Memory)
    }
}

/// A list of events. Contracts see it as that list.
#[derive(Debug, Drop)]
pub struct Events {
    list: Vec<Event>,
}

impl Model for Events {
    ghost use Rattle.std.specs.Prelude.{List};
    ghost use Rattle.vub_schedule.specs.declared.types.Event.{Event};

    ghost Value = { List Event };

    ghost view = { λ e. e.list.items };
}

impl Events {
    /// The events of a vector. Takes no memory.
    pub fn new(list: Vec<Event>) -> Events
        ensures { result ≡ list.items }
    {
        Events { list }
    }

    /// The events, in order.
    pub fn items(&self) -> &[Event]
        ensures { result.now ≡ self.now }
    {
        &self.list
    }
}

/// What is set up, the first line of the text, and the events that follow it.
#[derive(Debug, Drop)]
pub struct Schedule {
    pub header: Header1,
    pub events: Events,
}
