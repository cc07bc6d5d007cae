use vub_wire::{Reply, ReplyBody};

/// What is sent back for a message.
#[derive(Clone, Debug, Drop, PartialEq, Eq)]
pub enum Handled {
    /// Nothing.
    Silent,
    /// The reply that the request has of its own.
    Reply(Reply),
    /// The acknowledgement that was asked for: 0 where the request was carried out, else 1.
    Ack(u64),
    /// The message stops this queue, which is to be drained and stopped first. Nothing was changed.
    Drain(u16),
}

/// Why a message was refused.
#[derive(Clone, Copy, Debug, PartialEq, Eq)]
pub enum Refusal {
    /// The row of this request refuses it.
    Row(u32),
    /// The request would make this ring ready, which can't run.
    BadRing(u32, u16),
}

/// Why a message couldn't be handled. The session is as before, but for the names taken.
#[derive(Clone, Copy, Debug, PartialEq, Eq)]
pub enum SessionFault {
    /// The message takes more names than are left, or looks up one that means no space.
    NoName,
    /// A fault of shared memory.
    Shared,
    /// A fault of the bell.
    Bell,
    /// Want of memory.
    Memory,
}

/// What a row of the table answers.
#[derive(Clone, Debug, Drop, PartialEq, Eq)]
pub(crate) struct Row {
    /// Why the request was refused, if it was.
    pub cause: Option<Refusal>,
    /// Its own reply, if it has one.
    pub reply: Option<ReplyBody>,
}
