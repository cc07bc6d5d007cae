//! Schedules from their text.
ghost use Rattle.std.specs.Prelude.{◌≡◌, ◌≤◌, ◌++◌, length, IfOk, IfErr, MatchResult};
ghost use Rattle.std.specs.List.{flat_map, AllByRecursion};
ghost use Rattle.vub_schedule.specs.declared.types.Schedule.{Schedule};
ghost use Rattle.vub_schedule.specs.Spelling.{spelling, event_line, IsHeader, IsEvent, IsSchedule};
ghost use Rattle.vub_schedule.specs.Faults.{Causes, LinesCause};

use crate::reading::{event_at, header_at};
use crate::{Event, Events, Schedule, ScheduleFault};
use std::alloc::Global;
use vub_base::Header1;

// The shortest lines are `boot`, `join` and `kill` with their newlines.
const SHORTEST_LINE: usize = 5;

// How many events to make room for: as many as there are newlines, but no more than fit.
fn most_lines(bytes: &[u8]) -> usize
    ensures { result ≤ length bytes.now }
{
    let newlines = bytes.iter().filter(|byte| **byte == b'\n').count();
    newlines.min(bytes.len() / SHORTEST_LINE)
}

/// The events of the lines behind the header.
fn events_of(alloc: Global, header: &Header1, bytes: &[u8]) -> Result<Vec<Event>, ScheduleFault>
    requires { IsHeader header.now }
    ensures ok { IfOk result (λ v. AllByRecursion (IsEvent header.now) v.items × (bytes.now ≡ flat_map event_line v.items)) }
    ensures err { IfErr result (λ e. LinesCause header.now bytes.now e) }
{
    let mut events = Vec::with_capacity(alloc, most_lines(bytes)).map_err(
        |_| ScheduleFault::Memory,
    )?;
    let mut rest = bytes;
    while !rest.is_empty() {
        match event_at(header, rest) {
            None => return Err(ScheduleFault::BadLine(events.len() as u64 + 2)),
            Some((event, after)) => {
                events.push(event).map_err(|_| ScheduleFault::Memory)?;
                rest = after;
            }
        }
    }
    Ok(events)
}

/// The header and the events of all lines.
fn schedule_of(alloc: Global, bytes: &[u8]) -> Result<Schedule, ScheduleFault>
    ensures found { IfOk result (λ s. IsSchedule s × (bytes.now ≡ spelling s)) }
    ensures fault { IfErr result (λ e. Causes bytes.now e) }
{
    let Some((header, rest)) = header_at(bytes) else {
        return Err(ScheduleFault::BadLine(1));
    };
    match events_of(alloc, &header, rest) {
        Ok(events) => Ok(Schedule {
            header,
            events: Events::new(events),
        }),
        Err(fault) => Err(fault),
    }
}

/// The schedule that the bytes spell, all of them.
///
/// `BadLine` comes exactly where they spell none: it has the number of the first line outside the
/// grammar, from 1. What stands behind the last newline counts as a line. `Memory` is want of
/// memory.
pub fn parse_schedule(alloc: Global, bytes: &[u8]) -> Result<Schedule, ScheduleFault>
    // What is read is of the grammar, and the text is its spelling.
    ensures found { IfOk result (λ s. IsSchedule s × (bytes.now ≡ spelling s)) }
    // The spelling of a schedule of the grammar is read as that schedule, but for want of memory.
    ensures only { (s : Schedule) → IsSchedule s → bytes.now ≡ spelling s → MatchResult result (λ t. t ≡ s) (λ e. e ≡ ScheduleFault.Memory) }
    // A bad line is the first line outside the grammar.
    ensures fault { IfErr result (λ e. Causes bytes.now e) }
{
    schedule_of(alloc, bytes)
}
