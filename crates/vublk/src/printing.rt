//! Puts what a command writes of a run into pieces, each record's part as it is made.
ghost use Rattle.std.specs.Prelude.{◌≡◌, ◌<◌, ◌≤◌, ◌-◌, ◌^◌, ◌++◌, [], List, ℕ, take, IfOk, OnOk, OnErr, IsErrOf};
ghost use Rattle.std.specs.List.{AllByRecursion};
ghost use Rattle.vub_base.specs.Causes.{Rose};
ghost use Rattle.vub_schedule.specs.Spelling.{IsEvent};
ghost use Rattle.vub_report.specs.declared.items.Record.{Record};
ghost use Rattle.vub_run.specs.LegalRuns.{IsLegalRun, EveryDrainServes};
ghost use Rattle.vub_world.specs.MachineAt.{StandsFor, StandsOn};
ghost use Rattle.vub_world.specs.World.{header_in, offers_in};
ghost use Rattle.vublk.specs.Flows.{Wrote, WrotePart, WroteBut};
ghost use Rattle.vublk.specs.Records.{head_of, piece_of, records_text};

use crate::pieces::Pieces;
use crate::words::Command;
use std::alloc::Global;
use vub_base::{Header1, Memory, Sink};
use vub_report::{Record, head_text, put_entries, put_record};
use vub_schedule::Event;
use vub_world::World;

/// Why a run stopped.
#[derive(Clone, Copy, Debug, PartialEq, Eq)]
pub enum PrintFault {
    /// Want of memory.
    Memory,
    /// The sink failed.
    Failed,
}

/// Writes a text, where it isn't empty.
pub fn put<O: Sink>(out: &mut O, text: &[u8]) -> Result<(), PrintFault>
    ensures ok { OnOk result (Wrote (O.held out.old) (O.held out.new) text.now) }
    ensures part { OnErr result (WrotePart (O.held out.old) (O.held out.new) text.now) }
    ensures later { O.faults out.old ≤ O.faults out.new }
    ensures failed { OnErr result (Rose (O.faults out.old) (O.faults out.new)) }
    ensures only { IsErrOf result PrintFault.Memory → ⊥ }
{
    if text.is_empty() {
        return Ok(());
    }
    out.write(text).map_err(|_| PrintFault::Failed)
}

/// What the command writes before all records.
fn head(alloc: Global, command: Command, header: &Header1) -> Result<Vec<u8>, Memory>
    ensures { IfOk result (λ v. v.items ≡ head_of command header.now) }
{
    match command {
        Command::Replay => head_text(alloc, header),
        Command::Entries => Ok(Vec::new(alloc)),
    }
}

/// Appends what the command writes of a record.
fn put_piece(
    alloc: Global,
    command: Command,
    text: &mut Vec<u8>,
    made: &Record,
) -> Result<(), Memory>
    ensures { OnOk result (text.new.items ≡ text.old.items ++ piece_of command made.now) }
{
    match command {
        Command::Replay => put_record(alloc, text, made),
        Command::Entries => put_entries(text, made),
    }
}

/// Puts what the command writes before all records. For want of memory nothing is put.
pub fn print_head<O: Sink>(
    alloc: Global,
    command: Command,
    header: &Header1,
    pieces: &mut Pieces,
    out: &mut O,
) -> Result<(), PrintFault>
    ensures ok { OnOk result (WroteBut (O.held out.old) (O.held out.new) pieces.new (pieces.old ++ head_of command header.now)) }
    ensures memory { IsErrOf result PrintFault.Memory → (O.held out.new ≡ O.held out.old) × (pieces.new ≡ pieces.old) }
    ensures part { IsErrOf result PrintFault.Failed → WrotePart (O.held out.old) (O.held out.new) (pieces.old ++ head_of command header.now) }
    ensures later { O.faults out.old ≤ O.faults out.new }
    ensures failed { IsErrOf result PrintFault.Failed → Rose (O.faults out.old) (O.faults out.new) }
{
    let text = head(alloc, command, header).map_err(|_| PrintFault::Memory)?;
    pieces.put(out, &text).map_err(|_| PrintFault::Failed)
}

/// Plays an event and puts what the command writes of its record. `text` is used for it. For want of
/// memory nothing is put.
fn print_next<O: Sink>(
    alloc: Global,
    command: Command,
    world: &mut World,
    event: &Event,
    text: &mut Vec<u8>,
    pieces: &mut Pieces,
    out: &mut O,
) -> Result<(), PrintFault>
    requires event { IsEvent (header_in world.old) event.now }
    requires more { offers_in world.old < 2 ^ 64 - 1 }
    ensures header { header_in world.new ≡ header_in world.old }
    ensures ok { OnOk result ((r : Record) × StandsOn world.old world.new event.now r × WroteBut (O.held out.old) (O.held out.new) pieces.new (pieces.old ++ piece_of command r)) }
    ensures memory { IsErrOf result PrintFault.Memory → (O.held out.new ≡ O.held out.old) × (pieces.new ≡ pieces.old) }
    ensures part { IsErrOf result PrintFault.Failed → (r : Record) × StandsOn world.old world.new event.now r × WrotePart (O.held out.old) (O.held out.new) (pieces.old ++ piece_of command r) }
    ensures later { O.faults out.old ≤ O.faults out.new }
    ensures failed { IsErrOf result PrintFault.Failed → Rose (O.faults out.old) (O.faults out.new) }
{
    let made = match world.event(event) {
        Ok(made) => made,
        Err(_) => return Err(PrintFault::Memory),
    };
    text.clear();
    put_piece(alloc, command, text, made).map_err(|_| PrintFault::Memory)?;
    pieces.put(out, text).map_err(|_| PrintFault::Failed)
}

/// Plays events in order in a new world, and puts what the command writes of each record as it is
/// made.
pub fn print_all<O: Sink>(
    alloc: Global,
    command: Command,
    world: &mut World,
    events: &[Event],
    pieces: &mut Pieces,
    out: &mut O,
) -> Result<(), PrintFault>
    requires events { AllByRecursion (IsEvent (header_in world.old)) events.now }
    requires new { StandsFor world.old [] [] }
    ensures ok { OnOk result ((rs : List Record) × IsLegalRun (header_in world.old) events.now rs × EveryDrainServes rs × WroteBut (O.held out.old) (O.held out.new) pieces.new (pieces.old ++ records_text command rs)) }
    ensures memory { IsErrOf result PrintFault.Memory →
        (n : ℕ) × (rs : List Record) × IsLegalRun (header_in world.old) (take n events.now) rs × EveryDrainServes rs × WroteBut (O.held out.old) (O.held out.new) pieces.new (pieces.old ++ records_text command rs) }
    ensures part { IsErrOf result PrintFault.Failed →
        (n : ℕ) × (rs : List Record) × IsLegalRun (header_in world.old) (take n events.now) rs × EveryDrainServes rs × WrotePart (O.held out.old) (O.held out.new) (pieces.old ++ records_text command rs) }
    ensures later { O.faults out.old ≤ O.faults out.new }
    ensures failed { IsErrOf result PrintFault.Failed → Rose (O.faults out.old) (O.faults out.new) }
{
    let mut text = Vec::new(alloc);
    for event in events {
        print_next(alloc, command, world, event, &mut text, pieces, out)?;
    }
    Ok(())
}
