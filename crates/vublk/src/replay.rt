//! The commands on a schedule: read it, run it and print what the command writes of the run.
ghost use Rattle.std.specs.Prelude.{◌≡◌, ◌+◌, ◌≤◌, ◌++◌, [], List, ℕ, length, IfOk};
ghost use Rattle.vub_base.specs.Causes.{Rose};
ghost use Rattle.vub_schedule.specs.Spelling.{IsSchedule};
ghost use Rattle.vub_world.specs.MachineAt.{StandsFor};
ghost use Rattle.vub_world.specs.World.{header_in};
ghost use Rattle.vublk.specs.Flows.{Wrote, WrotePart, TakesAtMost, input_limit};
ghost use Rattle.vublk.specs.Ends.{Prints, PlaysText, Replays, IsBadEnd, bad_line_text};

use crate::pieces::Pieces;
use crate::printing::{PrintFault, print_all, print_head, put};
use crate::reading::{ReadFault, read_all};
use crate::words::Command;
use std::alloc::Global;
use vub_base::{Memory, Sink, Source};
use vub_schedule::writing::{put_number, put_text};
use vub_schedule::{Schedule, ScheduleFault, parse_schedule};
use vub_world::World;

/// How a replay ended.
#[derive(Clone, Copy, Debug, PartialEq, Eq)]
pub enum End {
    /// All events were played, and all was printed.
    Done,
    /// Want of memory.
    Memory,
    /// The source failed.
    ReadFault,
    /// The sink failed.
    WriteFault,
    /// The first line outside the grammar has this number, from 1.
    BadLine(u64),
    /// The input has more than 16,777,216 bytes.
    TooLong,
}

/// Prints what the command writes of the records that the world makes, those before a want of memory
/// too.
fn print_world<O: Sink>(
    alloc: Global,
    command: Command,
    world: &mut World,
    schedule: &Schedule,
    pieces: &mut Pieces,
    out: &mut O,
) -> End
    requires schedule { IsSchedule schedule.now }
    requires header { header_in world.old ≡ schedule.now.header }
    requires new { StandsFor world.old [] [] }
    requires empty { pieces.old ≡ [] }
    ensures ends { Prints command schedule.now (O.held out.old) (O.held out.new) result }
    ensures later { O.faults out.old ≤ O.faults out.new }
    ensures failed { result ≡ End.WriteFault → Rose (O.faults out.old) (O.faults out.new) }
{
    match print_head(alloc, command, &schedule.header, pieces, out) {
        Ok(()) => {}
        Err(PrintFault::Memory) => return End::Memory,
        Err(PrintFault::Failed) => return End::WriteFault,
    }
    match print_all(alloc, command, world, schedule.events.items(), pieces, out) {
        Ok(()) => match pieces.flush(out) {
            Ok(()) => End::Done,
            Err(_) => End::WriteFault,
        },
        Err(PrintFault::Memory) => match pieces.flush(out) {
            Ok(()) => End::Memory,
            Err(_) => End::WriteFault,
        },
        Err(PrintFault::Failed) => End::WriteFault,
    }
}

/// Runs a schedule and prints what the command writes of the run.
fn print_run<O: Sink>(alloc: Global, command: Command, schedule: &Schedule, out: &mut O) -> End
    requires { IsSchedule schedule.now }
    ensures ends { Prints command schedule.now (O.held out.old) (O.held out.new) result }
    ensures later { O.faults out.old ≤ O.faults out.new }
    ensures failed { result ≡ End.WriteFault → Rose (O.faults out.old) (O.faults out.new) }
{
    let Ok(mut pieces) = Pieces::new(alloc) else {
        return End::Memory;
    };
    match World::new(alloc, &schedule.header) {
        Ok(mut world) => print_world(alloc, command, &mut world, schedule, &mut pieces, out),
        Err(Memory) => End::Memory,
    }
}

fn bad_line(alloc: Global, line: u64) -> Result<Vec<u8>, Memory>
    ensures { IfOk result (λ v. v.items ≡ bad_line_text line) }
{
    let mut text = Vec::new(alloc);
    put_text(&mut text, b"bad line ")?;
    put_number(&mut text, line)?;
    put_text(&mut text, b"\n")?;
    Ok(text)
}

/// Prints the number of a bad line.
fn print_bad<O: Sink>(alloc: Global, line: u64, out: &mut O) -> End
    ensures done { result ≡ End.BadLine line → Wrote (O.held out.old) (O.held out.new) (bad_line_text line) }
    ensures part { result ≡ End.WriteFault → WrotePart (O.held out.old) (O.held out.new) (bad_line_text line) }
    ensures memory { result ≡ End.Memory → O.held out.new ≡ O.held out.old }
    ensures later { O.faults out.old ≤ O.faults out.new }
    ensures failed { result ≡ End.WriteFault → Rose (O.faults out.old) (O.faults out.new) }
    ensures only { IsBadEnd line result }
{
    let Ok(text) = bad_line(alloc, line) else {
        return End::Memory;
    };
    if put(out, &text).is_err() {
        return End::WriteFault;
    }
    End::BadLine(line)
}

/// Plays a text.
fn play<O: Sink>(alloc: Global, command: Command, text: &[u8], out: &mut O) -> End
    ensures ends { PlaysText command text.now (O.held out.old) (O.held out.new) result }
    ensures later { O.faults out.old ≤ O.faults out.new }
    ensures failed { result ≡ End.WriteFault → Rose (O.faults out.old) (O.faults out.new) }
{
    match parse_schedule(alloc, text) {
        Ok(schedule) => print_run(alloc, command, &schedule, out),
        Err(ScheduleFault::BadLine(line)) => print_bad(alloc, line, out),
        Err(ScheduleFault::Memory) => End::Memory,
    }
}

/// Reads a text and plays it.
pub fn replay<I: Source, O: Sink>(
    alloc: Global,
    command: Command,
    input: &mut I,
    out: &mut O,
) -> End
    ensures ends { Replays command (I.left input.old) (I.left input.new) (O.held out.old) (O.held out.new) result }
    ensures read { result ≡ End.ReadFault → Rose (I.faults input.old) (I.faults input.new) }
    ensures write { result ≡ End.WriteFault → Rose (O.faults out.old) (O.faults out.new) }
    ensures taken { TakesAtMost (input_limit + 1) (I.left input.old) (I.left input.new) }
{
    match read_all(alloc, input) {
        Ok(text) => play(alloc, command, &text, out),
        Err(ReadFault::Memory) => End::Memory,
        Err(ReadFault::Failed) => End::ReadFault,
        Err(ReadFault::TooLong) => End::TooLong,
    }
}
