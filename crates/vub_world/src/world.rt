ghost use Rattle.std.specs.Prelude.{◌≡◌, ◌<◌, ◌-◌, ◌^◌, [], IfOk, option_map};
ghost use Rattle.vub_schedule.specs.Spelling.{IsHeader, IsEvent};

use crate::machine::Machine;
use std::alloc::Global;
use std::marker::Model;
use vub_backend::Backend;
use vub_base::standard::SECTOR_SIZE;
use vub_base::{Header1, Memory};
use vub_report::Record;
use vub_schedule::Event;

/// A guest with its driver, the device and its disk, between two events of a schedule. It stands
/// for the events that it played, with their records.
#[derive(Drop)]
pub struct World {
    machine: Machine,
}

impl Model for World {
    ghost use Rattle.vub_world.specs.declared.machine.Machine.{Machine};
    ghost use Rattle.vub_world.specs.Machine.{IsSound, KeepsLast};
    ghost use Rattle.vub_world.specs.MachineAt.{IsStanding};

    ghost Value = { Machine };

    ghost view = { λ w. w.machine };

    ghost invariant = { λ w. IsSound w.machine × IsStanding w.machine × KeepsLast w.machine };
}

impl World {
    ghost use Rattle.std.specs.Borrow.{sem};
    ghost use Rattle.vub_memdisk.specs.MemDisks.{values_of};
    ghost use Rattle.vub_world.specs.MachineAt.{StandsFor};
    ghost use Rattle.vub_world.specs.World.{header_in, disk_in, backend_in, offers_in, LendsRecord};

    /// A world in which nothing has happened: memory and disk are zero, but for avail.idx and used.idx of
    /// each queue, which stand at the base.
    pub fn new(alloc: Global, header: &Header1) -> Result<World, Memory>
        requires { IsHeader header.now }
        ensures header { IfOk result (λ w. header_in w ≡ header.now) }
        ensures stands { IfOk result (λ w. StandsFor w [] []) }
        ensures offers { IfOk result (λ w. offers_in w ≡ 0) }
    {
        let machine = Machine::new(alloc, header)?;
        Ok(World { machine })
    }

    /// Plays an event, and lends its record. All memory that the event can need is reserved before
    /// its first change: refused, it changes nothing. A request has a number of 64 bits, counted from
    /// 0 as the requests are offered, and an event offers one at most. After 2^64 - 1 offers no number
    /// is left for a further one: then the call plays nothing, leaves all as it was, and lends the
    /// record of the event before.
    pub fn event(&mut self, event: &Event) -> Result<&Record, Memory>
        requires event { IsEvent (header_in self.old) event.now }
        ensures* after { sem 𝓛 (LendsRecord self.entry event.now result) }
    {
        self.machine.event(event)
    }

    /// The backend of the life of the device, if there is one.
    pub fn backend(&self) -> Option<&Backend>
        ensures { option_map (λ b. b.now) result ≡ backend_in self.now }
    {
        self.machine.backend()
    }

    /// The value of a sector now.
    pub fn sector(&self, sector: u64) -> &[u8; SECTOR_SIZE]
        requires { sector < (header_in self.now).capacity }
        ensures { result.now ≡ values_of (disk_in self.now) sector }
    {
        self.machine.sector(sector)
    }
}
