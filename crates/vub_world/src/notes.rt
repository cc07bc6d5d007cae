//! What is noted of a request and of a store.
ghost use Rattle.std.specs.Prelude.{◌≡◌, ◌≤◌, ◌++◌};
ghost use Rattle.vub_shared.specs.Watched.{stores_in};
ghost use Rattle.vub_device.specs.Requests.{request_of};
ghost use Rattle.vub_room.specs.Rooms.{Spends, SpendsLists};
ghost use Rattle.vub_world.specs.MachineDevice.{stored_items};
ghost use Rattle.vub_world.specs.MachineDriverSide.{OneSmall, area_of};

use vub_base::{Area, Ask, Space, Tag};
use vub_device::Asked;
use vub_report::Item;
use vub_room::Room;
use vub_shared::WatchedShared;

/// A request as the history has it.
pub fn asked_of(ask: Ask, room: &mut Room) -> Asked
    requires { 1 ≤ room.old.lists }
    ensures asked { result ≡ request_of ask }
    ensures room { SpendsLists 1 room.old room.new }
{
    match ask {
        Ask::Read { sector, count } => Asked::Read { sector, count },
        Ask::Write { sector, fills } => Asked::Write {
            sector,
            bytes: room.filled(&fills),
        },
        Ask::Flush => Asked::Flush,
        Ask::Id => Asked::Id,
        Ask::Discard(parts) => Asked::Discard(parts),
        Ask::Zero(parts) => Asked::Zero(parts),
    }
}

/// The area that a space is.
fn area_of(space: Space) -> Area
    ensures { result ≡ area_of space.number }
{
    if space.number == 0 { Area::M } else { Area::I }
}

/// Notes the store that was made last.
pub fn note_store(memory: &WatchedShared, tag: Tag, room: &mut Room)
    requires one { OneSmall (stores_in memory.now) }
    requires items { 1 ≤ room.old.item_room }
    requires lists { 1 ≤ room.old.lists }
    ensures items { room.new.items ≡ room.old.items ++ stored_items tag (stores_in memory.now) }
    ensures spent { Spends 1 1 room.old room.new }
{
    let Some((space, place, bytes)) = memory.last_store() else {
        unreachable!();
    };
    let bytes = room.copy(bytes);
    room.note(Item::Store {
        tag,
        area: area_of(space),
        place,
        bytes,
    });
}
