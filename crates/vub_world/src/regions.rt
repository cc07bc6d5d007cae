//! Where each queue's part of the in-flight region lies: one behind the other, in a space of their
//! own.
ghost use Rattle.std.specs.Prelude.{◌≡◌};
ghost use Rattle.vub_driver.specs.Layout.{inflight_space};
ghost use Rattle.vub_run.specs.Moments.{region_of};
ghost use Rattle.vub_world.specs.Regions as regions;

use vub_base::{Header1, Space};
use vub_infl_split::SplitRegion;
use vub_setup::region_size;

/// The bytes of the parts of all queues.
pub fn inflight_size(header: &Header1) -> u64
    ensures { result ≡ regions.inflight_size header.now }
{
    u64::from(header.queues) * region_size(false, header.size)
}

/// The part of a queue.
pub fn region_of(space: Space, queue: u16, size: u16) -> SplitRegion
    requires { space.number ≡ inflight_space }
    ensures { result ≡ region_of queue size }
{
    SplitRegion {
        space,
        place: u64::from(queue) * region_size(false, size),
        size,
    }
}
