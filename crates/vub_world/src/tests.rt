use crate::World;
use crate::bell::WatchedBell;
use std::test::Fail;
use vub_base::{Bell, CacheMode, Format, Header1};
use vub_report::{head_text, record_text};
use vub_schedule::Event;

/// A queue of four places and a disk of eight sectors.
const HEADER: Header1 = Header1 {
    format: Format::Split,
    queues: 1,
    size: 4,
    capacity: 8,
    base: 0,
    mode: CacheMode::Back,
};

#[test]
fn opens_with_zeros(rt: HostRuntime) -> Result<(), Fail> {
    let header = HEADER;
    let world = World::new(rt.alloc(), &header).ok().ok_or("world")?;
    assert_eq!(rt; world.sector(7), &[0; 512]);
    let head = head_text(rt.alloc(), &header).ok().ok_or("head")?;
    assert_eq!(rt;
        head.as_slice(),
        b"record 1 split 1 4 8 0 back\n".as_slice()
    );
    Ok(())
}

#[test]
fn boots(rt: HostRuntime) -> Result<(), Fail> {
    let header = HEADER;
    let mut world = World::new(rt.alloc(), &header).ok().ok_or("world")?;
    assert!(rt; world.backend().is_none());
    let made = world.event(&Event::Boot).ok().ok_or("boot")?;
    let text = record_text(rt.alloc(), made).ok().ok_or("text")?;
    assert_eq!(rt; text.as_slice(), b"> boot\n".as_slice());
    let backend = world.backend().ok_or("life")?;
    assert!(rt; !backend.attached(0));
    Ok(())
}

#[test]
fn lists_two_rings(rt: HostRuntime) {
    let mut bell = WatchedBell::new();
    assert_eq!(rt; bell.attach(3, "call3").is_ok(), true);
    assert_eq!(rt; bell.ring(3).is_ok(), true);
    assert_eq!(rt; bell.rung(), [3].as_slice());
    assert_eq!(rt; bell.ring(5).is_ok(), true);
    assert_eq!(rt; bell.ring(4).is_ok(), false);
    assert_eq!(rt; bell.rung(), [3, 5].as_slice());
}
