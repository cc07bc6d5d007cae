ghost use Rattle.std.specs.Prelude.{◌≡◌, ◌≤◌, ◌<◌, ℕ, None};
ghost use Rattle.vub_base.specs.MemForms.{next_count};

use crate::{Handled, MAX_QUEUES, Names, Refusal, Session, SessionFault};
use arrayvec::ArrayVec;
use std::alloc::Global;
use std::test::Fail;
use vub_base::{Bell, Failed, Space};
use vub_blkreq::DeviceConfig;
use vub_memtable::Region;
use vub_setup::{QueueSetup, Rings, SplitRegion};
use vub_shared::{MemShared, Shared};
use vub_split::SplitRing;
use vub_wire::{Config, Header, Inflight, Message, Reply, ReplyBody};

// A bell whose calls all succeed, or all fail.
#[derive(Drop)]
struct TestBell {
    fails: bool,
    faults: u64,
}

impl Bell for TestBell {
    ghost told = { λ b. None };

    ghost faults = { λ b. b.faults };

    fn attach(&mut self, _queue: u16, _name: &str) -> Result<(), Failed> {
        if self.fails {
            self.faults = self.faults.saturating_add(1);
            return Err(Failed);
        }
        Ok(())
    }

    fn ring(&mut self, _queue: u16) -> Result<(), Failed> {
        Ok(())
    }
}

// What a session speaks with.
#[derive(Drop)]
struct Front {
    session: Session,
    names: Names,
    mem: MemShared,
    bell: TestBell,
}

fn names_of(alloc: Global, list: &[&str]) -> Result<Names, Fail> {
    let mut names = Vec::new(alloc);
    for name in list {
        names.push(String::from_str(alloc, name)?)?;
    }
    Ok(Names::new(names))
}

// A session of a device with so many queues, these names, and guest memory of 0x4000 bytes under `mem`.
fn new_front(alloc: Global, queues: u16, names: &[&str]) -> Result<Front, Fail>
    requires some { 1 ≤ queues }
    requires few { queues ≤ MAX_QUEUES }
{
    let config = DeviceConfig {
        capacity: 64,
        read_only: false,
        queues,
    };
    front_of(alloc, config, names)
}

// The same of that device.
fn front_of(alloc: Global, config: DeviceConfig, names: &[&str]) -> Result<Front, Fail>
    requires some { 1 ≤ config.queues }
    requires few { config.queues ≤ MAX_QUEUES }
{
    let mut mem = MemShared::new(alloc, Vec::new(alloc));
    if mem.create("mem", 0x4000).is_err() {
        return Err(Fail::from("no memory"));
    }
    Ok(Front {
        session: Session::new(config),
        names: names_of(alloc, names)?,
        mem,
        bell: TestBell {
            fails: false,
            faults: 0,
        },
    })
}

impl Front {
    fn send(&mut self, flags: u32, message: &Message) -> Result<Handled, SessionFault> {
        let header = Header {
            request: 0,
            flags,
            size: 0,
        };
        self.session.answer(
            &header,
            message,
            &mut self.names,
            &mut self.mem,
            &mut self.bell,
        )
    }
}

fn reply(request: u32, body: ReplyBody) -> Result<Handled, SessionFault> {
    Ok(Handled::Reply(Reply { request, body }))
}

fn inflight(size: u64, queues: u16, queue_size: u16) -> Inflight {
    Inflight {
        size,
        offset: 0,
        queues,
        queue_size,
        long: true,
    }
}

fn config(offset: u32, size: u32, bytes: usize) -> Config {
    let mut carried = ArrayVec::new();
    for _byte in 0..bytes {
        let _ = carried.try_push(0);
    }
    Config {
        offset,
        size,
        flags: 0,
        bytes: carried,
    }
}

fn memory(size: u64) -> Message {
    let mut regions = ArrayVec::new();
    let _ = regions.try_push(Region {
        guest: 0,
        size,
        user: 0x1_0000_0000,
        offset: 0,
    });
    Message::SetMemTable(regions)
}

fn addresses(index: u32, used: u64) -> Message {
    Message::SetAddr {
        index,
        flags: 0,
        desc: 0x1_0000_0000,
        used,
        avail: 0x1_0000_1000,
        log: 0,
    }
}

// The features that are offered (VIRTIO 1.2, 5.2.3 and 6; "Protocol features").
#[test]
fn features_are_offered(rt: HostRuntime) -> Result<(), Fail> {
    let mut front = new_front(rt.alloc(), 16, &[])?;
    let offer = reply(1, ReplyBody::Number(0x5_5000_7244));
    assert_eq!(rt; front.send(1, &Message::GetFeatures), offer);
    let protocol = reply(15, ReplyBody::Number(0x1209));
    assert_eq!(rt; front.send(1, &Message::GetProtocol), protocol);
    let queues = reply(17, ReplyBody::Number(16));
    assert_eq!(rt; front.send(1, &Message::GetQueueNum), queues);
    Ok(())
}

// A read-only device offers the same and that it is read-only (VIRTIO 1.2, 5.2.3, VIRTIO_BLK_F_RO).
#[test]
fn read_only_features(rt: HostRuntime) -> Result<(), Fail> {
    let config = DeviceConfig {
        capacity: 64,
        read_only: true,
        queues: 1,
    };
    let mut front = front_of(rt.alloc(), config, &[])?;
    let offer = reply(1, ReplyBody::Number(0x5_5000_7264));
    assert_eq!(rt; front.send(1, &Message::GetFeatures), offer);
    let protocol = reply(15, ReplyBody::Number(0x1209));
    assert_eq!(rt; front.send(1, &Message::GetProtocol), protocol);
    Ok(())
}

// A ring past the device's queues is refused, and that is told where it is asked for.
#[test]
fn a_ring_past_the_queues(rt: HostRuntime) -> Result<(), Fail> {
    let mut front = new_front(rt.alloc(), 16, &[])?;
    assert_eq!(rt;
        front.send(1, &Message::SetProtocol(0x1209)),
        Ok(Handled::Silent)
    );
    assert_eq!(rt; front.session.refused(), None);
    let size = Message::SetNum { index: 99, num: 4 };
    assert_eq!(rt; front.send(9, &size), Ok(Handled::Ack(1)));
    assert_eq!(rt; front.session.refused(), Some(Refusal::Row(8)));
    assert_eq!(rt; front.send(1, &size), Ok(Handled::Silent));
    Ok(())
}

// An in-flight region of one queue of 4 descriptors has 80 bytes, zero, and is taken as it was given.
#[test]
fn an_inflight_region(rt: HostRuntime) -> Result<(), Fail> {
    let mut front = new_front(rt.alloc(), 16, &["r", "r"])?;
    assert_eq!(rt;
        front.send(1, &Message::SetProtocol(0x1209)),
        Ok(Handled::Silent)
    );
    let made = reply(31, ReplyBody::Inflight(inflight(0x50, 1, 4)));
    assert_eq!(rt;
        front.send(1, &Message::GetInflight(inflight(0, 1, 4))),
        made
    );
    let given = Message::SetInflight(inflight(0x50, 1, 4));
    assert_eq!(rt; front.send(9, &given), Ok(Handled::Ack(0)));
    assert_eq!(rt; front.names.left(), 0);
    let image = front.mem.image(Space { number: 1 });
    assert_eq!(rt; image, [0u8; 80].as_slice());
    Ok(())
}

// What each request refuses by its row, with its number.
fn refusals() -> [(u32, Message); 16] {
    [
        (2, Message::SetFeatures(1 << 29)),
        (5, memory(0x4001)),
        (8, Message::SetNum { index: 2, num: 4 }),
        (8, Message::SetNum { index: 0, num: 0 }),
        (
            8,
            Message::SetNum {
                index: 0,
                num: 1025,
            },
        ),
        (9, addresses(2, 0)),
        (10, Message::SetBase { index: 2, num: 0 }),
        (12, Message::SetKick(0x102)),
        (13, Message::SetCall(0x102)),
        (14, Message::SetErr(0x102)),
        (16, Message::SetProtocol(2)),
        (18, Message::SetEnable { index: 2, num: 1 }),
        (18, Message::SetEnable { index: 0, num: 2 }),
        (25, Message::SetConfig(config(0, 1, 1))),
        (32, Message::SetInflight(inflight(0x4000, 3, 4))),
        (99, Message::Other(99)),
    ]
}

#[test]
fn rows_refuse(rt: HostRuntime) -> Result<(), Fail> {
    let names = ["mem", "mem", "mem", "mem"];
    let mut front = new_front(rt.alloc(), 2, &names)?;
    assert_eq!(rt;
        front.send(1, &Message::SetProtocol(0x1209)),
        Ok(Handled::Silent)
    );
    for (request, message) in &refusals() {
        assert_eq!(rt; front.send(9, message), Ok(Handled::Ack(1)));
        assert_eq!(rt; front.session.refused(), Some(Refusal::Row(*request)));
    }
    Ok(())
}

// Refusals that have a reply of their own.
#[test]
fn replies_refuse(rt: HostRuntime) -> Result<(), Fail> {
    let mut front = new_front(rt.alloc(), 2, &["r"])?;
    let none = reply(11, ReplyBody::State { index: 2, num: 0 });
    assert_eq!(rt; front.send(9, &Message::GetBase { index: 2, num: 7 }), none);
    assert_eq!(rt; front.session.refused(), Some(Refusal::Row(11)));
    let empty = reply(24, ReplyBody::Empty);
    assert_eq!(rt; front.send(1, &Message::GetConfig(config(0, 8, 7))), empty);
    let past = reply(24, ReplyBody::Empty);
    assert_eq!(rt; front.send(1, &Message::GetConfig(config(250, 8, 8))), past);
    assert_eq!(rt; front.session.refused(), Some(Refusal::Row(24)));
    let no_region = reply(31, ReplyBody::Inflight(inflight(0, 3, 4)));
    assert_eq!(rt;
        front.send(1, &Message::GetInflight(inflight(0x50, 3, 4))),
        no_region
    );
    assert_eq!(rt; front.session.refused(), Some(Refusal::Row(31)));
    assert_eq!(rt; front.names.left(), 1);
    Ok(())
}

// Names are taken one after another, as long as there are some.
#[test]
fn names_are_taken(rt: HostRuntime) -> Result<(), Fail> {
    let mut names = names_of(rt.alloc(), &["mem", "call"])?;
    assert_eq!(rt; names.take(), Some("mem"));
    assert_eq!(rt; names.left(), 1);
    assert_eq!(rt; names.take(), Some("call"));
    assert_eq!(rt; names.take(), None);
    assert_eq!(rt; names.left(), 0);
    Ok(())
}

// Names run out, or mean nothing; and the bell fails.
#[test]
fn names_are_needed(rt: HostRuntime) -> Result<(), Fail> {
    let mut front = new_front(rt.alloc(), 2, &["none", "call"])?;
    assert_eq!(rt; front.send(1, &memory(0x1000)), Err(SessionFault::NoName));
    assert_eq!(rt; front.names.left(), 1);
    front.bell.fails = true;
    assert_eq!(rt;
        front.send(1, &Message::SetCall(0)),
        Err(SessionFault::Bell)
    );
    assert_eq!(rt; front.names.left(), 0);
    // a name comes before the test of the index
    assert_eq!(rt;
        front.send(1, &Message::SetErr(9)),
        Err(SessionFault::NoName)
    );
    assert_eq!(rt; front.session.refused(), None);
    Ok(())
}

// What a front end sends before the rings of its queues ("Front-end message types"): features twice, the
// in-flight region before the memory table.
fn handshake() -> [Message; 9] {
    [
        Message::GetFeatures,
        Message::GetProtocol,
        Message::SetProtocol(0x1209),
        Message::SetOwner,
        Message::GetFeatures,
        Message::SetFeatures(0x1_4000_0000),
        Message::GetInflight(inflight(0, 2, 4)),
        Message::SetInflight(inflight(0xa0, 2, 4)),
        memory(0x4000),
    ]
}

// What it sends of a ring of 4 descriptors, whose kick comes without a descriptor.
fn ring_messages(index: u32, used: u64) -> [Message; 5] {
    [
        Message::SetNum { index, num: 4 },
        Message::SetBase { index, num: 7 },
        addresses(index, used),
        Message::SetKick(0x100 + u64::from(index)),
        Message::SetCall(u64::from(index)),
    ]
}

const NAMES: [&str; 5] = ["r", "r", "mem", "call0", "call1"];

// The session after both of them, for two queues.
fn shaken(alloc: Global) -> Result<Front, Fail> {
    let mut front = new_front(alloc, 2, &NAMES)?;
    for message in &handshake() {
        if front.send(1, message).is_err() {
            return Err(Fail::from("a message"));
        }
    }
    for message in &ring_messages(0, 0x1_0000_2000) {
        if front.send(9, message) != Ok(Handled::Ack(0)) {
            return Err(Fail::from("the first ring"));
        }
    }
    for message in &ring_messages(1, 0x1_0000_2002) {
        if front.send(9, message) != Ok(Handled::Ack(0)) {
            return Err(Fail::from("the second ring"));
        }
    }
    Ok(front)
}

fn enable(index: u32) -> Message {
    Message::SetEnable { index, num: 1 }
}

#[test]
fn a_front_end_joins(rt: HostRuntime) -> Result<(), Fail> {
    let mut front = shaken(rt.alloc())?;
    assert_eq!(rt; front.names.left(), 0);
    assert_eq!(rt; front.session.setup(0), None);
    assert_eq!(rt; front.send(9, &enable(0)), Ok(Handled::Ack(0)));
    let mem = Space { number: 0 };
    let ring = SplitRing {
        desc: (mem, 0),
        avail: (mem, 0x1000),
        used: (mem, 0x2000),
        size: 4,
    };
    let region = SplitRegion {
        space: Space { number: 1 },
        place: 0,
        size: 4,
    };
    let setup = QueueSetup {
        index: 0,
        rings: Rings::Split(ring, region),
        base: 7,
        indirect: false,
        bell: true,
    };
    assert_eq!(rt; front.session.setup(0), Some(setup));
    // the used ring of the other lies at no multiple of 4
    assert_eq!(rt; front.send(9, &enable(1)), Ok(Handled::Ack(1)));
    assert_eq!(rt; front.session.refused(), Some(Refusal::BadRing(18, 1)));
    assert_eq!(rt; front.session.setup(1), None);
    Ok(())
}

// An attached ring keeps its size, base and addresses, and the session its terms, until it is stopped.
#[test]
fn attached_rings_stay(rt: HostRuntime) -> Result<(), Fail> {
    let mut front = shaken(rt.alloc())?;
    assert_eq!(rt; front.send(9, &enable(0)), Ok(Handled::Ack(0)));
    assert_eq!(rt;
        front.send(9, &Message::SetNum { index: 0, num: 2 }),
        Ok(Handled::Ack(1))
    );
    assert_eq!(rt;
        front.send(9, &Message::SetBase { index: 0, num: 8 }),
        Ok(Handled::Ack(1))
    );
    assert_eq!(rt;
        front.send(9, &addresses(0, 0x1_0000_2004)),
        Ok(Handled::Ack(1))
    );
    assert_eq!(rt;
        front.send(9, &addresses(0, 0x1_0000_2000)),
        Ok(Handled::Ack(0))
    );
    assert_eq!(rt;
        front.send(9, &Message::SetFeatures(0)),
        Ok(Handled::Ack(1))
    );
    let base = Message::GetBase { index: 0, num: 0 };
    assert_eq!(rt; front.send(1, &base), Ok(Handled::Drain(0)));
    if front.session.setup(0).is_some() {
        front.session.stopped_queue(0, 9);
    }
    let stopped = reply(11, ReplyBody::State { index: 0, num: 9 });
    assert_eq!(rt; front.send(1, &base), stopped);
    assert_eq!(rt; front.session.setup(0), None);
    assert_eq!(rt;
        front.send(9, &Message::SetNum { index: 0, num: 2 }),
        Ok(Handled::Ack(0))
    );
    Ok(())
}
