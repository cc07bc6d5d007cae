use crate::{
    MemShared, Shared, SharedFault, TrailShared, WatchedShared, load_u8, load_u16, load_u32,
    load_u64,
};
use std::test::Fail;
use vub_base::Space;

#[test]
fn stores_are_little_endian(rt: HostRuntime) -> Result<(), Fail> {
    let alloc = rt.alloc();
    let mut memory = MemShared::new(alloc, Vec::new(alloc));
    let space = memory.create("m", 16).map_err(|_| "created")?;
    memory.store1(space, 1, 0x11).map_err(|_| "stored")?;
    memory.store2(space, 2, 0x2122).map_err(|_| "stored")?;
    memory.store4(space, 4, 0x3132_3334).map_err(|_| "stored")?;
    memory
        .store8(space, 8, 0x4142_4344_4546_4748)
        .map_err(|_| "stored")?;
    let bytes = [
        0, 0x11, 0x22, 0x21, 0x34, 0x33, 0x32, 0x31, 0x48, 0x47, 0x46, 0x45, 0x44, 0x43, 0x42, 0x41,
    ];
    assert_eq!(rt; memory.image(space), bytes.as_slice());
    memory.store_run(space, 13, b"vub").map_err(|_| "stored")?;
    let mut loaded = [0u8; 4];
    memory.load(space, 12, &mut loaded).map_err(|_| "loaded")?;
    assert_eq!(rt; loaded, [0x44, 0x76, 0x75, 0x62]);
    Ok(())
}

#[test]
fn words_are_loaded(rt: HostRuntime) -> Result<(), Fail> {
    let alloc = rt.alloc();
    let mut memory = MemShared::new(alloc, Vec::new(alloc));
    let space = memory.create("m", 8).map_err(|_| "created")?;
    memory
        .store_run(space, 0, &[1, 2, 3, 4, 5, 6, 7, 8])
        .map_err(|_| "stored")?;
    let byte = load_u8(&mut memory, space, 7).map_err(|_| "loaded")?;
    assert_eq!(rt; byte, 8);
    let two = load_u16(&mut memory, space, 5).map_err(|_| "loaded")?;
    assert_eq!(rt; two, 0x0706);
    let four = load_u32(&mut memory, space, 1).map_err(|_| "loaded")?;
    assert_eq!(rt; four, 0x0504_0302);
    let eight = load_u64(&mut memory, space, 0).map_err(|_| "loaded")?;
    assert_eq!(rt; eight, 0x0807_0605_0403_0201);
    Ok(())
}

#[test]
fn a_name_means_its_last_space(rt: HostRuntime) {
    let alloc = rt.alloc();
    let mut memory = MemShared::new(alloc, Vec::new(alloc));
    assert_eq!(rt; memory.find("r"), Err(SharedFault::NoSuch));
    assert_eq!(rt; memory.create("m", 3), Ok(Space { number: 0 }));
    assert_eq!(rt; memory.create("r", 5), Ok(Space { number: 1 }));
    assert_eq!(rt; memory.create("m", 7), Ok(Space { number: 2 }));
    assert_eq!(rt; memory.find("m"), Ok(Space { number: 2 }));
    assert_eq!(rt; memory.find("r"), Ok(Space { number: 1 }));
    assert_eq!(rt; memory.size(Space { number: 0 }), 3);
    assert_eq!(rt; memory.size(Space { number: 2 }), 7);
    assert_eq!(rt; memory.size(Space { number: 3 }), 0);
    assert_eq!(rt; memory.image(Space { number: 3 }).len(), 0);
}

#[test]
fn chosen_calls_fail(rt: HostRuntime) -> Result<(), Fail> {
    let alloc = rt.alloc();
    let fails = vec![in alloc; 1, 3].map_err(|_| "listed")?;
    let mut memory = MemShared::new(alloc, fails);
    let space = memory.create("m", 2).map_err(|_| "created")?;
    assert!(rt; memory.store1(space, 0, 7).is_ok());
    assert!(rt; memory.store1(space, 1, 8).is_err());
    let mut loaded = [0u8; 2];
    assert!(rt; memory.load(space, 0, &mut loaded).is_ok());
    assert_eq!(rt; loaded, [7, 0]);
    assert!(rt; memory.load(space, 0, &mut loaded).is_err());
    assert!(rt; memory.store2(space, 0, 0x0102).is_ok());
    Ok(())
}

fn put(trail: &mut TrailShared<MemShared>, space: Space, place: u64, bytes: &[u8]) -> bool {
    let size = trail.size(space);
    place <= size
        && bytes.len() as u64 <= size - place
        && trail.store_run(space, place, bytes).is_ok()
}

fn put_words(trail: &mut TrailShared<MemShared>, space: Space) -> bool {
    trail.size(space) == 16
        && trail.store1(space, 1, 0x11).is_ok()
        && trail.store2(space, 2, 0x2122).is_ok()
        && trail.store4(space, 4, 0x3132_3334).is_ok()
        && trail.store8(space, 8, 0x4142_4344_4546_4748).is_ok()
}

#[test]
fn words_are_kept(rt: HostRuntime) -> Result<(), Fail> {
    let alloc = rt.alloc();
    let memory = MemShared::new(alloc, Vec::new(alloc));
    let mut trail = TrailShared::new(alloc, memory, 4, 15).map_err(|_| "room")?;
    let space = trail.create("m", 16).map_err(|_| "created")?;
    assert!(rt; put_words(&mut trail, space));
    assert_eq!(rt; trail.stores(), 4);
    if trail.stores() == 4 {
        let (of, place, bytes) = trail.store_at(2);
        assert_eq!(rt; (of, place), (space, 4));
        assert_eq!(rt; bytes, [0x34, 0x33, 0x32, 0x31].as_slice());
    }
    Ok(())
}

#[test]
fn stores_past_the_room_fail(rt: HostRuntime) -> Result<(), Fail> {
    let alloc = rt.alloc();
    let memory = MemShared::new(alloc, Vec::new(alloc));
    let mut trail = TrailShared::new(alloc, memory, 2, 6).map_err(|_| "room")?;
    let space = trail.create("m", 4).map_err(|_| "created")?;
    assert!(rt; put(&mut trail, space, 1, b"vub"));
    assert!(rt; !put(&mut trail, space, 0, b"four"));
    assert!(rt; put(&mut trail, space, 0, b"two"));
    assert!(rt; !put(&mut trail, space, 0, b"x"));
    assert_eq!(rt; trail.inner().image(space), b"twob".as_slice());
    trail.restart(1, 1).map_err(|_| "room")?;
    assert_eq!(rt; trail.stores(), 0);
    assert!(rt; put(&mut trail, space, 3, b"x"));
    assert!(rt; !put(&mut trail, space, 3, b"y"));
    assert_eq!(rt; trail.inner().image(space), b"twox".as_slice());
    Ok(())
}

#[test]
fn a_third_store_is_refused(rt: HostRuntime) -> Result<(), Fail> {
    let alloc = rt.alloc();
    let mut memory = WatchedShared::new(alloc).map_err(|_| "room")?;
    assert_eq!(rt; memory.create("large", u64::MAX), Err(SharedFault::Memory));
    let space = memory.create("m", 4).map_err(|_| "created")?;
    assert!(rt; memory.last_store().is_none());
    if memory.size(space) == 4 {
        assert!(rt; memory.store_run(space, 0, b"four").is_ok());
        assert!(rt; memory.store_run(space, 1, b"wxy").is_ok());
        assert!(rt; memory.store_run(space, 0, b"z").is_err());
        assert_eq!(rt; memory.bytes(space, 0, 4), b"fwxy".as_slice());
        assert_eq!(rt; memory.byte(space, 2), b'x');
        assert_eq!(rt; memory.word16(space, 2), 0x7978);
    }
    let (of, place, bytes) = memory.last_store().ok_or("kept")?;
    assert_eq!(rt; (of, place), (space, 1));
    assert_eq!(rt; bytes, b"wxy".as_slice());
    Ok(())
}

#[test]
fn watched_words_are_kept(rt: HostRuntime) -> Result<(), Fail> {
    let alloc = rt.alloc();
    let mut memory = WatchedShared::new(alloc).map_err(|_| "room")?;
    let space = memory.create("m", 16).map_err(|_| "created")?;
    if memory.size(space) == 16 {
        memory.store1(space, 1, 0x11).map_err(|_| "stored")?;
        memory.store2(space, 2, 0x2122).map_err(|_| "stored")?;
        memory.restart();
        assert!(rt; memory.last_store().is_none());
        assert!(rt; memory.store4(space, 4, 0x3132_3334).is_ok());
        assert!(rt; memory.store8(space, 8, 0x4142_4344_4546_4748).is_ok());
        let mut loaded = [0u8; 7];
        assert!(rt; memory.load(space, 1, &mut loaded).is_ok());
        assert_eq!(rt; loaded, [0x11, 0x22, 0x21, 0x34, 0x33, 0x32, 0x31]);
    }
    assert_eq!(rt; memory.find("m"), Ok(space));
    assert_eq!(rt; memory.find("r"), Err(SharedFault::NoSuch));
    Ok(())
}
