use crate::{
    Ask, Bell, Bytes, MemBell, MemSink, MemSource, Pending, PendingList, Sink, Source, get_u16,
    get_u32, get_u64, put_u16, put_u32, put_u64,
};
use std::test::Fail;

#[test]
fn fields(rt: HostRuntime) -> Result<(), Fail> {
    let bytes = [0xff, 1, 2, 3, 4, 5, 6, 7, 8];
    assert_eq!(rt; get_u16(&bytes, 1), 0x0201);
    assert_eq!(rt; get_u32(&bytes, 1), 0x0403_0201);
    assert_eq!(rt; get_u64(&bytes, 1), 0x0807_0605_0403_0201);
    let mut out = [0u8; 16];
    put_u16(&mut out, 0, 0x0201);
    put_u32(&mut out, 2, 0x0605_0403);
    put_u64(&mut out, 6, 0x0e0d_0c0b_0a09_0807);
    assert_eq!(rt; out, [1, 2, 3, 4, 5, 6, 7, 8, 9, 10, 11, 12, 13, 14, 0, 0]);
    Ok(())
}

#[test]
fn source_in_pieces(rt: HostRuntime) -> Result<(), Fail> {
    let bytes = Vec::from_slice(rt.alloc(), b"abcde")?;
    let fails = Vec::from_slice(rt.alloc(), &[1])?;
    let mut source = MemSource::new(bytes, 3, fails);
    let mut into = [0u8; 4];
    assert_eq!(rt; source.read(&mut into).ok(), Some(3));
    assert_eq!(rt; into, [97, 98, 99, 0]);
    assert_eq!(rt; source.read(&mut into).ok(), None);
    assert_eq!(rt; source.read(&mut into).ok(), Some(2));
    assert_eq!(rt; source.read(&mut into).ok(), Some(0));
    Ok(())
}

#[test]
fn sink_with_room(rt: HostRuntime) -> Result<(), Fail> {
    let fails = Vec::from_slice(rt.alloc(), &[0])?;
    let mut sink = MemSink::new(rt.alloc(), 5, fails).ok().ok_or("room")?;
    assert_eq!(rt; sink.write(b"abc").is_ok(), false);
    assert_eq!(rt; sink.write(b"abc").is_ok(), true);
    assert_eq!(rt; sink.write(b"def").is_ok(), false);
    assert_eq!(rt; sink.write(b"de").is_ok(), true);
    assert_eq!(rt; sink.bytes(), b"abcde".as_slice());
    Ok(())
}

#[test]
fn values(rt: HostRuntime) -> Result<(), Fail> {
    let bytes = Bytes::new(Vec::from_slice(rt.alloc(), b"xy")?);
    assert_eq!(rt; bytes.clone()?.items(), b"xy".as_slice());
    let ask = Ask::Read {
        sector: 7,
        count: 2,
    };
    assert_eq!(rt; ask.copied() == ask, true);
    Ok(())
}

#[test]
fn bell_with_room(rt: HostRuntime) -> Result<(), Fail> {
    let fails = Vec::from_slice(rt.alloc(), &[2])?;
    let mut bell = MemBell::new(rt.alloc(), 2, fails).ok().ok_or("room")?;
    assert_eq!(rt; bell.attach(3, "call3").is_ok(), true);
    assert_eq!(rt; bell.ring(4).is_ok(), true);
    assert_eq!(rt; bell.ring(3).is_ok(), true);
    assert_eq!(rt; bell.ring(3).is_ok(), false);
    assert_eq!(rt; bell.ring(3).is_ok(), true);
    assert_eq!(rt; bell.ring(3).is_ok(), false);
    assert_eq!(rt; bell.rung(), [3, 3].as_slice());
    assert_eq!(rt; bell.restart(1).is_ok(), true);
    assert_eq!(rt; bell.rung().is_empty(), true);
    assert_eq!(rt; bell.ring(3).is_ok(), true);
    assert_eq!(rt; bell.rung(), [3].as_slice());
    Ok(())
}

fn pending(head: u16, counter: u64) -> Pending {
    Pending {
        head,
        counter,
        num: 1,
    }
}

#[test]
fn pending_in_order(rt: HostRuntime) -> Result<(), Fail> {
    let Ok(mut list) = PendingList::new(rt.alloc(), 4) else {
        return Err("room".into());
    };
    list.push(pending(5, 7));
    list.push(pending(1, 9));
    list.push(pending(4, 7));
    list.push(pending(6, 3));
    list.sort();
    let sorted = [pending(6, 3), pending(4, 7), pending(5, 7), pending(1, 9)];
    assert_eq!(rt; list.items(), sorted.as_slice());
    list.clear();
    assert_eq!(rt; list.items().is_empty(), true);
    assert_eq!(rt; list.room(), 4);
    Ok(())
}
