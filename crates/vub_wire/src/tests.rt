ghost use Rattle.vub_wire.specs.Writing.{IsNamed};
ghost use Rattle.vub_wire.specs.Replies.{kind_of};
ghost use Rattle.vub_wire.specs.Requests.{kind_at};
ghost use Rattle.std.specs.Prelude.{◌≡◌};

use crate::laws::{a_fault_stays, any_chunking, one_message, one_reply, written_is_read};
use crate::numbers::{MAX_MESSAGE_SIZE, MAX_REGIONS};
use crate::{
    Config, Cutter, Header, HeaderFlags, Inflight, Message, Reply, ReplyBody, WireFault,
    read_message, read_reply, write_message, write_reply,
};
use arrayvec::ArrayVec;
use std::process::Abort;
use std::test::Fail;
use vub_memtable::Region;

type Bytes = ArrayVec<u8, MAX_MESSAGE_SIZE>;

// The bytes that hex digits spell. Spaces mean nothing.
fn from_hex(text: &str) -> Bytes {
    let mut bytes = ArrayVec::new();
    let mut high = None;
    for letter in text.bytes() {
        let digit = match letter {
            b'0'..=b'9' => letter - b'0',
            b'a'..=b'f' => letter - b'a' + 10,
            _ => continue,
        };
        match high {
            None => high = Some(digit),
            Some(first) => {
                let _ = bytes.try_push((first << 4) | digit);
                high = None;
            }
        }
    }
    bytes
}

// The message is read from these bytes alone, and written as them.
fn agree(rt: &impl Abort, text: &str, message: Message)
    requires { IsNamed message }
{
    let bytes = from_hex(text);
    let Ok((header, found, length)) = read_message(bytes.as_slice()) else {
        panic!(rt; "{text} isn't read");
    };
    assert_eq!(rt; length, bytes.len());
    assert_eq!(rt; found, message);
    let mut out = ArrayVec::new();
    write_message(&message, header.flags, &mut out);
    assert_eq!(rt; out.as_slice(), bytes.as_slice());
}

// The same of a reply.
fn agree_reply(rt: &impl Abort, text: &str, reply: Reply)
    requires { kind_at reply.request ≡ kind_of reply.body }
{
    let bytes = from_hex(text);
    let Ok((found, length)) = read_reply(bytes.as_slice()) else {
        panic!(rt; "{text} isn't read");
    };
    assert_eq!(rt; length, bytes.len());
    assert_eq!(rt; found, reply);
    let mut out = ArrayVec::new();
    write_reply(&reply, &mut out);
    assert_eq!(rt; out.as_slice(), bytes.as_slice());
}

fn fault_of(bytes: &[u8]) -> Option<WireFault> {
    match read_message(bytes) {
        Ok(_) => None,
        Err(fault) => Some(fault),
    }
}

fn reply_fault_of(bytes: &[u8]) -> Option<WireFault> {
    match read_reply(bytes) {
        Ok(_) => None,
        Err(fault) => Some(fault),
    }
}

// A header of these numbers.
fn header_of(request: u32, flags: u32, size: u32) -> Bytes {
    let mut bytes = ArrayVec::new();
    for number in [request, flags, size] {
        let _ = bytes.try_extend_from_slice(&number.to_le_bytes());
    }
    bytes
}

#[test]
fn numbers(rt: HostRuntime) {
    agree(&rt, "01000000 01000000 00000000", Message::GetFeatures);
    agree(
        &rt,
        "02000000 01000000 08000000 4472005005000000",
        Message::SetFeatures(0x5_5000_7244),
    );
    agree(&rt, "03000000 01000000 00000000", Message::SetOwner);
    agree(
        &rt,
        "0c000000 01000000 08000000 0101000000000000",
        Message::SetKick(257),
    );
    agree(
        &rt,
        "0d000000 01000000 08000000 0200000000000080",
        Message::SetCall(0x8000_0000_0000_0002),
    );
    agree(
        &rt,
        "0e000000 01000000 08000000 0300000000000000",
        Message::SetErr(3),
    );
    agree(&rt, "0f000000 01000000 00000000", Message::GetProtocol);
    agree(
        &rt,
        "10000000 01000000 08000000 0912000000000000",
        Message::SetProtocol(0x1209),
    );
    agree(&rt, "11000000 01000000 00000000", Message::GetQueueNum);
}

#[test]
fn rings(rt: HostRuntime) {
    agree(
        &rt,
        "08000000 09000000 08000000 63000000 04000000",
        Message::SetNum { index: 99, num: 4 },
    );
    agree(
        &rt,
        "09000000 01000000 28000000 02000000 01000000 0100000000000000 0200000000000000 0300000000000000 0400000000000080",
        Message::SetAddr {
            index: 2,
            flags: 1,
            desc: 1,
            used: 2,
            avail: 3,
            log: 0x8000_0000_0000_0004,
        },
    );
    agree(
        &rt,
        "0a000000 01000000 08000000 01000000 ffff0000",
        Message::SetBase {
            index: 1,
            num: 65535,
        },
    );
    agree(
        &rt,
        "0b000000 01000000 08000000 03000000 00000080",
        Message::GetBase {
            index: 3,
            num: 0x8000_0000,
        },
    );
    agree(
        &rt,
        "12000000 09000000 08000000 00000000 01000000",
        Message::SetEnable { index: 0, num: 1 },
    );
}

// A part of config space with this content.
fn config_of(offset: u32, size: u32, flags: u32, content: &[u8]) -> Config {
    let mut bytes = ArrayVec::new();
    let _ = bytes.try_extend_from_slice(content);
    Config {
        offset,
        size,
        flags,
        bytes,
    }
}

#[test]
fn regions(rt: HostRuntime) {
    let region = Region {
        guest: 0x10_0000,
        size: 0x2000,
        user: 0x7f00_0000_0000,
        offset: 5,
    };
    let mut table = ArrayVec::new();
    table.push(region);
    agree(
        &rt,
        "05000000 01000000 28000000 01000000 00000000 0000100000000000 0020000000000000 00000000007f0000 0500000000000000",
        Message::SetMemTable(table),
    );
    agree(
        &rt,
        "18000000 01000000 0e000000 20000000 02000000 01000000 0aff",
        Message::GetConfig(config_of(32, 2, 1, &[10, 255])),
    );
    agree(
        &rt,
        "19000000 09000000 0d000000 20000000 01000000 00000000 01",
        Message::SetConfig(config_of(32, 1, 0, &[1])),
    );
    let short = Inflight {
        size: 80,
        offset: 1 << 40,
        queues: 1,
        queue_size: 0x104,
        long: false,
    };
    agree(
        &rt,
        "1f000000 01000000 14000000 5000000000000000 0000000000010000 0100 0401",
        Message::GetInflight(short),
    );
    agree(
        &rt,
        "20000000 09000000 18000000 5000000000000000 0000000000010000 0100 0401 00000000",
        Message::SetInflight(Inflight {
            long: true,
            ..short
        }),
    );
}

// A request that is skipped.
#[test]
#[tactic(auto, unfolding(crate::specs::Requests::request_at))]
fn skipped(rt: HostRuntime) {
    agree(&rt, "21000000 01000000 00000000", Message::Other(33));
}

// Free bytes: of a request that is skipped, a table's padding and the regions behind those that are
// counted, the tail of a long in-flight payload.
#[test]
fn free_bytes(rt: HostRuntime) {
    let inflight = Inflight {
        size: 0,
        offset: 0,
        queues: 1,
        queue_size: 4,
        long: true,
    };
    let rows = [
        ("04000000 f1ffffff 03000000 070707", Message::Other(4)),
        (
            "05000000 01000000 28000000 00000000 ffffffff 0000100000000000 0020000000000000 00000000007f0000 0500000000000000",
            Message::SetMemTable(ArrayVec::new()),
        ),
        (
            "1f000000 01000000 18000000 0000000000000000 0000000000000000 0100 0400 01020304",
            Message::GetInflight(inflight),
        ),
    ];
    for (text, message) in &rows {
        let bytes = from_hex(text);
        let Ok((_, found, length)) = read_message(bytes.as_slice()) else {
            panic!(rt; "{text} isn't read");
        };
        assert_eq!(rt; length, bytes.len());
        assert_eq!(rt; &found, message);
    }
}

#[test]
fn replies(rt: HostRuntime) {
    agree_reply(
        &rt,
        "01000000 05000000 08000000 4472005005000000",
        Reply {
            request: 1,
            body: ReplyBody::Number(0x5_5000_7244),
        },
    );
    agree_reply(
        &rt,
        "08000000 05000000 08000000 0100000000000000",
        Reply {
            request: 8,
            body: ReplyBody::Number(1),
        },
    );
    agree_reply(
        &rt,
        "0b000000 05000000 08000000 01000000 02010000",
        Reply {
            request: 11,
            body: ReplyBody::State { index: 1, num: 258 },
        },
    );
    agree_reply(
        &rt,
        "18000000 05000000 0e000000 20000000 02000000 00000000 0a0b",
        Reply {
            request: 24,
            body: ReplyBody::Config(config_of(32, 2, 0, &[10, 11])),
        },
    );
    agree_reply(
        &rt,
        "18000000 05000000 00000000",
        Reply {
            request: 24,
            body: ReplyBody::Empty,
        },
    );
    agree_reply(
        &rt,
        "1f000000 05000000 18000000 5000000000000000 0000000000000000 0100 0400 00000000",
        Reply {
            request: 31,
            body: ReplyBody::Inflight(Inflight {
                size: 80,
                offset: 0,
                queues: 1,
                queue_size: 4,
                long: true,
            }),
        },
    );
}

#[test]
fn sizes(rt: HostRuntime) {
    let accepted = [
        (1, 0),
        (2, 8),
        (3, 0),
        (4, 0),
        (4, 4096),
        (5, 8),
        (5, 40),
        (5, 4072),
        (8, 8),
        (9, 40),
        (10, 8),
        (11, 8),
        (12, 8),
        (13, 8),
        (14, 8),
        (15, 0),
        (16, 8),
        (17, 0),
        (18, 8),
        (24, 12),
        (24, 268),
        (25, 12),
        (25, 268),
        (31, 20),
        (31, 24),
        (32, 20),
        (32, 24),
    ];
    for (request, size) in accepted {
        let wanted = if size == 0 {
            None
        } else {
            Some(WireFault::NeedMore)
        };
        let bytes = header_of(request, 1, size);
        assert_eq!(rt; fault_of(bytes.as_slice()), wanted, "{request} {size}");
    }
    let refused = [
        (1, 1),
        (2, 7),
        (2, 9),
        (3, 1),
        (5, 0),
        (5, 7),
        (5, 9),
        (5, 39),
        (5, 41),
        (5, 4071),
        (5, 4073),
        (8, 7),
        (8, 9),
        (9, 39),
        (9, 41),
        (10, 7),
        (10, 9),
        (11, 7),
        (11, 9),
        (12, 7),
        (12, 9),
        (13, 7),
        (13, 9),
        (14, 7),
        (14, 9),
        (15, 1),
        (16, 7),
        (16, 9),
        (17, 1),
        (18, 7),
        (18, 9),
        (24, 11),
        (24, 269),
        (25, 11),
        (25, 269),
        (31, 19),
        (31, 21),
        (31, 23),
        (31, 25),
        (32, 19),
        (32, 21),
        (32, 23),
        (32, 25),
    ];
    for (request, size) in refused {
        let bytes = header_of(request, 1, size);
        let wanted = Some(WireFault::BadSize(request, size));
        assert_eq!(rt; fault_of(bytes.as_slice()), wanted, "{request} {size}");
    }
}

#[test]
fn sizes_of_replies(rt: HostRuntime) {
    let accepted = [
        (1, 8),
        (4, 8),
        (11, 8),
        (24, 0),
        (24, 12),
        (24, 268),
        (31, 20),
        (31, 24),
    ];
    for (request, size) in accepted {
        let wanted = if size == 0 {
            None
        } else {
            Some(WireFault::NeedMore)
        };
        let bytes = header_of(request, 5, size);
        assert_eq!(rt;
            reply_fault_of(bytes.as_slice()),
            wanted,
            "{request} {size}"
        );
    }
    let refused = [
        (1, 0),
        (1, 7),
        (1, 9),
        (11, 7),
        (11, 9),
        (24, 1),
        (24, 11),
        (24, 269),
        (31, 0),
        (31, 19),
        (31, 21),
        (31, 23),
        (31, 25),
    ];
    for (request, size) in refused {
        let bytes = header_of(request, 5, size);
        let wanted = Some(WireFault::BadSize(request, size));
        assert_eq!(rt;
            reply_fault_of(bytes.as_slice()),
            wanted,
            "{request} {size}"
        );
    }
}

// Each fault, and what comes first where several apply.
#[test]
fn faults(rt: HostRuntime) {
    let rows = [
        ("0100000001000000000000", WireFault::NeedMore),
        ("010000000200000000", WireFault::NeedMore),
        ("010000000000000000000000", WireFault::BadVersion),
        ("010000000200000000000000", WireFault::BadVersion),
        ("010000000600000001100000", WireFault::BadVersion),
        ("010000000500000001100000", WireFault::ReplyBit),
        ("210000000100000001100000", WireFault::TooLarge),
        ("010000000100000001100000", WireFault::TooLarge),
        ("050000000100000009000000", WireFault::BadSize(5, 9)),
        (
            "020000000100000008000000 44720050050000",
            WireFault::NeedMore,
        ),
        (
            "050000000100000008000000 01000000 000000",
            WireFault::NeedMore,
        ),
        (
            "050000000100000008000000 01000000 00000000",
            WireFault::BadSize(5, 8),
        ),
        (
            "050000000100000008000000 00000080 00000000",
            WireFault::BadSize(5, 8),
        ),
    ];
    for (text, wanted) in rows {
        assert_eq!(rt; fault_of(from_hex(text).as_slice()), Some(wanted), "{text}");
    }
    let rows = [
        ("0100000005000000080000", WireFault::NeedMore),
        ("010000000600000008000000", WireFault::BadVersion),
        ("010000000100000001100000", WireFault::ReplyBit),
        ("010000000500000001100000", WireFault::TooLarge),
        ("010000000500000009000000", WireFault::BadSize(1, 9)),
        (
            "010000000500000008000000 44720050050000",
            WireFault::NeedMore,
        ),
    ];
    for (text, wanted) in rows {
        assert_eq!(rt;
            reply_fault_of(from_hex(text).as_slice()),
            Some(wanted),
            "{text}"
        );
    }
}

#[test]
fn many_regions(rt: HostRuntime) {
    let mut table = ArrayVec::new();
    for index in 0..MAX_REGIONS as u64 {
        let _ = table.try_push(Region {
            guest: index << 40,
            size: index,
            user: index << 32,
            offset: 1,
        });
    }
    assert_eq!(rt; table.len(), 127);
    let message = Message::SetMemTable(table);
    let mut bytes = ArrayVec::new();
    write_message(&message, 9, &mut bytes);
    assert_eq!(rt; bytes.len(), 12 + 8 + 32 * 127);
    let header = Header {
        request: 5,
        flags: 9,
        size: 4072,
    };
    assert_eq!(rt; read_message(bytes.as_slice()), Ok((header, message, 4084)));
}

#[test]
fn a_full_payload(rt: HostRuntime) {
    let mut bytes = header_of(33, 1, 4096);
    let _ = bytes.try_extend_from_slice(&[7; 4096]);
    assert_eq!(rt; bytes.len(), 4108);
    let header = Header {
        request: 33,
        flags: 1,
        size: 4096,
    };
    assert_eq!(rt;
        read_message(bytes.as_slice()),
        Ok((header, Message::Other(33), 4108))
    );
    if let Some((_, short)) = bytes.as_slice().split_last() {
        assert_eq!(rt; fault_of(short), Some(WireFault::NeedMore));
    }
}

#[test]
fn flags(rt: HostRuntime) {
    let rows = [
        (9, 1, false, true),
        (5, 1, true, false),
        (0xfff2, 2, false, false),
    ];
    for (bits, version, reply, needed) in rows {
        let flags = HeaderFlags(bits);
        assert_eq!(rt; flags.version(), version);
        assert_eq!(rt; flags.is_reply(), reply);
        assert_eq!(rt; flags.needs_reply(), needed);
    }
}

// Feeds a piece that there is room for, and hands out what stands at the front; how many messages, and
// the sum of their requests.
fn feed(cutter: &mut Cutter, piece: &[u8]) -> (u32, u32) {
    if piece.len() <= cutter.room() {
        cutter.feed(piece);
    }
    let mut count = 0u32;
    let mut sum = 0u32;
    for _ in 0..9 {
        let Ok((header, _)) = cutter.next() else {
            break;
        };
        count = count.saturating_add(1);
        sum = sum.saturating_add(header.request);
    }
    (count, sum)
}

// The messages of a front end that sets up its in-flight region: their bytes, cut in two at each byte
// and cut in single ones.
#[test]
fn cut_at_every_byte(rt: HostRuntime) -> Result<(), Fail> {
    let stream = from_hex(
        "100000000100000008000000 0912000000000000
         1f0000000100000018000000 0000000000000000 0000000000000000 0100 0400 00000000
         200000000900000018000000 5000000000000000 0000000000000000 0100 0400 00000000",
    );
    let bytes = stream.as_slice();
    assert_eq!(rt; bytes.len(), 92);
    for cut in 0..93 {
        let mut cutter = Cutter::new(rt.alloc()).ok().ok_or("memory")?;
        let (early, first) = feed(&mut cutter, &bytes[..cut]);
        let (late, second) = feed(&mut cutter, &bytes[cut..]);
        assert_eq!(rt; early.saturating_add(late), 3, "cut at {cut}");
        assert_eq!(rt; first.saturating_add(second), 16 + 31 + 32);
        assert_eq!(rt; cutter.taken(), 92);
        assert_eq!(rt; cutter.room(), 8216);
    }
    let mut cutter = Cutter::new(rt.alloc()).ok().ok_or("memory")?;
    let mut count = 0u32;
    for byte in bytes {
        count = count.saturating_add(feed(&mut cutter, &[*byte]).0);
    }
    assert_eq!(rt; count, 3);
    assert_eq!(rt; cutter.next().err(), Some(WireFault::NeedMore));
    Ok(())
}

// A fault is answered again, whatever is fed.
#[test]
fn a_fault_is_answered_again(rt: HostRuntime) -> Result<(), Fail> {
    let stream = from_hex("010000000100000000000000 010000000200000000000000");
    let mut cutter = Cutter::new(rt.alloc()).ok().ok_or("memory")?;
    assert_eq!(rt; feed(&mut cutter, stream.as_slice()), (1, 1));
    assert_eq!(rt; cutter.next().err(), Some(WireFault::BadVersion));
    assert_eq!(rt; feed(&mut cutter, stream.as_slice()), (0, 0));
    assert_eq!(rt; cutter.next().err(), Some(WireFault::BadVersion));
    assert_eq!(rt; cutter.taken(), 12);
    assert_eq!(rt; cutter.room(), 8216 - 36);
    Ok(())
}

#[test]
fn laws() {
    one_message();
    one_reply();
    written_is_read();
    a_fault_stays();
    any_chunking();
}
