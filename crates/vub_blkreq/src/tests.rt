use crate::{
    DeviceConfig, DeviceMode, Request, config_space, offered_features, offered_protocol_features,
    parse,
};
use arrayvec::ArrayVec;
use bitflags::Flags;
use std::test::Fail;
use vub_base::{Part, put_u32, put_u64};

const IN: u32 = 0;

const OUT: u32 = 1;

const FLUSH: u32 = 4;

const GET_ID: u32 = 8;

const DISCARD: u32 = 11;

const WRITE_ZEROES: u32 = 13;

/// A device of 2^20 sectors with all that can be negotiated.
const FULL: DeviceMode = DeviceMode {
    capacity: 1 << 20,
    read_only: false,
    flush: true,
    discard: true,
    write_zeroes: true,
};

const READ_ONLY: DeviceMode = DeviceMode {
    capacity: 1 << 20,
    read_only: true,
    flush: true,
    discard: true,
    write_zeroes: true,
};

const PLAIN: DeviceMode = DeviceMode {
    capacity: 1 << 20,
    read_only: false,
    flush: false,
    discard: false,
    write_zeroes: false,
};

const PLAIN_READ_ONLY: DeviceMode = DeviceMode {
    capacity: 1 << 20,
    read_only: true,
    flush: false,
    discard: false,
    write_zeroes: false,
};

const ONE_SECTOR: Part = Part {
    sector: 0,
    count: 1,
    flags: 0,
};

/// What `parse` makes of a header with four times this part behind it, where so many bytes may be
/// read, and so many written before the status.
fn parsed(
    header: (u32, u64),
    part: &Part,
    readable: u64,
    written: u32,
    mode: &DeviceMode,
) -> Request {
    let mut bytes = [0u8; 80];
    put_u32(&mut bytes, 0, header.0);
    put_u64(&mut bytes, 8, header.1);
    for index in 0..4 {
        put_u64(&mut bytes, 16 + 16 * index, part.sector);
        put_u32(&mut bytes, 24 + 16 * index, part.count);
        put_u32(&mut bytes, 28 + 16 * index, part.flags);
    }
    let front = &bytes[..readable.min(80) as usize];
    parse(front, readable, u64::from(written) + 1, mode)
}

/// The status of a request that is refused.
fn status(request: &Request) -> Option<u8> {
    match request {
        Request::Fixed(status) => Some(*status),
        _ => None,
    }
}

#[test]
fn features(rt: HostRuntime) -> Result<(), Fail> {
    assert_eq!(rt; offered_features(false).bits(), 0x5_5000_7244);
    assert_eq!(rt; offered_features(true).bits(), 0x5_5000_7264);
    assert_eq!(rt; offered_protocol_features().bits(), 0x1209);
    Ok(())
}

/// Bytes that may be read, and types: the first row and the second.
#[test]
fn headers(rt: HostRuntime) -> Result<(), Fail> {
    let cases = [
        (IN, 15, Some(1)),
        (IN, 16, None),
        (2, 15, Some(1)),
        (2, 16, Some(2)),
        (3, 16, Some(2)),
        (5, 16, Some(2)),
        (7, 16, Some(2)),
        (9, 16, Some(2)),
        (10, 16, Some(2)),
        (12, 32, Some(2)),
        (14, 32, Some(2)),
        (u32::MAX, 32, Some(2)),
    ];
    for (kind, readable, refused) in cases {
        let request = parsed((kind, 0), &ONE_SECTOR, readable, 0, &FULL);
        assert_eq!(rt; status(&request), refused, "type {kind}, {readable} bytes");
    }
    Ok(())
}

/// What was negotiated, and a read-only device.
#[test]
fn modes(rt: HostRuntime) -> Result<(), Fail> {
    let cases = [
        (IN, 16, [None, None, None, None]),
        (OUT, 16, [None, None, Some(1), Some(1)]),
        (FLUSH, 16, [None, Some(2), None, Some(2)]),
        (DISCARD, 32, [None, Some(2), Some(1), Some(2)]),
        (WRITE_ZEROES, 32, [None, Some(2), Some(1), Some(2)]),
    ];
    let modes = [FULL, PLAIN, READ_ONLY, PLAIN_READ_ONLY];
    for (kind, readable, refused) in cases {
        for (mode, refused) in modes.iter().zip(refused) {
            let request = parsed((kind, 0), &ONE_SECTOR, readable, 0, mode);
            assert_eq!(rt; status(&request), refused, "type {kind}");
        }
    }
    Ok(())
}

/// Whole sectors, the capacity and the name's length.
#[test]
fn sizes(rt: HostRuntime) -> Result<(), Fail> {
    let cases = [
        (IN, 7, 16, 511, Some(1)),
        (IN, 7, 16, 512, None),
        (IN, 7, 16, 513, Some(1)),
        (OUT, 7, 16 + 511, 0, Some(1)),
        (OUT, 7, 16 + 512, 0, None),
        (IN, (1 << 20) - 1, 16, 512, None),
        (IN, (1 << 20) - 1, 16, 1024, Some(1)),
        (IN, 1 << 20, 16, 0, None),
        (IN, (1 << 20) + 1, 16, 0, Some(1)),
        (IN, u64::MAX, 16, 512, Some(1)),
        (OUT, (1 << 20) - 1, 16 + 512, 0, None),
        (OUT, 1 << 20, 16 + 512, 0, Some(1)),
        (OUT, u64::MAX, 16 + 1024, 0, Some(1)),
        (GET_ID, 0, 16, 19, Some(1)),
        (GET_ID, 0, 16, 20, None),
        (GET_ID, 0, 16, 21, Some(1)),
    ];
    for (kind, sector, readable, written, refused) in cases {
        let request = parsed((kind, sector), &ONE_SECTOR, readable, written, &FULL);
        assert_eq!(rt;
            status(&request),
            refused,
            "type {kind}, sector {sector}, {readable}, {written}"
        );
    }
    Ok(())
}

/// The parts of a discard and of a zeroing: the status of each.
#[test]
fn parts(rt: HostRuntime) -> Result<(), Fail> {
    let last = (1 << 20) - 1;
    let cases = [
        (16, 0, 1, 0, Some(1), Some(1)),
        (31, 0, 1, 0, Some(1), Some(1)),
        (32, 0, 1, 0, None, None),
        (33, 0, 1, 2, Some(1), Some(1)),
        (48, 0, 1, 0, None, None),
        (64, 0, 1, 0, None, None),
        (80, 0, 1, 0, None, None),
        (96, 0, 1, 0, Some(1), Some(1)),
        (80, 0, 1, 1, Some(2), None),
        (80, 0, 1, 2, Some(2), Some(2)),
        (80, 0, 1, u32::MAX, Some(2), Some(2)),
        (80, 0, 65_536, 0, None, None),
        (80, 0, 65_537, 0, Some(1), Some(1)),
        (80, 0, 65_537, 2, Some(2), Some(2)),
        (80, last, 1, 0, None, None),
        (80, last, 2, 0, Some(1), Some(1)),
        (80, u64::MAX, 1, 0, Some(1), Some(1)),
    ];
    for (readable, sector, count, flags, discard, zero) in cases {
        let part = Part {
            sector,
            count,
            flags,
        };
        let request = parsed((DISCARD, 0), &part, readable, 0, &FULL);
        assert_eq!(rt;
            status(&request),
            discard,
            "{readable}, {sector}, {count}, {flags}"
        );
        let request = parsed((WRITE_ZEROES, 0), &part, readable, 0, &FULL);
        assert_eq!(rt;
            status(&request),
            zero,
            "{readable}, {sector}, {count}, {flags}"
        );
    }
    Ok(())
}

/// What is carried out.
#[test]
fn requests(rt: HostRuntime) -> Result<(), Fail> {
    let part = Part {
        sector: 0x0102,
        count: 0x0304,
        flags: 0,
    };
    let mut parts = ArrayVec::new();
    parts.push(part);
    parts.push(part);
    let cases = [
        (
            IN,
            16,
            1024,
            Request::Read {
                sector: 7,
                count: 2,
            },
        ),
        (
            IN,
            16,
            0,
            Request::Read {
                sector: 7,
                count: 0,
            },
        ),
        (
            OUT,
            528,
            0,
            Request::Write {
                sector: 7,
                count: 1,
            },
        ),
        (FLUSH, 16, 0, Request::Flush),
        (GET_ID, 16, 20, Request::Id),
        (DISCARD, 48, 0, Request::Discard(parts)),
    ];
    for (kind, readable, written, request) in cases {
        let made = parsed((kind, 7), &part, readable, written, &FULL);
        assert!(rt; made == request, "type {kind}");
    }
    Ok(())
}

/// The bytes of the config space that aren't zero, of two devices.
#[test]
fn config(rt: HostRuntime) -> Result<(), Fail> {
    let limits = [
        (12, 126),
        (21, 2),
        (32, 1),
        (38, 1),
        (40, 4),
        (44, 1),
        (50, 1),
        (52, 4),
    ];
    let small = DeviceConfig {
        capacity: 0x0102,
        read_only: false,
        queues: 3,
    };
    let large = DeviceConfig {
        capacity: 0x0807_0605_0403_0201,
        read_only: true,
        queues: 0x0a09,
    };
    let mut want = [[0u8; 256]; 2];
    for space in &mut want {
        for (place, byte) in limits {
            space[place] = byte;
        }
    }
    want[0][..2].copy_from_slice(&[2, 1]);
    want[0][34] = 3;
    want[1][..8].copy_from_slice(&[1, 2, 3, 4, 5, 6, 7, 8]);
    want[1][34..36].copy_from_slice(&[9, 10]);
    assert_eq!(rt; config_space(&small).as_slice(), want[0].as_slice());
    assert_eq!(rt; config_space(&large).as_slice(), want[1].as_slice());
    Ok(())
}
