use crate::numbers::{MAX_CONFIG_SIZE, MAX_REGIONS};
use arrayvec::ArrayVec;
use vub_memtable::Region;

/// What stands before each payload ("Header").
#[derive(Clone, Copy, Debug, PartialEq, Eq)]
pub struct Header {
    /// The number of the request.
    pub request: u32,
    /// The flags, as `HeaderFlags` names them.
    pub flags: u32,
    /// The size of the payload in bytes.
    pub size: u32,
}

/// A part of the device's config space ("Virtio device config space"). Sizes are in bytes.
#[derive(Clone, Debug, Drop, PartialEq, Eq)]
pub struct Config {
    /// Where the part begins in the config space.
    pub offset: u32,
    /// The size of the part, as the message tells it.
    pub size: u32,
    pub flags: u32,
    /// The bytes that the message carries, which may be more or fewer than it tells.
    pub bytes: ArrayVec<u8, MAX_CONFIG_SIZE>,
}

/// The in-flight region ("Inflight description"). Sizes are in bytes.
#[derive(Clone, Copy, Debug, PartialEq, Eq)]
pub struct Inflight {
    /// The size of the region, and where it begins in its file.
    pub size: u64,
    pub offset: u64,
    /// How many queues it is for, and how many descriptors each of them has.
    pub queues: u16,
    pub queue_size: u16,
    /// Whether the payload has 24 bytes, of which the last 4 mean nothing, and not 20.
    pub long: bool,
}

/// What the front end sends ("Front-end message types"). Features and the words of kick, call and err
/// are numbers; `index` is that of a queue.
#[derive(Clone, Debug, Drop, PartialEq, Eq)]
pub enum Message {
    /// Asks for the features that the device offers.
    GetFeatures,
    /// The features that the front end takes, a bit each.
    SetFeatures(u64),
    /// This front end is the owner of the session.
    SetOwner,
    /// The regions of guest memory, in the order given.
    SetMemTable(ArrayVec<Region, MAX_REGIONS>),
    /// The size of a ring, in descriptors.
    SetNum {
        index: u32,
        num: u32,
    },
    /// Where the parts of a ring begin, as addresses of the front end, and the address of its log.
    SetAddr {
        index: u32,
        flags: u32,
        desc: u64,
        used: u64,
        avail: u64,
        log: u64,
    },
    /// The place in a ring from which the device goes on.
    SetBase {
        index: u32,
        num: u32,
    },
    /// Stops a ring, and asks for the place from which a device may go on. The number means nothing.
    GetBase {
        index: u32,
        num: u32,
    },
    /// The descriptor by which the driver notifies the device: bits 0 to 7 hold the queue's index, and
    /// bit 8 says that no descriptor comes with the message.
    SetKick(u64),
    /// The descriptor by which the device notifies the driver, with the same bits.
    SetCall(u64),
    /// The descriptor by which the device tells errors, with the same bits.
    SetErr(u64),
    /// Asks for the protocol features that the backend offers.
    GetProtocol,
    /// The protocol features that the front end takes, a bit each.
    SetProtocol(u64),
    /// Asks how many queues the device has.
    GetQueueNum,
    /// Enables a ring, where the number is 1, or disables it.
    SetEnable {
        index: u32,
        num: u32,
    },
    /// Asks for a part of the config space.
    GetConfig(Config),
    /// Writes a part of the config space.
    SetConfig(Config),
    /// Asks for a new in-flight region.
    GetInflight(Inflight),
    /// The in-flight region to go on with.
    SetInflight(Inflight),
    /// A request of another number, whose payload is skipped.
    Other(u32),
}

/// What a reply carries ("Message Specification").
#[derive(Clone, Debug, Drop, PartialEq, Eq)]
pub enum ReplyBody {
    /// The reply to each request without a body of its own below: a set of features, a count, or 0 where
    /// the request was carried out.
    Number(u64),
    /// The reply to `GetBase`: the queue's index, and the place in its ring.
    State { index: u32, num: u32 },
    /// The reply to `GetConfig`.
    Config(Config),
    /// The reply to a `GetConfig` that is refused.
    Empty,
    /// The reply to `GetInflight`.
    Inflight(Inflight),
}

/// What the backend answers.
#[derive(Clone, Debug, Drop, PartialEq, Eq)]
pub struct Reply {
    /// The number of the request that is answered.
    pub request: u32,
    pub body: ReplyBody,
}
