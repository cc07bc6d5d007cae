//! What a session keeps of the messages so far.
ghost use Rattle.std.specs.Prelude.{◌≡◌, ◌≤◌, ◌<◌, ◌/◌, ◌%◌, ◌==◌, IfSome, OnSome};
ghost use Rattle.vub_session.specs.State as words;

use crate::Refusal;
use vub_base::Space;
use vub_blkreq::{DeviceConfig, DeviceMode, Features, ProtocolFeatures};
use vub_memtable::MemTable;

/// The most queues of a device.
pub const MAX_QUEUES: usize = 16;

/// The most descriptors of a ring.
pub const MAX_QUEUE_SIZE: u32 = 1024;

/// Where the parts of a ring begin, as addresses of the front end: of a split ring its descriptor
/// table, avail ring and used ring, of a packed one its descriptor ring, driver area and device area.
#[derive(Clone, Copy, Debug)]
pub struct Addresses {
    pub desc: u64,
    pub avail: u64,
    pub used: u64,
}

/// A ring, as far as messages have given it.
#[derive(Clone, Copy, Debug)]
pub struct Ring {
    /// Its size in descriptors, 1 to 1024.
    pub size: Option<u16>,
    pub addresses: Option<Addresses>,
    /// Where the device goes on.
    pub base: Option<u32>,
    /// Whether its kick was given.
    pub has_kick: bool,
    /// Whether its call is attached to the bell.
    pub has_bell: bool,
    pub is_enabled: bool,
    /// Whether a queue runs on it.
    pub is_attached: bool,
}

/// The in-flight region to go on with.
#[derive(Clone, Copy, Debug)]
pub struct KeptRegion {
    pub space: Space,
    /// The size of its space in bytes.
    pub space_size: u64,
    /// Where it begins in its space, a multiple of 8, and its size in bytes.
    pub offset: u64,
    pub size: u64,
    /// For how many queues it is, and how many descriptors each of them has.
    pub queues: u16,
    pub queue_size: u16,
}

/// What was negotiated and given, but for the memory table.
#[derive(Clone, Copy, Debug)]
pub struct Terms {
    /// The features that the front end takes, a bit each.
    pub features: u64,
    /// The same of the protocol.
    pub protocol: u64,
    /// Whether a memory table was set.
    pub has_table: bool,
    pub region: Option<KeptRegion>,
    /// The rings by index.
    pub rings: [Ring; MAX_QUEUES],
}

/// What a session keeps.
#[derive(Debug, Drop)]
pub struct State {
    pub config: DeviceConfig,
    pub terms: Terms,
    pub table: MemTable,
    /// Why the last refused message was refused.
    pub refused: Option<Refusal>,
}

/// A ring of which nothing was given.
const NEW_RING: Ring = Ring {
    size: None,
    addresses: None,
    base: None,
    has_kick: false,
    has_bell: false,
    is_enabled: false,
    is_attached: false,
};

/// The terms before the first message.
#[tactic(auto, unfolding(crate::specs::State::new_terms))]
pub(crate) fn new_terms() -> Terms
    ensures { result ≡ words.new_terms }
{
    Terms {
        features: 0,
        protocol: 0,
        has_table: false,
        region: None,
        rings: [NEW_RING; MAX_QUEUES],
    }
}

/// Whether a set has a feature of one bit.
fn has(set: u64, feature: u64) -> bool
    requires { 0 < feature }
    ensures { result ≡ (set / feature % 2 == 1) }
{
    set / feature % 2 == 1
}

impl Terms {
    /// Whether this feature was negotiated.
    pub(crate) fn has_feature(&self, feature: Features) -> bool
        requires { 0 < feature.0 }
        ensures { result ≡ (self.now.features / feature.0 % 2 == 1) }
    {
        has(self.features, feature.0)
    }

    /// Whether this feature of the protocol was negotiated.
    pub(crate) fn has_protocol_feature(&self, feature: ProtocolFeatures) -> bool
        requires { 0 < feature.0 }
        ensures { result ≡ (self.now.protocol / feature.0 % 2 == 1) }
    {
        has(self.protocol, feature.0)
    }

    /// Whether the rings are packed.
    pub(crate) fn is_packed(&self) -> bool
        ensures { result ≡ words.is_packed self.now }
    {
        self.has_feature(Features::RING_PACKED)
    }

    /// Whether some queue is attached.
    #[tactic(auto, unfolding(crate::specs::State::is_running))]
    pub(crate) fn is_running(&self) -> bool
        ensures { result ≡ words.is_running self.now }
    {
        self.rings.iter().any(|ring| ring.is_attached)
    }

    /// The same with another ring in this place.
    #[tactic(auto, unfolding(crate::specs::State::with_ring))]
    pub(crate) fn with_ring(&self, index: u32, ring: Ring) -> Terms
        requires { index < MAX_QUEUES }
        ensures { result ≡ words.with_ring self.now index ring }
    {
        let mut rings = self.rings;
        rings[index as usize] = ring;
        Terms { rings, ..*self }
    }
}

impl State {
    /// The ring of this index, if it is that of a queue.
    #[tactic(auto, unfolding(crate::specs::State::ring_of))]
    pub(crate) fn ring(&self, index: u32) -> Option<Ring>
        requires { self.now.config.queues ≤ MAX_QUEUES }
        ensures is { result ≡ words.ring_of self.now index }
        ensures below { OnSome result (index < MAX_QUEUES) }
        ensures at { IfSome result (λ ring. ring ≡ words.ring_at self.now.terms index) }
    {
        if index < u32::from(self.config.queues) {
            Some(self.terms.rings[index as usize])
        } else {
            None
        }
    }

    /// What requests are told of the device.
    pub(crate) fn mode(&self) -> DeviceMode
        ensures { result ≡ words.mode_of self.now }
    {
        DeviceMode {
            capacity: self.config.capacity,
            read_only: self.config.read_only,
            flush: self.terms.has_feature(Features::FLUSH),
            discard: self.terms.has_feature(Features::DISCARD),
            write_zeroes: self.terms.has_feature(Features::WRITE_ZEROES),
        }
    }
}
