//! The features that the device offers (VIRTIO 1.2, 5.2.3 and 6), and those of its protocol
//! (vhost-user, "Protocol features").
ghost use Rattle.std.specs.Prelude.{⊤, ◌≡◌, [], ◌∷◌, codes, ◌^◌};
ghost use Rattle.vub_base.specs.declared.standard.TheConstants as bit;
ghost use Rattle.vub_blkreq.specs.declared.features.TheConstants as protocol_bit;
ghost use Rattle.vub_blkreq.specs.Features.{offered, offered_protocol};

use bitflags::{Flag, Flags, bitflag_items};
use vub_base::standard::{
    VIRTIO_BLK_F_BLK_SIZE, VIRTIO_BLK_F_DISCARD, VIRTIO_BLK_F_FLUSH, VIRTIO_BLK_F_MQ,
    VIRTIO_BLK_F_RO, VIRTIO_BLK_F_SEG_MAX, VIRTIO_BLK_F_WRITE_ZEROES, VIRTIO_F_INDIRECT_DESC,
    VIRTIO_F_RING_PACKED, VIRTIO_F_VERSION_1,
};

/// The protocol between front end and backend has features of its own.
const VHOST_USER_F_PROTOCOL_FEATURES: u32 = 30;

/// The device has several queues.
const VHOST_USER_PROTOCOL_F_MQ: u32 = 0;

/// A message may ask for an acknowledgement.
const VHOST_USER_PROTOCOL_F_REPLY_ACK: u32 = 3;

/// The backend has the config space.
const VHOST_USER_PROTOCOL_F_CONFIG: u32 = 9;

/// The backend notes the requests in flight in shared memory.
const VHOST_USER_PROTOCOL_F_INFLIGHT_SHMFD: u32 = 12;

/// A set of features of the device.
#[derive(Clone, Copy, PartialEq, Eq, Debug)]
pub struct Features(pub u64);

bitflag_items! {
    impl Features: u64 {
        const SEG_MAX = 1 << VIRTIO_BLK_F_SEG_MAX;
        const RO = 1 << VIRTIO_BLK_F_RO;
        const BLK_SIZE = 1 << VIRTIO_BLK_F_BLK_SIZE;
        const FLUSH = 1 << VIRTIO_BLK_F_FLUSH;
        const MQ = 1 << VIRTIO_BLK_F_MQ;
        const DISCARD = 1 << VIRTIO_BLK_F_DISCARD;
        const WRITE_ZEROES = 1 << VIRTIO_BLK_F_WRITE_ZEROES;
        const INDIRECT_DESC = 1 << VIRTIO_F_INDIRECT_DESC;
        const PROTOCOL_FEATURES = 1 << VHOST_USER_F_PROTOCOL_FEATURES;
        const VERSION_1 = 1 << VIRTIO_F_VERSION_1;
        const RING_PACKED = 1 << VIRTIO_F_RING_PACKED;
    }
}

impl Flags for Features {
    type Bits = u64;

    ghost exact = { ⊤ };

    ghost table = { (codes "SEG_MAX", 2 ^ bit.VIRTIO_BLK_F_SEG_MAX)
        ∷ (codes "RO", 2 ^ bit.VIRTIO_BLK_F_RO)
        ∷ (codes "BLK_SIZE", 2 ^ bit.VIRTIO_BLK_F_BLK_SIZE)
        ∷ (codes "FLUSH", 2 ^ bit.VIRTIO_BLK_F_FLUSH)
        ∷ (codes "MQ", 2 ^ bit.VIRTIO_BLK_F_MQ)
        ∷ (codes "DISCARD", 2 ^ bit.VIRTIO_BLK_F_DISCARD)
        ∷ (codes "WRITE_ZEROES", 2 ^ bit.VIRTIO_BLK_F_WRITE_ZEROES)
        ∷ (codes "INDIRECT_DESC", 2 ^ bit.VIRTIO_F_INDIRECT_DESC)
        ∷ (codes "PROTOCOL_FEATURES", 2 ^ protocol_bit.VHOST_USER_F_PROTOCOL_FEATURES)
        ∷ (codes "VERSION_1", 2 ^ bit.VIRTIO_F_VERSION_1)
        ∷ (codes "RING_PACKED", 2 ^ bit.VIRTIO_F_RING_PACKED)
        ∷ [] };

    ghost set_of = { λ f. f.0 };

    fn flags<'a>() -> &'a [Flag<Features>] {
        Features::FLAGS
    }

    fn bits(&self) -> u64 {
        self.0
    }

    fn from_bits_retain(bits: u64) -> Features {
        Features(bits)
    }
}

/// A set of features of the protocol between front end and backend.
#[derive(Clone, Copy, PartialEq, Eq, Debug)]
pub struct ProtocolFeatures(pub u64);

bitflag_items! {
    impl ProtocolFeatures: u64 {
        const MQ = 1 << VHOST_USER_PROTOCOL_F_MQ;
        const REPLY_ACK = 1 << VHOST_USER_PROTOCOL_F_REPLY_ACK;
        const CONFIG = 1 << VHOST_USER_PROTOCOL_F_CONFIG;
        const INFLIGHT_SHMFD = 1 << VHOST_USER_PROTOCOL_F_INFLIGHT_SHMFD;
    }
}

impl Flags for ProtocolFeatures {
    type Bits = u64;

    ghost exact = { ⊤ };

    ghost table = { (codes "MQ", 2 ^ protocol_bit.VHOST_USER_PROTOCOL_F_MQ)
        ∷ (codes "REPLY_ACK", 2 ^ protocol_bit.VHOST_USER_PROTOCOL_F_REPLY_ACK)
        ∷ (codes "CONFIG", 2 ^ protocol_bit.VHOST_USER_PROTOCOL_F_CONFIG)
        ∷ (codes "INFLIGHT_SHMFD", 2 ^ protocol_bit.VHOST_USER_PROTOCOL_F_INFLIGHT_SHMFD)
        ∷ [] };

    ghost set_of = { λ f. f.0 };

    fn flags<'a>() -> &'a [Flag<ProtocolFeatures>] {
        ProtocolFeatures::FLAGS
    }

    fn bits(&self) -> u64 {
        self.0
    }

    fn from_bits_retain(bits: u64) -> ProtocolFeatures {
        ProtocolFeatures(bits)
    }
}

/// The features that the device offers: 0x5_5000_7244, and where it is read-only 0x5_5000_7264.
pub fn offered_features(read_only: bool) -> Features
    ensures { result.0 ≡ offered read_only }
{
    let mut features = Features::SEG_MAX;
    features.insert(Features::BLK_SIZE);
    features.insert(Features::FLUSH);
    features.insert(Features::MQ);
    features.insert(Features::DISCARD);
    features.insert(Features::WRITE_ZEROES);
    features.insert(Features::INDIRECT_DESC);
    features.insert(Features::PROTOCOL_FEATURES);
    features.insert(Features::VERSION_1);
    features.insert(Features::RING_PACKED);
    if read_only {
        features.insert(Features::RO);
    }
    features
}

/// The protocol features that the backend offers: 0x1209.
pub fn offered_protocol_features() -> ProtocolFeatures
    ensures { result.0 ≡ offered_protocol }
{
    let mut features = ProtocolFeatures::MQ;
    features.insert(ProtocolFeatures::REPLY_ACK);
    features.insert(ProtocolFeatures::CONFIG);
    features.insert(ProtocolFeatures::INFLIGHT_SHMFD);
    features
}
