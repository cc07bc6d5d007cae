//! The types of requests (VIRTIO 1.2, 5.2.6).
ghost use Rattle.std.specs.Prelude.{◌≡◌};
ghost use Rattle.vub_blkreq.specs.Requests.{type_of_number, lacks_feature, writes_sectors};

use crate::request::DeviceMode;
use vub_base::standard::{
    VIRTIO_BLK_T_DISCARD, VIRTIO_BLK_T_FLUSH, VIRTIO_BLK_T_GET_ID, VIRTIO_BLK_T_IN,
    VIRTIO_BLK_T_OUT, VIRTIO_BLK_T_WRITE_ZEROES,
};

/// The type of a request.
#[derive(Clone, Copy, Debug, PartialEq, Eq)]
pub enum RequestType {
    In,
    Out,
    Flush,
    GetId,
    Discard,
    WriteZeroes,
}

impl RequestType {
    /// The type with a number, as it stands in the header.
    pub fn of_number(number: u32) -> Option<RequestType>
        ensures { result ≡ type_of_number number }
    {
        match number {
            VIRTIO_BLK_T_IN => Some(RequestType::In),
            VIRTIO_BLK_T_OUT => Some(RequestType::Out),
            VIRTIO_BLK_T_FLUSH => Some(RequestType::Flush),
            VIRTIO_BLK_T_GET_ID => Some(RequestType::GetId),
            VIRTIO_BLK_T_DISCARD => Some(RequestType::Discard),
            VIRTIO_BLK_T_WRITE_ZEROES => Some(RequestType::WriteZeroes),
            _ => None,
        }
    }

    /// Whether the type belongs to a feature that wasn't negotiated.
    pub fn lacks_feature(self, mode: &DeviceMode) -> bool
        ensures { result ≡ lacks_feature mode.now self }
    {
        match self {
            RequestType::Flush => !mode.flush,
            RequestType::Discard => !mode.discard,
            RequestType::WriteZeroes => !mode.write_zeroes,
            RequestType::In | RequestType::Out | RequestType::GetId => false,
        }
    }

    /// Whether the type changes what the disk holds.
    pub fn writes_sectors(self) -> bool
        ensures { result ≡ writes_sectors self }
    {
        matches!(
            self,
            RequestType::Out | RequestType::Discard | RequestType::WriteZeroes
        )
    }
}
