//! The requests that have a variant of their own, and the sizes of their payloads.
ghost use Rattle.std.specs.Prelude.{◌≡◌};
ghost use Rattle.vub_wire.specs.Requests.{request_at, is_config_size, is_inflight_size, has_size, allows};

use crate::numbers::{
    CONFIG_HEADER_SIZE, GET_CONFIG, GET_FEATURES, GET_INFLIGHT_FD, GET_PROTOCOL_FEATURES,
    GET_QUEUE_NUM, GET_VRING_BASE, INFLIGHT_SIZE, LONG_INFLIGHT_SIZE, MAX_CONFIG_SIZE, MAX_REGIONS,
    NUMBER_SIZE, REGION_SIZE, SET_CONFIG, SET_FEATURES, SET_INFLIGHT_FD, SET_MEM_TABLE, SET_OWNER,
    SET_PROTOCOL_FEATURES, SET_VRING_ADDR, SET_VRING_BASE, SET_VRING_CALL, SET_VRING_ENABLE,
    SET_VRING_ERR, SET_VRING_KICK, SET_VRING_NUM, TABLE_HEADER_SIZE, VRING_ADDR_SIZE,
};

/// A request that has a variant of its own.
#[derive(Clone, Copy)]
pub enum Request {
    GetFeatures,
    SetFeatures,
    SetOwner,
    SetMemTable,
    SetNum,
    SetAddr,
    SetBase,
    GetBase,
    SetKick,
    SetCall,
    SetErr,
    GetProtocol,
    SetProtocol,
    GetQueueNum,
    SetEnable,
    GetConfig,
    SetConfig,
    GetInflight,
    SetInflight,
}

/// The request of this number.
#[tactic(auto, unfolding(crate::specs::Requests::request_at))]
pub fn request_at(number: u32) -> Option<Request>
    ensures { result ≡ request_at number }
{
    Some(match number {
        GET_FEATURES => Request::GetFeatures,
        SET_FEATURES => Request::SetFeatures,
        SET_OWNER => Request::SetOwner,
        SET_MEM_TABLE => Request::SetMemTable,
        SET_VRING_NUM => Request::SetNum,
        SET_VRING_ADDR => Request::SetAddr,
        SET_VRING_BASE => Request::SetBase,
        GET_VRING_BASE => Request::GetBase,
        SET_VRING_KICK => Request::SetKick,
        SET_VRING_CALL => Request::SetCall,
        SET_VRING_ERR => Request::SetErr,
        GET_PROTOCOL_FEATURES => Request::GetProtocol,
        SET_PROTOCOL_FEATURES => Request::SetProtocol,
        GET_QUEUE_NUM => Request::GetQueueNum,
        SET_VRING_ENABLE => Request::SetEnable,
        GET_CONFIG => Request::GetConfig,
        SET_CONFIG => Request::SetConfig,
        GET_INFLIGHT_FD => Request::GetInflight,
        SET_INFLIGHT_FD => Request::SetInflight,
        _ => return None,
    })
}

/// Whether a payload for config space may have so many bytes.
pub fn is_config_size(size: usize) -> bool
    ensures { result ≡ is_config_size size }
{
    size >= CONFIG_HEADER_SIZE && size - CONFIG_HEADER_SIZE <= MAX_CONFIG_SIZE
}

/// Whether an in-flight payload may have so many bytes.
pub fn is_inflight_size(size: usize) -> bool
    ensures { result ≡ is_inflight_size size }
{
    size == INFLIGHT_SIZE || size == LONG_INFLIGHT_SIZE
}

impl Request {
    /// Whether the request has a payload of so many bytes.
    pub fn has_size(self, size: usize) -> bool
        ensures { result ≡ has_size self size }
    {
        match self {
            Request::GetFeatures
            | Request::SetOwner
            | Request::GetProtocol
            | Request::GetQueueNum => size == 0,
            Request::SetMemTable => {
                size >= TABLE_HEADER_SIZE
                    && (size - TABLE_HEADER_SIZE) % REGION_SIZE == 0
                    && (size - TABLE_HEADER_SIZE) / REGION_SIZE <= MAX_REGIONS
            }
            Request::SetAddr => size == VRING_ADDR_SIZE,
            Request::GetConfig | Request::SetConfig => is_config_size(size),
            Request::GetInflight | Request::SetInflight => is_inflight_size(size),
            _ => size == NUMBER_SIZE,
        }
    }
}

/// Whether a request may have a payload of so many bytes. One without a variant of its own may have
/// any.
pub fn allows(request: Option<Request>, size: usize) -> bool
    ensures { result ≡ allows request size }
{
    match request {
        None => true,
        Some(request) => request.has_size(size),
    }
}
