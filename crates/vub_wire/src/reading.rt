//! Messages from their bytes.
ghost use Rattle.std.specs.Prelude.{◌≡◌, ◌≤◌, ◌+◌, ◌*◌, ◌++◌, ℕ, List, true, length, take, Ok, IfOk, OnOk};
ghost use Rattle.std.specs.Result.{result_err};
ghost use Rattle.vub_base.specs.Fields.{field};
ghost use Rattle.vub_wire.specs.Requests.{has_size, HasPair, request_at, allows};
ghost use Rattle.vub_wire.specs.declared.requests.Request.TheVariants.{SetAddr};
ghost use Rattle.vub_wire.specs.declared.messages.Header.{Header};
ghost use Rattle.vub_wire.specs.declared.messages.Message.{Message};
ghost use Rattle.vub_wire.specs.Grammar.{IsMessage};
ghost use Rattle.vub_wire.specs.Faults.{header_at, carries_all, message_fault};
ghost use Rattle.vub_wire.specs.Reading.{region_at, regions_at, config_at, inflight_at, message_of, message_in, message_carried, message_behind, checked_header, message_at};

use crate::numbers::{
    CONFIG_HEADER_SIZE, HEADER_SIZE, INFLIGHT_SIZE, LONG_INFLIGHT_SIZE, MAX_CONFIG_SIZE,
    MAX_PAYLOAD_SIZE, MAX_REGIONS, NUMBER_SIZE, REGION_SIZE, TABLE_HEADER_SIZE, VERSION,
    VRING_ADDR_SIZE,
};
use crate::requests::{Request, allows, request_at};
use crate::{Config, Header, HeaderFlags, Inflight, Message, WireFault};
use arrayvec::ArrayVec;
use vub_base::{get_u16, get_u32, get_u64};
use vub_memtable::Region;

/// The region from a place on.
#[tactic(auto, unfolding(crate::specs::Reading::region_at))]
fn region_at(at: usize, payload: &[u8]) -> Region
    requires { at + REGION_SIZE ≤ length payload.now }
    ensures { result ≡ region_at at payload.now }
{
    Region {
        guest: get_u64(payload, at),
        size: get_u64(payload, at + 8),
        user: get_u64(payload, at + 16),
        offset: get_u64(payload, at + 24),
    }
}

/// The first so many regions of a memory table.
fn regions_at(count: usize, payload: &[u8]) -> ArrayVec<Region, MAX_REGIONS>
    requires fits { TABLE_HEADER_SIZE + REGION_SIZE * count ≤ length payload.now }
    requires few { count ≤ MAX_REGIONS }
    ensures { result.items ≡ regions_at count payload.now }
{
    let mut regions = ArrayVec::new();
    while regions.len() < count {
        regions.push(region_at(TABLE_HEADER_SIZE + REGION_SIZE * regions.len(), payload));
    }
    regions
}

/// The payload of a config request.
#[tactic(auto, unfolding(crate::specs::Reading::config_at))]
pub(crate) fn config_at(payload: &[u8]) -> Config
    requires low { CONFIG_HEADER_SIZE ≤ length payload.now }
    requires high { length payload.now ≤ CONFIG_HEADER_SIZE + MAX_CONFIG_SIZE }
    ensures { result ≡ config_at payload.now }
{
    let mut bytes = ArrayVec::new();
    if bytes
        .try_extend_from_slice(&payload[CONFIG_HEADER_SIZE..])
        .is_err()
    {
        unreachable!();
    }
    Config {
        offset: get_u32(payload, 0),
        size: get_u32(payload, 4),
        flags: get_u32(payload, 8),
        bytes,
    }
}

/// The payload of an in-flight request.
#[tactic(auto, unfolding(crate::specs::Reading::inflight_at))]
pub(crate) fn inflight_at(payload: &[u8]) -> Inflight
    requires { INFLIGHT_SIZE ≤ length payload.now }
    ensures { result ≡ inflight_at payload.now }
{
    Inflight {
        size: get_u64(payload, 0),
        offset: get_u64(payload, 8),
        queues: get_u16(payload, 16),
        queue_size: get_u16(payload, 18),
        long: payload.len() == LONG_INFLIGHT_SIZE,
    }
}

/// The message of a request with a payload of two numbers of 4 bytes, that of a queue and another.
fn pair_of(request: Request, payload: &[u8]) -> Message
    requires size { length payload.now ≡ NUMBER_SIZE }
    requires pair { HasPair request }
    ensures { result ≡ message_of request payload.now }
{
    let index = get_u32(payload, 0);
    let num = get_u32(payload, 4);
    match request {
        Request::SetNum => Message::SetNum { index, num },
        Request::SetBase => Message::SetBase { index, num },
        Request::GetBase => Message::GetBase { index, num },
        Request::SetEnable => Message::SetEnable { index, num },
        _ => unreachable!(),
    }
}

/// The addresses of a ring.
fn addresses_at(payload: &[u8]) -> Message
    requires { length payload.now ≡ VRING_ADDR_SIZE }
    ensures { result ≡ message_of SetAddr payload.now }
{
    Message::SetAddr {
        index: get_u32(payload, 0),
        flags: get_u32(payload, 4),
        desc: get_u64(payload, 8),
        used: get_u64(payload, 16),
        avail: get_u64(payload, 24),
        log: get_u64(payload, 32),
    }
}

/// The message of a request with a payload of a size that it has.
fn message_of(request: Request, payload: &[u8]) -> Message
    requires size { has_size request (length payload.now) ≡ true }
    requires whole { carries_all (Some request) payload.now ≡ true }
    ensures { result ≡ message_of request payload.now }
{
    match request {
        Request::GetFeatures => Message::GetFeatures,
        Request::SetFeatures => Message::SetFeatures(get_u64(payload, 0)),
        Request::SetOwner => Message::SetOwner,
        Request::SetMemTable => {
            Message::SetMemTable(regions_at(get_u32(payload, 0) as usize, payload))
        }
        Request::SetAddr => addresses_at(payload),
        Request::SetKick => Message::SetKick(get_u64(payload, 0)),
        Request::SetCall => Message::SetCall(get_u64(payload, 0)),
        Request::SetErr => Message::SetErr(get_u64(payload, 0)),
        Request::GetProtocol => Message::GetProtocol,
        Request::SetProtocol => Message::SetProtocol(get_u64(payload, 0)),
        Request::GetQueueNum => Message::GetQueueNum,
        Request::GetConfig => Message::GetConfig(config_at(payload)),
        Request::SetConfig => Message::SetConfig(config_at(payload)),
        Request::GetInflight => Message::GetInflight(inflight_at(payload)),
        Request::SetInflight => Message::SetInflight(inflight_at(payload)),
        _ => pair_of(request, payload),
    }
}

/// Whether a payload carries what it counts: a memory table so many regions.
fn carries_all(request: Option<Request>, payload: &[u8]) -> bool
    requires { allows request (length payload.now) ≡ true }
    ensures { result ≡ carries_all request payload.now }
{
    match request {
        Some(Request::SetMemTable) => {
            get_u32(payload, 0) as usize <= (payload.len() - TABLE_HEADER_SIZE) / REGION_SIZE
        }
        _ => true,
    }
}

/// The message with this number, of a payload of a size that it has.
fn message_in(number: u32, request: Option<Request>, payload: &[u8]) -> Message
    requires size { allows request (length payload.now) ≡ true }
    requires whole { carries_all request payload.now ≡ true }
    ensures { result ≡ message_in number request payload.now }
{
    match request {
        None => Message::Other(number),
        Some(request) => message_of(request, payload),
    }
}

/// The message of a header and of the bytes behind it.
#[tactic(auto, unfolding(crate::specs::Reading::message_behind, crate::specs::Reading::message_carried))]
fn message_behind(header: &Header, bytes: &[u8]) -> Result<Message, WireFault>
    ensures { result ≡ message_behind header.now (request_at header.now.request) bytes.now }
{
    let request = request_at(header.request);
    let size = header.size as usize;
    if !allows(request, size) {
        return Err(WireFault::BadSize(header.request, header.size));
    }
    if bytes.len() < size {
        return Err(WireFault::NeedMore);
    }
    let payload = &bytes[..size];
    if !carries_all(request, payload) {
        return Err(WireFault::BadSize(header.request, header.size));
    }
    Ok(message_in(header.request, request, payload))
}

/// The header that the first bytes spell.
#[tactic(auto, unfolding(crate::specs::Faults::header_at))]
fn header_at(bytes: &[u8]) -> Header
    requires { HEADER_SIZE ≤ length bytes.now }
    ensures { result ≡ header_at bytes.now }
{
    Header {
        request: get_u32(bytes, 0),
        flags: get_u32(bytes, 4),
        size: get_u32(bytes, 8),
    }
}

/// The header at the front, of a message or, where `reply` is true, of a reply.
#[tactic(auto, unfolding(crate::specs::Reading::checked_header))]
pub(crate) fn checked_header(bytes: &[u8], reply: bool) -> Result<Header, WireFault>
    ensures is { result ≡ checked_header reply bytes.now }
    ensures long { OnOk result (HEADER_SIZE ≤ length bytes.now) }
{
    if bytes.len() < HEADER_SIZE {
        return Err(WireFault::NeedMore);
    }
    let header = header_at(bytes);
    let flags = HeaderFlags(header.flags);
    if flags.version() != VERSION {
        return Err(WireFault::BadVersion);
    }
    if flags.is_reply() != reply {
        return Err(WireFault::ReplyBit);
    }
    if header.size > MAX_PAYLOAD_SIZE {
        return Err(WireFault::TooLarge);
    }
    Ok(header)
}

/// The message at the front, with its header and its length.
#[tactic(auto, unfolding(crate::specs::Reading::message_at))]
fn message_at(bytes: &[u8]) -> Result<(Header, Message, usize), WireFault>
    ensures { result ≡ message_at bytes.now }
{
    let header = checked_header(bytes, false)?;
    let message = message_behind(&header, &bytes[HEADER_SIZE..])?;
    Ok((header, message, HEADER_SIZE + header.size as usize))
}

/// The message at the front of the bytes, with its header and its length in bytes ("Message
/// Specification"). A fault is the first that applies: `NeedMore` under 12 bytes; `BadVersion`;
/// `ReplyBit` where the bit of a reply is set; `TooLarge`; `BadSize` where the request doesn't have
/// that size; `NeedMore` where the payload isn't whole; `BadSize` of a memory table that counts more
/// regions than it carries.
pub fn read_message(bytes: &[u8]) -> Result<(Header, Message, usize), WireFault>
    // What is read is a message at the front, with its length.
    ensures found { IfOk result (λ x. IsMessage (take x.2 bytes.now) x.0 x.1 × (x.2 ≤ length bytes.now)) }
    // A message at the front is read as that message, whatever follows it.
    ensures only { (first rest : List ℕ) (h : Header) (m : Message) → IsMessage first h m → bytes.now ≡ first ++ rest → result ≡ Ok (h, m, length first) }
    // The first fault that applies is the answer, and there is none where a message is read.
    ensures fault { result_err result ≡ message_fault bytes.now }
{
    message_at(bytes)
}
