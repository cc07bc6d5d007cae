//! Messages as bytes. Each `put` appends one piece.
ghost use Rattle.std.specs.Prelude.{◌≡◌, ◌≤◌, ◌+◌, ◌*◌, ◌++◌, [], false, length, replicate};
ghost use Rattle.std.specs.List.{flat_map, AllByRecursion};
ghost use Rattle.arrayvec.specs.ArrayVec.{array_vec_len};
ghost use Rattle.byteorder.specs.Endian.{little_bytes};
ghost use Rattle.vub_wire.specs.Flags.{version, marks_reply};
ghost use Rattle.vub_wire.specs.Grammar.{pair_bytes, region_bytes, table_bytes, config_bytes, inflight_bytes, tail_size, number_of, header_bytes, Fits32, RegionFits, ConfigFits, InflightFits, Fits, IsMessage};
ghost use Rattle.vub_wire.specs.Writing.{zeros, written_payload, written_header, message_bytes, IsNamed};

use crate::numbers::{
    CONFIG_HEADER_SIZE, GET_CONFIG, GET_FEATURES, GET_INFLIGHT_FD, GET_PROTOCOL_FEATURES,
    GET_QUEUE_NUM, GET_VRING_BASE, HEADER_SIZE, INFLIGHT_SIZE, LONG_INFLIGHT_SIZE,
    MAX_MESSAGE_SIZE, MAX_REGIONS, NUMBER_SIZE, REGION_SIZE, SET_CONFIG, SET_FEATURES,
    SET_INFLIGHT_FD, SET_MEM_TABLE, SET_OWNER, SET_PROTOCOL_FEATURES, SET_VRING_ADDR,
    SET_VRING_BASE, SET_VRING_CALL, SET_VRING_ENABLE, SET_VRING_ERR, SET_VRING_KICK, SET_VRING_NUM,
    TABLE_HEADER_SIZE, VERSION, VRING_ADDR_SIZE,
};
use crate::{Config, Header, Inflight, Message};
use arrayvec::ArrayVec;
use byteorder::{ByteOrder, LittleEndian};
use vub_memtable::Region;

/// Bytes as they are.
fn put(out: &mut ArrayVec<u8, MAX_MESSAGE_SIZE>, bytes: &[u8])
    requires { array_vec_len out.old + length bytes.now ≤ MAX_MESSAGE_SIZE }
    ensures items { out.new.items ≡ out.old.items ++ bytes.now }
    ensures len { array_vec_len out.new ≡ array_vec_len out.old + length bytes.now }
{
    if out.try_extend_from_slice(bytes).is_err() {
        unreachable!();
    }
}

/// A number in 2 bytes.
fn put_u16(out: &mut ArrayVec<u8, MAX_MESSAGE_SIZE>, number: u16)
    requires { array_vec_len out.old + 2 ≤ MAX_MESSAGE_SIZE }
    ensures items { out.new.items ≡ out.old.items ++ little_bytes 2 number }
    ensures len { array_vec_len out.new ≡ array_vec_len out.old + 2 }
{
    let mut field = [0; 2];
    LittleEndian::write_u16(&mut field, number);
    put(out, &field);
}

/// A number in 4 bytes.
fn put_u32(out: &mut ArrayVec<u8, MAX_MESSAGE_SIZE>, number: u32)
    requires { array_vec_len out.old + 4 ≤ MAX_MESSAGE_SIZE }
    ensures items { out.new.items ≡ out.old.items ++ little_bytes 4 number }
    ensures len { array_vec_len out.new ≡ array_vec_len out.old + 4 }
{
    let mut field = [0; 4];
    LittleEndian::write_u32(&mut field, number);
    put(out, &field);
}

/// A number in 8 bytes.
pub(crate) fn put_u64(out: &mut ArrayVec<u8, MAX_MESSAGE_SIZE>, number: u64)
    requires { array_vec_len out.old + 8 ≤ MAX_MESSAGE_SIZE }
    ensures items { out.new.items ≡ out.old.items ++ little_bytes 8 number }
    ensures len { array_vec_len out.new ≡ array_vec_len out.old + 8 }
{
    let mut field = [0; 8];
    LittleEndian::write_u64(&mut field, number);
    put(out, &field);
}

/// The number of a queue and another.
pub(crate) fn put_pair(out: &mut ArrayVec<u8, MAX_MESSAGE_SIZE>, index: u32, num: u32)
    requires { array_vec_len out.old + 8 ≤ MAX_MESSAGE_SIZE }
    ensures items { out.new.items ≡ out.old.items ++ pair_bytes index num }
    ensures len { array_vec_len out.new ≡ array_vec_len out.old + 8 }
{
    put_u32(out, index);
    put_u32(out, num);
}

/// A region of the memory table.
#[tactic(auto, unfolding(crate::specs::Grammar::region_bytes))]
fn put_region(out: &mut ArrayVec<u8, MAX_MESSAGE_SIZE>, region: &Region)
    requires { array_vec_len out.old + REGION_SIZE ≤ MAX_MESSAGE_SIZE }
    ensures fits { RegionFits region.now }
    ensures items { out.new.items ≡ out.old.items ++ region_bytes region.now }
    ensures len { array_vec_len out.new ≡ array_vec_len out.old + REGION_SIZE }
{
    put_u64(out, region.guest);
    put_u64(out, region.size);
    put_u64(out, region.user);
    put_u64(out, region.offset);
}

/// The regions of a memory table.
fn put_regions(out: &mut ArrayVec<u8, MAX_MESSAGE_SIZE>, regions: &[Region])
    requires { array_vec_len out.old + REGION_SIZE * length regions.now ≤ MAX_MESSAGE_SIZE }
    ensures fits { AllByRecursion RegionFits regions.now }
    ensures items { out.new.items ≡ out.old.items ++ flat_map region_bytes regions.now }
{
    for region in regions {
        put_region(out, region);
    }
}

/// A memory table.
#[tactic(auto, unfolding(crate::specs::Grammar::table_bytes))]
fn put_table(out: &mut ArrayVec<u8, MAX_MESSAGE_SIZE>, regions: &[Region])
    requires room { array_vec_len out.old ≤ HEADER_SIZE }
    requires few { length regions.now ≤ MAX_REGIONS }
    ensures fits { AllByRecursion RegionFits regions.now }
    ensures items { out.new.items ≡ out.old.items ++ table_bytes regions.now zeros [] }
{
    put_u32(out, regions.len() as u32);
    put_u32(out, 0);
    put_regions(out, regions);
}

/// A part of the config space.
#[tactic(auto, unfolding(crate::specs::Grammar::config_bytes))]
pub(crate) fn put_config(out: &mut ArrayVec<u8, MAX_MESSAGE_SIZE>, config: &Config)
    requires { array_vec_len out.old ≤ HEADER_SIZE }
    ensures fits { ConfigFits config.now }
    ensures items { out.new.items ≡ out.old.items ++ config_bytes config.now }
{
    put_u32(out, config.offset);
    put_u32(out, config.size);
    put_u32(out, config.flags);
    put(out, config.bytes.as_slice());
}

/// An in-flight region.
#[tactic(auto, unfolding(crate::specs::Grammar::inflight_bytes))]
pub(crate) fn put_inflight(out: &mut ArrayVec<u8, MAX_MESSAGE_SIZE>, inflight: &Inflight)
    requires { array_vec_len out.old ≤ HEADER_SIZE }
    ensures fits { InflightFits inflight.now }
    ensures items { out.new.items ≡ out.old.items ++ inflight_bytes inflight.now (replicate (tail_size inflight.now.long) 0) }
{
    put_u64(out, inflight.size);
    put_u64(out, inflight.offset);
    put_u16(out, inflight.queues);
    put_u16(out, inflight.queue_size);
    if inflight.long {
        put_u32(out, 0);
    }
}

/// A header.
pub(crate) fn put_header(out: &mut ArrayVec<u8, MAX_MESSAGE_SIZE>, header: &Header)
    requires { out.old.items ≡ [] }
    ensures fits { Fits32 header.now.request }
    ensures items { out.new.items ≡ header_bytes header.now }
    ensures len { array_vec_len out.new ≡ HEADER_SIZE }
{
    put_u32(out, header.request);
    put_u32(out, header.flags);
    put_u32(out, header.size);
}

/// The number of a message's request (vhost-user, "Front-end message types").
pub fn number_of(message: &Message) -> u32
    ensures { result ≡ number_of message.now }
{
    match message {
        Message::GetFeatures => GET_FEATURES,
        Message::SetFeatures(_) => SET_FEATURES,
        Message::SetOwner => SET_OWNER,
        Message::SetMemTable(_) => SET_MEM_TABLE,
        Message::SetNum { .. } => SET_VRING_NUM,
        Message::SetAddr { .. } => SET_VRING_ADDR,
        Message::SetBase { .. } => SET_VRING_BASE,
        Message::GetBase { .. } => GET_VRING_BASE,
        Message::SetKick(_) => SET_VRING_KICK,
        Message::SetCall(_) => SET_VRING_CALL,
        Message::SetErr(_) => SET_VRING_ERR,
        Message::GetProtocol => GET_PROTOCOL_FEATURES,
        Message::SetProtocol(_) => SET_PROTOCOL_FEATURES,
        Message::GetQueueNum => GET_QUEUE_NUM,
        Message::SetEnable { .. } => SET_VRING_ENABLE,
        Message::GetConfig(_) => GET_CONFIG,
        Message::SetConfig(_) => SET_CONFIG,
        Message::GetInflight(_) => GET_INFLIGHT_FD,
        Message::SetInflight(_) => SET_INFLIGHT_FD,
        Message::Other(number) => *number,
    }
}

/// The size of an in-flight payload.
#[tactic(auto, unfolding(crate::specs::Grammar::inflight_bytes))]
pub(crate) fn inflight_size(inflight: &Inflight) -> u32
    ensures { result ≡ length (inflight_bytes inflight.now (replicate (tail_size inflight.now.long) 0)) }
{
    if inflight.long {
        LONG_INFLIGHT_SIZE as u32
    } else {
        INFLIGHT_SIZE as u32
    }
}

/// The size of a config payload.
#[tactic(auto, unfolding(crate::specs::Grammar::config_bytes))]
pub(crate) fn config_size(config: &Config) -> u32
    ensures { result ≡ length (config_bytes config.now) }
{
    (CONFIG_HEADER_SIZE + config.bytes.len()) as u32
}

/// The size of a memory table.
fn table_size(regions: &[Region]) -> u32
    requires { length regions.now ≤ MAX_REGIONS }
    ensures { result ≡ length (table_bytes regions.now zeros []) }
{
    (TABLE_HEADER_SIZE + REGION_SIZE * regions.len()) as u32
}

/// The size of a message's payload.
#[tactic(auto, unfolding(crate::specs::Grammar::address_bytes))]
fn size_of(message: &Message) -> u32
    ensures { result ≡ length (written_payload message.now) }
{
    match message {
        Message::GetFeatures
        | Message::SetOwner
        | Message::GetProtocol
        | Message::GetQueueNum
        | Message::Other(_) => 0,
        Message::SetMemTable(regions) => table_size(regions),
        Message::SetAddr { .. } => VRING_ADDR_SIZE as u32,
        Message::GetConfig(config) | Message::SetConfig(config) => config_size(config),
        Message::GetInflight(inflight) | Message::SetInflight(inflight) => inflight_size(inflight),
        _ => NUMBER_SIZE as u32,
    }
}

/// The payload of a message.
#[tactic(auto, unfolding(crate::specs::Grammar::address_bytes))]
fn put_payload(out: &mut ArrayVec<u8, MAX_MESSAGE_SIZE>, message: &Message)
    requires { array_vec_len out.old ≡ HEADER_SIZE }
    ensures fits { Fits32 (number_of message.now) → IsNamed message.now → Fits message.now }
    ensures items { out.new.items ≡ out.old.items ++ written_payload message.now }
{
    match message {
        Message::SetFeatures(number)
        | Message::SetProtocol(number)
        | Message::SetKick(number)
        | Message::SetCall(number)
        | Message::SetErr(number) => put_u64(out, *number),
        Message::SetMemTable(regions) => put_table(out, regions),
        Message::SetNum { index, num }
        | Message::SetBase { index, num }
        | Message::GetBase { index, num }
        | Message::SetEnable { index, num } => put_pair(out, *index, *num),
        Message::SetAddr {
            index,
            flags,
            desc,
            used,
            avail,
            log,
        } => {
            put_pair(out, *index, *flags);
            put_u64(out, *desc);
            put_u64(out, *used);
            put_u64(out, *avail);
            put_u64(out, *log);
        }
        Message::GetConfig(config) | Message::SetConfig(config) => put_config(out, config),
        Message::GetInflight(inflight) | Message::SetInflight(inflight) => put_inflight(
            out, inflight,
        ),
        _ => (),
    }
}

/// Writes a message with these flags. Free bytes are written as 0, a request that has no variant of its
/// own without a payload.
pub fn write_message(message: &Message, flags: u32, out: &mut ArrayVec<u8, MAX_MESSAGE_SIZE>)
    requires empty { out.old.items ≡ [] }
    requires named { IsNamed message.now }
    ensures written { out.new.items ≡ message_bytes message.now flags }
    // With version 1 and no reply bit it is that message, which is read again whatever follows it.
    ensures message { version flags ≡ VERSION → marks_reply flags ≡ false → IsMessage out.new.items (written_header message.now flags) message.now }
{
    let header = Header {
        request: number_of(message),
        flags,
        size: size_of(message),
    };
    put_header(out, &header);
    put_payload(out, message);
}
