//! Replies from their bytes, and as bytes.
ghost use Rattle.std.specs.Prelude.{◌≡◌, ◌≤◌, ◌++◌, [], ℕ, List, true, length, take, Ok, IfOk};
ghost use Rattle.std.specs.Result.{result_err};
ghost use Rattle.arrayvec.specs.ArrayVec.{array_vec_len};
ghost use Rattle.vub_wire.specs.declared.messages.Reply.{Reply};
ghost use Rattle.vub_wire.specs.Requests.{kind_at, has_reply_size};
ghost use Rattle.vub_wire.specs.Faults.{reply_fault};
ghost use Rattle.vub_wire.specs.Reading.{body_at, reply_behind, reply_at};
ghost use Rattle.vub_wire.specs.Replies.{kind_of, BodyFits, IsReply, written_body, reply_bytes};

use crate::numbers::{
    GET_CONFIG, GET_INFLIGHT_FD, GET_VRING_BASE, HEADER_SIZE, MAX_MESSAGE_SIZE, NUMBER_SIZE,
    REPLY_FLAGS,
};
use crate::reading::{checked_header, config_at, inflight_at};
use crate::requests::{is_config_size, is_inflight_size};
use crate::writing::{
    config_size, inflight_size, put_config, put_header, put_inflight, put_pair, put_u64,
};
use crate::{Header, Reply, ReplyBody, WireFault};
use arrayvec::ArrayVec;
use vub_base::{get_u32, get_u64};

/// What a reply carries. A refused request for config space is answered by an empty one.
#[derive(Clone, Copy)]
pub enum Kind {
    Number,
    State,
    Config,
    Inflight,
}

/// What a reply to this request carries.
fn kind_at(request: u32) -> Kind
    ensures { result ≡ kind_at request }
{
    match request {
        GET_VRING_BASE => Kind::State,
        GET_CONFIG => Kind::Config,
        GET_INFLIGHT_FD => Kind::Inflight,
        _ => Kind::Number,
    }
}

/// Whether a reply may have a payload of so many bytes.
fn has_size(kind: Kind, size: usize) -> bool
    ensures { result ≡ has_reply_size kind size }
{
    match kind {
        Kind::Number | Kind::State => size == NUMBER_SIZE,
        Kind::Config => size == 0 || is_config_size(size),
        Kind::Inflight => is_inflight_size(size),
    }
}

/// The body of a whole payload.
fn body_at(kind: Kind, payload: &[u8]) -> ReplyBody
    requires { has_reply_size kind (length payload.now) ≡ true }
    ensures { result ≡ body_at kind payload.now }
{
    match kind {
        Kind::Number => ReplyBody::Number(get_u64(payload, 0)),
        Kind::State => ReplyBody::State {
            index: get_u32(payload, 0),
            num: get_u32(payload, 4),
        },
        Kind::Config => {
            if payload.is_empty() {
                ReplyBody::Empty
            } else {
                ReplyBody::Config(config_at(payload))
            }
        }
        Kind::Inflight => ReplyBody::Inflight(inflight_at(payload)),
    }
}

/// The reply of a header and of the bytes behind it.
#[tactic(auto, unfolding(crate::specs::Reading::reply_behind))]
fn reply_behind(header: &Header, bytes: &[u8]) -> Result<(Reply, usize), WireFault>
    ensures { result ≡ reply_behind header.now bytes.now }
{
    let kind = kind_at(header.request);
    let size = header.size as usize;
    if !has_size(kind, size) {
        return Err(WireFault::BadSize(header.request, header.size));
    }
    if bytes.len() < size {
        return Err(WireFault::NeedMore);
    }
    let reply = Reply {
        request: header.request,
        body: body_at(kind, &bytes[..size]),
    };
    Ok((reply, HEADER_SIZE + size))
}

/// The reply at the front, with its length.
#[tactic(auto, unfolding(crate::specs::Reading::reply_at))]
fn reply_at(bytes: &[u8]) -> Result<(Reply, usize), WireFault>
    ensures { result ≡ reply_at bytes.now }
{
    let header = checked_header(bytes, true)?;
    reply_behind(&header, &bytes[HEADER_SIZE..])
}

/// The reply at the front of the bytes, with its length in bytes ("Message Specification"). The faults
/// are those of a message, but `ReplyBit` comes where the bit of a reply is missing, and `BadSize` where
/// a reply to that request doesn't have that size.
pub fn read_reply(bytes: &[u8]) -> Result<(Reply, usize), WireFault>
    // What is read is a reply at the front, with its length.
    ensures found { IfOk result (λ x. IsReply (take x.1 bytes.now) x.0 × (x.1 ≤ length bytes.now)) }
    // A reply at the front is read as that reply, whatever follows it.
    ensures only { (first rest : List ℕ) (r : Reply) → IsReply first r → bytes.now ≡ first ++ rest → result ≡ Ok (r, length first) }
    // The first fault that applies is the answer, and there is none where a reply is read.
    ensures fault { result_err result ≡ reply_fault bytes.now }
{
    reply_at(bytes)
}

/// The size of a reply's payload.
fn size_of(body: &ReplyBody) -> u32
    ensures { result ≡ length (written_body body.now) }
{
    match body {
        ReplyBody::Number(_) | ReplyBody::State { .. } => 8,
        ReplyBody::Config(config) => config_size(config),
        ReplyBody::Empty => 0,
        ReplyBody::Inflight(inflight) => inflight_size(inflight),
    }
}

/// The payload of a reply.
fn put_body(out: &mut ArrayVec<u8, MAX_MESSAGE_SIZE>, body: &ReplyBody)
    requires { array_vec_len out.old ≡ HEADER_SIZE }
    ensures fits { BodyFits body.now }
    ensures items { out.new.items ≡ out.old.items ++ written_body body.now }
{
    match body {
        ReplyBody::Number(number) => put_u64(out, *number),
        ReplyBody::State { index, num } => put_pair(out, *index, *num),
        ReplyBody::Config(config) => put_config(out, config),
        ReplyBody::Empty => (),
        ReplyBody::Inflight(inflight) => put_inflight(out, inflight),
    }
}

/// Writes a reply, with version 1 and the reply bit. Free bytes are written as 0.
pub fn write_reply(reply: &Reply, out: &mut ArrayVec<u8, MAX_MESSAGE_SIZE>)
    requires empty { out.old.items ≡ [] }
    // The body is of the kind that replies to the request have.
    requires kind { kind_at reply.now.request ≡ kind_of reply.now.body }
    ensures written { out.new.items ≡ reply_bytes reply.now }
    // It is that reply, which is read again whatever follows it.
    ensures reply { IsReply out.new.items reply.now }
{
    let header = Header {
        request: reply.request,
        flags: REPLY_FLAGS,
        size: size_of(&reply.body),
    };
    put_header(out, &header);
    put_body(out, &reply.body);
}
