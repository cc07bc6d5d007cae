//! The message table: what a message does to a session, and what its row answers.
ghost use Rattle.std.specs.Option.{ForSome};
ghost use Rattle.std.specs.Prelude.{◌≡◌, ◌≢◌, ◌≤◌, ◌<◌, ℕ, Some, None, IfSome, OnSome, length, true};
ghost use Rattle.vub_session.specs.declared.handled.Handled.TheVariants.{Drain};
ghost use Rattle.vub_session.specs.Sound.{IsCandidate, IsSound};
ghost use Rattle.vub_session.specs.Keeps.{KeepsAttached};
ghost use Rattle.vub_session.specs.Sent.{IsSent};
ghost use Rattle.vub_session.specs.Table as table;
ghost use Rattle.vub_wire.specs.Grammar.{number_of};
ghost use Rattle.vub_wire.specs.Replies.{kind_of};
ghost use Rattle.vub_wire.specs.Requests.{kind_at};

use crate::finding::Found;
use crate::handled::Row;
use crate::rows::{brings_descriptor, queue_in};
use crate::state::{Addresses, MAX_QUEUES, Ring, State, Terms};
use crate::{Handled, Refusal};
use arrayvec::ArrayVec;
use vub_blkreq::{
    CONFIG_SIZE, ProtocolFeatures, config_space, offered_features, offered_protocol_features,
};
use vub_memtable::{Mapped, MemTable, Region};
use vub_wire::numbers::{
    GET_CONFIG, GET_INFLIGHT_FD, GET_VRING_BASE, MAX_REGIONS, SET_CONFIG, SET_MEM_TABLE,
};
use vub_wire::{Config, Header, HeaderFlags, Inflight, Message, Reply, ReplyBody, number_of};

/// Carried out, with no reply of its own.
fn done() -> Row
    ensures { result ≡ record { cause = None; reply = None } }
{
    Row {
        cause: None,
        reply: None,
    }
}

/// With a reply of its own.
fn replied(body: ReplyBody) -> Row
    ensures { result ≡ record { cause = None; reply = Some body } }
{
    Row {
        cause: None,
        reply: Some(body),
    }
}

/// Refused, with no reply of its own.
fn refused(cause: Refusal) -> Row
    ensures { result ≡ record { cause = Some cause; reply = None } }
{
    Row {
        cause: Some(cause),
        reply: None,
    }
}

/// Refused, with a reply of its own.
fn refused_with(cause: Refusal, body: ReplyBody) -> Row
    ensures { result ≡ record { cause = Some cause; reply = Some body } }
{
    Row {
        cause: Some(cause),
        reply: Some(body),
    }
}

/// The regions with what was found for them.
fn mapped(regions: &[Region], found: &[Found]) -> ArrayVec<Mapped, MAX_REGIONS>
    requires { length regions.now ≤ MAX_REGIONS }
    ensures { result.items ≡ table.mapped regions.now found.now }
{
    let mut mapped = ArrayVec::new();
    for (at, region) in regions.iter().enumerate() {
        let Some(found) = found.get(at) else {
            break;
        };
        mapped.push(Mapped {
            region: *region,
            space: found.space,
            space_size: found.size,
        });
    }
    mapped
}

impl State {
    /// Takes these terms, with each ring attached that is ready; or refuses the request.
    #[tactic(auto, unfolding(crate::specs::Table::settled), using(crate::proofs::AttachLemmas::attach_candidate, crate::proofs::AttachLemmas::attach_ready, crate::proofs::KeepLemmas::none_changes, crate::proofs::KeepLemmas::settled_keeps))]
    fn settle(&mut self, request: u32, terms: Option<Terms>) -> Row
        requires sound { IsSound self.old }
        requires candidate { ForSome terms (IsCandidate self.old.config.queues self.old.table) }
        requires keeps { ForSome terms (KeepsAttached self.old.terms) }
        ensures next { self.new ≡ (table.settled self.old request terms).next }
        ensures row { result ≡ (table.settled self.old request terms).row }
        ensures no_reply { result.reply ≡ None }
        ensures refused { OnSome result.cause (self.new ≡ self.old) }
        ensures sound { IsSound self.new }
        ensures keeps { KeepsAttached self.old.terms self.new.terms }
    {
        let Some(terms) = terms else {
            return refused(Refusal::Row(request));
        };
        if let Some(ring) = terms.bad_ring(&self.table, self.config.queues) {
            return refused(Refusal::BadRing(request, ring));
        }
        self.terms = terms.attach();
        done()
    }

    /// Takes these regions as the memory table.
    #[tactic(auto, unfolding(crate::specs::Table::table_set), using(crate::proofs::SoundLemmas::table_candidate, crate::proofs::AttachLemmas::attach_candidate, crate::proofs::AttachLemmas::attach_ready))]
    fn set_table(&mut self, regions: &[Mapped]) -> Row
        requires sound { IsSound self.old }
        ensures next { self.new ≡ (table.table_set self.old regions.now).next }
        ensures row { result ≡ (table.table_set self.old regions.now).row }
        ensures no_reply { result.reply ≡ None }
        ensures refused { OnSome result.cause (self.new ≡ self.old) }
        ensures sound { IsSound self.new }
        ensures keeps { KeepsAttached self.old.terms self.new.terms }
    {
        let mut table = MemTable::new();
        if self.terms.is_running() || table.set(regions).is_err() {
            return refused(Refusal::Row(SET_MEM_TABLE));
        }
        let terms = Terms {
            has_table: true,
            ..self.terms
        };
        if let Some(ring) = terms.bad_ring(&table, self.config.queues) {
            return refused(Refusal::BadRing(SET_MEM_TABLE, ring));
        }
        self.terms = terms.attach();
        self.table = table;
        done()
    }

    /// The base of a ring.
    #[tactic(auto, unfolding(crate::specs::Table::base_reply))]
    fn base_reply(&self, index: u32) -> Row
        requires { self.now.config.queues ≤ MAX_QUEUES }
        ensures is { result ≡ (table.base_reply self.now index).row }
        ensures next { (table.base_reply self.now index).next ≡ self.now }
        ensures kind { IfSome result.reply (λ body. kind_at GET_VRING_BASE ≡ kind_of body) }
    {
        let Some(ring) = self.ring(index) else {
            let none = ReplyBody::State { index, num: 0 };
            return refused_with(Refusal::Row(GET_VRING_BASE), none);
        };
        let num = ring.base.unwrap_or(0);
        replied(ReplyBody::State { index, num })
    }

    /// The part of the config space that is asked for.
    #[tactic(auto, unfolding(crate::specs::Table::config_part))]
    fn config_part(&self, config: &Config) -> Config
        requires { table.is_config_part config.now ≡ true }
        ensures { result ≡ table.config_part self.now config.now }
    {
        let space = config_space(&self.config);
        let start = config.offset as usize;
        let end = start + config.size as usize;
        let mut bytes = ArrayVec::new();
        if bytes.try_extend_from_slice(&space[start..end]).is_err() {
            unreachable!();
        }
        Config {
            offset: config.offset,
            size: config.size,
            flags: config.flags,
            bytes,
        }
    }

    /// A part of the config space, or nothing where it is none.
    #[tactic(auto, unfolding(crate::specs::Table::config_reply))]
    fn config_reply(&self, config: &Config) -> Row
        ensures is { result ≡ (table.config_reply self.now config.now).row }
        ensures next { (table.config_reply self.now config.now).next ≡ self.now }
        ensures kind { IfSome result.reply (λ body. kind_at GET_CONFIG ≡ kind_of body) }
    {
        let end = u64::from(config.offset) + u64::from(config.size);
        if config.bytes.len() == config.size as usize && end <= CONFIG_SIZE as u64 {
            replied(ReplyBody::Config(self.config_part(config)))
        } else {
            refused_with(Refusal::Row(GET_CONFIG), ReplyBody::Empty)
        }
    }

    /// The numbers of an in-flight region that was made, or a size of 0 where none was.
    #[tactic(auto, unfolding(crate::specs::Table::inflight_reply))]
    fn inflight_reply(&self, inflight: &Inflight) -> Row
        ensures is { result ≡ (table.inflight_reply self.now inflight.now).row }
        ensures next { (table.inflight_reply self.now inflight.now).next ≡ self.now }
        ensures kind { IfSome result.reply (λ body. kind_at GET_INFLIGHT_FD ≡ kind_of body) }
    {
        let made = self.has_inflight_numbers(inflight);
        let size = if made {
            self.inflight_size(inflight)
        } else {
            0
        };
        let body = ReplyBody::Inflight(Inflight {
            size,
            offset: 0,
            ..*inflight
        });
        if made {
            replied(body)
        } else {
            refused_with(Refusal::Row(GET_INFLIGHT_FD), body)
        }
    }
}

impl State {
    /// What the row of a message makes of the session, and answers. `found` is what its look-ups or its
    /// creation answered.
    #[tactic(auto, unfolding(crate::specs::Table::step), using(crate::proofs::KeepLemmas::none_changes))]
    fn step(&mut self, message: &Message, found: &[Found]) -> Row
        requires { IsSound self.old }
        ensures next { self.new ≡ (table.step self.old message.now found.now).next }
        ensures row { result ≡ (table.step self.old message.now found.now).row }
        // A refused request changes nothing.
        ensures refused { OnSome result.cause (self.new ≡ self.old) }
        // A reply is of the kind that its request has.
        ensures kind { IfSome result.reply (λ body. kind_at (number_of message.now) ≡ kind_of body) }
        ensures sound { IsSound self.new }
        ensures keeps { KeepsAttached self.old.terms self.new.terms }
    {
        match message {
            Message::GetFeatures => {
                let features = offered_features(self.config.read_only);
                replied(ReplyBody::Number(features.0))
            }
            Message::SetOwner => done(),
            Message::SetMemTable(regions) => self.set_table(&mapped(regions, found)),
            Message::GetBase { index, .. } => self.base_reply(*index),
            Message::GetProtocol => replied(ReplyBody::Number(offered_protocol_features().0)),
            Message::GetQueueNum => replied(ReplyBody::Number(u64::from(self.config.queues))),
            Message::GetConfig(config) => self.config_reply(config),
            Message::SetConfig(_) => refused(Refusal::Row(SET_CONFIG)),
            Message::GetInflight(inflight) => self.inflight_reply(inflight),
            Message::Other(request) => refused(Refusal::Row(*request)),
            _ => {
                let terms = self.next_terms(message, found);
                self.settle(number_of(message), terms)
            }
        }
    }

    /// The terms that a request leaves which changes nothing else, or None where its row refuses it.
    #[tactic(auto, unfolding(crate::specs::Table::next_terms))]
    fn next_terms(&self, message: &Message, found: &[Found]) -> Option<Terms>
        requires few { self.now.config.queues ≤ MAX_QUEUES }
        requires changes { table.changes_terms message.now ≡ true }
        requires sound { IsCandidate self.now.config.queues self.now.table self.now.terms }
        ensures is { result ≡ table.next_terms self.now message.now found.now }
        ensures candidate { ForSome result (IsCandidate self.now.config.queues self.now.table) }
        ensures keeps { ForSome result (KeepsAttached self.now.terms) }
    {
        match message {
            Message::SetFeatures(set) => self.with_features(*set),
            Message::SetNum { index, num } => self.with_size(*index, *num),
            Message::SetAddr {
                index,
                desc,
                used,
                avail,
                ..
            } => {
                let addresses = Addresses {
                    desc: *desc,
                    avail: *avail,
                    used: *used,
                };
                self.with_addresses(*index, addresses)
            }
            Message::SetBase { index, num } => self.with_base(*index, *num),
            Message::SetKick(word) => self.with_kick(*word),
            Message::SetCall(word) => self.with_call(*word),
            Message::SetErr(word) => self.with_err(*word),
            Message::SetProtocol(set) => self.with_protocol(*set),
            Message::SetEnable { index, num } => self.with_enable(*index, *num),
            Message::SetInflight(inflight) => self.with_region(inflight, found),
            _ => unreachable!(),
        }
    }

    /// How many names a message takes.
    #[tactic(auto, unfolding(crate::specs::Table::names_taken))]
    pub(crate) fn names_taken(&self, message: &Message) -> usize
        ensures { result ≡ table.names_taken self.now message.now }
    {
        match message {
            Message::SetMemTable(regions) => regions.len(),
            Message::SetKick(word) | Message::SetCall(word) | Message::SetErr(word) => {
                usize::from(brings_descriptor(*word))
            }
            Message::GetInflight(inflight) => usize::from(self.has_inflight_numbers(inflight)),
            Message::SetInflight(_) => 1,
            _ => 0,
        }
    }

    /// The size of the space that a message makes, if it makes one.
    #[tactic(auto, unfolding(crate::specs::Table::created, crate::specs::Table::names_taken))]
    pub(crate) fn created(&self, message: &Message) -> Option<u64>
        ensures is { result ≡ table.created self.now message.now }
        ensures taken { OnSome result (table.names_taken self.now message.now ≡ 1) }
    {
        match message {
            Message::GetInflight(inflight) if self.has_inflight_numbers(inflight) => {
                Some(self.inflight_size(inflight))
            }
            _ => None,
        }
    }

    /// The queue whose bell a message attaches to a call, if it brings one.
    #[tactic(auto, unfolding(crate::specs::Table::bell_attached, crate::specs::Table::created, crate::specs::Table::looked_up))]
    pub(crate) fn bell_attached(&self, message: &Message) -> Option<u16>
        requires { self.now.config.queues ≤ MAX_QUEUES }
        ensures is { result ≡ table.bell_attached self.now message.now }
        ensures no_space { OnSome result (table.created self.now message.now ≡ None) }
        ensures no_look_up { OnSome result (table.looked_up message.now ≡ 0) }
    {
        let Message::SetCall(word) = message else {
            return None;
        };
        let _ring = self.ring(queue_in(*word))?;
        if brings_descriptor(*word) {
            Some(queue_in(*word) as u16)
        } else {
            None
        }
    }

    /// The attached queue that a message stops, if it stops one.
    #[tactic(auto, unfolding(crate::specs::Table::drained, crate::specs::Table::names_taken, crate::specs::Table::bell_attached))]
    pub(crate) fn drained(&self, message: &Message) -> Option<u16>
        requires { self.now.config.queues ≤ MAX_QUEUES }
        ensures is { result ≡ table.drained self.now message.now }
        ensures no_names { OnSome result (table.names_taken self.now message.now ≡ 0) }
        ensures no_bell { OnSome result (table.bell_attached self.now message.now ≡ None) }
    {
        let Message::GetBase { index, .. } = message else {
            return None;
        };
        let ring = self.ring(*index)?;
        if ring.is_attached {
            Some(*index as u16)
        } else {
            None
        }
    }

    /// Whether a message is to be acknowledged.
    pub(crate) fn acknowledges(&self, header: &Header) -> bool
        ensures { result ≡ table.acknowledges self.now header.now }
    {
        self.terms.has_protocol_feature(ProtocolFeatures::REPLY_ACK)
            && HeaderFlags(header.flags).needs_reply()
    }

    /// What is sent back, by the state after the row. A refusal is kept.
    fn send_back(&mut self, header: &Header, request: u32, row: Row) -> Handled
        ensures next { self.new ≡ table.noted self.old row.cause }
        ensures handled { result ≡ table.handled_row request (table.acknowledges self.old header.now) row.cause row.reply }
        ensures kind { IfSome row.reply (λ body. kind_at request ≡ kind_of body) → IsSent result }
        ensures no_drain { (queue : ℕ) → result ≢ Drain queue }
    {
        let Row { cause, reply } = row;
        let acknowledges = self.acknowledges(header);
        if let Some(cause) = cause {
            self.refused = Some(cause);
        }
        match reply {
            Some(body) => Handled::Reply(Reply { request, body }),
            None if acknowledges => Handled::Ack(u64::from(cause.is_some())),
            None => Handled::Silent,
        }
    }

    /// What a message makes of the session, and what is sent back.
    #[tactic(auto, unfolding(crate::specs::Table::answered))]
    pub(crate) fn answer(&mut self, header: &Header, message: &Message, found: &[Found]) -> Handled
        requires { IsSound self.old }
        ensures next { self.new ≡ (table.answered self.old header.now message.now found.now).0 }
        ensures handled { result ≡ (table.answered self.old header.now message.now found.now).1 }
        ensures kind { IsSent result }
        ensures no_drain { (queue : ℕ) → result ≢ Drain queue }
        ensures sound { IsSound self.new }
        ensures keeps { KeepsAttached self.old.terms self.new.terms }
    {
        let row = self.step(message, found);
        self.send_back(header, number_of(message), row)
    }

    /// The same with a queue stopped and its ring detached.
    #[tactic(auto, unfolding(crate::specs::Table::stopped))]
    pub(crate) fn stop(&mut self, queue: u16, base: u32)
        requires { queue < MAX_QUEUES }
        ensures { self.new ≡ table.stopped self.old queue base }
    {
        let ring = Ring {
            base: Some(base),
            has_kick: false,
            is_attached: false,
            ..self.terms.rings[usize::from(queue)]
        };
        self.terms = self.terms.with_ring(u32::from(queue), ring);
    }
}
