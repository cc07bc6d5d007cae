//! What each request that changes the terms makes of them. None: its row refuses it.
ghost use Rattle.std.specs.Option.{ForSome};
ghost use Rattle.std.specs.Prelude.{◌≡◌, ◌≤◌, ◌<◌, ◌^◌};
ghost use Rattle.vub_blkreq.specs.Features.{offered, offered_protocol};
ghost use Rattle.vub_session.specs.Keeps.{KeepsAttached};
ghost use Rattle.vub_session.specs.Sound.{IsCandidate};
ghost use Rattle.vub_session.specs.Table as table;

use crate::finding::Found;
use crate::state::{Addresses, KeptRegion, MAX_QUEUE_SIZE, MAX_QUEUES, Ring, State, Terms};
use vub_blkreq::{offered_features, offered_protocol_features};
use vub_setup::region_size;
use vub_wire::Inflight;

/// The bits of the word of kick, call and err that hold the queue's index.
const INDEX_BITS: u64 = 256;

/// Whether each bit of the set is offered.
fn is_offered(set: u64, offer: u64) -> bool
    ensures { result ≡ table.is_offered set offer }
{
    set & offer == set
}

fn is_queue_size(size: u32) -> bool
    ensures { result ≡ table.is_queue_size size }
{
    1 <= size && size <= MAX_QUEUE_SIZE
}

/// The index in a word of kick, call or err.
pub(crate) fn queue_in(word: u64) -> u32
    ensures is { result ≡ table.queue_in word }
    ensures fits { result < 256 }
{
    (word % INDEX_BITS) as u32
}

/// Whether a descriptor comes with a word of kick, call or err.
pub(crate) fn brings_descriptor(word: u64) -> bool
    ensures { result ≡ table.brings_descriptor word }
{
    word / INDEX_BITS % 2 == 0
}

impl Addresses {
    /// Whether these are the addresses that were given.
    fn are(&self, given: Option<Addresses>) -> bool
        ensures { result ≡ table.same_addresses self.now given }
    {
        match given {
            None => false,
            Some(given) => {
                self.desc == given.desc && self.avail == given.avail && self.used == given.used
            }
        }
    }
}

impl State {
    /// The features of the device.
    #[tactic(auto, unfolding(crate::specs::Table::with_features))]
    pub(crate) fn with_features(&self, set: u64) -> Option<Terms>
        requires { IsCandidate self.now.config.queues self.now.table self.now.terms }
        ensures is { result ≡ table.with_features self.now set }
        ensures candidate { ForSome result (IsCandidate self.now.config.queues self.now.table) }
        ensures keeps { ForSome result (KeepsAttached self.now.terms) }
    {
        let offer = offered_features(self.config.read_only);
        if !is_offered(set, offer.0) || self.terms.is_running() {
            return None;
        }
        Some(Terms {
            features: set,
            ..self.terms
        })
    }

    /// The features of the protocol.
    #[tactic(auto, unfolding(crate::specs::Table::with_protocol))]
    pub(crate) fn with_protocol(&self, set: u64) -> Option<Terms>
        requires { IsCandidate self.now.config.queues self.now.table self.now.terms }
        ensures is { result ≡ table.with_protocol self.now set }
        ensures candidate { ForSome result (IsCandidate self.now.config.queues self.now.table) }
        ensures keeps { ForSome result (KeepsAttached self.now.terms) }
    {
        if !is_offered(set, offered_protocol_features().0) || self.terms.is_running() {
            return None;
        }
        Some(Terms {
            protocol: set,
            ..self.terms
        })
    }

    /// The size of a ring.
    #[tactic(auto, unfolding(crate::specs::Table::with_size))]
    pub(crate) fn with_size(&self, index: u32, num: u32) -> Option<Terms>
        requires few { self.now.config.queues ≤ MAX_QUEUES }
        requires sound { IsCandidate self.now.config.queues self.now.table self.now.terms }
        ensures is { result ≡ table.with_size self.now index num }
        ensures candidate { ForSome result (IsCandidate self.now.config.queues self.now.table) }
        ensures keeps { ForSome result (KeepsAttached self.now.terms) }
    {
        let ring = self.ring(index)?;
        if ring.is_attached || !is_queue_size(num) {
            return None;
        }
        let size = Some(num as u16);
        Some(self.terms.with_ring(index, Ring { size, ..ring }))
    }

    /// The addresses of a ring.
    #[tactic(auto, unfolding(crate::specs::Table::with_addresses))]
    pub(crate) fn with_addresses(&self, index: u32, addresses: Addresses) -> Option<Terms>
        requires few { self.now.config.queues ≤ MAX_QUEUES }
        requires sound { IsCandidate self.now.config.queues self.now.table self.now.terms }
        ensures is { result ≡ table.with_addresses self.now index addresses }
        ensures candidate { ForSome result (IsCandidate self.now.config.queues self.now.table) }
        ensures keeps { ForSome result (KeepsAttached self.now.terms) }
    {
        let ring = self.ring(index)?;
        if ring.is_attached && !addresses.are(ring.addresses) {
            return None;
        }
        let addresses = Some(addresses);
        Some(self.terms.with_ring(index, Ring { addresses, ..ring }))
    }

    /// The base of a ring.
    #[tactic(auto, unfolding(crate::specs::Table::with_base))]
    pub(crate) fn with_base(&self, index: u32, base: u32) -> Option<Terms>
        requires few { self.now.config.queues ≤ MAX_QUEUES }
        requires sound { IsCandidate self.now.config.queues self.now.table self.now.terms }
        ensures is { result ≡ table.with_base self.now index base }
        ensures candidate { ForSome result (IsCandidate self.now.config.queues self.now.table) }
        ensures keeps { ForSome result (KeepsAttached self.now.terms) }
    {
        let ring = self.ring(index)?;
        if ring.is_attached {
            return None;
        }
        let base = Some(base);
        Some(self.terms.with_ring(index, Ring { base, ..ring }))
    }

    /// The kick of a ring.
    #[tactic(auto, unfolding(crate::specs::Table::with_kick))]
    pub(crate) fn with_kick(&self, word: u64) -> Option<Terms>
        requires few { self.now.config.queues ≤ MAX_QUEUES }
        requires sound { IsCandidate self.now.config.queues self.now.table self.now.terms }
        ensures is { result ≡ table.with_kick self.now word }
        ensures candidate { ForSome result (IsCandidate self.now.config.queues self.now.table) }
        ensures keeps { ForSome result (KeepsAttached self.now.terms) }
    {
        let index = queue_in(word);
        let ring = self.ring(index)?;
        let has_kick = true;
        Some(self.terms.with_ring(index, Ring { has_kick, ..ring }))
    }

    /// The call of a ring, which the bell has where a descriptor came.
    #[tactic(auto, unfolding(crate::specs::Table::with_call))]
    pub(crate) fn with_call(&self, word: u64) -> Option<Terms>
        requires few { self.now.config.queues ≤ MAX_QUEUES }
        requires sound { IsCandidate self.now.config.queues self.now.table self.now.terms }
        ensures is { result ≡ table.with_call self.now word }
        ensures candidate { ForSome result (IsCandidate self.now.config.queues self.now.table) }
        ensures keeps { ForSome result (KeepsAttached self.now.terms) }
    {
        let index = queue_in(word);
        let ring = self.ring(index)?;
        let has_bell = brings_descriptor(word);
        Some(self.terms.with_ring(index, Ring { has_bell, ..ring }))
    }

    /// The err of a ring, with which nothing is done.
    #[tactic(auto, unfolding(crate::specs::Table::with_err))]
    pub(crate) fn with_err(&self, word: u64) -> Option<Terms>
        requires few { self.now.config.queues ≤ MAX_QUEUES }
        requires sound { IsCandidate self.now.config.queues self.now.table self.now.terms }
        ensures is { result ≡ table.with_err self.now word }
        ensures candidate { ForSome result (IsCandidate self.now.config.queues self.now.table) }
        ensures keeps { ForSome result (KeepsAttached self.now.terms) }
    {
        let _ring = self.ring(queue_in(word))?;
        Some(self.terms)
    }

    /// Whether a ring is enabled.
    #[tactic(auto, unfolding(crate::specs::Table::with_enable))]
    pub(crate) fn with_enable(&self, index: u32, num: u32) -> Option<Terms>
        requires few { self.now.config.queues ≤ MAX_QUEUES }
        requires sound { IsCandidate self.now.config.queues self.now.table self.now.terms }
        ensures is { result ≡ table.with_enable self.now index num }
        ensures candidate { ForSome result (IsCandidate self.now.config.queues self.now.table) }
        ensures keeps { ForSome result (KeepsAttached self.now.terms) }
    {
        let ring = self.ring(index)?;
        if 1 < num {
            return None;
        }
        let is_enabled = num == 1;
        Some(self.terms.with_ring(index, Ring { is_enabled, ..ring }))
    }

    /// Whether the device may have so many queues and descriptors.
    pub(crate) fn has_inflight_numbers(&self, inflight: &Inflight) -> bool
        ensures { result ≡ table.has_inflight_numbers self.now inflight.now }
    {
        1 <= inflight.queues
            && inflight.queues <= self.config.queues
            && is_queue_size(u32::from(inflight.queue_size))
    }

    /// The bytes of an in-flight region with these numbers.
    pub(crate) fn inflight_size(&self, inflight: &Inflight) -> u64
        ensures is { result ≡ table.inflight_size self.now inflight.now }
    {
        u64::from(inflight.queues) * region_size(self.terms.is_packed(), inflight.queue_size)
    }

    /// Whether the region lies in its space at a multiple of 8, and has room for its queues.
    fn fits_inflight(&self, inflight: &Inflight, found: &Found) -> bool
        ensures is { result ≡ table.fits_inflight self.now inflight.now found.now }
        ensures fits { found.now.size < 2 ^ 64 }
    {
        let space_size = found.size;
        let end = u128::from(inflight.offset) + u128::from(inflight.size);
        self.has_inflight_numbers(inflight)
            && inflight.offset % 8 == 0
            && self.inflight_size(inflight) <= inflight.size
            && end <= u128::from(space_size)
    }

    /// The in-flight region that was found.
    #[tactic(auto, unfolding(crate::specs::Table::with_region))]
    pub(crate) fn with_region(&self, inflight: &Inflight, found: &[Found]) -> Option<Terms>
        requires { IsCandidate self.now.config.queues self.now.table self.now.terms }
        ensures is { result ≡ table.with_region self.now inflight.now found.now }
        ensures candidate { ForSome result (IsCandidate self.now.config.queues self.now.table) }
        ensures keeps { ForSome result (KeepsAttached self.now.terms) }
    {
        let Some(found) = found.first() else {
            return None;
        };
        if self.terms.is_running() || !self.fits_inflight(inflight, found) {
            return None;
        }
        let region = KeptRegion {
            space: found.space,
            space_size: found.size,
            offset: inflight.offset,
            size: inflight.size,
            queues: inflight.queues,
            queue_size: inflight.queue_size,
        };
        Some(Terms {
            region: Some(region),
            ..self.terms
        })
    }
}
