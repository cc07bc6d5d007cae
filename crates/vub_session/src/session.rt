ghost use Rattle.std.specs.Prelude.{◌≡◌, ◌≢◌, ◌≤◌, ◌<◌, ◌↔◌, ◌⊎◌, ℕ, List, true, length, drop, Some, None, Ok, Err, IsSome, IfErr, IfOk, IfSome, OnErr, OnOk, OnSome};
ghost use Rattle.vub_base.specs.Causes.{Rose};
ghost use Rattle.vub_session.specs.Finds.{AreAnswered, BellIs, BellMayBe, HasFindReason, OnlyFinds};
ghost use Rattle.vub_session.specs.declared.finding.Found.{Found};
ghost use Rattle.vub_session.specs.declared.handled.Handled.TheVariants.{Drain};
ghost use Rattle.vub_session.specs.declared.handled.SessionFault.TheVariants as faults;
ghost use Rattle.vub_session.specs.Keeps.{KeepsAttached};
ghost use Rattle.vub_session.specs.Lies.{AreHeld, AreSized};
ghost use Rattle.vub_session.specs.Sent.{IsSent};
ghost use Rattle.vub_session.specs.Setup.{queue_ready, setup_of};
ghost use Rattle.vub_setup.specs.Setups.{SetupLies};
ghost use Rattle.vub_session.specs.Sound.{IsSound};
ghost use Rattle.vub_session.specs.State.{mode_of, new_state, IsAttached};
ghost use Rattle.vub_session.specs.Table as table;

use crate::lookup::FoundList;
use crate::names::Names;
use crate::state::{MAX_QUEUES, State, new_terms};
use crate::{Handled, Refusal, SessionFault};
use std::marker::Model;
use vub_base::Bell;
use vub_blkreq::{DeviceConfig, DeviceMode, Features};
use vub_memtable::MemTable;
use vub_setup::QueueSetup;
use vub_shared::Shared;
use vub_wire::{Header, Message};

/// A session with a front end. Contracts see it as what it keeps.
#[derive(Debug, Drop)]
pub struct Session {
    state: State,
}

impl Model for Session {
    ghost use Rattle.vub_session.specs.declared.state.State.{State};
    ghost use Rattle.vub_session.specs.Sound.{IsSound};

    ghost Value = { State };

    ghost view = { λ s. s.state };

    ghost invariant = { λ s. IsSound s.state };
}

impl State {
    #[tactic(auto, unfolding(crate::specs::Table::names_taken, crate::specs::Table::bell_attached))]
    /// Attaches the bell of a queue to the call that a message brings, which has the first name.
    fn attach_bell<B: Bell>(
        &self,
        message: &Message,
        names: &Names,
        bell: &mut B,
    ) -> Result<(), SessionFault>
        requires few { self.now.config.queues ≤ MAX_QUEUES }
        requires names { table.names_taken self.now message.now ≤ length names.now }
        ensures attached { OnOk result (BellIs (table.bell_attached self.now message.now) (B.told bell.old) (B.told bell.new)) }
        ensures failed { OnErr result (BellMayBe (table.bell_attached self.now message.now) (B.told bell.old) (B.told bell.new)) }
        ensures later { B.faults bell.old ≤ B.faults bell.new }
        ensures quiet { OnOk result (B.faults bell.new ≡ B.faults bell.old) }
        // A message that attaches a bell makes no space and looks nothing up.
        ensures alone { (B.told bell.new ≡ B.told bell.old) ⊎ ((table.created self.now message.now ≡ None) × (table.looked_up message.now ≡ 0)) }
        ensures cause { IfErr result (λ e. (e ≡ faults.Bell) × Rose (B.faults bell.old) (B.faults bell.new)) }
    {
        let Some(queue) = self.bell_attached(message) else {
            return Ok(());
        };
        match bell.attach(queue, names.at(0)) {
            Ok(()) => Ok(()),
            Err(_) => Err(SessionFault::Bell),
        }
    }

    /// What the names of a message lead to. Too few names come before any look-up.
    fn look_up<M: Shared, B: Bell>(
        &self,
        message: &Message,
        names: &Names,
        mem: &mut M,
        bell: &mut B,
    ) -> Result<FoundList, SessionFault>
        requires { self.now.config.queues ≤ MAX_QUEUES }
        ensures too_few { length names.now < table.names_taken self.now message.now → result ≡ Err faults.NoName }
        ensures answered { IfOk result (λ all. AreAnswered M.told M.trail M.names M.handed M.sizes mem.old mem.new (table.created self.now message.now) (table.looked_up message.now) names.now all.items) }
        ensures few { OnOk result (table.looked_up message.now ≤ length names.now) }
        ensures finds { OnErr result (OnlyFinds M.told M.trail M.names M.handed M.sizes mem.old mem.new) }
        ensures attached { OnOk result (BellIs (table.bell_attached self.now message.now) (B.told bell.old) (B.told bell.new)) }
        ensures bell_failed { IfErr result (λ e. e ≡ faults.Bell → BellMayBe (table.bell_attached self.now message.now) (B.told bell.old) (B.told bell.new)) }
        ensures bell_kept { IfErr result (λ e. e ≢ faults.Bell → B.told bell.new ≡ B.told bell.old) }
        ensures reason { HasFindReason (M.faults mem.old) (M.faults mem.new) (B.faults bell.old) (B.faults bell.new) (M.names mem.old) (table.names_taken self.now message.now) (table.looked_up message.now) names.now result }
    {
        if names.left() < self.names_taken(message) {
            return Err(SessionFault::NoName);
        }
        self.attach_bell(message, names, bell)?;
        self.find_named(message, names, mem)
    }

    /// What a queue is made from, where its ring is ready.
    #[tactic(auto, unfolding(crate::specs::Setup::setup_of, crate::specs::Setup::queue_ready, crate::specs::State::ring_of))]
    fn setup(&self, queue: u16) -> Option<QueueSetup>
        requires { IsSound self.now }
        ensures is { result ≡ setup_of self.now queue }
        ensures ready { IsSome result ↔ (queue_ready self.now queue ≡ true) }
        ensures attached { OnSome result (IsAttached self.now queue) }
        ensures lies { IfSome result (λ setup. (sizes : ℕ → ℕ) → AreSized sizes self.now → SetupLies sizes setup) }
    {
        let ring = self.ring(u32::from(queue))?;
        if !self.terms.is_ready(queue, &ring) {
            return None;
        }
        let Some(rings) = self.terms.rings_of(&self.table, queue, &ring) else {
            unreachable!()
        };
        let Some(base) = ring.base else {
            unreachable!()
        };
        Some(QueueSetup {
            index: queue,
            rings,
            base,
            indirect: self.terms.has_feature(Features::INDIRECT_DESC),
            bell: ring.has_bell,
        })
    }
}

impl Session {
    /// A session before the first message, of a device with 1 to 16 queues.
    pub fn new(config: DeviceConfig) -> Session
        requires some { 1 ≤ config.queues }
        requires few { config.queues ≤ MAX_QUEUES }
        ensures { result ≡ new_state config }
    {
        Session {
            state: State {
                config,
                terms: new_terms(),
                table: MemTable::new(),
                refused: None,
            },
        }
    }

    /// Handles a message: takes its names, looks them up, and answers by the message table. A
    /// GET_VRING_BASE of a queue that is attached, and no other message, is answered by `Drain`; it
    /// changes nothing. A fault raises the count of memory or of the bell that failed; any other
    /// answer leaves both.
    pub fn answer<M: Shared, B: Bell>(
        &mut self,
        header: &Header,
        message: &Message,
        names: &mut Names,
        mem: &mut M,
        bell: &mut B,
    ) -> Result<Handled, SessionFault>
        // A message that stops a queue waits until it is stopped.
        ensures drains { (queue : ℕ) → table.drained self.old message.now ≡ Some queue → (result ≡ Ok (Drain queue)) × (self.new ≡ self.old) }
        ensures drains_only { (queue : ℕ) → result ≡ Ok (Drain queue) → table.drained self.old message.now ≡ Some queue }
        // Else the table says what is sent back, and the session after it.
        ensures answers { table.drained self.old message.now ≡ None → IfOk result (λ handled. (found : List Found) × AreAnswered M.told M.trail M.names M.handed M.sizes mem.old mem.new (table.created self.old message.now) (table.looked_up message.now) names.old found × ((self.new, handled) ≡ table.answered self.old header.now message.now found)) }
        ensures fault { OnErr result (self.new ≡ self.old) }
        ensures kind { IfOk result IsSent }
        // An attached ring stays attached, with its size, addresses and base, until it is stopped.
        ensures keeps { KeepsAttached self.old.terms self.new.terms }
        // Each space that the session keeps is one that was handed out, with its size.
        ensures held { AreHeld (M.handed mem.old) (M.sizes mem.old) self.old → AreHeld (M.handed mem.new) (M.sizes mem.new) self.new }

        // The names are taken, whatever comes of them.
        ensures names { names.new ≡ drop (table.names_taken self.old message.now) names.old }
        ensures too_few { length names.old < table.names_taken self.old message.now → result ≡ Err faults.NoName }
        ensures finds { OnErr result (OnlyFinds M.told M.trail M.names M.handed M.sizes mem.old mem.new) }
        ensures drains_alone { IsSome (table.drained self.old message.now) → OnlyFinds M.told M.trail M.names M.handed M.sizes mem.old mem.new }
        // The queue is attached, or may be where the bell failed; any other fault leaves the bell.
        ensures bell { OnOk result (BellIs (table.bell_attached self.old message.now) (B.told bell.old) (B.told bell.new)) }
        ensures bell_failed { IfErr result (λ e. e ≡ faults.Bell → BellMayBe (table.bell_attached self.old message.now) (B.told bell.old) (B.told bell.new)) }
        ensures bell_kept { IfErr result (λ e. e ≢ faults.Bell → B.told bell.new ≡ B.told bell.old) }
        ensures reason { HasFindReason (M.faults mem.old) (M.faults mem.new) (B.faults bell.old) (B.faults bell.new) (M.names mem.old) (table.names_taken self.old message.now) (table.looked_up message.now) names.old result }
    {
        if let Some(queue) = self.state.drained(message) {
            return Ok(Handled::Drain(queue));
        }
        let count = self.state.names_taken(message);
        let found = self.state.look_up(message, names, mem, bell);
        names.skip(count);
        let found = found?;
        Ok(self.state.answer(header, message, &found))
    }

    /// The memory table.
    pub fn table(&self) -> &MemTable
        ensures { result.now ≡ self.now.table }
    {
        &self.state.table
    }

    /// What requests are told of the device.
    pub fn mode(&self) -> DeviceMode
        ensures { result ≡ mode_of self.now }
    {
        self.state.mode()
    }

    /// What a queue is made from. None comes exactly where its ring isn't ready.
    pub fn setup(&self, queue: u16) -> Option<QueueSetup>
        ensures is { result ≡ setup_of self.now queue }
        ensures ready { IsSome result ↔ (queue_ready self.now queue ≡ true) }
        // A queue that is given a setup is attached until it is stopped.
        ensures attached { OnSome result (IsAttached self.now queue) }
        // Ring and region lie in their spaces, aligned and of one size, so that nothing is tested again.
        ensures lies { IfSome result (λ setup. (sizes : ℕ → ℕ) → AreSized sizes self.now → SetupLies sizes setup) }
    {
        self.state.setup(queue)
    }

    /// Why the last message that was refused was refused.
    pub fn refused(&self) -> Option<Refusal>
        ensures { result ≡ self.now.refused }
    {
        self.state.refused
    }

    /// Detaches a queue that was stopped, keeps its base and forgets its kick.
    pub fn stopped_queue(&mut self, queue: u16, base: u32)
        requires { IsAttached self.old queue }
        ensures { self.new ≡ table.stopped self.old queue base }
    {
        self.state.stop(queue, base);
    }
}
