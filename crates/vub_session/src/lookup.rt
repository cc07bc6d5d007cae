//! The names of a message: taken, looked up, or given to a new space.
ghost use Rattle.std.specs.Prelude.{◌≡◌, ◌≢◌, ◌≤◌, Some, None, IfErr, IfOk, IsOk, OnErr, OnOk, length, take, Any};
ghost use Rattle.vub_base.specs.Causes.{Rose};
ghost use Rattle.vub_session.specs.Finds.{AreAnswered, AreFound, IsFound, OnlyFinds};
ghost use Rattle.vub_session.specs.declared.handled.SessionFault.TheVariants as faults;
ghost use Rattle.vub_shared.specs.Spaces.{Lacks};
ghost use Rattle.vub_shared.specs.declared.fault.SharedFault.TheVariants as shared_faults;
ghost use Rattle.vub_session.specs.Table.{created, looked_up, names_taken};
ghost use Rattle.vub_session.specs.declared.state.State.{State};

use crate::SessionFault;
use crate::finding::Found;
use crate::names::Names;
use crate::state::State;
use arrayvec::ArrayVec;
use vub_shared::{Shared, SharedFault};
use vub_wire::Message;
use vub_wire::numbers::MAX_REGIONS;

/// What the look-ups of a message answered.
pub(crate) type FoundList = ArrayVec<Found, MAX_REGIONS>;

fn session_fault(fault: SharedFault) -> SessionFault
    ensures shared { result ≡ faults.Shared → fault ≡ shared_faults.Failed }
    ensures failed { fault ≡ shared_faults.Failed → result ≡ faults.Shared }
    ensures no_name { result ≡ faults.NoName → fault ≡ shared_faults.NoSuch }
    ensures bell { result ≢ faults.Bell }
{
    match fault {
        SharedFault::Failed => SessionFault::Shared,
        SharedFault::NoSuch => SessionFault::NoName,
        SharedFault::Memory => SessionFault::Memory,
    }
}

/// The space that a name means.
fn find<M: Shared>(mem: &mut M, name: &str) -> Result<Found, SessionFault>
    ensures found { IfOk result (IsFound (M.names mem.old) (M.handed mem.new) (M.sizes mem.new) name.now) }
    ensures finds { OnlyFinds M.told M.trail M.names M.handed M.sizes mem.old mem.new }
    ensures later { M.faults mem.old ≤ M.faults mem.new }
    ensures shared { IfErr result (λ e. e ≡ faults.Shared → Rose (M.faults mem.old) (M.faults mem.new)) }
    ensures quiet { OnOk result (M.faults mem.new ≡ M.faults mem.old) }
    ensures others_quiet { IfErr result (λ e. e ≢ faults.Shared → M.faults mem.new ≡ M.faults mem.old) }
    ensures no_name { IfErr result (λ e. e ≡ faults.NoName → Lacks (M.names mem.old) name.now) }
    ensures bell { IfErr result (λ e. e ≢ faults.Bell) }
{
    match mem.find(name) {
        Ok(space) => {
            let size = mem.size(space);
            Ok(Found { space, size })
        }
        Err(fault) => Err(session_fault(fault)),
    }
}

/// The spaces that the first so many names mean.
fn find_all<M: Shared>(mem: &mut M, names: &Names, count: usize) -> Result<FoundList, SessionFault>
    requires names { count ≤ length names.now }
    requires few { count ≤ MAX_REGIONS }
    ensures count { IfOk result (λ all. length all.items ≡ count) }
    ensures found { IfOk result (λ all. AreFound (M.names mem.old) (M.handed mem.new) (M.sizes mem.new) names.now all.items) }
    ensures finds { OnlyFinds M.told M.trail M.names M.handed M.sizes mem.old mem.new }
    ensures later { M.faults mem.old ≤ M.faults mem.new }
    ensures shared { IfErr result (λ e. e ≡ faults.Shared → Rose (M.faults mem.old) (M.faults mem.new)) }
    ensures quiet { OnOk result (M.faults mem.new ≡ M.faults mem.old) }
    ensures others_quiet { IfErr result (λ e. e ≢ faults.Shared → M.faults mem.new ≡ M.faults mem.old) }
    ensures no_name { IfErr result (λ e. e ≡ faults.NoName → Any (Lacks (M.names mem.old)) (take count names.now)) }
    ensures bell { IfErr result (λ e. e ≢ faults.Bell) }
    ensures nothing { count ≡ 0 → IsOk result }
{
    let mut all = ArrayVec::new();
    for at in 0..count {
        let found = find(mem, names.at(at))?;
        all.push(found);
    }
    Ok(all)
}

/// A new space of so many zero bytes under the first name.
fn create<M: Shared>(mem: &mut M, names: &Names, size: u64) -> Result<FoundList, SessionFault>
    requires { 1 ≤ length names.now }
    ensures made { IfOk result (λ all. AreAnswered M.told M.trail M.names M.handed M.sizes mem.old mem.new (Some size) 0 names.now all.items) }
    ensures finds { OnErr result (OnlyFinds M.told M.trail M.names M.handed M.sizes mem.old mem.new) }
    ensures later { M.faults mem.old ≤ M.faults mem.new }
    ensures shared { IfErr result (λ e. e ≡ faults.Shared → Rose (M.faults mem.old) (M.faults mem.new)) }
    ensures quiet { OnOk result (M.faults mem.new ≡ M.faults mem.old) }
    ensures others_quiet { IfErr result (λ e. e ≢ faults.Shared → M.faults mem.new ≡ M.faults mem.old) }
    ensures no_name { IfErr result (λ e. e ≢ faults.NoName) }
    ensures bell { IfErr result (λ e. e ≢ faults.Bell) }
{
    match mem.create(names.at(0), size) {
        Ok(space) => {
            let mut all = ArrayVec::new();
            all.push(Found { space, size });
            Ok(all)
        }
        Err(fault) => Err(session_fault(fault)),
    }
}

/// How many names a message looks up.
#[tactic(auto, unfolding(crate::specs::Table::looked_up, crate::specs::Table::names_taken))]
fn looked_up(message: &Message) -> usize
    ensures is { result ≡ looked_up message.now }
    ensures taken { (s : State) → result ≤ names_taken s message.now }
    ensures few { result ≤ MAX_REGIONS }
{
    match message {
        Message::SetMemTable(regions) => regions.len(),
        Message::SetInflight(_) => 1,
        _ => 0,
    }
}

impl State {
    /// What the look-ups of a message, or its creation, answer. Its names are there.
    pub(crate) fn find_named<M: Shared>(
        &self,
        message: &Message,
        names: &Names,
        mem: &mut M,
    ) -> Result<FoundList, SessionFault>
        requires { names_taken self.now message.now ≤ length names.now }
        ensures answered { IfOk result (λ all. AreAnswered M.told M.trail M.names M.handed M.sizes mem.old mem.new (created self.now message.now) (looked_up message.now) names.now all.items) }
        ensures finds { OnErr result (OnlyFinds M.told M.trail M.names M.handed M.sizes mem.old mem.new) }
        ensures later { M.faults mem.old ≤ M.faults mem.new }
        ensures shared { IfErr result (λ e. e ≡ faults.Shared → Rose (M.faults mem.old) (M.faults mem.new)) }
        ensures quiet { OnOk result (M.faults mem.new ≡ M.faults mem.old) }
        ensures others_quiet { IfErr result (λ e. e ≢ faults.Shared → M.faults mem.new ≡ M.faults mem.old) }
        ensures no_name { IfErr result (λ e. e ≡ faults.NoName → Any (Lacks (M.names mem.old)) (take (looked_up message.now) names.now)) }
        ensures bell { IfErr result (λ e. e ≢ faults.Bell) }
        ensures few { looked_up message.now ≤ length names.now }
        ensures nothing { created self.now message.now ≡ None → looked_up message.now ≡ 0 → IsOk result }
    {
        let count = looked_up(message);
        match self.created(message) {
            Some(size) => create(mem, names, size),
            None => find_all(mem, names, count),
        }
    }
}
