//! A start of a split queue over its in-flight region, a step at a time.
ghost use Rattle.std.specs.Prelude.{◌≡◌, ◌≢◌, ◌<◌, ◌≤◌, ◌-◌, ℕ, List, Option, Some, None, [], IfOk, IfSome, OnOk};
ghost use Rattle.vub_base.specs.Causes.{HasCause};
ghost use Rattle.vub_base.specs.Told.{WhereTold};
ghost use Rattle.vub_shared.specs.Frames.{OnlyLoads, MakesStore, KeepsSpaces};
ghost use Rattle.vub_ring.specs.Ring.{ahead};
ghost use Rattle.vub_split.specs.Split.{used_idx_word};
ghost use Rattle.vub_base.specs.declared.reading.RegionFault.{RegionFault};
ghost use Rattle.vub_inflight.specs.Entries.{AreEntries, heads_of};
ghost use Rattle.vub_infl_split.specs.Region.{words_of};
ghost use Rattle.vub_infl_split.specs.Stores.{store_of, tag_of, NamesEntry};
ghost use Rattle.vub_steps.specs.declared.steps.Plan.TheVariants.{Settles};
ghost use Rattle.vub_base.specs.declared.store.Tag.{Tag};
ghost use Rattle.vub_rec_split.specs.declared.plan.Found.TheVariants.{Nothing};
ghost use Rattle.vub_rec_split.specs.declared.plan.Recovered.TheVariants as recovered;
ghost use Rattle.vub_rec_split.specs.Stands.{LeftAt, StandsAt};
ghost use Rattle.vub_rec_split.specs.Starts as starts;
ghost use Rattle.vub_steps.specs.Plans as plans;
ghost use Rattle.vub_steps.specs.Plans.{plan_of};
ghost use Rattle.vub_rec_split.specs.Starts.{start_fault, plan_in, sight_in, step_of, settle_step, fault_in, due_in, answer_in, state_after, moved, StartLies, PlanFits, StepFits, SameQueue, outcome, MakesStep, MakesOne, stores_left, entries_in, unchecked_in, found_in, FoundFits};

use crate::plan::Found;
use crate::{Plan, Recovered};
use std::marker::Model;
use vub_base::{Failed, PendingList, Reading, RegionFault, Tag};
use vub_infl_split::{SplitRegion, SplitStore};
use vub_shared::Shared;
use vub_split::SplitRing;

/// The recovery of a split queue: it checks the in-flight region, initialises it where it was never
/// made, and settles the batch that a life before left between its publication and its end.
#[derive(Debug, Drop)]
pub struct SplitRecovery {
    ring: SplitRing,
    region: SplitRegion,
    base: u32,
    // Nothing before the first step.
    plan: Option<Plan>,
    // How many steps of the plan are done.
    done: u16,
    // The entry of the batch that was cleared last.
    cleared: Option<u16>,
}

impl Model for SplitRecovery {
    ghost use Rattle.std.specs.Prelude.{◌<◌, IfSome};
    ghost use Rattle.vub_rec_split.specs.Starts.{RecoveryState, PlanFits};

    ghost Value = { RecoveryState };

    ghost view = { λ s. record { ring = s.ring; region = s.region; base = s.base; plan = s.plan; done = s.done; cleared = s.cleared } };

    ghost invariant = { λ s. PlanFits s.region.size s.plan s.done × IfSome s.cleared (λ entry. entry < s.region.size) };
}

impl SplitRecovery {
    /// A recovery that hasn't begun, of the queue with this ring and region that starts from `base`.
    pub fn new(ring: SplitRing, region: SplitRegion, base: u32) -> SplitRecovery
        ensures { result ≡ record { ring = ring; region = region; base = base; plan = None; done = 0; cleared = None } }
    {
        SplitRecovery {
            ring,
            region,
            base,
            plan: None,
            done: 0,
            cleared: None,
        }
    }

    /// Makes the checks where it is the first step, and then the next store. `Done` comes where no
    /// store is left: `list` gets the open entries in rising order of their counters. Else it is empty.
    /// After `Failed` and `Damaged` the recovery is as it was.
    ///
    /// Where memory is told and no life before left more than a life can (`StandsAt`), no step finds
    /// damage, and each, also one that fails, leaves what is read of the region: so a recovery that is
    /// cut off anywhere and begun again ends with the same list.
    pub fn step<M: Shared>(&mut self, mem: &mut M, list: &mut PendingList) -> Recovered
        requires lies { StartLies (M.sizes mem.old) self.old }
        requires room { self.old.region.size ≤ list.old.room }
        ensures answers { WhereTold (M.told mem.old) (λ m. result ≢ recovered.Failed → result ≡ answer_in self.old m) }
        ensures state { WhereTold (M.told mem.old) (λ m. result ≢ recovered.Failed → self.new ≡ state_after self.old m) }
        ensures stays { result ≡ recovered.Failed → self.new ≡ self.old }
        ensures list { WhereTold (M.told mem.old) (λ m. result ≡ recovered.Done → list.new.items ≡ unchecked_in self.old m) }
        ensures empty { result ≢ recovered.Done → list.new.items ≡ [] }
        ensures entries { AreEntries self.old.region.size list.new.items }
        ensures same_room { list.new.room ≡ list.old.room }
        ensures due { WhereTold (M.told mem.old) (λ m. MakesStep M.told M.trail M.names M.handed M.sizes mem.old mem.new result self.old.region (due_in self.old m)) }
        ensures fewer_stores { (tag : Tag) → result ≡ recovered.Stored tag → stores_left self.old.region.size self.new.plan self.new.done < stores_left self.old.region.size self.old.plan self.old.done }
        ensures one_store { MakesOne M.told M.trail M.names M.handed M.sizes mem.old mem.new result self.old.region }
        ensures lies { StartLies (M.sizes mem.new) self.new }
        ensures same_queue { SameQueue self.old self.new }
        ensures keeps_spaces { KeepsSpaces M.names M.handed M.sizes mem.old mem.new }
        ensures cause { HasCause (M.faults mem.old) (M.faults mem.new) (outcome result) }
        ensures undamaged { (heads : List ℕ) → WhereTold (M.told mem.old) (λ m. StandsAt heads self.old m → (fault : RegionFault) → result ≢ recovered.Damaged fault) }
        ensures stands { (heads : List ℕ) → WhereTold (M.told mem.old) (λ m. StandsAt heads self.old m → result ≢ recovered.Failed → WhereTold (M.told mem.new) (λ m'. StandsAt heads self.new m')) }
        ensures left { (heads : List ℕ) → WhereTold (M.told mem.old) (λ m. StandsAt heads self.old m → WhereTold (M.told mem.new) (λ m'. LeftAt heads self.old m')) }
        ensures same_entries { (heads : List ℕ) → WhereTold (M.told mem.old) (λ m. StandsAt heads self.old m → WhereTold (M.told mem.new) (λ m'. entries_in self.old m' ≡ entries_in self.old m)) }
        ensures reading { (heads : List ℕ) → WhereTold (M.told mem.old) (λ m. StandsAt heads self.old m → result ≡ recovered.Done → list.new.items ≡ entries_in self.old m) }
        ensures open_heads { (heads : List ℕ) → WhereTold (M.told mem.old) (λ m. StandsAt heads self.old m → result ≡ recovered.Done → heads_of list.new.items ≡ heads) }
    {
        self.go_on(mem, list)
    }

    /// The next step.
    fn go_on<M: Shared>(&mut self, mem: &mut M, list: &mut PendingList) -> Recovered
        requires lies { StartLies (M.sizes mem.old) self.old }
        requires room { self.old.region.size ≤ list.old.room }
        ensures answers { WhereTold (M.told mem.old) (λ m. result ≢ recovered.Failed → result ≡ answer_in self.old m) }
        ensures state { WhereTold (M.told mem.old) (λ m. result ≢ recovered.Failed → self.new ≡ state_after self.old m) }
        ensures stays { result ≡ recovered.Failed → self.new ≡ self.old }
        ensures list { WhereTold (M.told mem.old) (λ m. result ≡ recovered.Done → list.new.items ≡ unchecked_in self.old m) }
        ensures empty { result ≢ recovered.Done → list.new.items ≡ [] }
        ensures entries { AreEntries self.old.region.size list.new.items }
        ensures same_room { list.new.room ≡ list.old.room }
        ensures due { WhereTold (M.told mem.old) (λ m. MakesStep M.told M.trail M.names M.handed M.sizes mem.old mem.new result self.old.region (due_in self.old m)) }
        ensures fewer_stores { (tag : Tag) → result ≡ recovered.Stored tag → stores_left self.old.region.size self.new.plan self.new.done < stores_left self.old.region.size self.old.plan self.old.done }
        ensures one_store { MakesOne M.told M.trail M.names M.handed M.sizes mem.old mem.new result self.old.region }
        ensures same_queue { SameQueue self.old self.new }
        ensures keeps_spaces { KeepsSpaces M.names M.handed M.sizes mem.old mem.new }
        ensures cause { HasCause (M.faults mem.old) (M.faults mem.new) (outcome result) }
    {
        match self.find(mem, list) {
            Ok(Found::Nothing) => {
                self.plan = Some(Plan::Settled);
                Recovered::Done
            }
            Ok(Found::Store(plan, step)) => {
                list.clear();
                self.make(mem, plan, step)
            }
            Ok(Found::Damaged(fault)) => {
                list.clear();
                Recovered::Damaged(fault)
            }
            Err(_) => {
                list.clear();
                Recovered::Failed
            }
        }
    }

    /// What the next step has to do.
    fn find<M: Shared>(&self, mem: &mut M, list: &mut PendingList) -> Result<Found, Failed>
        requires lies { StartLies (M.sizes mem.old) self.now }
        requires room { self.now.region.size ≤ list.old.room }
        ensures found { IfOk result (λ x. WhereTold (M.told mem.old) (λ m. x ≡ found_in self.now m)) }
        ensures fits { IfOk result (λ x. FoundFits self.now x) }
        ensures list { IfOk result (λ x. x ≡ Nothing → WhereTold (M.told mem.old) (λ m. list.new.items ≡ unchecked_in self.now m)) }
        ensures entries { IfOk result (λ x. x ≡ Nothing → AreEntries self.now.region.size list.new.items) }
        ensures same_room { list.new.room ≡ list.old.room }
        ensures only_loads { OnlyLoads M.told M.trail M.names M.handed M.sizes mem.old mem.new }
        ensures cause { HasCause (M.faults mem.old) (M.faults mem.new) result }
    {
        let plan = match self.begin(mem, list)? {
            Ok(plan) => plan,
            Err(fault) => return Ok(Found::Damaged(fault)),
        };
        match self.due(mem, plan)? {
            Some(step) => Ok(Found::Store(plan, step)),
            None => {
                self.open_entries(mem, list)?;
                Ok(Found::Nothing)
            }
        }
    }

    /// The plan: at the first step that of the region as it is, if it can be read.
    fn begin<M: Shared>(
        &self,
        mem: &mut M,
        list: &mut PendingList,
    ) -> Result<Result<Plan, RegionFault>, Failed>
        requires lies { StartLies (M.sizes mem.old) self.now }
        requires room { self.now.region.size ≤ list.old.room }
        ensures begun { IfOk result (λ x. WhereTold (M.told mem.old) (λ m. x ≡ starts.begun (fault_in self.now m) (plan_in self.now m))) }
        ensures fits { IfOk result (λ x. IfOk x (λ plan. PlanFits self.now.region.size (Some plan) self.now.done)) }
        ensures no_more { IfOk result (λ x. IfOk x (λ plan. stores_left self.now.region.size (Some plan) self.now.done ≤ stores_left self.now.region.size self.now.plan self.now.done)) }
        ensures same_room { list.new.room ≡ list.old.room }
        ensures only_loads { OnlyLoads M.told M.trail M.names M.handed M.sizes mem.old mem.new }
        ensures cause { HasCause (M.faults mem.old) (M.faults mem.new) result }
    {
        match self.plan {
            Some(plan) => Ok(Ok(plan)),
            None => self.check(mem, list),
        }
    }

    /// Reads the whole region, and says what a start over it has to do.
    fn check<M: Shared>(
        &self,
        mem: &mut M,
        list: &mut PendingList,
    ) -> Result<Result<Plan, RegionFault>, Failed>
        requires lies { StartLies (M.sizes mem.old) self.now }
        requires room { self.now.region.size ≤ list.old.room }
        ensures checked { IfOk result (λ x. WhereTold (M.told mem.old) (λ m. x ≡ starts.begun (start_fault self.now.base self.now.region.size (used_idx_word self.now.ring m) (words_of self.now.region m)) (plan_of (used_idx_word self.now.ring m) (words_of self.now.region m)))) }
        ensures fits { IfOk result (λ x. IfOk x (λ plan. PlanFits self.now.region.size (Some plan) 0)) }
        ensures same_room { list.new.room ≡ list.old.room }
        ensures only_loads { OnlyLoads M.told M.trail M.names M.handed M.sizes mem.old mem.new }
        ensures cause { HasCause (M.faults mem.old) (M.faults mem.new) result }
    {
        let used = self.used(mem)?;
        match self.region.reading(mem, used, list)? {
            Reading::Uninitialised if self.base == u32::from(used) => Ok(Ok(Plan::New)),
            Reading::Uninitialised => Ok(Err(RegionFault::BadBase(self.base))),
            Reading::Damaged(fault) => Ok(Err(fault)),
            Reading::Entries => {
                let plan = self.settles(mem, used)?;
                Ok(Ok(plan))
            }
        }
    }

    /// The plan that settles the batch that used.idx is ahead of used_idx, of no more entries than
    /// there are.
    fn settles<M: Shared>(&self, mem: &mut M, used: u16) -> Result<Plan, Failed>
        requires lies { StartLies (M.sizes mem.old) self.now }
        ensures plan { IfOk result (λ plan. WhereTold (M.told mem.old) (λ m. ahead used (words_of self.now.region m).used_idx ≤ self.now.region.size → plan ≡ plans.settles (ahead used (words_of self.now.region m).used_idx))) }
        ensures fits { IfOk result (λ plan. PlanFits self.now.region.size (Some plan) 0) }
        ensures only_loads { OnlyLoads M.told M.trail M.names M.handed M.sizes mem.old mem.new }
        ensures cause { HasCause (M.faults mem.old) (M.faults mem.new) result }
    {
        let used_idx = self.region.used_idx(mem)?;
        let count = used.wrapping_sub(used_idx).min(self.region.size);
        if count == 0 {
            return Ok(Plan::Settled);
        }
        Ok(Plan::Settles(count))
    }

    /// The next store of a plan.
    fn due<M: Shared>(&self, mem: &mut M, plan: Plan) -> Result<Option<SplitStore>, Failed>
        requires lies { StartLies (M.sizes mem.old) self.now }
        requires fits { PlanFits self.now.region.size (Some plan) self.now.done }
        ensures due { IfOk result (λ step. WhereTold (M.told mem.old) (λ m. step ≡ step_of self.now.region.size (sight_in self.now m) plan self.now.done)) }
        ensures within { IfOk result (λ step. IfSome step (λ x. NamesEntry self.now.region.size x × StepFits self.now.region.size plan self.now.done x)) }
        ensures only_loads { OnlyLoads M.told M.trail M.names M.handed M.sizes mem.old mem.new }
        ensures cause { HasCause (M.faults mem.old) (M.faults mem.new) result }
    {
        match plan {
            Plan::New if self.done == 0 => Ok(Some(SplitStore::SI1)),
            Plan::New if self.done <= self.region.size => Ok(Some(SplitStore::SI2(self.done - 1))),
            Plan::New => {
                let used = self.used(mem)?;
                Ok(Some(SplitStore::SI3(used)))
            }
            Plan::Settles(count) => {
                let step = self.settle_step(mem, count)?;
                Ok(Some(step))
            }
            Plan::Settled => Ok(None),
        }
    }

    /// The next store of a plan that settles a batch of so many.
    fn settle_step<M: Shared>(&self, mem: &mut M, count: u16) -> Result<SplitStore, Failed>
        requires lies { StartLies (M.sizes mem.old) self.now }
        requires fits { PlanFits self.now.region.size (Some (Settles count)) self.now.done }
        ensures step { IfOk result (λ step. WhereTold (M.told mem.old) (λ m. step ≡ settle_step self.now.region.size (sight_in self.now m) count self.now.done)) }
        ensures within { IfOk result (λ step. NamesEntry self.now.region.size step × StepFits self.now.region.size (Settles count) self.now.done step) }
        ensures only_loads { OnlyLoads M.told M.trail M.names M.handed M.sizes mem.old mem.new }
        ensures cause { HasCause (M.faults mem.old) (M.faults mem.new) result }
    {
        if self.done < count {
            let link = self.link(mem)?;
            if link < self.region.size {
                return Ok(SplitStore::SR1(link));
            }
        }
        let used = self.used(mem)?;
        Ok(SplitStore::SR2(used))
    }

    /// The entry of the batch that follows the one that was cleared last.
    fn link<M: Shared>(&self, mem: &mut M) -> Result<u16, Failed>
        requires lies { StartLies (M.sizes mem.old) self.now }
        ensures loaded { IfOk result (λ link. WhereTold (M.told mem.old) (λ m. link ≡ (sight_in self.now m).link)) }
        ensures only_loads { OnlyLoads M.told M.trail M.names M.handed M.sizes mem.old mem.new }
        ensures cause { HasCause (M.faults mem.old) (M.faults mem.new) result }
    {
        match self.cleared {
            Some(entry) => self.region.next_of(mem, entry),
            None => self.region.last_batch_head(mem),
        }
    }

    /// used.idx, as it stands in the ring.
    fn used<M: Shared>(&self, mem: &mut M) -> Result<u16, Failed>
        requires lies { StartLies (M.sizes mem.old) self.now }
        ensures loaded { IfOk result (λ used. WhereTold (M.told mem.old) (λ m. used ≡ used_idx_word self.now.ring m)) }
        ensures only_loads { OnlyLoads M.told M.trail M.names M.handed M.sizes mem.old mem.new }
        ensures cause { HasCause (M.faults mem.old) (M.faults mem.new) result }
    {
        self.ring.used_idx(mem)
    }

    /// The open entries as they are now.
    fn open_entries<M: Shared>(&self, mem: &mut M, list: &mut PendingList) -> Result<(), Failed>
        requires lies { StartLies (M.sizes mem.old) self.now }
        requires room { self.now.region.size ≤ list.old.room }
        ensures list { IfOk result (λ t. WhereTold (M.told mem.old) (λ m. list.new.items ≡ unchecked_in self.now m)) }
        ensures entries { OnOk result (AreEntries self.now.region.size list.new.items) }
        ensures same_room { list.new.room ≡ list.old.room }
        ensures only_loads { OnlyLoads M.told M.trail M.names M.handed M.sizes mem.old mem.new }
        ensures cause { HasCause (M.faults mem.old) (M.faults mem.new) result }
    {
        let used = self.used(mem)?;
        self.region.unchecked_entries(mem, used, list)?;
        Ok(())
    }

    /// Makes a store of the plan.
    fn make<M: Shared>(&mut self, mem: &mut M, plan: Plan, step: SplitStore) -> Recovered
        requires lies { StartLies (M.sizes mem.old) self.old }
        requires plan { PlanFits self.old.region.size (Some plan) self.old.done }
        requires within { NamesEntry self.old.region.size step }
        requires fits { StepFits self.old.region.size plan self.old.done step }
        ensures said { result ≢ recovered.Failed → result ≡ recovered.Stored (tag_of step) }
        ensures state { result ≢ recovered.Failed → self.new ≡ moved step (record self.old { plan = Some plan }) }
        ensures stays { result ≡ recovered.Failed → self.new ≡ self.old }
        ensures same_queue { SameQueue self.old self.new }
        ensures fewer { result ≢ recovered.Failed → stores_left self.old.region.size self.new.plan self.new.done < stores_left self.old.region.size (Some plan) self.old.done }
        ensures store { MakesStore M.told M.trail M.names M.handed M.sizes mem.old mem.new (outcome result) (store_of self.old.region step) }
        ensures cause { HasCause (M.faults mem.old) (M.faults mem.new) (outcome result) }
    {
        match self.region.store(mem, step) {
            Ok(()) => {
                self.note(plan, step);
                Recovered::Stored(step.tag())
            }
            Err(_) => Recovered::Failed,
        }
    }

    /// A store of the plan was made.
    fn note(&mut self, plan: Plan, step: SplitStore)
        requires few { self.old.region.size ≤ 1024 }
        requires plan { PlanFits self.old.region.size (Some plan) self.old.done }
        requires within { NamesEntry self.old.region.size step }
        requires fits { StepFits self.old.region.size plan self.old.done step }
        ensures moved { self.new ≡ moved step (record self.old { plan = Some plan }) }
        ensures fewer { stores_left self.old.region.size self.new.plan self.new.done < stores_left self.old.region.size (Some plan) self.old.done }
    {
        self.plan = Some(plan);
        match step {
            SplitStore::SI1 | SplitStore::SI2(_) => self.done += 1,
            SplitStore::SR1(entry) => {
                self.done += 1;
                self.cleared = Some(entry);
            }
            _ => self.plan = Some(Plan::Settled),
        }
    }
}
