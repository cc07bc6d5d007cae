use crate::trail::Trail;
use crate::{Shared, SharedFault};
use std::alloc::Global;
use vub_base::{Failed, Memory, Space};

/// Shared memory that passes every call on and keeps each store that succeeds, in lists reserved
/// for so many stores and bytes. A store past them fails, and is not passed on.
#[derive(Drop)]
pub struct TrailShared<M> {
    inner: M,
    trail: Trail,
    faults: u64,
}

impl<M: Shared> TrailShared<M> {
    ghost use Rattle.std.specs.Prelude.{◌≡◌, ◌<◌, ◌≤◌, ◌-◌, ◌^◌, [], IfOk, IsOk, OnOk, OnErr, Some, length, slice_get};
    ghost use Rattle.std.proofs.Common.{min};
    ghost use Rattle.vub_base.specs.Causes.{Rose};
    ghost use Rattle.vub_shared.specs.Stores.{one_store};
    ghost use Rattle.vub_shared.specs.TrailForms.{inner_of, trail_of, stores_of, faults_with};

    /// The memory below, with no store kept and room for so many stores and bytes.
    pub fn new(
        alloc: Global,
        inner: M,
        stores: usize,
        bytes: usize,
    ) -> Result<TrailShared<M>, Memory>
    where
        M: Drop,
        ensures inner { IfOk result (λ t. inner_of t ≡ inner) }
        ensures trail { IfOk result (λ t. trail_of t ≡ record { stores = []; stores_room = stores; bytes_room = bytes }) }
        ensures faults { IfOk result (λ t. faults_with M.faults t ≡ min (M.faults inner) (2 ^ 64 - 1)) }
    {
        let trail = Trail::new(alloc, stores, bytes)?;
        Ok(TrailShared {
            inner,
            trail,
            faults: 0,
        })
    }

    /// Empties the list of stores and reserves room for so many stores and bytes. Takes no memory
    /// where there was as much room before. Refused, it changes nothing.
    pub fn restart(&mut self, stores: usize, bytes: usize) -> Result<(), Memory>
        ensures inner { inner_of self.new ≡ inner_of self.old }
        ensures trail { OnOk result (trail_of self.new ≡ record { stores = []; stores_room = stores; bytes_room = bytes }) }
        ensures faults { faults_with M.faults self.new ≡ faults_with M.faults self.old }
        ensures refused { OnErr result (self.new ≡ self.old) }
        ensures enough { stores ≤ (trail_of self.old).stores_room → bytes ≤ (trail_of self.old).bytes_room → IsOk result }
    {
        self.trail.restart(stores, bytes)
    }

    /// The number of stores kept.
    pub fn stores(&self) -> usize
        ensures { result ≡ length (stores_of self.now) }
    {
        self.trail.len()
    }

    /// One of the stores kept: its space, its place and its bytes.
    pub fn store_at(&self, index: usize) -> (Space, u64, &[u8])
        requires { index < length (stores_of self.now) }
        ensures { slice_get (stores_of self.now) index ≡ Some (one_store result.0.number result.1 result.2.now) }
    {
        self.trail.at(index)
    }

    /// The memory below.
    pub fn inner(&self) -> &M
        ensures { result.now ≡ inner_of self.now }
    {
        &self.inner
    }

    // Counts a store without room.
    fn refuse(&mut self)
        ensures inner { inner_of self.new ≡ inner_of self.old }
        ensures trail { trail_of self.new ≡ trail_of self.old }
        ensures later { faults_with M.faults self.old ≤ faults_with M.faults self.new }
        ensures rose { Rose (faults_with M.faults self.old) (faults_with M.faults self.new) }
    {
        self.faults = self.faults.saturating_add(1);
    }
}

impl<M: Shared> Shared for TrailShared<M> {
    ghost use Rattle.std.specs.Prelude.{◌≡◌, ◌≢◌, ◌≤◌, ◌+◌, ◌%◌, ℕ, Some, true, length, OnOk, OnErr, IfOk, IfErr, IsErrOf};
    ghost use Rattle.std.specs.Option.{option_map};
    ghost use Rattle.byteorder.specs.Endian.{little_bytes};
    ghost use Rattle.vub_base.specs.Causes.{HasCause, Rose};
    ghost use Rattle.vub_base.specs.Told.{WhereTold};
    ghost use Rattle.vub_shared.specs.Bytes.{bytes_from, cleared};
    ghost use Rattle.vub_shared.specs.Spaces.{AllHanded, with_name, KeepsHanded, HandsNew, HasReason};
    ghost use Rattle.vub_shared.specs.declared.fault.SharedFault.TheVariants.{NoSuch};
    ghost use Rattle.vub_shared.specs.Frames.{OnlyLoads, MakesStore};
    ghost use Rattle.vub_shared.specs.Stores.{one_store};
    ghost use Rattle.vub_shared.specs.TrailForms.{inner_of, trail_of, stores_of, faults_with, IsKeptIn};

    ghost told = { λ t. M.told (inner_of t) };

    ghost trail = { λ t. Some (stores_of t) };

    ghost names = { λ t. M.names (inner_of t) };

    ghost handed = { λ t. M.handed (inner_of t) };

    ghost sizes = { λ t. M.sizes (inner_of t) };

    ghost faults = { λ t. faults_with M.faults t };

    ghost told_fits = { λ t m e s p. M.told_fits (inner_of t) m e s p };

    ghost sizes_fit = { λ t s. M.sizes_fit (inner_of t) s };

    ghost unhanded_empty = { λ t s past. M.unhanded_empty (inner_of t) s past };

    fn find(&mut self, name: &str) -> Result<Space, SharedFault>
        ensures found { IfOk result (λ space. WhereTold (M.names (inner_of self.old)) (λ n. n name.now ≡ Some space.number)) }
        ensures is_handed { IfOk result (λ space. M.handed (inner_of self.new) space.number ≡ true) }
        ensures spaces { KeepsHanded (M.handed (inner_of self.old)) (M.sizes (inner_of self.old)) (M.handed (inner_of self.new)) (M.sizes (inner_of self.new)) }
        ensures told { M.told (inner_of self.new) ≡ M.told (inner_of self.old) }
        ensures trail { trail_of self.new ≡ trail_of self.old }
        ensures names { M.names (inner_of self.new) ≡ M.names (inner_of self.old) }
        ensures reason { HasReason (faults_with M.faults self.old) (faults_with M.faults self.new) (M.names (inner_of self.old)) name.now result }
        ensures failed { IsErrOf result SharedFault.Failed → Rose (M.faults (inner_of self.old)) (M.faults (inner_of self.new)) }
    {
        self.inner.find(name)
    }

    fn create(&mut self, name: &str, size: u64) -> Result<Space, SharedFault>
        ensures made { IfOk result (λ space. HandsNew (M.handed (inner_of self.old)) (M.sizes (inner_of self.old)) (M.handed (inner_of self.new)) (M.sizes (inner_of self.new)) space.number size) }
        ensures zeroed { IfOk result (λ space. M.told (inner_of self.new) ≡ option_map (cleared space.number) (M.told (inner_of self.old))) }
        ensures named { IfOk result (λ space. M.names (inner_of self.new) ≡ option_map (with_name name.now space.number) (M.names (inner_of self.old))) }
        ensures keeps_spaces { OnErr result (KeepsHanded (M.handed (inner_of self.old)) (M.sizes (inner_of self.old)) (M.handed (inner_of self.new)) (M.sizes (inner_of self.new))) }
        ensures keeps_told { OnErr result (M.told (inner_of self.new) ≡ M.told (inner_of self.old)) }
        ensures keeps_names { OnErr result (M.names (inner_of self.new) ≡ M.names (inner_of self.old)) }
        ensures trail { trail_of self.new ≡ trail_of self.old }
        ensures reason { HasReason (faults_with M.faults self.old) (faults_with M.faults self.new) (M.names (inner_of self.old)) name.now result }
        ensures never_lacking { IfErr result (λ e. e ≢ NoSuch) }
        ensures all_handed { AllHanded (M.handed (inner_of self.old)) → IsErrOf result SharedFault.Failed }
        ensures failed { IsErrOf result SharedFault.Failed → Rose (M.faults (inner_of self.old)) (M.faults (inner_of self.new)) }
    {
        self.inner.create(name, size)
    }

    fn size(&self, space: Space) -> u64 {
        self.inner.size(space)
    }

    fn load(&mut self, space: Space, place: u64, into: &mut [u8]) -> Result<(), Failed>
        requires { place + length into.old ≤ M.sizes (inner_of self.old) space.number }
        ensures loaded { OnOk result (WhereTold (M.told (inner_of self.old)) (λ m. into.new ≡ bytes_from (length into.old) m space.number place)) }
        ensures inner { OnlyLoads M.told M.trail M.names M.handed M.sizes (inner_of self.old) (inner_of self.new) }
        ensures trail { trail_of self.new ≡ trail_of self.old }
        ensures failed { OnErr result (Rose (M.faults (inner_of self.old)) (M.faults (inner_of self.new))) }
        ensures cause { HasCause (faults_with M.faults self.old) (faults_with M.faults self.new) result }
    {
        self.inner.load(space, place, into)
    }

    fn store1(&mut self, space: Space, place: u64, value: u8) -> Result<(), Failed>
        requires { place + 1 ≤ M.sizes (inner_of self.old) space.number }
        ensures inner { MakesStore M.told M.trail M.names M.handed M.sizes (inner_of self.old) (inner_of self.new) result (one_store space.number place (little_bytes 1 value)) }
        ensures kept { IsKeptIn M.faults self.old self.new result (one_store space.number place (little_bytes 1 value)) }
        ensures cause { HasCause (faults_with M.faults self.old) (faults_with M.faults self.new) result }
    {
        if !self.trail.has_room(1) {
            self.refuse();
            return Err(Failed);
        }
        self.inner.store1(space, place, value)?;
        self.trail.add(space, place, &value.to_le_bytes());
        Ok(())
    }

    fn store2(&mut self, space: Space, place: u64, value: u16) -> Result<(), Failed>
        requires room { place + 2 ≤ M.sizes (inner_of self.old) space.number }
        requires aligned { place % 2 ≡ 0 }
        ensures inner { MakesStore M.told M.trail M.names M.handed M.sizes (inner_of self.old) (inner_of self.new) result (one_store space.number place (little_bytes 2 value)) }
        ensures kept { IsKeptIn M.faults self.old self.new result (one_store space.number place (little_bytes 2 value)) }
        ensures cause { HasCause (faults_with M.faults self.old) (faults_with M.faults self.new) result }
    {
        if !self.trail.has_room(2) {
            self.refuse();
            return Err(Failed);
        }
        self.inner.store2(space, place, value)?;
        self.trail.add(space, place, &value.to_le_bytes());
        Ok(())
    }

    fn store4(&mut self, space: Space, place: u64, value: u32) -> Result<(), Failed>
        requires room { place + 4 ≤ M.sizes (inner_of self.old) space.number }
        requires aligned { place % 4 ≡ 0 }
        ensures inner { MakesStore M.told M.trail M.names M.handed M.sizes (inner_of self.old) (inner_of self.new) result (one_store space.number place (little_bytes 4 value)) }
        ensures kept { IsKeptIn M.faults self.old self.new result (one_store space.number place (little_bytes 4 value)) }
        ensures cause { HasCause (faults_with M.faults self.old) (faults_with M.faults self.new) result }
    {
        if !self.trail.has_room(4) {
            self.refuse();
            return Err(Failed);
        }
        self.inner.store4(space, place, value)?;
        self.trail.add(space, place, &value.to_le_bytes());
        Ok(())
    }

    fn store8(&mut self, space: Space, place: u64, value: u64) -> Result<(), Failed>
        requires room { place + 8 ≤ M.sizes (inner_of self.old) space.number }
        requires aligned { place % 8 ≡ 0 }
        ensures inner { MakesStore M.told M.trail M.names M.handed M.sizes (inner_of self.old) (inner_of self.new) result (one_store space.number place (little_bytes 8 value)) }
        ensures kept { IsKeptIn M.faults self.old self.new result (one_store space.number place (little_bytes 8 value)) }
        ensures cause { HasCause (faults_with M.faults self.old) (faults_with M.faults self.new) result }
    {
        if !self.trail.has_room(8) {
            self.refuse();
            return Err(Failed);
        }
        self.inner.store8(space, place, value)?;
        self.trail.add(space, place, &value.to_le_bytes());
        Ok(())
    }

    fn store_run(&mut self, space: Space, place: u64, bytes: &[u8]) -> Result<(), Failed>
        requires { place + length bytes.now ≤ M.sizes (inner_of self.old) space.number }
        ensures inner { MakesStore M.told M.trail M.names M.handed M.sizes (inner_of self.old) (inner_of self.new) result (one_store space.number place bytes.now) }
        ensures kept { IsKeptIn M.faults self.old self.new result (one_store space.number place bytes.now) }
        ensures cause { HasCause (faults_with M.faults self.old) (faults_with M.faults self.new) result }
    {
        if !self.trail.has_room(bytes.len()) {
            self.refuse();
            return Err(Failed);
        }
        self.inner.store_run(space, place, bytes)?;
        self.trail.add(space, place, bytes);
        Ok(())
    }
}
