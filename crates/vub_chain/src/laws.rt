//! Laws of chains: which stores leave what a walk finds.
ghost use Rattle.std.specs.Prelude.{◌≡◌, ℕ, List};
ghost use Rattle.vub_shared.specs.Bytes.{Bytes};
ghost use Rattle.vub_shared.specs.Stores.{Store, after_store};
ghost use Rattle.vub_chain.specs.declared.walk.Desc.{Desc};
ghost use Rattle.vub_chain.specs.Chains.{Limits, list_chain, split_chain};
ghost use Rattle.vub_chain.specs.Leaves.{OffList, OffSplit};

/// A store that touches no descriptor of a chain and no table that one of them names leaves the
/// chain, and with it what a walk finds. Descriptors of the same table that belong to other chains
/// may change.
pub fn stores_elsewhere_leave_chains()
    ensures split { (x : Limits) (m : Bytes) (st : Store) (space place head : ℕ) → OffSplit st x m space place head → split_chain x (after_store st m) space place head ≡ split_chain x m space place head }
    ensures list { (x : Limits) (m : Bytes) (st : Store) (ds : List Desc) → OffList st x ds → list_chain x (after_store st m) ds ≡ list_chain x m ds }
{}
