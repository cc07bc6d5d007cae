//! Laws of tables: when one is refused, that a range has one translation, and that distinct
//! addresses of the guest lie at distinct places.
ghost use Rattle.std.specs.Prelude.{◌≡◌, ◌≢◌, ◌<◌, ◌≤◌, ◌+◌, ◌↔◌, ◌⊎◌, ℕ, List, Some, None};
ghost use Rattle.vub_memtable.specs.Tables.{IsTable, PlacesApart, Refuses, fault_of, guest_place, user_place};
ghost use Rattle.vub_memtable.specs.Triples.{IsGuestRange, IsUserRange};
ghost use Rattle.vub_memtable.specs.declared.fault.TableFault.{TableFault};
ghost use Rattle.vub_memtable.specs.declared.region.Mapped.{Mapped};

/// Regions are a table, or there is one reason why they aren't.
pub fn a_table_or_one_reason()
    ensures table { (xs : List Mapped) → (fault_of xs ≡ None) ↔ IsTable xs }
    ensures reason { (xs : List Mapped) (e : TableFault) → (fault_of xs ≡ Some e) ↔ Refuses xs e }
    ensures either { (xs : List Mapped) (e : TableFault) → IsTable xs → ¬ Refuses xs e }
    ensures one { (xs : List Mapped) (e f : TableFault) → Refuses xs e → Refuses xs f → e ≡ f }
{}

/// A table translates a range to one place, which is the one that the calls answer. A part of a
/// range lies at the same part of its place.
pub fn translations_are_unique()
    ensures guest { (xs : List Mapped) (address len s p t q : ℕ) → IsTable xs → 1 ≤ len → IsGuestRange xs address len s p → IsGuestRange xs address len t q → (s ≡ t) × (p ≡ q) }
    ensures user { (xs : List Mapped) (address len s p t q : ℕ) → IsTable xs → 1 ≤ len → IsUserRange xs address len s p → IsUserRange xs address len t q → (s ≡ t) × (p ≡ q) }
    ensures guest_answer { (xs : List Mapped) (address len s p : ℕ) → IsTable xs → 1 ≤ len → (guest_place xs address len ≡ Some (s, p)) ↔ IsGuestRange xs address len s p }
    ensures user_answer { (xs : List Mapped) (address len s p : ℕ) → IsTable xs → 1 ≤ len → (user_place xs address len ≡ Some (s, p)) ↔ IsUserRange xs address len s p }
    ensures guest_part { (xs : List Mapped) (address len s p past part : ℕ) → past + part ≤ len → IsGuestRange xs address len s p → IsGuestRange xs (address + past) part s (p + past) }
    ensures user_part { (xs : List Mapped) (address len s p past part : ℕ) → past + part ≤ len → IsUserRange xs address len s p → IsUserRange xs (address + past) part s (p + past) }
{}

/// Where no two regions name the same byte of a space, bytes at distinct addresses of the guest
/// lie at distinct places, and so ranges of them that share no address share no byte.
pub fn distinct_addresses_lie_apart()
    ensures bytes { (xs : List Mapped) (a b s p t q : ℕ) → PlacesApart xs → a ≢ b → IsGuestRange xs a 1 s p → IsGuestRange xs b 1 t q → ¬ ((s ≡ t) × (p ≡ q)) }
    ensures ranges { (xs : List Mapped) (a len s p b count t q : ℕ) → PlacesApart xs → 1 ≤ len → 1 ≤ count → (b + count ≤ a) ⊎ (a + len ≤ b) → IsGuestRange xs a len s p → IsGuestRange xs b count t q
        → (t ≢ s) ⊎ ((q + count ≤ p) ⊎ (p + len ≤ q)) }
{}
