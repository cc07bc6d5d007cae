//! The driver's chains give header and data to read, and data and status to write.
ghost use Rattle.std.specs.Prelude.{◌≡◌, ◌<◌, ◌≤◌, ◌+◌, ◌*◌, ◌^◌, ℕ, List, [], ◌∷◌, length, Some, true};
ghost use Rattle.vub_memtable.specs.Tables.{guest_place};
ghost use Rattle.vub_chain_laws.specs.Tables.{FitsTable, StandAt, naming_bytes, table_bytes};
ghost use Rattle.vub_base.specs.declared.request.Ask.{Ask};
ghost use Rattle.vub_shared.specs.Bytes.{Bytes};
ghost use Rattle.vub_ring.specs.Ring.{Ring};
ghost use Rattle.vub_driver.specs.Requests.{Piece, pieces};
ghost use Rattle.vub_driver.specs.Stores.{chain_stores};
ghost use Rattle.vub_chain.specs.declared.walk.Desc.{Desc};
ghost use Rattle.vub_chain.specs.Descs.{Source, linked_desc, listed_from};
ghost use Rattle.vub_chain.specs.Chains.{Limits, list_chain, split_chain};
ghost use Rattle.vub_chain_laws.specs.Made.{ChainFits, after_all, table_of};
ghost use Rattle.vub_chain_laws.specs.Pieces.{AreMapped, Gives, LinkedAs, ListedAs, NamesTable, numbers_from};

/// A request that stands in the ring itself, as descriptors that are linked from its head on, or as
/// a list of slots: the walk breaks no rule, and its spans are the header and the data that the
/// device reads, and the data that it writes and the status.
pub fn direct_chains_give_the_request()
    ensures split { (x : Limits) (m : Bytes) (space place head buffer : ℕ) (ds : List ℕ) (ask : Ask)
        → LinkedAs m (record { space = space; place = place; count = x.size }) (head ∷ ds) (pieces buffer ask) → length (pieces buffer ask) ≤ x.size → AreMapped x.table (pieces buffer ask)
        → Gives x (split_chain x m space place head) (pieces buffer ask) }
    ensures list { (x : Limits) (m : Bytes) (buffer : ℕ) (list : List Desc) (ask : Ask)
        → ListedAs list (pieces buffer ask) → length (pieces buffer ask) ≤ x.size → AreMapped x.table (pieces buffer ask) → Gives x (list_chain x m list) (pieces buffer ask) }
{}

/// The same of a request in a table that one descriptor names, linked or listed from its first
/// entry on.
pub fn indirect_chains_give_the_request()
    ensures split { (x : Limits) (m : Bytes) (space place head buffer : ℕ) (s : Source) (ask : Ask)
        → x.indirect ≡ true → NamesTable x.table (linked_desc m (record { space = space; place = place; count = x.size }) head) (length (pieces buffer ask)) s
        → LinkedAs m s (numbers_from (length (pieces buffer ask)) 0) (pieces buffer ask) → length (pieces buffer ask) ≤ x.size → AreMapped x.table (pieces buffer ask)
        → Gives x (split_chain x m space place head) (pieces buffer ask) }
    ensures list { (x : Limits) (m : Bytes) (buffer : ℕ) (d : Desc) (s : Source) (ask : Ask)
        → x.indirect ≡ true → NamesTable x.table d (length (pieces buffer ask)) s
        → ListedAs (listed_from m s (length (pieces buffer ask)) 0) (pieces buffer ask) → length (pieces buffer ask) ≤ x.size → AreMapped x.table (pieces buffer ask)
        → Gives x (list_chain x m (d ∷ [])) (pieces buffer ask) }
{}

/// The driver's stores of a request's descriptors, each into a descriptor of its own, link its
/// pieces as `direct_chains_give_the_request` wants them.
pub fn the_drivers_stores_link_its_pieces()
    ensures { (r : Ring) (m : Bytes) (ds : List ℕ) (ps : List Piece) → r.size ≤ 65536 → ChainFits r.size ds ps → LinkedAs (after_all (chain_stores r ps ds) m) (table_of r) ds ps }
{}

/// A request in a table, by the bytes that stand in memory: of the table, an entry for each piece, and
/// of the one descriptor that names it, which may lie in different spaces.
pub fn a_standing_table_gives_the_request()
    ensures { (x : Limits) (m : Bytes) (space place head buffer table : ℕ) (where_it_lies : ℕ × ℕ) (ask : Ask)
        → x.indirect ≡ true → table < 2 ^ 64 → guest_place x.table table (16 * length (pieces buffer ask)) ≡ Some where_it_lies
        → StandAt m space (place + 16 * head) (naming_bytes table (length (pieces buffer ask)))
        → StandAt m where_it_lies.0 where_it_lies.1 (table_bytes 0 (pieces buffer ask))
        → FitsTable (pieces buffer ask) → length (pieces buffer ask) ≤ x.size → AreMapped x.table (pieces buffer ask)
        → Gives x (split_chain x m space place head) (pieces buffer ask) }
{}
