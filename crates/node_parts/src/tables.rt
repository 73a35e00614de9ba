ghost use Rattle.std.specs.Prelude.{◌≡◌, ◌≢◌, ℕ, ◌<◌, ◌%◌, ◌-◌, ◌^◌, ◌∷◌, min, List, IfOk, IfSome, OnOk, OnErr, IsSome, replicate, slice_set, Some, None};
ghost use Rattle.std.specs.Option.{option_copied, option_map};
ghost use Rattle.node_rules.specs.Words.{pick};
ghost use Rattle.node_rules.specs.LockTable.{put_entry};
ghost use Rattle.lock_table.specs.Tables.{IsPageOf, SamePlace, found, table_of, is_idle, with_made};
ghost use Rattle.step_laws.specs.Most.{sum_of};
ghost use Rattle.node_parts.specs.Counts.{IsListed, lists_in};
ghost use Rattle.node_parts.specs.Tables.{TablesView, IsTableAt, AreTidyBut, IsTidyBut, lock_tables, place_at, table_for, made_at, with_entry_at};

use crate::listed::{listed_at, listed_of, listed_on};
use lock_entry::Entry;
use lock_table::Table;
use pcl_base::{Config, NoMemory, NodeNo, PageNo};
use std::alloc::Global;
use std::marker::Model;

/// The lock tables of a node, with a place for each partition. Contracts see each table with the
/// entries that were made in it, and by `lock_tables` the tables of the rules.
#[derive(Drop)]
pub struct Tables {
    config: Config,
    places: Vec<Option<Table>>,
    /// The waiting accesses and the rights in all tables.
    count: u128,
}

impl Model for Tables {
    ghost use Rattle.node_parts.specs.Counts.{AreCounted};
    ghost use Rattle.step_laws.specs.Most.{sum_of};
    ghost use Rattle.node_parts.specs.Counts.{IsListed, lists_in};
    ghost use Rattle.node_parts.specs.Tables.{TablesView};

    ghost Value = { TablesView };

    ghost view = { λ t. record { config = t.config; places = t.places.items } };

    ghost invariant = { λ t. AreCounted t.count (record { config = t.config; places = t.places.items }) };
}

impl Tables {
    /// A place for each partition, and no table.
    pub fn open(alloc: Global, config: &Config) -> Result<Tables, NoMemory>
        ensures { IfOk result (λ t. t ≡ record { config = config.now; places = replicate config.now.nodes None }) }
    {
        Ok(Tables {
            config: *config,
            places: empty_places(alloc, config.nodes())?,
            count: 0,
        })
    }

    /// The table of a partition.
    pub fn at(&self, q: NodeNo) -> Option<&Table>
        requires { q < self.now.config.nodes }
        ensures value { option_copied result ≡ place_at self.now.places q }
        ensures place { IfSome result (λ t. IsTableAt self.now.config q t.now) }
    {
        self.places[q as usize].as_ref()
    }

    /// Another table, or none, takes the place of that of a partition. It takes no memory.
    pub fn put_table(&mut self, q: NodeNo, table: Option<Table>)
        requires q { q < self.old.config.nodes }
        requires table { IfSome table (IsTableAt self.old.config q) }
        ensures places { self.new ≡ record self.old { places = slice_set self.old.places q table } }
        ensures tables { lock_tables self.new.places ≡ slice_set (lock_tables self.old.places) q (option_map table_of table) }
        ensures tidy { (ps : List ℕ) → AreTidyBut ps self.old → IsTidyBut ps self.old.config q table → AreTidyBut ps self.new }
    {
        let count = self.count_with_table(q, &table);
        self.places[q as usize] = table;
        self.count = count;
    }

    /// Makes room for the entry of a page that the node owns. For the rules nothing changes.
    /// `NoMemory` leaves all as before.
    pub fn make(&mut self, page: PageNo) -> Result<(), NoMemory>
        requires page { page < self.old.config.pages }
        requires own { IsSome (table_for self.old page) }
        ensures made { OnOk result (IsSome (made_at self.new page)) }
        ensures others { OnOk result ((p : ℕ) → p ≢ page → made_at self.new p ≡ made_at self.old p) }
        ensures tables { lock_tables self.new.places ≡ lock_tables self.old.places }
        ensures tidy { OnOk result ((ps : List ℕ) → AreTidyBut ps self.old → AreTidyBut (page ∷ ps) self.new) }
        ensures config { self.new.config ≡ self.old.config }
        ensures err { OnErr result (self.new ≡ self.old) }
    {
        let q = (page % self.config.nodes()) as usize;
        let at = &mut self.places[q];
        match at {
            Some(table) => make_in(table, page),
            None => unreachable!(),
        }
    }

    /// Another entry takes the place of that of a page for which there is room. An entry with empty
    /// lists is given up at once. It takes no memory.
    pub fn put(&mut self, page: PageNo, entry: Entry)
        requires page { page < self.old.config.pages }
        requires made { IsSome (made_at self.old page) }
        ensures tables { lock_tables self.new.places ≡ with_entry_at (lock_tables self.old.places) (page % self.old.config.nodes) page entry }
        ensures others { (p : ℕ) → p ≢ page → made_at self.new p ≡ made_at self.old p }
        ensures tidy { (ps : List ℕ) → AreTidyBut (page ∷ ps) self.old → AreTidyBut ps self.new }
        ensures config { self.new.config ≡ self.old.config }
    {
        self.count = self.count_with_entry(page, &entry);
        let q = (page % self.config.nodes()) as usize;
        let at = &mut self.places[q];
        match at {
            Some(table) => put_in(table, page, entry),
            None => unreachable!(),
        }
    }

    /// Gives up the room for a page's entry, unless the entry is in use. For the rules nothing
    /// changes. It takes no memory.
    pub fn give_up(&mut self, page: PageNo)
        requires page { page < self.old.config.pages }
        requires made { IsSome (made_at self.old page) }
        ensures tables { lock_tables self.new.places ≡ lock_tables self.old.places }
        ensures others { (p : ℕ) → p ≢ page → made_at self.new p ≡ made_at self.old p }
        ensures tidy { (ps : List ℕ) → AreTidyBut (page ∷ ps) self.old → AreTidyBut ps self.new }
        ensures config { self.new.config ≡ self.old.config }
    {
        let q = (page % self.config.nodes()) as usize;
        let at = &mut self.places[q];
        match at {
            Some(table) => table.tidy(page),
            None => unreachable!(),
        }
    }

    /// How many accesses wait and how many rights there are in all tables; the last `usize` where it is
    /// more. It takes no memory.
    pub fn listed(&self) -> usize
        ensures { result ≡ min (sum_of lists_in (lock_tables self.now.places)) (2 ^ 64 - 1) }
    {
        if self.count <= u64::MAX as u128 {
            return self.count as usize;
        }
        usize::MAX
    }

    /// The count once another table, or none, has a partition's place.
    fn count_with_table(&self, q: NodeNo, table: &Option<Table>) -> u128
        requires q { q < self.now.config.nodes }
        requires table { IfSome table.now (IsTableAt self.now.config q) }
        ensures { IsListed result (slice_set (lock_tables self.now.places) q (option_map table_of table.now)) }
    {
        let before = listed_at(&self.places[q as usize], &self.config, q);
        let now = listed_at(table, &self.config, q);
        self.count - before + now
    }

    /// The count once another entry has the place of that of a page that the node owns.
    fn count_with_entry(&self, page: PageNo, entry: &Entry) -> u128
        requires page { page < self.now.config.pages }
        requires own { IsSome (table_for self.now page) }
        ensures { IsListed result (with_entry_at (lock_tables self.now.places) (page % self.now.config.nodes) page entry.now) }
    {
        let q = (page % self.config.nodes()) as usize;
        match &self.places[q] {
            Some(table) => self.count - listed_on(table, page) + listed_of(entry),
            None => unreachable!(),
        }
    }
}

/// So many places without a table.
fn empty_places(alloc: Global, nodes: u32) -> Result<Vec<Option<Table>>, NoMemory>
    ensures { IfOk result (λ v. v.items ≡ replicate nodes None) }
{
    let mut places = Vec::with_capacity(alloc, nodes as usize)?;
    for _ in 0..nodes {
        places.push(None)?;
    }
    Ok(places)
}

/// Makes an entry for a page in its table, where there is none.
fn make_in(table: &mut Table, page: PageNo) -> Result<(), NoMemory>
    requires { IsPageOf table.old page }
    ensures made { OnOk result (table.new ≡ with_made table.old page) }
    ensures err { OnErr result (table.new ≡ table.old) }
{
    let _entry = table.entry(page)?;
    Ok(())
}

/// Puts an entry into its table, and gives it up where it has empty lists.
fn put_in(table: &mut Table, page: PageNo, entry: Entry)
    requires page { IsPageOf table.old page }
    requires there { IsSome (found table.old page) }
    ensures table { table_of table.new ≡ put_entry (table_of table.old) page entry }
    ensures entry { found table.new page ≡ pick (is_idle entry) None (Some entry) }
    ensures others { (p : ℕ) → p ≢ page → found table.new p ≡ found table.old p }
    ensures place { SamePlace table.old table.new }
{
    table.put(page, entry);
    table.tidy(page);
}
