ghost use Rattle.std.specs.Prelude.{◌≡◌, ◌/◌, ◌≢◌, ℕ, ◌∷◌, ◌<◌, ◌==◌, ◌&&◌, Some, None, IfOk, IfSome, IfNone, OnOk, OnErr, IsSome, All, fold, length, is_some, slice_set, true, [], nat_eq, IsSorted, IsPermutation};
ghost use Rattle.std.specs.Ordering.{nat_cmp};
ghost use Rattle.std.specs.Borrow.{sem};
ghost use Rattle.std.specs.Map.{keys_of};
ghost use Rattle.std.specs.Option.{option_copied};
ghost use Rattle.node_rules.specs.Words.{pick};
ghost use Rattle.node_rules.specs.LockRule.{LockEntry};
ghost use Rattle.node_rules.specs.LockTable.{open_table, entry_at, put_entry, set_version, mark, marked, serve};
ghost use Rattle.lock_table.specs.Tables.{TableView, IsPageOf, FitsConfig, HasOwnEntries, found, pages_made, entry_of, table_of, is_idle, with_made, with_entry, HasKept, SamePlace};
ghost use Rattle.lock_table.specs.Lending.{LendsAt, LendsMade};

use indexmap::IndexMap;
use lock_entry::Entry;
use pcl_base::{Config, NoMemory, NodeNo, PageNo, Version};
use std::alloc::{AllocError, Global};
use std::marker::Model;

/// The lock table of one partition.
#[derive(Drop)]
pub struct Table {
    config: Config,
    partition: NodeNo,
    serving: bool,
    /// The version of each page of the partition, by page / N, as long as it has no entry.
    versions: Vec<Version>,
    entries: IndexMap<PageNo, Entry>,
    /// A flag for each node.
    reported: Vec<bool>,
}

impl Model for Table {
    ghost use Rattle.lock_table.specs.Tables.{TableView, FitsConfig};

    ghost Value = { TableView };

    ghost view = { λ t. record { config = t.config; partition = t.partition; serving = t.serving; versions = t.versions.items; entries = t.entries.entries; reported = t.reported.items } };

    ghost invariant = { λ t. FitsConfig (record { config = t.config; partition = t.partition; serving = t.serving; versions = t.versions.items; entries = t.entries.entries; reported = t.reported.items }) };
}

impl Table {
    /// A table without entries, every page of which is at version 0, and in which no node has
    /// reported.
    #[tactic(auto, unfolding(node_rules::specs::LockTable::open_table))]
    pub fn open(
        alloc: Global,
        config: &Config,
        partition: NodeNo,
        serving: bool,
    ) -> Result<Table, NoMemory>
        requires { partition < config.now.nodes }
        ensures table { IfOk result (λ t. table_of t ≡ open_table config.now partition serving) }
        ensures config { IfOk result (λ t. t.config ≡ config.now) }
        ensures partition { IfOk result (λ t. t.partition ≡ partition) }
        ensures entries { IfOk result (λ t. t.entries ≡ []) }
    {
        let places = (config.pages() / config.nodes()) as usize + 1;
        let nodes = config.nodes() as usize;
        Ok(Table {
            config: *config,
            partition,
            serving,
            versions: vec![in alloc; 0; places]?,
            entries: IndexMap::new(alloc),
            reported: vec![in alloc; false; nodes]?,
        })
    }

    /// Whether the partition is served.
    pub fn serving(&self) -> bool
        ensures { result ≡ self.now.serving }
    {
        self.serving
    }

    /// The partition.
    pub fn partition(&self) -> NodeNo
        ensures { result ≡ self.now.partition }
    {
        self.partition
    }

    /// The page's entry. None exactly where no entry was made or it was given up; such a page
    /// counts as having an entry with empty lists at its version.
    pub fn find(&self, page: PageNo) -> Option<&Entry>
        requires { IsPageOf self.now page }
        ensures found { option_copied result ≡ found self.now page }
        ensures entry { entry_at (table_of self.now) page ≡ entry_of self.now page }
    {
        self.entries.get(&page)
    }

    /// The page's version.
    pub fn version(&self, page: PageNo) -> Version
        requires { IsPageOf self.now page }
        ensures { result ≡ (entry_at (table_of self.now) page).version }
    {
        match self.entries.get(&page) {
            Some(entry) => entry.version(),
            None => self.versions[(page / self.config.nodes()) as usize],
        }
    }

    /// The page's entry, to be changed. It is made, at the page's version, where there is none.
    /// Without memory the table is as it was.
    pub fn entry(&mut self, page: PageNo) -> Result<&mut Entry, NoMemory>
        requires { IsPageOf self.old page }
        ensures* writes_back { sem 𝓛 (LendsMade self.entry page result) }
        ensures value { IfOk result (λ e. Some e.now ≡ found (with_made self.old page) page) }
        // What is last written through the loan is the page's entry in the rules' table.
        ensures table { (e : LockEntry) → table_of (with_entry (with_made self.old page) page e) ≡ put_entry (table_of self.old) page e }
    {
        self.make(page)?;
        Ok(self.at(page))
    }

    /// Makes an entry for a page that has none.
    fn make(&mut self, page: PageNo) -> Result<(), NoMemory>
        requires { IsPageOf self.old page }
        ensures there { OnOk result (IsSome (found self.new page)) }
        ensures made { OnOk result (self.new ≡ with_made self.old page) }
        ensures table { (e : LockEntry) → table_of (with_entry (with_made self.old page) page e) ≡ put_entry (table_of self.old) page e }
        ensures err { OnErr result (self.new ≡ self.old) }
    {
        if self.entries.contains_key(&page) {
            return Ok(());
        }
        let version = self.versions[(page / self.config.nodes()) as usize];
        let entry = Entry::new(*self.versions.allocator(), version);
        match self.entries.insert(page, entry) {
            Ok(None) => Ok(()),
            Ok(Some(_old)) => unreachable!(),
            Err(_) => Err(NoMemory),
        }
    }

    /// The entry of a page that has one, to be changed.
    fn at(&mut self, page: PageNo) -> &mut Entry
        requires { IsSome (found self.old page) }
        ensures* writes_back { sem 𝓛 (LendsAt self.entry page result) }
        ensures value { Some result.now ≡ found self.old page }
    {
        self.entries.get_mut(&page).unwrap()
    }

    /// The pages with an entry, rising. Each of them is one of the table's partition.
    pub fn pages(&self) -> Result<Vec<PageNo>, NoMemory>
        ensures own { HasOwnEntries self.now }
        ensures listed { IfOk result (λ ps. ps.items ≡ pages_made self.now) }
        ensures rising { IfOk result (λ ps. IsSorted nat_cmp ps.items) }
        ensures all { IfOk result (λ ps. IsPermutation (keys_of self.now.entries) ps.items) }
    {
        let mut pages: Vec<PageNo> = self
            .entries
            .keys()
            .copied()
            .collect(*self.versions.allocator())?;
        pages.sort_unstable();
        Ok(pages)
    }

    /// Another entry takes the place of the page's entry, and its version that of the page. It
    /// takes no memory.
    pub fn put(&mut self, page: PageNo, e: Entry)
        requires page { IsPageOf self.old page }
        requires there { IsSome (found self.old page) }
        ensures table { table_of self.new ≡ put_entry (table_of self.old) page e }
        ensures entry { self.new ≡ with_entry self.old page e }
    {
        prove!(page < self.config.pages());
        *self.at(page) = e;
    }

    /// These pages and their entries get these versions, one after another, and the table is
    /// served from then on. It takes no memory.
    pub fn serve(&mut self, versions: &[(PageNo, Version)])
        requires { All (λ x. IsPageOf self.old x.0) versions.now }
        ensures table { table_of self.new ≡ serve (fold (λ t x. set_version t x.0 x.1) (table_of self.old) versions.now) }
        ensures made { (p : ℕ) → is_some (found self.new p) ≡ is_some (found self.old p) }
        ensures place { SamePlace self.old self.new }
    {
        self.set_versions(versions);
        self.serving = true;
    }

    /// Pages and their entries get versions, one after another.
    fn set_versions(&mut self, versions: &[(PageNo, Version)])
        requires { All (λ x. IsPageOf self.old x.0) versions.now }
        ensures table { table_of self.new ≡ fold (λ t x. set_version t x.0 x.1) (table_of self.old) versions.now }
        ensures made { (p : ℕ) → is_some (found self.new p) ≡ is_some (found self.old p) }
        ensures place { SamePlace self.old self.new }
    {
        for (page, version) in versions {
            self.set_version(*page, *version);
        }
    }

    /// A page and its entry get a version.
    fn set_version(&mut self, page: PageNo, version: Version)
        requires { IsPageOf self.old page }
        ensures table { table_of self.new ≡ set_version (table_of self.old) page version }
        ensures made { (p : ℕ) → is_some (found self.new p) ≡ is_some (found self.old p) }
        ensures place { SamePlace self.old self.new }
    {
        if self.entries.contains_key(&page) {
            self.at(page).set_version(version);
            return;
        }
        self.keep(page, version);
    }

    /// Keeps a version for a page.
    fn keep(&mut self, page: PageNo, version: Version)
        requires { IsPageOf self.old page }
        ensures { self.new ≡ record self.old { versions = slice_set self.old.versions (page / self.old.config.nodes) version } }
    {
        self.versions[(page / self.config.nodes()) as usize] = version;
    }

    /// Notes that a node has reported.
    pub fn mark(&mut self, node: NodeNo)
        requires { node < self.old.config.nodes }
        ensures table { table_of self.new ≡ mark (table_of self.old) node }
        ensures rest { self.new ≡ record self.old { reported = slice_set self.old.reported node true } }
    {
        self.reported[node as usize] = true;
    }

    /// Whether a node has reported.
    pub fn marked(&self, node: NodeNo) -> bool
        requires { node < self.now.config.nodes }
        ensures { result ≡ marked (table_of self.now) node }
    {
        self.reported[node as usize]
    }

    /// An equal table in memory of its own.
    pub fn copy(&self) -> Result<Table, NoMemory>
        ensures { IfOk result (λ t. t ≡ self.now) }
    {
        Ok(Table {
            config: self.config,
            partition: self.partition,
            serving: self.serving,
            versions: self.versions.clone()?,
            entries: copy_entries(&self.entries)?,
            reported: self.reported.clone()?,
        })
    }

    /// Gives up the page's entry, if its three lists are empty, and keeps its version. All other
    /// entries and all versions stay. It takes no memory.
    pub fn tidy(&mut self, page: PageNo)
        requires { IsPageOf self.old page }
        ensures table { table_of self.new ≡ table_of self.old }
        ensures given_up { IfSome (found self.old page) (λ e. found self.new page ≡ pick (is_idle e) None (Some e)) }
        ensures none { found self.old page ≡ None → found self.new page ≡ None }
        ensures others { (p : ℕ) → p ≢ page → found self.new p ≡ found self.old p }
        ensures place { SamePlace self.old self.new }
    {
        match self.entries.get(&page) {
            None => {}
            Some(entry) => {
                if is_idle(entry) {
                    let version = entry.version();
                    self.give_up(page, version);
                }
            }
        }
    }

    /// Keeps a version for a page and gives up its entry.
    fn give_up(&mut self, page: PageNo, version: Version)
        requires { IsPageOf self.old page }
        ensures kept { HasKept self.old self.new page version }
        ensures gone { found self.new page ≡ None }
        ensures others { (p : ℕ) → p ≢ page → found self.new p ≡ found self.old p }
    {
        self.keep(page, version);
        let _idle = self.entries.swap_remove(&page);
    }
}

/// Whether an entry has empty lists.
fn is_idle(entry: &Entry) -> bool
    ensures { result ≡ is_idle entry.now }
{
    entry.holders().is_empty() && entry.rights().is_empty() && entry.waiting().is_empty()
}

/// Equal entries in memory of their own.
fn copy_entries(entries: &IndexMap<PageNo, Entry>) -> Result<IndexMap<PageNo, Entry>, AllocError>
    ensures { IfOk result (λ m. m.entries ≡ entries.now.entries) }
{
    entries.clone()
}
