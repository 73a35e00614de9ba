ghost use Rattle.std.specs.Prelude.{◌≡◌, ◌≤◌, ◌<◌, ◌+◌, ℕ, [], not, true, false, None, length, map, is_some, IsOk, IsSome, IfOk, OnOk, OnErr, MatchOption, nat_eq, vec_capacity, ◌++◌, ◌∷◌};
ghost use Rattle.std.specs.Map.{lookup};
ghost use Rattle.indexmap.specs.IndexMap.{spare};
ghost use Rattle.std.specs.List.{All};
ghost use Rattle.node_rules.specs.Shelf.{accept, add_reader, end_reader, may_read, readers_of, right_on, spend};
ghost use Rattle.read_right.specs.ShelfView.{is_ready};

use crate::right::{self, ReadRight};
use indexmap::IndexMap;
use pcl_base::{Items, NoMemory, PageNo, ReturnRight, TxId, Version};
use std::alloc::{AllocError, Global};
use std::marker::Model;

/// The transactions that read under a right, in the order in which they began to.
pub type Readers = Items<TxId>;

/// The rights of a node, in the order of their acceptance. Contracts see them by the rule of
/// rights, of each whether it is ready (the next reader under it needs no memory), and the spare
/// (so many more may be accepted without memory).
pub struct Shelf {
    alloc: Global,
    rights: IndexMap<PageNo, ReadRight>,
    stock: Vec<Vec<TxId>>,
    longest: usize,
    room: usize,
}

impl Model for Shelf {
    ghost use Rattle.std.specs.Prelude.{length as length_of};
    ghost use Rattle.indexmap.specs.IndexMap.{spare as spare_of};
    ghost use Rattle.read_right.specs.ShelfView.{ShelfView};
    ghost use Rattle.read_right.specs.Seen.{rights_of, marks_of, IsSound};

    ghost Value = { ShelfView };

    ghost view = { λ s. record { rights = rights_of s.rights.entries; marks = marks_of s.rights.entries; spare = length_of s.stock.items } };

    ghost invariant = { λ s. IsSound s.rights.entries s.stock.items s.longest s.room (spare_of s.rights) };
}

impl Shelf {
    /// A shelf without rights. It takes no memory.
    pub fn open(alloc: Global) -> Shelf
        ensures { result ≡ record { rights = []; marks = []; spare = 0 } }
    {
        Shelf {
            alloc,
            rights: IndexMap::new(alloc),
            stock: Vec::new(alloc),
            longest: 0,
            room: 0,
        }
    }

    /// Makes the spare at least `accepts`; nothing else changes. `NoMemory` leaves the shelf as it
    /// was.
    pub fn reserve(&mut self, accepts: usize) -> Result<(), NoMemory>
        ensures rights { self.new.rights ≡ self.old.rights }
        ensures marks { self.new.marks ≡ self.old.marks }
        ensures spare { OnOk result (accepts ≤ self.new.spare) }
        ensures kept { self.old.spare ≤ self.new.spare }
        ensures err { OnErr result (self.new ≡ self.old) }
    {
        if accepts <= self.stock.len() {
            return Ok(());
        }
        let count = accepts.max(self.stock.len().saturating_mul(2));
        let Some(room) = self.longest.checked_add(count) else {
            return Err(NoMemory);
        };
        self.rights.reserve(count)?;
        self.stock = stock_of(self.alloc, count, room)?;
        self.room = room;
        Ok(())
    }

    /// A right comes into being, where none of the page is there; true exactly then. The page's
    /// right is ready afterwards. At a spare above 0 it takes no memory, and lowers the spare by
    /// one; else `NoMemory` leaves the shelf as it was.
    pub fn accept(&mut self, page: PageNo, version: Version) -> Result<bool, NoMemory>
        ensures answer { IfOk result (λ new. new ≡ not (is_some (right_on self.old.rights page))) }
        ensures rights { OnOk result (self.new.rights ≡ accept self.old.rights page version) }
        ensures there { OnOk result (IsSome (right_on self.new.rights page)) }
        ensures ready { OnOk result (is_ready self.new page ≡ true) }
        ensures others { OnOk result ((q : ℕ) → ¬ (q ≡ page) → is_ready self.new q ≡ is_ready self.old q) }
        ensures spare { self.old.spare ≤ self.new.spare + 1 }
        ensures succeeds { 0 < self.old.spare → IsOk result }
        ensures err { OnErr result (self.new ≡ self.old) }
    {
        if self.stock.is_empty() {
            self.reserve(1)?;
        }
        Ok(self.accept_reserved(page, version))
    }

    /// The transaction reads under the page's right, which has to be there, from now on. A ready
    /// right takes no memory and isn't ready afterwards; else `NoMemory` leaves the shelf as it was.
    pub fn add_reader(&mut self, page: PageNo, tx: TxId) -> Result<(), NoMemory>
        requires { IsSome (right_on self.old.rights page) }
        ensures rights { OnOk result (self.new.rights ≡ add_reader self.old.rights page tx) }
        ensures there { OnOk result (IsSome (right_on self.new.rights page)) }
        ensures ready { OnOk result (is_ready self.new page ≡ false) }
        ensures others { OnOk result ((q : ℕ) → ¬ (q ≡ page) → is_ready self.new q ≡ is_ready self.old q) }
        ensures spare { self.old.spare ≤ self.new.spare }
        ensures succeeds { is_ready self.old page ≡ true → IsOk result }
        ensures err { OnErr result ((self.new.rights ≡ self.old.rights) × (self.new.marks ≡ self.old.marks)) }
    {
        if self.ready(page) {
            self.put_reader(page, tx);
            return Ok(());
        }
        let stock = self.stock.len();
        self.reserve(stock.saturating_add(1))?;
        let _there = self.accept_reserved(page, 0);
        self.put_reader(page, tx);
        Ok(())
    }

    /// The transaction doesn't read under the page's right any more. Takes no memory.
    pub fn end_reader(&mut self, page: PageNo, tx: TxId)
        ensures rights { self.new.rights ≡ end_reader self.old.rights page tx }
        ensures ready { (q : ℕ) → is_ready self.new q ≡ is_ready self.old q }
        ensures spare { self.new.spare ≡ self.old.spare }
    {
        match self.rights.get_mut(&page) {
            Some(right) => {
                right::end_reader(right, tx);
                return;
            }
            None => return,
        }
    }

    /// Whether the page's right at this version is there.
    pub fn may_read(&self, page: PageNo, version: Version) -> bool
        ensures { result ≡ may_read self.now.rights page version }
    {
        match self.rights.get(&page) {
            Some(right) => right.version == version,
            None => false,
        }
    }

    /// Whether a right of the page is there.
    pub fn has(&self, page: PageNo) -> bool
        ensures { result ≡ is_some (right_on self.now.rights page) }
    {
        match self.rights.get(&page) {
            Some(_right) => true,
            None => false,
        }
    }

    /// The number of rights.
    pub fn count(&self) -> usize
        ensures { result ≡ length self.now.rights }
    {
        self.rights.len()
    }

    /// The pages and versions of the rights, in the order of acceptance.
    pub fn rights(&self) -> Result<Vec<(PageNo, Version)>, NoMemory>
        ensures { IfOk result (λ v. v.items ≡ map (λ r. (r.page, r.version)) self.now.rights) }
    {
        match pairs(&self.rights, self.alloc) {
            Ok(pairs) => Ok(pairs),
            Err(_) => Err(NoMemory),
        }
    }

    /// Spends the page's right and names its readers in order; `None` exactly where there is none.
    /// It is the only call of a node that makes an answer to a revocation. Takes no memory.
    pub fn give_back(&mut self, page: PageNo) -> Option<ReturnRight>
        ensures answered { MatchOption result (right_on self.old.rights page ≡ None) (λ r. (IsSome (right_on self.old.rights page)) × (r ≡ record { page = page; readers = readers_of (right_on self.old.rights page) })) }
        ensures spent { self.new.rights ≡ spend self.old.rights page }
        ensures gone { right_on self.new.rights page ≡ None }
        ensures others { (q : ℕ) → ¬ (q ≡ page) → is_ready self.new q ≡ is_ready self.old q }
        ensures spare { self.new.spare ≡ self.old.spare }
    {
        let readers = self.turn(page)?;
        Some(ReturnRight { page, readers })
    }

    /// Spends the page's right at a new owner and gives its readers; `None` exactly where there is
    /// none. Takes no memory.
    pub fn turn(&mut self, page: PageNo) -> Option<Readers>
        ensures turned { MatchOption result (right_on self.old.rights page ≡ None) (λ r. (IsSome (right_on self.old.rights page)) × (r ≡ readers_of (right_on self.old.rights page))) }
        ensures spent { self.new.rights ≡ spend self.old.rights page }
        ensures gone { right_on self.new.rights page ≡ None }
        ensures others { (q : ℕ) → ¬ (q ≡ page) → is_ready self.new q ≡ is_ready self.old q }
        ensures spare { self.new.spare ≡ self.old.spare }
    {
        match self.rights.shift_remove(&page) {
            Some(right) => {
                let ReadRight {
                    version: _version,
                    readers,
                    ready: _ready,
                } = right;
                return Some(Items::of(readers));
            }
            None => return None,
        }
    }

    /// Ends all rights.
    pub fn forfeit_all(self) {
        let Shelf {
            alloc: _alloc,
            mut rights,
            stock: _stock,
            longest: _longest,
            room: _room,
        } = self;
        while let Some((_page, right)) = rights.pop() {
            let ReadRight {
                version: _version,
                readers: _readers,
                ready: _ready,
            } = right;
        }
        rights.destroy_empty();
    }

    // Accepts with a list from the stock.
    fn accept_reserved(&mut self, page: PageNo, version: Version) -> bool
        requires { 0 < self.old.spare }
        ensures answer { result ≡ not (is_some (right_on self.old.rights page)) }
        ensures rights { self.new.rights ≡ accept self.old.rights page version }
        ensures there { IsSome (right_on self.new.rights page) }
        ensures ready { is_ready self.new page ≡ true }
        ensures others { (q : ℕ) → ¬ (q ≡ page) → is_ready self.new q ≡ is_ready self.old q }
        ensures spare { self.old.spare ≡ self.new.spare + 1 }
    {
        let readers = self.stock.pop().unwrap();
        match self.rights.get_mut(&page) {
            Some(right) => {
                self.longest = self.longest.max(right.readers.len() + 1);
                right::make_ready(right, readers);
                false
            }
            None => {
                self.longest = self.longest.max(1);
                insert(&mut self.rights, page, version, readers);
                true
            }
        }
    }

    // Reads under a ready right.
    fn put_reader(&mut self, page: PageNo, tx: TxId)
        requires { is_ready self.old page ≡ true }
        ensures rights { self.new.rights ≡ add_reader self.old.rights page tx }
        ensures there { IsSome (right_on self.new.rights page) }
        ensures ready { is_ready self.new page ≡ false }
        ensures others { (q : ℕ) → ¬ (q ≡ page) → is_ready self.new q ≡ is_ready self.old q }
        ensures spare { self.new.spare ≡ self.old.spare }
    {
        match self.rights.get_mut(&page) {
            Some(right) => {
                right::put_reader(right, tx);
                return;
            }
            None => unreachable!(),
        }
    }

    // Whether the page's right is there and ready.
    fn ready(&self, page: PageNo) -> bool
        ensures { result ≡ is_ready self.now page }
    {
        match self.rights.get(&page) {
            Some(right) => right.ready,
            None => false,
        }
    }
}

// The pages and versions of the rights.
fn pairs(
    rights: &IndexMap<PageNo, ReadRight>,
    alloc: Global,
) -> Result<Vec<(PageNo, Version)>, AllocError>
    ensures { IfOk result (λ v. v.items ≡ map (λ e. (e.0, e.1.version)) rights.now.entries) }
{
    rights
        .iter()
        .map(|(page, right)| (*page, right.version))
        .collect(alloc)
}

// Puts a new right last.
fn insert(
    rights: &mut IndexMap<PageNo, ReadRight>,
    page: PageNo,
    version: Version,
    readers: Vec<TxId>,
)
    requires absent { lookup (nat_eq page) rights.old.entries ≡ None }
    requires room { 0 < spare rights.old }
    ensures entries { rights.new.entries ≡ rights.old.entries ++ (page, record { version = version; readers = readers; ready = true }) ∷ [] }
    ensures spare { spare rights.old ≤ spare rights.new + 1 }
{
    let right = ReadRight {
        version,
        readers,
        ready: true,
    };
    match rights.insert(page, right) {
        Ok(None) => {}
        Ok(Some(_old)) => unreachable!(),
        Err(_back) => unreachable!(),
    }
}

// Empty lists with this room.
fn stock_of(alloc: Global, count: usize, room: usize) -> Result<Vec<Vec<TxId>>, AllocError>
    ensures count { IfOk result (λ v. length v.items ≡ count) }
    ensures empty { IfOk result (λ v. All (λ w. length w.items ≡ 0) v.items) }
    ensures wide { IfOk result (λ v. All (λ w. room ≤ vec_capacity w) v.items) }
{
    let mut stock = Vec::with_capacity(alloc, count)?;
    for _made in 0..count {
        stock.push(Vec::with_capacity(alloc, room)?)?;
    }
    Ok(stock)
}
