ghost use Rattle.std.specs.Prelude.{◌≡◌, ◌+◌, ◌≤◌, ◌<◌, ◌==◌, ◌&&◌, [], ◌∷◌, ◌++◌, None, not, IsOk, OnOk, OnErr};
ghost use Rattle.std.specs.List.{filter};
ghost use Rattle.node_rules.specs.Words.{same_tx};
ghost use Rattle.std.specs.Map.{lookup};
ghost use Rattle.indexmap.specs.IndexMap.{spare};
ghost use Rattle.node_rules.specs.NodeState.{cover, runs_at, put_runs};
ghost use Rattle.home.specs.Places.{same_key};

use crate::ending::Ending;
use crate::runs::{Run, put_run};
use indexmap::IndexMap;
use pcl_base::{NoMemory, NodeNo, PageNo, TxId};
use smallvec::SmallVec;
use std::alloc::Global;
use std::marker::Model;

/// A transaction and a page that it wrote.
#[derive(Clone, Copy, Debug, PartialEq, Eq, Hash)]
struct Key {
    node: NodeNo,
    born: u32,
    serial: u32,
    page: PageNo,
}

impl Key {
    ghost use Rattle.std.specs.Prelude.{◌≡◌};
    ghost use Rattle.home.specs.Places.{key_of};

    fn of(tx: TxId, page: PageNo) -> Key
        ensures { result ≡ key_of tx page }
    {
        Key {
            node: tx.node,
            born: tx.born,
            serial: tx.serial,
            page,
        }
    }
}

/// The places of pages that open transactions wrote. Contracts see them as a list by the first write
/// of a page, and for how many more pages there is room.
#[derive(Drop)]
pub(crate) struct WrittenPlaces {
    alloc: Global,
    pages: IndexMap<Key, SmallVec<Run, 2>>,
}

impl Model for WrittenPlaces {
    ghost use Rattle.std.specs.List.{AllByRecursion};
    ghost use Rattle.indexmap.specs.IndexMap.{spare as spare_of};
    ghost use Rattle.home.specs.Places.{PlacesView, rows_of, HasRun};

    ghost Value = { PlacesView };

    ghost view = { λ w. record { places = rows_of w.pages.entries; spare = spare_of w.pages } };

    ghost invariant = { λ w. AllByRecursion HasRun w.pages.entries };
}

impl WrittenPlaces {
    /// No place was written. It takes no memory.
    pub(crate) fn open(alloc: Global) -> WrittenPlaces
        ensures { result.places ≡ [] }
    {
        WrittenPlaces {
            alloc,
            pages: IndexMap::new(alloc),
        }
    }

    /// Makes the room at least that for `pages` more pages.
    pub(crate) fn reserve(&mut self, pages: usize) -> Result<(), NoMemory>
        ensures places { self.new.places ≡ self.old.places }
        ensures room { OnOk result (pages ≤ self.new.spare) }
        ensures kept { self.old.spare ≤ self.new.spare }
    {
        self.pages.reserve(pages)?;
        Ok(())
    }

    /// The places of a page that a transaction wrote, as runs that rise and don't touch; none where it
    /// wrote none.
    pub(crate) fn runs(&self, tx: TxId, page: PageNo) -> &[Run]
        ensures { result.now ≡ runs_at self.now.places tx page }
    {
        match self.pages.get(&Key::of(tx, page)) {
            None => &[],
            Some(runs) => runs.as_slice(),
        }
    }

    /// Notes that a transaction wrote the places of a page from `from` up to the one before `to`. The
    /// first of a page takes no memory where there is room for a page.
    pub(crate) fn note(
        &mut self,
        tx: TxId,
        page: PageNo,
        from: u32,
        to: u32,
    ) -> Result<(), NoMemory>
        ensures ok { OnOk result (self.new.places ≡ put_runs self.old.places tx page (cover (runs_at self.old.places tx page) from to)) }
        ensures err { OnErr result (self.new.places ≡ self.old.places) }
        ensures first { runs_at self.old.places tx page ≡ [] → 0 < self.old.spare → IsOk result }
        ensures room { self.old.spare ≤ self.new.spare + 1 }
    {
        match self.pages.get_mut(&Key::of(tx, page)) {
            Some(runs) => {
                runs.reserve(1)?;
                put_run(runs, from, to);
                Ok(())
            }
            None => self.add(tx, page, Run { from, to }),
        }
    }

    /// Notes the first run of a page.
    fn add(&mut self, tx: TxId, page: PageNo, run: Run) -> Result<(), NoMemory>
        requires { runs_at self.old.places tx page ≡ [] }
        ensures ok { OnOk result (self.new.places ≡ put_runs self.old.places tx page (run ∷ [])) }
        ensures err { OnErr result (self.new.places ≡ self.old.places) }
        ensures first { 0 < self.old.spare → IsOk result }
        ensures room { self.old.spare ≤ self.new.spare + 1 }
    {
        self.pages.reserve(1)?;
        self.put(tx, page, run);
        Ok(())
    }

    /// Notes the first run of a page, for which there is room.
    fn put(&mut self, tx: TxId, page: PageNo, run: Run)
        requires none { runs_at self.old.places tx page ≡ [] }
        requires room { 0 < self.old.spare }
        ensures places { self.new.places ≡ put_runs self.old.places tx page (run ∷ []) }
        ensures room { self.old.spare ≤ self.new.spare + 1 }
    {
        let mut runs = SmallVec::new(self.alloc);
        runs.push_reserved(run);
        insert(&mut self.pages, Key::of(tx, page), runs);
    }

    /// Forgets the places of a page that a transaction wrote. Takes no memory.
    pub(crate) fn remove(&mut self, tx: TxId, page: PageNo)
        ensures places { self.new.places ≡ filter (λ w. not (same_tx w.tx tx && w.page == page)) self.old.places }
        ensures room { self.old.spare ≤ self.new.spare }
    {
        match self.pages.shift_remove(&Key::of(tx, page)) {
            Some(_runs) => return,
            None => return,
        }
    }
}

impl WrittenPlaces {
    ghost use Rattle.std.specs.Prelude.{ℕ, false, map};
    ghost use Rattle.home.specs.Ends.{listed};

    /// Forgets the places that a transaction wrote, all of them in the pages at which its end is told.
    /// Takes no memory.
    pub(crate) fn forget(&mut self, tx: TxId, ends: &[Ending])
        requires { (p : ℕ) → listed (map (λ e. e.page) ends.now) p ≡ false → runs_at self.old.places tx p ≡ [] }
        ensures places { self.new.places ≡ filter (λ w. not (same_tx w.tx tx)) self.old.places }
        ensures room { self.old.spare ≤ self.new.spare }
    {
        let _ = &self.alloc;
        for end in ends {
            self.remove(tx, end.page);
        }
    }
}

/// Puts a new key last.
fn insert(pages: &mut IndexMap<Key, SmallVec<Run, 2>>, key: Key, runs: SmallVec<Run, 2>)
    requires absent { lookup (same_key key) pages.old.entries ≡ None }
    requires room { 0 < spare pages.old }
    ensures entries { pages.new.entries ≡ pages.old.entries ++ (key, runs) ∷ [] }
    ensures spare { spare pages.old ≤ spare pages.new + 1 }
{
    match pages.insert(key, runs) {
        Ok(None) => {}
        Ok(Some(_old)) => unreachable!(),
        Err(_back) => unreachable!(),
    }
}
