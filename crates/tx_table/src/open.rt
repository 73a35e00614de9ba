ghost use Rattle.std.specs.Prelude.{◌≡◌, ◌<◌, ◌≤◌, ◌+◌, ◌==◌, ◌∷◌, ◌++◌, [], length, slice_set, None, Some, true, position, is_some, IsOk, OnOk, OnErr};
ghost use Rattle.std.specs.Option.{option_copied};
ghost use Rattle.node_rules.specs.OpenTxs.{with_lock, lock_on, kind_on, waits_on};
ghost use Rattle.node_rules.specs.Words.{pick};
ghost use Rattle.tx_table.specs.Counts.{locks_in, waits_in};

use pcl_base::{Ended, Held, Items, Kind, NoMemory, PageNo, Pending};
use std::alloc::Global;
use std::marker::Model;

/// An open transaction.
#[derive(Debug, Drop)]
pub(crate) struct Open {
    serial: u32,
    /// The pages that it holds, in the order of first access. There is room for one more as long
    /// as an access waits.
    pages: Vec<Held>,
    waiting: Option<Pending>,
}

impl Model for Open {
    ghost use Rattle.std.specs.Prelude.{is_some, vec_len, vec_capacity};
    ghost use Rattle.tx_table.specs.Room.{IsReady};
    ghost use Rattle.node_rules.specs.OpenTxs.{OpenTx};

    ghost Value = { OpenTx };

    ghost view = { λ o. record { serial = o.serial; pages = o.pages.items; waiting = o.waiting } };

    ghost invariant = { λ o. IsReady (is_some o.waiting) (vec_len o.pages) (vec_capacity o.pages) };
}

impl Open {
    /// A transaction that holds nothing.
    pub(crate) fn new(alloc: Global, serial: u32) -> Open
        ensures { result ≡ record { serial = serial; pages = []; waiting = None } }
    {
        Open {
            serial,
            pages: Vec::new(alloc),
            waiting: None,
        }
    }

    /// Its pages, in the order of first access.
    pub(crate) fn pages(&self) -> &[Held]
        ensures { result.now ≡ self.now.pages }
    {
        self.pages.as_slice()
    }

    /// The access for which it waits.
    pub(crate) fn waiting(&self) -> Option<&Pending>
        ensures { option_copied result ≡ self.now.waiting }
    {
        self.waiting.as_ref()
    }

    /// The numbers of its locks and of its waiting accesses.
    pub(crate) fn sizes(&self) -> (usize, usize)
        ensures locks { result.0 ≡ locks_in self.now }
        ensures waits { result.1 ≡ waits_in self.now }
    {
        match self.waiting {
            None => (self.pages.len(), 0),
            Some(_) => (self.pages.len(), 1),
        }
    }

    /// Takes a lock, in the place of its lock on that page, else last. It ends a waiting access of
    /// that page. It wants no memory where the page is held or waited for. Locks and waiting
    /// accesses grow by at most `room`; more is want of memory.
    pub(crate) fn add(&mut self, lock: Held, room: usize) -> Result<(), NoMemory>
        ensures ok { OnOk result (self.new ≡ with_lock lock self.old) }
        ensures err { OnErr result (self.new ≡ self.old) }
        ensures serial { self.new.serial ≡ self.old.serial }
        ensures held { is_some (lock_on self.old.pages lock.page) ≡ true → IsOk result }
        ensures waits { waits_on self.old.waiting lock.page ≡ true → IsOk result }
        ensures size { OnOk result (locks_in self.new + waits_in self.new ≤ locks_in self.old + waits_in self.old + room) }
    {
        match place_of(self.pages.as_slice(), lock.page) {
            Some(place) => {
                self.replace(place, lock);
                Ok(())
            }
            None => self.add_last(lock, room),
        }
    }

    /// Puts a lock in the place of the one on its page.
    fn replace(&mut self, place: usize, lock: Held)
        requires { position (λ h. h.page == lock.page) self.old.pages ≡ Some place }
        ensures lock { self.new ≡ with_lock lock self.old }
        ensures locks { locks_in self.new ≡ locks_in self.old }
        ensures waits { waits_in self.new ≤ waits_in self.old }
    {
        self.put(place, lock);
        if waits_on(&self.waiting, lock.page) {
            self.stop_waiting();
        }
    }

    /// Puts a lock at a place.
    fn put(&mut self, place: usize, lock: Held)
        requires { place < length self.old.pages }
        ensures { self.new ≡ record self.old { pages = slice_set self.old.pages place lock } }
    {
        self.pages[place] = lock;
    }

    /// Waits no longer.
    fn stop_waiting(&mut self)
        ensures { self.new ≡ record self.old { waiting = None } }
    {
        self.waiting = None;
    }

    /// Puts a lock last, for which there is room while an access waits.
    fn put_last(&mut self, lock: Held)
        requires { is_some self.old.waiting ≡ true }
        ensures { self.new ≡ record self.old { pages = self.old.pages ++ lock ∷ []; waiting = None } }
    {
        self.pages.push(lock).unwrap();
        self.waiting = None;
    }

    /// Puts a lock last, and keeps room for one more.
    fn put_next(&mut self, lock: Held) -> Result<(), NoMemory>
        ensures ok { OnOk result (self.new ≡ record self.old { pages = self.old.pages ++ lock ∷ [] }) }
        ensures err { OnErr result (self.new ≡ self.old) }
    {
        self.pages.reserve(2)?;
        self.pages.push(lock).unwrap();
        Ok(())
    }

    /// Puts a lock on a page that isn't held last.
    fn add_last(&mut self, lock: Held, room: usize) -> Result<(), NoMemory>
        requires { position (λ h. h.page == lock.page) self.old.pages ≡ None }
        ensures ok { OnOk result (self.new ≡ with_lock lock self.old) }
        ensures err { OnErr result (self.new ≡ self.old) }
        ensures waits { waits_on self.old.waiting lock.page ≡ true → IsOk result }
        ensures size { OnOk result (locks_in self.new + waits_in self.new ≤ locks_in self.old + waits_in self.old + room) }
    {
        if waits_on(&self.waiting, lock.page) {
            self.put_last(lock);
            return Ok(());
        }
        if room == 0 {
            return Err(NoMemory);
        }
        self.put_next(lock)
    }

    /// Waits for an access, and takes the memory for the lock that will end it.
    pub(crate) fn wait(&mut self, access: Pending) -> Result<(), NoMemory>
        requires { self.old.waiting ≡ None }
        ensures ok { OnOk result (self.new ≡ record self.old { waiting = Some access }) }
        ensures err { OnErr result (self.new ≡ self.old) }
        ensures serial { self.new.serial ≡ self.old.serial }
    {
        self.pages.reserve(1)?;
        self.waiting = Some(access);
        Ok(())
    }

    /// Gives its lock on a page another kind.
    pub(crate) fn set_kind(&mut self, page: PageNo, kind: Kind)
        ensures kind { self.new ≡ record self.old { pages = kind_on self.old.pages page kind } }
        ensures locks { locks_in self.new ≡ locks_in self.old }
    {
        let pages = &mut self.pages;
        set_kinds(pages.as_mut_slice(), page, kind);
    }

    /// What it had, at its end.
    pub(crate) fn ended(self) -> Ended
        ensures pages { result.pages ≡ self.pages }
        ensures waiting { result.waiting ≡ self.waiting }
    {
        let Open {
            serial: _serial,
            pages,
            waiting,
        } = self;
        Ended {
            pages: Items::of(pages),
            waiting,
        }
    }
}

/// The place of the lock on a page.
fn place_of(locks: &[Held], page: PageNo) -> Option<usize>
    ensures { result ≡ position (λ h. h.page == page) locks.now }
{
    locks.iter().position(|lock| lock.page == page)
}

/// Whether an access, if there is one, is of a page.
fn waits_on(waiting: &Option<Pending>, page: PageNo) -> bool
    ensures { result ≡ waits_on waiting.now page }
{
    match waiting {
        None => false,
        Some(access) => access.page == page,
    }
}

/// Gives the locks on a page another kind.
fn set_kinds(locks: &mut [Held], page: PageNo, kind: Kind)
    ensures kind { locks.new ≡ kind_on locks.old page kind }
    ensures len { length locks.new ≡ length locks.old }
{
    for lock in locks.iter_mut() {
        *lock = with_kind(*lock, page, kind);
    }
}

/// A lock, with another kind if it is on the page.
fn with_kind(lock: Held, page: PageNo, kind: Kind) -> Held
    ensures { result ≡ pick (lock.page == page) (record lock { kind = kind }) lock }
{
    if lock.page == page {
        return Held { kind, ..lock };
    }
    lock
}
