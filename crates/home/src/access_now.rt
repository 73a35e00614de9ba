ghost use Rattle.std.specs.Prelude.{◌≡◌, ◌+◌, ◌≤◌, ◌<◌, None, Bool, true, false, is_some, IfOk, OnOk, OnErr};
ghost use Rattle.node_rules.specs.AccessRule.{access, is_held, is_allowed, under_right, Now as now};
ghost use Rattle.node_rules.specs.OpenTxs.{is_open};
ghost use Rattle.node_rules.specs.Shelf.{right_on};
ghost use Rattle.read_right.specs.ShelfView.{ready_in};
ghost use Rattle.home_laws.specs.Homes.{IsHome};
ghost use Rattle.home_laws.specs.Refused.{access_refusal};
ghost use Rattle.home.specs.Asked.{asked};
ghost use Rattle.home.specs.Device.{work_on};
ghost use Rattle.home.specs.Parts.{IsPrepared};

use crate::access::Access;
use crate::parts::Parts;
use pcl_base::{Held, Kind, Mode, NoMemory, PageNo, Reply, TxId};

/// An access that is done at once.
impl Parts {
    /// An access of a page that the transaction holds as it has to be held.
    pub(crate) fn do_held(&mut self, a: &Access) -> Result<Reply, NoMemory>
        requires home { IsHome self.old.home }
        requires prepared { IsPrepared self.old }
        requires none { access_refusal (asked a.now) self.old.home ≡ None }
        requires held { is_held (asked a.now) self.old.home ≡ true }
        ensures home { OnOk result ((owned : Bool) → self.new.home ≡ (access (asked a.now) owned (work_on self.old.home)).work.home) }
        ensures reply { IfOk result (λ r. (owned : Bool) → (access (asked a.now) owned (work_on self.old.home)).next ≡ now r) }
        ensures err { OnErr result (self.new.home ≡ self.old.home) }
        ensures prepared { IsPrepared self.new }
    {
        let size = self.config.size() as usize;
        match &a.write {
            None => {
                let reply = Vec::with_capacity(self.alloc, size)?;
                Ok(self.perform_read(a.tx, a.page, reply))
            }
            Some((place, bytes)) => {
                self.reserve_grant()?;
                self.perform_write(a.tx, a.page, *place, bytes.as_slice())
            }
        }
    }

    /// A read under the right of the node, which has the page's right and a copy of its version.
    pub(crate) fn do_right(&mut self, a: &Access, owned: bool) -> Result<Reply, NoMemory>
        requires home { IsHome self.old.home }
        requires prepared { IsPrepared self.old }
        requires none { access_refusal (asked a.now) self.old.home ≡ None }
        requires held { is_held (asked a.now) self.old.home ≡ false }
        requires allowed { is_allowed (asked a.now) owned self.old.home ≡ true }
        ensures home { OnOk result (self.new.home ≡ (access (asked a.now) owned (work_on self.old.home)).work.home) }
        ensures reply { IfOk result (λ r. (access (asked a.now) owned (work_on self.old.home)).next ≡ now r) }
        ensures err { OnErr result (self.new.home ≡ self.old.home) }
        ensures prepared { IsPrepared self.new }
    {
        let reply = Vec::with_capacity(self.alloc, self.config.size() as usize)?;
        self.reserve_grant()?;
        self.read_under_right(a.tx, a.page)?;
        self.pin(a.page);
        Ok(self.perform_read(a.tx, a.page, reply))
    }

    /// The transaction reads under the page's right from now on.
    fn read_under_right(&mut self, tx: TxId, page: PageNo) -> Result<(), NoMemory>
        requires open { is_open self.old.home.txs tx ≡ true }
        requires right { is_some (right_on self.old.home.shelf page) ≡ true }
        requires room { 0 < self.old.rights }
        ensures ok { OnOk result (self.new ≡ record self.old { home = under_right tx page self.old.home; marks = self.new.marks; rights = self.new.rights }) }
        ensures err { OnErr result (self.new ≡ record self.old { marks = self.new.marks; rights = self.new.rights }) }
        ensures room { self.old.rights ≤ self.new.rights + 1 }
    {
        self.make_ready(page);
        let lock = Held {
            page,
            mode: Mode::Shared,
            kind: Kind::Right,
        };
        self.txs.add(tx, lock)?;
        match self.shelf.add_reader(page, tx) {
            Ok(()) => Ok(()),
            Err(_) => unreachable!(),
        }
    }

    /// The next reader under the page's right, which is there, needs no memory.
    #[tactic(auto, unfolding(node_rules::specs::Shelf::accept))]
    fn make_ready(&mut self, page: PageNo)
        requires right { is_some (right_on self.old.home.shelf page) ≡ true }
        requires room { 0 < self.old.rights }
        ensures same { self.new ≡ record self.old { marks = self.new.marks; rights = self.new.rights } }
        ensures ready { ready_in self.new.marks page ≡ true }
        ensures room { self.old.rights ≤ self.new.rights + 1 }
    {
        match self.shelf.accept(page, 0) {
            Ok(_new) => return,
            Err(_) => unreachable!(),
        }
    }
}
