ghost use Rattle.std.specs.Prelude.{◌≡◌, ◌≤◌, []};
ghost use Rattle.node_rules.specs.BufferRule.{has_slot, clean};
ghost use Rattle.node_rules.specs.Work.{with_pool};

use crate::home::Home;
use crate::parts::Parts;
use pcl_base::PageNo;
use tx_table::TxTable;

impl Home {
    /// The disk has the page's copy from now on, where there is one. It takes no memory and makes no
    /// call of the device.
    pub fn clean(&mut self, page: PageNo)
        ensures { self.new ≡ with_pool self.old (clean self.old.pool page) }
    {
        if self.parts.is_slotted(page) {
            self.parts.clean(page);
            return;
        }
    }

    /// The node is born in an epoch: it has no open transaction and gave no serial, and the names of
    /// its transactions have this epoch from now on. It takes no memory.
    pub fn be_born(&mut self, born: u32)
        requires none { self.old.txs.txs ≡ [] }
        requires first { self.old.txs.last ≡ 0 }
        requires later { 1 ≤ born }
        ensures { self.new ≡ record self.old { txs = record (self.old.txs) { born = born } } }
    {
        self.parts.be_born(born);
    }
}

impl Parts {
    /// Whether a page has a slot.
    fn is_slotted(&self, page: PageNo) -> bool
        ensures { result ≡ has_slot self.now.home.pool page }
    {
        self.pool.has_slot(page)
    }

    /// The names of the transactions have another birth; none was begun.
    fn be_born(&mut self, born: u32)
        requires none { self.old.home.txs.txs ≡ [] }
        requires first { self.old.home.txs.last ≡ 0 }
        requires node { self.old.node ≡ self.old.home.txs.node }
        ensures { self.new ≡ record self.old { home = record (self.old.home) { txs = record (self.old.home.txs) { born = born } } } }
    {
        self.txs = TxTable::open(self.alloc, self.me, born, 1);
    }
}
