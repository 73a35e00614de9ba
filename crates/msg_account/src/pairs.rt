ghost use Rattle.std.specs.Prelude.{◌≡◌, ◌++◌, ◌∷◌, [], ◌==◌, ◌&&◌, not, OnOk, map};
ghost use Rattle.std.specs.List.{filter, list_any};
ghost use Rattle.run_rules.specs.Words.{same_tx};
ghost use Rattle.run_rules.specs.Ledger.{is_of};
ghost use Rattle.run_rules.specs.Causes.{is_of_life, lock_of, of_node};

use crate::seen::Seen;
use pcl_base::{NoMemory, NodeNo, PageNo, ReportLock, TxId};
use std::alloc::Global;
use std::marker::Model;

/// A transaction and a page.
#[derive(Clone, Copy, Debug)]
pub(crate) struct Pair {
    tx: TxId,
    page: PageNo,
}

impl Model for Pair {
    ghost use Rattle.run_rules.specs.Ledger.{Of as of_page};

    ghost Value = { of_page };

    ghost view = { λ x. record { tx = x.tx; page = x.page } };

    ghost inverse = { λ v. record { tx = v.tx; page = v.page } };
}

impl Pair {
    pub(crate) fn page(&self) -> PageNo
        ensures { result ≡ self.now.page }
    {
        self.page
    }

    /// Whether this is of a transaction and a page.
    fn is(&self, tx: TxId, page: PageNo) -> bool
        ensures { result ≡ is_of tx page self.now }
    {
        self.tx == tx && self.page == page
    }

    /// Whether this is of a transaction.
    pub(crate) fn is_of_tx(&self, tx: TxId) -> bool
        ensures { result ≡ same_tx self.now.tx tx }
    {
        self.tx == tx
    }
}

/// Transactions with pages, in the order in which they came.
#[derive(Debug, Drop)]
pub(crate) struct Pairs {
    items: Vec<Pair>,
}

impl Model for Pairs {
    ghost use Rattle.std.specs.Prelude.{List};
    ghost use Rattle.run_rules.specs.Ledger.{Of as of_page};

    ghost Value = { List of_page };

    ghost view = { λ p. p.items.items };
}

impl Pairs {
    pub(crate) fn new(alloc: Global) -> Pairs
        ensures { result ≡ [] }
    {
        Pairs {
            items: Vec::new(alloc),
        }
    }

    /// The pairs in order.
    pub(crate) fn as_slice(&self) -> &[Pair]
        ensures { result.now ≡ self.now }
    {
        self.items.as_slice()
    }

    /// Puts one last.
    pub(crate) fn push(&mut self, tx: TxId, page: PageNo) -> Result<(), NoMemory>
        ensures { OnOk result (self.new ≡ self.old ++ record { tx = tx; page = page } ∷ []) }
    {
        Ok(self.items.push(Pair { tx, page })?)
    }

    /// Puts those locks of a report last whose transaction is of a node.
    pub(crate) fn push_locks_of(
        &mut self,
        locks: &[ReportLock],
        node: NodeNo,
    ) -> Result<(), NoMemory>
        ensures { OnOk result (self.new ≡ self.old ++ map lock_of (filter (λ x. x.tx.node == node) locks.now)) }
    {
        for lock in locks {
            if lock.tx.node == node {
                self.push(lock.tx, lock.page)?;
            }
        }
        Ok(())
    }

    /// Puts those readers of a page last that are of a node.
    pub(crate) fn push_readers_of(
        &mut self,
        page: PageNo,
        readers: &[TxId],
        node: NodeNo,
    ) -> Result<(), NoMemory>
        ensures { OnOk result (self.new ≡ self.old ++ of_node node page readers.now) }
    {
        for reader in readers {
            if reader.node == node {
                self.push(*reader, page)?;
            }
        }
        Ok(())
    }

    /// Whether a transaction and a page are there.
    pub(crate) fn has(&self, tx: TxId, page: PageNo) -> bool
        ensures { result ≡ list_any (is_of tx page) self.now }
    {
        self.items.iter().any(|pair| pair.is(tx, page))
    }

    /// Whether a transaction of a node, of its present life in a view, is there with a page.
    pub(crate) fn has_living(&self, view: &Seen, node: NodeNo, page: PageNo) -> bool
        ensures { result ≡ list_any (λ x. (x.tx.node == node && x.page == page) && is_of_life view.now x.tx) self.now }
    {
        self.items.iter().any(|pair| (pair.tx.node == node && pair.page == page)
            && view.is_of_life(pair.tx))
    }

    /// Takes a transaction and a page out.
    pub(crate) fn drop_pair(&mut self, tx: TxId, page: PageNo)
        ensures { self.new ≡ filter (λ x. not (is_of tx page x)) self.old }
    {
        self.items.retain(|pair| !pair.is(tx, page));
    }

    /// Takes a transaction out.
    pub(crate) fn drop_tx(&mut self, tx: TxId)
        ensures { self.new ≡ filter (λ x. not (same_tx x.tx tx)) self.old }
    {
        self.items.retain(|pair| !pair.is_of_tx(tx));
    }

    /// Takes a node's transactions out.
    pub(crate) fn drop_node(&mut self, node: NodeNo)
        ensures { self.new ≡ filter (λ x. not (x.tx.node == node)) self.old }
    {
        self.items.retain(|pair| pair.tx.node != node);
    }
}
