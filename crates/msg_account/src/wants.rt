ghost use Rattle.std.specs.Prelude.{◌≡◌, ◌++◌, ◌∷◌, [], ◌==◌, ◌&&◌, not, OnOk, map};
ghost use Rattle.std.specs.List.{filter, list_any, position};
ghost use Rattle.run_rules.specs.Ledger.{is_exclusive, is_new, is_want, wants_page, same_mode};
ghost use Rattle.run_rules.specs.Taking.{want_of};
ghost use Rattle.run_rules.specs.Causes.{is_of_life, without_first};

use crate::seen::Seen;
use pcl_base::{Config, Mode, NoMemory, NodeNo, PageNo, ReportWait, TxId};
use std::alloc::Global;
use std::marker::Model;

/// A transaction and a page, with the mode that it wants.
#[derive(Clone, Copy, Debug)]
pub(crate) struct Want {
    tx: TxId,
    page: PageNo,
    mode: Mode,
}

impl Model for Want {
    ghost use Rattle.run_rules.specs.Ledger.{Want as want};

    ghost Value = { want };

    ghost view = { λ w. record { tx = w.tx; page = w.page; mode = w.mode } };

    ghost inverse = { λ v. record { tx = v.tx; page = v.page; mode = v.mode } };
}

impl Want {
    pub(crate) fn new(tx: TxId, page: PageNo, mode: Mode) -> Want
        ensures { result ≡ record { tx = tx; page = page; mode = mode } }
    {
        Want { tx, page, mode }
    }

    pub(crate) fn tx(&self) -> TxId
        ensures { result ≡ self.now.tx }
    {
        self.tx
    }

    pub(crate) fn page(&self) -> PageNo
        ensures { result ≡ self.now.page }
    {
        self.page
    }

    pub(crate) fn mode(&self) -> Mode
        ensures { result ≡ self.now.mode }
    {
        self.mode
    }

    /// Whether this is of a transaction and a page, in any mode.
    fn is_of_page(&self, tx: TxId, page: PageNo) -> bool
        ensures { result ≡ wants_page tx page self.now }
    {
        self.tx == tx && self.page == page
    }

    /// Whether this is of another node than this one, and wants to write a page.
    fn is_writer(&self, node: NodeNo, page: PageNo) -> bool
        ensures { result ≡ (not (self.now.tx.node == node) && (self.now.page == page && is_exclusive self.now.mode)) }
    {
        self.tx.node != node && (self.page == page && is_exclusive(self.mode))
    }

    /// Whether this is of a transaction, a page and a mode.
    fn is(&self, tx: TxId, page: PageNo, mode: Mode) -> bool
        ensures { result ≡ is_want tx page mode self.now }
    {
        self.is_of_page(tx, page) && is_same_mode(self.mode, mode)
    }
}

fn is_same_mode(one: Mode, other: Mode) -> bool
    ensures { result ≡ same_mode one other }
{
    match one {
        Mode::Shared => !is_exclusive(other),
        Mode::Exclusive => is_exclusive(other),
    }
}

fn is_exclusive(mode: Mode) -> bool
    ensures { result ≡ is_exclusive mode }
{
    match mode {
        Mode::Shared => false,
        Mode::Exclusive => true,
    }
}

/// Wants in the order in which they came.
#[derive(Debug, Drop)]
pub(crate) struct Wants {
    items: Vec<Want>,
}

impl Model for Wants {
    ghost use Rattle.std.specs.Prelude.{List};
    ghost use Rattle.run_rules.specs.Ledger.{Want as want};

    ghost Value = { List want };

    ghost view = { λ w. w.items.items };
}

impl Wants {
    pub(crate) fn new(alloc: Global) -> Wants
        ensures { result ≡ [] }
    {
        Wants {
            items: Vec::new(alloc),
        }
    }

    /// Puts one last.
    pub(crate) fn push(&mut self, want: Want) -> Result<(), NoMemory>
        ensures { OnOk result (self.new ≡ self.old ++ want ∷ []) }
    {
        Ok(self.items.push(want)?)
    }

    /// Puts the waiting items of a report last.
    pub(crate) fn push_waits(&mut self, waits: &[ReportWait]) -> Result<(), NoMemory>
        ensures { OnOk result (self.new ≡ self.old ++ map want_of waits.now) }
    {
        for wait in waits {
            self.push(Want::new(wait.tx, wait.page, wait.mode))?;
        }
        Ok(())
    }

    /// Puts those waiting items of a report last whose transaction is of a node.
    pub(crate) fn push_waits_of(
        &mut self,
        waits: &[ReportWait],
        node: NodeNo,
    ) -> Result<(), NoMemory>
        ensures { OnOk result (self.new ≡ self.old ++ map want_of (filter (λ w. w.tx.node == node) waits.now)) }
    {
        for wait in waits {
            if wait.tx.node == node {
                self.push(Want::new(wait.tx, wait.page, wait.mode))?;
            }
        }
        Ok(())
    }

    /// Whether one is of a transaction, a page and a mode.
    pub(crate) fn has(&self, tx: TxId, page: PageNo, mode: Mode) -> bool
        ensures { result ≡ list_any (is_want tx page mode) self.now }
    {
        self.items.iter().any(|want| want.is(tx, page, mode))
    }

    /// Whether one is of a transaction and a page, in any mode.
    pub(crate) fn has_page(&self, tx: TxId, page: PageNo) -> bool
        ensures { result ≡ list_any (wants_page tx page) self.now }
    {
        self.items.iter().any(|want| want.is_of_page(tx, page))
    }

    /// Takes out all that are of a transaction, a page and a mode.
    pub(crate) fn drop_all(&mut self, tx: TxId, page: PageNo, mode: Mode)
        ensures { self.new ≡ filter (λ w. not (is_want tx page mode w)) self.old }
    {
        self.items.retain(|want| !want.is(tx, page, mode));
    }

    /// Takes out all that are of a transaction and a page, in any mode.
    pub(crate) fn drop_page(&mut self, tx: TxId, page: PageNo)
        ensures { self.new ≡ filter (λ w. not (wants_page tx page w)) self.old }
    {
        self.items.retain(|want| !want.is_of_page(tx, page));
    }

    /// Takes out the first that is of a transaction, a page and a mode; false where there is none.
    pub(crate) fn take_first(&mut self, tx: TxId, page: PageNo, mode: Mode) -> bool
        ensures found { result ≡ list_any (is_want tx page mode) self.old }
        ensures left { self.new ≡ without_first (is_want tx page mode) self.old }
    {
        match self.place_of(tx, page, mode) {
            Some(i) => {
                let _gone = self.items.remove(i);
                true
            }
            None => false,
        }
    }

    /// Takes out all of pages whose partition a node owns for the first time in a view.
    pub(crate) fn drop_new(&mut self, config: &Config, view: &Seen, node: NodeNo)
        ensures { self.new ≡ filter (λ w. not (is_new view.now config.now node w.page)) self.old }
    {
        self.items
            .retain(|want| !view.is_new(config, node, want.page));
    }

    /// Whether one of another node than this, of its node's present life in a view, wants to write
    /// a page.
    pub(crate) fn has_writer(&self, view: &Seen, node: NodeNo, page: PageNo) -> bool
        ensures { result ≡ list_any (λ w. (not (w.tx.node == node) && (w.page == page && is_exclusive w.mode)) && is_of_life view.now w.tx) self.now }
    {
        self.items.iter().any(|want| want.is_writer(node, page) && view.is_of_life(want.tx))
    }

    fn place_of(&self, tx: TxId, page: PageNo, mode: Mode) -> Option<usize>
        ensures { result ≡ position (is_want tx page mode) self.now }
    {
        self.items.iter().position(|want| want.is(tx, page, mode))
    }
}
