ghost use Rattle.std.specs.Prelude.{◌≡◌, true, false, ◌++◌, ◌∷◌, [], not, OnOk, map};
ghost use Rattle.std.specs.List.{filter, list_any, position};
ghost use Rattle.run_rules.specs.Ledger.{is_new, is_out};
ghost use Rattle.run_rules.specs.Taking.{out_of};
ghost use Rattle.run_rules.specs.Causes.{change_first, may_revoke};

use crate::seen::Seen;
use pcl_base::{Config, NoMemory, NodeNo, PageNo, ReportRight};
use std::alloc::Global;
use std::marker::Model;

/// A right to read a page that a node has, and whether it was asked back.
#[derive(Clone, Copy, Debug)]
pub(crate) struct Right {
    node: NodeNo,
    page: PageNo,
    revoked: bool,
}

impl Model for Right {
    ghost use Rattle.run_rules.specs.Ledger.{Out as out};

    ghost Value = { out };

    ghost view = { λ r. record { node = r.node; page = r.page; revoked = r.revoked } };

    ghost inverse = { λ v. record { node = v.node; page = v.page; revoked = v.revoked } };
}

impl Right {
    /// Whether this is of a node and a page.
    fn is(&self, node: NodeNo, page: PageNo) -> bool
        ensures { result ≡ is_out node page self.now }
    {
        self.node == node && self.page == page
    }

    /// Whether this is of a node and a page, and wasn't asked back yet.
    fn may_be_revoked(&self, node: NodeNo, page: PageNo) -> bool
        ensures { result ≡ may_revoke node page self.now }
    {
        self.is(node, page) && !self.revoked
    }

    /// The same right once it is asked back.
    fn revoked(&self) -> Right
        ensures { result ≡ record self.now { revoked = true } }
    {
        Right {
            node: self.node,
            page: self.page,
            revoked: true,
        }
    }
}

/// Rights in the order in which they were given.
#[derive(Debug, Drop)]
pub(crate) struct Rights {
    items: Vec<Right>,
}

impl Model for Rights {
    ghost use Rattle.std.specs.Prelude.{List};
    ghost use Rattle.run_rules.specs.Ledger.{Out as out};

    ghost Value = { List out };

    ghost view = { λ r. r.items.items };
}

impl Rights {
    pub(crate) fn new(alloc: Global) -> Rights
        ensures { result ≡ [] }
    {
        Rights {
            items: Vec::new(alloc),
        }
    }

    /// Puts a right last that wasn't asked back.
    pub(crate) fn push(&mut self, node: NodeNo, page: PageNo) -> Result<(), NoMemory>
        ensures { OnOk result (self.new ≡ self.old ++ record { node = node; page = page; revoked = false } ∷ []) }
    {
        Ok(
            self.items.push(Right {
                node,
                page,
                revoked: false,
            })?,
        )
    }

    /// Puts the rights of a node's report last.
    pub(crate) fn push_rights(
        &mut self,
        node: NodeNo,
        rights: &[ReportRight],
    ) -> Result<(), NoMemory>
        ensures { OnOk result (self.new ≡ self.old ++ map (out_of node) rights.now) }
    {
        for right in rights {
            self.push(node, right.page)?;
        }
        Ok(())
    }

    /// Takes out all rights of a node on a page.
    pub(crate) fn drop_right(&mut self, node: NodeNo, page: PageNo)
        ensures { self.new ≡ filter (λ r. not (is_out node page r)) self.old }
    {
        self.items.retain(|right| !right.is(node, page));
    }

    /// Takes out all rights on pages whose partition a node owns for the first time in a view.
    pub(crate) fn drop_new(&mut self, config: &Config, view: &Seen, node: NodeNo)
        ensures { self.new ≡ filter (λ r. not (is_new view.now config.now node r.page)) self.old }
    {
        self.items
            .retain(|right| !view.is_new(config, node, right.page));
    }

    /// Asks the first right of a node on a page back that wasn't asked back yet; false where there
    /// is none.
    pub(crate) fn revoke(&mut self, node: NodeNo, page: PageNo) -> bool
        ensures found { result ≡ list_any (may_revoke node page) self.old }
        ensures changed { result ≡ true → self.new ≡ change_first (may_revoke node page) (λ r. record r { revoked = true }) self.old }
    {
        match self.place_of(node, page) {
            Some(i) => {
                let revoked = self.items[i].revoked();
                self.items[i] = revoked;
                true
            }
            None => false,
        }
    }

    fn place_of(&self, node: NodeNo, page: PageNo) -> Option<usize>
        ensures { result ≡ position (may_revoke node page) self.now }
    {
        self.items
            .iter()
            .position(|right| right.may_be_revoked(node, page))
    }
}
