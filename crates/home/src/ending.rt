use pcl_base::{Change, Kind, PageNo};
use std::marker::Model;

/// What the owner of a page is told at the end of a transaction.
#[derive(Debug, Drop, PartialEq)]
pub struct Ending {
    /// The page.
    pub page: PageNo,
    /// By what it was held. A page that was waited for counts as registered, unless it was held by
    /// an own lock.
    pub kind: Kind,
    /// The page as a commit left it, where it was written. Of a page that was held by an own lock it
    /// has no image, since the node itself keeps the page.
    pub change: Option<Change>,
}

impl Model for Ending {
    ghost use Rattle.node_rules.specs.EndRule.{Ending as PageEnd};

    ghost Value = { PageEnd };

    ghost view = { λ e. record { page = e.page; kind = e.kind; change = e.change } };

    ghost inverse = { λ v. record { page = v.page; kind = v.kind; change = v.change } };
}
