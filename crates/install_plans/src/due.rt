use pcl_base::{Decision, PageNo, Version};
use std::marker::Model;

/// A decision about a page, with the page's version. Contracts see the one of the rules.
#[derive(Clone, Copy, Debug)]
pub struct Due {
    /// The page.
    pub page: PageNo,
    /// Its version.
    pub version: Version,
    /// The decision.
    pub decision: Decision,
}

impl Model for Due {
    ghost use Rattle.install_laws.specs.InstallPlans.{Due as Planned};

    ghost Value = { Planned };

    ghost view = { λ d. record { page = d.page; version = d.version; decision = d.decision } };

    ghost inverse = { λ v. record { page = v.page; version = v.version; decision = v.decision } };
}
