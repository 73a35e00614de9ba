use pcl_base::{Items, NodeNo, PageNo, Version};

/// An entry in a log: whose log it is, where it stands there, and whether the whole page does.
#[derive(Clone, Copy, Debug, PartialEq, Eq)]
pub(crate) struct Site {
    pub(crate) node: NodeNo,
    pub(crate) place: u64,
    pub(crate) whole: bool,
}

/// The newest whole page of a listed page: its version, and where it stands in a log. The stored
/// page stands in none.
#[derive(Clone, Copy, Debug, PartialEq, Eq)]
pub(crate) struct Base {
    pub(crate) version: Version,
    pub(crate) image: Option<Site>,
}

/// A page in a plan: the version that redo gives, and the entries that lead to it from the stored
/// page, in their order.
#[derive(Debug, Drop)]
pub(crate) struct Chain {
    pub(crate) page: PageNo,
    pub(crate) version: Version,
    pub(crate) sites: Items<Site>,
}
