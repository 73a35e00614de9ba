ghost use Rattle.std.specs.Prelude.{◌≡◌, [], false, None};

use crate::due::Due;
use crate::planner::Planner;
use lock_table::Table;
use partition_redo::Planned;
use pcl_base::{NodeNo, PageNo, Report};
use std::marker::Model;

/// What becomes of what the home has of a partition.
#[derive(Clone, Copy, Debug, PartialEq, Eq)]
pub enum Turnover {
    /// It stays.
    Stays,
    /// The node gets the partition: its locks become own ones, its rights are spent.
    Taken,
    /// The node loses the partition: its locks become registered ones, its copies clean.
    Left,
}

/// The table with which a partition ends.
#[derive(Drop)]
pub enum TableAfter {
    /// The one before, or none as before.
    AsBefore,
    /// This one.
    Is(Table),
    /// None.
    Gone,
}

/// What an install, or a report that arrives, does with a partition.
#[derive(Drop)]
pub struct PartitionPlan {
    /// What becomes of what the home has of it.
    pub turnover: Turnover,
    /// The pages that are written, where there are any to redo.
    pub redo: Option<Planned>,
    /// The table with which it ends.
    pub table: TableAfter,
    /// Whether it begins to be served.
    pub begins: bool,
    /// The decisions that are carried out, in their order.
    pub decisions: Vec<Due>,
    /// The report that is sent, and its receiver.
    pub report: Option<(NodeNo, Report)>,
}

/// A page that was read with another number than it must have. Contracts see the one of the rules.
#[derive(Clone, Copy, Debug)]
pub struct Differing {
    /// The page.
    pub page: PageNo,
    /// The number that should stand there.
    pub expected: u64,
    /// The number that does.
    pub found: u64,
}

impl Model for Differing {
    ghost use Rattle.install_laws.specs.InstallPlans.{Differing as Planned};

    ghost Value = { Planned };

    ghost view = { λ d. record { page = d.page; expected = d.expected; found = d.found } };

    ghost inverse = { λ v. record { page = v.page; expected = v.expected; found = v.found } };
}

/// What an install does with the partitions.
#[derive(Drop)]
pub struct InstallPlan {
    /// The plans of the partitions, rising, each with its partition: of all of them, or of those
    /// before the first of which a page differs.
    pub plans: Vec<(NodeNo, PartitionPlan)>,
    /// That page, where there is one.
    pub differs: Option<Differing>,
}

/// A plan by which nothing is redone or decided.
pub(crate) fn plain(
    by: &Planner,
    turnover: Turnover,
    table: TableAfter,
    report: Option<(NodeNo, Report)>,
) -> PartitionPlan
    ensures parts { result ≡ record { turnover = turnover; redo = None; table = table; begins = false; decisions = result.decisions; report = report } }
    ensures decisions { result.decisions.items ≡ [] }
{
    PartitionPlan {
        turnover,
        redo: None,
        table,
        begins: false,
        decisions: Vec::new(by.alloc),
        report,
    }
}

/// The plan of a partition that stays as it is.
pub(crate) fn untouched(by: &Planner) -> PartitionPlan
    ensures parts { result ≡ record { turnover = Turnover.Stays; redo = None; table = TableAfter.AsBefore; begins = false; decisions = result.decisions; report = None } }
    ensures decisions { result.decisions.items ≡ [] }
{
    plain(by, Turnover::Stays, TableAfter::AsBefore, None)
}
