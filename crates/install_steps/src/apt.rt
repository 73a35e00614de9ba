ghost use Rattle.std.specs.Prelude.{◌≡◌, ◌≤◌, ◌<◌, ◌==◌, ◌&&◌, true, length, is_some};
ghost use Rattle.run_rules.specs.Views.{owner_of};
ghost use Rattle.node_parts.specs.State.{AreParts};
ghost use Rattle.install_steps.specs.Views.{AreAptFrom, IsUnbegun, ends_with_table, stands_after};

use authority_map::View;
use install_plans::{PartitionPlan, TableAfter};
use node_parts::Parts;
use pcl_base::NodeNo;

/// Whether no transaction was begun at a node, as it is where the node is in no view.
pub(crate) fn is_unbegun(parts: &Parts) -> bool
    ensures { result ≡ true → IsUnbegun parts.now.home.txs }
{
    let txs = parts.home.txs();
    txs.count() == 0 && txs.last() == 0
}

/// Whether plans from a place on are those of the partitions from this number on, and each leaves a table
/// exactly where the node owns the partition in the view.
pub(crate) fn are_apt(
    parts: &Parts,
    view: &View,
    plans: &[(NodeNo, PartitionPlan)],
    first: u32,
) -> bool
    requires parts { AreParts parts.now }
    requires nodes { length view.now.live ≡ parts.now.home.config.nodes }
    ensures { result ≡ true → AreAptFrom parts.now view.now first plans.now }
{
    match plans.split_first() {
        None => true,
        Some((plan, rest)) => {
            if first >= parts.home.config().nodes() {
                return false;
            }
            if plan.0 as u32 != first {
                return false;
            }
            if is_apt(parts, view, plan.0, &plan.1) {
                return are_apt(parts, view, rest, first + 1);
            }
            false
        }
    }
}

/// Whether the plan of a partition leaves a table exactly where the node owns the partition in the view.
fn is_apt(parts: &Parts, view: &View, q: NodeNo, plan: &PartitionPlan) -> bool
    requires parts { AreParts parts.now }
    requires nodes { length view.now.live ≡ parts.now.home.config.nodes }
    requires q { q < parts.now.home.config.nodes }
    ensures { result ≡ true → ends_with_table parts.now q plan.now ≡ (owner_of view.now q == parts.now.me) }
{
    let stands = stands_after(&plan.table, parts.tables.at(q).is_some());
    let owns = view.owner(q) == parts.me;
    stands == owns
}

/// Whether there is a table after a plan, where there was one or not.
pub(crate) fn stands_after(after: &TableAfter, before: bool) -> bool
    ensures { result ≡ stands_after after.now before }
{
    match after {
        TableAfter::AsBefore => before,
        TableAfter::Is(_) => true,
        TableAfter::Gone => false,
    }
}
