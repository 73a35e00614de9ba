ghost use Rattle.std.specs.Prelude.{◌≡◌, ◌<◌, IfOk};
ghost use Rattle.node_rules.specs.NodeState.{table_of};
ghost use Rattle.node_rules.specs.OwnerRule.{version_of_change};
ghost use Rattle.authority.specs.Plans.{plan_request, plan_release, plan_return};
ghost use Rattle.page_owner.specs.Planned.{IsPlanFor};
ghost use Rattle.node_parts.specs.State.{AreParts, node_of};

use authority::{Outcome, on_release, on_request, on_return};
use node_parts::Parts;
use pcl_base::{Change, NoMemory, NodeNo, Release, Request, ReturnRight, Version, Waiter};

// What a node plans for a page when a message arrives for it; nothing where the node doesn't own the
// page. Nothing is changed.

/// The plan for a request. `NoMemory` where memory is refused.
pub fn plan_request(parts: &Parts, r: &Request) -> Result<Option<Outcome>, NoMemory>
    requires parts { AreParts parts.now }
    requires page { r.now.page < parts.now.home.config.pages }
    ensures { IfOk result (IsPlanFor (table_of (node_of parts.now) r.now.page) (λ t. plan_request t parts.now.me r.now.page (record { tx = r.now.tx; mode = r.now.mode; have = r.now.have }))) }
{
    let q = parts.home.config().partition(r.page);
    match parts.tables.at(q) {
        None => Ok(None),
        Some(table) => {
            let waiter = Waiter {
                tx: r.tx,
                mode: r.mode,
                have: r.have,
            };
            Ok(Some(on_request(parts.alloc, table, parts.me, r.page, waiter)?))
        }
    }
}

/// The plan for a right that comes back.
pub fn plan_return(
    parts: &Parts,
    from: NodeNo,
    r: &ReturnRight,
) -> Result<Option<Outcome>, NoMemory>
    requires parts { AreParts parts.now }
    requires page { r.now.page < parts.now.home.config.pages }
    ensures { IfOk result (IsPlanFor (table_of (node_of parts.now) r.now.page) (λ t. plan_return t parts.now.me r.now.page from r.now.readers)) }
{
    let q = parts.home.config().partition(r.page);
    match parts.tables.at(q) {
        None => Ok(None),
        Some(table) => {
            let readers = r.readers.as_slice();
            Ok(Some(on_return(parts.alloc, table, parts.me, r.page, from, readers)?))
        }
    }
}

/// The plan for a release.
pub fn plan_release(parts: &Parts, r: &Release) -> Result<Option<Outcome>, NoMemory>
    requires parts { AreParts parts.now }
    requires page { r.now.page < parts.now.home.config.pages }
    ensures { IfOk result (IsPlanFor (table_of (node_of parts.now) r.now.page) (λ t. plan_release t parts.now.me r.now.page r.now.tx (version_of_change r.now.change))) }
{
    let q = parts.home.config().partition(r.page);
    match parts.tables.at(q) {
        None => Ok(None),
        Some(table) => {
            let change = version_of(&r.change);
            Ok(Some(on_release(parts.alloc, table, parts.me, r.page, r.tx, change)?))
        }
    }
}

/// The version of a change, if there is one.
fn version_of(change: &Option<Change>) -> Option<Version>
    ensures { result ≡ version_of_change change.now }
{
    match change {
        None => None,
        Some(change) => Some(change.version),
    }
}
