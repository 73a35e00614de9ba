ghost use Rattle.std.specs.Prelude.{◌≡◌, ◌<◌, ◌+◌, ◌-◌, ◌^◌, ◌==◌, true, false, IfOk};
ghost use Rattle.node_rules.specs.AccessRule.{version_or};
ghost use Rattle.node_rules.specs.BufferRule.{find};
ghost use Rattle.node_rules.specs.EndRule.{at_version_end};
ghost use Rattle.node_rules.specs.OpenTxs.{pending_of};
ghost use Rattle.node_rules.specs.Words.{is_exclusive};
ghost use Rattle.home_laws.specs.Homes.{IsHome};
ghost use Rattle.node_parts.specs.State.{AreParts, node_of};
ghost use Rattle.own_steps.specs.Ends.{AreEndPlans, IsEndPlan, dues, lock_due};

use authority::{Outcome, on_release};
use home::Home;
use node_parts::Parts;
use pcl_base::{Held, Mode, NoMemory, PageNo, TxId, Version};

/// A page at the end of a transaction.
#[derive(Drop)]
pub(crate) struct PageEnd {
    /// The page.
    pub(crate) page: PageNo,
    /// What is planned for its entry, where the node owns it.
    pub(crate) planned: Option<Outcome>,
}

/// What is planned for the end of a transaction at each of its pages, in order, where `commits` tells
/// whether it commits. Nothing is changed.
pub(crate) fn plan_ends(parts: &Parts, tx: TxId, commits: bool) -> Result<Vec<PageEnd>, NoMemory>
    requires parts { AreParts parts.now }
    requires idle { commits ≡ true → pending_of parts.now.home.txs tx ≡ None }
    requires last { commits ≡ true → at_version_end parts.now.home tx ≡ false }
    ensures plans { IfOk result (λ v. AreEndPlans (node_of parts.now) parts.now.me tx (dues commits parts.now.home tx) v.items) }
    ensures home { IsHome parts.now.home }
{
    let txs = parts.home.txs();
    let locks = txs.locks(tx);
    let waiting = txs.pending(tx);
    let mut plans = Vec::with_capacity(parts.alloc, locks.len().saturating_add(1))?;
    for lock in locks {
        plans.push(plan_lock(parts, tx, commits, lock)?)?;
    }
    match waiting {
        None => Ok(plans),
        Some(access) => {
            if txs.held(tx, access.page).is_some() {
                return Ok(plans);
            }
            plans.push(plan_page(parts, tx, access.page, None)?)?;
            Ok(plans)
        }
    }
}

/// The same of a page that is held.
fn plan_lock(parts: &Parts, tx: TxId, commits: bool, lock: &Held) -> Result<PageEnd, NoMemory>
    requires parts { AreParts parts.now }
    requires page { lock.now.page < parts.now.home.config.pages }
    requires last { commits ≡ true → is_exclusive lock.now.mode ≡ true → (version_or (find parts.now.home.pool lock.now.page) == 2 ^ 64 - 1) ≡ false }
    ensures { IfOk result (IsEndPlan (node_of parts.now) parts.now.me tx (lock_due commits parts.now.home lock.now)) }
{
    if commits {
        return plan_page(parts, tx, lock.page, version_told(&parts.home, lock));
    }
    plan_page(parts, tx, lock.page, None)
}

/// The version that a commit makes of a page that is held, where it was written.
fn version_told(home: &Home, lock: &Held) -> Option<Version>
    requires { is_exclusive lock.now.mode ≡ true → (version_or (find home.now.pool lock.now.page) == 2 ^ 64 - 1) ≡ false }
    ensures { result ≡ (lock_due true home.now lock.now).1 }
{
    match lock.mode {
        Mode::Shared => None,
        Mode::Exclusive => match home.pool().find(lock.page) {
            None => Some(1),
            Some(version) => Some(version + 1),
        },
    }
}

/// The same of a page, with the version of the change of which its entry is told.
fn plan_page(
    parts: &Parts,
    tx: TxId,
    page: PageNo,
    change: Option<Version>,
) -> Result<PageEnd, NoMemory>
    requires parts { AreParts parts.now }
    requires page { page < parts.now.home.config.pages }
    ensures { IfOk result (IsEndPlan (node_of parts.now) parts.now.me tx (page, change)) }
{
    let q = parts.home.config().partition(page);
    match parts.tables.at(q) {
        None => Ok(PageEnd {
            page,
            planned: None,
        }),
        Some(table) => {
            let planned = Some(on_release(parts.alloc, table, parts.me, page, tx, change)?);
            Ok(PageEnd { page, planned })
        }
    }
}
