ghost use Rattle.std.specs.Prelude.{◌≡◌, ◌≢◌, ◌++◌, ℕ, true, false, map, IfOk, OnOk};
ghost use Rattle.pcl_base.specs.declared.lock.Decision.{Decision as Decided};
ghost use Rattle.node_rules.specs.LockRule.{settle};
ghost use Rattle.node_rules.specs.LockTable.{entry_at, put_entry, pages_of};
ghost use Rattle.install_laws.specs.InstallPlans.{decided, plan_settling};
ghost use Rattle.lock_table.specs.Tables.{IsPageOf, SamePlace, found, entry_of, table_of};
ghost use Rattle.rebuild.specs.Parts.{IsTableOf};
ghost use Rattle.install_plans.specs.Tables.{is_unused, is_wanted, IsTidy};

use crate::due::Due;
use crate::planner::Planner;
use authority::{Outcome, on_settle};
use lock_table::Table;
use pcl_base::{Decision, NoMemory, PageNo, Version};

/// Settles all pages of a served table, rising, and answers the decisions in their order. Only pages
/// that have an entry are visited, and of these only those for which someone waits are settled. The
/// entries that are left have a list that isn't empty.
///
/// After `NoMemory` the table may only be given up.
pub fn settle_table(by: &Planner, t: &mut Table) -> Result<Vec<Due>, NoMemory>
    requires table { IsTableOf by.now.config t.old }
    requires serving { t.old.serving ≡ true }
    ensures table { OnOk result (table_of t.new ≡ (plan_settling by.now.me (pages_of t.old.config t.old.partition) (table_of t.old)).table) }
    ensures decisions { IfOk result (λ dues. dues.items ≡ (plan_settling by.now.me (pages_of t.old.config t.old.partition) (table_of t.old)).decisions) }
    ensures tidy { OnOk result (IsTidy t.new) }
    ensures place { OnOk result (SamePlace t.old t.new) }
{
    let mut dues = Vec::new(by.alloc);
    let pages = t.pages()?;
    for page in pages.as_slice() {
        settle_entry(by, t, *page, &mut dues)?;
    }
    Ok(dues)
}

/// Settles a page of a served table, whose entry is given up where it is left with empty lists.
fn settle_entry(
    by: &Planner,
    t: &mut Table,
    page: PageNo,
    dues: &mut Vec<Due>,
) -> Result<(), NoMemory>
    requires table { IsTableOf by.now.config t.old }
    requires page { IsPageOf t.old page }
    requires serving { t.old.serving ≡ true }
    ensures table { OnOk result (table_of t.new ≡ put_entry (table_of t.old) page (settle by.now.me (entry_at (table_of t.old) page)).entry) }
    ensures decisions { OnOk result (dues.new.items ≡ dues.old.items ++ decided page (settle by.now.me (entry_at (table_of t.old) page))) }
    ensures used { OnOk result (is_unused (found t.new page) ≡ false) }
    ensures others { OnOk result ((p : ℕ) → p ≢ page → found t.new p ≡ found t.old p) }
    ensures place { OnOk result (SamePlace t.old t.new) }
{
    if !is_wanted(t, page) {
        t.tidy(page);
        return Ok(());
    }
    let Outcome {
        entry,
        changed: _changed,
        decisions,
    } = on_settle(by.alloc, t, by.me, page)?;
    add_dues(dues, page, entry.version(), decisions.as_slice())?;
    t.put(page, entry);
    t.tidy(page);
    Ok(())
}

/// Whether someone waits for a page.
fn is_wanted(t: &Table, page: PageNo) -> bool
    requires { IsPageOf t.now page }
    ensures wanted { result ≡ is_wanted (found t.now page) }
    ensures entry { entry_at (table_of t.now) page ≡ entry_of t.now page }
{
    match t.find(page) {
        None => false,
        Some(entry) => !entry.waiting().is_empty(),
    }
}

/// Adds the decisions about a page.
fn add_dues(
    dues: &mut Vec<Due>,
    page: PageNo,
    version: Version,
    decisions: &[Decision],
) -> Result<(), NoMemory>
    ensures { OnOk result (dues.new.items ≡ dues.old.items ++ map (λ (d : Decided). record { page = page; version = version; decision = d }) decisions.now) }
{
    for decision in decisions {
        dues.push(Due {
            page,
            version,
            decision: *decision,
        })?;
    }
    Ok(())
}

/// Gives up each entry of a table that has empty lists. For the rules nothing changes.
pub fn tidy_table(by: &Planner, t: &mut Table) -> Result<(), NoMemory>
    requires table { IsTableOf by.now.config t.old }
    ensures table { OnOk result (table_of t.new ≡ table_of t.old) }
    ensures tidy { OnOk result (IsTidy t.new) }
    ensures place { OnOk result (SamePlace t.old t.new) }
{
    let pages = t.pages()?;
    for page in pages.as_slice() {
        t.tidy(*page);
    }
    Ok(())
}
