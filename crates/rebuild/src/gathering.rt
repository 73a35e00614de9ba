//! How reports are put together at a partition's new owner.
ghost use Rattle.std.specs.Prelude.{◌≡◌, ◌<◌, ◌==◌, ◌&&◌, ◌||◌, ℕ, not, nat_eq, nat_le, length, is_some, IfOk, OnOk};
ghost use Rattle.std.specs.List.{All, list_any};
ghost use Rattle.run_rules.specs.Views.{is_live, owner_of, born_of, since_of};
ghost use Rattle.node_rules.specs.LockRule.{ask, reported, reported_right};
ghost use Rattle.node_rules.specs.LockTable.{entry_at, put_entry};
ghost use Rattle.node_rules.specs.Reports.{gather, gather_locks, gather_rights, gather_waits, missing, is_missing};
ghost use Rattle.lock_table.specs.Tables.{IsPageOf, SamePlace, found, table_of};
ghost use Rattle.rebuild.specs.Parts.{IsReportOf, IsTableOf, names_page};

use authority_map::View;
use lock_table::Table;
use pcl_base::{Config, NoMemory, NodeNo, Report, ReportLock, ReportRight, ReportWait, Waiter};

/// Puts a node's report into the table of a partition that is rebuilt: its locks, rights and
/// waiting accesses go last into the lists of their entries, but for what is there already, and
/// the node counts as one that has reported. It carries the install rule, reports. Answers whether
/// the table is complete: false exactly where another live node, which was born before the
/// partition got its owner, hasn't reported. The pages that the report names have entries
/// afterwards, beside those that had one.
///
/// The table is of this configuration, and the view has a flag for each of its nodes. After
/// `NoMemory` the table may only be given up.
#[tactic(auto, unfolding(node_rules::specs::Reports::gather))]
pub fn gather(
    t: &mut Table,
    config: &Config,
    from: NodeNo,
    r: &Report,
    v: &View,
) -> Result<bool, NoMemory>
    requires table { IsTableOf config.now t.old }
    requires nodes { length v.now.live ≡ config.now.nodes }
    requires from { from < config.now.nodes }
    requires pages { IsReportOf t.old r.now }
    ensures gathered { OnOk result (table_of t.new ≡ gather (table_of t.old) from r.now) }
    ensures complete { IfOk result (λ b. b ≡ not (missing (gather (table_of t.old) from r.now) v.now t.old.partition)) }
    ensures made { OnOk result ((p : ℕ) → is_some (found t.new p) ≡ (names_page r.now p || is_some (found t.old p))) }
    ensures place { OnOk result (SamePlace t.old t.new) }
{
    gather_locks(t, r.locks.as_slice())?;
    gather_rights(t, from, r.rights.as_slice())?;
    gather_waits(t, r.waits.as_slice())?;
    t.mark(from);
    Ok(!missing(t, config, v))
}

/// Whether the report of a live node other than the owner is missing, which was born before the
/// partition got its owner. It carries the install rule, when a table is complete. The table is of
/// this configuration, and the view has a flag for each of its nodes. It takes no memory.
#[tactic(auto, unfolding(node_rules::specs::Reports::missing))]
pub fn missing(t: &Table, config: &Config, v: &View) -> bool
    requires table { IsTableOf config.now t.now }
    requires nodes { length v.now.live ≡ config.now.nodes }
    ensures { result ≡ missing (table_of t.now) v.now t.now.partition }
{
    for node in 0..config.nodes() as u8 {
        if is_missing(t, v, node) {
            return true;
        }
    }
    false
}

/// Whether this node's report is missing.
fn is_missing(t: &Table, v: &View, node: NodeNo) -> bool
    requires node { node < length v.now.live }
    requires partition { t.now.partition < length v.now.live }
    requires nodes { length v.now.live ≡ t.now.config.nodes }
    ensures { result ≡ is_missing (table_of t.now) v.now t.now.partition node }
{
    let partition = t.partition();
    v.live(node)
        && node != v.owner(partition)
        && !t.marked(node)
        && v.born(node) <= v.since(partition)
}

/// Puts the locks of a report into the table.
fn gather_locks(t: &mut Table, locks: &[ReportLock]) -> Result<(), NoMemory>
    requires { All (λ x. IsPageOf t.old x.page) locks.now }
    ensures table { OnOk result (table_of t.new ≡ gather_locks (table_of t.old) locks.now) }
    ensures made { OnOk result ((p : ℕ) → is_some (found t.new p) ≡ (list_any (λ x. nat_eq p x.page) locks.now || is_some (found t.old p))) }
    ensures place { OnOk result (SamePlace t.old t.new) }
{
    for lock in locks {
        gather_lock(t, lock)?;
    }
    Ok(())
}

/// Puts a lock of a report into the table.
fn gather_lock(t: &mut Table, lock: &ReportLock) -> Result<(), NoMemory>
    requires { IsPageOf t.old lock.now.page }
    ensures table { OnOk result (table_of t.new ≡ put_entry (table_of t.old) lock.now.page (reported (entry_at (table_of t.old) lock.now.page) lock.now.tx lock.now.mode)) }
    ensures made { OnOk result ((p : ℕ) → is_some (found t.new p) ≡ (nat_eq p lock.now.page || is_some (found t.old p))) }
    ensures place { OnOk result (SamePlace t.old t.new) }
{
    t.entry(lock.page)?.reported(lock.tx, lock.mode)
}

/// Puts the rights that a node reports into the table.
fn gather_rights(t: &mut Table, from: NodeNo, rights: &[ReportRight]) -> Result<(), NoMemory>
    requires { All (λ x. IsPageOf t.old x.page) rights.now }
    ensures table { OnOk result (table_of t.new ≡ gather_rights (table_of t.old) from rights.now) }
    ensures made { OnOk result ((p : ℕ) → is_some (found t.new p) ≡ (list_any (λ x. nat_eq p x.page) rights.now || is_some (found t.old p))) }
    ensures place { OnOk result (SamePlace t.old t.new) }
{
    for right in rights {
        gather_right(t, from, right)?;
    }
    Ok(())
}

/// Puts a right that a node reports into the table.
fn gather_right(t: &mut Table, from: NodeNo, right: &ReportRight) -> Result<(), NoMemory>
    requires { IsPageOf t.old right.now.page }
    ensures table { OnOk result (table_of t.new ≡ put_entry (table_of t.old) right.now.page (reported_right (entry_at (table_of t.old) right.now.page) from)) }
    ensures made { OnOk result ((p : ℕ) → is_some (found t.new p) ≡ (nat_eq p right.now.page || is_some (found t.old p))) }
    ensures place { OnOk result (SamePlace t.old t.new) }
{
    t.entry(right.page)?.reported_right(from)
}

/// Puts the waiting accesses of a report into the table.
fn gather_waits(t: &mut Table, waits: &[ReportWait]) -> Result<(), NoMemory>
    requires { All (λ x. IsPageOf t.old x.page) waits.now }
    ensures table { OnOk result (table_of t.new ≡ gather_waits (table_of t.old) waits.now) }
    ensures made { OnOk result ((p : ℕ) → is_some (found t.new p) ≡ (list_any (λ x. nat_eq p x.page) waits.now || is_some (found t.old p))) }
    ensures place { OnOk result (SamePlace t.old t.new) }
{
    for wait in waits {
        gather_wait(t, wait)?;
    }
    Ok(())
}

/// Puts a waiting access of a report into the table.
fn gather_wait(t: &mut Table, wait: &ReportWait) -> Result<(), NoMemory>
    requires { IsPageOf t.old wait.now.page }
    ensures table { OnOk result (table_of t.new ≡ put_entry (table_of t.old) wait.now.page (ask (entry_at (table_of t.old) wait.now.page) (record { tx = wait.now.tx; mode = wait.now.mode; have = wait.now.have }))) }
    ensures made { OnOk result ((p : ℕ) → is_some (found t.new p) ≡ (nat_eq p wait.now.page || is_some (found t.old p))) }
    ensures place { OnOk result (SamePlace t.old t.new) }
{
    t.entry(wait.page)?.ask(Waiter {
        tx: wait.tx,
        mode: wait.mode,
        have: wait.have,
    })
}
