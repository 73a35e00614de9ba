ghost use Rattle.std.specs.Prelude.{◌≡◌, ◌+◌, ◌-◌, ◌^◌, ◌<◌, ◌≤◌, ◌==◌, ◌&&◌, ◌||◌, not, nat_lt, is_some, length, false};
ghost use Rattle.std.specs.List.{list_all, list_any};
ghost use Rattle.run_rules.specs.Views.{born_of, count_from};
ghost use Rattle.pcl_base.specs.declared.reply.Reason.TheVariants.{NotInView as not_in_view};
ghost use Rattle.node_rules.specs.NodeState.{Begin as begin, Read as read, Write as write, Commit as commit, Abort as abort, Evict as evict, Flush as flush, Install as install, table_of, is_serving};
ghost use Rattle.node_rules.specs.Words.{is_exclusive};
ghost use Rattle.node_rules.specs.OpenTxs.{pending_of};
ghost use Rattle.node_rules.specs.BufferRule.{find};
ghost use Rattle.node_rules.specs.AccessRule.{version_or};
ghost use Rattle.node_rules.specs.EndRule.{at_version_end};
ghost use Rattle.home.specs.Commits.{exclusive_pages};
ghost use Rattle.node_rules.specs.Refusals.{refusal, refusal_in_view, refuse_if, no_page, no_copy, may_install, owns_new};
ghost use Rattle.node_parts.specs.Events.{FitsNodes, event_of};
ghost use Rattle.node_parts.specs.State.{AreParts, node_of};

use authority_map::View;
use node_parts::{NodeEvent, Parts};
use pcl_base::{Held, Mode, NodeNo, Page, PageNo, Reason, TxId};

/// The first reason against an event that the node itself sees, or none. A view that comes with the
/// event has to be one of N nodes. It takes no memory.
#[tactic(auto, unfolding(node_rules::specs::Refusals::refusal))]
pub fn refusal(parts: &Parts, event: &NodeEvent) -> Option<Reason>
    requires parts { AreParts parts.now }
    requires nodes { FitsNodes parts.now.home.config event.now }
    ensures { result ≡ refusal (node_of parts.now) (event_of event.now) }
{
    match event {
        NodeEvent::Begin => if_in_view(parts, begin_refusal(parts)),
        NodeEvent::Read { tx, page } => if_in_view(parts, read_refusal(parts, *tx, *page)),
        NodeEvent::Write {
            tx,
            page,
            place,
            bytes,
        } => if_in_view(parts, write_refusal(parts, *tx, *page, *place, bytes)),
        NodeEvent::Commit { tx } => if_in_view(parts, commit_refusal(parts, *tx)),
        NodeEvent::Abort { tx } => if_in_view(parts, abort_refusal(parts, *tx)),
        NodeEvent::Deliver { .. } => if_in_view(parts, None),
        NodeEvent::Evict { page } => if_in_view(parts, evict_refusal(parts, *page)),
        NodeEvent::Flush { page } => if_in_view(parts, flush_refusal(parts, *page)),
        NodeEvent::Install { view } => install_refusal(parts, view),
        NodeEvent::Cut => if_in_view(parts, None),
    }
}

/// A reason of a node in a view; a node in none has another.
fn if_in_view(parts: &Parts, reason: Option<Reason>) -> Option<Reason>
    ensures { result ≡ refuse_if (not (is_some parts.now.view)) not_in_view reason }
{
    if parts.view.is_none() {
        return Some(Reason::NotInView);
    }
    reason
}

/// The first reason against opening a transaction.
fn begin_refusal(parts: &Parts) -> Option<Reason>
    ensures { result ≡ refusal_in_view (node_of parts.now) begin }
{
    if parts.home.txs().last() == u32::MAX {
        return Some(Reason::SerialEnd);
    }
    if 1024 <= parts.home.txs().count() {
        return Some(Reason::TooMany);
    }
    None
}

/// The first reason against a read.
fn read_refusal(parts: &Parts, tx: TxId, page: PageNo) -> Option<Reason>
    ensures { result ≡ refusal_in_view (node_of parts.now) (read tx page) }
{
    if !parts.home.txs().is_open(tx) {
        return Some(Reason::NoTx);
    }
    if parts.home.txs().pending(tx).is_some() {
        return Some(Reason::TxWaits);
    }
    if lacks_page(parts, page) {
        return Some(Reason::NoPage);
    }
    if !parts.home.pool().fits(tx, page, false) {
        return Some(Reason::NoFrame);
    }
    None
}

/// The first reason against a write.
fn write_refusal(parts: &Parts, tx: TxId, page: PageNo, place: u32, bytes: &Page) -> Option<Reason>
    ensures { result ≡ refusal_in_view (node_of parts.now) (write tx page place bytes.now) }
{
    if !parts.home.txs().is_open(tx) {
        return Some(Reason::NoTx);
    }
    if parts.home.txs().pending(tx).is_some() {
        return Some(Reason::TxWaits);
    }
    if lacks_page(parts, page) {
        return Some(Reason::NoPage);
    }
    if is_bad_range(parts.home.config().size() as usize, place, bytes) {
        return Some(Reason::BadRange);
    }
    if !parts.home.pool().fits(tx, page, true) {
        return Some(Reason::NoFrame);
    }
    None
}

/// The first reason against a commit.
fn commit_refusal(parts: &Parts, tx: TxId) -> Option<Reason>
    ensures { result ≡ refusal_in_view (node_of parts.now) (commit tx) }
{
    if !parts.home.txs().is_open(tx) {
        return Some(Reason::NoTx);
    }
    if parts.home.txs().pending(tx).is_some() {
        return Some(Reason::TxWaits);
    }
    if at_version_end(parts, tx) {
        return Some(Reason::VersionEnd);
    }
    None
}

/// Whether a page that a transaction wrote, which doesn't wait, is at the last version.
fn at_version_end(parts: &Parts, tx: TxId) -> bool
    requires { is_some (pending_of parts.now.home.txs tx) ≡ false }
    ensures { result ≡ at_version_end parts.now.home tx }
{
    any_last(parts, parts.home.txs().locks(tx))
}

/// Whether the copy of a page with an exclusive lock is at the last version.
fn any_last(parts: &Parts, locks: &[Held]) -> bool
    ensures { result ≡ list_any (λ p. version_or (find parts.now.home.pool p) == 2 ^ 64 - 1) (exclusive_pages locks.now) }
{
    for lock in locks {
        if is_last(parts, lock) {
            return true;
        }
    }
    false
}

/// Whether a lock is exclusive, and the copy of its page is at the last version.
fn is_last(parts: &Parts, lock: &Held) -> bool
    ensures { result ≡ (is_exclusive lock.now.mode && version_or (find parts.now.home.pool lock.now.page) == 2 ^ 64 - 1) }
{
    match lock.mode {
        Mode::Shared => false,
        Mode::Exclusive => match parts.home.pool().find(lock.page) {
            None => false,
            Some(version) => version == u64::MAX,
        },
    }
}

/// The first reason against giving a transaction up.
fn abort_refusal(parts: &Parts, tx: TxId) -> Option<Reason>
    ensures { result ≡ refusal_in_view (node_of parts.now) (abort tx) }
{
    if !parts.home.txs().is_open(tx) {
        return Some(Reason::NoTx);
    }
    None
}

/// The first reason against an eviction of the page's copy.
fn evict_refusal(parts: &Parts, page: PageNo) -> Option<Reason>
    ensures { result ≡ refusal_in_view (node_of parts.now) (evict page) }
{
    if lacks_page(parts, page) {
        return Some(Reason::NoPage);
    }
    if lacks_copy(parts, page) {
        return Some(Reason::NoCopy);
    }
    if parts.home.pool().pinned(page) {
        return Some(Reason::Pinned);
    }
    None
}

/// The first reason against writing the page's copy.
fn flush_refusal(parts: &Parts, page: PageNo) -> Option<Reason>
    requires { AreParts parts.now }
    ensures { result ≡ refusal_in_view (node_of parts.now) (flush page) }
{
    if lacks_page(parts, page) {
        return Some(Reason::NoPage);
    }
    if lacks_copy(parts, page) {
        return Some(Reason::NoCopy);
    }
    if !serves(parts, page) {
        return Some(Reason::NotOwner);
    }
    None
}

/// The reason against installing a view.
#[tactic(auto, unfolding(node_rules::specs::Refusals::refusal))]
fn install_refusal(parts: &Parts, view: &View) -> Option<Reason>
    requires parts { AreParts parts.now }
    requires nodes { length view.now.live ≡ parts.now.home.config.nodes }
    ensures { result ≡ refusal (node_of parts.now) (install view.now) }
{
    if may_install(parts, view) {
        return None;
    }
    Some(Reason::NoView)
}

/// Whether the node may install a view.
fn may_install(parts: &Parts, view: &View) -> bool
    requires parts { AreParts parts.now }
    requires nodes { length view.now.live ≡ parts.now.home.config.nodes }
    ensures { result ≡ may_install (node_of parts.now) parts.now.view view.now }
{
    match &parts.view {
        None => may_begin(parts, view),
        Some(before) => view.follows(before),
    }
}

/// Whether a view may be the first one of the node.
fn may_begin(parts: &Parts, view: &View) -> bool
    requires me { parts.now.me < parts.now.home.config.nodes }
    requires nodes { length view.now.live ≡ parts.now.home.config.nodes }
    ensures { result ≡ ((born_of view.now parts.now.me == view.now.epoch && nat_lt parts.now.epoch view.now.epoch) && list_all (owns_new view.now parts.now.me) (count_from 0 (length view.now.live))) }
{
    view.born(parts.me) == view.epoch()
        && parts.epoch < view.epoch()
        && owns_new(view, parts.me, parts.home.config().nodes() as u8)
}

/// Whether a page isn't one of the database.
fn lacks_page(parts: &Parts, page: PageNo) -> bool
    ensures { result ≡ no_page (node_of parts.now) page }
{
    parts.home.config().pages() <= page
}

/// Whether a page has no copy.
fn lacks_copy(parts: &Parts, page: PageNo) -> bool
    ensures { result ≡ no_copy (node_of parts.now) page }
{
    parts.home.pool().find(page).is_none()
}

/// Whether the node serves the partition of a page of the database.
fn serves(parts: &Parts, page: PageNo) -> bool
    requires parts { AreParts parts.now }
    requires page { page < parts.now.home.config.pages }
    ensures { result ≡ is_serving (table_of (node_of parts.now) page) }
{
    match parts.tables.at(parts.home.config().partition(page)) {
        None => false,
        Some(table) => table.serving(),
    }
}

/// Whether a write is one of no bytes, or of some past the end of the page.
fn is_bad_range(size: usize, place: u32, bytes: &Page) -> bool
    requires { size ≤ 4096 }
    ensures { result ≡ (length bytes.now == 0 || nat_lt size (place + length bytes.now)) }
{
    bytes.is_empty() || size < bytes.len() || size - bytes.len() < place as usize
}

/// Whether each partition that a node owns in a view of so many nodes is new there.
fn owns_new(view: &View, me: NodeNo, nodes: NodeNo) -> bool
    requires { length view.now.live ≡ nodes }
    ensures { result ≡ list_all (owns_new view.now me) (count_from 0 (length view.now.live)) }
{
    for q in 0..nodes {
        if !is_new_or_anothers(view, me, q) {
            return false;
        }
    }
    true
}

/// Whether a partition is new in a view, or another node owns it there.
fn is_new_or_anothers(view: &View, me: NodeNo, q: NodeNo) -> bool
    requires { q < length view.now.live }
    ensures { result ≡ owns_new view.now me q }
{
    view.owner(q) != me || view.since(q) == view.epoch()
}
