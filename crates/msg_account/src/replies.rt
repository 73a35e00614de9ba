ghost use Rattle.std.specs.Prelude.{◌≡◌, ◌||◌};
ghost use Rattle.std.specs.List.{list_any};
ghost use Rattle.pcl_base.specs.declared.tx.Mode.TheVariants.{Shared, Exclusive};
ghost use Rattle.run_rules.specs.Words.{same_tx};
ghost use Rattle.run_rules.specs.Taking.{aborts, commits, is_dropped, is_taken, is_viewed, is_waiting};
ghost use Rattle.run_rules.specs.Causes.{is_access, is_end, is_installed};
ghost use Rattle.run_rules.specs.Account.{is_crashed};

use pcl_base::{Event, Mode, PageNo, Reply, TxId};

pub(crate) fn is_same(tx: TxId, other: TxId) -> bool
    ensures { result ≡ same_tx tx other }
{
    tx == other
}

pub(crate) fn any_taken(replies: &[Reply]) -> bool
    ensures { result ≡ list_any is_taken replies.now }
{
    replies.iter().any(is_taken)
}

fn is_taken(reply: &Reply) -> bool
    ensures { result ≡ is_taken reply.now }
{
    matches!(reply, Reply::Taken)
}

fn is_dropped(reply: &Reply) -> bool
    ensures { result ≡ is_dropped reply.now }
{
    matches!(reply, Reply::Dropped)
}

/// Whether a message was taken or dropped.
pub(crate) fn any_off_link(replies: &[Reply]) -> bool
    ensures { result ≡ list_any (λ r. is_taken r || is_dropped r) replies.now }
{
    replies
        .iter()
        .any(|reply| is_taken(reply) || is_dropped(reply))
}

pub(crate) fn any_viewed(replies: &[Reply]) -> bool
    ensures { result ≡ list_any is_viewed replies.now }
{
    replies.iter().any(is_viewed)
}

fn is_viewed(reply: &Reply) -> bool
    ensures { result ≡ is_viewed reply.now }
{
    matches!(reply, Reply::Viewed { .. })
}

pub(crate) fn any_crashed(replies: &[Reply]) -> bool
    ensures { result ≡ list_any is_crashed replies.now }
{
    replies.iter().any(is_crashed)
}

fn is_crashed(reply: &Reply) -> bool
    ensures { result ≡ is_crashed reply.now }
{
    matches!(reply, Reply::Crashed)
}

/// Whether an access of a transaction and page waits.
pub(crate) fn any_waiting(replies: &[Reply], tx: TxId, page: PageNo) -> bool
    ensures { result ≡ list_any (is_waiting tx page) replies.now }
{
    replies.iter().any(|reply| is_waiting(reply, tx, page))
}

fn is_waiting(reply: &Reply, tx: TxId, page: PageNo) -> bool
    ensures { result ≡ is_waiting tx page reply.now }
{
    match reply {
        Reply::Waits { tx: one, page: of } => is_same(*one, tx) && *of == page,
        _ => false,
    }
}

/// Whether a node says that it has installed the view of an epoch.
pub(crate) fn any_installed(replies: &[Reply], epoch: u32) -> bool
    ensures { result ≡ list_any (is_installed epoch) replies.now }
{
    replies.iter().any(|reply| is_installed(reply, epoch))
}

fn is_installed(reply: &Reply, epoch: u32) -> bool
    ensures { result ≡ is_installed epoch reply.now }
{
    match reply {
        Reply::Installed { epoch: one } => *one == epoch,
        _ => false,
    }
}

/// Whether a reply says that the event has ended a transaction.
pub(crate) fn any_end(event: &Event, replies: &[Reply], tx: TxId) -> bool
    ensures { result ≡ list_any (is_end event.now tx) replies.now }
{
    replies.iter().any(|reply| is_end(event, reply, tx))
}

fn is_end(event: &Event, reply: &Reply, tx: TxId) -> bool
    ensures { result ≡ is_end event.now tx reply.now }
{
    match reply {
        Reply::Committed { tx: one } => commits(event, tx) && is_same(*one, tx),
        Reply::Aborted { tx: one } => aborts(event, tx) && is_same(*one, tx),
        _ => false,
    }
}

/// Whether an event is the commit of a transaction.
pub(crate) fn commits(event: &Event, tx: TxId) -> bool
    ensures { result ≡ commits event.now tx }
{
    match event {
        Event::Commit { tx: one } => is_same(*one, tx),
        _ => false,
    }
}

/// Whether an event is the abort of a transaction.
pub(crate) fn aborts(event: &Event, tx: TxId) -> bool
    ensures { result ≡ aborts event.now tx }
{
    match event {
        Event::Abort { tx: one } => is_same(*one, tx),
        _ => false,
    }
}

/// Whether an event is the access of a transaction and a page in a mode.
pub(crate) fn is_access(event: &Event, tx: TxId, page: PageNo, mode: Mode) -> bool
    ensures { result ≡ is_access event.now tx page mode }
{
    match mode {
        Mode::Shared => is_read(event, tx, page),
        Mode::Exclusive => is_write(event, tx, page),
    }
}

fn is_read(event: &Event, tx: TxId, page: PageNo) -> bool
    ensures { result ≡ is_access event.now tx page Shared }
{
    match event {
        Event::Read { tx: one, page: of } => is_same(*one, tx) && *of == page,
        _ => false,
    }
}

fn is_write(event: &Event, tx: TxId, page: PageNo) -> bool
    ensures { result ≡ is_access event.now tx page Exclusive }
{
    match event {
        Event::Write {
            tx: one,
            page: of,
            ..
        } => is_same(*one, tx) && *of == page,
        _ => false,
    }
}
