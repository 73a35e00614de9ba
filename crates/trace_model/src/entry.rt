ghost use Rattle.std.specs.Prelude.{◌≡◌, ◌++◌, ◌∷◌, [], OnOk, flat_map, option_copied};
ghost use Rattle.run_rules.specs.Words.{same_tx};
ghost use Rattle.run_rules.specs.Script.{is_refusal as is_refusal_spec, is_refused as is_refused_spec, told, kept, steps_at, write_step};
ghost use Rattle.run_rules.specs.Serial.{committed};
ghost use Rattle.trace_model.specs.Seen.{is_asked_by as is_asked_by_spec, write_of, asked_write};
ghost use Rattle.pcl_base.specs.declared.script.Step.TheVariants.{Read as a_read};

use pcl_base::{Entry, Event, Halt, Page, PageNo, Reply, Step, TxId};
use std::alloc::AllocError;

/// The event by which the transaction asked for an access last: that of the entry, or else the one
/// before it.
pub(crate) fn asked_after<'a>(
    entry: &'a Entry,
    tx: TxId,
    before: Option<&'a Event>,
) -> Option<&'a Event>
    ensures { write_of (option_copied result) ≡ asked_write tx (write_of (option_copied before.entry)) entry.now }
{
    if !is_asked_by(&entry.event, tx) {
        return before;
    }
    if is_refused(entry) {
        return before;
    }
    Some(&entry.event)
}

/// Whether the event is an access of the transaction.
fn is_asked_by(event: &Event, tx: TxId) -> bool
    ensures { result ≡ is_asked_by_spec tx event.now }
{
    match event {
        Event::Read { tx: asker, .. } => is_same(tx, *asker),
        Event::Write { tx: asker, .. } => is_same(tx, *asker),
        _ => false,
    }
}

fn is_same(tx: TxId, other: TxId) -> bool
    ensures { result ≡ same_tx tx other }
{
    tx == other
}

/// Whether the event of the entry was refused.
fn is_refused(entry: &Entry) -> bool
    ensures { result ≡ is_refused_spec entry.now }
{
    entry.replies.as_slice().iter().any(is_refusal)
}

fn is_refusal(reply: &Reply) -> bool
    ensures { result ≡ is_refusal_spec reply.now }
{
    matches!(reply, Reply::Refused { .. })
}

/// Appends the accesses of the transaction that the entry grants, where it asked by that event
/// last.
pub(crate) fn take_steps(
    steps: &mut Vec<Step>,
    entry: &Entry,
    tx: TxId,
    asked: Option<&Event>,
) -> Result<(), AllocError>
    ensures { OnOk result (steps.new.items ≡ steps.old.items ++ flat_map (steps_at tx (write_of (option_copied asked.entry))) (flat_map told entry.now.replies)) }
{
    for reply in entry.replies.as_slice() {
        take_step(steps, reply, tx, asked)?;
    }
    Ok(())
}

/// Appends the access of the transaction that the reply grants.
fn take_step(
    steps: &mut Vec<Step>,
    reply: &Reply,
    tx: TxId,
    asked: Option<&Event>,
) -> Result<(), AllocError>
    ensures { OnOk result (steps.new.items ≡ steps.old.items ++ flat_map (steps_at tx (write_of (option_copied asked.entry))) (told reply.now)) }
{
    match reply {
        Reply::Value {
            tx: reader,
            page,
            bytes,
            ..
        } => {
            if !is_same(tx, *reader) {
                return Ok(());
            }
            take_read(steps, *page, bytes)
        }
        Reply::Done {
            tx: writer,
            page,
            ..
        } => {
            if !is_same(tx, *writer) {
                return Ok(());
            }
            take_write(steps, *page, asked)
        }
        _ => Ok(()),
    }
}

/// Appends a read with the bytes that it was answered with.
fn take_read(steps: &mut Vec<Step>, page: PageNo, bytes: &Page) -> Result<(), AllocError>
    ensures { OnOk result (steps.new.items ≡ steps.old.items ++ a_read page bytes.now ∷ []) }
{
    let bytes = bytes.copy()?;
    Ok(steps.push(Step::Read { page, bytes })?)
}

/// Appends the write that the event asked for.
fn take_write(steps: &mut Vec<Step>, page: PageNo, asked: Option<&Event>) -> Result<(), AllocError>
    ensures { OnOk result (steps.new.items ≡ steps.old.items ++ write_step page (write_of (option_copied asked.entry))) }
{
    match asked {
        Some(Event::Write { place, bytes, .. }) => {
            let bytes = bytes.copy()?;
            Ok(steps.push(Step::Write {
                page,
                place: *place,
                bytes,
            })?)
        }
        _ => Ok(()),
    }
}

/// Appends the transactions of the entry's commit points.
pub(crate) fn take_commits(txs: &mut Vec<TxId>, entry: &Entry) -> Result<(), AllocError>
    ensures { OnOk result (txs.new.items ≡ txs.old.items ++ (flat_map committed (flat_map told entry.now.replies) ++ flat_map committed (kept entry.now.halted))) }
{
    for reply in entry.replies.as_slice() {
        take_commit(txs, reply)?;
    }
    take_kept(txs, entry)
}

/// Appends the transaction that the reply tells as committed.
fn take_commit(txs: &mut Vec<TxId>, reply: &Reply) -> Result<(), AllocError>
    ensures { OnOk result (txs.new.items ≡ txs.old.items ++ flat_map committed (told reply.now)) }
{
    match reply {
        Reply::Committed { tx } => Ok(txs.push(*tx)?),
        _ => Ok(()),
    }
}

/// Appends the transaction whose commit the halt of the entry kept.
fn take_kept(txs: &mut Vec<TxId>, entry: &Entry) -> Result<(), AllocError>
    ensures { OnOk result (txs.new.items ≡ txs.old.items ++ flat_map committed (kept entry.now.halted)) }
{
    match entry.halted {
        Some(Halt { kept: Some(tx), .. }) => Ok(txs.push(tx)?),
        _ => Ok(()),
    }
}
