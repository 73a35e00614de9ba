ghost use Rattle.std.specs.Prelude.{◌≡◌, IfOk};
ghost use Rattle.run_rules.specs.Ledger.{actor, lose};
ghost use Rattle.run_rules.specs.Account.{account_fault, account_from, after_entry, all_sends, is_crash, is_lost, lose_if};
ghost use Rattle.msg_account.specs.Kept.{if_caused, if_left, sending};

use crate::ledger::{Ledger, actor};
use crate::once::Once;
use crate::replies::any_crashed;
use crate::taking::Taken;
use pcl_base::{Entry, Event, NoMemory, NodeNo};
use std::alloc::Global;
use trace_model::Trace;

/// The number, counted from 1, of the first entry with a send outside the account (docs/rules.md):
/// a send without its cause in the trace, or with a cause that was used up.
///
/// It walks over the entries once. It needs nothing of the trace. It answers [`NoMemory`] where
/// there is none for what the account keeps.
pub fn accounted(alloc: Global, t: &Trace) -> Result<Option<usize>, NoMemory>
    ensures { IfOk result (λ fault. fault ≡ account_fault t.now.config t.now.entries) }
{
    let mut ledger = Ledger::open(alloc, &t.config())?;
    first_fault(alloc, &mut ledger, t.entries())
}

fn first_fault<'a>(
    alloc: Global,
    ledger: &mut Ledger<'a>,
    entries: &'a [Entry],
) -> Result<Option<usize>, NoMemory>
    ensures { IfOk result (λ fault. fault ≡ account_from 1 entries.now ledger.old) }
{
    let mut number = 0;
    for entry in entries {
        number += 1;
        if !ledger.enter(alloc, entry)? {
            return Ok(Some(number));
        }
    }
    Ok(None)
}

impl<'a> Ledger<'a> {
    /// An entry tells what it tells, and then sends; false where a send has no cause, and then the
    /// ledger is of no use.
    #[tactic(auto, unfolding(run_rules::specs::Account::after_entry))]
    fn enter(&mut self, alloc: Global, e: &'a Entry) -> Result<bool, NoMemory>
        ensures { IfOk result (λ b. if_left b self.new ≡ after_entry e.now self.old) }
    {
        let taken = self.taken_of(e);
        self.hear_entry(e)?;
        let mut once = Once::new(alloc);
        if !self.send_all(e, &taken, actor(&e.event), &mut once)? {
            return Ok(false);
        }
        self.lose_acting(e);
        Ok(true)
    }

    /// Each send of an entry has its cause, and the writers for whom rights were asked back wait at
    /// its end.
    fn send_all(
        &mut self,
        e: &'a Entry,
        taken: &Option<Taken<'a>>,
        n: Option<NodeNo>,
        once: &mut Once,
    ) -> Result<bool, NoMemory>
        ensures { IfOk result (λ b. if_caused b self.new once.new ≡ all_sends e.now taken.now n e.now.sent (sending self.old once.old)) }
    {
        for sent in e.sent.as_slice() {
            if !self.send(e, taken, n, sent, once)? {
                return Ok(false);
            }
        }
        Ok(self.still_wait(n, once))
    }

    /// The acting node is lost by a crash or a halt.
    fn lose_acting(&mut self, e: &Entry)
        ensures { self.new ≡ lose_if (is_lost e.now) (actor e.now.event) self.old }
    {
        if !is_lost(e) {
            return;
        }
        match actor(&e.event) {
            Some(n) => self.lose(n),
            None => {}
        }
    }

    /// A node is down: its links in are empty, and the accesses of its transactions have ended.
    #[tactic(auto, unfolding(run_rules::specs::Ledger::lose))]
    fn lose(&mut self, n: NodeNo)
        ensures { self.new ≡ lose n self.old }
    {
        self.links.empty_into(n);
        self.writing.drop_node(n);
        match self.up.get_mut(n as usize) {
            Some(up) => *up = false,
            None => {}
        }
    }
}

fn is_lost(e: &Entry) -> bool
    ensures { result ≡ is_lost e.now }
{
    (is_crash(&e.event) && any_crashed(e.replies.as_slice())) || e.halted.is_some()
}

fn is_crash(event: &Event) -> bool
    ensures { result ≡ is_crash event.now }
{
    match event {
        Event::Crash { .. } => true,
        _ => false,
    }
}
