ghost use Rattle.std.specs.Prelude.{◌≡◌, ℕ, ◌≤◌, ◌-◌, ◌^◌, ◌==◌, ◌&&◌, Bool, true, false, [], None, Some, is_some, map, length, Err, IfOk, OnOk, OnErr};
ghost use Rattle.std.specs.Result.{result_err};
ghost use Rattle.std.specs.List.{AllByRecursion, list_any};
ghost use Rattle.pcl_base.specs.Faults.{Rose};
ghost use Rattle.pcl_base.specs.declared.trace.Call.{Call as Kind};
ghost use Rattle.disk_model.specs.Disk.{HasSizes, LoweredAtMost, with_appended};
ghost use Rattle.disk_model.specs.Stops.{after_change, after_read};
ghost use Rattle.node_rules.specs.Words.{is_exclusive};
ghost use Rattle.node_rules.specs.OpenTxs.{is_open, pending_of};
ghost use Rattle.node_rules.specs.BufferRule.{find};
ghost use Rattle.node_rules.specs.AccessRule.{version_or};
ghost use Rattle.node_rules.specs.EndRule.{commit, closed, endings, publish_all, pages_written, at_version_end};
ghost use Rattle.home_laws.specs.Homes.{IsHome};
ghost use Rattle.home_laws.specs.RefusedEnds.{commit_refusal};
ghost use Rattle.home_laws.specs.EndNeeds.{IsBelowLast};
ghost use Rattle.home.specs.declared.fault.HomeFault.TheVariants.{Failed as failed};
ghost use Rattle.home.specs.Answers.{refused_as};
ghost use Rattle.home.specs.Commits.{told, exclusive_pages, LogsLeft, Unasked, CommitLogs, CommitDecided, commit_bytes, commit_calls, stops_done, failing_done, stops_left, failing_left};
ghost use Rattle.home.specs.Device.{work_on};
ghost use Rattle.home.specs.Ends.{IsAbortFault};
ghost use Rattle.home.specs.Parts.{IsPrepared};

use crate::ending::Ending;
use crate::fault::HomeFault;
use crate::force::force;
use crate::home::Home;
use crate::parts::Parts;
use crate::publish::publish_all;
use disk_model::{Call, Storage};
use pcl_base::{Held, Mode, PageNo, Reason, TxId};

impl Home {
    /// Commits a transaction: its record is forced to the log of the node, its private copies become
    /// the copies of their pages, its pages are unpinned, and it reads no more under a right. Answers
    /// what is told of each page that it held, in the order of first access. The end rule is carried
    /// out here. A commit without writes makes no call of the storage.
    ///
    /// `Refused` with `NoTx`, `TxWaits` or `VersionEnd`, the first that holds. `NoMemory` only where
    /// memory is wanting: home, pages and logs are then as before, since all memory is taken before the
    /// force. `Failed` comes only where the count of forces rose, or that of `Log` before the force: a
    /// prefix of the record is then appended, and `kept` is true where all of it is known to be. The
    /// home is as before after each fault.
    pub fn commit<S: Storage>(&mut self, tx: TxId, s: &mut S) -> Result<Vec<Ending>, HomeFault>
        requires sizes { HasSizes self.old.config (S.pages s.old) (S.logs s.old) (S.rooms s.old) }
        ensures refused { refused_as result ≡ commit_refusal tx self.old }
        ensures endings { IfOk result (λ ends. ends.items ≡ map told (commit tx (work_on self.old)).endings) }
        ensures home { OnOk result (self.new ≡ (commit tx (work_on self.old)).work.home) }
        ensures err { OnErr result (self.new ≡ self.old) }
        ensures logs { CommitLogs self.old tx (result_err result) (S.faults s.old Call.Log) (S.faults s.new Call.Log) (S.failing s.old) (S.logs s.old) (S.logs s.new) }
        ensures decided { 1 ≤ length (pages_written self.old tx) → CommitDecided self.old tx (result_err result) (S.stops s.old) (S.failing s.old) (S.logs s.old) (S.logs s.new) }
        ensures stops { S.stops s.new ≡ stops_left (result_err result) (stops_done self.old.txs.node (S.stops s.old) (commit_calls self.old tx)) self.old.txs.node (S.stops s.old) }
        ensures failing { S.failing s.new ≡ failing_left (result_err result) (failing_done self.old.txs.node (S.failing s.old) (commit_calls self.old tx)) self.old.txs.node (S.failing s.old) }
        ensures pages { S.pages s.new ≡ S.pages s.old }
        ensures rooms { LoweredAtMost (S.rooms s.old) (S.rooms s.new) self.old.txs.node (length (commit_bytes self.old tx)) }
        ensures sizes { HasSizes self.old.config (S.pages s.new) (S.logs s.new) (S.rooms s.new) }
        ensures silent { pages_written self.old tx ≡ [] → (s.new ≡ s.old) × IsAbortFault result }
        ensures counts { (k : Kind) → S.faults s.old k ≤ S.faults s.new k }
        ensures cause { (k : Kind) (kept : Bool) → result ≡ Err (failed k kept) → Rose (S.faults s.old k) (S.faults s.new k) }
    {
        match self.parts.commit_refusal(tx) {
            Some(reason) => Err(HomeFault::Refused(reason)),
            None => self.parts.commit(tx, s),
        }
    }
}

impl Parts {
    /// A commit that isn't refused.
    fn commit<S: Storage>(&mut self, tx: TxId, s: &mut S) -> Result<Vec<Ending>, HomeFault>
        requires home { IsHome self.old.home }
        requires node { self.old.node ≡ self.old.home.txs.node }
        requires open { is_open self.old.home.txs tx ≡ true }
        requires waits { pending_of self.old.home.txs tx ≡ None }
        requires below { AllByRecursion (IsBelowLast self.old.home.pool) (pages_written self.old.home tx) }
        requires sizes { HasSizes self.old.home.config (S.pages s.old) (S.logs s.old) (S.rooms s.old) }
        ensures refused { refused_as result ≡ None }
        ensures endings { IfOk result (λ ends. ends.items ≡ map told (commit tx (work_on self.old.home)).endings) }
        ensures home { OnOk result (self.new.home ≡ (commit tx (work_on self.old.home)).work.home) }
        ensures prepared { IsPrepared self.old → IsPrepared self.new }
        ensures err { OnErr result (self.new ≡ self.old) }
        ensures logs { CommitLogs self.old.home tx (result_err result) (S.faults s.old Call.Log) (S.faults s.new Call.Log) (S.failing s.old) (S.logs s.old) (S.logs s.new) }
        ensures decided { 1 ≤ length (pages_written self.old.home tx) → CommitDecided self.old.home tx (result_err result) (S.stops s.old) (S.failing s.old) (S.logs s.old) (S.logs s.new) }
        ensures stops { S.stops s.new ≡ stops_left (result_err result) (stops_done self.old.home.txs.node (S.stops s.old) (commit_calls self.old.home tx)) self.old.home.txs.node (S.stops s.old) }
        ensures failing { S.failing s.new ≡ failing_left (result_err result) (failing_done self.old.home.txs.node (S.failing s.old) (commit_calls self.old.home tx)) self.old.home.txs.node (S.failing s.old) }
        ensures pages { S.pages s.new ≡ S.pages s.old }
        ensures rooms { LoweredAtMost (S.rooms s.old) (S.rooms s.new) self.old.home.txs.node (length (commit_bytes self.old.home tx)) }
        ensures sizes { HasSizes self.old.home.config (S.pages s.new) (S.logs s.new) (S.rooms s.new) }
        ensures silent { pages_written self.old.home tx ≡ [] → (s.new ≡ s.old) × IsAbortFault result }
        ensures counts { (k : Kind) → S.faults s.old k ≤ S.faults s.new k }
        ensures cause { (k : Kind) (kept : Bool) → result_err result ≡ Some (failed k kept) → Rose (S.faults s.old k) (S.faults s.new k) }
    {
        let pages = self.pages_written(tx)?;
        let ends = self.commit_endings(tx)?;
        self.log_commit(tx, pages.as_slice(), s)?;
        self.finish_commit(tx, pages.as_slice(), ends.as_slice());
        Ok(ends)
    }

    /// Forces the record of a transaction, where it wrote a page; these are its pages.
    fn log_commit<S: Storage>(&self, tx: TxId, pages: &[PageNo], s: &mut S) -> Result<(), HomeFault>
        requires home { IsHome self.now.home }
        requires node { self.now.node ≡ self.now.home.txs.node }
        requires open { is_open self.now.home.txs tx ≡ true }
        requires waits { pending_of self.now.home.txs tx ≡ None }
        requires below { AllByRecursion (IsBelowLast self.now.home.pool) (pages_written self.now.home tx) }
        requires pages { pages.now ≡ pages_written self.now.home tx }
        requires sizes { HasSizes self.now.home.config (S.pages s.old) (S.logs s.old) (S.rooms s.old) }
        ensures refused { refused_as result ≡ None }
        ensures logs { CommitLogs self.now.home tx (result_err result) (S.faults s.old Call.Log) (S.faults s.new Call.Log) (S.failing s.old) (S.logs s.old) (S.logs s.new) }
        ensures decided { 1 ≤ length (pages_written self.now.home tx) → CommitDecided self.now.home tx (result_err result) (S.stops s.old) (S.failing s.old) (S.logs s.old) (S.logs s.new) }
        ensures stops { S.stops s.new ≡ stops_left (result_err result) (stops_done self.now.home.txs.node (S.stops s.old) (commit_calls self.now.home tx)) self.now.home.txs.node (S.stops s.old) }
        ensures failing { S.failing s.new ≡ failing_left (result_err result) (failing_done self.now.home.txs.node (S.failing s.old) (commit_calls self.now.home tx)) self.now.home.txs.node (S.failing s.old) }
        ensures pages { S.pages s.new ≡ S.pages s.old }
        ensures rooms { LoweredAtMost (S.rooms s.old) (S.rooms s.new) self.now.home.txs.node (length (commit_bytes self.now.home tx)) }
        ensures sizes { HasSizes self.now.home.config (S.pages s.new) (S.logs s.new) (S.rooms s.new) }
        ensures silent { pages_written self.now.home tx ≡ [] → (s.new ≡ s.old) × (result_err result ≡ None) }
        ensures counts { (k : Kind) → S.faults s.old k ≤ S.faults s.new k }
        ensures cause { (k : Kind) (kept : Bool) → result_err result ≡ Some (failed k kept) → Rose (S.faults s.old k) (S.faults s.new k) }
    {
        if pages.is_empty() {
            return Ok(());
        }
        self.force_record(tx, pages, s)
    }

    /// Forces the record of a transaction that wrote these pages. All memory for it is taken before.
    fn force_record<S: Storage>(
        &self,
        tx: TxId,
        pages: &[PageNo],
        s: &mut S,
    ) -> Result<(), HomeFault>
        requires home { IsHome self.now.home }
        requires node { self.now.node ≡ self.now.home.txs.node }
        requires open { is_open self.now.home.txs tx ≡ true }
        requires waits { pending_of self.now.home.txs tx ≡ None }
        requires below { AllByRecursion (IsBelowLast self.now.home.pool) (pages_written self.now.home tx) }
        requires pages { pages.now ≡ pages_written self.now.home tx }
        requires some { 1 ≤ length pages.now }
        requires sizes { HasSizes self.now.home.config (S.pages s.old) (S.logs s.old) (S.rooms s.old) }
        ensures refused { refused_as result ≡ None }
        ensures logs { LogsLeft (result_err result) (with_appended (S.logs s.old) self.now.home.txs.node (commit_bytes self.now.home tx)) self.now.home.txs.node (commit_bytes self.now.home tx) (Unasked (S.faults s.old Call.Log) (S.faults s.new Call.Log) (S.failing s.old) self.now.home.txs.node) (S.logs s.old) (S.logs s.new) }
        ensures decided { CommitDecided self.now.home tx (result_err result) (S.stops s.old) (S.failing s.old) (S.logs s.old) (S.logs s.new) }
        ensures stops { S.stops s.new ≡ stops_left (result_err result) (after_change (S.stops s.old) self.now.home.txs.node) self.now.home.txs.node (S.stops s.old) }
        ensures failing { S.failing s.new ≡ failing_left (result_err result) (after_read (S.failing s.old) self.now.home.txs.node) self.now.home.txs.node (S.failing s.old) }
        ensures pages { S.pages s.new ≡ S.pages s.old }
        ensures rooms { LoweredAtMost (S.rooms s.old) (S.rooms s.new) self.now.home.txs.node (length (commit_bytes self.now.home tx)) }
        ensures sizes { HasSizes self.now.home.config (S.pages s.new) (S.logs s.new) (S.rooms s.new) }
        ensures counts { (k : Kind) → S.faults s.old k ≤ S.faults s.new k }
        ensures cause { (k : Kind) (kept : Bool) → result_err result ≡ Some (failed k kept) → Rose (S.faults s.old k) (S.faults s.new k) }
    {
        let record = self.record(tx, pages)?;
        let bytes = redo_log::encode(self.alloc, &self.config, &record)?;
        s.room(self.me, bytes.len() as u64)?;
        force(s, self.me, bytes.as_slice())
    }

    /// The private copies of these pages, which are those that the transaction wrote, become their
    /// copies, and it is closed. It takes no memory.
    fn finish_commit(&mut self, tx: TxId, pages: &[PageNo], ends: &[Ending])
        requires home { IsHome self.old.home }
        requires open { is_open self.old.home.txs tx ≡ true }
        requires waits { pending_of self.old.home.txs tx ≡ None }
        requires below { AllByRecursion (IsBelowLast self.old.home.pool) (pages_written self.old.home tx) }
        requires pages { pages.now ≡ pages_written self.old.home tx }
        requires ends { ends.now ≡ map told (endings self.old.home tx true) }
        ensures home { self.new.home ≡ closed self.old.home tx (publish_all self.old.home tx) }
        ensures prepared { IsPrepared self.old → IsPrepared self.new }
    {
        publish_all(&mut self.pool, &self.txs, tx, pages);
        self.close_tx(tx, ends);
    }

    /// The first reason against a commit.
    #[tactic(auto, unfolding(home_laws::specs::RefusedEnds::commit_refusal))]
    fn commit_refusal(&self, tx: TxId) -> Option<Reason>
        requires home { IsHome self.now.home }
        ensures answer { result ≡ commit_refusal tx self.now.home }
        ensures below { result ≡ None → AllByRecursion (IsBelowLast self.now.home.pool) (pages_written self.now.home tx) }
    {
        if !self.is_open(tx) {
            return Some(Reason::NoTx);
        }
        if self.txs.pending(tx).is_some() {
            return Some(Reason::TxWaits);
        }
        if self.at_version_end(tx) {
            return Some(Reason::VersionEnd);
        }
        None
    }

    /// Whether a page that a transaction wrote, which doesn't wait, is at the last version.
    fn at_version_end(&self, tx: TxId) -> bool
        requires home { IsHome self.now.home }
        requires none { is_some (pending_of self.now.home.txs tx) ≡ false }
        ensures answer { result ≡ at_version_end self.now.home tx }
        ensures below { result ≡ false → AllByRecursion (IsBelowLast self.now.home.pool) (pages_written self.now.home tx) }
    {
        self.any_last(self.txs.locks(tx))
    }

    /// Whether the copy of a page with an exclusive lock is at the last version.
    fn any_last(&self, locks: &[Held]) -> bool
        ensures answer { result ≡ list_any (λ p. version_or (find self.now.home.pool p) == 2 ^ 64 - 1) (exclusive_pages locks.now) }
        ensures below { result ≡ false → AllByRecursion (IsBelowLast self.now.home.pool) (exclusive_pages locks.now) }
    {
        for lock in locks {
            if self.is_last(lock) {
                return true;
            }
        }
        false
    }

    /// Whether a lock is exclusive, and the copy of its page is at the last version.
    fn is_last(&self, lock: &Held) -> bool
        ensures answer { result ≡ (is_exclusive lock.now.mode && version_or (find self.now.home.pool lock.now.page) == 2 ^ 64 - 1) }
        ensures below { result ≡ false → is_exclusive lock.now.mode ≡ true → IsBelowLast self.now.home.pool lock.now.page }
    {
        match lock.mode {
            Mode::Shared => false,
            Mode::Exclusive => match self.pool.find(lock.page) {
                None => false,
                Some(version) => version == u64::MAX,
            },
        }
    }
}
