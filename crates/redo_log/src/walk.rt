ghost use Rattle.std.specs.Prelude.{◌≡◌, ◌≢◌, ℕ, ◌≤◌, ◌<◌, ◌+◌, ◌-◌, ◌==◌, [], List, Option, Some, None, Ok, Err, IfOk, OnOk, IfErr, IsOk, true, false, length};
ghost use Rattle.disk_model.specs.Disk.{IsIn};
ghost use Rattle.disk_model.specs.Causes.{HasCauses};
ghost use Rattle.text_rules.specs.LogRecord.{whole_len};
ghost use Rattle.redo_log.specs.Told.{IsLog, NoneFails};
ghost use Rattle.redo_log.specs.Placed.{placed_of};
ghost use Rattle.redo_log.specs.Walks.{Stands, Reads, opened, node_of, to_come, first_seen, after_first, whole_after, left_of};
ghost use Rattle.redo_log.specs.Steps.{Enters, Ends};
ghost use Rattle.text_rules.specs.FieldBytes.{pick};

use crate::entries::{pass_record, read_entry};
use crate::reader::{Halt, Reader};
use disk_model::{Call, Storage};
use pcl_base::{Config, Failed, NodeNo, Seen};
use std::marker::Model;

/// A walk over the log of a node: its answers are the changed pages of the whole records, in log
/// order. It reads the log in pieces of at most 4,096 bytes, and takes no memory.
#[derive(Drop)]
pub struct Walk {
    config: Config,
    reader: Reader,
    is_measured: bool,
    whole: u64,
    pending: u32,
    low: u32,
    format: bool,
}

impl Model for Walk {
    ghost use Rattle.std.specs.Prelude.{◌≤◌, ◌≡◌, false};
    ghost use Rattle.redo_log.specs.Walks.{Standing};

    ghost Value = { Standing };

    ghost view = { λ w. record { config = w.config; reading = w.reader; is_measured = w.is_measured; whole = w.whole; pending = w.pending; low = w.low; format = w.format } };

    ghost invariant = { λ w. (w.whole ≤ w.reader.end) × (w.is_measured ≡ false → w.whole ≡ 0) × (w.is_measured ≡ false → w.pending ≡ 0) };
}

impl Walk {
    /// A walk that stands at the start of a node's log. The log is read by later calls alone.
    pub fn open(config: &Config, node: NodeNo) -> Walk
        ensures value { result ≡ opened config.now node }
        ensures all { (log : List ℕ) → to_come result log ≡ placed_of config.now log }
        ensures stands { (log : List ℕ) → Stands result log }
    {
        Walk {
            config: *config,
            reader: Reader::open(node),
            is_measured: false,
            whole: 0,
            pending: 0,
            low: 0,
            format: false,
        }
    }

    /// The next changed page of the whole records, in log order. None comes exactly where every
    /// changed page of the whole records was answered, and from then on. A record is known to be
    /// whole before its first page is answered. The log must not change between two calls of a
    /// walk.
    ///
    /// `Failed` comes only where the storage's count of `Log` rose; the walk is then given up.
    pub fn next<S: Storage>(&mut self, s: &mut S, by: NodeNo) -> Result<Option<Seen>, Failed>
        requires by { IsIn (S.logs s.old) by }
        requires node { IsIn (S.logs s.old) (node_of self.old) }
        requires stands { (log : List ℕ) → IsLog (S.logs s.old) (node_of self.old) log → Stands self.old log }
        ensures value { IfOk result (λ o. (log : List ℕ) → IsLog (S.logs s.old) (node_of self.old) log → o ≡ first_seen (to_come self.old log)) }
        ensures rest { OnOk result ((log : List ℕ) → IsLog (S.logs s.old) (node_of self.old) log → to_come self.new log ≡ after_first (to_come self.old log)) }
        ensures whole { OnOk result ((log : List ℕ) → IsLog (S.logs s.old) (node_of self.old) log → self.new.whole ≡ whole_after self.old.whole (to_come self.old log)) }
        ensures last { IfOk result (λ o. o ≡ None → (log : List ℕ) → IsLog (S.logs s.old) (node_of self.old) log → self.new.whole ≡ whole_len self.old.config log) }
        ensures stands { OnOk result ((log : List ℕ) → IsLog (S.logs s.old) (node_of self.old) log → Stands self.new log) }
        ensures page { IfOk result (λ o. (x : _) → o ≡ Some x → x.page < self.old.config.pages) }
        ensures config { self.new.config ≡ self.old.config }
        ensures node { node_of self.new ≡ node_of self.old }
        ensures pages { S.pages s.new ≡ S.pages s.old }
        ensures logs { S.logs s.new ≡ S.logs s.old }
        ensures rooms { S.rooms s.new ≡ S.rooms s.old }
        ensures stops { S.stops s.new ≡ S.stops s.old }
        ensures calm { (l : List (Option ℕ)) → NoneFails (S.failing s.old) by l → NoneFails (S.failing s.new) by l }
        ensures quiet { (l : List (Option ℕ)) → NoneFails (S.failing s.old) by l → IsOk result }
        ensures cause { HasCauses Call.Log (S.faults s.old) (S.faults s.new) result }
    {
        if self.pending > 0 {
            return self.answer(s, by);
        }
        if self.is_measured {
            return self.onward(s, by);
        }
        self.reader.measure(s, by)?;
        self.is_measured = true;
        self.onward(s, by)
    }

    /// The first page of the next record, where a whole one is there.
    fn onward<S: Storage>(&mut self, s: &mut S, by: NodeNo) -> Result<Option<Seen>, Failed>
        requires by { IsIn (S.logs s.old) by }
        requires node { IsIn (S.logs s.old) (node_of self.old) }
        requires measured { self.old.is_measured ≡ true }
        requires pending { self.old.pending ≡ 0 }
        requires stands { (log : List ℕ) → IsLog (S.logs s.old) (node_of self.old) log → Stands self.old log }
        ensures value { IfOk result (λ o. (log : List ℕ) → IsLog (S.logs s.old) (node_of self.old) log → o ≡ first_seen (to_come self.old log)) }
        ensures rest { OnOk result ((log : List ℕ) → IsLog (S.logs s.old) (node_of self.old) log → to_come self.new log ≡ after_first (to_come self.old log)) }
        ensures whole { OnOk result ((log : List ℕ) → IsLog (S.logs s.old) (node_of self.old) log → self.new.whole ≡ whole_after self.old.whole (to_come self.old log)) }
        ensures last { IfOk result (λ o. o ≡ None → (log : List ℕ) → IsLog (S.logs s.old) (node_of self.old) log → self.new.whole ≡ whole_len self.old.config log) }
        ensures stands { OnOk result ((log : List ℕ) → IsLog (S.logs s.old) (node_of self.old) log → Stands self.new log) }
        ensures page { IfOk result (λ o. (x : _) → o ≡ Some x → x.page < self.old.config.pages) }
        ensures config { self.new.config ≡ self.old.config }
        ensures node { node_of self.new ≡ node_of self.old }
        ensures pages { S.pages s.new ≡ S.pages s.old }
        ensures logs { S.logs s.new ≡ S.logs s.old }
        ensures rooms { S.rooms s.new ≡ S.rooms s.old }
        ensures stops { S.stops s.new ≡ S.stops s.old }
        ensures calm { (l : List (Option ℕ)) → NoneFails (S.failing s.old) by l → NoneFails (S.failing s.new) by l }
        ensures quiet { (l : List (Option ℕ)) → NoneFails (S.failing s.old) by l → IsOk result }
        ensures cause { HasCauses Call.Log (S.faults s.old) (S.faults s.new) result }
    {
        if self.enter(s, by)? {
            return self.answer(s, by);
        }
        Ok(None)
    }

    /// Enters the next record, where a whole one is there.
    fn enter<S: Storage>(&mut self, s: &mut S, by: NodeNo) -> Result<bool, Failed>
        requires by { IsIn (S.logs s.old) by }
        requires node { IsIn (S.logs s.old) (node_of self.old) }
        requires measured { self.old.is_measured ≡ true }
        requires pending { self.old.pending ≡ 0 }
        requires stands { (log : List ℕ) → IsLog (S.logs s.old) (node_of self.old) log → Stands self.old log }
        ensures entered { IfOk result (λ is. is ≡ true → (1 ≤ self.new.pending) × ((log : List ℕ) → IsLog (S.logs s.old) (node_of self.old) log → Enters self.old self.new log)) }
        ensures ended { IfOk result (λ is. is ≡ false → (log : List ℕ) → IsLog (S.logs s.old) (node_of self.old) log → Ends self.old self.new log) }
        ensures config { self.new.config ≡ self.old.config }
        ensures node { node_of self.new ≡ node_of self.old }
        ensures measured { self.new.is_measured ≡ true }
        ensures pages { S.pages s.new ≡ S.pages s.old }
        ensures logs { S.logs s.new ≡ S.logs s.old }
        ensures rooms { S.rooms s.new ≡ S.rooms s.old }
        ensures stops { S.stops s.new ≡ S.stops s.old }
        ensures calm { (l : List (Option ℕ)) → NoneFails (S.failing s.old) by l → NoneFails (S.failing s.new) by l }
        ensures quiet { (l : List (Option ℕ)) → NoneFails (S.failing s.old) by l → IsOk result }
        ensures cause { HasCauses Call.Log (S.faults s.old) (S.faults s.new) result }
    {
        let start = self.whole;
        self.reader.widen(start);
        match pass_record(&mut self.reader, s, by, &self.config) {
            Ok(opening) => {
                self.pending = opening.count;
                self.low = 0;
                self.format = opening.whole;
                Ok(true)
            }
            Err(Halt::Stopped(_)) => {
                self.reader.stand(start, start);
                Ok(false)
            }
            Err(Halt::Failed) => Err(Failed),
        }
    }

    /// The next page of a record that is known to be whole.
    fn answer<S: Storage>(&mut self, s: &mut S, by: NodeNo) -> Result<Option<Seen>, Failed>
        requires by { IsIn (S.logs s.old) by }
        requires node { IsIn (S.logs s.old) (node_of self.old) }
        requires pending { 1 ≤ self.old.pending }
        requires stands { (log : List ℕ) → IsLog (S.logs s.old) (node_of self.old) log → Stands self.old log }
        ensures value { IfOk result (λ o. (log : List ℕ) → IsLog (S.logs s.old) (node_of self.old) log → o ≡ first_seen (to_come self.old log)) }
        ensures rest { OnOk result ((log : List ℕ) → IsLog (S.logs s.old) (node_of self.old) log → to_come self.new log ≡ after_first (to_come self.old log)) }
        ensures whole { OnOk result ((log : List ℕ) → IsLog (S.logs s.old) (node_of self.old) log → self.new.whole ≡ whole_after self.old.whole (to_come self.old log)) }
        ensures last { IfOk result (λ o. o ≡ None → (log : List ℕ) → IsLog (S.logs s.old) (node_of self.old) log → self.new.whole ≡ whole_len self.old.config log) }
        ensures stands { OnOk result ((log : List ℕ) → IsLog (S.logs s.old) (node_of self.old) log → Stands self.new log) }
        ensures page { IfOk result (λ o. (x : _) → o ≡ Some x → x.page < self.old.config.pages) }
        ensures config { self.new.config ≡ self.old.config }
        ensures node { node_of self.new ≡ node_of self.old }
        ensures pages { S.pages s.new ≡ S.pages s.old }
        ensures logs { S.logs s.new ≡ S.logs s.old }
        ensures rooms { S.rooms s.new ≡ S.rooms s.old }
        ensures stops { S.stops s.new ≡ S.stops s.old }
        ensures calm { (l : List (Option ℕ)) → NoneFails (S.failing s.old) by l → NoneFails (S.failing s.new) by l }
        ensures quiet { (l : List (Option ℕ)) → NoneFails (S.failing s.old) by l → IsOk result }
        ensures cause { HasCauses Call.Log (S.faults s.old) (S.faults s.new) result }
    {
        let place = self.reader.place();
        match read_entry(&mut self.reader, s, by, &self.config, self.format, self.low) {
            Ok(head) => {
                self.low = head.page + 1;
                self.pending -= 1;
                let end = self.reader.place();
                self.whole = whole_then(self.pending, end, self.whole);
                Ok(Some(Seen {
                    page: head.page,
                    version: head.version,
                    place,
                    whole: self.format,
                }))
            }
            Err(Halt::Stopped(_)) => Ok(None),
            Err(Halt::Failed) => Err(Failed),
        }
    }

    /// The length of the whole records all of whose pages were answered.
    pub fn whole(&self) -> u64
        ensures { result ≡ self.now.whole }
    {
        self.whole
    }
}

/// The length of the whole records that are answered: the record is, up to the end of the page
/// answered last, where no more of its pages are pending. To take that end and not the length that
/// the record tells lets the processor go on to the next record while it waits for this one.
fn whole_then(pending: u32, end: u64, whole: u64) -> u64
    ensures { result ≡ pick (pending == 0) end whole }
{
    if pending == 0 { end } else { whole }
}
