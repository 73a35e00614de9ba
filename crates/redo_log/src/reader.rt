ghost use Rattle.std.specs.Prelude.{◌≡◌, ◌≢◌, ℕ, ◌+◌, ◌-◌, ◌≤◌, ◌<◌, ◌^◌, [], List, length, take, slice_range, Option, Ok, Err, IsOk, IsErr, OnOk, IfErr, IfSome};
ghost use Rattle.disk_model.specs.Disk.{IsIn};
ghost use Rattle.disk_model.specs.Causes.{HasCauses};
ghost use Rattle.text_rules.specs.FieldBytes.{TooLong, piece};
ghost use Rattle.redo_log.specs.Told.{IsLog, NoneFails};
ghost use Rattle.redo_log.specs.Walks.{Reads, left_of};
ghost use Rattle.redo_log.specs.Halting.{halt_stop};

mod pieces;

use crate::fields::{Fault, Stopped};
use disk_model::{Call, Storage};
use pcl_base::{Failed, NodeNo};
use std::marker::Model;

/// Why reading a log in pieces gave up.
#[derive(Clone, Copy, Debug, PartialEq, Eq)]
pub(crate) enum Halt {
    /// A call of the storage failed.
    Failed,
    /// A field failed.
    Stopped(Stopped),
}

impl From<Failed> for Halt {
    ghost use Rattle.redo_log.specs.declared.reader.Halt.TheVariants.{Failed as a_failure};

    ghost from_gives = { λ _ e. e ≡ a_failure };

    fn from(_failed: Failed) -> Halt {
        Halt::Failed
    }
}

/// The bytes that are worth a call of their own: to pass over fewer costs less in one long piece.
const FAR: u64 = 256;

/// The bytes of a log from a place up to a limit, read in pieces. Behind bytes that were passed
/// over and are far more than a head (`is_far`) the next piece is short.
#[derive(Drop)]
pub(crate) struct Reader {
    node: NodeNo,
    place: u64,
    limit: u64,
    end: u64,
    from: u64,
    count: usize,
    is_far: bool,
    piece: [u8; 4096],
}

impl Model for Reader {
    ghost use Rattle.std.specs.Prelude.{◌≤◌, ◌+◌, ◌<◌, ◌^◌, take};
    ghost use Rattle.redo_log.specs.Walks.{Reading};

    ghost Value = { Reading };

    ghost view = { λ r. record { node = r.node; place = r.place; limit = r.limit; end = r.end; from = r.from; piece = take r.count r.piece } };

    ghost invariant = { λ r. (r.place ≤ r.limit) × (r.limit ≤ r.end) × (r.count ≤ 4096) };
}

impl Reader {
    /// A reader at the start of a node's log that has read nothing.
    pub(crate) fn open(node: NodeNo) -> Reader
        ensures { result ≡ record { node = node; place = 0; limit = 0; end = 0; from = 0; piece = [] } }
    {
        Reader {
            node,
            place: 0,
            limit: 0,
            end: 0,
            from: 0,
            count: 0,
            is_far: false,
            piece: [0; 4096],
        }
    }

    /// The place of the next byte.
    pub(crate) fn place(&self) -> u64
        ensures value { result ≡ self.now.place }
        ensures within { (self.now.place ≤ self.now.limit) × (self.now.limit ≤ self.now.end) }
    {
        self.place
    }

    /// Stands at a place with nothing at hand, and reads up to a limit.
    pub(crate) fn stand(&mut self, place: u64, limit: u64)
        requires within { (place ≤ limit) × (limit ≤ self.old.end) }
        ensures { self.new ≡ record self.old { place = place; limit = limit; from = 0; piece = [] } }
    {
        self.place = place;
        self.limit = limit;
        self.from = 0;
        self.count = 0;
    }

    /// Goes to a place up to the limit.
    pub(crate) fn go_to(&mut self, place: u64)
        requires { place ≤ self.old.limit }
        ensures place { self.new.place ≡ place }
        ensures fixed { (self.new.node ≡ self.old.node) × (self.new.end ≡ self.old.end) × (self.new.limit ≡ self.old.limit) }
        ensures reads { (log : List ℕ) → Reads self.old log → Reads self.new log }
    {
        self.place = place;
    }

    /// Goes to a place and reads up to the log's end.
    pub(crate) fn widen(&mut self, place: u64)
        requires { place ≤ self.old.end }
        ensures place { self.new.place ≡ place }
        ensures fixed { (self.new.node ≡ self.old.node) × (self.new.end ≡ self.old.end) × (self.new.limit ≡ self.old.end) }
        ensures reads { (log : List ℕ) → Reads self.old log → Reads self.new log }
    {
        self.place = place;
        self.limit = self.end;
    }

    /// Asks how long the log is, and stands at its start.
    pub(crate) fn measure<S: Storage>(&mut self, s: &mut S, by: NodeNo) -> Result<(), Failed>
        requires by { IsIn (S.logs s.old) by }
        requires node { IsIn (S.logs s.old) self.old.node }
        ensures end { OnOk result ((log : List ℕ) → IsLog (S.logs s.old) self.old.node log → self.new.end ≡ length log) }
        ensures fits { OnOk result (self.new.end < 2 ^ 64) }
        ensures start { OnOk result ((self.new.place ≡ 0) × (self.new.limit ≡ 0) × (self.new.from ≡ self.old.from) × (self.new.piece ≡ self.old.piece)) }
        ensures node { self.new.node ≡ self.old.node }
        ensures failed { IsErr result → self.new ≡ self.old }
        ensures kept { (S.pages s.new ≡ S.pages s.old) × (S.rooms s.new ≡ S.rooms s.old) × (S.stops s.new ≡ S.stops s.old) }
        ensures logs { S.logs s.new ≡ S.logs s.old }
        ensures calm { (l : List (Option ℕ)) → NoneFails (S.failing s.old) by l → NoneFails (S.failing s.new) by l }
        ensures quiet { (l : List (Option ℕ)) → NoneFails (S.failing s.old) by l → IsOk result }
        ensures cause { HasCauses Call.Log (S.faults s.old) (S.faults s.new) result }
    {
        let end = s.log_len(by, self.node)?;
        self.place = 0;
        self.limit = 0;
        self.end = end;
        Ok(())
    }

    /// A stop at the field that comes next.
    pub(crate) fn stop(&self, fault: Fault) -> Halt
        ensures value { result ≡ Halt.Stopped (record { fault = fault; left = self.now.limit - self.now.place }) }
        ensures left { (log : List ℕ) → Reads self.now log → length (left_of self.now log) ≡ self.now.limit - self.now.place }
    {
        Halt::Stopped(Stopped {
            fault,
            left: (self.limit - self.place) as usize,
        })
    }

    /// Passes over bytes.
    pub(crate) fn skip(&mut self, count: u64) -> Result<(), Halt>
        ensures ok { OnOk result ((log : List ℕ) → Reads self.old log → piece count (left_of self.old log) ≡ Ok (take count (left_of self.old log), left_of self.new log)) }
        ensures err { IfErr result (λ e. IfSome (halt_stop e) (λ t. (log : List ℕ) → Reads self.old log → piece count (left_of self.old log) ≡ Err t)) }
        ensures reads { OnOk result ((log : List ℕ) → Reads self.old log → Reads self.new log) }
        ensures place { OnOk result (self.new.place ≡ self.old.place + count) }
        ensures fixed { (self.new.node ≡ self.old.node) × (self.new.end ≡ self.old.end) × (self.new.limit ≡ self.old.limit) }
        ensures still { result ≢ Err Halt.Failed }
    {
        if self.limit - self.place < count {
            return Err(self.stop(Fault::Short));
        }
        self.place += count;
        self.is_far = count > FAR;
        Ok(())
    }

    /// Reads no further than so many bytes on.
    pub(crate) fn narrow(&mut self, count: u64) -> Result<(), Halt>
        ensures ok { OnOk result ((log : List ℕ) → Reads self.old log → piece count (left_of self.old log) ≡ Ok (left_of self.new log, slice_range log self.new.limit self.old.limit)) }
        ensures err { IfErr result (λ e. IfSome (halt_stop e) (λ t. (log : List ℕ) → Reads self.old log → piece count (left_of self.old log) ≡ Err t)) }
        ensures reads { OnOk result ((log : List ℕ) → Reads self.old log → Reads self.new log) }
        ensures limit { OnOk result ((self.new.limit ≡ self.old.place + count) × (self.new.limit ≤ self.old.limit)) }
        ensures fixed { (self.new.node ≡ self.old.node) × (self.new.end ≡ self.old.end) × (self.new.place ≡ self.old.place) }
        ensures still { result ≢ Err Halt.Failed }
    {
        if self.limit - self.place < count {
            return Err(self.stop(Fault::Short));
        }
        self.limit = self.place + count;
        Ok(())
    }

    /// Nothing more up to the limit.
    pub(crate) fn at_limit(&self) -> Result<(), Halt>
        ensures ok { OnOk result ((log : List ℕ) → Reads self.now log → left_of self.now log ≡ []) }
        ensures err { IfErr result (λ e. IfSome (halt_stop e) (λ t. (log : List ℕ) → Reads self.now log → (t ≡ record { fault = TooLong; left = length (left_of self.now log) }) × (0 < length (left_of self.now log)))) }
        ensures place { OnOk result (self.now.place ≡ self.now.limit) }
        ensures still { result ≢ Err Halt.Failed }
    {
        if self.place == self.limit {
            return Ok(());
        }
        Err(self.stop(Fault::TooLong))
    }

    /// Goes to a place, or to the log's end where that comes first, and reads up to the log's end.
    pub(crate) fn reach(&mut self, place: u64)
        ensures place { place ≤ self.old.end → self.new.place ≡ place }
        ensures fixed { (self.new.node ≡ self.old.node) × (self.new.end ≡ self.old.end) × (self.new.limit ≡ self.old.end) }
        ensures reads { (log : List ℕ) → Reads self.old log → Reads self.new log }
    {
        self.place = place.min(self.end);
        self.limit = self.end;
    }
}
