//! The bytes of a log, piece by piece.
ghost use Rattle.std.specs.Prelude.{◌≡◌, ◌≢◌, ℕ, ◌+◌, ◌-◌, ◌≤◌, ◌<◌, List, length, Option, true, ◌⊎◌, Ok, Err, IsOk, OnOk, IfOk, IfErr, IfSome};
ghost use Rattle.pcl_base.specs.Faults.{Rose};
ghost use Rattle.pcl_base.specs.declared.trace.Call.{Call as Kind};
ghost use Rattle.disk_model.specs.Disk.{IsIn};
ghost use Rattle.disk_model.specs.Causes.{HasCauses};
ghost use Rattle.text_rules.specs.FieldBytes.{piece};
ghost use Rattle.redo_log.specs.Told.{IsLog, NoneFails};
ghost use Rattle.redo_log.specs.Walks.{Reads, left_of};
ghost use Rattle.redo_log.specs.Halting.{halt_stop};

use crate::fields::Fault;
use crate::reader::{Halt, Reader};
use disk_model::{Call, Storage};
use pcl_base::{Failed, NodeNo};

/// The most bytes of a piece.
const PIECE: u64 = 4_096;

/// The bytes of a piece behind many bytes that were passed over. The heads of a record, of its
/// first entry and of that one's first range take 35.
const HEAD: u64 = 36;

impl Reader {
    /// The next `N` bytes, which are at most 36.
    pub(crate) fn bytes<const N: usize, S: Storage>(
        &mut self,
        s: &mut S,
        by: NodeNo,
    ) -> Result<[u8; N], Halt>
        requires by { IsIn (S.logs s.old) by }
        requires node { IsIn (S.logs s.old) self.old.node }
        requires reads { (log : List ℕ) → IsLog (S.logs s.old) self.old.node log → Reads self.old log }
        requires some { 1 ≤ N }
        requires small { N ≤ 36 }
        ensures ok { IfOk result (λ bytes. (log : List ℕ) → IsLog (S.logs s.old) self.old.node log → piece N (left_of self.old log) ≡ Ok (bytes, left_of self.new log)) }
        ensures err { IfErr result (λ e. IfSome (halt_stop e) (λ t. (log : List ℕ) → IsLog (S.logs s.old) self.old.node log → piece N (left_of self.old log) ≡ Err t)) }
        ensures place { OnOk result (self.new.place ≡ self.old.place + N) }
        ensures reads { OnOk result ((log : List ℕ) → IsLog (S.logs s.old) self.old.node log → Reads self.new log) }
        ensures limit { self.new.limit ≡ self.old.limit }
        ensures fixed { (self.new.node ≡ self.old.node) × (self.new.end ≡ self.old.end) }
        ensures kept { (S.pages s.new ≡ S.pages s.old) × (S.rooms s.new ≡ S.rooms s.old) × (S.stops s.new ≡ S.stops s.old) }
        ensures logs { S.logs s.new ≡ S.logs s.old }
        ensures calm { (l : List (Option ℕ)) → NoneFails (S.failing s.old) by l → NoneFails (S.failing s.new) by l }
        ensures quiet { (l : List (Option ℕ)) → NoneFails (S.failing s.old) by l → result ≢ Err Halt.Failed }
        ensures counts { (k : Kind) → S.faults s.old k ≤ S.faults s.new k }
        ensures cause { result ≡ Err Halt.Failed → Rose (S.faults s.old Call.Log) (S.faults s.new Call.Log) }
    {
        self.ready(s, by, N)?;
        Ok(self.taken::<N>())
    }

    /// Copies the next bytes, of which there are as many as `out` has: 1 to 4,096.
    pub(crate) fn copy<S: Storage>(
        &mut self,
        s: &mut S,
        by: NodeNo,
        out: &mut [u8],
    ) -> Result<(), Halt>
        requires by { IsIn (S.logs s.old) by }
        requires node { IsIn (S.logs s.old) self.old.node }
        requires reads { (log : List ℕ) → IsLog (S.logs s.old) self.old.node log → Reads self.old log }
        requires some { 1 ≤ length out.old }
        requires most { length out.old ≤ 4096 }
        ensures ok { OnOk result ((log : List ℕ) → IsLog (S.logs s.old) self.old.node log → piece (length out.old) (left_of self.old log) ≡ Ok (out.new, left_of self.new log)) }
        ensures err { IfErr result (λ e. IfSome (halt_stop e) (λ t. (log : List ℕ) → IsLog (S.logs s.old) self.old.node log → piece (length out.old) (left_of self.old log) ≡ Err t)) }
        ensures reads { OnOk result ((log : List ℕ) → IsLog (S.logs s.old) self.old.node log → Reads self.new log) }
        ensures limit { self.new.limit ≡ self.old.limit }
        ensures fixed { (self.new.node ≡ self.old.node) × (self.new.end ≡ self.old.end) }
        ensures kept { (S.pages s.new ≡ S.pages s.old) × (S.rooms s.new ≡ S.rooms s.old) × (S.stops s.new ≡ S.stops s.old) }
        ensures logs { S.logs s.new ≡ S.logs s.old }
        ensures calm { (l : List (Option ℕ)) → NoneFails (S.failing s.old) by l → NoneFails (S.failing s.new) by l }
        ensures quiet { (l : List (Option ℕ)) → NoneFails (S.failing s.old) by l → result ≢ Err Halt.Failed }
        ensures counts { (k : Kind) → S.faults s.old k ≤ S.faults s.new k }
        ensures cause { result ≡ Err Halt.Failed → Rose (S.faults s.old Call.Log) (S.faults s.new Call.Log) }
    {
        let count = out.len();
        if self.limit - self.place < count as u64 {
            return Err(self.stop(Fault::Short));
        }
        if self.shows(count) {
            self.copy_shown(out);
            return Ok(());
        }
        s.read_log(by, self.node, self.place, out)?;
        self.place += count as u64;
        Ok(())
    }

    /// Makes so many of the next bytes be at hand.
    fn ready<S: Storage>(&mut self, s: &mut S, by: NodeNo, count: usize) -> Result<(), Halt>
        requires by { IsIn (S.logs s.old) by }
        requires node { IsIn (S.logs s.old) self.old.node }
        requires reads { (log : List ℕ) → IsLog (S.logs s.old) self.old.node log → Reads self.old log }
        requires some { 1 ≤ count }
        requires small { count ≤ 36 }
        ensures from { OnOk result (self.new.from ≤ self.new.place) }
        ensures there { OnOk result (self.new.place + count ≤ self.new.from + length self.new.piece) }
        ensures within { OnOk result (self.new.place + count ≤ self.new.limit) }
        ensures err { IfErr result (λ e. IfSome (halt_stop e) (λ t. (log : List ℕ) → IsLog (S.logs s.old) self.old.node log → piece count (left_of self.old log) ≡ Err t)) }
        ensures place { self.new.place ≡ self.old.place }
        ensures reads { OnOk result ((log : List ℕ) → IsLog (S.logs s.old) self.old.node log → Reads self.new log) }
        ensures limit { self.new.limit ≡ self.old.limit }
        ensures fixed { (self.new.node ≡ self.old.node) × (self.new.end ≡ self.old.end) }
        ensures kept { (S.pages s.new ≡ S.pages s.old) × (S.rooms s.new ≡ S.rooms s.old) × (S.stops s.new ≡ S.stops s.old) }
        ensures logs { S.logs s.new ≡ S.logs s.old }
        ensures calm { (l : List (Option ℕ)) → NoneFails (S.failing s.old) by l → NoneFails (S.failing s.new) by l }
        ensures quiet { (l : List (Option ℕ)) → NoneFails (S.failing s.old) by l → result ≢ Err Halt.Failed }
        ensures counts { (k : Kind) → S.faults s.old k ≤ S.faults s.new k }
        ensures cause { result ≡ Err Halt.Failed → Rose (S.faults s.old Call.Log) (S.faults s.new Call.Log) }
    {
        if self.limit - self.place < count as u64 {
            return Err(self.stop(Fault::Short));
        }
        if self.shows(count) {
            return Ok(());
        }
        self.fill(s, by)?;
        Ok(())
    }

    /// Whether so many of the next bytes are at hand.
    fn shows(&self, count: usize) -> bool
        ensures { result ≡ true → (self.now.from ≤ self.now.place) × (self.now.place + count ≤ self.now.from + length self.now.piece) }
    {
        count <= self.count
            && self.from <= self.place
            && self.place - self.from <= (self.count - count) as u64
    }

    /// How long the next piece is to be.
    fn ahead(&self) -> u64
        ensures { (result ≡ 36) ⊎ (result ≡ 4096) }
    {
        if self.is_far { HEAD } else { PIECE }
    }

    /// Reads the piece that begins at the place of the next byte.
    fn fill<S: Storage>(&mut self, s: &mut S, by: NodeNo) -> Result<(), Failed>
        requires by { IsIn (S.logs s.old) by }
        requires node { IsIn (S.logs s.old) self.old.node }
        requires reads { (log : List ℕ) → IsLog (S.logs s.old) self.old.node log → Reads self.old log }
        requires some { self.old.place < self.old.end }
        ensures from { OnOk result (self.new.from ≡ self.old.place) }
        ensures enough { OnOk result ((n : ℕ) → n ≤ 36 → self.old.place + n ≤ self.old.end → n ≤ length self.new.piece) }
        ensures reads { OnOk result ((log : List ℕ) → IsLog (S.logs s.old) self.old.node log → Reads self.new log) }
        ensures place { self.new.place ≡ self.old.place }
        ensures limit { self.new.limit ≡ self.old.limit }
        ensures fixed { (self.new.node ≡ self.old.node) × (self.new.end ≡ self.old.end) }
        ensures kept { (S.pages s.new ≡ S.pages s.old) × (S.rooms s.new ≡ S.rooms s.old) × (S.stops s.new ≡ S.stops s.old) }
        ensures logs { S.logs s.new ≡ S.logs s.old }
        ensures calm { (l : List (Option ℕ)) → NoneFails (S.failing s.old) by l → NoneFails (S.failing s.new) by l }
        ensures quiet { (l : List (Option ℕ)) → NoneFails (S.failing s.old) by l → IsOk result }
        ensures cause { HasCauses Call.Log (S.faults s.old) (S.faults s.new) result }
    {
        let most = self.ahead();
        let count = (self.end - self.place).min(most) as usize;
        s.read_log(by, self.node, self.place, &mut self.piece[..count])?;
        self.from = self.place;
        self.count = count;
        self.is_far = false;
        Ok(())
    }

    /// The next bytes, which are at hand.
    fn taken<const N: usize>(&mut self) -> [u8; N]
        requires small { N ≤ 36 }
        requires from { self.old.from ≤ self.old.place }
        requires there { self.old.place + N ≤ self.old.from + length self.old.piece }
        requires within { self.old.place + N ≤ self.old.limit }
        ensures value { (log : List ℕ) → Reads self.old log → piece N (left_of self.old log) ≡ Ok (result, left_of self.new log) }
        ensures place { self.new ≡ record self.old { place = self.old.place + N } }
    {
        let at = (self.place - self.from) as usize;
        let mut bytes = [0u8; N];
        bytes.copy_from_slice(&self.piece[at..at + N]);
        self.place += N as u64;
        bytes
    }

    /// Copies the next bytes, which are at hand.
    fn copy_shown(&mut self, out: &mut [u8])
        requires from { self.old.from ≤ self.old.place }
        requires there { self.old.place + length out.old ≤ self.old.from + length self.old.piece }
        requires within { self.old.place + length out.old ≤ self.old.limit }
        ensures value { (log : List ℕ) → Reads self.old log → piece (length out.old) (left_of self.old log) ≡ Ok (out.new, left_of self.new log) }
        ensures place { self.new ≡ record self.old { place = self.old.place + length out.old } }
    {
        let count = out.len();
        let at = (self.place - self.from) as usize;
        out.copy_from_slice(&self.piece[at..at + count]);
        self.place += count as u64;
    }
}
