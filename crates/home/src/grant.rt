ghost use Rattle.std.specs.Prelude.{◌≡◌, ℕ, List, ◌<◌, ◌≤◌, ◌+◌, Some, None, true, false, length, IfSome, IfOk, IfErr, OnOk, OnErr, IsOk};
ghost use Rattle.pcl_base.specs.Faults.{Rose};
ghost use Rattle.pcl_base.specs.declared.trace.Call.{Call as CallKind};
ghost use Rattle.disk_model.specs.Disk.{HasSizes};
ghost use Rattle.disk_model.specs.Stops.{Fate, Done, Stopped, reading_fate};
ghost use Rattle.node_rules.specs.OpenTxs.{add, pending_of, waits_as};
ghost use Rattle.node_rules.specs.AccessRule.{granted, image_of};
ghost use Rattle.tx_table.specs.Counts.{wait_count};
ghost use Rattle.home_laws.specs.Homes.{IsHome};
ghost use Rattle.home.specs.Device.{work_on};
ghost use Rattle.home.specs.Grants.{work_at, Tells, ByImage, outcome, IsReadFault, is_read_failed, is_read, after_reading};
ghost use Rattle.home.specs.Moves.{MoveListView, Lists};
ghost use Rattle.home.specs.Parts.{IsPrepared};

use crate::fault::HomeFault;
use crate::home::Home;
use crate::parts::Parts;
use disk_model::{Call, Storage};
use pcl_base::{CopyPart, Held, Kind, Mode, PageNo, Reply, TxId, Version};

impl Home {
    /// An own page at a version is granted to a transaction of the node, which waits for it in this
    /// mode: it gets its lock, and its access is done. The page is read from disk where its copy has
    /// another version. It takes no memory.
    ///
    /// `Failed` of a read comes only where the count of reads rose, and `Differs` where the stored
    /// page has another number or version. Both leave all as before. Where the pages aren't told, the
    /// answer is that of the rule for some content of the page. The access rule is carried out here.
    pub fn grant_own<S: Storage>(
        &mut self,
        tx: TxId,
        page: PageNo,
        mode: Mode,
        version: Version,
        s: &mut S,
    ) -> Result<Reply, HomeFault>
        requires waits { waits_as (pending_of self.old.txs tx) page mode ≡ true }
        requires sizes { HasSizes self.old.config (S.pages s.old) (S.logs s.old) (S.rooms s.old) }
        ensures told { (ps : List (List ℕ)) → S.pages s.old ≡ Some ps → Tells (outcome (granted tx (record { page = page; mode = mode; kind = Kind.Own }) version None (work_at ps self.old))) result self.new }
        ensures image { IfOk result (λ r. ByImage page version None (λ i. outcome (granted tx (record { page = page; mode = mode; kind = Kind.Own }) version i (work_on self.old))) self.old r self.new) }
        ensures fault { IfErr result (IsReadFault page) }
        ensures err { OnErr result (self.new ≡ self.old) }
        ensures listed { (list : MoveListView) → Lists list self.old → Lists list self.new }
        ensures pages { S.pages s.new ≡ S.pages s.old }
        ensures logs { S.logs s.new ≡ S.logs s.old }
        ensures rooms { S.rooms s.new ≡ S.rooms s.old }
        ensures stops { S.stops s.new ≡ S.stops s.old }
        ensures failing { S.failing s.new ≡ after_reading (is_read page version None self.old) (S.failing s.old) self.old.txs.node }
        ensures done { reading_fate (S.failing s.old) self.old.txs.node ≡ Fate.Done → is_read_failed result ≡ false }
        ensures stopped { (kept : ℕ) → is_read page version None self.old ≡ true → reading_fate (S.failing s.old) self.old.txs.node ≡ Fate.Stopped kept → is_read_failed result ≡ true }
        ensures unread { is_read page version None self.old ≡ false → IsOk result }
        ensures counts { (k : CallKind) → S.faults s.old k ≤ S.faults s.new k }
        ensures cause { is_read_failed result ≡ true → Rose (S.faults s.old Call.Read) (S.faults s.new Call.Read) }
    {
        let kind = Kind::Own;
        let lock = Held { page, mode, kind };
        self.parts.grant(tx, lock, version, &CopyPart::OnDisk, s)
    }
}

impl Parts {
    /// What a transaction waits for is granted at a version: the slot comes to that version, and the
    /// access is done under its lock.
    pub(crate) fn grant<S: Storage>(
        &mut self,
        tx: TxId,
        lock: Held,
        version: Version,
        copy: &CopyPart,
        s: &mut S,
    ) -> Result<Reply, HomeFault>
        requires home { IsHome self.old.home }
        requires prepared { IsPrepared self.old }
        requires waits { waits_as (pending_of self.old.home.txs tx) lock.page lock.mode ≡ true }
        requires image { IfSome (image_of copy.now) (λ b. length b ≡ self.old.home.config.size) }
        requires sizes { HasSizes self.old.home.config (S.pages s.old) (S.logs s.old) (S.rooms s.old) }
        ensures told { (ps : List (List ℕ)) → S.pages s.old ≡ Some ps → Tells (outcome (granted tx lock version (image_of copy.now) (work_at ps self.old.home))) result self.new.home }
        ensures image { IfOk result (λ r. ByImage lock.page version (image_of copy.now) (λ i. outcome (granted tx lock version i (work_on self.old.home))) self.old.home r self.new.home) }
        ensures prepared { IsPrepared self.new }
        ensures right { OnOk result (wait_count self.new.home.txs.txs + 1 ≤ self.new.rights) }
        ensures txs { OnOk result (self.new.home.txs ≡ add self.old.home.txs tx lock) }
        ensures shelf { self.new.home.shelf ≡ self.old.home.shelf }
        ensures fault { IfErr result (IsReadFault lock.page) }
        ensures err { OnErr result (self.new ≡ self.old) }
        ensures pages { S.pages s.new ≡ S.pages s.old }
        ensures logs { S.logs s.new ≡ S.logs s.old }
        ensures rooms { S.rooms s.new ≡ S.rooms s.old }
        ensures stops { S.stops s.new ≡ S.stops s.old }
        ensures failing { S.failing s.new ≡ after_reading (is_read lock.page version (image_of copy.now) self.old.home) (S.failing s.old) self.old.home.txs.node }
        ensures done { reading_fate (S.failing s.old) self.old.home.txs.node ≡ Fate.Done → is_read_failed result ≡ false }
        ensures stopped { (kept : ℕ) → is_read lock.page version (image_of copy.now) self.old.home ≡ true → reading_fate (S.failing s.old) self.old.home.txs.node ≡ Fate.Stopped kept → is_read_failed result ≡ true }
        ensures unread { is_read lock.page version (image_of copy.now) self.old.home ≡ false → IsOk result }
        ensures counts { (k : CallKind) → S.faults s.old k ≤ S.faults s.new k }
        ensures cause { is_read_failed result ≡ true → Rose (S.faults s.old Call.Read) (S.faults s.new Call.Read) }
    {
        self.bring(lock.page, version, copy, s)?;
        Ok(self.finish(tx, lock))
    }
}
