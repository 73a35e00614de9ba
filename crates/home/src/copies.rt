ghost use Rattle.std.specs.Prelude.{◌≡◌, ◌≢◌, ℕ, ◌≤◌, None, Bool, true, false, Err};
ghost use Rattle.pcl_base.specs.Faults.{Rose};
ghost use Rattle.pcl_base.specs.declared.trace.Call.{Call as Kind};
ghost use Rattle.disk_model.specs.Disk.{HasSizes};
ghost use Rattle.node_rules.specs.Work.{write_back};
ghost use Rattle.home_laws.specs.Homes.{IsHome};
ghost use Rattle.home.specs.declared.fault.HomeFault.TheVariants.{Failed as failed, NoMemory as no_memory};
ghost use Rattle.home.specs.Device.{work_on, told_by, MadeIf, RoseIf};
ghost use Rattle.home.specs.Answers.{evict_refusal, flush_refusal, evict_copy, refused_as, home_after, Leaves, answer_if};

use crate::fault::HomeFault;
use crate::home::Home;
use crate::parts::Parts;
use disk_model::{Call, Storage};
use pcl_base::{PageNo, Reason};

impl Home {
    /// Evicts the page's copy, which is written before where it is dirty. It is refused with
    /// `NoPage`, `NoCopy` or `Pinned`, the first that holds. After `Failed` the copy is gone as well,
    /// and the stored page is the old one or that of the copy. Takes no memory.
    pub fn evict<S: Storage>(&mut self, page: PageNo, s: &mut S) -> Result<(), HomeFault>
        requires sizes { HasSizes self.old.config (S.pages s.old) (S.logs s.old) (S.rooms s.old) }
        ensures refused { refused_as result ≡ evict_refusal page self.old }
        ensures memory { result ≢ Err no_memory }
        ensures home { self.new ≡ home_after result self.old (evict_copy page (work_on self.old)).home }
        ensures made { Leaves self.old.txs.node result (evict_copy page (work_on self.old)).calls (told_by (S.pages s.old) (S.logs s.old) (S.stops s.old)) (told_by (S.pages s.new) (S.logs s.new) (S.stops s.new)) }
        ensures sizes { HasSizes self.old.config (S.pages s.new) (S.logs s.new) (S.rooms s.new) }
        ensures rooms { S.rooms s.new ≡ S.rooms s.old }
        ensures failing { S.failing s.new ≡ S.failing s.old }
        ensures counts { (k : Kind) → S.faults s.old k ≤ S.faults s.new k }
        ensures cause { (k : Kind) (kept : Bool) → result ≡ Err (failed k kept) → Rose (S.faults s.old k) (S.faults s.new k) }
    {
        match self.parts.evict_refusal(page) {
            Some(reason) => Err(HomeFault::Refused(reason)),
            None => {
                let written = self.parts.evict_copy(page, s);
                ended(written)
            }
        }
    }

    /// Writes the page's copy where it is dirty; it stays and is clean. It is refused with `NoPage` or
    /// `NoCopy`, the first that holds. After `Failed` the copy counts as clean as well, and the stored
    /// page is the old one or that of the copy. Takes no memory.
    pub fn flush<S: Storage>(&mut self, page: PageNo, s: &mut S) -> Result<(), HomeFault>
        requires sizes { HasSizes self.old.config (S.pages s.old) (S.logs s.old) (S.rooms s.old) }
        ensures refused { refused_as result ≡ flush_refusal page self.old }
        ensures memory { result ≢ Err no_memory }
        ensures home { self.new ≡ home_after result self.old (write_back page (work_on self.old)).home }
        ensures made { Leaves self.old.txs.node result (write_back page (work_on self.old)).calls (told_by (S.pages s.old) (S.logs s.old) (S.stops s.old)) (told_by (S.pages s.new) (S.logs s.new) (S.stops s.new)) }
        ensures sizes { HasSizes self.old.config (S.pages s.new) (S.logs s.new) (S.rooms s.new) }
        ensures rooms { S.rooms s.new ≡ S.rooms s.old }
        ensures failing { S.failing s.new ≡ S.failing s.old }
        ensures counts { (k : Kind) → S.faults s.old k ≤ S.faults s.new k }
        ensures cause { (k : Kind) (kept : Bool) → result ≡ Err (failed k kept) → Rose (S.faults s.old k) (S.faults s.new k) }
    {
        match self.parts.flush_refusal(page) {
            Some(reason) => Err(HomeFault::Refused(reason)),
            None => {
                let written = self.parts.write_back(page, s, true);
                ended(written)
            }
        }
    }
}

impl Parts {
    /// The page's copy, which no transaction pins, is written where it is dirty, and leaves. True where
    /// no write failed.
    fn evict_copy<S: Storage>(&mut self, page: PageNo, s: &mut S) -> bool
        requires none { evict_refusal page self.old.home ≡ None }
        requires size { self.old.home.pool.size ≡ self.old.home.config.size }
        requires sizes { HasSizes self.old.home.config (S.pages s.old) (S.logs s.old) (S.rooms s.old) }
        ensures home { self.new ≡ record self.old { home = (evict_copy page (work_on self.old.home)).home } }
        ensures made { MadeIf self.old.node true result (evict_copy page (work_on self.old.home)).calls (told_by (S.pages s.old) (S.logs s.old) (S.stops s.old)) (told_by (S.pages s.new) (S.logs s.new) (S.stops s.new)) }
        ensures sizes { HasSizes self.old.home.config (S.pages s.new) (S.logs s.new) (S.rooms s.new) }
        ensures rooms { S.rooms s.new ≡ S.rooms s.old }
        ensures failing { S.failing s.new ≡ S.failing s.old }
        ensures counts { (k : Kind) → S.faults s.old k ≤ S.faults s.new k }
        ensures cause { RoseIf true result (Rose (S.faults s.old Call.Write) (S.faults s.new Call.Write)) }
    {
        let written = self.write_back(page, s, true);
        self.evict(page);
        written
    }

    /// The first reason against an eviction of the page's copy.
    fn evict_refusal(&self, page: PageNo) -> Option<Reason>
        ensures { result ≡ evict_refusal page self.now.home }
    {
        if self.config.pages() <= page {
            return Some(Reason::NoPage);
        }
        if self.pool.find(page).is_none() {
            return Some(Reason::NoCopy);
        }
        if self.pool.pinned(page) {
            return Some(Reason::Pinned);
        }
        None
    }

    /// The first reason against writing the page's copy.
    fn flush_refusal(&self, page: PageNo) -> Option<Reason>
        ensures { result ≡ flush_refusal page self.now.home }
    {
        if self.config.pages() <= page {
            return Some(Reason::NoPage);
        }
        if self.pool.find(page).is_none() {
            return Some(Reason::NoCopy);
        }
        None
    }
}

/// The answer where all writes were done, or one of them failed.
pub(crate) fn ended(written: bool) -> Result<(), HomeFault>
    ensures { result ≡ answer_if written tt }
{
    if written {
        return Ok(());
    }
    Err(HomeFault::Failed {
        call: Call::Write,
        kept: false,
    })
}
