ghost use Rattle.std.specs.Prelude.{◌≡◌, ◌≢◌, ℕ, ◌≤◌, ◌<◌, None, Bool, true, Err, length};
ghost use Rattle.pcl_base.specs.Faults.{Rose};
ghost use Rattle.pcl_base.specs.declared.trace.Call.{Call as Kind};
ghost use Rattle.disk_model.specs.Disk.{HasSizes};
ghost use Rattle.node_rules.specs.OwnerRule.{put_change};
ghost use Rattle.node_rules.specs.Work.{write_page};
ghost use Rattle.buffer_pool.specs.Buffer.{IsBuffer};
ghost use Rattle.home.specs.declared.fault.HomeFault.TheVariants.{Failed as failed, NoMemory as no_memory};
ghost use Rattle.home.specs.Device.{work_on, told_by, MadeIf, RoseIf};
ghost use Rattle.home.specs.Answers.{refused_as, Leaves};
ghost use Rattle.home.specs.Parts.{GoWell};
ghost use Rattle.home.specs.Changes.{has_frame};

use crate::copies::ended;
use crate::fault::HomeFault;
use crate::home::Home;
use crate::parts::Parts;
use crate::stored::write_stored;
use disk_model::{Call, Storage};
use pcl_base::{Change, PageNo};

impl Home {
    /// A change of a page, which was taken, goes into the page's slot as a dirty copy; without a slot
    /// into a frame that is free or can be freed; else it is written at once. It is never refused.
    /// After `Failed` the home is as if nothing had failed, and the stored pages are those up to the
    /// write that failed. Takes no memory. A part of the copy rule is carried out here.
    pub fn take_change<S: Storage>(
        &mut self,
        page: PageNo,
        change: &Change,
        s: &mut S,
    ) -> Result<(), HomeFault>
        requires page { page < self.old.config.pages }
        requires image { length change.now.image ≡ self.old.config.size }
        requires sizes { HasSizes self.old.config (S.pages s.old) (S.logs s.old) (S.rooms s.old) }
        ensures refused { refused_as result ≡ None }
        ensures memory { result ≢ Err no_memory }
        ensures home { self.new ≡ (put_change page change.now (work_on self.old)).home }
        ensures made { Leaves self.old.txs.node result (put_change page change.now (work_on self.old)).calls (told_by (S.pages s.old) (S.logs s.old) (S.stops s.old)) (told_by (S.pages s.new) (S.logs s.new) (S.stops s.new)) }
        ensures sizes { HasSizes self.old.config (S.pages s.new) (S.logs s.new) (S.rooms s.new) }
        ensures rooms { S.rooms s.new ≡ S.rooms s.old }
        ensures failing { S.failing s.new ≡ S.failing s.old }
        ensures counts { (k : Kind) → S.faults s.old k ≤ S.faults s.new k }
        ensures cause { (k : Kind) (kept : Bool) → result ≡ Err (failed k kept) → Rose (S.faults s.old k) (S.faults s.new k) }
    {
        let written = self.parts.take_change(page, change, s);
        ended(written)
    }
}

impl Parts {
    /// The same of the parts. True where no write failed.
    fn take_change<S: Storage>(&mut self, page: PageNo, change: &Change, s: &mut S) -> bool
        requires sound { IsBuffer self.old.home.pool }
        requires go { GoWell page self.old.home.config self.old.home.pool }
        requires size { self.old.home.pool.size ≡ self.old.home.config.size }
        requires page { page < self.old.home.config.pages }
        requires image { length change.now.image ≡ self.old.home.config.size }
        requires sizes { HasSizes self.old.home.config (S.pages s.old) (S.logs s.old) (S.rooms s.old) }
        ensures home { self.new ≡ record self.old { home = (put_change page change.now (work_on self.old.home)).home } }
        ensures made { MadeIf self.old.node true result (put_change page change.now (work_on self.old.home)).calls (told_by (S.pages s.old) (S.logs s.old) (S.stops s.old)) (told_by (S.pages s.new) (S.logs s.new) (S.stops s.new)) }
        ensures sizes { HasSizes self.old.home.config (S.pages s.new) (S.logs s.new) (S.rooms s.new) }
        ensures rooms { S.rooms s.new ≡ S.rooms s.old }
        ensures failing { S.failing s.new ≡ S.failing s.old }
        ensures counts { (k : Kind) → S.faults s.old k ≤ S.faults s.new k }
        ensures cause { RoseIf true result (Rose (S.faults s.old Call.Write) (S.faults s.new Call.Write)) }
    {
        if self.has_frame(page) {
            let written = self.take_slot(page, s, true);
            self.install(page, change.version, change.image.as_slice(), true);
            return written;
        }
        self.write_change(page, change, s)
    }

    /// Writes a change at once. True where it was done.
    fn write_change<S: Storage>(&mut self, page: PageNo, change: &Change, s: &mut S) -> bool
        requires page { page < self.old.home.config.pages }
        requires image { length change.now.image ≡ self.old.home.config.size }
        requires sizes { HasSizes self.old.home.config (S.pages s.old) (S.logs s.old) (S.rooms s.old) }
        ensures same { self.new ≡ self.old }
        ensures made { MadeIf self.old.node true result (write_page page (record { version = change.now.version; bytes = change.now.image }) (work_on self.old.home)).calls (told_by (S.pages s.old) (S.logs s.old) (S.stops s.old)) (told_by (S.pages s.new) (S.logs s.new) (S.stops s.new)) }
        ensures sizes { HasSizes self.old.home.config (S.pages s.new) (S.logs s.new) (S.rooms s.new) }
        ensures rooms { S.rooms s.new ≡ S.rooms s.old }
        ensures failing { S.failing s.new ≡ S.failing s.old }
        ensures counts { (k : Kind) → S.faults s.old k ≤ S.faults s.new k }
        ensures cause { RoseIf true result (Rose (S.faults s.old Call.Write) (S.faults s.new Call.Write)) }
    {
        let bytes = change.image.as_slice();
        let raw = self.raw.as_mut_slice();
        write_stored(s, self.me, page, change.version, bytes, raw)
    }

    /// Whether the page has a slot, or a frame is free or can be freed for it.
    fn has_frame(&self, page: PageNo) -> bool
        ensures { result ≡ has_frame page self.now.home.pool }
    {
        self.pool.has_slot(page) || self.pool.free() > 0 || self.pool.victim(page).is_some()
    }
}
