ghost use Rattle.std.specs.Prelude.{◌≡◌, ℕ, List, ◌<◌, ◌≤◌, Some, true, false, length, IfSome, IfOk, IfErr, OnOk, OnErr, IsOk};
ghost use Rattle.pcl_base.specs.Faults.{Rose};
ghost use Rattle.pcl_base.specs.declared.trace.Call.{Call as Kind};
ghost use Rattle.text_rules.specs.StoredPage.{stored_page};
ghost use Rattle.disk_model.specs.Disk.{told_at, HasSizes};
ghost use Rattle.disk_model.specs.Stops.{Fate, Done, Stopped, reading_fate, after_read};
ghost use Rattle.node_rules.specs.BufferRule.{has_slot, find};
ghost use Rattle.node_rules.specs.CopyRule.{is_version};
ghost use Rattle.node_rules.specs.Work.{with_pool};
ghost use Rattle.node_rules.specs.AccessRule.{bring, image_of};
ghost use Rattle.home.specs.Device.{work_on};
ghost use Rattle.home.specs.Grants.{work_at, Puts, PutsBytes, Tells, ByImage, brought, IsReadFault, is_read_failed, is_read, after_reading};

use crate::fault::HomeFault;
use crate::fetch::fetch;
use crate::parts::Parts;
use disk_model::{Call, Storage};
use pcl_base::{CopyPart, PageNo, Version};

impl Parts {
    /// The slot of a page comes to a granted version: it has it, or takes the image, or the page is
    /// read. A fault leaves all as before, and takes no memory.
    pub(crate) fn bring<S: Storage>(
        &mut self,
        page: PageNo,
        version: Version,
        copy: &CopyPart,
        s: &mut S,
    ) -> Result<(), HomeFault>
        requires page { page < self.old.home.config.pages }
        requires slot { has_slot self.old.home.pool page ≡ true }
        requires size { self.old.home.pool.size ≡ self.old.home.config.size }
        requires image { IfSome (image_of copy.now) (λ b. length b ≡ self.old.home.config.size) }
        requires sizes { HasSizes self.old.home.config (S.pages s.old) (S.logs s.old) (S.rooms s.old) }
        ensures told { (ps : List (List ℕ)) → S.pages s.old ≡ Some ps → Tells (brought tt (bring page version (image_of copy.now) (work_at ps self.old.home))) result self.new.home }
        ensures image { IfOk result (λ r. ByImage page version (image_of copy.now) (λ i. brought tt (bring page version i (work_on self.old.home))) self.old.home r self.new.home) }
        ensures same { self.new ≡ record self.old { home = with_pool self.old.home self.new.home.pool } }
        ensures fault { IfErr result (IsReadFault page) }
        ensures err { OnErr result (self.new ≡ self.old) }
        ensures pages { S.pages s.new ≡ S.pages s.old }
        ensures logs { S.logs s.new ≡ S.logs s.old }
        ensures rooms { S.rooms s.new ≡ S.rooms s.old }
        ensures stops { S.stops s.new ≡ S.stops s.old }
        ensures failing { S.failing s.new ≡ after_reading (is_read page version (image_of copy.now) self.old.home) (S.failing s.old) self.old.node }
        ensures done { reading_fate (S.failing s.old) self.old.node ≡ Fate.Done → is_read_failed result ≡ false }
        ensures stopped { (kept : ℕ) → is_read page version (image_of copy.now) self.old.home ≡ true → reading_fate (S.failing s.old) self.old.node ≡ Fate.Stopped kept → is_read_failed result ≡ true }
        ensures unread { is_read page version (image_of copy.now) self.old.home ≡ false → IsOk result }
        ensures counts { (k : Kind) → S.faults s.old k ≤ S.faults s.new k }
        ensures cause { is_read_failed result ≡ true → Rose (S.faults s.old Call.Read) (S.faults s.new Call.Read) }
    {
        if self.is_current(page, version) {
            return Ok(());
        }
        match copy {
            CopyPart::Image(image) => {
                self.install(page, version, image.as_slice(), false);
                Ok(())
            }
            CopyPart::Current => self.read_in(page, version, s),
            CopyPart::OnDisk => self.read_in(page, version, s),
        }
    }

    /// The page that was granted at a version is read from disk and put into its slot.
    fn read_in<S: Storage>(
        &mut self,
        page: PageNo,
        version: Version,
        s: &mut S,
    ) -> Result<(), HomeFault>
        requires page { page < self.old.home.config.pages }
        requires slot { has_slot self.old.home.pool page ≡ true }
        requires size { self.old.home.pool.size ≡ self.old.home.config.size }
        requires sizes { HasSizes self.old.home.config (S.pages s.old) (S.logs s.old) (S.rooms s.old) }
        ensures told { IfSome (told_at (S.pages s.old) page) (λ b. Puts page version result (stored_page page b) self.old.home.pool self.new.home.pool) }
        ensures content { OnOk result (PutsBytes page version self.old.home.pool self.new.home.pool) }
        ensures same { self.new ≡ record self.old { home = with_pool self.old.home self.new.home.pool } }
        ensures fault { IfErr result (IsReadFault page) }
        ensures err { OnErr result (self.new ≡ self.old) }
        ensures pages { S.pages s.new ≡ S.pages s.old }
        ensures logs { S.logs s.new ≡ S.logs s.old }
        ensures rooms { S.rooms s.new ≡ S.rooms s.old }
        ensures stops { S.stops s.new ≡ S.stops s.old }
        ensures failing { S.failing s.new ≡ after_read (S.failing s.old) self.old.node }
        ensures done { reading_fate (S.failing s.old) self.old.node ≡ Fate.Done → is_read_failed result ≡ false }
        ensures stopped { (kept : ℕ) → reading_fate (S.failing s.old) self.old.node ≡ Fate.Stopped kept → is_read_failed result ≡ true }
        ensures counts { (k : Kind) → S.faults s.old k ≤ S.faults s.new k }
        ensures cause { is_read_failed result ≡ true → Rose (S.faults s.old Call.Read) (S.faults s.new Call.Read) }
    {
        fetch(
            s,
            self.me,
            page,
            version,
            self.raw.as_mut_slice(),
            &mut self.pool,
        )
    }

    /// Whether the page's copy has a version.
    fn is_current(&self, page: PageNo, version: Version) -> bool
        ensures { result ≡ is_version (find self.now.home.pool page) version }
    {
        match self.pool.find(page) {
            None => false,
            Some(found) => found == version,
        }
    }
}
