ghost use Rattle.std.specs.Prelude.{◌≡◌, ℕ, ◌≤◌, ◌<◌, ◌+◌, true, false, option_map};
ghost use Rattle.std.specs.List.{All};
ghost use Rattle.pcl_base.specs.Faults.{Rose};
ghost use Rattle.pcl_base.specs.declared.trace.Call.{Call as Kind};
ghost use Rattle.disk_model.specs.Disk.{HasSizes};
ghost use Rattle.node_rules.specs.BufferRule.{dirty, free_frames, can_go, victim};
ghost use Rattle.node_rules.specs.Work.{write_back};
ghost use Rattle.node_rules.specs.AccessRule.{make_room};
ghost use Rattle.buffer_pool.specs.Buffer.{IsBuffer};
ghost use Rattle.home.specs.Device.{work_on, told_by, MadeIf, RoseIf};
ghost use Rattle.home.specs.Parts.{GoWell};

use crate::parts::Parts;
use crate::stored::write_stored;
use disk_model::{Call, Storage};
use pcl_base::PageNo;

impl Parts {
    /// Whether the disk lacks the page's copy.
    fn is_dirty(&self, page: PageNo) -> bool
        ensures { result ≡ dirty self.now.home.pool page }
    {
        self.pool.dirty(page)
    }

    /// Writes the page's copy, which is dirty. True where it was done.
    fn write_copy<S: Storage>(&mut self, page: PageNo, s: &mut S) -> bool
        requires dirty { dirty self.old.home.pool page ≡ true }
        requires page { page < self.old.home.config.pages }
        requires size { self.old.home.pool.size ≡ self.old.home.config.size }
        requires sizes { HasSizes self.old.home.config (S.pages s.old) (S.logs s.old) (S.rooms s.old) }
        ensures same { self.new ≡ self.old }
        ensures made { MadeIf self.old.node true result (write_back page (work_on self.old.home)).calls (told_by (S.pages s.old) (S.logs s.old) (S.stops s.old)) (told_by (S.pages s.new) (S.logs s.new) (S.stops s.new)) }
        ensures sizes { HasSizes self.old.home.config (S.pages s.new) (S.logs s.new) (S.rooms s.new) }
        ensures rooms { S.rooms s.new ≡ S.rooms s.old }
        ensures failing { S.failing s.new ≡ S.failing s.old }
        ensures counts { (k : Kind) → S.faults s.old k ≤ S.faults s.new k }
        ensures cause { RoseIf true result (Rose (S.faults s.old Call.Write) (S.faults s.new Call.Write)) }
    {
        let version = match self.pool.find(page) {
            None => unreachable!(),
            Some(version) => version,
        };
        let bytes = self.pool.bytes(page);
        write_stored(s, self.me, page, version, bytes, self.raw.as_mut_slice())
    }

    /// Writes the page's copy where it is dirty and no write failed before; it is clean then, whatever
    /// became of the write. True where no write has failed.
    pub(crate) fn write_back<S: Storage>(&mut self, page: PageNo, s: &mut S, going: bool) -> bool
        requires page { page < self.old.home.config.pages }
        requires size { self.old.home.pool.size ≡ self.old.home.config.size }
        requires sizes { HasSizes self.old.home.config (S.pages s.old) (S.logs s.old) (S.rooms s.old) }
        ensures home { self.new ≡ record self.old { home = (write_back page (work_on self.old.home)).home } }
        ensures made { MadeIf self.old.node going result (write_back page (work_on self.old.home)).calls (told_by (S.pages s.old) (S.logs s.old) (S.stops s.old)) (told_by (S.pages s.new) (S.logs s.new) (S.stops s.new)) }
        ensures sizes { HasSizes self.old.home.config (S.pages s.new) (S.logs s.new) (S.rooms s.new) }
        ensures rooms { S.rooms s.new ≡ S.rooms s.old }
        ensures failing { S.failing s.new ≡ S.failing s.old }
        ensures counts { (k : Kind) → S.faults s.old k ≤ S.faults s.new k }
        ensures cause { RoseIf going result (Rose (S.faults s.old Call.Write) (S.faults s.new Call.Write)) }
    {
        if !self.is_dirty(page) {
            return going;
        }
        if !going {
            self.clean(page);
            return false;
        }
        let written = self.write_copy(page, s);
        self.clean(page);
        written
    }

    /// A frame is free: one that was, or that of the last unpinned slot of another page than `keep`,
    /// which is written where it is dirty and no write failed before.
    pub(crate) fn make_room<S: Storage>(&mut self, keep: PageNo, s: &mut S, going: bool) -> bool
        requires room { 1 ≤ free_frames self.old.home.pool + can_go self.old.home.pool keep }
        requires go { GoWell keep self.old.home.config self.old.home.pool }
        requires size { self.old.home.pool.size ≡ self.old.home.config.size }
        requires sizes { HasSizes self.old.home.config (S.pages s.old) (S.logs s.old) (S.rooms s.old) }
        ensures home { self.new ≡ record self.old { home = (make_room keep (work_on self.old.home)).home } }
        ensures made { MadeIf self.old.node going result (make_room keep (work_on self.old.home)).calls (told_by (S.pages s.old) (S.logs s.old) (S.stops s.old)) (told_by (S.pages s.new) (S.logs s.new) (S.stops s.new)) }
        ensures sizes { HasSizes self.old.home.config (S.pages s.new) (S.logs s.new) (S.rooms s.new) }
        ensures rooms { S.rooms s.new ≡ S.rooms s.old }
        ensures failing { S.failing s.new ≡ S.failing s.old }
        ensures counts { (k : Kind) → S.faults s.old k ≤ S.faults s.new k }
        ensures cause { RoseIf going result (Rose (S.faults s.old Call.Write) (S.faults s.new Call.Write)) }
    {
        if self.free() > 0 {
            return going;
        }
        match self.victim(keep) {
            None => unreachable!(),
            Some(page) => {
                let written = self.write_back(page, s, going);
                self.evict(page);
                written
            }
        }
    }

    /// The number of free frames.
    fn free(&self) -> u32
        ensures value { result ≡ free_frames self.now.home.pool }
        ensures sound { IsBuffer self.now.home.pool }
    {
        self.pool.free()
    }

    /// The page whose slot goes for another page.
    fn victim(&self, keep: PageNo) -> Option<PageNo>
        ensures { result ≡ option_map (λ s. s.page) (victim self.now.home.pool keep) }
    {
        self.pool.victim(keep)
    }
}
