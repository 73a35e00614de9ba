ghost use Rattle.std.specs.Prelude.{◌≡◌, ℕ, ◌≤◌, ◌<◌, ◌+◌, true, false, is_some, IfSome, Some};
ghost use Rattle.pcl_base.specs.Faults.{Rose};
ghost use Rattle.pcl_base.specs.declared.trace.Call.{Call as Kind};
ghost use Rattle.disk_model.specs.Disk.{HasSizes};
ghost use Rattle.node_rules.specs.BufferRule.{free_frames, can_go, has_slot, has_private, one_unless, slot_at};
ghost use Rattle.node_rules.specs.OpenTxs.{held_by};
ghost use Rattle.node_rules.specs.AccessRule.{take_slot, take_private, pin_once, take_frames};
ghost use Rattle.buffer_pool.specs.Buffer.{IsBuffer};
ghost use Rattle.home.specs.Asked.{asked};
ghost use Rattle.home.specs.Device.{work_on, told_by, MadeIf, RoseIf};
ghost use Rattle.home.specs.Parts.{GoWell, MayTakeFrames};

use crate::access::Access;
use crate::parts::Parts;
use disk_model::{Call, Storage};
use pcl_base::{Page, PageNo, TxId};

/// The frames of an access. Each call tells whether no write of a victim has failed so far.
impl Parts {
    /// The page has a slot: the one that it had, or a place in a frame for which there is room.
    pub(crate) fn take_slot<S: Storage>(&mut self, page: PageNo, s: &mut S, going: bool) -> bool
        requires room { one_unless (has_slot self.old.home.pool page) ≤ free_frames self.old.home.pool + can_go self.old.home.pool page }
        requires go { GoWell page self.old.home.config self.old.home.pool }
        requires size { self.old.home.pool.size ≡ self.old.home.config.size }
        requires sizes { HasSizes self.old.home.config (S.pages s.old) (S.logs s.old) (S.rooms s.old) }
        ensures home { self.new ≡ record self.old { home = (take_slot page (work_on self.old.home)).home } }
        ensures made { MadeIf self.old.node going result (take_slot page (work_on self.old.home)).calls (told_by (S.pages s.old) (S.logs s.old) (S.stops s.old)) (told_by (S.pages s.new) (S.logs s.new) (S.stops s.new)) }
        ensures sizes { HasSizes self.old.home.config (S.pages s.new) (S.logs s.new) (S.rooms s.new) }
        ensures rooms { S.rooms s.new ≡ S.rooms s.old }
        ensures failing { S.failing s.new ≡ S.failing s.old }
        ensures counts { (k : Kind) → S.faults s.old k ≤ S.faults s.new k }
        ensures cause { RoseIf going result (Rose (S.faults s.old Call.Write) (S.faults s.new Call.Write)) }
    {
        if self.has_slot(page) {
            return going;
        }
        let written = self.make_room(page, s, going);
        self.place(page);
        written
    }

    /// A write, whose transaction has no private copy of the page, gets one in a frame for which there
    /// is room.
    pub(crate) fn take_private<S: Storage>(
        &mut self,
        tx: TxId,
        page: PageNo,
        write: &Option<(u32, Page)>,
        s: &mut S,
        going: bool,
    ) -> bool
        requires sound { IsBuffer self.old.home.pool }
        requires none { has_private self.old.home.pool tx page ≡ false }
        requires room { is_some write.now ≡ true → 1 ≤ free_frames self.old.home.pool + can_go self.old.home.pool page }
        requires go { GoWell page self.old.home.config self.old.home.pool }
        requires size { self.old.home.pool.size ≡ self.old.home.config.size }
        requires sizes { HasSizes self.old.home.config (S.pages s.old) (S.logs s.old) (S.rooms s.old) }
        ensures home { self.new ≡ record self.old { home = (take_private tx page write.now (work_on self.old.home)).home } }
        ensures made { MadeIf self.old.node going result (take_private tx page write.now (work_on self.old.home)).calls (told_by (S.pages s.old) (S.logs s.old) (S.stops s.old)) (told_by (S.pages s.new) (S.logs s.new) (S.stops s.new)) }
        ensures sizes { HasSizes self.old.home.config (S.pages s.new) (S.logs s.new) (S.rooms s.new) }
        ensures rooms { S.rooms s.new ≡ S.rooms s.old }
        ensures failing { S.failing s.new ≡ S.failing s.old }
        ensures counts { (k : Kind) → S.faults s.old k ≤ S.faults s.new k }
        ensures cause { RoseIf going result (Rose (S.faults s.old Call.Write) (S.faults s.new Call.Write)) }
    {
        match write {
            None => going,
            Some(_) => {
                let written = self.make_room(page, s, going);
                self.private(tx, page);
                written
            }
        }
    }

    /// A transaction that doesn't hold the page pins its slot from now on.
    pub(crate) fn pin_once(&mut self, tx: TxId, page: PageNo)
        requires slot { has_slot self.old.home.pool page ≡ true }
        requires few { IfSome (slot_at self.old.home.pool page) (λ s. s.pins < 4_294_967_295) }
        ensures { self.new ≡ record self.old { home = (pin_once tx page (work_on self.old.home)).home } }
    {
        if self.holds(tx, page) {
            return;
        }
        self.pin(page);
    }

    /// All frames of an access, whose slot is pinned then.
    pub(crate) fn take_frames<S: Storage>(&mut self, a: &Access, s: &mut S) -> bool
        requires may { MayTakeFrames (asked a.now) self.old.home.config self.old.home.pool }
        requires sizes { HasSizes self.old.home.config (S.pages s.old) (S.logs s.old) (S.rooms s.old) }
        ensures home { self.new ≡ record self.old { home = (take_frames (asked a.now) (work_on self.old.home)).home } }
        ensures made { MadeIf self.old.node true result (take_frames (asked a.now) (work_on self.old.home)).calls (told_by (S.pages s.old) (S.logs s.old) (S.stops s.old)) (told_by (S.pages s.new) (S.logs s.new) (S.stops s.new)) }
        ensures sizes { HasSizes self.old.home.config (S.pages s.new) (S.logs s.new) (S.rooms s.new) }
        ensures rooms { S.rooms s.new ≡ S.rooms s.old }
        ensures failing { S.failing s.new ≡ S.failing s.old }
        ensures counts { (k : Kind) → S.faults s.old k ≤ S.faults s.new k }
        ensures cause { RoseIf true result (Rose (S.faults s.old Call.Write) (S.faults s.new Call.Write)) }
    {
        let going = self.take_slot(a.page, s, true);
        let written = self.take_private(a.tx, a.page, &a.write, s, going);
        self.pin_once(a.tx, a.page);
        written
    }

    /// Whether the page has a slot.
    fn has_slot(&self, page: PageNo) -> bool
        ensures value { result ≡ has_slot self.now.home.pool page }
        ensures sound { IsBuffer self.now.home.pool }
    {
        self.pool.has_slot(page)
    }

    /// Whether the transaction holds the page.
    pub(crate) fn holds(&self, tx: TxId, page: PageNo) -> bool
        ensures { result ≡ is_some (held_by self.now.home.txs tx page) }
    {
        self.txs.held(tx, page).is_some()
    }
}
