ghost use Rattle.std.specs.Prelude.{◌≡◌, ℕ, ◌≤◌, None, Bool, true, false, Err, IfOk};
ghost use Rattle.pcl_base.specs.Faults.{Rose};
ghost use Rattle.pcl_base.specs.declared.trace.Call.{Call as Kind};
ghost use Rattle.disk_model.specs.Disk.{HasSizes};
ghost use Rattle.node_rules.specs.BufferRule.{find};
ghost use Rattle.node_rules.specs.AccessRule.{access, is_held, is_allowed, mode_of_write, next_of};
ghost use Rattle.home_laws.specs.Homes.{IsHome};
ghost use Rattle.home_laws.specs.Refused.{access_refusal};
ghost use Rattle.home.specs.declared.fault.HomeFault.TheVariants.{Failed as failed};
ghost use Rattle.home.specs.Asked.{asked, next_as};
ghost use Rattle.home.specs.Answers.{refused_as, home_after, Leaves};
ghost use Rattle.home.specs.Device.{work_on, told_by};
ghost use Rattle.home.specs.Parts.{IsPrepared};

use crate::access::{Access, Next};
use crate::fault::HomeFault;
use crate::parts::Parts;
use disk_model::{Call, Storage};
use pcl_base::{Mode, Request, Waiter};

/// An access that waits.
impl Parts {
    /// The access takes its frames and the memory for its grant, and waits.
    pub(crate) fn wait<S: Storage>(
        &mut self,
        a: &Access,
        owned: bool,
        s: &mut S,
    ) -> Result<Next, HomeFault>
        requires home { IsHome self.old.home }
        requires prepared { IsPrepared self.old }
        requires none { access_refusal (asked a.now) self.old.home ≡ None }
        requires held { is_held (asked a.now) self.old.home ≡ false }
        requires allowed { is_allowed (asked a.now) owned self.old.home ≡ false }
        requires sizes { HasSizes self.old.home.config (S.pages s.old) (S.logs s.old) (S.rooms s.old) }
        ensures refused { refused_as result ≡ None }
        ensures next { IfOk result (λ n. next_as n ≡ (access (asked a.now) owned (work_on self.old.home)).next) }
        ensures home { self.new.home ≡ home_after result self.old.home (access (asked a.now) owned (work_on self.old.home)).work.home }
        ensures prepared { IsPrepared self.new }
        ensures made { Leaves self.old.node result (access (asked a.now) owned (work_on self.old.home)).work.calls (told_by (S.pages s.old) (S.logs s.old) (S.stops s.old)) (told_by (S.pages s.new) (S.logs s.new) (S.stops s.new)) }
        ensures sizes { HasSizes self.old.home.config (S.pages s.new) (S.logs s.new) (S.rooms s.new) }
        ensures rooms { S.rooms s.new ≡ S.rooms s.old }
        ensures failing { S.failing s.new ≡ S.failing s.old }
        ensures counts { (k : Kind) → S.faults s.old k ≤ S.faults s.new k }
        ensures cause { (k : Kind) (kept : Bool) → result ≡ Err (failed k kept) → Rose (S.faults s.old k) (S.faults s.new k) }
    {
        self.reserve_grant()?;
        self.enter(a)?;
        let written = self.take_frames(a, s);
        if !written {
            return Err(HomeFault::Failed {
                call: Call::Write,
                kept: false,
            });
        }
        Ok(self.next(a, owned))
    }

    /// What an access that waits comes to.
    fn next(&self, a: &Access, owned: bool) -> Next
        ensures { next_as result ≡ next_of (asked a.now) owned (find self.now.home.pool a.now.page) }
    {
        let have = self.pool.find(a.page);
        let mode = mode_of(a);
        if owned {
            return Next::AskOwn(Waiter {
                tx: a.tx,
                mode,
                have,
            });
        }
        Next::Send(Request {
            tx: a.tx,
            page: a.page,
            mode,
            have,
        })
    }
}

/// The mode that an access asks for.
fn mode_of(a: &Access) -> Mode
    ensures { result ≡ mode_of_write a.now.write }
{
    match &a.write {
        None => Mode::Shared,
        Some(_) => Mode::Exclusive,
    }
}
