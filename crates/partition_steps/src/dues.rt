ghost use Rattle.std.specs.Prelude.{◌≡◌, ◌≤◌, ◌+◌, ℕ, List, Option, Some, None, length, OnOk, IfErr};
ghost use Rattle.pcl_base.specs.Faults.{Rose};
ghost use Rattle.pcl_base.specs.declared.trace.Call.{Call as CallKind};
ghost use Rattle.disk_model.specs.Disk.{HasSizes};
ghost use Rattle.redo_log.specs.Told.{NoneFails};
ghost use Rattle.home.specs.Moves.{MoveListView, Lists};
ghost use Rattle.install_laws.specs.InstallPlans.{carry_due};
ghost use Rattle.node_rules.specs.DiskCalls.{DiskCall};
ghost use Rattle.node_rules.specs.NodeState.{NodeState};
ghost use Rattle.node_rules.specs.Work.{for_each};
ghost use Rattle.node_parts.specs.Comes.{Comes};
ghost use Rattle.page_owner.specs.Carry.{HasMemory, IsReadHalt, SameNode, UsesMany, halted_by, work_with};

use disk_model::Storage;
use home::Home;
use install_plans::Due;
use node_parts::{Outputs, StepFault, Stock};
use page_owner::{OwnPage, carry_one};
use pcl_base::NodeNo;

/// Carries planned decisions out, one after the other, at the node `me` whose messages have this epoch. It
/// takes no memory.
pub(crate) fn carry_dues<S: Storage>(
    home: &mut Home,
    me: NodeNo,
    epoch: u32,
    dues: &[Due],
    stock: &mut Stock,
    s: &mut S,
    out: &mut Outputs,
) -> Result<(), StepFault>
    requires me { me ≡ home.old.txs.node }
    requires sizes { HasSizes home.old.config (S.pages s.old) (S.logs s.old) (S.rooms s.old) }
    requires memory { HasMemory (length dues.now) stock.old out.old }
    requires size { home.old.config.size ≤ stock.old.size }
    ensures told { (n : NodeState) (ps : List (List ℕ)) (cs : List DiskCall) → n.epoch ≡ epoch → S.pages s.old ≡ Some ps → Comes (for_each carry_due dues.now (work_with n home.old ps cs out.old)) result (work_with n home.new ps cs out.new) }
    ensures same { SameNode home.old home.new }
    ensures listed { (list : MoveListView) → Lists list home.old → Lists list home.new }
    ensures used { OnOk result (UsesMany (length dues.now) stock.old stock.new out.old out.new) }
    ensures fault { IfErr result IsReadHalt }
    ensures pages { S.pages s.new ≡ S.pages s.old }
    ensures logs { S.logs s.new ≡ S.logs s.old }
    ensures rooms { S.rooms s.new ≡ S.rooms s.old }
    ensures stops { S.stops s.new ≡ S.stops s.old }
    ensures calm { (l : List (Option ℕ)) → NoneFails (S.failing s.old) me l → NoneFails (S.failing s.new) me l }
    ensures quiet { (l : List (Option ℕ)) → NoneFails (S.failing s.old) me l → halted_by result ≡ None }
    ensures counts { (k : CallKind) → S.faults s.old k ≤ S.faults s.new k }
    ensures cause { (k : CallKind) → halted_by result ≡ Some k → Rose (S.faults s.old k) (S.faults s.new k) }
{
    for due in dues {
        let at = OwnPage {
            me,
            epoch,
            page: due.page,
            version: due.version,
        };
        carry_one(home, at, due.decision, stock, s, out)?;
    }
    Ok(())
}
