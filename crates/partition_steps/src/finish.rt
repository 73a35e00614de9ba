ghost use Rattle.std.specs.Prelude.{◌≡◌, ◌≢◌, ◌≤◌, ◌<◌, ◌+◌, ℕ, List, Option, Some, None, is_some, slice_set, OnOk, IfErr};
ghost use Rattle.pcl_base.specs.Faults.{Rose};
ghost use Rattle.pcl_base.specs.declared.trace.Call.{Call as CallKind};
ghost use Rattle.disk_model.specs.Disk.{HasSizes};
ghost use Rattle.redo_log.specs.Told.{NoneFails};
ghost use Rattle.home.specs.Moves.{MoveListView, Lists};
ghost use Rattle.install_laws.specs.InstallPlans.{reply_if, tell};
ghost use Rattle.node_rules.specs.DiskCalls.{DiskCall};
ghost use Rattle.node_rules.specs.NodeState.{NodeState, table_at};
ghost use Rattle.node_parts.specs.Comes.{Comes, work_of};
ghost use Rattle.node_parts.specs.State.{node_of};
ghost use Rattle.node_parts.specs.Tables.{place_at};
ghost use Rattle.install_plans.specs.Plans.{IsAfter, table_after};
ghost use Rattle.page_owner.specs.Carry.{IsReadHalt, SameNode, halted_by};
ghost use Rattle.page_owner.specs.Planned.{SameView};
ghost use Rattle.partition_steps.specs.Carried.{AreTurning, finished, place_after};
ghost use Rattle.partition_steps.specs.Memory.{HasMemoryFor, UsesAtMost, needs_of, one_if};

use crate::dues::carry_dues;
use crate::turn::put_after;
use disk_model::Storage;
use install_plans::PartitionPlan;
use node_parts::{Outputs, Parts, StepFault, Stock};
use pcl_base::{Body, Message, NodeNo, Reply, Report};

// What follows the turnover and the writes of a plan.

/// The table is put, and then `Serving` is replied where the partition begins to be served, the decisions
/// are carried out and the report is sent. It takes no memory.
pub(crate) fn finish<S: Storage>(
    parts: &mut Parts,
    q: NodeNo,
    plan: PartitionPlan,
    stock: &mut Stock,
    s: &mut S,
    out: &mut Outputs,
) -> Result<(), StepFault>
    requires turning { AreTurning parts.old }
    requires q { q < parts.old.home.config.nodes }
    requires table { IsAfter parts.old.home.config q plan.table }
    requires sizes { HasSizes parts.old.home.config (S.pages s.old) (S.logs s.old) (S.rooms s.old) }
    requires memory { HasMemoryFor (needs_of plan) stock.old out.old }
    requires size { parts.old.home.config.size ≤ stock.old.size }
    ensures comes { (ps : List (List ℕ)) (cs : List DiskCall) → S.pages s.old ≡ Some ps → Comes (finished q (table_after plan.table (table_at (node_of parts.old) q)) plan.begins plan.decisions.items plan.report (work_of (node_of parts.old) ps cs out.old)) result (work_of (node_of parts.new) ps cs out.new) }
    ensures turning { AreTurning parts.new }
    ensures places { parts.new.tables.places ≡ slice_set parts.old.tables.places q (place_after plan.table (place_at parts.old.tables.places q)) }
    ensures view { SameView parts.old parts.new }
    ensures same { SameNode parts.old.home parts.new.home }
    ensures listed { (list : MoveListView) → Lists list parts.old.home → Lists list parts.new.home }
    ensures used { OnOk result (UsesAtMost (needs_of plan) stock.old stock.new out.old out.new) }
    ensures fault { IfErr result IsReadHalt }
    ensures pages { S.pages s.new ≡ S.pages s.old }
    ensures logs { S.logs s.new ≡ S.logs s.old }
    ensures rooms { S.rooms s.new ≡ S.rooms s.old }
    ensures stops { S.stops s.new ≡ S.stops s.old }
    ensures calm { (l : List (Option ℕ)) → NoneFails (S.failing s.old) parts.old.me l → NoneFails (S.failing s.new) parts.old.me l }
    ensures quiet { (l : List (Option ℕ)) → NoneFails (S.failing s.old) parts.old.me l → halted_by result ≡ None }
    ensures counts { (k : CallKind) → S.faults s.old k ≤ S.faults s.new k }
    ensures cause { (k : CallKind) → halted_by result ≡ Some k → Rose (S.faults s.old k) (S.faults s.new k) }
{
    let PartitionPlan {
        turnover: _turnover,
        redo: _redo,
        table,
        begins,
        decisions,
        report,
    } = plan;
    put_after(&mut parts.tables, q, table);
    reply_serving(q, begins, out);
    let (me, epoch) = (parts.me, parts.epoch);
    let dues = decisions.as_slice();
    carry_dues(&mut parts.home, me, epoch, dues, stock, s, out)?;
    tell(epoch, report, out);
    Ok(())
}

/// Where a partition begins to be served, that is replied. It takes no memory.
fn reply_serving(q: NodeNo, begins: bool, out: &mut Outputs)
    requires room { one_if begins ≤ out.old.reply_room }
    ensures told { (n : NodeState) (ps : List (List ℕ)) (cs : List DiskCall) → reply_if begins q (work_of n ps cs out.old) ≡ work_of n ps cs out.new }
    ensures replies { out.old.reply_room ≤ out.new.reply_room + one_if begins }
    ensures sends { out.new.send_room ≡ out.old.send_room }
{
    if begins {
        out.reply(Reply::Serving { partition: q });
        return;
    }
}

/// The report is sent to its receiver, if there is one. It takes no memory.
fn tell(epoch: u32, report: Option<(NodeNo, Report)>, out: &mut Outputs)
    requires room { one_if (is_some report) ≤ out.old.send_room }
    ensures told { (n : NodeState) (ps : List (List ℕ)) (cs : List DiskCall) → n.epoch ≡ epoch → tell report (work_of n ps cs out.old) ≡ work_of n ps cs out.new }
    ensures replies { out.new.reply_room ≡ out.old.reply_room }
    ensures sends { out.old.send_room ≤ out.new.send_room + one_if (is_some report) }
{
    match report {
        None => return,
        Some(told) => {
            let (to, report) = told;
            let body = Body::Report(report);
            out.send(to, Message { epoch, body });
        }
    }
}
