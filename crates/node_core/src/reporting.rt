ghost use Rattle.std.specs.Prelude.{◌≡◌, ◌<◌, ◌++◌, ◌∷◌, [], None, true, IfErr, OnOk, OnErr};
ghost use Rattle.pcl_base.specs.declared.lock.Verdict.TheVariants.{Taken as is_taken};
ghost use Rattle.text_rules.specs.MessageBytes.{IsMessage};
ghost use Rattle.disk_model.specs.Disk.{HasSizes};
ghost use Rattle.node_rules.specs.NodeState.{Deliver as delivers, number_of};
ghost use Rattle.node_rules.specs.NodeStep.{judge_in, partition_of};
ghost use Rattle.node_rules.specs.Refusals.{refusal};
ghost use Rattle.page_owner.specs.Carry.{HasSame};
ghost use Rattle.page_owner.specs.Released.{is_report};
ghost use Rattle.node_parts.specs.State.{AreParts, node_of};
ghost use Rattle.node_parts.specs.declared.fault.StepFault.TheVariants.{NoMemory as no_memory};
ghost use Rattle.node_core.specs.Steps.{IsStep, seen_by};

use disk_model::Storage;
use install_steps::take_report;
use node_parts::{Outputs, Parts, StepFault};
use page_owner::judge;
use pcl_base::{Body, Message, NodeNo, Reply, Verdict};

/// Takes a report of another node, or holds or drops it. It goes into empty outputs.
pub(crate) fn step_report<S: Storage>(
    parts: &mut Parts,
    from: NodeNo,
    m: &Message,
    s: &mut S,
    out: &mut Outputs,
) -> Result<(), StepFault>
    requires parts { AreParts parts.old }
    requires none { refusal (node_of parts.old) (delivers from m.now) ≡ None }
    requires from { from < parts.old.home.config.nodes }
    requires message { IsMessage parts.old.home.config m.now }
    requires other { is_report m.now.body ≡ true }
    requires sizes { HasSizes parts.old.home.config (S.pages s.old) (S.logs s.old) (S.rooms s.old) }
    requires replies { out.old.replies ≡ [] }
    requires sends { out.old.sends ≡ [] }
    ensures step { IsStep (node_of parts.old) (delivers from m.now) out.old (seen_by (S.pages s.old) (S.logs s.old) (S.stops s.old) (S.failing s.old) (S.rooms s.old) (S.faults s.old)) result (node_of parts.new) out.new (seen_by (S.pages s.new) (S.logs s.new) (S.stops s.new) (S.failing s.new) (S.rooms s.new) (S.faults s.new)) }
    ensures parts { AreParts parts.new }
{
    match judge(parts, from, m) {
        Verdict::Taken => step_taken(parts, from, m, s, out),
        Verdict::Held => answer(out, Reply::Held),
        Verdict::Dropped => answer(out, Reply::Dropped),
    }
}

/// The same of a report that is taken.
fn step_taken<S: Storage>(
    parts: &mut Parts,
    from: NodeNo,
    m: &Message,
    s: &mut S,
    out: &mut Outputs,
) -> Result<(), StepFault>
    requires parts { AreParts parts.old }
    requires none { refusal (node_of parts.old) (delivers from m.now) ≡ None }
    requires from { from < parts.old.home.config.nodes }
    requires message { IsMessage parts.old.home.config m.now }
    requires other { is_report m.now.body ≡ true }
    requires taken { judge_in parts.old.view (number_of (node_of parts.old)) from m.now.epoch (partition_of parts.old.home.config m.now.body) ≡ is_taken }
    requires sizes { HasSizes parts.old.home.config (S.pages s.old) (S.logs s.old) (S.rooms s.old) }
    requires replies { out.old.replies ≡ [] }
    requires sends { out.old.sends ≡ [] }
    ensures step { IsStep (node_of parts.old) (delivers from m.now) out.old (seen_by (S.pages s.old) (S.logs s.old) (S.stops s.old) (S.failing s.old) (S.rooms s.old) (S.faults s.old)) result (node_of parts.new) out.new (seen_by (S.pages s.new) (S.logs s.new) (S.stops s.new) (S.failing s.new) (S.rooms s.new) (S.faults s.new)) }
    ensures parts { AreParts parts.new }
{
    match &m.body {
        Body::Report(report) => take_report(parts, from, report, s, out),
        _ => unreachable!(),
    }
}

/// A report that is held or dropped. `NoMemory` leaves the lists as before.
fn answer(out: &mut Outputs, reply: Reply) -> Result<(), StepFault>
    ensures replies { OnOk result (out.new.replies ≡ out.old.replies ++ reply ∷ []) }
    ensures sends { out.new.sends ≡ out.old.sends }
    ensures err { OnErr result (HasSame out.old out.new) }
    ensures fault { IfErr result (λ e. e ≡ no_memory) }
{
    out.reserve(1, 0)?;
    out.reply(reply);
    Ok(())
}
