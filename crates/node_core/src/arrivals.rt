ghost use Rattle.std.specs.Prelude.{◌≡◌, ◌<◌, [], None, false};
ghost use Rattle.text_rules.specs.MessageBytes.{IsMessage};
ghost use Rattle.disk_model.specs.Disk.{HasSizes};
ghost use Rattle.node_rules.specs.NodeState.{Deliver as delivers};
ghost use Rattle.node_rules.specs.Refusals.{refusal};
ghost use Rattle.page_owner.specs.Released.{is_report};
ghost use Rattle.node_parts.specs.State.{AreParts, node_of};
ghost use Rattle.node_core.specs.Steps.{IsStep, seen_by};

use crate::reporting::step_report;
use disk_model::Storage;
use node_parts::{Outputs, Parts, StepFault};
use page_owner::deliver_other;
use pcl_base::{Body, Message, NodeNo};

/// Takes a message of another node. It goes into empty outputs.
pub(crate) fn step_deliver<S: Storage>(
    parts: &mut Parts,
    from: NodeNo,
    m: &Message,
    s: &mut S,
    out: &mut Outputs,
) -> Result<(), StepFault>
    requires parts { AreParts parts.old }
    requires none { refusal (node_of parts.old) (delivers from m.now) ≡ None }
    requires from { from < parts.old.home.config.nodes }
    requires message { IsMessage parts.old.home.config m.now }
    requires sizes { HasSizes parts.old.home.config (S.pages s.old) (S.logs s.old) (S.rooms s.old) }
    requires replies { out.old.replies ≡ [] }
    requires sends { out.old.sends ≡ [] }
    ensures step { IsStep (node_of parts.old) (delivers from m.now) out.old (seen_by (S.pages s.old) (S.logs s.old) (S.stops s.old) (S.failing s.old) (S.rooms s.old) (S.faults s.old)) result (node_of parts.new) out.new (seen_by (S.pages s.new) (S.logs s.new) (S.stops s.new) (S.failing s.new) (S.rooms s.new) (S.faults s.new)) }
    ensures parts { AreParts parts.new }
{
    if is_report(&m.body) {
        return step_report(parts, from, m, s, out);
    }
    step_other(parts, from, m, s, out)
}

/// Whether a message is a report.
fn is_report(body: &Body) -> bool
    ensures { result ≡ is_report body.now }
{
    match body {
        Body::Report(_) => true,
        _ => false,
    }
}

/// The same of a message that isn't a report.
fn step_other<S: Storage>(
    parts: &mut Parts,
    from: NodeNo,
    m: &Message,
    s: &mut S,
    out: &mut Outputs,
) -> Result<(), StepFault>
    requires parts { AreParts parts.old }
    requires none { refusal (node_of parts.old) (delivers from m.now) ≡ None }
    requires from { from < parts.old.home.config.nodes }
    requires message { IsMessage parts.old.home.config m.now }
    requires other { is_report m.now.body ≡ false }
    requires sizes { HasSizes parts.old.home.config (S.pages s.old) (S.logs s.old) (S.rooms s.old) }
    requires replies { out.old.replies ≡ [] }
    requires sends { out.old.sends ≡ [] }
    ensures step { IsStep (node_of parts.old) (delivers from m.now) out.old (seen_by (S.pages s.old) (S.logs s.old) (S.stops s.old) (S.failing s.old) (S.rooms s.old) (S.faults s.old)) result (node_of parts.new) out.new (seen_by (S.pages s.new) (S.logs s.new) (S.stops s.new) (S.failing s.new) (S.rooms s.new) (S.faults s.new)) }
    ensures parts { AreParts parts.new }
{
    deliver_other(parts, from, m, s, out)
}
