ghost use Rattle.std.specs.Prelude.{◌≡◌, [], None, length};
ghost use Rattle.disk_model.specs.Disk.{HasSizes};
ghost use Rattle.node_rules.specs.NodeState.{Install as installs};
ghost use Rattle.node_rules.specs.Refusals.{refusal};
ghost use Rattle.node_parts.specs.State.{AreParts, node_of};
ghost use Rattle.node_core.specs.Steps.{IsStep, seen_by};

use authority_map::View;
use disk_model::Storage;
use install_steps::install;
use node_parts::{Outputs, Parts, StepFault};

/// Installs a view of all nodes that isn't refused. It goes into empty outputs.
pub(crate) fn step_install<S: Storage>(
    parts: &mut Parts,
    view: &View,
    s: &mut S,
    out: &mut Outputs,
) -> Result<(), StepFault>
    requires parts { AreParts parts.old }
    requires none { refusal (node_of parts.old) (installs view.now) ≡ None }
    requires nodes { length view.now.live ≡ parts.old.home.config.nodes }
    requires sizes { HasSizes parts.old.home.config (S.pages s.old) (S.logs s.old) (S.rooms s.old) }
    requires replies { out.old.replies ≡ [] }
    requires sends { out.old.sends ≡ [] }
    ensures step { IsStep (node_of parts.old) (installs view.now) out.old (seen_by (S.pages s.old) (S.logs s.old) (S.stops s.old) (S.failing s.old) (S.rooms s.old) (S.faults s.old)) result (node_of parts.new) out.new (seen_by (S.pages s.new) (S.logs s.new) (S.stops s.new) (S.failing s.new) (S.rooms s.new) (S.faults s.new)) }
    ensures parts { AreParts parts.new }
{
    install(parts, view, s, out)
}
