ghost use Rattle.std.specs.Prelude.{◌≡◌, ℕ, List, None, IfErr, OnErr};
ghost use Rattle.node_rules.specs.DiskCalls.{DiskCall};
ghost use Rattle.node_rules.specs.NodeState.{Begin as begin};
ghost use Rattle.node_rules.specs.NodeStep.{open_tx};
ghost use Rattle.node_rules.specs.Refusals.{refusal};
ghost use Rattle.node_rules.specs.Work.{Goes};
ghost use Rattle.node_parts.specs.Comes.{Comes, work_of};
ghost use Rattle.node_parts.specs.State.{AreParts, node_of};
ghost use Rattle.node_parts.specs.declared.fault.StepFault.TheVariants.{NoMemory as no_memory};
ghost use Rattle.page_owner.specs.Carry.{SameNode, HasSame};

use home::BeginFault;
use node_parts::{Outputs, Parts, StepFault};
use pcl_base::Reply;

/// Opens a transaction, which the rules don't refuse: `Begun` with its name. `NoMemory` leaves all as
/// before, and no other fault comes.
pub fn begin(parts: &mut Parts, out: &mut Outputs) -> Result<(), StepFault>
    requires parts { AreParts parts.old }
    requires none { refusal (node_of parts.old) begin ≡ None }
    ensures comes { (ps : List (List ℕ)) (cs : List DiskCall) → Comes (Goes (open_tx (work_of (node_of parts.old) ps cs out.old))) result (work_of (node_of parts.new) ps cs out.new) }
    ensures parts { AreParts parts.new }
    ensures same { SameNode parts.old.home parts.new.home }
    ensures fault { IfErr result (λ e. e ≡ no_memory) }
    ensures node { OnErr result (parts.new ≡ parts.old) }
    ensures lists { OnErr result (HasSame out.old out.new) }
{
    out.reserve(1, 0)?;
    match parts.home.begin() {
        Ok(tx) => {
            out.reply(Reply::Begun { tx });
            Ok(())
        }
        Err(BeginFault::NoMemory) => Err(StepFault::NoMemory),
        Err(BeginFault::SerialEnd) => unreachable!(),
        Err(BeginFault::TooMany) => unreachable!(),
    }
}
