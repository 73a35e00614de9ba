ghost use Rattle.std.specs.Prelude.{◌≡◌, ◌≤◌, ◌<◌, ◌+◌, ◌++◌, ◌∷◌, [], ℕ, List, Bool, true, Some, None, length, IfErr, IfSome, OnOk};
ghost use Rattle.pcl_base.specs.Faults.{Rose};
ghost use Rattle.pcl_base.specs.declared.reply.Reply.TheVariants.{Installed as installed};
ghost use Rattle.pcl_base.specs.declared.trace.Call.{Call as Kind};
ghost use Rattle.disk_model.specs.Disk.{HasSizes, NotLowered, ReachesTo, told_at};
ghost use Rattle.home.specs.Device.{told_by};
ghost use Rattle.node_parts.specs.State.{node_of};
ghost use Rattle.node_parts.specs.declared.fault.StepFault.TheVariants.{Halted as halted};
ghost use Rattle.page_owner.specs.Carry.{halted_by};
ghost use Rattle.partition_steps.specs.Carried.{AreTurning};
ghost use Rattle.install_steps.specs.Births.{LeavesTrim, entered, trimmed_logs};
ghost use Rattle.install_steps.specs.Calls.{IsWorkFault};
ghost use Rattle.install_steps.specs.Views.{IsUnbegun};

use authority_map::View;
use disk_model::{Call, Storage};
use node_parts::{Outputs, Parts, StepFault};
use pcl_base::{Config, Failed, NodeNo, Reply};

/// The node is in a view from now on, which it answers; where it is born in the view, it begins its life.
/// It takes no memory.
pub(crate) fn enter(parts: &mut Parts, view: View, is_born: bool, out: &mut Outputs)
    requires born { is_born ≡ true → IsUnbegun parts.old.home.txs }
    requires me { parts.old.me < length view.live }
    requires room { 1 ≤ out.old.reply_room }
    ensures node { node_of parts.new ≡ entered is_born view (node_of parts.old) }
    ensures me { parts.new.me ≡ parts.old.me }
    ensures epoch { parts.new.epoch ≡ view.epoch }
    ensures view { parts.new.view ≡ Some view }
    ensures tables { parts.new.tables ≡ parts.old.tables }
    ensures replies { out.new.replies ≡ out.old.replies ++ installed view.epoch ∷ [] }
    ensures sends { out.new.sends ≡ out.old.sends }
    ensures reply_room { out.old.reply_room ≤ out.new.reply_room + 1 }
    ensures send_room { out.new.send_room ≡ out.old.send_room }
    ensures later { 1 ≤ view.epoch }
{
    let epoch = view.epoch();
    let _born = view.born(parts.me);
    parts.epoch = epoch;
    parts.view = Some(view);
    out.reply(Reply::Installed { epoch });
    if is_born {
        parts.home.be_born(epoch);
        return;
    }
}

/// Trims the torn rest of the node's log, where there is one: so many bytes stay. It takes no memory.
///
/// `Halted` comes only where the storage's count of `Trim` rose.
pub(crate) fn trim<S: Storage>(parts: &Parts, keep: Option<u64>, s: &mut S) -> Result<(), StepFault>
    requires turning { AreTurning parts.now }
    requires sizes { HasSizes parts.now.home.config (S.pages s.old) (S.logs s.old) (S.rooms s.old) }
    requires within { IfSome keep (λ k. ReachesTo (told_at (S.logs s.old) parts.now.me) k) }
    ensures made { LeavesTrim parts.now.me keep result (told_by (S.pages s.old) (S.logs s.old) (S.stops s.old)) (told_by (S.pages s.new) (S.logs s.new) (S.stops s.new)) }
    ensures logs { OnOk result (S.logs s.new ≡ trimmed_logs parts.now.me keep (S.logs s.old)) }
    ensures sizes { HasSizes parts.now.home.config (S.pages s.new) (S.logs s.new) (S.rooms s.new) }
    ensures fault { IfErr result (λ e. e ≡ halted Call.Trim None) }
    ensures work { IfErr result IsWorkFault }
    ensures quiet { (k : Kind) → halted_by result ≡ Some k → k ≡ Call.Trim }
    ensures pages { S.pages s.new ≡ S.pages s.old }
    ensures rooms { NotLowered (S.rooms s.old) (S.rooms s.new) }
    ensures failing { S.failing s.new ≡ S.failing s.old }
    ensures counts { (k : Kind) → S.faults s.old k ≤ S.faults s.new k }
    ensures cause { (k : Kind) → halted_by result ≡ Some k → Rose (S.faults s.old k) (S.faults s.new k) }
{
    trim_own(parts.home.config(), parts.me, keep, s)
}

/// The same of the log of a node.
fn trim_own<S: Storage>(
    config: &Config,
    me: NodeNo,
    keep: Option<u64>,
    s: &mut S,
) -> Result<(), StepFault>
    requires me { me < config.now.nodes }
    requires sizes { HasSizes config.now (S.pages s.old) (S.logs s.old) (S.rooms s.old) }
    requires within { IfSome keep (λ k. ReachesTo (told_at (S.logs s.old) me) k) }
    ensures made { LeavesTrim me keep result (told_by (S.pages s.old) (S.logs s.old) (S.stops s.old)) (told_by (S.pages s.new) (S.logs s.new) (S.stops s.new)) }
    ensures logs { OnOk result (S.logs s.new ≡ trimmed_logs me keep (S.logs s.old)) }
    ensures sizes { HasSizes config.now (S.pages s.new) (S.logs s.new) (S.rooms s.new) }
    ensures fault { IfErr result (λ e. e ≡ halted Call.Trim None) }
    ensures work { IfErr result IsWorkFault }
    ensures quiet { (k : Kind) → halted_by result ≡ Some k → k ≡ Call.Trim }
    ensures pages { S.pages s.new ≡ S.pages s.old }
    ensures rooms { NotLowered (S.rooms s.old) (S.rooms s.new) }
    ensures failing { S.failing s.new ≡ S.failing s.old }
    ensures counts { (k : Kind) → S.faults s.old k ≤ S.faults s.new k }
    ensures cause { (k : Kind) → halted_by result ≡ Some k → Rose (S.faults s.old k) (S.faults s.new k) }
{
    match keep {
        None => Ok(()),
        Some(keep) => match s.trim_log(me, keep) {
            Ok(()) => Ok(()),
            Err(Failed) => Err(StepFault::Halted {
                call: Call::Trim,
                kept: None,
            }),
        },
    }
}
