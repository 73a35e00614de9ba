ghost use Rattle.std.specs.Prelude.{◌≡◌, ◌++◌, ◌∷◌, [], None, IfErr, OnOk, OnErr, IsOk};
ghost use Rattle.pcl_base.specs.declared.reply.Reply.TheVariants.{Refused as refused};
ghost use Rattle.disk_model.specs.Disk.{HasSizes};
ghost use Rattle.node_rules.specs.Refusals.{refusal};
ghost use Rattle.node_parts.specs.Events.{event_of};
ghost use Rattle.node_parts.specs.State.{AreParts, node_of};
ghost use Rattle.node_parts.specs.declared.fault.StepFault.TheVariants.{NoMemory as no_memory};
ghost use Rattle.page_owner.specs.Carry.{HasSame};
ghost use Rattle.node_core.specs.Steps.{IsStep, MayCome, seen_by};

use crate::arrivals::step_deliver;
use crate::commits::step_commit;
use crate::installing::step_install;
use crate::own::{step_abort, step_begin, step_cut, step_evict, step_flush, step_read, step_write};
use disk_model::Storage;
use node_looks::refusal;
use node_parts::{NodeEvent, Outputs, Parts, StepFault};
use pcl_base::{Reason, Reply};

/// One step, whose replies and sends go into empty outputs: the event is refused, or worked off.
pub(crate) fn step_fresh<S: Storage>(
    parts: &mut Parts,
    event: &NodeEvent,
    s: &mut S,
    out: &mut Outputs,
) -> Result<(), StepFault>
    requires parts { AreParts parts.old }
    requires come { MayCome (node_of parts.old) (event_of event.now) }
    requires sizes { HasSizes parts.old.home.config (S.pages s.old) (S.logs s.old) (S.rooms s.old) }
    requires replies { out.old.replies ≡ [] }
    requires sends { out.old.sends ≡ [] }
    ensures step { IsStep (node_of parts.old) (event_of event.now) out.old (seen_by (S.pages s.old) (S.logs s.old) (S.stops s.old) (S.failing s.old) (S.rooms s.old) (S.faults s.old)) result (node_of parts.new) out.new (seen_by (S.pages s.new) (S.logs s.new) (S.stops s.new) (S.failing s.new) (S.rooms s.new) (S.faults s.new)) }
    ensures parts { AreParts parts.new }
{
    match refusal(parts, event) {
        Some(reason) => refuse(reason, out),
        None => work_off(parts, event, s, out),
    }
}

/// Replies why an event is refused. `NoMemory` leaves the lists as before.
fn refuse(reason: Reason, out: &mut Outputs) -> Result<(), StepFault>
    ensures replies { OnOk result (out.new.replies ≡ out.old.replies ++ refused reason ∷ []) }
    ensures sends { out.new.sends ≡ out.old.sends }
    ensures err { OnErr result (HasSame out.old out.new) }
    ensures fault { IfErr result (λ e. e ≡ no_memory) }
{
    out.reserve(1, 0)?;
    out.reply(Reply::Refused { reason });
    Ok(())
}

/// An event that isn't refused is worked off.
fn work_off<S: Storage>(
    parts: &mut Parts,
    event: &NodeEvent,
    s: &mut S,
    out: &mut Outputs,
) -> Result<(), StepFault>
    requires parts { AreParts parts.old }
    requires none { refusal (node_of parts.old) (event_of event.now) ≡ None }
    requires come { MayCome (node_of parts.old) (event_of event.now) }
    requires sizes { HasSizes parts.old.home.config (S.pages s.old) (S.logs s.old) (S.rooms s.old) }
    requires replies { out.old.replies ≡ [] }
    requires sends { out.old.sends ≡ [] }
    ensures step { IsStep (node_of parts.old) (event_of event.now) out.old (seen_by (S.pages s.old) (S.logs s.old) (S.stops s.old) (S.failing s.old) (S.rooms s.old) (S.faults s.old)) result (node_of parts.new) out.new (seen_by (S.pages s.new) (S.logs s.new) (S.stops s.new) (S.failing s.new) (S.rooms s.new) (S.faults s.new)) }
    ensures parts { AreParts parts.new }
{
    match event {
        NodeEvent::Begin => step_begin(parts, out),
        NodeEvent::Read { tx, page } => step_read(parts, *tx, *page, s, out),
        NodeEvent::Write {
            tx,
            page,
            place,
            bytes,
        } => step_write(parts, *tx, *page, *place, bytes, s, out),
        NodeEvent::Commit { tx } => step_commit(parts, *tx, s, out),
        NodeEvent::Abort { tx } => step_abort(parts, *tx, s, out),
        NodeEvent::Deliver { from, message } => step_deliver(parts, *from, message, s, out),
        NodeEvent::Evict { page } => step_evict(parts, *page, s, out),
        NodeEvent::Flush { page } => step_flush(parts, *page, s, out),
        NodeEvent::Install { view } => step_install(parts, view, s, out),
        NodeEvent::Cut => step_cut(parts, s, out),
    }
}
