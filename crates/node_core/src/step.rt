ghost use Rattle.std.specs.Prelude.{◌≡◌, ◌≢◌, ◌≤◌, ◌<◌, ◌+◌, ◌++◌, ℕ, List, Option, ◌-◌, ◌^◌, [], length, min, Some, Err, IfErr, OnErr, OnOk};
ghost use Rattle.pcl_base.specs.Faults.{Rose};
ghost use Rattle.pcl_base.specs.declared.trace.Call.{Call as CallKind};
ghost use Rattle.disk_model.specs.Disk.{HasSizes};
ghost use Rattle.disk_model.specs.declared.stop.Stop.{Stop};
ghost use Rattle.run_rules.specs.Disk.{Disk};
ghost use Rattle.redo_log.specs.Told.{NoneFails};
ghost use Rattle.home.specs.Device.{told_by};
ghost use Rattle.node_rules.specs.NodeState.{number_of};
ghost use Rattle.node_rules.specs.NodeStep.{nodestep};
ghost use Rattle.step_laws.specs.Most.{most};
ghost use Rattle.node_parts.specs.Events.{event_of};
ghost use Rattle.node_parts.specs.Outputs.{HasRoom};
ghost use Rattle.node_parts.specs.State.{AreParts, node_of};
ghost use Rattle.node_parts.specs.declared.fault.StepFault.TheVariants.{Differs as differs, NoMemory as no_memory};
ghost use Rattle.page_owner.specs.Carry.{HasSame, halted_by};
ghost use Rattle.step_ends.specs.Ran.{Ran, OthersStayArmed};
ghost use Rattle.node_core.specs.Came.{Came};
ghost use Rattle.node_core.specs.Steps.{IsMore, IsStep, IsStepFault, MayCome, seen_by, stand};

use crate::fresh::step_fresh;
use crate::node::Node;
use disk_model::{Call, Storage};
use node_looks::most;
use node_parts::{NodeEvent, Outgoing, Outputs, Parts, StepFault};
use pcl_base::Reply;

impl Node {
    /// One step by the rules: the changing calls of its plan are made in order, and `out` gets its replies
    /// and sends appended. An event that is refused gets `Refused`, and nothing else happens. A message has
    /// to be one of the grammar, from another node below N; a view has to be one of N nodes, in which this
    /// node is live.
    ///
    /// `NoMemory` leaves the node, `out`, the pages and the logs as before: all memory of a step is taken
    /// before its first change. `Halted` comes only where the storage's count of that call's kind rose, and
    /// names the transaction whose whole record the step appended. `Differs` comes only where the step reads
    /// a page that has another number or version than it must. After these two the node may only be lost.
    pub fn step<S: Storage>(
        &mut self,
        event: &NodeEvent,
        s: &mut S,
        out: &mut Outputs,
    ) -> Result<(), StepFault>
        requires come { MayCome self.old (event_of event.now) }
        requires sizes { HasSizes self.old.home.config (S.pages s.old) (S.logs s.old) (S.rooms s.old) }
        ensures came { (d : Disk) → S.pages s.old ≡ Some d.pages → S.logs s.old ≡ Some d.logs → Came (number_of self.old) d (nodestep self.old (event_of event.now) d) result (stand self.old out.old (told_by (S.pages s.old) (S.logs s.old) (S.stops s.old))) (stand self.new out.new (told_by (S.pages s.new) (S.logs s.new) (S.stops s.new))) }
        ensures ran { (d : Disk) (stops : List (Option Stop)) (l : List (Option ℕ)) → S.pages s.old ≡ Some d.pages → S.logs s.old ≡ Some d.logs → S.stops s.old ≡ Some stops → NoneFails (S.failing s.old) (number_of self.old) l → Ran (number_of self.old) d stops (nodestep self.old (event_of event.now) d) result (stand self.old out.old (told_by (S.pages s.old) (S.logs s.old) (S.stops s.old))) (stand self.new out.new (told_by (S.pages s.new) (S.logs s.new) (S.stops s.new))) }
        ensures memory { result ≡ Err no_memory → (self.new ≡ self.old) × HasSame out.old out.new × (told_by (S.pages s.new) (S.logs s.new) (S.stops s.new) ≡ told_by (S.pages s.old) (S.logs s.old) (S.stops s.old)) }
        ensures config { self.new.home.config ≡ self.old.home.config }
        ensures number { number_of self.new ≡ number_of self.old }
        ensures fault { IfErr result IsStepFault }
        ensures sizes { HasSizes self.old.home.config (S.pages s.new) (S.logs s.new) (S.rooms s.new) }
        ensures others { (d : Disk) → S.pages s.old ≡ Some d.pages → S.logs s.old ≡ Some d.logs → OthersStayArmed (number_of self.old) (S.stops s.old) (S.stops s.new) }
        ensures calm { (l : List (Option ℕ)) → NoneFails (S.failing s.old) (number_of self.old) l → NoneFails (S.failing s.new) (number_of self.old) l }
        ensures quiet { (l : List (Option ℕ)) → NoneFails (S.failing s.old) (number_of self.old) l → (halted_by result ≢ Some Call.Read) × (halted_by result ≢ Some Call.Log) }
        ensures counts { (k : CallKind) → S.faults s.old k ≤ S.faults s.new k }
        ensures cause { (k : CallKind) → halted_by result ≡ Some k → Rose (S.faults s.old k) (S.faults s.new k) }
    {
        step_parts(&mut self.parts, event, s, out)
    }
}

/// The same over the parts of a node.
fn step_parts<S: Storage>(
    parts: &mut Parts,
    event: &NodeEvent,
    s: &mut S,
    out: &mut Outputs,
) -> Result<(), StepFault>
    requires parts { AreParts parts.old }
    requires come { MayCome (node_of parts.old) (event_of event.now) }
    requires sizes { HasSizes parts.old.home.config (S.pages s.old) (S.logs s.old) (S.rooms s.old) }
    ensures step { IsStep (node_of parts.old) (event_of event.now) out.old (seen_by (S.pages s.old) (S.logs s.old) (S.stops s.old) (S.failing s.old) (S.rooms s.old) (S.faults s.old)) result (node_of parts.new) out.new (seen_by (S.pages s.new) (S.logs s.new) (S.stops s.new) (S.failing s.new) (S.rooms s.new) (S.faults s.new)) }
    ensures parts { AreParts parts.new }
{
    if out.replies().is_empty() && out.sends().is_empty() {
        return step_fresh(parts, event, s, out);
    }
    step_behind(parts, event, s, out)
}

/// The same, with replies and sends that are put behind those before. The room for them is taken before
/// the step, for as many as its bound says.
fn step_behind<S: Storage>(
    parts: &mut Parts,
    event: &NodeEvent,
    s: &mut S,
    out: &mut Outputs,
) -> Result<(), StepFault>
    requires parts { AreParts parts.old }
    requires come { MayCome (node_of parts.old) (event_of event.now) }
    requires sizes { HasSizes parts.old.home.config (S.pages s.old) (S.logs s.old) (S.rooms s.old) }
    ensures step { IsStep (node_of parts.old) (event_of event.now) out.old (seen_by (S.pages s.old) (S.logs s.old) (S.stops s.old) (S.failing s.old) (S.rooms s.old) (S.faults s.old)) result (node_of parts.new) out.new (seen_by (S.pages s.new) (S.logs s.new) (S.stops s.new) (S.failing s.new) (S.rooms s.new) (S.faults s.new)) }
    ensures parts { AreParts parts.new }
{
    let bound = most(parts, event);
    match out.reserve(bound, bound) {
        Err(_) => Err(StepFault::NoMemory),
        Ok(()) => step_apart(parts, event, bound, s, out),
    }
}

/// The same, where there is room for that many.
fn step_apart<S: Storage>(
    parts: &mut Parts,
    event: &NodeEvent,
    bound: usize,
    s: &mut S,
    out: &mut Outputs,
) -> Result<(), StepFault>
    requires parts { AreParts parts.old }
    requires come { MayCome (node_of parts.old) (event_of event.now) }
    requires bound { bound ≡ min (most (node_of parts.old) (event_of event.now)) (2 ^ 64 - 1) }
    requires room { HasRoom out.old bound bound }
    requires sizes { HasSizes parts.old.home.config (S.pages s.old) (S.logs s.old) (S.rooms s.old) }
    ensures step { IsStep (node_of parts.old) (event_of event.now) out.old (seen_by (S.pages s.old) (S.logs s.old) (S.stops s.old) (S.failing s.old) (S.rooms s.old) (S.faults s.old)) result (node_of parts.new) out.new (seen_by (S.pages s.new) (S.logs s.new) (S.stops s.new) (S.failing s.new) (S.rooms s.new) (S.faults s.new)) }
    ensures parts { AreParts parts.new }
{
    let mut own = Outputs::open(parts.alloc);
    match step_fresh(parts, event, s, &mut own) {
        Err(fault) => Err(fault),
        Ok(()) => put_behind(bound, own, out),
    }
}

/// Puts outputs behind others, where they are within the bound for which there is room. It takes no memory.
///
/// No step gives more, as its bound is a law of the rules; but a storage that tells nothing can't show it.
/// So the answer is then one after which the node is lost.
fn put_behind(bound: usize, own: Outputs, out: &mut Outputs) -> Result<(), StepFault>
    requires { HasRoom out.old bound bound }
    ensures ok { OnOk result ((out.new.replies ≡ out.old.replies ++ own.replies) × (out.new.sends ≡ out.old.sends ++ own.sends)) }
    ensures fault { IfErr result (λ e. e ≡ differs 0 0 1) }
    ensures more { OnErr result (IsMore bound own) }
{
    let (replies, sends) = own.into_parts();
    if bound < replies.len() || bound < sends.len() {
        return Err(StepFault::Differs {
            page: 0,
            expected: 0,
            found: 1,
        });
    }
    append(replies, sends, out);
    Ok(())
}

/// Puts replies and sends last, for which there is room. It takes no memory.
fn append(replies: Vec<Reply>, sends: Vec<Outgoing>, out: &mut Outputs)
    requires replies { length replies.items ≤ out.old.reply_room }
    requires sends { length sends.items ≤ out.old.send_room }
    ensures replies { out.new.replies ≡ out.old.replies ++ replies.items }
    ensures sends { out.new.sends ≡ out.old.sends ++ sends.items }
{
    append_replies(replies, out);
    append_sends(sends, out);
}

/// Puts replies last, for which there is room.
fn append_replies(replies: Vec<Reply>, out: &mut Outputs)
    requires { length replies.items ≤ out.old.reply_room }
    ensures replies { out.new.replies ≡ out.old.replies ++ replies.items }
    ensures sends { out.new.sends ≡ out.old.sends }
    ensures room { out.new.send_room ≡ out.old.send_room }
{
    let mut left = replies.into_iter();
    while let Some(reply) = left.next() {
        out.reply(reply);
    }
}

/// Puts sends last, for which there is room.
fn append_sends(sends: Vec<Outgoing>, out: &mut Outputs)
    requires { length sends.items ≤ out.old.send_room }
    ensures replies { out.new.replies ≡ out.old.replies }
    ensures sends { out.new.sends ≡ out.old.sends ++ sends.items }
{
    let mut left = sends.into_iter();
    while let Some(sent) = left.next() {
        let Outgoing { to, message } = sent;
        out.send(to, message);
    }
}
