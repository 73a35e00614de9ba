ghost use Rattle.std.specs.Prelude.{◌≡◌, ◌≤◌, ◌<◌, ◌+◌, ◌∷◌, ℕ, List, Option, Some, true, is_some, map, IfErr};
ghost use Rattle.std.specs.List.{AllByRecursion};
ghost use Rattle.pcl_base.specs.Faults.{Rose};
ghost use Rattle.pcl_base.specs.declared.trace.Call.{Call as CallKind};
ghost use Rattle.disk_model.specs.Disk.{HasSizes};
ghost use Rattle.redo_log.specs.Told.{NoneFails};
ghost use Rattle.node_rules.specs.DiskCalls.{DiskCall};
ghost use Rattle.node_rules.specs.EndRule.{Ending as EndOfPage};
ghost use Rattle.node_rules.specs.NodeState.{table_of};
ghost use Rattle.node_rules.specs.OwnerRule.{clean_unserved, is_unserved, tell_end};
ghost use Rattle.node_rules.specs.Work.{for_each, reply};
ghost use Rattle.node_parts.specs.Comes.{Comes, work_of};
ghost use Rattle.node_parts.specs.Outputs.{OutputsView};
ghost use Rattle.node_parts.specs.State.{AreParts, node_of};
ghost use Rattle.page_owner.specs.Carry.{IsReadHalt, SameNode, halted_by};
ghost use Rattle.own_steps.specs.Ends.{AwaitsEnds, HasMemoryFor, decisions_in, due};

use crate::page_end::PageEnd;
use crate::telling::tell_ends;
use disk_model::Storage;
use home::Ending;
use node_parts::{Outputs, Parts, StepFault, Stock};
use pcl_base::{PageNo, Reply, TxId};

// What follows the end of a transaction at its home.

/// The copies of the written pages of partitions that aren't served are clean; then the reply, and the
/// ends are told. It takes no memory.
pub(crate) fn tell_all<S: Storage>(
    parts: &mut Parts,
    tx: TxId,
    answer: Reply,
    ends: Vec<Ending>,
    plans: Vec<PageEnd>,
    stock: Stock,
    s: &mut S,
    out: &mut Outputs,
) -> Result<(), StepFault>
    requires awaits { AwaitsEnds parts.old tx (map due ends.items) plans.items }
    requires view { is_some parts.old.view ≡ true }
    requires sizes { HasSizes parts.old.home.config (S.pages s.old) (S.logs s.old) (S.rooms s.old) }
    requires memory { HasMemoryFor plans.items stock out.old }
    requires reply { decisions_in plans.items + 1 ≤ out.old.reply_room }
    requires size { parts.old.home.config.size ≤ stock.size }
    ensures comes { (ps : List (List ℕ)) (cs : List DiskCall) → S.pages s.old ≡ Some ps → Comes (for_each (tell_end tx) ends.items (reply answer (clean_unserved ends.items (work_of (node_of parts.old) ps cs out.old)))) result (work_of (node_of parts.new) ps cs out.new) }
    ensures parts { AreParts parts.new }
    ensures same { SameNode parts.old.home parts.new.home }
    ensures fault { IfErr result IsReadHalt }
    ensures pages { S.pages s.new ≡ S.pages s.old }
    ensures logs { S.logs s.new ≡ S.logs s.old }
    ensures rooms { S.rooms s.new ≡ S.rooms s.old }
    ensures stops { S.stops s.new ≡ S.stops s.old }
    ensures calm { (l : List (Option ℕ)) → NoneFails (S.failing s.old) parts.old.me l → NoneFails (S.failing s.new) parts.old.me l }
    ensures quiet { (l : List (Option ℕ)) → NoneFails (S.failing s.old) parts.old.me l → halted_by result ≡ None }
    ensures counts { (k : CallKind) → S.faults s.old k ≤ S.faults s.new k }
    ensures cause { (k : CallKind) → halted_by result ≡ Some k → Rose (S.faults s.old k) (S.faults s.new k) }
{
    let mut stock = stock;
    clean_copies(parts, ends.as_slice());
    out.reply(answer);
    tell_ends(parts, tx, ends, plans, &mut stock, s, out)
}

/// The copies of the written pages of partitions that aren't served are clean. It takes no memory.
fn clean_copies(parts: &mut Parts, ends: &[Ending])
    requires config { parts.old.tables.config ≡ parts.old.home.config }
    requires below { AllByRecursion (λ e. e.page < parts.old.home.config.pages) ends.now }
    ensures clean { (ps : List (List ℕ)) (cs : List DiskCall) (o : OutputsView) → clean_unserved ends.now (work_of (node_of parts.old) ps cs o) ≡ work_of (node_of parts.new) ps cs o }
    ensures rest { parts.new ≡ record parts.old { home = parts.new.home } }
    ensures same { SameNode parts.old.home parts.new.home }
{
    for end in ends {
        clean_copy(parts, end);
    }
}

/// The same of one page.
#[tactic(auto, unfolding(node_rules::specs::OwnerRule::clean_unserved))]
fn clean_copy(parts: &mut Parts, end: &Ending)
    requires config { parts.old.tables.config ≡ parts.old.home.config }
    requires page { end.now.page < parts.old.home.config.pages }
    ensures clean { (es : List EndOfPage) (ps : List (List ℕ)) (cs : List DiskCall) (o : OutputsView) → clean_unserved (end.now ∷ es) (work_of (node_of parts.old) ps cs o) ≡ clean_unserved es (work_of (node_of parts.new) ps cs o) }
    ensures rest { parts.new ≡ record parts.old { home = parts.new.home } }
    ensures same { SameNode parts.old.home parts.new.home }
{
    if end.change.is_none() {
        return;
    }
    if !is_unserved(parts, end.page) {
        return;
    }
    parts.home.clean(end.page);
}

/// Whether the node owns a page and doesn't serve its partition.
fn is_unserved(parts: &Parts, page: PageNo) -> bool
    requires config { parts.now.tables.config ≡ parts.now.home.config }
    requires page { page < parts.now.home.config.pages }
    ensures { result ≡ is_unserved (table_of (node_of parts.now) page) }
{
    let q = parts.home.config().partition(page);
    match parts.tables.at(q) {
        None => false,
        Some(table) => !table.serving(),
    }
}
