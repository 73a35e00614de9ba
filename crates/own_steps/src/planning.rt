ghost use Rattle.std.specs.Prelude.{◌≡◌, ◌<◌, ◌≤◌, ◌∷◌, is_some, IfOk};
ghost use Rattle.pcl_base.specs.declared.reply.Reply.TheVariants.{Waits as waits};
ghost use Rattle.home.specs.Asked.{asked};
ghost use Rattle.home_laws.specs.Homes.{IsHome};
ghost use Rattle.node_rules.specs.AccessRule.{mode_of_write};
ghost use Rattle.node_rules.specs.NodeState.{table_of};
ghost use Rattle.node_rules.specs.OpenTxs.{pending_of};
ghost use Rattle.node_rules.specs.Words.{pick};
ghost use Rattle.node_parts.specs.State.{AreParts, node_of};
ghost use Rattle.page_owner.specs.Planned.{IsPlanFor};
ghost use Rattle.own_steps.specs.Calls.{planned_request};

use authority::Outcome;
use home::Access;
use node_parts::{Outputs, Parts};
use page_owner::plan_request;
use pcl_base::{Mode, NoMemory, Page, Reply, Request};

/// What is planned for an own page where an access of it will wait; nothing where the node doesn't own
/// the page. Nothing is changed.
pub(crate) fn plan_access(parts: &Parts, a: &Access) -> Result<Option<Outcome>, NoMemory>
    requires parts { AreParts parts.now }
    requires page { a.now.page < parts.now.home.config.pages }
    ensures plan { IfOk result (IsPlanFor (table_of (node_of parts.now) a.now.page) (planned_request (asked a.now) parts.now.me parts.now.home)) }
    ensures home { IsHome parts.now.home }
{
    let request = Request {
        tx: a.tx,
        page: a.page,
        mode: mode_of(&a.write),
        have: parts.home.pool().find(a.page),
    };
    plan_request(parts, &request)
}

/// The mode that an access asks for.
fn mode_of(write: &Option<(u32, Page)>) -> Mode
    ensures { result ≡ mode_of_write write.now }
{
    match write {
        None => Mode::Shared,
        Some(_) => Mode::Exclusive,
    }
}

/// `Waits` is the first reply where the transaction of an access still waits. It takes no memory.
pub(crate) fn tell_waiting(parts: &Parts, a: &Access, out: &mut Outputs)
    requires { 1 ≤ out.old.reply_room }
    ensures replies { out.new.replies ≡ pick (is_some (pending_of parts.now.home.txs a.now.tx)) (waits a.now.tx a.now.page ∷ out.old.replies) out.old.replies }
    ensures sends { out.new.sends ≡ out.old.sends }
{
    if parts.home.txs().pending(a.tx).is_some() {
        let (tx, page) = (a.tx, a.page);
        out.reply_first(Reply::Waits { tx, page });
    }
}
