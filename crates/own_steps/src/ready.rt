ghost use Rattle.std.specs.Prelude.{◌≡◌, ◌<◌, ◌≤◌, ◌+◌, true, false, None, IfOk, OnOk, OnErr};
ghost use Rattle.std.specs.List.{AllByRecursion};
ghost use Rattle.node_rules.specs.EndRule.{at_version_end};
ghost use Rattle.node_rules.specs.OpenTxs.{pending_of};
ghost use Rattle.home_laws.specs.Homes.{IsHome};
ghost use Rattle.node_parts.specs.State.{AreParts, node_of};
ghost use Rattle.page_owner.specs.Planned.{ArePartsBut, SameView};
ghost use Rattle.own_steps.specs.Ends.{AwaitsEnds, HasEntry, HasMemoryFor, IsOwned, decisions_in, dues, pages_in};

use crate::page_end::{PageEnd, plan_ends};
use crate::rooms::{decisions_in, give_up_rooms, make_rooms};
use node_parts::{Outputs, Parts, Stock};
use pcl_base::{NoMemory, TxId};

/// What is planned for the end of a transaction at each of its pages, with all memory that telling it
/// takes: room for the entries, for a reply more than decisions, for the messages, and for the images
/// of grants. For the rules nothing changes, also after `NoMemory`.
pub(crate) fn prepare_ends(
    parts: &mut Parts,
    tx: TxId,
    commits: bool,
    out: &mut Outputs,
) -> Result<(Vec<PageEnd>, Stock), NoMemory>
    requires parts { AreParts parts.old }
    requires idle { commits ≡ true → pending_of parts.old.home.txs tx ≡ None }
    requires last { commits ≡ true → at_version_end parts.old.home tx ≡ false }
    ensures awaits { IfOk result (λ r. AwaitsEnds parts.new tx (dues commits parts.old.home tx) r.0.items) }
    ensures memory { IfOk result (λ r. HasMemoryFor r.0.items r.1 out.new) }
    ensures reply { IfOk result (λ r. decisions_in r.0.items + 1 ≤ out.new.reply_room) }
    ensures size { IfOk result (λ r. r.1.size ≡ parts.old.home.config.size) }
    ensures home { OnOk result (IsHome parts.old.home) }
    ensures node { node_of parts.new ≡ node_of parts.old }
    ensures view { SameView parts.old parts.new }
    ensures err { OnErr result (AreParts parts.new) }
    ensures replies { out.new.replies ≡ out.old.replies }
    ensures sends { out.new.sends ≡ out.old.sends }
{
    let plans = plan_ends(parts, tx, commits)?;
    match take_memory(parts, plans.as_slice(), out) {
        Ok(stock) => Ok((plans, stock)),
        Err(fault) => {
            give_up_rooms(parts, plans.into_iter());
            Err(fault)
        }
    }
}

/// The memory for these plans. After `NoMemory` there may be room for some of the entries.
fn take_memory(parts: &mut Parts, plans: &[PageEnd], out: &mut Outputs) -> Result<Stock, NoMemory>
    requires parts { AreParts parts.old }
    requires below { AllByRecursion (λ x. x.page < parts.old.home.config.pages) plans.now }
    requires own { AllByRecursion (IsOwned (node_of parts.old)) plans.now }
    ensures parts { ArePartsBut (pages_in plans.now) parts.new }
    ensures rooms { OnOk result (AllByRecursion (HasEntry parts.new.tables) plans.now) }
    ensures memory { IfOk result (λ stock. HasMemoryFor plans.now stock out.new) }
    ensures reply { OnOk result (decisions_in plans.now + 1 ≤ out.new.reply_room) }
    ensures size { IfOk result (λ stock. stock.size ≡ parts.old.home.config.size) }
    ensures node { node_of parts.new ≡ node_of parts.old }
    ensures view { SameView parts.old parts.new }
    ensures replies { out.new.replies ≡ out.old.replies }
    ensures sends { out.new.sends ≡ out.old.sends }
{
    make_rooms(parts, plans)?;
    let Some(count) = decisions_in(plans) else {
        return Err(NoMemory);
    };
    let Some(replies) = count.checked_add(1) else {
        return Err(NoMemory);
    };
    let Some(sends) = count.checked_add(plans.len()) else {
        return Err(NoMemory);
    };
    out.reserve(replies, sends)?;
    let size = parts.home.config().size() as usize;
    Ok(Stock::open(parts.alloc, size, count)?)
}
