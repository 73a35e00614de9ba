ghost use Rattle.std.specs.Prelude.{◌≡◌, ◌<◌, ◌∷◌, ℕ, List, is_some, length, IfSome, OnOk};
ghost use Rattle.std.specs.List.{AllByRecursion};
ghost use Rattle.std.specs.Vec.Iter.{into_iter_items, into_iter_len};
ghost use Rattle.node_parts.specs.State.{AreParts, node_of};
ghost use Rattle.node_parts.specs.Tables.{made_at};
ghost use Rattle.page_owner.specs.Planned.{ArePartsBut, SameView};
ghost use Rattle.own_steps.specs.declared.page_end.PageEnd.{PageEnd as PlannedEnd};
ghost use Rattle.own_steps.specs.Ends.{HasEntry, IsOwned, decisions_in, decisions_of, pages_in};

use crate::page_end::PageEnd;
use authority::Outcome;
use node_parts::Parts;
use pcl_base::{NoMemory, PageNo};
use std::vec::IntoIter;

// Room for the entries of pages whose ends are planned.

/// How many decisions are planned; none where no number tells it.
pub(crate) fn decisions_in(plans: &[PageEnd]) -> Option<usize>
    ensures { IfSome result (λ n. n ≡ decisions_in plans.now) }
{
    let mut count: usize = 0;
    for plan in plans {
        count = count.checked_add(decisions_of(&plan.planned))?;
    }
    Some(count)
}

/// How many decisions a plan has.
fn decisions_of(planned: &Option<Outcome>) -> usize
    ensures { result ≡ decisions_of planned.now }
{
    match planned {
        None => 0,
        Some(planned) => planned.decisions.len(),
    }
}

/// Makes room for the entries of these pages. For the rules nothing changes. After `NoMemory` there may
/// be room for some of them.
pub(crate) fn make_rooms(parts: &mut Parts, plans: &[PageEnd]) -> Result<(), NoMemory>
    requires parts { AreParts parts.old }
    requires below { AllByRecursion (λ x. x.page < parts.old.home.config.pages) plans.now }
    requires own { AllByRecursion (IsOwned (node_of parts.old)) plans.now }
    ensures parts { ArePartsBut (pages_in plans.now) parts.new }
    ensures rooms { OnOk result (AllByRecursion (HasEntry parts.new.tables) plans.now) }
    ensures node { node_of parts.new ≡ node_of parts.old }
    ensures view { SameView parts.old parts.new }
{
    for plan in plans {
        make_room(parts, plan)?;
    }
    Ok(())
}

/// The same of one page.
fn make_room(parts: &mut Parts, plan: &PageEnd) -> Result<(), NoMemory>
    requires page { plan.now.page < parts.old.home.config.pages }
    requires config { parts.old.tables.config ≡ parts.old.home.config }
    requires own { IsOwned (node_of parts.old) plan.now }
    ensures room { OnOk result (HasEntry parts.new.tables plan.now) }
    ensures others { (x : PlannedEnd) → HasEntry parts.old.tables x → HasEntry parts.new.tables x }
    ensures parts { (ps : List ℕ) → ArePartsBut ps parts.old → ArePartsBut (plan.now.page ∷ ps) parts.new }
    ensures node { node_of parts.new ≡ node_of parts.old }
    ensures view { SameView parts.old parts.new }
{
    if plan.planned.is_none() {
        return Ok(());
    }
    parts.tables.make(plan.page)
}

/// Gives up the room for the entries of these pages that aren't in use. For the rules nothing changes.
pub(crate) fn give_up_rooms(parts: &mut Parts, plans: IntoIter<PageEnd>)
    requires len { into_iter_len plans ≡ length (into_iter_items plans) }
    requires parts { ArePartsBut (pages_in (into_iter_items plans)) parts.old }
    requires below { AllByRecursion (λ x. x.page < parts.old.home.config.pages) (into_iter_items plans) }
    ensures parts { AreParts parts.new }
    ensures node { node_of parts.new ≡ node_of parts.old }
{
    let mut plans = plans;
    while let Some(plan) = plans.next() {
        give_up_room(parts, plan.page);
    }
}

/// The same of one page.
fn give_up_room(parts: &mut Parts, page: PageNo)
    requires page { page < parts.old.home.config.pages }
    requires config { parts.old.tables.config ≡ parts.old.home.config }
    ensures parts { (ps : List ℕ) → ArePartsBut (page ∷ ps) parts.old → ArePartsBut ps parts.new }
    ensures node { node_of parts.new ≡ node_of parts.old }
    ensures config { parts.new.tables.config ≡ parts.old.tables.config }
{
    if has_room(parts, page) {
        parts.tables.give_up(page);
    }
}

/// Whether an entry was made for a page.
pub(crate) fn has_room(parts: &Parts, page: PageNo) -> bool
    requires page { page < parts.now.home.config.pages }
    requires config { parts.now.tables.config ≡ parts.now.home.config }
    ensures { result ≡ is_some (made_at parts.now.tables page) }
{
    let q = parts.home.config().partition(page);
    match parts.tables.at(q) {
        None => false,
        Some(table) => table.find(page).is_some(),
    }
}
