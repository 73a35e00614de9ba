ghost use Rattle.std.specs.Prelude.{◌≡◌, ◌<◌, ◌≤◌, ◌++◌, ℕ, List, Option, Some, None, All, map, IfOk, IfErr, IfSome};
ghost use Rattle.pcl_base.specs.Faults.{Rose};
ghost use Rattle.pcl_base.specs.declared.trace.Call.{Call as Kind};
ghost use Rattle.disk_model.specs.Disk.{HasSizes};
ghost use Rattle.run_rules.specs.Disk.{Disk};
ghost use Rattle.node_rules.specs.LockTable.{pages_of, pages_from, serve, set_version};
ghost use Rattle.redo_log.specs.Told.{NoneFails};
ghost use Rattle.install_plans.specs.Plans.{CanRedo, Redoes, listed_by, versions_by, IsPlanFault, halted_by};

use crate::planner::Planner;
use disk_model::Storage;
use node_parts::StepFault;
use page_store::RedoFault;
use partition_redo::{Planned, prepare};
use pcl_base::{NoMemory, NodeNo, PageNo};

/// The pages of a partition, rising.
pub fn partition_pages(by: &Planner, q: NodeNo) -> Result<Vec<PageNo>, NoMemory>
    ensures { IfOk result (λ ps. ps.items ≡ pages_of by.now.config q) }
{
    let mut pages = Vec::new(by.alloc);
    let mut page = q as PageNo;
    for _ in 0..by.config.pages() {
        if page >= by.config.pages() {
            return Ok(pages);
        }
        pages.push(page)?;
        page += by.config.nodes();
    }
    Ok(pages)
}

/// Plans the redo of some pages. Where there are none, nothing is read.
///
/// `Halted` comes only where the storage's count of that kind of call rose, and that is a read of a
/// page or of a log. `Differs` names the first of the pages whose stored number is neither 0 nor the
/// page's number plus one.
pub fn plan_redo<S: Storage>(
    by: &Planner,
    pages: &Vec<PageNo>,
    s: &mut S,
) -> Result<Option<Planned>, StepFault>
    requires sizes { HasSizes by.now.config (S.pages s.old) (S.logs s.old) (S.rooms s.old) }
    requires me { by.now.me < by.now.config.nodes }
    requires below { All (λ p. p < by.now.config.pages) pages.now.items }
    ensures redo { IfOk result (λ r. IfSome r (CanRedo by.now.config by.now.me (S.pages s.old) (S.logs s.old))) }
    ensures listed { IfOk result (λ r. listed_by r ≡ pages.now.items) }
    ensures named { IfOk result (λ r. map (λ v. v.0) (versions_by r) ≡ pages.now.items) }
    ensures redoes { (d : Disk) → S.pages s.old ≡ Some d.pages → S.logs s.old ≡ Some d.logs → Redoes by.now.config d pages.now.items result }
    ensures fault { IfErr result IsPlanFault }
    ensures pages { S.pages s.new ≡ S.pages s.old }
    ensures logs { S.logs s.new ≡ S.logs s.old }
    ensures rooms { S.rooms s.new ≡ S.rooms s.old }
    ensures stops { S.stops s.new ≡ S.stops s.old }
    ensures calm { (l : List (Option ℕ)) → NoneFails (S.failing s.old) by.now.me l → NoneFails (S.failing s.new) by.now.me l }
    ensures quiet { (l : List (Option ℕ)) → NoneFails (S.failing s.old) by.now.me l → halted_by result ≡ None }
    ensures counts { (k : Kind) → S.faults s.old k ≤ S.faults s.new k }
    ensures cause { (k : Kind) → halted_by result ≡ Some k → Rose (S.faults s.old k) (S.faults s.new k) }
{
    if pages.is_empty() {
        return Ok(None);
    }
    match prepare(by.alloc, s, &by.config, by.me, pages) {
        Ok(plan) => Ok(Some(plan)),
        Err(RedoFault::NoMemory) => Err(StepFault::NoMemory),
        Err(RedoFault::Failed(call)) => Err(StepFault::Halted { call, kept: None }),
        Err(
            RedoFault::BadPage {
                page,
                expected,
                found,
            },
        ) => Err(StepFault::Differs {
            page,
            expected,
            found,
        }),
    }
}
