ghost use Rattle.std.specs.Prelude.{◌≡◌, ◌≢◌, ℕ, ◌<◌, ◌≤◌, ◌⊎◌, List, Option, Some, All, map, length, IfOk, OnOk, IsOk, IfErr, Err, nat_eq};
ghost use Rattle.std.specs.Map.{lookup};
ghost use Rattle.pcl_base.specs.Faults.{Rose};
ghost use Rattle.pcl_base.specs.declared.trace.Call.{Call as Kind};
ghost use Rattle.disk_model.specs.Disk.{IsIn, HasSizes};
ghost use Rattle.disk_model.specs.Causes.{HasCauses};
ghost use Rattle.run_rules.specs.Disk.{Disk, log_at};
ghost use Rattle.run_rules.specs.Redo.{greatest, records_in};
ghost use Rattle.redo_log.specs.Told.{NoneFails};
ghost use Rattle.redo_log.specs.Placed.{placed_of};
ghost use Rattle.page_store.specs.declared.fault.RedoFault.TheVariants.{Failed as failed, NoMemory as no_memory};
ghost use Rattle.partition_redo.specs.Newest.{seen_all, seen_logs};

use crate::greatest::Greatest;
use disk_model::{Call, Storage};
use page_store::RedoFault;
use pcl_base::{Config, Failed, NodeNo, PageNo, Version};
use redo_log::Walk;
use std::alloc::Global;

/// Notes the versions in the whole records of one log.
fn see_log<S: Storage>(
    s: &mut S,
    config: &Config,
    by: NodeNo,
    node: NodeNo,
    greatest: &mut Greatest,
) -> Result<(), Failed>
    requires by { IsIn (S.logs s.old) by }
    requires node { IsIn (S.logs s.old) node }
    ensures seen { OnOk result ((d : Disk) (p : ℕ) → S.logs s.old ≡ Some d.logs → lookup (nat_eq p) greatest.new ≡ seen_all p (placed_of config.now (log_at d node)) (lookup (nat_eq p) greatest.old)) }
    ensures pages { S.pages s.new ≡ S.pages s.old }
    ensures logs { S.logs s.new ≡ S.logs s.old }
    ensures rooms { S.rooms s.new ≡ S.rooms s.old }
    ensures stops { S.stops s.new ≡ S.stops s.old }
    ensures calm { (l : List (Option ℕ)) → NoneFails (S.failing s.old) by l → NoneFails (S.failing s.new) by l }
    ensures quiet { (l : List (Option ℕ)) → NoneFails (S.failing s.old) by l → IsOk result }
    ensures cause { HasCauses Call.Log (S.faults s.old) (S.faults s.new) result }
{
    let mut walk = Walk::open(config, node);
    for _ in 0..u64::MAX {
        match walk.next(s, by)? {
            Some(seen) => greatest.see(seen),
            None => return Ok(()),
        }
    }
    Ok(())
}

/// The greatest version of each listed page in the whole records of the listed logs, of both
/// formats, or 0. It writes nothing and reads no page. Nodes are below `N`.
///
/// `Failed` comes only where the storage's count of `Log` rose.
pub fn newest<S: Storage>(
    alloc: Global,
    s: &mut S,
    config: &Config,
    by: NodeNo,
    pages: &Vec<PageNo>,
    logs: &Vec<NodeNo>,
) -> Result<Vec<Version>, RedoFault>
    requires sizes { HasSizes config.now (S.pages s.old) (S.logs s.old) (S.rooms s.old) }
    requires by { by < config.now.nodes }
    requires nodes { All (λ n. n < config.now.nodes) logs.now.items }
    ensures len { IfOk result (λ vs. length vs.items ≡ length pages.now.items) }
    ensures versions { IfOk result (λ vs. (d : Disk) → S.logs s.old ≡ Some d.logs → vs.items ≡ map (greatest (records_in config.now d logs.now.items)) pages.now.items) }
    ensures pages { S.pages s.new ≡ S.pages s.old }
    ensures logs { S.logs s.new ≡ S.logs s.old }
    ensures rooms { S.rooms s.new ≡ S.rooms s.old }
    ensures stops { S.stops s.new ≡ S.stops s.old }
    ensures calm { (l : List (Option ℕ)) → NoneFails (S.failing s.old) by l → NoneFails (S.failing s.new) by l }
    ensures quiet { (l : List (Option ℕ)) → NoneFails (S.failing s.old) by l → IfErr result (λ e. e ≡ no_memory) }
    ensures counts { (k : Kind) → S.faults s.old k ≤ S.faults s.new k }
    ensures faults { IfErr result (λ e. (e ≡ failed Call.Log) ⊎ (e ≡ no_memory)) }
    ensures cause { IfErr result (λ e. e ≡ failed Call.Log → Rose (S.faults s.old Call.Log) (S.faults s.new Call.Log)) }
{
    let mut greatest = Greatest::open(alloc, pages.as_slice())?;
    match see_logs(s, config, by, logs.as_slice(), &mut greatest) {
        Ok(()) => Ok(greatest.versions(alloc, pages.as_slice())?),
        Err(Failed) => Err(RedoFault::Failed(Call::Log)),
    }
}

/// Notes the versions in the whole records of some logs.
fn see_logs<S: Storage>(
    s: &mut S,
    config: &Config,
    by: NodeNo,
    logs: &[NodeNo],
    greatest: &mut Greatest,
) -> Result<(), Failed>
    requires sizes { HasSizes config.now (S.pages s.old) (S.logs s.old) (S.rooms s.old) }
    requires by { by < config.now.nodes }
    requires nodes { All (λ n. n < config.now.nodes) logs.now }
    ensures seen { OnOk result ((d : Disk) (p : ℕ) → S.logs s.old ≡ Some d.logs → lookup (nat_eq p) greatest.new ≡ seen_logs config.now d p logs.now (lookup (nat_eq p) greatest.old)) }
    ensures pages { S.pages s.new ≡ S.pages s.old }
    ensures logs { S.logs s.new ≡ S.logs s.old }
    ensures rooms { S.rooms s.new ≡ S.rooms s.old }
    ensures stops { S.stops s.new ≡ S.stops s.old }
    ensures calm { (l : List (Option ℕ)) → NoneFails (S.failing s.old) by l → NoneFails (S.failing s.new) by l }
    ensures quiet { (l : List (Option ℕ)) → NoneFails (S.failing s.old) by l → IsOk result }
    ensures cause { HasCauses Call.Log (S.faults s.old) (S.faults s.new) result }
{
    for node in logs {
        see_log(s, config, by, *node, greatest)?;
    }
    Ok(())
}
