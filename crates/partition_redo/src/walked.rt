ghost use Rattle.std.specs.Prelude.{◌≡◌, ◌≢◌, ℕ, ◌<◌, ◌≤◌, ◌⊎◌, ◌^◌, List, Option, Some, None, OnOk, IfErr, IsOk};
ghost use Rattle.std.specs.List.{AllByRecursion};
ghost use Rattle.pcl_base.specs.Faults.{Rose};
ghost use Rattle.pcl_base.specs.declared.trace.Call.{Call as Kind};
ghost use Rattle.disk_model.specs.Disk.{IsIn, HasSizes};
ghost use Rattle.run_rules.specs.Disk.{Disk, log_at};
ghost use Rattle.run_rules.specs.Views.{count_from};
ghost use Rattle.redo_log.specs.Told.{NoneFails};
ghost use Rattle.redo_log.specs.Placed.{placed_of};
ghost use Rattle.page_store.specs.declared.fault.RedoFault.TheVariants.{Failed as failed, NoMemory as no_memory};
ghost use Rattle.partition_redo.specs.Index.{known, known_all, known_logs};

use crate::index::Index;
use disk_model::{Call, Storage};
use page_store::RedoFault;
use pcl_base::{Config, Failed, NodeNo};
use redo_log::Walk;

/// Notes the whole records of one log in an index.
pub(crate) fn index_log<S: Storage>(
    s: &mut S,
    config: &Config,
    by: NodeNo,
    node: NodeNo,
    index: &mut Index,
) -> Result<(), RedoFault>
    requires by { IsIn (S.logs s.old) by }
    requires node { IsIn (S.logs s.old) node }
    ensures known { OnOk result ((d : Disk) (p v : ℕ) → S.logs s.old ≡ Some d.logs → known index.new p v ≡ known_all p v node (placed_of config.now (log_at d node)) (known index.old p v)) }
    ensures versions { OnOk result ((d : Disk) → S.logs s.old ≡ Some d.logs → AllByRecursion (λ x. x.entry.version < 2 ^ 64) (placed_of config.now (log_at d node))) }
    ensures pages { S.pages s.new ≡ S.pages s.old }
    ensures logs { S.logs s.new ≡ S.logs s.old }
    ensures rooms { S.rooms s.new ≡ S.rooms s.old }
    ensures stops { S.stops s.new ≡ S.stops s.old }
    ensures calm { (l : List (Option ℕ)) → NoneFails (S.failing s.old) by l → NoneFails (S.failing s.new) by l }
    ensures quiet { (l : List (Option ℕ)) → NoneFails (S.failing s.old) by l → IfErr result (λ e. e ≡ no_memory) }
    ensures counts { (k : Kind) → S.faults s.old k ≤ S.faults s.new k }
    ensures faults { IfErr result (λ e. (e ≡ failed Call.Log) ⊎ (e ≡ no_memory)) }
    ensures cause { IfErr result (λ e. e ≡ failed Call.Log → Rose (S.faults s.old Call.Log) (S.faults s.new Call.Log)) }
{
    let mut walk = Walk::open(config, node);
    for _ in 0..u64::MAX {
        match walk.next(s, by) {
            Ok(Some(seen)) => index.see(node, seen)?,
            Ok(None) => return Ok(()),
            Err(Failed) => return Err(RedoFault::Failed(Call::Log)),
        }
    }
    Ok(())
}

/// Notes the whole records of all logs in an index, one log after the other.
pub(crate) fn index_logs<S: Storage>(
    s: &mut S,
    config: &Config,
    by: NodeNo,
    index: &mut Index,
) -> Result<(), RedoFault>
    requires sizes { HasSizes config.now (S.pages s.old) (S.logs s.old) (S.rooms s.old) }
    requires by { by < config.now.nodes }
    ensures known { OnOk result ((d : Disk) (p v : ℕ) → S.logs s.old ≡ Some d.logs → known index.new p v ≡ known_logs config.now d p v (count_from 0 config.now.nodes) (known index.old p v)) }
    ensures versions { OnOk result ((d : Disk) (n : ℕ) → S.logs s.old ≡ Some d.logs → n < config.now.nodes → AllByRecursion (λ x. x.entry.version < 2 ^ 64) (placed_of config.now (log_at d n))) }
    ensures pages { S.pages s.new ≡ S.pages s.old }
    ensures logs { S.logs s.new ≡ S.logs s.old }
    ensures rooms { S.rooms s.new ≡ S.rooms s.old }
    ensures stops { S.stops s.new ≡ S.stops s.old }
    ensures calm { (l : List (Option ℕ)) → NoneFails (S.failing s.old) by l → NoneFails (S.failing s.new) by l }
    ensures quiet { (l : List (Option ℕ)) → NoneFails (S.failing s.old) by l → IfErr result (λ e. e ≡ no_memory) }
    ensures counts { (k : Kind) → S.faults s.old k ≤ S.faults s.new k }
    ensures faults { IfErr result (λ e. (e ≡ failed Call.Log) ⊎ (e ≡ no_memory)) }
    ensures cause { IfErr result (λ e. e ≡ failed Call.Log → Rose (S.faults s.old Call.Log) (S.faults s.new Call.Log)) }
{
    let nodes = config.nodes() as NodeNo;
    for node in 0..nodes {
        index_log(s, config, by, node, index)?;
    }
    Ok(())
}
