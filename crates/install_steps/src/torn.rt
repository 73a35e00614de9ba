ghost use Rattle.std.specs.Prelude.{◌≡◌, ℕ, ◌≤◌, ◌<◌, ◌^◌, List, Option, Some, None, length, IfOk, IfErr, IfSome};
ghost use Rattle.pcl_base.specs.Faults.{Rose};
ghost use Rattle.pcl_base.specs.declared.trace.Call.{Call as Kind};
ghost use Rattle.disk_model.specs.Disk.{HasSizes, ReachesTo, told_at};
ghost use Rattle.redo_log.specs.Told.{IsLog, NoneFails};
ghost use Rattle.text_rules.specs.LogRecord.{whole_len};
ghost use Rattle.node_parts.specs.declared.fault.StepFault.TheVariants.{Halted as halted};
ghost use Rattle.page_owner.specs.Carry.{halted_by};
ghost use Rattle.install_steps.specs.Births.{KeepsRecords, kept_of};

use disk_model::{Call, Storage};
use node_parts::StepFault;
use pcl_base::{Config, Failed, NodeNo, Seen};
use redo_log::Walk;

/// How many bytes of the node's log stay once its torn rest is trimmed, where there is one. The log is
/// walked once, and its length is asked. It takes no memory and changes nothing.
///
/// `Halted` comes only where the storage's count of `Log` rose.
pub(crate) fn torn_rest<S: Storage>(
    config: &Config,
    me: NodeNo,
    s: &mut S,
) -> Result<Option<u64>, StepFault>
    requires me { me < config.now.nodes }
    requires sizes { HasSizes config.now (S.pages s.old) (S.logs s.old) (S.rooms s.old) }
    ensures found { (log : List ℕ) → IsLog (S.logs s.old) me log → IfOk result (λ o. o ≡ kept_of config.now log) }
    ensures keeps { IfOk result (λ o. KeepsRecords config.now me o (S.logs s.old)) }
    ensures within { IfOk result (λ o. IfSome o (λ keep. ReachesTo (told_at (S.logs s.old) me) keep)) }
    ensures fault { IfErr result (λ e. e ≡ halted Call.Log None) }
    ensures pages { S.pages s.new ≡ S.pages s.old }
    ensures logs { S.logs s.new ≡ S.logs s.old }
    ensures rooms { S.rooms s.new ≡ S.rooms s.old }
    ensures stops { S.stops s.new ≡ S.stops s.old }
    ensures calm { (l : List (Option ℕ)) → NoneFails (S.failing s.old) me l → NoneFails (S.failing s.new) me l }
    ensures quiet { (l : List (Option ℕ)) → NoneFails (S.failing s.old) me l → halted_by result ≡ None }
    ensures counts { (k : Kind) → S.faults s.old k ≤ S.faults s.new k }
    ensures cause { (k : Kind) → halted_by result ≡ Some k → Rose (S.faults s.old k) (S.faults s.new k) }
{
    walked_rest(config, me, s)
}

/// The same, found by a walk over the log.
fn walked_rest<S: Storage>(config: &Config, me: NodeNo, s: &mut S) -> Result<Option<u64>, StepFault>
    requires me { me < config.now.nodes }
    requires sizes { HasSizes config.now (S.pages s.old) (S.logs s.old) (S.rooms s.old) }
    ensures found { (log : List ℕ) → IsLog (S.logs s.old) me log → IfOk result (λ o. o ≡ kept_of config.now log) }
    ensures within { IfOk result (λ o. IfSome o (λ keep. ReachesTo (told_at (S.logs s.old) me) keep)) }
    ensures fault { IfErr result (λ e. e ≡ halted Call.Log None) }
    ensures pages { S.pages s.new ≡ S.pages s.old }
    ensures logs { S.logs s.new ≡ S.logs s.old }
    ensures rooms { S.rooms s.new ≡ S.rooms s.old }
    ensures stops { S.stops s.new ≡ S.stops s.old }
    ensures calm { (l : List (Option ℕ)) → NoneFails (S.failing s.old) me l → NoneFails (S.failing s.new) me l }
    ensures quiet { (l : List (Option ℕ)) → NoneFails (S.failing s.old) me l → halted_by result ≡ None }
    ensures counts { (k : Kind) → S.faults s.old k ≤ S.faults s.new k }
    ensures cause { (k : Kind) → halted_by result ≡ Some k → Rose (S.faults s.old k) (S.faults s.new k) }
{
    let mut walk = Walk::open(config, me);
    for _ in 0..u64::MAX {
        match walk.next(s, me) {
            Ok(Some(seen)) => {
                let _place = place_of(&seen);
            }
            Ok(None) => return rest_after(config, me, walk.whole(), s),
            Err(Failed) => {
                return Err(StepFault::Halted {
                    call: Call::Log,
                    kept: None,
                });
            }
        }
    }
    Ok(None)
}

/// The place of an answer of a walk.
fn place_of(seen: &Seen) -> u64
    ensures value { result ≡ seen.now.place }
    ensures small { seen.now.place < 2 ^ 64 }
{
    seen.place
}

/// The bytes that stay, where the whole records of the node's log have this length.
fn rest_after<S: Storage>(
    config: &Config,
    me: NodeNo,
    whole: u64,
    s: &mut S,
) -> Result<Option<u64>, StepFault>
    requires me { me < config.now.nodes }
    requires sizes { HasSizes config.now (S.pages s.old) (S.logs s.old) (S.rooms s.old) }
    requires whole { (log : List ℕ) → IsLog (S.logs s.old) me log → whole ≡ whole_len config.now log }
    ensures found { (log : List ℕ) → IsLog (S.logs s.old) me log → IfOk result (λ o. o ≡ kept_of config.now log) }
    ensures within { IfOk result (λ o. IfSome o (λ keep. ReachesTo (told_at (S.logs s.old) me) keep)) }
    ensures fault { IfErr result (λ e. e ≡ halted Call.Log None) }
    ensures pages { S.pages s.new ≡ S.pages s.old }
    ensures logs { S.logs s.new ≡ S.logs s.old }
    ensures rooms { S.rooms s.new ≡ S.rooms s.old }
    ensures stops { S.stops s.new ≡ S.stops s.old }
    ensures calm { (l : List (Option ℕ)) → NoneFails (S.failing s.old) me l → NoneFails (S.failing s.new) me l }
    ensures quiet { (l : List (Option ℕ)) → NoneFails (S.failing s.old) me l → halted_by result ≡ None }
    ensures counts { (k : Kind) → S.faults s.old k ≤ S.faults s.new k }
    ensures cause { (k : Kind) → halted_by result ≡ Some k → Rose (S.faults s.old k) (S.faults s.new k) }
{
    match s.log_len(me, me) {
        Ok(length) => {
            if whole < length {
                return Ok(Some(whole));
            }
            Ok(None)
        }
        Err(Failed) => Err(StepFault::Halted {
            call: Call::Log,
            kept: None,
        }),
    }
}
