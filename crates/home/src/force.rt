ghost use Rattle.std.specs.Prelude.{◌≡◌, ◌≢◌, ℕ, ◌+◌, ◌<◌, ◌≤◌, Bool, true, false, length, None, Some, ◌⊎◌, IfSome};
ghost use Rattle.std.specs.Result.{result_err};
ghost use Rattle.pcl_base.specs.Faults.{Rose};
ghost use Rattle.pcl_base.specs.declared.trace.Call.{Call as Kind};
ghost use Rattle.disk_model.specs.Disk.{IsIn, HasRoom, LoweredAtMost, told_at, with_appended};
ghost use Rattle.disk_model.specs.Stops.{Done, Stopped, after_change, after_read, reading_fate};
ghost use Rattle.home.specs.declared.fault.HomeFault.TheVariants.{Failed as failed};
ghost use Rattle.home.specs.Answers.{refused_as};
ghost use Rattle.home.specs.Commits.{LogsLeft, IsDecided, Unasked, stops_left, failing_left};

use crate::fault::HomeFault;
use disk_model::{Call, Storage};
use pcl_base::{Failed, NodeNo};

/// Forces the bytes of a record to the log of the node, for which there is room, by one force. The
/// log's length is asked before, and once more after a force that failed, to know whether the whole
/// record stands there.
pub(crate) fn force<S: Storage>(s: &mut S, node: NodeNo, bytes: &[u8]) -> Result<(), HomeFault>
    requires node { IsIn (S.logs s.old) node }
    requires there { IsIn (S.rooms s.old) node }
    requires room { HasRoom (S.rooms s.old) node (length bytes.now) }
    ensures refused { refused_as result ≡ None }
    ensures logs { LogsLeft (result_err result) (with_appended (S.logs s.old) node bytes.now) node bytes.now (Unasked (S.faults s.old Call.Log) (S.faults s.new Call.Log) (S.failing s.old) node) (S.logs s.old) (S.logs s.new) }
    ensures decided { IsDecided (result_err result) node bytes.now (S.stops s.old) (S.failing s.old) (S.logs s.old) (S.logs s.new) }
    ensures stops { S.stops s.new ≡ stops_left (result_err result) (after_change (S.stops s.old) node) node (S.stops s.old) }
    ensures failing { S.failing s.new ≡ failing_left (result_err result) (after_read (S.failing s.old) node) node (S.failing s.old) }
    ensures pages { S.pages s.new ≡ S.pages s.old }
    ensures rooms { LoweredAtMost (S.rooms s.old) (S.rooms s.new) node (length bytes.now) }
    ensures counts { (k : Kind) → S.faults s.old k ≤ S.faults s.new k }
    ensures cause { (k : Kind) (kept : Bool) → result_err result ≡ Some (failed k kept) → Rose (S.faults s.old k) (S.faults s.new k) }
{
    match s.log_len(node, node) {
        Err(Failed) => Err(HomeFault::Failed {
            call: Call::Log,
            kept: false,
        }),
        Ok(before) => match redo_log::commit(s, node, bytes) {
            Ok(()) => Ok(()),
            Err(Failed) => {
                let kept = has_grown(s, node, before, bytes.len() as u64);
                Err(HomeFault::Failed {
                    call: Call::Force,
                    kept,
                })
            }
        },
    }
}

/// Whether the log of the node is so many bytes longer than it was; false as well where its length
/// can't be asked.
fn has_grown<S: Storage>(s: &mut S, node: NodeNo, before: u64, count: u64) -> bool
    requires node { IsIn (S.logs s.old) node }
    ensures yes { result ≡ true → IfSome (told_at (S.logs s.old) node) (λ log. before + count ≤ length log) }
    ensures no { result ≡ false → IfSome (told_at (S.logs s.old) node) (λ log. length log < before + count) ⊎ (Rose (S.faults s.old Call.Log) (S.faults s.new Call.Log) × (reading_fate (S.failing s.old) node ≢ Done)) }
    ensures unknown { (k : ℕ) → reading_fate (S.failing s.old) node ≡ Stopped k → result ≡ false }
    ensures logs { S.logs s.new ≡ S.logs s.old }
    ensures rooms { S.rooms s.new ≡ S.rooms s.old }
    ensures stops { S.stops s.new ≡ S.stops s.old }
    ensures failing { S.failing s.new ≡ after_read (S.failing s.old) node }
    ensures pages { S.pages s.new ≡ S.pages s.old }
    ensures counts { (k : Kind) → S.faults s.old k ≤ S.faults s.new k }
{
    match s.log_len(node, node) {
        Err(Failed) => false,
        Ok(now) => now >= count && now - count >= before,
    }
}
