ghost use Rattle.std.specs.Prelude.{◌≡◌, ℕ, length, OnOk, IsOk, IsErr};
ghost use Rattle.disk_model.specs.Disk.{IsIn, HasRoom, LoweredAtMost, AppendsPrefix, with_appended};
ghost use Rattle.disk_model.specs.Causes.{HasCauses};
ghost use Rattle.disk_model.specs.Stops.{Fate, Done, Stopped, change_fate, after_change, kept_bytes};

use disk_model::{Call, Storage};
use pcl_base::{Failed, NodeNo};

/// Appends the bytes of a record to a node's own log, durably and by one force. The log's spare
/// room must be at least their number.
///
/// `Failed` comes only where the storage's count of forces rose; a prefix of the bytes is then
/// appended.
pub fn commit<S: Storage>(s: &mut S, node: NodeNo, bytes: &[u8]) -> Result<(), Failed>
    requires node { IsIn (S.logs s.old) node }
    requires there { IsIn (S.rooms s.old) node }
    requires room { HasRoom (S.rooms s.old) node (length bytes.now) }
    ensures appended { OnOk result (S.logs s.new ≡ with_appended (S.logs s.old) node bytes.now) }
    ensures torn { AppendsPrefix (S.logs s.old) (S.logs s.new) node bytes.now }
    ensures pages { S.pages s.new ≡ S.pages s.old }
    ensures rooms { LoweredAtMost (S.rooms s.old) (S.rooms s.new) node (length bytes.now) }
    ensures stops { S.stops s.new ≡ after_change (S.stops s.old) node }
    ensures failing { S.failing s.new ≡ S.failing s.old }
    ensures done { change_fate (S.stops s.old) node ≡ Fate.Done → IsOk result }
    ensures stopped { (kept : ℕ) → change_fate (S.stops s.old) node ≡ Fate.Stopped kept → IsErr result }
    ensures left { (kept : ℕ) → change_fate (S.stops s.old) node ≡ Fate.Stopped kept → S.logs s.new ≡ with_appended (S.logs s.old) node (kept_bytes kept bytes.now) }
    ensures cause { HasCauses Call.Force (S.faults s.old) (S.faults s.new) result }
{
    s.force(node, bytes)
}
