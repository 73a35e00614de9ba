ghost use Rattle.std.specs.Prelude.{◌≡◌, ℕ, ◌+◌, ◌<◌, ◌≤◌, ◌⊎◌, length, IfOk, IfSome, OnOk, OnErr, IsOk, IsErr, IfErr, slice_range};
ghost use Rattle.disk_model.specs.Disk.{Pages, Logs, Rooms, told_at, IsIn, AreBytes, HasLength, ReachesTo, HasRoom, NotLowered, LoweredAtMost, AppendsPrefix, with_page, with_appended, with_trimmed, with_cut};
ghost use Rattle.disk_model.specs.Causes.{Counts, HasCauses};
ghost use Rattle.disk_model.specs.Stops.{Stops, Failing, Fate, Done, Stopped, change_fate, after_change, reading_fate, after_read, left_by, kept_bytes};

use pcl_base::{Call, Failed, NoMemory, NodeNo, PageNo};

/// The shared disk: `P` stored pages of `B + 16` bytes and a log for each of `N` nodes.
///
/// A storage may tell its pages, its logs and their spare rooms, and which of the next calls
/// fail; what it doesn't tell, its calls say nothing of. Its counts of faults, one for each
/// [`Call`], are always told. `Failed` comes only where the count of the call's kind rose.
///
/// `by` is the node that calls. Numbers are in range, and the buffer of a page has the page's
/// length.
pub trait Storage {
    /// The stored pages.
    ghost pages: { Self → Pages };

    /// The logs.
    ghost logs: { Self → Logs };

    /// The spare room of each log.
    ghost rooms: { Self → Rooms };

    /// The stop of changing calls that each node has, if any.
    ghost stops: { Self → Stops };

    /// The reading call of each node that fails, if any.
    ghost failing: { Self → Failing };

    /// The count of faults of each kind. None of them ever falls.
    ghost faults: { Self → Counts };

    /// Makes the spare room of a log at least `bytes`, so that a force of so many takes no
    /// memory. It is no device call. Without memory a room may have grown.
    fn room(&mut self, node: NodeNo, bytes: u64) -> Result<(), NoMemory>
        requires log { IsIn (logs self.old) node }
        requires there { IsIn (rooms self.old) node }
        ensures made { OnOk result (HasRoom (rooms self.new) node bytes) }
        ensures rooms { NotLowered (rooms self.old) (rooms self.new) }
        ensures pages { pages self.new ≡ pages self.old }
        ensures logs { logs self.new ≡ logs self.old }
        ensures stops { stops self.new ≡ stops self.old }
        ensures failing { failing self.new ≡ failing self.old }
        ensures faults { faults self.new ≡ faults self.old };

    /// Copies a stored page into `out`.
    fn read_page(&mut self, by: NodeNo, page: PageNo, out: &mut [u8]) -> Result<(), Failed>
        requires node { IsIn (logs self.old) by }
        requires page { IsIn (pages self.old) page }
        requires length { HasLength (told_at (pages self.old) page) (length out.old) }
        ensures value { OnOk result (AreBytes (told_at (pages self.old) page) out.new) }
        ensures pages { pages self.new ≡ pages self.old }
        ensures logs { logs self.new ≡ logs self.old }
        ensures rooms { rooms self.new ≡ rooms self.old }
        ensures stops { stops self.new ≡ stops self.old }
        ensures failing { failing self.new ≡ after_read (failing self.old) by }
        ensures done { reading_fate (failing self.old) by ≡ Fate.Done → IsOk result }
        ensures stopped { (kept : ℕ) → reading_fate (failing self.old) by ≡ Fate.Stopped kept → IsErr result }
        ensures cause { HasCauses Call.Read (faults self.old) (faults self.new) result };

    /// The length of a log.
    fn log_len(&mut self, by: NodeNo, node: NodeNo) -> Result<u64, Failed>
        requires by { IsIn (logs self.old) by }
        requires node { IsIn (logs self.old) node }
        ensures value { IfOk result (λ n. HasLength (told_at (logs self.old) node) n) }
        ensures pages { pages self.new ≡ pages self.old }
        ensures logs { logs self.new ≡ logs self.old }
        ensures rooms { rooms self.new ≡ rooms self.old }
        ensures stops { stops self.new ≡ stops self.old }
        ensures failing { failing self.new ≡ after_read (failing self.old) by }
        ensures done { reading_fate (failing self.old) by ≡ Fate.Done → IsOk result }
        ensures stopped { (kept : ℕ) → reading_fate (failing self.old) by ≡ Fate.Stopped kept → IsErr result }
        ensures cause { HasCauses Call.Log (faults self.old) (faults self.new) result };

    /// Copies a piece of a log into `out`, the first of its bytes at place `from`. `out` has 1 to
    /// 4,096 bytes, so who wants more of a log reads it in pieces.
    fn read_log(
        &mut self,
        by: NodeNo,
        node: NodeNo,
        from: u64,
        out: &mut [u8],
    ) -> Result<(), Failed>
        requires by { IsIn (logs self.old) by }
        requires node { IsIn (logs self.old) node }
        requires some { 1 ≤ length out.old }
        requires most { length out.old ≤ 4096 }
        requires within { ReachesTo (told_at (logs self.old) node) (from + length out.old) }
        ensures value { OnOk result (IfSome (told_at (logs self.old) node) (λ b. out.new ≡ slice_range b from (from + length out.old))) }
        ensures pages { pages self.new ≡ pages self.old }
        ensures logs { logs self.new ≡ logs self.old }
        ensures rooms { rooms self.new ≡ rooms self.old }
        ensures stops { stops self.new ≡ stops self.old }
        ensures failing { failing self.new ≡ after_read (failing self.old) by }
        ensures done { reading_fate (failing self.old) by ≡ Fate.Done → IsOk result }
        ensures stopped { (kept : ℕ) → reading_fate (failing self.old) by ≡ Fate.Stopped kept → IsErr result }
        ensures cause { HasCauses Call.Log (faults self.old) (faults self.new) result };

    /// Makes a stored page the given bytes. After `Failed` the page is the old one or the new
    /// one.
    fn write_page(&mut self, by: NodeNo, page: PageNo, bytes: &[u8]) -> Result<(), Failed>
        requires node { IsIn (logs self.old) by }
        requires page { IsIn (pages self.old) page }
        requires length { HasLength (told_at (pages self.old) page) (length bytes.now) }
        ensures written { OnOk result (pages self.new ≡ with_page (pages self.old) page bytes.now) }
        ensures torn { (pages self.new ≡ pages self.old) ⊎ (pages self.new ≡ with_page (pages self.old) page bytes.now) }
        ensures logs { logs self.new ≡ logs self.old }
        ensures rooms { rooms self.new ≡ rooms self.old }
        ensures stops { stops self.new ≡ after_change (stops self.old) by }
        ensures failing { failing self.new ≡ failing self.old }
        ensures done { change_fate (stops self.old) by ≡ Fate.Done → IsOk result }
        ensures stopped { (kept : ℕ) → change_fate (stops self.old) by ≡ Fate.Stopped kept → IsErr result }
        ensures left { (kept : ℕ) → change_fate (stops self.old) by ≡ Fate.Stopped kept → pages self.new ≡ left_by kept (pages self.old) (with_page (pages self.old) page bytes.now) }
        ensures cause { HasCauses Call.Write (faults self.old) (faults self.new) result };

    /// Appends bytes to a node's own log, durably, within the log's spare room. After `Failed` a
    /// prefix of them is appended. It takes no memory.
    fn force(&mut self, node: NodeNo, bytes: &[u8]) -> Result<(), Failed>
        requires node { IsIn (logs self.old) node }
        requires there { IsIn (rooms self.old) node }
        requires room { HasRoom (rooms self.old) node (length bytes.now) }
        ensures appended { OnOk result (logs self.new ≡ with_appended (logs self.old) node bytes.now) }
        ensures torn { AppendsPrefix (logs self.old) (logs self.new) node bytes.now }
        ensures pages { pages self.new ≡ pages self.old }
        ensures rooms { LoweredAtMost (rooms self.old) (rooms self.new) node (length bytes.now) }
        ensures stops { stops self.new ≡ after_change (stops self.old) node }
        ensures failing { failing self.new ≡ failing self.old }
        ensures done { change_fate (stops self.old) node ≡ Fate.Done → IsOk result }
        ensures stopped { (kept : ℕ) → change_fate (stops self.old) node ≡ Fate.Stopped kept → IsErr result }
        ensures left { (kept : ℕ) → change_fate (stops self.old) node ≡ Fate.Stopped kept → logs self.new ≡ with_appended (logs self.old) node (kept_bytes kept bytes.now) }
        ensures cause { HasCauses Call.Force (faults self.old) (faults self.new) result };

    /// Keeps the first `keep` bytes of a node's own log. After `Failed` the log is as before or
    /// trimmed.
    fn trim_log(&mut self, node: NodeNo, keep: u64) -> Result<(), Failed>
        requires node { IsIn (logs self.old) node }
        requires within { ReachesTo (told_at (logs self.old) node) keep }
        ensures trimmed { OnOk result (logs self.new ≡ with_trimmed (logs self.old) node keep) }
        ensures torn { (logs self.new ≡ logs self.old) ⊎ (logs self.new ≡ with_trimmed (logs self.old) node keep) }
        ensures pages { pages self.new ≡ pages self.old }
        ensures rooms { NotLowered (rooms self.old) (rooms self.new) }
        ensures stops { stops self.new ≡ after_change (stops self.old) node }
        ensures failing { failing self.new ≡ failing self.old }
        ensures done { change_fate (stops self.old) node ≡ Fate.Done → IsOk result }
        ensures stopped { (kept : ℕ) → change_fate (stops self.old) node ≡ Fate.Stopped kept → IsErr result }
        ensures left { (kept : ℕ) → change_fate (stops self.old) node ≡ Fate.Stopped kept → logs self.new ≡ left_by kept (logs self.old) (with_trimmed (logs self.old) node keep) }
        ensures cause { HasCauses Call.Trim (faults self.old) (faults self.new) result };

    /// Takes the first `count` bytes off a node's own log. After `Failed` the log is as before or
    /// cut.
    fn cut_log(&mut self, node: NodeNo, count: u64) -> Result<(), Failed>
        requires node { IsIn (logs self.old) node }
        requires within { ReachesTo (told_at (logs self.old) node) count }
        ensures cut { OnOk result (logs self.new ≡ with_cut (logs self.old) node count) }
        ensures torn { (logs self.new ≡ logs self.old) ⊎ (logs self.new ≡ with_cut (logs self.old) node count) }
        ensures pages { pages self.new ≡ pages self.old }
        ensures rooms { NotLowered (rooms self.old) (rooms self.new) }
        ensures stops { stops self.new ≡ after_change (stops self.old) node }
        ensures failing { failing self.new ≡ failing self.old }
        ensures done { change_fate (stops self.old) node ≡ Fate.Done → IsOk result }
        ensures stopped { (kept : ℕ) → change_fate (stops self.old) node ≡ Fate.Stopped kept → IsErr result }
        ensures left { (kept : ℕ) → change_fate (stops self.old) node ≡ Fate.Stopped kept → logs self.new ≡ left_by kept (logs self.old) (with_cut (logs self.old) node count) }
        ensures cause { HasCauses Call.Cut (faults self.old) (faults self.new) result };
}
