ghost use Rattle.std.specs.Prelude.{◌≡◌, ◌≢◌, ℕ, ◌<◌, ◌≤◌, ◌+◌, ◌^◌, List, Option, Some, Ok, Err, IfOk, IfErr, length};
ghost use Rattle.pcl_base.specs.Faults.{Rose};
ghost use Rattle.pcl_base.specs.declared.trace.Call.{Call as Kind};
ghost use Rattle.disk_model.specs.Disk.{HasSizes, told_at, IsIn, HasLength};
ghost use Rattle.node_rules.specs.CutRule.{cuttable as may_be_cut};
ghost use Rattle.page_store.specs.declared.fault.RedoFault.TheVariants.{Failed as failed};
ghost use Rattle.redo_log.specs.Told.{IsLog, NoneFails};
ghost use Rattle.log_cut.specs.Cutting.{AnswersCut, AnswersStep, IsCutFault};

use disk_model::{Call, Storage};
use page_store::{PageFault, RedoFault, read};
use pcl_base::{Config, Failed, NodeNo, Seen};
use redo_log::Walk;

/// How many bytes may be cut from the front of a node's log: the longest run of whole records in
/// which every page's version is at most the disk's. It walks the log once, and reads the stored
/// pages in log order into `raw`, up to the first that isn't on disk; `raw` has the length of a
/// stored page, and its content is free afterwards. They are within the log. It takes no memory and
/// writes nothing.
///
/// `Failed` names the call, a read of a page or of the log, whose count rose. `BadPage` names the first page that was read
/// whose stored number is neither 0 nor the page's number plus one.
pub fn cuttable<S: Storage>(
    s: &mut S,
    config: &Config,
    node: NodeNo,
    raw: &mut [u8],
) -> Result<u64, RedoFault>
    requires sizes { HasSizes config.now (S.pages s.old) (S.logs s.old) (S.rooms s.old) }
    requires node { node < config.now.nodes }
    requires raw { length raw.old ≡ config.now.size + 16 }
    ensures value { (pages : List (List ℕ)) (log : List ℕ) → S.pages s.old ≡ Some pages → IsLog (S.logs s.old) node log → AnswersCut (may_be_cut config.now pages log) result }
    ensures within { IfOk result (λ count. (log : List ℕ) → IsLog (S.logs s.old) node log → count ≤ length log) }
    ensures fault { IfErr result IsCutFault }
    ensures pages { S.pages s.new ≡ S.pages s.old }
    ensures logs { S.logs s.new ≡ S.logs s.old }
    ensures rooms { S.rooms s.new ≡ S.rooms s.old }
    ensures stops { S.stops s.new ≡ S.stops s.old }
    ensures calm { (l : List (Option ℕ)) → NoneFails (S.failing s.old) node l → NoneFails (S.failing s.new) node l }
    ensures quiet { (l : List (Option ℕ)) (k : Kind) → NoneFails (S.failing s.old) node l → result ≢ Err (failed k) }
    ensures counts { (k : Kind) → S.faults s.old k ≤ S.faults s.new k }
    ensures cause { (k : Kind) → result ≡ Err (failed k) → Rose (S.faults s.old k) (S.faults s.new k) }
{
    let mut walk = Walk::open(config, node);
    for _ in 0..u64::MAX {
        let whole = walk.whole();
        let seen = match walk.next(s, node) {
            Ok(Some(seen)) => seen,
            Ok(None) => return Ok(whole),
            Err(Failed) => return Err(RedoFault::Failed(Call::Log)),
        };
        match is_on_disk(s, node, &seen, raw) {
            Ok(true) => {}
            Ok(false) => return Ok(whole),
            Err(fault) => return Err(fault),
        }
    }
    Ok(walk.whole())
}

/// Whether the disk has a page at its version or a later one.
fn is_on_disk<S: Storage>(
    s: &mut S,
    by: NodeNo,
    seen: &Seen,
    raw: &mut [u8],
) -> Result<bool, RedoFault>
    requires by { IsIn (S.logs s.old) by }
    requires page { IsIn (S.pages s.old) seen.now.page }
    requires length { HasLength (told_at (S.pages s.old) seen.now.page) (length raw.old) }
    requires size { 16 ≤ length raw.old }
    ensures value { (pages : List (List ℕ)) → S.pages s.old ≡ Some pages → AnswersStep pages seen.now.page seen.now.version result }
    ensures fault { IfErr result IsCutFault }
    ensures place { seen.now.place < 2 ^ 64 }
    ensures pages { S.pages s.new ≡ S.pages s.old }
    ensures logs { S.logs s.new ≡ S.logs s.old }
    ensures rooms { S.rooms s.new ≡ S.rooms s.old }
    ensures stops { S.stops s.new ≡ S.stops s.old }
    ensures calm { (l : List (Option ℕ)) → NoneFails (S.failing s.old) by l → NoneFails (S.failing s.new) by l }
    ensures quiet { (l : List (Option ℕ)) (k : Kind) → NoneFails (S.failing s.old) by l → result ≢ Err (failed k) }
    ensures counts { (k : Kind) → S.faults s.old k ≤ S.faults s.new k }
    ensures cause { (k : Kind) → result ≡ Err (failed k) → Rose (S.faults s.old k) (S.faults s.new k) }
{
    let _place = seen.place;
    match read(s, by, seen.page, raw) {
        Ok(version) => Ok(seen.version <= version),
        Err(PageFault::Failed) => Err(RedoFault::Failed(Call::Read)),
        Err(PageFault::BadPage { expected, found }) => Err(RedoFault::BadPage {
            page: seen.page,
            expected,
            found,
        }),
    }
}
