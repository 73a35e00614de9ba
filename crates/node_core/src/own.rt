ghost use Rattle.std.specs.Prelude.{◌≡◌, [], None};
ghost use Rattle.disk_model.specs.Disk.{HasSizes};
ghost use Rattle.node_rules.specs.NodeState.{Abort as aborts, Begin as begins, Cut as cuts, Evict as evicts, Flush as flushes, Read as reads, Write as writes};
ghost use Rattle.node_rules.specs.Refusals.{refusal};
ghost use Rattle.node_parts.specs.State.{AreParts, node_of};
ghost use Rattle.node_core.specs.Steps.{IsStep, Seen, seen_by};

use cut_step::cut;
use disk_model::Storage;
use home::Access;
use node_parts::{Outputs, Parts, StepFault};
use own_steps::{abort, access, begin, evict, flush};
use pcl_base::{Page, PageNo, TxId};

// The steps of the node's own events, none of which is refused. Each goes into empty outputs.

/// Opens a transaction. It makes no call of the storage.
pub(crate) fn step_begin(parts: &mut Parts, out: &mut Outputs) -> Result<(), StepFault>
    requires parts { AreParts parts.old }
    requires none { refusal (node_of parts.old) begins ≡ None }
    requires replies { out.old.replies ≡ [] }
    requires sends { out.old.sends ≡ [] }
    ensures step { (seen : Seen) → HasSizes parts.old.home.config seen.told.pages seen.told.logs seen.rooms → IsStep (node_of parts.old) begins out.old seen result (node_of parts.new) out.new seen }
    ensures parts { AreParts parts.new }
{
    begin(parts, out)
}

/// Reads a page.
pub(crate) fn step_read<S: Storage>(
    parts: &mut Parts,
    tx: TxId,
    page: PageNo,
    s: &mut S,
    out: &mut Outputs,
) -> Result<(), StepFault>
    requires parts { AreParts parts.old }
    requires none { refusal (node_of parts.old) (reads tx page) ≡ None }
    requires sizes { HasSizes parts.old.home.config (S.pages s.old) (S.logs s.old) (S.rooms s.old) }
    requires replies { out.old.replies ≡ [] }
    requires sends { out.old.sends ≡ [] }
    ensures step { IsStep (node_of parts.old) (reads tx page) out.old (seen_by (S.pages s.old) (S.logs s.old) (S.stops s.old) (S.failing s.old) (S.rooms s.old) (S.faults s.old)) result (node_of parts.new) out.new (seen_by (S.pages s.new) (S.logs s.new) (S.stops s.new) (S.failing s.new) (S.rooms s.new) (S.faults s.new)) }
    ensures parts { AreParts parts.new }
{
    let write = None;
    access(parts, &Access { tx, page, write }, s, out)
}

/// Writes bytes into a page, from a place on. Their copy is the first memory that it takes.
pub(crate) fn step_write<S: Storage>(
    parts: &mut Parts,
    tx: TxId,
    page: PageNo,
    place: u32,
    bytes: &Page,
    s: &mut S,
    out: &mut Outputs,
) -> Result<(), StepFault>
    requires parts { AreParts parts.old }
    requires none { refusal (node_of parts.old) (writes tx page place bytes.now) ≡ None }
    requires sizes { HasSizes parts.old.home.config (S.pages s.old) (S.logs s.old) (S.rooms s.old) }
    requires replies { out.old.replies ≡ [] }
    requires sends { out.old.sends ≡ [] }
    ensures step { IsStep (node_of parts.old) (writes tx page place bytes.now) out.old (seen_by (S.pages s.old) (S.logs s.old) (S.stops s.old) (S.failing s.old) (S.rooms s.old) (S.faults s.old)) result (node_of parts.new) out.new (seen_by (S.pages s.new) (S.logs s.new) (S.stops s.new) (S.failing s.new) (S.rooms s.new) (S.faults s.new)) }
    ensures parts { AreParts parts.new }
{
    match bytes.copy() {
        Err(_) => Err(StepFault::NoMemory),
        Ok(bytes) => {
            let write = Some((place, bytes));
            access(parts, &Access { tx, page, write }, s, out)
        }
    }
}

/// Gives a transaction up.
pub(crate) fn step_abort<S: Storage>(
    parts: &mut Parts,
    tx: TxId,
    s: &mut S,
    out: &mut Outputs,
) -> Result<(), StepFault>
    requires parts { AreParts parts.old }
    requires none { refusal (node_of parts.old) (aborts tx) ≡ None }
    requires sizes { HasSizes parts.old.home.config (S.pages s.old) (S.logs s.old) (S.rooms s.old) }
    requires replies { out.old.replies ≡ [] }
    requires sends { out.old.sends ≡ [] }
    ensures step { IsStep (node_of parts.old) (aborts tx) out.old (seen_by (S.pages s.old) (S.logs s.old) (S.stops s.old) (S.failing s.old) (S.rooms s.old) (S.faults s.old)) result (node_of parts.new) out.new (seen_by (S.pages s.new) (S.logs s.new) (S.stops s.new) (S.failing s.new) (S.rooms s.new) (S.faults s.new)) }
    ensures parts { AreParts parts.new }
{
    abort(parts, tx, s, out)
}

/// Takes the page's copy out of the buffer.
pub(crate) fn step_evict<S: Storage>(
    parts: &mut Parts,
    page: PageNo,
    s: &mut S,
    out: &mut Outputs,
) -> Result<(), StepFault>
    requires parts { AreParts parts.old }
    requires none { refusal (node_of parts.old) (evicts page) ≡ None }
    requires sizes { HasSizes parts.old.home.config (S.pages s.old) (S.logs s.old) (S.rooms s.old) }
    requires replies { out.old.replies ≡ [] }
    requires sends { out.old.sends ≡ [] }
    ensures step { IsStep (node_of parts.old) (evicts page) out.old (seen_by (S.pages s.old) (S.logs s.old) (S.stops s.old) (S.failing s.old) (S.rooms s.old) (S.faults s.old)) result (node_of parts.new) out.new (seen_by (S.pages s.new) (S.logs s.new) (S.stops s.new) (S.failing s.new) (S.rooms s.new) (S.faults s.new)) }
    ensures parts { AreParts parts.new }
{
    evict(parts, page, s, out)
}

/// Writes the page's copy to disk.
pub(crate) fn step_flush<S: Storage>(
    parts: &mut Parts,
    page: PageNo,
    s: &mut S,
    out: &mut Outputs,
) -> Result<(), StepFault>
    requires parts { AreParts parts.old }
    requires none { refusal (node_of parts.old) (flushes page) ≡ None }
    requires sizes { HasSizes parts.old.home.config (S.pages s.old) (S.logs s.old) (S.rooms s.old) }
    requires replies { out.old.replies ≡ [] }
    requires sends { out.old.sends ≡ [] }
    ensures step { IsStep (node_of parts.old) (flushes page) out.old (seen_by (S.pages s.old) (S.logs s.old) (S.stops s.old) (S.failing s.old) (S.rooms s.old) (S.faults s.old)) result (node_of parts.new) out.new (seen_by (S.pages s.new) (S.logs s.new) (S.stops s.new) (S.failing s.new) (S.rooms s.new) (S.faults s.new)) }
    ensures parts { AreParts parts.new }
{
    flush(parts, page, s, out)
}

/// Cuts the front of the log.
pub(crate) fn step_cut<S: Storage>(
    parts: &Parts,
    s: &mut S,
    out: &mut Outputs,
) -> Result<(), StepFault>
    requires parts { AreParts parts.now }
    requires none { refusal (node_of parts.now) cuts ≡ None }
    requires sizes { HasSizes parts.now.home.config (S.pages s.old) (S.logs s.old) (S.rooms s.old) }
    requires replies { out.old.replies ≡ [] }
    requires sends { out.old.sends ≡ [] }
    ensures step { IsStep (node_of parts.now) cuts out.old (seen_by (S.pages s.old) (S.logs s.old) (S.stops s.old) (S.failing s.old) (S.rooms s.old) (S.faults s.old)) result (node_of parts.now) out.new (seen_by (S.pages s.new) (S.logs s.new) (S.stops s.new) (S.failing s.new) (S.rooms s.new) (S.faults s.new)) }
{
    cut(parts, s, out)
}
