ghost use Rattle.std.specs.Prelude.{◌≡◌, [], None};
ghost use Rattle.std.specs.List.{list_any};
ghost use Rattle.disk_model.specs.Disk.{HasSizes};
ghost use Rattle.home.specs.Commits.{commit_calls};
ghost use Rattle.node_rules.specs.NodeState.{Commit as commits};
ghost use Rattle.node_rules.specs.OpenTxs.{pending_of};
ghost use Rattle.node_rules.specs.Refusals.{refusal};
ghost use Rattle.node_rules.specs.Words.{is_exclusive};
ghost use Rattle.node_parts.specs.State.{AreParts, node_of};
ghost use Rattle.node_core.specs.Named.{forced_by, names_forced};
ghost use Rattle.node_core.specs.Steps.{IsStep, seen_by};

use disk_model::{Call, Storage};
use node_parts::{Outputs, Parts, StepFault};
use own_steps::commit;
use pcl_base::{Held, Mode, TxId};

/// Commits a transaction, which isn't refused, into empty outputs. A halt at a read behind the force names
/// it, since its whole record stands in the log by then.
pub(crate) fn step_commit<S: Storage>(
    parts: &mut Parts,
    tx: TxId,
    s: &mut S,
    out: &mut Outputs,
) -> Result<(), StepFault>
    requires parts { AreParts parts.old }
    requires none { refusal (node_of parts.old) (commits tx) ≡ None }
    requires sizes { HasSizes parts.old.home.config (S.pages s.old) (S.logs s.old) (S.rooms s.old) }
    requires replies { out.old.replies ≡ [] }
    requires sends { out.old.sends ≡ [] }
    ensures step { IsStep (node_of parts.old) (commits tx) out.old (seen_by (S.pages s.old) (S.logs s.old) (S.stops s.old) (S.failing s.old) (S.rooms s.old) (S.faults s.old)) result (node_of parts.new) out.new (seen_by (S.pages s.new) (S.logs s.new) (S.stops s.new) (S.failing s.new) (S.rooms s.new) (S.faults s.new)) }
    ensures parts { AreParts parts.new }
{
    let forced = forced_tx(parts, tx);
    let answer = commit(parts, tx, s, out);
    name_forced(answer, forced)
}

/// The transaction that its commit forces: none where it wrote no page.
fn forced_tx(parts: &Parts, tx: TxId) -> Option<TxId>
    requires { pending_of parts.now.home.txs tx ≡ None }
    ensures { result ≡ forced_by (commit_calls parts.now.home tx) }
{
    if has_written(parts.home.txs().locks(tx)) {
        return Some(tx);
    }
    None
}

/// Whether one of the locks is exclusive.
fn has_written(locks: &[Held]) -> bool
    ensures { result ≡ list_any (λ l. is_exclusive l.mode) locks.now }
{
    locks.iter().any(|lock| lock.mode == Mode::Exclusive)
}

/// The answer of a commit, of which a halt at a read names the transaction that was forced.
fn name_forced(answer: Result<(), StepFault>, forced: Option<TxId>) -> Result<(), StepFault>
    ensures { result ≡ names_forced forced answer }
{
    match answer {
        Ok(()) => Ok(()),
        Err(StepFault::Halted { call, kept }) => match call {
            Call::Read => Err(StepFault::Halted { call, kept: forced }),
            _ => Err(StepFault::Halted { call, kept }),
        },
        Err(fault) => Err(fault),
    }
}
