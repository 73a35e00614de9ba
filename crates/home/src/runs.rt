ghost use Rattle.std.specs.Prelude.{◌≡◌, min, max};
ghost use Rattle.smallvec.specs.SmallVec.{HasRoomFor};
ghost use Rattle.node_rules.specs.NodeState.{cover};

use smallvec::SmallVec;
use std::marker::Model;

/// A run of places of a page: from the first one up to the one behind the last.
#[derive(Clone, Copy, Debug, Default, PartialEq, Eq)]
pub(crate) struct Run {
    pub(crate) from: u32,
    pub(crate) to: u32,
}

impl Model for Run {
    ghost use Rattle.node_rules.specs.NodeState.{Run as Places};

    ghost Value = { Places };

    ghost view = { λ r. record { from = r.from; to = r.to } };

    ghost inverse = { λ v. record { from = v.from; to = v.to } };
}

/// Puts a further run among runs that rise and don't touch; runs that touch become one. Takes no
/// memory.
pub(crate) fn put_run(runs: &mut SmallVec<Run, 2>, from: u32, to: u32)
    requires room { HasRoomFor runs.old 1 }
    ensures { runs.new.items ≡ cover runs.old.items from to }
{
    let mut at = 0;
    let mut run = Run { from, to };
    while at < runs.len() {
        let next = runs[at];
        if next.to < run.from {
            at += 1;
        } else if run.to < next.from {
            runs.insert(at, run).unwrap();
            return;
        } else {
            run = joined(run, next);
            runs.remove(at);
        }
    }
    runs.push_reserved(run);
}

/// One run from the start of the first of two to the end of the last.
fn joined(a: Run, b: Run) -> Run
    ensures from { result.from ≡ min b.from a.from }
    ensures to { result.to ≡ max b.to a.to }
{
    Run {
        from: b.from.min(a.from),
        to: b.to.max(a.to),
    }
}
